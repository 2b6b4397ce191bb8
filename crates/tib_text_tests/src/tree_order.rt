// Pairs of trees, by what decides their order.
ghost use Rattle.std.specs.Prelude.{◌≡◌, ◌≤◌, [], length};
ghost use Rattle.tib_lex.specs.Limits.{most_bytes};
ghost use Rattle.tib_lex.specs.Lists.{Each};
ghost use Rattle.tib_tree.specs.Growth.{HasLabels};

use std::alloc::Global;
use std::cmp::Ordering;
use tib_tree::{Labels, Tree, compare, read_trees};

// The order of two trees.
fn order_of_two(labels: &Labels, trees: &[Tree]) -> Option<Ordering>
    requires { Each (HasLabels labels.now) trees.now }
{
    match trees {
        [first, second] => Some(compare(labels, first, second)),
        _ => None,
    }
}

// The order of the two trees of a file, which is read into a table without labels.
fn order_in(alloc: Global, bytes: &[u8], labels: &mut Labels) -> Option<Ordering>
    requires short { length bytes.now ≤ most_bytes }
    requires new { labels.old ≡ [] }
{
    match read_trees(alloc, bytes, labels) {
        Ok(trees) => order_of_two(labels, &trees),
        Err(_) => None,
    }
}

// The order of the two trees of a file, whose labels are numbered in the order of first sight.
fn order_of(alloc: Global, bytes: &[u8]) -> Option<Ordering> {
    if bytes.len() > 8_388_608 {
        return None;
    }
    order_in(alloc, bytes, &mut Labels::new(alloc))
}

static ROWS: [(&[u8], Ordering); 7] = [
    (b"z\na(a)", Ordering::Less),
    (b"b\na", Ordering::Greater),
    (b"ab\na", Ordering::Greater),
    (b"f(a(a))\nf(a a)", Ordering::Less),
    (b"f(b a(a))\nf(a(a) b)", Ordering::Less),
    (b"f(b a)\nf(a b)", Ordering::Greater),
    (b"f(b a)\nf(b a)", Ordering::Equal),
];

#[test]
fn trees_compare_by_size_label_rank_and_children(rt: HostRuntime) {
    for (bytes, want) in &ROWS {
        assert!(rt; order_of(rt.alloc(), bytes) == Some(*want));
    }
}
