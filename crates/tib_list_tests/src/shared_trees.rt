// Trees over the labels f, b and a, which are 0, 1 and 2, by their numbers.
ghost use Rattle.std.specs.Prelude.{◌≤◌, length, IsTrue};
ghost use Rattle.tib_ranked_trees.specs.Numbers.{NumbersBelow, RootsBelow};

use std::alloc::Global;
use std::cmp::Ordering;
use tib_ranked_trees::{Trees, label_ranks};
use tib_tree::{Labels, Node, read_trees};

// Whether each number is below a count.
fn are_below(numbers: &[u32], count: usize) -> bool
    ensures { IsTrue result → NumbersBelow count numbers.now }
{
    let mut i = 0;
    while i < numbers.len() {
        if numbers[i] as usize >= count {
            return false;
        }
        i += 1;
    }
    true
}

// Whether the label of each tree is below a count.
fn labels_are_below(trees: &Trees, count: usize) -> bool
    ensures { IsTrue result → RootsBelow count trees.now }
{
    let mut i: u32 = 0;
    while (i as usize) < trees.len() {
        if trees.label(i) as usize >= count {
            return false;
        }
        i += 1;
    }
    true
}

// The number of a tree; none where a child is unknown or memory is refused.
fn insert(trees: &mut Trees, label: u32, children: &[u32]) -> Option<u32> {
    let count = trees.len();
    if !are_below(children, count) {
        return None;
    }
    trees.insert(label, children).ok()
}

// The order of two trees; none where one is unknown or a label has no rank.
fn order_of(trees: &Trees, ranks: &[u32], one: u32, other: u32) -> Option<Ordering> {
    if one as usize >= trees.len() || other as usize >= trees.len() {
        return None;
    }
    if !labels_are_below(trees, ranks.len()) {
        return None;
    }
    Some(trees.compare(ranks, one, other))
}

fn are_nodes(nodes: &[Node], wanted: &[(u32, u32)]) -> bool {
    if nodes.len() != wanted.len() {
        return false;
    }
    for i in 0..nodes.len() {
        if (nodes[i].label, nodes[i].rank) != wanted[i] {
            return false;
        }
    }
    true
}

// Whether the nodes of a tree have these labels and ranks; false where it is unknown or large.
fn has_nodes(alloc: Global, trees: &Trees, tree: u32, wanted: &[(u32, u32)]) -> bool {
    if tree as usize >= trees.len() || trees.size(tree) > 10_000 {
        return false;
    }
    match trees.tree(alloc, tree) {
        Ok(tree) => are_nodes(tree.nodes(), wanted),
        Err(_) => false,
    }
}

fn size_of(trees: &Trees, tree: u32) -> u32 {
    if tree as usize >= trees.len() {
        return 0;
    }
    trees.size(tree)
}

// The ranks of the labels of a tree, numbered in the order of first sight.
fn ranks_of(alloc: Global, bytes: &[u8]) -> Option<Vec<u32>>
    requires { length bytes.now ≤ 8388608 }
{
    let mut labels = Labels::new(alloc);
    match read_trees(alloc, bytes, &mut labels) {
        Ok(_) => label_ranks(alloc, &labels).ok(),
        Err(_) => None,
    }
}

fn have_ranks(alloc: Global, bytes: &[u8], wanted: &[u32]) -> bool
    requires { length bytes.now ≤ 8388608 }
{
    match ranks_of(alloc, bytes) {
        Some(ranks) => ranks.as_slice() == wanted,
        None => false,
    }
}

#[test]
fn labels_rank_by_their_bytes(rt: HostRuntime) {
    assert!(rt; have_ranks(rt.alloc(), b"b(a ab \"\")", &[3, 1, 2, 0]));
}

// The numbers of a, b, f(a b), f(b a), f(a b) again and f(f(a b) a).
fn insert_all(trees: &mut Trees) -> [Option<u32>; 6] {
    let a = insert(trees, 2, &[]);
    let b = insert(trees, 1, &[]);
    let ab = insert(trees, 0, &[0, 1]);
    let ba = insert(trees, 0, &[1, 0]);
    let again = insert(trees, 0, &[0, 1]);
    let deep = insert(trees, 0, &[2, 0]);
    [a, b, ab, ba, again, deep]
}

// Two trees by their numbers, and their order.
static ORDERS: [(u32, u32, Ordering); 4] = [
    (0, 1, Ordering::Less),
    (2, 3, Ordering::Less),
    (4, 3, Ordering::Greater),
    (3, 3, Ordering::Equal),
];

fn are_ordered(trees: &Trees, ranks: &[u32]) -> bool {
    for (one, other, want) in &ORDERS {
        if order_of(trees, ranks, *one, *other) != Some(*want) {
            return false;
        }
    }
    true
}

// Whether trees that were inserted have these orders.
fn have_orders(alloc: Global, trees: &Trees) -> bool {
    match ranks_of(alloc, b"f(b a)") {
        Some(ranks) => are_ordered(trees, &ranks),
        None => false,
    }
}

static NUMBERS: [Option<u32>; 6] = [Some(0), Some(1), Some(2), Some(3), Some(2), Some(4)];

// Whether all trees get their numbers and have their orders.
fn are_shared(alloc: Global) -> bool {
    let mut trees = Trees::new(alloc);
    insert_all(&mut trees) == NUMBERS && have_orders(alloc, &trees)
}

#[test]
fn trees_share_what_stands_below_them(rt: HostRuntime) {
    assert!(rt; are_shared(rt.alloc()));
}

// The labels and ranks of f(f(a b) a).
static DEEP: [(u32, u32); 5] = [(0, 2), (0, 2), (2, 0), (1, 0), (2, 0)];

// Whether the last tree has the number 4, five nodes, and these labels and ranks.
fn is_deep_given(alloc: Global) -> bool {
    let mut trees = Trees::new(alloc);
    insert_all(&mut trees)[5] == Some(4)
        && size_of(&trees, 4) == 5
        && has_nodes(alloc, &trees, 4, &DEEP)
}

#[test]
fn a_tree_is_given_with_its_nodes(rt: HostRuntime) {
    assert!(rt; is_deep_given(rt.alloc()));
}
