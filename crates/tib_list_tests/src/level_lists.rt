// Lists of best trees of small grammars, as text.
ghost use Rattle.std.specs.Prelude.{[], ◌≡◌, length, true};
ghost use Rattle.tib_grammar_file.specs.Printed.{AreLabelled};

use crate::texts::{read, write_answer, write_doublings};
use std::alloc::Global;
use tib_cost::{Bottleneck, Semiring, Widest};
use tib_k_best::k_best_by_levels;
use tib_normal::Normal;
use tib_tree::Labels;

// Whether the k best trees of a grammar are written as they are wanted.
fn are_best<S: Semiring>(
    normal: &Normal<S>,
    labels: &Labels,
    k: u32,
    told: &mut String,
    want: &str,
) -> bool
    requires levelled { S.LEVELLED ≡ true }
    requires labelled { AreLabelled (length labels.now) normal.now.rules }
{
    if k == 0 {
        return false;
    }
    let answer = k_best_by_levels::<S>(*told.allocator(), normal, labels, k);
    write_answer(told, answer).is_ok() && told.as_str() == want
}

// The same for the grammar of a text, whose labels go into a table that had none.
fn are_best_over<S: Semiring + Drop>(
    alloc: Global,
    text: &str,
    labels: &mut Labels,
    k: u32,
    want: &str,
) -> bool
    requires levelled { S.LEVELLED ≡ true }
    requires labels { labels.old ≡ [] }
{
    match read::<S>(alloc, text, labels) {
        Some(normal) => are_best::<S>(&normal, labels, k, &mut String::new(alloc), want),
        None => false,
    }
}

// The same for the grammar of a text; false where it is not in normal form.
fn are_best_of<S: Semiring + Drop>(alloc: Global, text: &str, k: u32, want: &str) -> bool
    requires { S.LEVELLED ≡ true }
{
    are_best_over::<S>(alloc, text, &mut Labels::new(alloc), k, want)
}

// A grammar, and its three best trees where the greatest cost counts.
static ROWS: [(&str, &str); 4] = [
    // at equal costs the smaller tree comes first, whatever its parts cost
    (
        "q\nq -> f(p r)\np -> c # 4\np -> g(s)\nr -> d # 5\ns -> g(t)\nt -> e\n",
        "0/2 1/0 3/0 # 5; 0/2 2/1 2/1 4/0 3/0 # 5; ",
    ),
    // a large tree at a lesser cost comes first
    (
        "q\nq -> a # 7\nq -> g(s) # 3\ns -> g(t) # 2\nt -> e # 1\n",
        "1/1 1/1 2/0 # 3; 0/0 # 7; ",
    ),
    // the second and third cost what their level does, and the first costs less
    (
        "q\nq -> a # 2\nq -> f(p)\nq -> c # 3\np -> a # 2\np -> b # 1\n",
        "1/1 3/0 # 1; 0/0 # 2; 1/1 0/0 # 2; ",
    ),
    ("q\nq -> f(q) # 3\n", ""),
];

#[test]
fn best_trees_by_levels(rt: HostRuntime) {
    for (text, want) in &ROWS {
        assert!(rt; are_best_of::<Bottleneck>(rt.alloc(), text, 3, want));
    }
}

// A grammar, and its best tree where the greatest cost counts.
static BEST: [(&str, &str); 3] = [
    // where d costs 5 anyway, the small c at 4 is better than the large tree at 0
    (
        "q\nq -> f(p r)\np -> g(s)\np -> c # 4\nr -> d # 5\ns -> g(t)\nt -> e\n",
        "0/2 2/0 3/0 # 5; ",
    ),
    // a large tree at a lesser cost comes first
    (
        "q\nq -> a # 7\nq -> g(s) # 3\ns -> g(t) # 2\nt -> e # 1\n",
        "1/1 1/1 2/0 # 3; ",
    ),
    ("q\nq -> f(q) # 3\n", ""),
];

#[test]
fn best_tree_by_levels(rt: HostRuntime) {
    for (text, want) in &BEST {
        assert!(rt; are_best_of::<Bottleneck>(rt.alloc(), text, 1, want));
    }
}

// Whether the best tree of the grammar of some lines, and of states p0 to p12 each of which has two
// of the next, is written as it is wanted.
fn is_best_over_doublings(alloc: Global, before: &str, want: &str) -> bool {
    let mut text = String::new(alloc);
    write_doublings(&mut text, before, 12).is_ok()
        && are_best_of::<Bottleneck>(alloc, text.as_str(), 1, want)
}

#[test]
fn large_trees_by_levels(rt: HostRuntime) {
    // the large tree is the first of p in the level of 0, where p is of no use
    let small = "q\nq -> f(p) # 5\np -> a # 5\np -> g(p0 p0)\n";
    assert!(rt; is_best_over_doublings(rt.alloc(), small, "0/1 1/0 # 5; "));
    let large = "q\nq -> f(p) # 5\np -> g(p0 p0)\n";
    assert!(rt; is_best_over_doublings(rt.alloc(), large, "too large: 1"));
}

#[test]
fn widest_trees(rt: HostRuntime) {
    // a cost is what is left of 10^15 beside the weight
    let text = "q\nq -> a # 7\nq -> b # 9\nq -> f(p)\np -> a\n";
    let want = "2/1 0/0 # 0; 1/0 # 999999999999991; 0/0 # 999999999999993; ";
    assert!(rt; are_best_of::<Widest>(rt.alloc(), text, 3, want));
}
