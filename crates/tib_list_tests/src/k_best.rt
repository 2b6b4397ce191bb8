// The best tree of small grammars, where costs are added.
ghost use Rattle.std.specs.Prelude.{[], ◌≡◌, length};
ghost use Rattle.tib_grammar_file.specs.Printed.{AreLabelled};

use crate::texts::{read, write_answer, write_doublings};
use std::alloc::Global;
use tib_cost::MinPlus;
use tib_k_best::k_best;
use tib_normal::Normal;
use tib_tree::Labels;

// Whether the best tree of a grammar, where costs are added, is written as it is wanted.
fn is_best(normal: &Normal<MinPlus>, labels: &Labels, told: &mut String, want: &str) -> bool
    requires { AreLabelled (length labels.now) normal.now.rules }
{
    let answer = k_best::<MinPlus>(*told.allocator(), normal, labels, 1);
    write_answer(told, answer).is_ok() && told.as_str() == want
}

// The same for the grammar of a text, whose labels go into a table that had none.
fn is_best_over(alloc: Global, text: &str, labels: &mut Labels, want: &str) -> bool
    requires { labels.old ≡ [] }
{
    match read::<MinPlus>(alloc, text, labels) {
        Some(normal) => is_best(&normal, labels, &mut String::new(alloc), want),
        None => false,
    }
}

// The same for the grammar of a text; false where it is not in normal form.
fn is_best_of(alloc: Global, text: &str, want: &str) -> bool {
    is_best_over(alloc, text, &mut Labels::new(alloc), want)
}

// A grammar, and its best tree where costs are added.
static SUMS: [(&str, &str); 6] = [
    // a leaf is cheaper than what is above it
    ("q\nq -> S(q q) # 1\nq -> a # 2\n", "1/0 # 2; "),
    // two runs give one tree
    (
        "q\nq -> f(p) # 1\nq -> f(r)\np -> a # 3\nr -> a # 5\n",
        "0/1 1/0 # 4; ",
    ),
    // no run ends
    ("q\nq -> f(q)\n", ""),
    // at equal costs the tree with fewer nodes comes first
    (
        "q\nq -> f(p)\nq -> h(r)\np -> g(r)\nr -> a\n",
        "1/1 3/0 # 0; ",
    ),
    // at equal sizes the label's text decides
    ("q\nq -> h(r)\nq -> f(r)\nr -> c\nr -> b\n", "1/1 3/0 # 0; "),
    // a tree above itself at no cost is never the first
    (
        "q\nq -> f(q)\nq -> g(p)\np -> f(p)\np -> a # 1\n",
        "1/1 2/0 # 1; ",
    ),
];

#[test]
fn best_trees(rt: HostRuntime) {
    for (text, want) in &SUMS {
        assert!(rt; is_best_of(rt.alloc(), text, want));
    }
}

// Whether the best tree of the grammar of these lines and states is written as it is wanted.
fn is_best_of_doublings(alloc: Global, before: &str, last: u8, want: &str) -> bool {
    let mut text = String::new(alloc);
    write_doublings(&mut text, before, last).is_ok() && is_best_of(alloc, text.as_str(), want)
}

#[test]
fn a_tree_of_too_many_nodes(rt: HostRuntime) {
    for (last, want) in [(12, "8191 nodes # 0; "), (13, "too large: 0")] {
        assert!(rt; is_best_of_doublings(rt.alloc(), "p0\n", last, want));
    }
}

#[test]
fn a_state_of_no_use_may_have_large_trees(rt: HostRuntime) {
    assert!(rt; is_best_of_doublings(rt.alloc(), "q\nq -> b\n", 13, "0/0 # 0; "));
}
