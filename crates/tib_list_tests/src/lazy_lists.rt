// Lists of best trees of grammars that are deterministic below the root, by `lazy_k_best` and by
// `k_best`.
ghost use Rattle.std.specs.Prelude.{[], ◌≡◌, ◌<◌, length};
ghost use Rattle.tib_grammar_file.specs.Printed.{AreLabelled};
ghost use Rattle.tib_ranked_trees.specs.Below.{IsDeterministicBelow};

use crate::texts::{read, write_answer, write_fault, write_list, write_number};
use std::alloc::{AllocError, Global};
use tib_cost::MinPlus;
use tib_k_best::{LazyList, List, is_deterministic_below, k_best, lazy_k_best};
use tib_normal::Normal;
use tib_tree::Labels;

// How many nodes the trees of a list have together.
fn nodes_of(alloc: Global, list: &List) -> Result<u64, AllocError> {
    let mut nodes: u64 = 0;
    for i in 0..list.len() {
        let tree = list.tree(alloc, i)?;
        nodes = nodes.saturating_add(tree.nodes().len() as u64);
    }
    Ok(nodes)
}

// A list, and whether no more entries were placed for it than states and nodes of its trees.
fn write_counted(
    told: &mut String,
    list: &List,
    steps: u64,
    states: u32,
    with_steps: bool,
) -> Result<(), AllocError> {
    write_list(told, list)?;
    if with_steps {
        told.push_str("by ")?;
        write_number(told, steps)?;
    }
    let nodes = nodes_of(*told.allocator(), list)?;
    if steps > nodes.saturating_add(u64::from(states)) {
        told.push_str(", too many")?;
    }
    Ok(())
}

// The same for the start's list among those of all states.
fn write_lists(
    told: &mut String,
    lists: LazyList,
    states: u32,
    with_steps: bool,
) -> Result<(), AllocError> {
    let steps = lists.steps();
    write_counted(told, &lists.into_list(), steps, states, with_steps)
}

// The k best trees of a grammar that is deterministic below the root by `lazy_k_best`.
fn write_asked(
    told: &mut String,
    normal: &Normal<MinPlus>,
    labels: &Labels,
    k: u32,
    with_steps: bool,
) -> Result<(), AllocError>
    requires labelled { AreLabelled (length labels.now) normal.now.rules }
    requires form { IsDeterministicBelow normal.now.rules }
    requires some { 0 < k }
{
    match lazy_k_best::<MinPlus>(*told.allocator(), normal, labels, k) {
        Ok(lists) => write_lists(told, lists, normal.grammar().states(), with_steps),
        Err(error) => write_fault(told, error),
    }
}

// The same if the grammar is deterministic below the root.
fn write_if_deterministic(
    told: &mut String,
    normal: &Normal<MinPlus>,
    labels: &Labels,
    k: u32,
    with_steps: bool,
) -> Result<(), AllocError>
    requires labelled { AreLabelled (length labels.now) normal.now.rules }
    requires some { 0 < k }
{
    if !is_deterministic_below(*told.allocator(), normal.grammar()) {
        return told.push_str("not deterministic below the root");
    }
    write_asked(told, normal, labels, k, with_steps)
}

// The same for the grammar of a text, whose labels go into a table that had none; whether it was
// written.
fn is_written_over(
    told: &mut String,
    text: &str,
    labels: &mut Labels,
    k: u32,
    with_steps: bool,
) -> bool
    requires labels { labels.old ≡ [] }
    requires some { 0 < k }
{
    match read::<MinPlus>(*told.allocator(), text, labels) {
        Some(normal) => write_if_deterministic(told, &normal, labels, k, with_steps).is_ok(),
        None => false,
    }
}

// The k best trees of the grammar of a text by `lazy_k_best`; whether they were written.
fn is_written_lazily(told: &mut String, text: &str, k: u32, with_steps: bool) -> bool {
    let mut labels = Labels::new(*told.allocator());
    k > 0 && is_written_over(told, text, &mut labels, k, with_steps)
}

// The k best trees of a grammar by `k_best`.
fn write_best(
    told: &mut String,
    normal: &Normal<MinPlus>,
    labels: &Labels,
    k: u32,
) -> Result<(), AllocError>
    requires labelled { AreLabelled (length labels.now) normal.now.rules }
    requires some { 0 < k }
{
    let answer = k_best::<MinPlus>(*told.allocator(), normal, labels, k);
    write_answer(told, answer)
}

// The same for the grammar of a text, whose labels go into a table that had none; whether it was
// written.
fn is_best_written_over(told: &mut String, text: &str, labels: &mut Labels, k: u32) -> bool
    requires labels { labels.old ≡ [] }
    requires some { 0 < k }
{
    match read::<MinPlus>(*told.allocator(), text, labels) {
        Some(normal) => write_best(told, &normal, labels, k).is_ok(),
        None => false,
    }
}

// The k best trees of the grammar of a text by `k_best`; whether they were written.
fn is_written_at_once(told: &mut String, text: &str, k: u32) -> bool {
    let mut labels = Labels::new(*told.allocator());
    k > 0 && is_best_written_over(told, text, &mut labels, k)
}

// Whether the k best trees of the grammar of a text are written as wanted, with the entries that
// were placed.
fn is_listed_as(alloc: Global, text: &str, k: u32, want: &str) -> bool {
    let mut told = String::new(alloc);
    is_written_lazily(&mut told, text, k, true) && told.as_str() == want
}

const TOY: &str = "q\nq -> S(q q) # 1\nq -> a # 2\n";

// A normal form as `determinize` leads to: chain rules led from the start to p and to r.
const FINALS: &str = "q\nq -> a # 1\nq -> f(p r) # 2\nq -> b # 5\nq -> c # 6\n\
    p -> a\np -> f(p r) # 1\nr -> b\nr -> c # 1\n";

// A grammar, how many trees are asked for, and the list with the entries that were placed for it.
static LISTS: [(&str, u32, &str); 6] = [
    // one tree of one node, of one state
    (TOY, 1, "1/0 # 2; by 1"),
    // each further tree is one more entry
    (
        TOY,
        3,
        "1/0 # 2; 0/2 1/0 1/0 # 5; 0/2 1/0 0/2 1/0 1/0 # 8; by 3",
    ),
    // b is asked of p, though it is in no listed tree
    (
        "q\nq -> f(p r)\np -> a\np -> b # 5\nr -> c\nr -> d # 1\n",
        2,
        "0/2 1/0 3/0 # 0; 0/2 1/0 4/0 # 1; by 6",
    ),
    // the start shares its right-hand sides with other states
    (FINALS, 3, "0/0 # 1; 1/2 0/0 2/0 # 2; 1/2 0/0 3/0 # 3; by 7"),
    // two states below a rule share one
    (
        "q\nq -> f(p)\nq -> f(r)\np -> a\nr -> a\n",
        2,
        "not deterministic below the root",
    ),
    // the start is below a rule
    (
        "q\nq -> f(q)\nq -> a\np -> a\n",
        2,
        "not deterministic below the root",
    ),
];

#[test]
fn lists_and_steps(rt: HostRuntime) {
    for (text, k, want) in &LISTS {
        assert!(rt; is_listed_as(rt.alloc(), text, *k, want));
    }
}

static TEXTS: [&str; 6] = [
    "q\nq -> S(q q) # 1\nq -> a # 2\n",
    // a finite list, and a state that occurs twice below a rule
    "q\nq -> f(p p)\np -> a\np -> b # 1\np -> c # 1\n",
    // states above each other at no cost
    "q\nq -> g(p)\nq -> a\nq -> f(q p)\np -> h(q)\np -> b\n",
    // lists of different lengths below one rule
    "q\nq -> f(p r s)\np -> a\nr -> b\nr -> g(r) # 2\ns -> c # 3\ns -> d\n",
    "q\nq -> f(q r) # 1\nq -> e\nr -> g(q) # 2\nr -> h(r q)\nr -> k # 7\n",
    FINALS,
];

// Whether there are lists of a number of trees, and both are the same.
fn are_same(alloc: Global, text: &str, k: u32) -> bool {
    let mut lazily = String::new(alloc);
    let mut at_once = String::new(alloc);
    is_written_lazily(&mut lazily, text, k, false)
        && is_written_at_once(&mut at_once, text, k)
        && lazily.as_str() == at_once.as_str()
}

// Whether they are the same for each number of trees below twelve.
fn are_always_same(alloc: Global, text: &str) -> bool {
    for k in 1..12_u32 {
        if !are_same(alloc, text, k) {
            return false;
        }
    }
    true
}

#[test]
fn the_same_lists(rt: HostRuntime) {
    for text in &TEXTS {
        assert!(rt; are_always_same(rt.alloc(), text));
    }
}

#[test]
fn large_trees_that_nobody_asks_for(rt: HostRuntime) {
    // the second tree of p has 16,384 nodes
    let text = "q\nq -> a # 1\nq -> b # 2\nq -> h(p) # 5\np -> f(y t0)\ny -> c\ny -> k(t0)\n\
        t0 -> g(t1 t1)\nt1 -> g(t2 t2)\nt2 -> g(t3 t3)\nt3 -> g(t4 t4)\nt4 -> g(t5 t5)\n\
        t5 -> g(t6 t6)\nt6 -> g(t7 t7)\nt7 -> g(t8 t8)\nt8 -> g(t9 t9)\nt9 -> g(t10 t10)\n\
        t10 -> g(t11 t11)\nt11 -> g(t12 t12)\nt12 -> e\n";
    assert!(rt; is_listed_as(rt.alloc(), text, 2, "0/0 # 1; 1/0 # 2; by 17"));
}

#[test]
fn large_trees_of_useless_states(rt: HostRuntime) {
    // the first tree of t0 has 16,383 nodes, and p and r have no tree
    let text = "q\nq -> a\nq -> h(p)\np -> h(r)\nr -> f(r q)\n\
        t0 -> g(t1 t1)\nt1 -> g(t2 t2)\nt2 -> g(t3 t3)\nt3 -> g(t4 t4)\nt4 -> g(t5 t5)\n\
        t5 -> g(t6 t6)\nt6 -> g(t7 t7)\nt7 -> g(t8 t8)\nt8 -> g(t9 t9)\nt9 -> g(t10 t10)\n\
        t10 -> g(t11 t11)\nt11 -> g(t12 t12)\nt12 -> g(t13 t13)\nt13 -> e\n";
    assert!(rt; is_listed_as(rt.alloc(), text, 2, "0/0 # 0; by 1"));
}
