// The vectors that tell the two grammars apart, and the least tree of these.
ghost use Rattle.std.specs.Prelude.{◌≡◌, ◌+◌, ◌++◌, ◌≤◌, ◌<◌, ◌^◌, length, map, filter, OnOk, IfOk, IsTrue, false, None, Some};
ghost use Rattle.tib_grammar.specs.Forms.{AreNormal};
ghost use Rattle.tib_grammar.specs.Range.{AreInRange};
ghost use Rattle.tib_grammar_file.specs.Printed.{AreLabelled};
ghost use Rattle.tib_compare.specs.Beside.{moved, CanRaiseAll};
ghost use Rattle.tib_compare.specs.Wanted.{ArePriced, HasMark, HasNoMark, holds, differs, is_marked, node_cost, wanted};
ghost use Rattle.tib_compare.specs.Least.{IsLeastWanted, IsOfWanted, IsOfList};

use crate::moving::{moved_rule, raised_left};
use std::alloc::{AllocError, Global};
use tib_cost::{Cost, MinPlus};
use tib_determinize::Vector;
use tib_grammar::Rule;
use tib_k_best::{KBestError, List, best_of_rules};
use tib_ranked_trees::label_ranks;
use tib_tree::{Labels, Tree};

// What a node costs: a ten-thousandth of the greatest cost.
const NODE_COST: u64 = 100_000_000_000;

// Whether a state is in a vector.
fn has_state(vector: &Vector, state: u32) -> bool
    ensures { result ≡ holds state vector.now }
{
    match vector.residual(state) {
        Some(_) => true,
        None => false,
    }
}

// Whether exactly one of the two starts is in a vector.
fn tells_apart(vector: &Vector, second: u32) -> bool
    ensures { result ≡ differs second vector.now }
{
    if has_state(vector, 0) {
        !has_state(vector, second)
    } else {
        has_state(vector, second)
    }
}

// Which vectors tell the two grammars apart, whose starts are 0 and this one.
pub(crate) fn marks_of(
    alloc: Global,
    order: &[Vector],
    second: u32,
) -> Result<Vec<bool>, AllocError>
    ensures { IfOk result (λ v. v.items ≡ map (differs second) order.now) }
{
    let mut marks = Vec::with_capacity(alloc, order.len())?;
    for vector in order {
        marks.push(tells_apart(vector, second))?;
    }
    Ok(marks)
}

// Whether some position is marked.
pub(crate) fn is_some_marked(marks: &[bool]) -> bool
    ensures yes { IsTrue result → HasMark marks.now }
    ensures no { result ≡ false → HasNoMark marks.now }
{
    for mark in marks {
        if *mark {
            return true;
        }
    }
    false
}

// What a node costs, as a cost.
fn node_price() -> Cost
    ensures { result ≡ node_cost }
{
    match Cost::new(NODE_COST) {
        Some(cost) => cost,
        None => unreachable!(),
    }
}

// Appends the rules over positions, each raised by one, to others.
fn put_all(
    alloc: Global,
    rules: &[Rule<u32>],
    price: Cost,
    all: &mut Vec<Rule<u32>>,
) -> Result<(), AllocError>
    requires normal { AreNormal rules.now }
    requires raised { CanRaiseAll 1 rules.now }
    ensures { OnOk result (all.new.items
        ≡ all.old.items ++ map (λ r. moved (1 + r.left) 1 price r) rules.now) }
{
    let mut states = Vec::new(alloc);
    for rule in rules {
        let left = raised_left(rule, 1);
        all.push(moved_rule(alloc, rule, left, 1, price, &mut states)?)?;
    }
    Ok(())
}

// Appends the rules of the marked positions, as rules of the start, to others.
fn put_marked(
    alloc: Global,
    rules: &[Rule<u32>],
    marks: &[bool],
    price: Cost,
    all: &mut Vec<Rule<u32>>,
) -> Result<(), AllocError>
    requires normal { AreNormal rules.now }
    requires range { AreInRange (length marks.now) rules.now }
    requires raised { CanRaiseAll 1 rules.now }
    ensures { OnOk result (all.new.items
        ≡ all.old.items ++ map (λ r. moved 0 1 price r) (filter (is_marked marks.now) rules.now)) }
{
    let mut states = Vec::new(alloc);
    for rule in rules {
        if marks[rule.left as usize] {
            all.push(moved_rule(alloc, rule, 0, 1, price, &mut states)?)?;
        }
    }
    Ok(())
}

// The grammar of the trees of marked positions.
fn wanted_rules(
    alloc: Global,
    rules: &[Rule<u32>],
    marks: &[bool],
) -> Result<Vec<Rule<u32>>, AllocError>
    requires normal { AreNormal rules.now }
    requires range { AreInRange (length marks.now) rules.now }
    requires raised { CanRaiseAll 1 rules.now }
    ensures { IfOk result (λ v. v.items ≡ wanted marks.now rules.now) }
{
    let price = node_price();
    let mut all = Vec::with_capacity(alloc, rules.len())?;
    put_all(alloc, rules, price, &mut all)?;
    put_marked(alloc, rules, marks, price, &mut all)?;
    Ok(all)
}

// The one tree of a list of at most one.
fn tree_of(alloc: Global, list: &List) -> Result<Option<Tree>, AllocError>
    ensures { IfOk result (IsOfList list.now) }
{
    if list.len() == 0 {
        return Ok(None);
    }
    list.is_small();
    Ok(Some(list.tree(alloc, 0)?))
}

// The list of the best tree of these rules, whose nodes all cost as much; no state has a tree that
// is too large, since such a tree has no cost.
fn best_wanted(
    alloc: Global,
    rules: &[Rule<u32>],
    states: usize,
    labels: &Labels,
) -> Result<List, AllocError>
    requires few { length rules.now < 2 ^ 32 }
    requires start { 0 < states }
    requires normal { AreNormal rules.now }
    requires range { AreInRange states rules.now }
    requires labelled { AreLabelled (length labels.now) rules.now }
    requires priced { ArePriced rules.now }
    ensures { IfOk result (IsLeastWanted labels.now rules.now) }
{
    let ranks = label_ranks(alloc, labels)?;
    match best_of_rules::<MinPlus>(alloc, rules, states, labels, &ranks, 1) {
        Ok(list) => Ok(list),
        Err(KBestError::TreeTooLarge { .. }) => unreachable!(),
        Err(KBestError::OutOfMemory) => Err(AllocError),
    }
}

// The least tree of a marked position, where one has a tree of at most 10,000 nodes.
pub(crate) fn least_wanted(
    alloc: Global,
    rules: &[Rule<u32>],
    marks: &[bool],
    labels: &Labels,
) -> Result<Option<Tree>, AllocError>
    requires few { length rules.now < 2 ^ 31 }
    requires many { length marks.now < 2 ^ 31 }
    requires normal { AreNormal rules.now }
    requires range { AreInRange (length marks.now) rules.now }
    requires labelled { AreLabelled (length labels.now) rules.now }
    ensures { IfOk result (IsOfWanted labels.now (wanted marks.now rules.now)) }
{
    let all = wanted_rules(alloc, rules, marks)?;
    let list = best_wanted(alloc, &all, marks.len() + 1, labels)?;
    tree_of(alloc, &list)
}
