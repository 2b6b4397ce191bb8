// The states that live rules lead to from the start.
ghost use Rattle.std.specs.Prelude.{◌≡◌, ℕ, ◌+◌, ◌<◌, ◌≤◌, ◌^◌, List, [], ◌∷◌, length, OnOk, IfOk, Bool, true, false, sum_by};
ghost use Rattle.std.proofs.Common.{get_or};
ghost use Rattle.tib_lex.specs.Lists.{Has};
ghost use Rattle.tib_grammar.specs.Items.{holes_in};
ghost use Rattle.tib_grammar.specs.Sides.{holes_of};
ghost use Rattle.tib_grammar.specs.Range.{AllBelow, AreInRange};
ghost use Rattle.tib_grammar.specs.Run.{rule_at};
ghost use Rattle.tib_inside.specs.Links.{AreLinks};
ghost use Rattle.tib_inside.specs.Settling.{costs_in};
ghost use Rattle.tib_inside.specs.Reaching.{lives, lefts, Marks, Follows, IsReaching, AreReached, unmarked, chosen, both_marked};

use crate::links::Links;
use crate::rule_costs::rule_cost;
use std::alloc::{AllocError, Global};
use tib_cost::{Cost, Semiring};
use tib_grammar::{Item, Rule};

/// For each rule, whether its cost and those of the states in its right side have a product. Err
/// only if memory is refused. Cost: one pass over the right sides.
pub fn live_rules<S: Semiring>(
    alloc: Global,
    rules: &[Rule<u32>],
    costs: &[Option<Cost>],
) -> Result<Vec<bool>, AllocError>
    requires { AreInRange (length costs.now) rules.now }
    ensures { IfOk result (λ live. live.items ≡ lives S.product (costs_in costs.now) rules.now) }
{
    let mut live = Vec::with_capacity(alloc, rules.len())?;
    for rule in rules {
        live.push(rule_cost::<S>(rule, costs).is_some())?;
    }
    Ok(live)
}

/// The left states of some rules.
fn left_states(alloc: Global, rules: &[Rule<u32>]) -> Result<Vec<u32>, AllocError>
    ensures { IfOk result (λ v. v.items ≡ lefts rules.now) }
{
    let mut states = Vec::with_capacity(alloc, rules.len())?;
    for rule in rules {
        states.push(rule.left)?;
    }
    Ok(states)
}

/// Marks a state, and puts it on the stack where it was not marked.
fn mark(state: u32, kept: &mut Vec<bool>, stack: &mut Vec<u32>) -> Result<(), AllocError>
    requires { state < length kept.old.items }
    ensures long { length kept.new.items ≡ length kept.old.items }
    ensures marks { OnOk result (Marks (λ q.
        state ≡ q) kept.old.items kept.new.items stack.old.items stack.new.items) }
{
    if kept[state as usize] {
        return Ok(());
    }
    kept[state as usize] = true;
    stack.push(state)?;
    Ok(())
}

/// Marks the state of an item that has one.
fn mark_item(item: &Item<u32>, kept: &mut Vec<bool>, stack: &mut Vec<u32>) -> Result<(), AllocError>
    requires { AllBelow (length kept.old.items) (holes_in (item.now ∷ [])) }
    ensures long { length kept.new.items ≡ length kept.old.items }
    ensures marks { OnOk result (Marks (Has (holes_in (item.now ∷ []))) kept.old.items
        kept.new.items stack.old.items stack.new.items) }
{
    match item {
        Item::Label { .. } => Ok(()),
        Item::Hole(state) => {
            mark(*state, kept, stack)?;
            Ok(())
        }
    }
}

/// Marks the states among some items.
fn mark_items(
    items: &[Item<u32>],
    kept: &mut Vec<bool>,
    stack: &mut Vec<u32>,
) -> Result<(), AllocError>
    requires { AllBelow (length kept.old.items) (holes_in items.now) }
    ensures long { length kept.new.items ≡ length kept.old.items }
    ensures marks { OnOk result (Marks (Has (holes_in items.now)) kept.old.items kept.new.items
        stack.old.items stack.new.items) }
{
    for item in items {
        mark_item(item, kept, stack)?;
    }
    Ok(())
}

/// Marks the states in the right side of a rule that is live.
fn mark_rule(
    rule: &Rule<u32>,
    is_live: bool,
    kept: &mut Vec<bool>,
    stack: &mut Vec<u32>,
) -> Result<(), AllocError>
    requires { AllBelow (length kept.old.items) (holes_of rule.now.right) }
    ensures long { length kept.new.items ≡ length kept.old.items }
    ensures marks { OnOk result (Marks (λ q. (is_live ≡ true)
        × Has (holes_of rule.now.right) q) kept.old.items kept.new.items stack.old.items
        stack.new.items) }
{
    if !is_live {
        return Ok(());
    }
    mark_items(rule.right.items(), kept, stack)?;
    Ok(())
}

/// Marks what the live rules of a state lead to.
fn follow(
    rules: &[Rule<u32>],
    links: &Links,
    live: &[bool],
    state: u32,
    kept: &mut Vec<bool>,
    stack: &mut Vec<u32>,
) -> Result<(), AllocError>
    requires links { AreLinks (lefts rules.now) (length kept.old.items) links.now }
    requires range { AreInRange (length kept.old.items) rules.now }
    requires live { length live.now ≡ length rules.now }
    requires state { state < length kept.old.items }
    ensures long { length kept.new.items ≡ length kept.old.items }
    ensures marks { OnOk result (Marks (Follows rules.now live.now state (length rules.now))
        kept.old.items kept.new.items stack.old.items stack.new.items) }
{
    let mut n = links.first[state as usize];
    while n < rules.len() {
        mark_rule(&rules[n], live[n], kept, stack)?;
        n = links.next[n];
    }
    Ok(())
}

/// Marks all states that are reached, from those that lie on the stack on.
fn reach(
    rules: &[Rule<u32>],
    links: &Links,
    live: &[bool],
    kept: &mut Vec<bool>,
    stack: &mut Vec<u32>,
) -> Result<(), AllocError>
    requires links { AreLinks (lefts rules.now) (length kept.old.items) links.now }
    requires range { AreInRange (length kept.old.items) rules.now }
    requires live { length live.now ≡ length rules.now }
    requires reaching { IsReaching rules.now live.now kept.old.items stack.old.items }
    ensures long { length kept.new.items ≡ length kept.old.items }
    ensures reached { OnOk result (AreReached rules.now live.now kept.new.items) }
{
    while let Some(state) = stack.pop() {
        follow(rules, links, live, state, kept, stack)?;
    }
    Ok(())
}

/// For each state below a number, whether live rules lead to it from the start. Err only if memory
/// is refused. Cost: one pass over the states and the right sides.
pub fn reached_states(
    alloc: Global,
    rules: &[Rule<u32>],
    live: &[bool],
    count: usize,
) -> Result<Vec<bool>, AllocError>
    requires start { 0 < count }
    requires range { AreInRange count rules.now }
    requires live { length live.now ≡ length rules.now }
    ensures long { IfOk result (λ kept. length kept.items ≡ count) }
    ensures reached { IfOk result (λ kept. AreReached rules.now live.now kept.items) }
{
    let lefts = left_states(alloc, rules)?;
    let links = Links::new(alloc, &lefts, count)?;
    let mut kept = vec![in alloc; false; count]?;
    kept[0] = true;
    let mut stack = Vec::new(alloc);
    stack.push(0)?;
    reach(rules, &links, live, &mut kept, &mut stack)?;
    Ok(kept)
}

/// For each rule, whether it is live and its left state is kept. Err only if memory is refused.
/// Cost: one pass over the rules.
pub fn kept_rules(
    alloc: Global,
    rules: &[Rule<u32>],
    live: &[bool],
    kept: &[bool],
) -> Result<Vec<bool>, AllocError>
    requires range { AreInRange (length kept.now) rules.now }
    requires live { length live.now ≡ length rules.now }
    ensures long { IfOk result (λ v. length v.items ≡ length rules.now) }
    ensures both { IfOk result (λ v. (n : ℕ) → n < length rules.now →
        get_or v.items n false ≡ both_marked rules.now live.now kept.now n) }
{
    let mut both = Vec::with_capacity(alloc, rules.len())?;
    for n in 0..rules.len() {
        let is_kept = if live[n] {
            kept[rules[n].left as usize]
        } else {
            false
        };
        both.push(is_kept)?;
    }
    Ok(both)
}

/// The marked places, ascending. Err only if memory is refused. Cost: one pass over the places.
pub fn marked_places(alloc: Global, marks: &[bool]) -> Result<Vec<u32>, AllocError>
    requires { length marks.now < 2 ^ 32 }
    ensures { IfOk result (λ v. v.items
        ≡ chosen (λ i. get_or marks.now i false) (length marks.now)) }
{
    let mut places = Vec::new(alloc);
    for n in 0..marks.len() {
        if marks[n] {
            places.push(n as u32)?;
        }
    }
    Ok(places)
}
