//! The states of the second grammar that lead to a label over the sets of some keys.

ghost use Rattle.std.specs.Prelude.{◌≡◌, ℕ, ◌<◌, ◌^◌, ◌++◌, length, map, IfOk, OnOk};
ghost use Rattle.tib_lex.specs.Lists.{Each};
ghost use Rattle.tib_grammar.specs.Forms.{AreNormal};
ghost use Rattle.tib_grammar.specs.Items.{state_in};
ghost use Rattle.tib_difference.specs.Difference.{keys_at, subsets_of};
ghost use Rattle.tib_difference.specs.Lefts.{AreAscending, are_in, first_of, lefts_at, lefts_over, IsSorting};
ghost use Rattle.tib_key_edges.specs.Positions.{IsIndex};
ghost use Rattle.tib_difference.specs.Shapes.{has_shape};
ghost use Rattle.tib_difference.specs.Subsets.{IsSubset};

use crate::subset_key::SubsetKey;
use smallvec::SmallVec;
use std::alloc::{AllocError, Global};
use tib_grammar::{Item, Rule};
use tib_key_edges::ShapeIndex;
use tib_tree::Label;

/// The rules of the second grammar with their index by shapes.
#[derive(Clone, Copy)]
pub(crate) struct Second<'r> {
    pub rules: &'r [Rule<u32>],
    pub index: &'r ShapeIndex,
}

// Whether each of some states is in the set of the key at its place, and there are as many of both.
fn all_in(states: &[Item<u32>], order: &[SubsetKey], positions: &[u32]) -> bool
    requires within { Each (λ p. p < length order.now) positions.now }
    requires ascending { AreAscending order.now }
    ensures { result ≡ are_in (map state_in states.now) (subsets_of (keys_at order.now
        positions.now)) }
{
    if states.len() != positions.len() {
        return false;
    }
    for i in 0..states.len() {
        let key = &order[positions[i] as usize];
        if !key.has_ascending(states[i].state()) {
            return false;
        }
    }
    true
}

// Appends the left states of those of some rules whose states are in the sets of the keys.
fn add_lefts(
    states: &mut SmallVec<u32, 4>,
    rules: &[Rule<u32>],
    numbers: &[u32],
    order: &[SubsetKey],
    positions: &[u32],
) -> Result<(), AllocError>
    requires normal { AreNormal rules.now }
    requires numbers { Each (λ m. m < length rules.now) numbers.now }
    requires within { Each (λ p. p < length order.now) positions.now }
    requires ascending { AreAscending order.now }
    ensures { OnOk result (states.new.items ≡ states.old.items ++ lefts_at rules.now
        (subsets_of (keys_at order.now positions.now)) numbers.now) }
{
    for number in numbers {
        let rule = &rules[*number as usize];
        if all_in(rule.states_below(), order, positions) {
            states.push(rule.left)?;
        }
    }
    Ok(())
}

// The states that may be at the first place, 0 where there is no place.
fn first_states<'o>(order: &'o [SubsetKey], positions: &[u32]) -> &'o [u32]
    requires { Each (λ p. p < length order.now) positions.now }
    ensures { result.now ≡ first_of (subsets_of (keys_at order.now positions.now)) }
{
    if positions.is_empty() {
        return &[0];
    }
    order[positions[0] as usize].subset()
}

// The left states of the rules of a label whose states are in the sets of the keys, in any order
// and as often as rules give them.
fn lefts(
    alloc: Global,
    second: &Second<'_>,
    label: Label,
    order: &[SubsetKey],
    positions: &[u32],
) -> Result<SmallVec<u32, 4>, AllocError>
    requires normal { AreNormal second.now.rules.now }
    requires indexed { IsIndex has_shape second.now.rules.now second.now.index.now }
    requires within { Each (λ p. p < length order.now) positions.now }
    requires ascending { AreAscending order.now }
    requires few { length positions.now < 2 ^ 32 }
    ensures { IfOk result (λ v. v.items ≡ lefts_over second.now.rules.now label
        (subsets_of (keys_at order.now positions.now))) }
{
    let rank = positions.len() as u32;
    let mut states = SmallVec::new(alloc);
    let firsts = first_states(order, positions);
    for first in firsts {
        let numbers = second.index.find(*first, label, rank);
        add_lefts(&mut states, second.rules, numbers, order, positions)?;
    }
    Ok(states)
}

// Some states, ascending, each once.
fn ascending(states: SmallVec<u32, 4>) -> SmallVec<u32, 4>
    ensures { IsSorting states.items result.items }
{
    if states.len() < 2 {
        return states;
    }
    let mut states = states;
    states.sort_unstable();
    states.dedup();
    states
}

/// The states that lead to a label over the sets of the keys at some positions. Err only if memory
/// is refused. Cost: for each state of the first of these sets, one look-up by hash, and for each
/// of the rules found one look into each set; then a sort of their left states.
pub(crate) fn subset_over(
    alloc: Global,
    second: &Second<'_>,
    label: Label,
    order: &[SubsetKey],
    positions: &[u32],
) -> Result<SmallVec<u32, 4>, AllocError>
    requires normal { AreNormal second.now.rules.now }
    requires indexed { IsIndex has_shape second.now.rules.now second.now.index.now }
    requires within { Each (λ p. p < length order.now) positions.now }
    requires ascending { AreAscending order.now }
    requires few { length positions.now < 2 ^ 32 }
    ensures { IfOk result (λ v. IsSubset second.now.rules.now label
        (subsets_of (keys_at order.now positions.now)) v.items) }
{
    let states = lefts(alloc, second, label, order, positions)?;
    Ok(ascending(states))
}
