//! The positions that a walk tries at a place: those at which some rule that is alive has its
//! state.

ghost use Rattle.std.specs.Prelude.{◌≡◌, ℕ, ◌<◌, ◌≤◌, ◌+◌, length, IfOk, OnOk};
ghost use Rattle.std.proofs.Common.{get_or};
ghost use Rattle.tib_lex.specs.Lists.{Each, Has};
ghost use Rattle.tib_grammar.specs.Forms.{AreNormal};
ghost use Rattle.tib_determinize.specs.Alive.{AreAscending, HasPlace, HasWanted, states_of};
ghost use Rattle.tib_determinize.specs.Holders.{AreHolders};
ghost use Rattle.tib_determinize.specs.Vectors.{vector_at};

use crate::alive::{Alive, state_at};
use crate::holders::{count_below, is_marked};
use crate::walk::Walk;
use std::alloc::{AllocError, Global};

/// The first of some positions, which ascend, that is at least `next` and below `end`; `end` where
/// there is none, and `next` where that is not below `end`. Cost: a search by halving.
pub(crate) fn next_wanted(wanted: &[u32], next: usize, end: usize) -> usize
    requires { AreAscending wanted.now }
    ensures from { next ≤ result }
    ensures to { next ≤ end → result ≤ end }
    ensures between { (p : ℕ) → next ≤ p → p < result → Has wanted.now p → ⊥ }
{
    if next >= end {
        return next;
    }
    let at = count_below(wanted, next);
    if at >= wanted.len() {
        return end;
    }
    let position = wanted[at] as usize;
    if position < end { position } else { end }
}

// Adds each position below a number.
fn add_below(wanted: &mut Vec<u32>, count: u64) -> Result<(), AllocError>
    requires { count ≤ 4294967296 }
    ensures more { OnOk result ((p : ℕ) → Has wanted.old.items p → Has wanted.new.items p) }
    ensures all { OnOk result ((p : ℕ) → p < count → Has wanted.new.items p) }
{
    for position in 0..count {
        wanted.push(position as u32)?;
    }
    Ok(())
}

// Adds the positions at which a rule that is alive has its state at a place, of those that may be
// there. They are taken from the walk's holders; of a state that is not marked as wide, which none
// beside another one is, all positions up to the walk's are added.
fn add_wanted(
    walk: &Walk<'_>,
    place: u32,
    one: &Alive,
    wanted: &mut Vec<u32>,
) -> Result<(), AllocError>
    requires normal { AreNormal walk.now.rules.now }
    requires place { HasPlace walk.now.rules.now place one.now }
    requires holders { AreHolders walk.now.wide.now walk.now.order.now
        walk.now.holders.now.lists.items }
    ensures more { OnOk result ((p : ℕ) → Has wanted.old.items p → Has wanted.new.items p) }
    ensures own { OnOk result ((p r : ℕ) → p ≤ walk.now.position →
        (place ≡ walk.now.last → p ≡ walk.now.position) →
        Has (vector_at walk.now.order.now p) (
          get_or (states_of walk.now.rules.now one.now.rule)
              place 0,
          r,
        ) → Has wanted.new.items p) }
{
    if place == walk.last {
        wanted.push(walk.position)?;
        return Ok(());
    }
    let state = state_at(walk.rules, place as usize, one.rule);
    if !is_marked(walk.wide, state) {
        return add_below(wanted, walk.position as u64 + 1);
    }
    let positions = walk.holders.of(state, walk.position as usize + 1);
    wanted.extend_from_slice(positions)?;
    Ok(())
}

/// The positions at which a rule that is alive has its state at a place, of those that may be
/// there, ascending. Others may be among them. Err only if memory is refused. Cost: a sort of the
/// positions that each of these rules adds.
pub(crate) fn wanted_at(
    alloc: Global,
    walk: &Walk<'_>,
    place: u32,
    alive: &[Alive],
) -> Result<Vec<u32>, AllocError>
    requires normal { AreNormal walk.now.rules.now }
    requires places { Each (HasPlace walk.now.rules.now place) alive.now }
    requires holders { AreHolders walk.now.wide.now walk.now.order.now
        walk.now.holders.now.lists.items }
    ensures wanted { IfOk result (λ w. HasWanted walk.now.rules.now walk.now.order.now
        walk.now.position walk.now.last place alive.now w.items) }
    ensures ascends { IfOk result (λ w. AreAscending w.items) }
{
    let mut wanted = Vec::with_capacity(alloc, alive.len())?;
    for one in alive {
        add_wanted(walk, place, one, &mut wanted)?;
    }
    wanted.sort_unstable();
    Ok(wanted)
}
