//! The choices of a walk: the positions that may be at a place, and the lists of positions that go
//! on with them.

ghost use Rattle.std.specs.Prelude.{◌≡◌, ℕ, ◌<◌, ◌≤◌, ◌^◌, ◌∷◌, ◌++◌, [], length, map, if◌then◌else◌, IsTrue, IfOk, OnOk, false};
ghost use Rattle.tib_grammar.specs.Items.{state_in};
ghost use Rattle.tib_difference.specs.Held.{AreHolders};
ghost use Rattle.tib_difference.specs.Tries.{below_at, choices_at, grown, itself_at};
ghost use Rattle.tib_difference.specs.Walks.{IsStuck, prefixes_of};

use crate::lists::state_at;
use crate::walk::Walk;
use smallvec::SmallVec;
use std::alloc::{AllocError, Global};
use tib_grammar::Item;

// The positions below a walk's one that may be at a place.
fn below<'w>(walk: &Walk<'w>, states: &[Item<u32>], place: u32) -> &'w [u32]
    requires place { place < length states.now }
    requires last { walk.now.place < length states.now }
    requires holders { AreHolders walk.now.order.now walk.now.holders.now.lists.items }
    ensures { result.now ≡ below_at (map state_in states.now) walk.now.order.now walk.now.position
        walk.now.place place }
{
    if place == walk.place {
        return &[];
    }
    walk.holders.below(state_at(states, place), walk.position)
}

// Whether the position of a walk may itself be at a place.
fn is_allowed(walk: &Walk<'_>, states: &[Item<u32>], place: u32) -> bool
    ensures { itself_at (map state_in states.now) walk.now.position walk.now.place place
        ≡ (if result then walk.now.position ∷ [] else []) }
{
    place <= walk.place && state_at(states, place) == state_at(states, walk.place)
}

// Whether some position may be at a place.
fn has_choice(walk: &Walk<'_>, states: &[Item<u32>], place: u32) -> bool
    requires place { place < length states.now }
    requires last { walk.now.place < length states.now }
    requires holders { AreHolders walk.now.order.now walk.now.holders.now.lists.items }
    ensures yes { IsTrue result → choices_at (map state_in states.now) walk.now.order.now
        walk.now.position walk.now.place place ≡ [] → ⊥ }
    ensures no { result ≡ false → choices_at (map state_in states.now) walk.now.order.now
        walk.now.position walk.now.place place ≡ [] }
{
    let positions = below(walk, states, place);
    if positions.is_empty() {
        return is_allowed(walk, states, place);
    }
    true
}

/// Whether no position may be at some place. Cost: a search by halving for each place.
pub(crate) fn is_stuck(walk: &Walk<'_>, states: &[Item<u32>], rank: u32) -> bool
    requires many { rank ≡ length states.now }
    requires last { walk.now.place < length states.now }
    requires holders { AreHolders walk.now.order.now walk.now.holders.now.lists.items }
    ensures yes { IsTrue result → IsStuck (choices_at (map state_in states.now) walk.now.order.now
        walk.now.position walk.now.place) rank }
    ensures no { result ≡ false → IsStuck (choices_at (map state_in states.now) walk.now.order.now
        walk.now.position walk.now.place) rank → ⊥ }
{
    for place in 0..rank {
        if !has_choice(walk, states, place) {
            return true;
        }
    }
    false
}

// Some positions, and one after them.
fn with_position(
    alloc: Global,
    prefix: &[u32],
    position: u32,
) -> Result<SmallVec<u32, 4>, AllocError>
    ensures { IfOk result (λ v. v.items ≡ prefix.now ++ position ∷ []) }
{
    let mut all = SmallVec::with_capacity(alloc, prefix.len() + 1)?;
    all.extend_from_slice(prefix)?;
    all.push(position)?;
    Ok(all)
}

// Puts a prefix onto a stack, with each of some positions after it.
fn push_grown(
    alloc: Global,
    prefix: &[u32],
    positions: &[u32],
    stack: &mut Vec<SmallVec<u32, 4>>,
) -> Result<(), AllocError>
    ensures { OnOk result (prefixes_of stack.new.items ≡ prefixes_of stack.old.items
        ++ grown prefix.now positions.now) }
{
    for position in positions {
        stack.push(with_position(alloc, prefix, *position)?)?;
    }
    Ok(())
}

/// Puts a prefix onto a stack, with each position after it that may be at the next place.
pub(crate) fn push_choices(
    alloc: Global,
    walk: &Walk<'_>,
    states: &[Item<u32>],
    prefix: &[u32],
    stack: &mut Vec<SmallVec<u32, 4>>,
) -> Result<(), AllocError>
    requires next { length prefix.now < length states.now }
    requires many { length states.now < 2 ^ 32 }
    requires last { walk.now.place < length states.now }
    requires holders { AreHolders walk.now.order.now walk.now.holders.now.lists.items }
    ensures { OnOk result (prefixes_of stack.new.items ≡ prefixes_of stack.old.items
        ++ grown prefix.now (choices_at (map state_in states.now) walk.now.order.now
        walk.now.position walk.now.place (length prefix.now))) }
{
    let place = prefix.len() as u32;
    push_grown(alloc, prefix, below(walk, states, place), stack)?;
    if is_allowed(walk, states, place) {
        stack.push(with_position(alloc, prefix, walk.position)?)?;
    }
    Ok(())
}
