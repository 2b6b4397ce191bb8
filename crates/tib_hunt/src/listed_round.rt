//! A round of few items, on one list of keys: it opens no shelves.

ghost use Rattle.std.specs.Prelude.{◌≡◌, ◌≤◌, [], length, map, IfErr, OnOk};
ghost use Rattle.tib_expand.specs.Reached.{IfTooMany, IsBeyond, most_parts};
ghost use Rattle.tib_hunt.specs.Rows.{numbered};
ghost use Rattle.tib_hunt.specs.States.{IsBetweenRounds, IsExpanded, AppendsOutcome};

use crate::state::HuntState;
use crate::terms::Terms;
use std::alloc::Global;
use tib_expand::{Expand, ExpandError, Gate, HuntError, TableKey};

// Expands the positions of the order from `first` on. Their ends are numbered on from the order, as
// they are found.
fn expand_few<E: Expand, G: Gate>(
    state: &mut HuntState<E>,
    alloc: Global,
    terms: &Terms<'_, E, G>,
    first: u32,
) -> Result<(), HuntError>
    requires limit { terms.now.limit ≤ most_parts }
    requires between { IsBetweenRounds (E.hunted terms.now.problem.now) (E.admits
        terms.now.problem.now) E.reading first terms.now.limit state.old }
    requires indexed { E.indexes terms.now.problem.now state.old.keys.keys terms.now.index.now }
    requires rows { state.old.rows.items ≡ [] }
    ensures within { OnOk result (IsExpanded (E.hunted terms.now.problem.now) (E.admits
        terms.now.problem.now) E.reading state.old.keys.keys first terms.now.limit
        state.new.keys.keys (map numbered state.new.rows.items) state.new) }
    ensures more { IfErr result (IfTooMany terms.now.limit (IsBeyond (E.hunted
        terms.now.problem.now) terms.now.limit)) }
{
    let Terms {
        problem,
        index,
        limit,
        gate,
    } = *terms;
    let bound = state.keys.len();
    for n in first..bound as u32 {
        gate.pass(0, n);
        let order = &state.keys.as_slice()[..bound];
        let edges = match problem.expand(alloc, order, index, n, limit - state.parts) {
            Ok(edges) => edges,
            Err(ExpandError::More) => return Err(HuntError::TooMany { limit }),
            Err(ExpandError::OutOfMemory) => return Err(HuntError::OutOfMemory),
        };
        match state.add_edges(alloc, limit, edges) {
            Ok(()) => {}
            Err(error) => return Err(error),
        }
    }
    Ok(())
}

/// Expands the positions from `first` on, and appends their new ends in ascending order. `TooMany`
/// only if the reached set passes the limit, `OutOfMemory` if memory is refused.
pub(crate) fn round_of_few<E: Expand, G: Gate>(
    state: &mut HuntState<E>,
    alloc: Global,
    terms: &Terms<'_, E, G>,
    first: u32,
) -> Result<(), HuntError>
    requires limit { terms.now.limit ≤ most_parts }
    requires between { IsBetweenRounds (E.hunted terms.now.problem.now) (E.admits
        terms.now.problem.now) E.reading first terms.now.limit state.old }
    requires indexed { E.indexes terms.now.problem.now state.old.keys.keys terms.now.index.now }
    requires rows { state.old.rows.items ≡ [] }
    ensures between { OnOk result (IsBetweenRounds (E.hunted terms.now.problem.now) (E.admits
        terms.now.problem.now) E.reading (length state.old.keys.keys) terms.now.limit state.new) }
    ensures run { OnOk result (AppendsOutcome (E.hunted terms.now.problem.now) E.Key.eq
        E.Key.shelf_of state.old.keys.keys first state.new.keys.keys) }
    ensures rows { OnOk result (state.new.rows.items ≡ []) }
    ensures more { IfErr result (IfTooMany terms.now.limit (IsBeyond (E.hunted
        terms.now.problem.now) terms.now.limit)) }
{
    let order = state.keys.len() as u32;
    match expand_few(state, alloc, terms, first) {
        Ok(()) => {}
        Err(error) => return Err(error),
    }
    let Ok(()) = state.settle(alloc, terms.problem, order) else {
        return Err(HuntError::OutOfMemory);
    };
    Ok(())
}
