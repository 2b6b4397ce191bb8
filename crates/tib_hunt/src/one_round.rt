//! One round of a hunt, from its first item to its keys in order, by one worker or by several.

ghost use Rattle.std.specs.Prelude.{◌≡◌, ◌≤◌, [], length, IfErr, OnOk};
ghost use Rattle.tib_expand.specs.Reached.{IfTooMany, IsBeyond, most_parts};
ghost use Rattle.tib_hunt.specs.States.{IsBetweenRounds, AppendsOutcome};

use crate::listed_round::round_of_few;
use crate::shelved_round::work_round;
use crate::state::HuntState;
use crate::terms::Terms;
use crate::worker_round::work_together;
use std::alloc::Global;
use std::sync::Wait;
use std::thread::Threads;
use tib_expand::{Expand, Gate, HuntError};

/// Works the round that begins at the position `first` by one worker, on shelves if it has at least
/// `many` items, and otherwise on one list. The outcome is the same: the keys that it appends are
/// those that a complete run of the core's events leaves in which those ends are numbered that the
/// order lacks (`run`). `TooMany` only if the reached set passes the limit, `OutOfMemory` if memory
/// is refused.
pub(crate) fn round_alone<E: Expand, G: Gate>(
    state: &mut HuntState<E>,
    alloc: Global,
    terms: &Terms<'_, E, G>,
    many: usize,
    first: u32,
) -> Result<(), HuntError>
    requires limit { terms.now.limit ≤ most_parts }
    requires between { IsBetweenRounds (E.hunted terms.now.problem.now) (E.admits
        terms.now.problem.now) E.reading first terms.now.limit state.old }
    requires indexed { E.indexes terms.now.problem.now state.old.keys.keys terms.now.index.now }
    requires rows { state.old.rows.items ≡ [] }
    ensures between { OnOk result (IsBetweenRounds (E.hunted terms.now.problem.now) (E.admits
        terms.now.problem.now) E.reading (length state.old.keys.keys) terms.now.limit state.new) }
    ensures run { OnOk result (AppendsOutcome (E.hunted terms.now.problem.now) E.Key.eq
        E.Key.shelf_of state.old.keys.keys first state.new.keys.keys) }
    ensures rows { OnOk result (state.new.rows.items ≡ []) }
    ensures more { IfErr result (IfTooMany terms.now.limit (IsBeyond (E.hunted
        terms.now.problem.now) terms.now.limit)) }
{
    if state.keys.len() - (first as usize) < many {
        return round_of_few(state, alloc, terms, first);
    }
    let order = state.keys.as_slice();
    match work_round(alloc, terms, order, first, state.parts) {
        Ok(worked) => state.end_round(alloc, terms.problem, terms.limit, first, worked),
        Err(error) => Err(error),
    }
}

/// Works the round that begins at the position `first` by this number of workers, 1 to 16, or a
/// round of one item by one. The outcome and the errors are those of `round_alone`.
pub(crate) fn round_together<E: Expand + Sync, G: Gate + Sync, R: Threads + Wait + Sync>(
    rt: &R,
    state: &mut HuntState<E>,
    alloc: Global,
    terms: &Terms<'_, E, G>,
    workers: u32,
    first: u32,
) -> Result<(), HuntError>
where
    E::Key: Send + Sync,
    E::Over: Send,
    E::Rule: Send,
    E::Index: Send + Sync,
    requires workers { (1 ≤ workers) × (workers ≤ 16) }
    requires limit { terms.now.limit ≤ most_parts }
    requires between { IsBetweenRounds (E.hunted terms.now.problem.now) (E.admits
        terms.now.problem.now) E.reading first terms.now.limit state.old }
    requires indexed { E.indexes terms.now.problem.now state.old.keys.keys terms.now.index.now }
    requires rows { state.old.rows.items ≡ [] }
    ensures between { OnOk result (IsBetweenRounds (E.hunted terms.now.problem.now) (E.admits
        terms.now.problem.now) E.reading (length state.old.keys.keys) terms.now.limit state.new) }
    ensures run { OnOk result (AppendsOutcome (E.hunted terms.now.problem.now) E.Key.eq
        E.Key.shelf_of state.old.keys.keys first state.new.keys.keys) }
    ensures rows { OnOk result (state.new.rows.items ≡ []) }
    ensures more { IfErr result (IfTooMany terms.now.limit (IsBeyond (E.hunted
        terms.now.problem.now) terms.now.limit)) }
{
    if state.keys.len() - (first as usize) < 2 {
        return round_of_few(state, alloc, terms, first);
    }
    match work_together(rt, alloc, terms, state, first, workers) {
        Ok(worked) => state.end_round_together(rt, alloc, terms, first, workers, worked),
        Err(error) => Err(error),
    }
}
