//! The reached set of an operation, found round by round.

ghost use Rattle.std.specs.Prelude.{◌≡◌, ◌≤◌, ℕ, [], length, IfOk, IfErr};
ghost use Rattle.tib_expand.specs.Found.{IsFound, AreWithinOrder, HasParts};
ghost use Rattle.tib_expand.specs.Reached.{IfTooMany, IsBeyond, most_parts};
ghost use Rattle.tib_hunt.specs.States.{IsBetweenRounds};

use crate::one_round::{round_alone, round_together};
use crate::state::{HuntState, list_keys};
use crate::terms::Terms;
use std::alloc::{AllocError, Global};
use std::sync::Wait;
use std::thread::Threads;
use tib_expand::{Expand, Found, Gate, HuntError};

/// A round of at least this many items opens shelves. There are as many shelves.
const MANY: usize = 16;

// What was found, once each position is expanded. Err if memory is refused.
fn found_in<E: Expand>(
    alloc: Global,
    problem: &E,
    state: HuntState<E>,
) -> Result<Found<E::Key, E::Rule>, AllocError>
    requires between { (limit : ℕ) × IsBetweenRounds (E.hunted problem.now) (E.admits problem.now)
        E.reading (length state.keys.keys) limit state }
    ensures reached { IfOk result (IsFound (E.hunted problem.now) E.reading) }
    ensures positions { IfOk result (AreWithinOrder E.reading) }
    ensures parts { IfOk result (HasParts (E.hunted problem.now) E.reading) }
    ensures total { IfOk result (λ found. found.parts ≡ state.parts) }
{
    let _problem = problem;
    let HuntState {
        keys,
        rules,
        rows,
        parts,
    } = state;
    drop(rows);
    let order = list_keys(alloc, keys)?;
    Ok(Found {
        order,
        rules,
        parts,
    })
}

/// The reached set of an operation, found by one worker. A round of at least `many` items is worked
/// on shelves, and any other on one list. `TooMany` exactly where the reached set has more parts
/// than the limit.
pub(crate) fn hunt_by<E: Expand, G: Gate>(
    alloc: Global,
    problem: &E,
    limit: u64,
    many: usize,
    gate: &G,
) -> Result<Found<E::Key, E::Rule>, HuntError>
    requires some { 1 ≤ limit }
    requires limit { limit ≤ most_parts }
    ensures reached { IfOk result (IsFound (E.hunted problem.now) E.reading) }
    ensures positions { IfOk result (AreWithinOrder E.reading) }
    ensures parts { IfOk result (HasParts (E.hunted problem.now) E.reading) }
    ensures within { IfOk result (λ found. found.parts ≤ limit) }
    ensures more { IfErr result (IfTooMany limit (IsBeyond (E.hunted problem.now) limit)) }
{
    let mut state = match HuntState::begin(alloc, problem, limit) {
        Ok(state) => state,
        Err(error) => return Err(error),
    };
    let Ok(mut index) = problem.begin_index(alloc) else {
        return Err(HuntError::OutOfMemory);
    };
    let mut first = 0;
    while (first as usize) < state.keys.len() {
        let next = state.keys.len() as u32;
        let order = state.keys.as_slice();
        let Ok(()) = problem.extend_index(alloc, &mut index, order, first) else {
            return Err(HuntError::OutOfMemory);
        };
        let terms = Terms {
            problem,
            index: &index,
            limit,
            gate,
        };
        match round_alone(&mut state, alloc, &terms, many, first) {
            Ok(()) => {}
            Err(error) => return Err(error),
        }
        first = next;
    }
    let Ok(found) = found_in(alloc, problem, state) else {
        return Err(HuntError::OutOfMemory);
    };
    Ok(found)
}

// The reached set of an operation, found by several workers.
fn hunt_together<R: Threads + Wait + Sync, E: Expand + Sync, G: Gate + Sync>(
    rt: &R,
    alloc: Global,
    problem: &E,
    workers: u32,
    limit: u64,
    gate: &G,
) -> Result<Found<E::Key, E::Rule>, HuntError>
where
    E::Key: Send + Sync,
    E::Over: Send,
    E::Rule: Send,
    E::Index: Send + Sync,
    requires workers { (1 ≤ workers) × (workers ≤ 16) }
    requires some { 1 ≤ limit }
    requires limit { limit ≤ most_parts }
    ensures reached { IfOk result (IsFound (E.hunted problem.now) E.reading) }
    ensures positions { IfOk result (AreWithinOrder E.reading) }
    ensures parts { IfOk result (HasParts (E.hunted problem.now) E.reading) }
    ensures within { IfOk result (λ found. found.parts ≤ limit) }
    ensures more { IfErr result (IfTooMany limit (IsBeyond (E.hunted problem.now) limit)) }
{
    let mut state = match HuntState::begin(alloc, problem, limit) {
        Ok(state) => state,
        Err(error) => return Err(error),
    };
    let Ok(mut index) = problem.begin_index(alloc) else {
        return Err(HuntError::OutOfMemory);
    };
    let mut first = 0;
    while (first as usize) < state.keys.len() {
        let after = state.keys.len() as u32;
        let keys = state.keys.as_slice();
        let Ok(()) = problem.extend_index(alloc, &mut index, keys, first) else {
            return Err(HuntError::OutOfMemory);
        };
        let terms = Terms {
            problem,
            index: &index,
            limit,
            gate,
        };
        match round_together(rt, &mut state, alloc, &terms, workers, first) {
            Ok(()) => {}
            Err(error) => return Err(error),
        }
        first = after;
    }
    let Ok(found) = found_in(alloc, problem, state) else {
        return Err(HuntError::OutOfMemory);
    };
    Ok(found)
}

/// The reached set of an operation, found by one worker: its keys in the order by rounds, its rules
/// over their positions, and the parts of both. `TooMany` exactly where the reached set has more
/// parts than the limit, 1 to `MOST_PARTS`, or is endless; `OutOfMemory` if memory is refused.
/// Calls `gate` once for each key, before it expands that key. Cost: that of `problem`, and a few
/// look-ups by hash for each end of an edge; the keys of each round are sorted.
pub fn hunt_alone<E: Expand, G: Gate>(
    alloc: Global,
    problem: &E,
    limit: u64,
    gate: &G,
) -> Result<Found<E::Key, E::Rule>, HuntError>
    requires some { 1 ≤ limit }
    requires limit { limit ≤ most_parts }
    ensures reached { IfOk result (IsFound (E.hunted problem.now) E.reading) }
    ensures positions { IfOk result (AreWithinOrder E.reading) }
    ensures parts { IfOk result (HasParts (E.hunted problem.now) E.reading) }
    ensures within { IfOk result (λ found. found.parts ≤ limit) }
    ensures more { IfErr result (IfTooMany limit (IsBeyond (E.hunted problem.now) limit)) }
{
    hunt_by(alloc, problem, limit, MANY, gate)
}

/// The reached set as `hunt_alone` returns it, found by this number of workers, 1 to 16. A round of
/// one item is worked as by one worker. In any other the workers draw the items, no more workers
/// than there are items, and look the items' ends up in the order. Each end that the order lacks
/// takes one turn of a shelf. The caller expands an item again if a worker has too small a share of
/// what the limit leaves, or is refused memory. Only the caller returns `TooMany`, so it does not
/// depend on the order of the workers' steps. Calls `gate` for each key before it is expanded, with
/// the number of the worker that does it. It may wait forever, while a turn of a shelf is held.
/// Errors are those of `hunt_alone`, and so is the cost, but for the keys that are expanded again,
/// and for threads: each round starts one for each worker, and no more than that at its end if it
/// made at least 1,024 rows or 2,048 fresh keys.
pub fn hunt<R: Threads + Wait + Sync, E: Expand + Sync, G: Gate + Sync>(
    rt: &R,
    alloc: Global,
    problem: &E,
    workers: u32,
    limit: u64,
    gate: &G,
) -> Result<Found<E::Key, E::Rule>, HuntError>
where
    E::Key: Send + Sync,
    E::Over: Send,
    E::Rule: Send,
    E::Index: Send + Sync,
    requires workers { (1 ≤ workers) × (workers ≤ 16) }
    requires some { 1 ≤ limit }
    requires limit { limit ≤ most_parts }
    ensures reached { IfOk result (IsFound (E.hunted problem.now) E.reading) }
    ensures positions { IfOk result (AreWithinOrder E.reading) }
    ensures parts { IfOk result (HasParts (E.hunted problem.now) E.reading) }
    ensures within { IfOk result (λ found. found.parts ≤ limit) }
    ensures more { IfErr result (IfTooMany limit (IsBeyond (E.hunted problem.now) limit)) }
{
    if workers == 1 {
        return hunt_alone(alloc, problem, limit, gate);
    }
    hunt_together(rt, alloc, problem, workers, limit, gate)
}
