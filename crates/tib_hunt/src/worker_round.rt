//! A round by several workers, who draw and expand its items, number the ends in one table, and
//! hand over rows.

ghost use Rattle.std.specs.Prelude.{◌≡◌, ◌≤◌, IfOk, IfErr};
ghost use Rattle.tib_workers.specs.Rows.{parts_in};
ghost use Rattle.tib_expand.specs.Reached.{IfTooMany, IsBeyond, most_parts};
ghost use Rattle.tib_hunt.specs.States.{IsBetweenRounds, WorksRound, LacksAll, IsRunOverLacked};

use crate::job::JobOf;
use crate::shelved_round::Worked;
use crate::state::HuntState;
use crate::terms::Terms;
use std::alloc::Global;
use std::sync::Wait;
use std::thread::Threads;
use tib_expand::{Expand, Gate, HuntError};
use tib_workers::{Gathered, Row, Unperformed, perform_all};

// The parts of all rows.
fn count_parts<T>(rows: &[Row<T>]) -> u64
    requires { parts_in rows.now ≤ most_parts }
    ensures { result ≡ parts_in rows.now }
{
    let mut made = 0;
    for row in rows {
        made += row.parts;
    }
    made
}

/// Works one round by this number of workers, 1 to 16, as `work_round` does by one. Ends that the
/// order has take no turn of a shelf. The caller expands an item again if a worker has too small a
/// share of what the limit leaves, or is refused memory. Only the caller adds up the parts of all
/// rows. `TooMany` only if the reached set passes the limit, `OutOfMemory` if memory is refused.
///
/// What the workers made is what a complete run of the core's events leaves (`run`). No clause says
/// that their steps are the events of such a run, in the order in which the machine does them: that
/// a worker draws an item, numbers those of its ends that the order lacks, and then makes its row,
/// is seen in the code.
pub(crate) fn work_together<E: Expand + Sync, G: Gate + Sync, R: Threads + Wait + Sync>(
    rt: &R,
    alloc: Global,
    terms: &Terms<'_, E, G>,
    state: &HuntState<E>,
    first: u32,
    workers: u32,
) -> Result<Worked<E::Key, E::Over>, HuntError>
where
    E::Key: Send + Sync,
    E::Over: Send,
    E::Rule: Send,
    E::Index: Sync,
    requires workers { (1 ≤ workers) × (workers ≤ 16) }
    requires limit { terms.now.limit ≤ most_parts }
    requires between { IsBetweenRounds (E.hunted terms.now.problem.now) (E.admits
        terms.now.problem.now) E.reading first terms.now.limit state.now }
    requires indexed { E.indexes terms.now.problem.now state.now.keys.keys terms.now.index.now }
    ensures worked { IfOk result (WorksRound (E.hunted terms.now.problem.now) E.reading
        E.Key.shelf_of state.now.keys.keys first state.now.parts terms.now.limit) }
    ensures apart { IfOk result (LacksAll state.now.keys.keys) }
    ensures run { IfOk result (IsRunOverLacked (E.hunted terms.now.problem.now) E.Key.eq
        E.Key.shelf_of state.now.keys.keys first) }
    ensures more { IfErr result (IfTooMany terms.now.limit (IsBeyond (E.hunted
        terms.now.problem.now) terms.now.limit)) }
{
    let job = JobOf {
        terms,
        keys: &state.keys,
        first,
    };
    let limit = terms.limit;
    let left = limit - state.parts;
    let Gathered { rows, shelves } = match perform_all(rt, alloc, &job, workers, left) {
        Ok(gathered) => gathered,
        Err(Unperformed::More) => return Err(HuntError::TooMany { limit }),
        Err(Unperformed::OutOfMemory) => return Err(HuntError::OutOfMemory),
    };
    let Ok(shelves) = shelves.into_lists(alloc) else {
        return Err(HuntError::OutOfMemory);
    };
    let made = count_parts(&rows);
    Ok(Worked {
        shelves,
        rows,
        parts: state.parts + made,
    })
}
