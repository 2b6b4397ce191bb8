//! Settles the rules of a round's rows by several threads. Each thread settles a piece of the rows
//! and then drops it.

ghost use Rattle.std.specs.Prelude.{◌≡◌, ◌+◌, ◌<◌, [], length, map, IfOk, OnOk};
ghost use Rattle.std.specs.Thread.{IsSend, IsSync};
ghost use Rattle.tib_lex.specs.Lists.{Each};
ghost use Rattle.tib_hunt.specs.Divided.{MayBePlaced, AddsRules};
ghost use Rattle.tib_hunt.specs.Rows.{IsRowBelow, ReadAs, StayBelow};
ghost use Rattle.tib_hunt.specs.Known.{AreOn};
ghost use Rattle.tib_hunt.specs.Shelved.{placed_row};

use crate::lookups::Ruled;
use crate::placing::{EndPositions, place_rows};
use std::alloc::{AllocError, Global};
use std::mem::replace;
use std::thread::{Threads, join};
use tib_expand::Expand;
use tib_workers::Row;

// The fewest rows that are worth a thread of their own.
const LEAST_PIECE: usize = 1024;

// How many rules the rows have, or the greatest `usize` if they have more.
fn count_rules<O>(rows: &[Row<Ruled<O>>]) -> usize {
    let mut count: usize = 0;
    for row in rows {
        count = count.saturating_add(row.rules.rules.len());
    }
    count
}

// Settles the rules of rows, and returns the given rules followed by these. The rows are halved
// `times` times, and each half has a thread of its own. Room for the rules of all rows is made
// first, so those of the first piece are never moved.
#[cycle(halves)]
fn place_halves<E: Expand + Sync, R: Threads + Sync>(
    rt: &R,
    alloc: Global,
    problem: &E,
    rows: Vec<Row<Ruled<E::Over>>>,
    positions: &EndPositions<'_>,
    rules: Vec<E::Rule>,
    times: u32,
) -> Result<Vec<E::Rule>, AllocError>
where
    E::Key: Send + Sync,
    E::Over: Send,
    E::Rule: Send,
    E::Index: Send,
    requires { MayBePlaced E.reading (map (λ v. v.items) positions.now.on_shelves.now)
        positions.now.first positions.now.moved.now rows.items }
    ensures { IfOk result (λ r. AddsRules E.reading (map (λ v. v.items)
        positions.now.on_shelves.now) positions.now.first positions.now.moved.now rules.items
        rows.items r.items) }
{
    let mut rules = rules;
    rules.reserve(count_rules(&rows))?;
    if times == 0 || rows.len() < LEAST_PIECE {
        place_rows(alloc, problem, rows, positions, &mut rules)?;
        return Ok(rules);
    }
    let mut front = rows;
    let back = front.split_off(front.len() / 2)?;
    let of_front = move || -> Result<Vec<E::Rule>, AllocError>
        requires { IsSend E.Key.row × IsSend E.Over.row × IsSend E.Rule.row × IsSend E.Index.row ×
            IsSync R.row × IsSync E.row × IsSync E.Key.row × (0 < times) × MayBePlaced E.reading
            (map (λ v. v.items) positions.now.on_shelves.now) positions.now.first
            positions.now.moved.now front.items }
        ensures { IfOk result (λ r. AddsRules E.reading (map (λ v. v.items)
            positions.entry.now.on_shelves.now) positions.entry.now.first
            positions.entry.now.moved.now rules.items front.items r.items) }
    { place_halves(rt, alloc, problem, front, positions, rules, times - 1) };
    let of_back = move || -> Result<Vec<E::Rule>, AllocError>
        requires { IsSend E.Key.row × IsSend E.Over.row × IsSend E.Rule.row × IsSend E.Index.row ×
            IsSync R.row × IsSync E.row × IsSync E.Key.row × (0 < times) × MayBePlaced E.reading
            (map (λ v. v.items) positions.now.on_shelves.now) positions.now.first
            positions.now.moved.now back.items }
        ensures { IfOk result (λ r. AddsRules E.reading (map (λ v. v.items)
            positions.entry.now.on_shelves.now) positions.entry.now.first
            positions.entry.now.moved.now [] back.items r.items) }
    {
        let none = Vec::new(alloc);
        place_halves(rt, alloc, problem, back, positions, none, times - 1)
    };
    let (of_first, of_second) = join(rt, of_front, of_back);
    let mut all = of_first?;
    let mut more = of_second?;
    all.append(&mut more)?;
    Ok(all)
}

/// Settles the rules of all rows as `place_rows` does, by several threads. The rows are halved
/// `times` times, but never fewer than 1,024 of them, and each half has a thread of its own where
/// one can be started. A rule is moved once for each time that its row was in a second half. Err if
/// memory is refused; the rules are then gone.
pub(crate) fn place_together<E: Expand + Sync, R: Threads + Sync>(
    rt: &R,
    alloc: Global,
    problem: &E,
    rows: Vec<Row<Ruled<E::Over>>>,
    positions: &EndPositions<'_>,
    rules: &mut Vec<E::Rule>,
    times: u32,
) -> Result<(), AllocError>
where
    E::Key: Send + Sync,
    E::Over: Send,
    E::Rule: Send,
    E::Index: Send,
    requires on { Each (λ row. AreOn (map (λ v. v.items) positions.now.on_shelves.now) row.rules.at
        row.ends.items) rows.items }
    requires below { Each (IsRowBelow E.reading.places positions.now.first (positions.now.first +
        length positions.now.moved.now)) (map (placed_row (map (λ v. v.items)
        positions.now.on_shelves.now)) rows.items) }
    ensures read { OnOk result (ReadAs E.reading positions.now.first positions.now.moved.now
        rules.old.items (map (placed_row (map (λ v. v.items) positions.now.on_shelves.now))
        rows.items) rules.new.items) }
    ensures below { OnOk result (StayBelow E.reading positions.now.first positions.now.moved.now
        rules.old.items rules.new.items) }
{
    if times == 0 || rows.len() < LEAST_PIECE {
        return place_rows(alloc, problem, rows, positions, rules);
    }
    let old = replace(rules, Vec::new(alloc));
    *rules = place_halves(rt, alloc, problem, rows, positions, old, times)?;
    Ok(())
}
