//! Settles the rules of a round's rows. An end of a row is in the order or has a number on a shelf,
//! and gets the position of its key.

ghost use Rattle.std.specs.Prelude.{◌≡◌, ◌+◌, ◌<◌, length, map, OnOk};
ghost use Rattle.tib_lex.specs.Lists.{Each};
ghost use Rattle.tib_hunt.specs.Numbered.{moved_to};
ghost use Rattle.tib_hunt.specs.Rows.{IsRowBelow, ReadsRow, ReadAs, StayBelow};
ghost use Rattle.tib_hunt.specs.Known.{position_on, IsOn, positions_at, HavePositionsAt, end_positions, AreOn};
ghost use Rattle.tib_hunt.specs.Shelved.{placed_row};

use crate::lookups::{EndAt, Ruled};
use crate::row::{move_end, settle_rules};
use std::alloc::{AllocError, Global};
use tib_expand::Expand;
use tib_table::Number;
use tib_workers::Row;

/// Where the ends of a round's rows are: the positions of the keys on each shelf, as they were
/// before those from `first` on were moved, and where each of these was moved.
#[derive(Drop)]
pub(crate) struct EndPositions<'a> {
    pub on_shelves: &'a [Vec<u32>],
    pub first: u32,
    pub moved: &'a [u32],
}

// The position of a number on a shelf.
fn place_end(number: Number, positions: &[Vec<u32>]) -> u32
    requires { IsOn (map (λ v. v.items) positions.now) number }
    ensures { result ≡ position_on (map (λ v. v.items) positions.now) number }
{
    positions[number.shelf as usize][number.place as usize]
}

// Fills the list with the positions of the numbers on shelves, after the positions from `first` on
// were moved.
fn place_ends(
    ends: &[Number],
    positions: &[Vec<u32>],
    first: u32,
    moved: &[u32],
    placed: &mut Vec<u32>,
) -> Result<(), AllocError>
    requires on { Each (IsOn (map (λ v. v.items) positions.now)) ends.now }
    requires below { Each (λ n. n < first + length moved.now)
        (map (position_on (map (λ v. v.items) positions.now)) ends.now) }
    ensures { OnOk result (placed.new.items ≡ map (moved_to first moved.now)
        (map (position_on (map (λ v. v.items) positions.now)) ends.now)) }
{
    placed.clear();
    for &number in ends {
        placed.push(move_end(place_end(number, positions), first, moved))?;
    }
    Ok(())
}

// Fills the list with the positions of ends, after the positions from `first` on were moved. Some
// of the ends are in the order, and the others have numbers on shelves.
fn place_known(
    at: &[EndAt],
    numbers: &[Number],
    positions: &[Vec<u32>],
    first: u32,
    moved: &[u32],
    placed: &mut Vec<u32>,
) -> Result<(), AllocError>
    requires on { HavePositionsAt (map (λ v. v.items) positions.now) at.now numbers.now }
    requires below { Each (λ n. n < first + length moved.now)
        (positions_at (map (λ v. v.items) positions.now) at.now numbers.now) }
    ensures { OnOk result (placed.new.items ≡ map (moved_to first moved.now)
        (positions_at (map (λ v. v.items) positions.now) at.now numbers.now)) }
{
    placed.clear();
    let mut next = 0;
    for &end in at {
        let position = match end {
            EndAt::Position(position) => position,
            EndAt::Numbered => {
                let number = numbers[next];
                next += 1;
                place_end(number, positions)
            }
        };
        placed.push(move_end(position, first, moved))?;
    }
    Ok(())
}

// The same where all ends may have numbers.
fn place_all(
    at: &Option<Vec<EndAt>>,
    numbers: &[Number],
    positions: &[Vec<u32>],
    first: u32,
    moved: &[u32],
    placed: &mut Vec<u32>,
) -> Result<(), AllocError>
    requires on { AreOn (map (λ v. v.items) positions.now) at.now numbers.now }
    requires below { Each (λ n. n < first + length moved.now)
        (end_positions (map (λ v. v.items) positions.now) at.now numbers.now) }
    ensures { OnOk result (placed.new.items ≡ map (moved_to first moved.now)
        (end_positions (map (λ v. v.items) positions.now) at.now numbers.now)) }
{
    match at {
        Some(at) => place_known(at, numbers, positions, first, moved, placed),
        None => place_ends(numbers, positions, first, moved, placed),
    }
}

// Settles the rules of a row, and appends them to the rules. The list `ends` is reused for every
// row.
fn place_row<E: Expand>(
    alloc: Global,
    problem: &E,
    row: &Row<Ruled<E::Over>>,
    positions: &EndPositions<'_>,
    ends: &mut Vec<u32>,
    rules: &mut Vec<E::Rule>,
) -> Result<(), AllocError>
    requires on { AreOn (map (λ v. v.items) positions.now.on_shelves.now) row.now.rules.at
        row.now.ends.items }
    requires below { IsRowBelow E.reading.places positions.now.first (positions.now.first + length
        positions.now.moved.now) (placed_row (map (λ v. v.items) positions.now.on_shelves.now)
        row.now) }
    ensures read { OnOk result (ReadsRow E.reading positions.now.first positions.now.moved.now
        rules.old.items (placed_row (map (λ v. v.items) positions.now.on_shelves.now) row.now)
        rules.new.items) }
    ensures below { OnOk result (StayBelow E.reading positions.now.first positions.now.moved.now
        rules.old.items rules.new.items) }
{
    place_all(
        &row.rules.at,
        &row.ends,
        positions.on_shelves,
        positions.first,
        positions.moved,
        ends,
    )?;
    settle_rules(alloc, problem, &row.rules.rules, ends, rules)
}

/// Settles the rules of all rows, and appends them to the rules. Each end of the rows is in the
/// order or has a number on a shelf. Each row is dropped as soon as it is settled. Err if memory is
/// refused.
pub(crate) fn place_rows<E: Expand>(
    alloc: Global,
    problem: &E,
    rows: Vec<Row<Ruled<E::Over>>>,
    positions: &EndPositions<'_>,
    rules: &mut Vec<E::Rule>,
) -> Result<(), AllocError>
    requires on { Each (λ row. AreOn (map (λ v. v.items) positions.now.on_shelves.now) row.rules.at
        row.ends.items) rows.items }
    requires below { Each (IsRowBelow E.reading.places positions.now.first (positions.now.first +
        length positions.now.moved.now)) (map (placed_row (map (λ v. v.items)
        positions.now.on_shelves.now)) rows.items) }
    ensures read { OnOk result (ReadAs E.reading positions.now.first positions.now.moved.now
        rules.old.items (map (placed_row (map (λ v. v.items) positions.now.on_shelves.now))
        rows.items) rules.new.items) }
    ensures below { OnOk result (StayBelow E.reading positions.now.first positions.now.moved.now
        rules.old.items rules.new.items) }
{
    let mut ends = Vec::new(alloc);
    for row in rows {
        place_row(alloc, problem, &row, positions, &mut ends, rules)?;
    }
    Ok(())
}
