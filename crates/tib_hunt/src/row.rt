//! Rows of edges whose ends have numbers, and how their rules get the positions of the ends.

ghost use Rattle.std.specs.Prelude.{◌≡◌, ◌+◌, ◌<◌, ℕ, length, map, OnOk};
ghost use Rattle.tib_lex.specs.Lists.{Each};
ghost use Rattle.tib_expand.specs.EdgeLists.{IsWithin};
ghost use Rattle.tib_hunt.specs.Numbered.{moved_to};
ghost use Rattle.tib_hunt.specs.Rows.{numbered, IsRowBelow, Settles, ReadsRow, ReadAs, StayBelow};

use std::alloc::{AllocError, Global};
use tib_expand::Expand;

/// Edges whose ends have numbers, and no positions yet.
#[derive(Drop)]
pub struct Row<R> {
    /// The rules, one for each edge.
    pub rules: Vec<R>,
    /// The numbers of the ends.
    pub ends: Vec<u32>,
}

// Fills the list with the numbers of the ends, after the numbers from `first` on were moved.
fn move_ends(
    ends: &[u32],
    first: u32,
    moved: &[u32],
    numbers: &mut Vec<u32>,
) -> Result<(), AllocError>
    requires { Each (λ n. n < first + length moved.now) ends.now }
    ensures { OnOk result (numbers.new.items ≡ map (moved_to first moved.now) ends.now) }
{
    numbers.clear();
    for &number in ends {
        numbers.push(move_end(number, first, moved))?;
    }
    Ok(())
}

/// The number of an end, after the numbers from `first` on were moved.
pub(crate) fn move_end(number: u32, first: u32, moved: &[u32]) -> u32
    requires { number < first + length moved.now }
    ensures { result ≡ moved_to first moved.now number }
{
    if number < first {
        number
    } else {
        moved[(number - first) as usize]
    }
}

/// Settles rules over places whose ends have these positions, and appends them to the rules. Err if
/// memory is refused.
pub(crate) fn settle_rules<E: Expand>(
    alloc: Global,
    problem: &E,
    over: &[E::Over],
    ends: &[u32],
    rules: &mut Vec<E::Rule>,
) -> Result<(), AllocError>
    requires { (known : ℕ) × Each (λ rule. Each (IsWithin known (length ends.now))
        (E.reading.places rule)) over.now }
    ensures { OnOk result (Settles E.reading ends.now rules.old.items over.now rules.new.items) }
{
    for rule in over {
        let settled = problem.settle(alloc, rule, ends)?;
        let Ok(()) = rules.push(settled) else {
            return Err(AllocError);
        };
    }
    Ok(())
}

// Settles the rules of a row, and appends them to the rules. The list `ends` is reused for every
// row.
fn settle_row<E: Expand>(
    alloc: Global,
    problem: &E,
    row: &Row<E::Over>,
    first: u32,
    moved: &[u32],
    ends: &mut Vec<u32>,
    rules: &mut Vec<E::Rule>,
) -> Result<(), AllocError>
    requires below { IsRowBelow E.reading.places first (first + length moved.now)
        (numbered row.now) }
    ensures read { OnOk result (ReadsRow E.reading first moved.now rules.old.items
        (numbered row.now) rules.new.items) }
    ensures below { OnOk result (StayBelow E.reading first moved.now rules.old.items
        rules.new.items) }
{
    move_ends(&row.ends, first, moved, ends)?;
    settle_rules(alloc, problem, &row.rules, ends, rules)
}

/// Settles the rules of all rows, and appends them to the rules. Err if memory is refused.
pub(crate) fn settle_rows<E: Expand>(
    alloc: Global,
    problem: &E,
    rows: &[Row<E::Over>],
    first: u32,
    moved: &[u32],
    rules: &mut Vec<E::Rule>,
) -> Result<(), AllocError>
    requires below { Each (IsRowBelow E.reading.places first (first + length moved.now))
        (map numbered rows.now) }
    ensures read { OnOk result (ReadAs E.reading first moved.now rules.old.items
        (map numbered rows.now) rules.new.items) }
    ensures below { OnOk result (StayBelow E.reading first moved.now rules.old.items
        rules.new.items) }
{
    let mut ends = Vec::new(alloc);
    for row in rows {
        settle_row(alloc, problem, row, first, moved, &mut ends, rules)?;
    }
    Ok(())
}
