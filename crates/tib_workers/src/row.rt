//! The row of an item: the item is performed, and its ends are numbered.

ghost use Rattle.std.specs.Prelude.{◌≡◌, ◌≤◌, ◌<◌, IfOk, IfErr};
ghost use Rattle.std.specs.List.{All};
ghost use Rattle.tib_table.specs.Known.{GoOn};
ghost use Rattle.tib_workers.specs.Rows.{NameOn, IsRowOf};
ghost use Rattle.tib_lex.specs.Limits.{most_parts};

use crate::task::{Performed, Task, Unperformed};
use std::alloc::{AllocError, Global};
use std::sync::Wait;
use tib_table::{Number, Problem, Seats, Table};

/// An item that was performed. Its ends have numbers on the shelves.
#[derive(Drop)]
pub struct Row<T> {
    /// The item.
    pub item: u32,
    /// What is read over its ends.
    pub rules: T,
    /// The numbers of the ends.
    pub ends: Vec<Number>,
    /// Its parts.
    pub parts: u64,
}

// The numbers of keys in the table.
fn number_ends<P: Problem + Copy, R: Wait>(
    rt: &R,
    alloc: Global,
    table: &Table<P>,
    seats: &mut Seats<P>,
    ends: Vec<P::Key>,
) -> Result<Vec<Number>, AllocError>
    requires table { seats.old.table ≡ table.now }
    requires ends { All (P.may_hold table.now.about) ends.items }
    ensures table { seats.new.table ≡ table.now }
    ensures more { GoOn seats.old.known seats.new.known }
    ensures named { IfOk result (λ v. NameOn seats.new.known ends.items v.items) }
{
    let mut numbers = Vec::with_capacity(alloc, ends.len())?;
    for key in ends {
        match table.number(rt, seats, key) {
            Ok(number) => numbers.push(number)?,
            Err(_) => return Err(AllocError),
        }
    }
    Ok(numbers)
}

/// Performs an item, and numbers its ends. `More` comes only where it has more parts than the
/// budget, `OutOfMemory` if memory is refused.
pub(crate) fn make_row<P: Task + Copy, R: Wait>(
    rt: &R,
    alloc: Global,
    task: P,
    table: &Table<P>,
    seats: &mut Seats<P>,
    item: u32,
    budget: u64,
) -> Result<Row<P::Rules>, Unperformed>
    requires table { seats.old.table ≡ table.now }
    requires about { table.now.about ≡ P.about task }
    requires item { item < P.count_of (P.about task) }
    requires ready { P.is_ready (P.about task) }
    requires budget { budget ≤ most_parts }
    ensures table { seats.new.table ≡ table.now }
    ensures more { GoOn seats.old.known seats.new.known }
    ensures row { IfOk result (λ r. IsRowOf P.gives P.count_of (P.about task) seats.new.known r) }
    ensures item { IfOk result (λ r. r.item ≡ item) }
    ensures within { IfOk result (λ r. r.parts ≤ budget) }
    ensures exceeds { IfErr result (λ e. e ≡ Unperformed.More → P.exceeds (P.about task) item
        budget) }
{
    let performed = match task.perform(alloc, item, budget) {
        Ok(performed) => performed,
        Err(error) => return Err(error),
    };
    let Performed { ends, rules, parts } = performed;
    let Ok(ends) = number_ends(rt, alloc, table, seats, ends) else {
        return Err(Unperformed::OutOfMemory);
    };
    Ok(Row {
        item,
        rules,
        ends,
        parts,
    })
}
