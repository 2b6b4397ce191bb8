//! All items of a task, performed by workers and then by the caller: their rows in order, and the
//! shelves with their ends.

ghost use Rattle.std.specs.Prelude.{◌≡◌, ◌≤◌, ◌<◌, ◌+◌, ◌-◌, ◌*◌, ◌^◌, ◌++◌, ◌⊎◌, ℕ, List, [], ◌∷◌, length, slice_set, slice_index_or, None, Some, Option, IfOk, IfErr, IfSome, OnOk, IsTrue, replicate};
ghost use Rattle.std.specs.List.{All};
ghost use Rattle.tib_table.specs.Known.{GoOn, AreShelves};
ghost use Rattle.tib_workers.specs.Hands.{Holds, MaySplit};
ghost use Rattle.tib_workers.specs.Rows.{IsRowOf, AreRowsFrom, AreSlots, HoldWhatRowsHold, IsPutIn, IsTaken, parts_in, parts_of_slots, LeaveTooLittle};
ghost use Rattle.tib_lex.specs.Limits.{most_parts};

use crate::crew::crew;
use crate::hand::Hand;
use crate::items::Items;
use crate::row::{Row, make_row};
use crate::task::{Task, Unperformed};
use std::alloc::{AllocError, Global};
use std::sync::Wait;
use std::thread::Threads;
use tib_table::{Seats, Shelves, Table};

/// All items: their rows, in order, and the shelves on which their ends have numbers.
#[derive(Drop)]
pub struct Gathered<P: Task + Copy> {
    /// The rows, in the order of the items.
    pub rows: Vec<Row<P::Rules>>,
    /// The shelves with the keys at which the items end.
    pub shelves: Shelves<P>,
}

// Puts a row at its item's place if that is empty, and says whether it was.
fn put_row<T: Drop>(slots: &mut Vec<Option<Row<T>>>, row: Row<T>) -> bool
    requires { row.item < length slots.old.items }
    ensures { IsPutIn row slots.old.items slots.new.items result }
{
    let at = row.item as usize;
    if slots[at].is_none() {
        slots[at] = Some(row);
        return true;
    }
    false
}

// One place for each item. No place has a row yet.
fn open_slots<T: Drop>(alloc: Global, count: u32) -> Result<Vec<Option<Row<T>>>, AllocError>
    ensures { IfOk result (λ v. v.items ≡ replicate count None) }
{
    let mut slots = Vec::with_capacity(alloc, count as usize)?;
    for _ in 0..count {
        slots.push(None)?;
    }
    Ok(slots)
}

// Each row at its item's place, and the parts of these rows.
fn put_rows<P: Task + Copy>(
    alloc: Global,
    task: P,
    count: u32,
    rows: Vec<Row<P::Rules>>,
) -> Result<(Vec<Option<Row<P::Rules>>>, u64), AllocError>
    requires bound { All (λ row. row.item < count) rows.items }
    requires few { parts_in rows.items ≤ most_parts }
    ensures slots { IfOk result (λ r. HoldWhatRowsHold P.gives P.count_of (P.about task) rows.items
        r.0.items) }
    ensures len { IfOk result (λ r. length r.0.items ≡ count) }
    ensures parts { IfOk result (λ r. r.1 ≡ parts_of_slots r.0.items) }
    ensures within { IfOk result (λ r. r.1 ≤ parts_in rows.items) }
{
    let _task = task;
    let mut slots = open_slots(alloc, count)?;
    let mut rows = rows;
    let mut used = 0;
    while let Some(row) = rows.pop() {
        let parts = row.parts;
        if put_row(&mut slots, row) {
            used += parts;
        }
    }
    Ok((slots, used))
}

// An item, and the row that it has.
#[derive(Drop)]
struct Slot<R> {
    item: u32,
    row: Option<Row<R>>,
}

// The row of a slot, or a row that is made now.
fn settle_slot<P: Task + Copy, R: Wait>(
    rt: &R,
    alloc: Global,
    task: P,
    table: &Table<P>,
    seats: &mut Seats<P>,
    slot: Slot<P::Rules>,
    left: &mut u64,
) -> Result<Row<P::Rules>, Unperformed>
    requires table { seats.old.table ≡ table.now }
    requires about { table.now.about ≡ P.about task }
    requires item { slot.item < P.count_of (P.about task) }
    requires ready { P.is_ready (P.about task) }
    requires left { left.old ≤ most_parts }
    ensures table { seats.new.table ≡ table.now }
    ensures more { GoOn seats.old.known seats.new.known }
    ensures taken { IfOk result (λ r. IsTaken P.gives P.count_of (P.about task) seats.new.known
        slot.row slot.item r left.old left.new) }
    ensures exceeds { IfErr result (λ e. e ≡ Unperformed.More → (slot.row ≡ None)
        × P.exceeds (P.about task) slot.item left.old) }
{
    let Slot { item, row } = slot;
    if let Some(row) = row {
        return Ok(row);
    }
    let row = match make_row(rt, alloc, task, table, seats, item, *left) {
        Ok(row) => row,
        Err(error) => return Err(error),
    };
    *left -= row.parts;
    Ok(row)
}

// The rows of all items, in order. An item without a row is performed now, within what the rows
// leave of the room.
fn settle_slots<P: Task + Copy, R: Wait>(
    rt: &R,
    alloc: Global,
    task: P,
    table: &Table<P>,
    seats: &mut Seats<P>,
    slots: Vec<Option<Row<P::Rules>>>,
    left: u64,
) -> Result<Vec<Row<P::Rules>>, Unperformed>
    requires table { seats.old.table ≡ table.now }
    requires ready { P.is_ready (P.about task) }
    requires about { table.now.about ≡ P.about task }
    requires slots { AreSlots P.gives P.count_of (P.about task) seats.old.known 0 slots.items }
    requires count { (length slots.items ≡ P.count_of (P.about task))
        × (length slots.items < 2 ^ 32) }
    requires room { parts_of_slots slots.items + left ≤ most_parts }
    ensures table { seats.new.table ≡ table.now }
    ensures more { OnOk result (GoOn seats.old.known seats.new.known) }
    ensures rows { IfOk result (λ r. AreRowsFrom P.gives P.count_of (P.about task) seats.new.known 0
        r.items) }
    ensures len { IfOk result (λ r. length r.items ≡ P.count_of (P.about task)) }
    ensures within { IfOk result (λ r. parts_in r.items ≤ parts_of_slots slots.items + left) }
    ensures exceeds { IfErr result (λ e. e ≡ Unperformed.More → LeaveTooLittle P.gives P.count_of
        P.exceeds (P.about task) (parts_of_slots slots.items + left)) }
{
    let mut left = left;
    let mut item = 0u32;
    let Ok(mut rows) = Vec::with_capacity(alloc, slots.len()) else {
        return Err(Unperformed::OutOfMemory);
    };
    for row in slots {
        let slot = Slot { item, row };
        let row = match settle_slot(rt, alloc, task, table, seats, slot, &mut left) {
            Ok(row) => row,
            Err(error) => return Err(error),
        };
        let Ok(()) = rows.push(row) else {
            return Err(Unperformed::OutOfMemory);
        };
        item += 1;
    }
    Ok(rows)
}

// As many of the workers as there are items, but at least one.
fn at_work(workers: u32, count: u32) -> u32
    requires { 1 ≤ workers }
    ensures some { 1 ≤ result }
    ensures few { result ≤ workers }
{
    if workers <= count {
        return workers;
    }
    if count == 0 { 1 } else { count }
}

// The rows that workers made, each within its share, the first one with this hand. Items that no
// worker drew are drawn.
fn take_hand<P: Task + Copy + Send + Sync, R: Threads + Wait + Sync>(
    rt: &R,
    alloc: Global,
    task: P,
    workers: u32,
    items: &Items,
    table: &Table<P>,
    hand: Hand<P>,
) -> Result<(Vec<Row<P::Rules>>, Seats<P>), AllocError>
where
    P::Key: Send + Sync,
    P::Rules: Send,
    requires hand { Holds P.gives P.count_of P.is_ready (P.about task) table.now items.now hand }
    requires some { 1 ≤ workers }
    requires others { MaySplit (workers - 1) hand.seat.shares hand.share items.now.count
        hand.going }
    ensures table { IfOk result (λ r. r.1.table ≡ table.now) }
    ensures rows { IfOk result (λ r. All (IsRowOf P.gives P.count_of (P.about task) r.1.known)
        r.0.items) }
    ensures within { IfOk result (λ r. parts_in r.0.items ≤ hand.share * workers) }
{
    let hand = crew(rt, alloc, task, items, table, workers - 1, hand)?;
    let Hand {
        worker: _,
        share: _,
        rows,
        left: _,
        going: _,
        seat: _,
        seats,
    } = hand;
    Ok((rows, seats))
}

/// Performs all items by this number of workers, 1 to 16. No more workers begin than there are
/// items. They share the room equally, at most 20,000,000 parts. An item that has more parts than
/// is left of a worker's share, or for which a worker is refused memory, is performed by the caller
/// after the workers, within what the rows leave of the room. `More` comes only where an item has
/// more parts than the rows of other items leave of the room; `OutOfMemory` only if memory is
/// refused to the caller. After an error no row is left. It may wait forever, while a turn of a
/// shelf is held. Cost: each item is performed at most twice; each of its ends takes one turn of
/// one shelf.
pub fn perform_all<P: Task + Copy + Send + Sync, R: Threads + Wait + Sync>(
    rt: &R,
    alloc: Global,
    task: P,
    workers: u32,
    room: u64,
) -> Result<Gathered<P>, Unperformed>
where
    P::Key: Send + Sync,
    P::Rules: Send,
    requires ready { P.is_ready (P.about task) }
    requires workers { (1 ≤ workers) × (workers ≤ 16) }
    requires room { room ≤ most_parts }
    ensures rows { IfOk result (λ r. AreRowsFrom P.gives P.count_of (P.about task) r.shelves 0
        r.rows.items) }
    ensures len { IfOk result (λ r. length r.rows.items ≡ P.count_of (P.about task)) }
    ensures shelves { IfOk result (λ r. AreShelves (P.may_hold (P.about task)) P.Key.shelf_of
        r.shelves) }
    ensures within { IfOk result (λ r. parts_in r.rows.items ≤ room) }
    ensures more { IfErr result (λ e. e ≡ Unperformed.More → LeaveTooLittle P.gives P.count_of
        P.exceeds (P.about task) room) }
{
    let count = task.count();
    let Ok((items, seat)) = Items::open(alloc, count as u64) else {
        return Err(Unperformed::OutOfMemory);
    };
    let Ok((table, seats)) = Table::open(alloc, task) else {
        return Err(Unperformed::OutOfMemory);
    };
    let workers = at_work(workers, count);
    let share = room / workers as u64;
    let hand = Hand {
        worker: 0,
        share,
        rows: Vec::new(alloc),
        left: share,
        going: true,
        seat,
        seats,
    };
    let Ok((rows, seats)) = take_hand(rt, alloc, task, workers, &items, &table, hand) else {
        return Err(Unperformed::OutOfMemory);
    };
    let Ok((slots, used)) = put_rows(alloc, task, count, rows) else {
        return Err(Unperformed::OutOfMemory);
    };
    let mut seats = seats;
    let rows = match settle_slots(rt, alloc, task, &table, &mut seats, slots, room - used) {
        Ok(rows) => rows,
        Err(error) => return Err(error),
    };
    let shelves = table.close(rt, seats);
    Ok(Gathered { rows, shelves })
}
