//! What a worker holds, how it is split off, and how it is merged.

ghost use Rattle.std.specs.Prelude.{◌≡◌, ◌≤◌, ◌<◌, ◌+◌, OnOk, IfOk, IsTrue};
ghost use Rattle.tib_workers.specs.Hands.{Holds};
ghost use Rattle.tib_lex.specs.Limits.{most_parts};

use crate::items::{Items, Seat};
use crate::row::Row;
use crate::task::Task;
use std::alloc::{AllocError, Global};
use tib_table::{Seats, Table};

/// What a worker holds: its number, its share of the room, the rows that it made, what is left of
/// its share, whether items may still be left to draw, and its seats at the counter and at the
/// table.
#[derive(Drop)]
pub(crate) struct Hand<P: Task + Copy> {
    pub worker: u32,
    pub share: u64,
    pub rows: Vec<Row<P::Rules>>,
    pub left: u64,
    pub going: bool,
    pub seat: Seat,
    pub seats: Seats<P>,
}

// Whether both hold.
fn are_both(one: bool, other: bool) -> bool
    ensures one { IsTrue result → IsTrue one }
    ensures other { IsTrue result → IsTrue other }
{
    one && other
}

/// Merges what two workers held. Err if memory is refused.
pub(crate) fn merge<P: Task + Copy>(
    task: P,
    items: &Items,
    table: &Table<P>,
    all: &mut Hand<P>,
    one: Hand<P>,
) -> Result<(), AllocError>
    requires all { Holds P.gives P.count_of P.is_ready (P.about task) table.now items.now all.old }
    requires one { Holds P.gives P.count_of P.is_ready (P.about task) table.now items.now one }
    requires few { all.old.share + one.share ≤ most_parts }
    ensures hand { OnOk result (Holds P.gives P.count_of P.is_ready (P.about task) table.now
        items.now all.new) }
    ensures share { OnOk result (all.new.share ≡ all.old.share + one.share) }
{
    let _task = task;
    let Hand {
        worker: _,
        share,
        rows: mut more,
        left,
        going,
        seat,
        seats,
    } = one;
    all.rows.append(&mut more)?;
    items.join(&mut all.seat, seat);
    table.join(&mut all.seats, seats);
    all.share += share;
    all.left += left;
    all.going = are_both(all.going, going);
    Ok(())
}

/// A hand for another worker, with an equal share, that holds no rows yet. Err if memory is
/// refused.
pub(crate) fn split<P: Task + Copy>(
    alloc: Global,
    task: P,
    items: &Items,
    table: &Table<P>,
    worker: u32,
    hand: &mut Hand<P>,
) -> Result<Hand<P>, AllocError>
    requires hand { Holds P.gives P.count_of P.is_ready (P.about task) table.now items.now
        hand.old }
    requires going { IsTrue hand.old.going × (1 < hand.old.seat.shares) }
    ensures hand { Holds P.gives P.count_of P.is_ready (P.about task) table.now items.now hand.new }
    ensures going { OnOk result (IsTrue hand.new.going × (hand.new.seat.shares + 1
        ≡ hand.old.seat.shares)) }
    ensures share { hand.new.share ≡ hand.old.share }
    ensures other { IfOk result (λ h. Holds P.gives P.count_of P.is_ready (P.about task) table.now
        items.now h) }
    ensures as_large { IfOk result (λ h. h.share ≡ hand.old.share) }
{
    let _task = task;
    let seats = table.split(alloc, &mut hand.seats)?;
    let seat = items.split(&mut hand.seat);
    Ok(Hand {
        worker,
        share: hand.share,
        rows: Vec::new(alloc),
        left: hand.share,
        going: true,
        seat,
        seats,
    })
}
