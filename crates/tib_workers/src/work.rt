//! The work of one worker: it draws items and makes their rows until all are drawn.

ghost use Rattle.std.specs.Prelude.{◌≡◌, ◌≤◌, ◌<◌, ◌^◌, IsTrue};
ghost use Rattle.tib_workers.specs.Hands.{Holds};
ghost use Rattle.tib_lex.specs.Limits.{most_parts};

use crate::hand::Hand;
use crate::items::Items;
use crate::row::make_row;
use crate::task::Task;
use std::alloc::Global;
use std::sync::Wait;
use tib_table::Table;

// Draws an item and performs it, within what is left of the share. The item stays without a row if
// it has more parts, or if memory is refused for its row.
fn work_once<P: Task + Copy, R: Wait>(
    rt: &R,
    alloc: Global,
    task: P,
    items: &Items,
    table: &Table<P>,
    hand: &mut Hand<P>,
)
    requires hand { Holds P.gives P.count_of P.is_ready (P.about task) table.now items.now
        hand.old }
    requires going { IsTrue hand.old.going }
    requires share { hand.old.share ≤ most_parts }
    requires few { items.now.count < 2 ^ 32 }
    ensures hand { Holds P.gives P.count_of P.is_ready (P.about task) table.now items.now hand.new }
    ensures share { hand.new.share ≡ hand.old.share }
{
    let Some(item) = items.draw(&mut hand.seat) else {
        hand.going = false;
        return;
    };
    let item = item as u32;
    task.pass(hand.worker, item);
    let Ok(row) = make_row(rt, alloc, task, table, &mut hand.seats, item, hand.left) else {
        return;
    };
    let parts = row.parts;
    let Ok(()) = hand.rows.push(row) else {
        return;
    };
    hand.left -= parts;
}

/// One worker: it draws and performs items until all are drawn.
pub(crate) fn work<P: Task + Copy, R: Wait>(
    rt: &R,
    alloc: Global,
    task: P,
    items: &Items,
    table: &Table<P>,
    hand: &mut Hand<P>,
)
    requires hand { Holds P.gives P.count_of P.is_ready (P.about task) table.now items.now
        hand.old }
    requires share { hand.old.share ≤ most_parts }
    requires few { items.now.count < 2 ^ 32 }
    ensures hand { Holds P.gives P.count_of P.is_ready (P.about task) table.now items.now hand.new }
    ensures share { hand.new.share ≡ hand.old.share }
{
    for _ in 0..items.count() {
        if !hand.going {
            return;
        }
        work_once(rt, alloc, task, items, table, hand);
    }
}
