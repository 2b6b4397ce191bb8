//! Workers side by side. Hands are split off one after the other, each for a thread of its own, and
//! what they held is merged.

ghost use Rattle.std.specs.Prelude.{◌≡◌, ◌≤◌, ◌<◌, ◌+◌, ◌-◌, ◌*◌, ◌^◌, IfOk};
ghost use Rattle.std.specs.Thread.{IsSend, IsSync};
ghost use Rattle.tib_workers.specs.Hands.{Holds, MaySplit};
ghost use Rattle.tib_lex.specs.Limits.{most_parts};

use crate::hand::{Hand, merge, split};
use crate::items::Items;
use crate::task::Task;
use crate::work::work;
use std::alloc::{AllocError, Global};
use std::sync::Wait;
use std::thread::{Threads, join};
use tib_table::Table;

// The work of one hand.
fn work_alone<P: Task + Copy, R: Wait>(
    rt: &R,
    alloc: Global,
    task: P,
    items: &Items,
    table: &Table<P>,
    hand: Hand<P>,
) -> Hand<P>
    requires hand { Holds P.gives P.count_of P.is_ready (P.about task) table.now items.now hand }
    requires share { hand.share ≤ most_parts }
    requires few { items.now.count < 2 ^ 32 }
    ensures hand { Holds P.gives P.count_of P.is_ready (P.about task) table.now items.now result }
    ensures share { result.share ≡ hand.share }
{
    let mut hand = hand;
    work(rt, alloc, task, items, table, &mut hand);
    hand
}

/// The work of a hand and of this number of others, each in a thread of its own where one can be
/// started. All have the same share. Err if memory is refused; all rows are then gone.
pub(crate) fn crew<P: Task + Copy + Send + Sync, R: Threads + Wait + Sync>(
    rt: &R,
    alloc: Global,
    task: P,
    items: &Items,
    table: &Table<P>,
    others: u32,
    hand: Hand<P>,
) -> Result<Hand<P>, AllocError>
where
    P::Key: Send + Sync,
    P::Rules: Send,
    requires hand { Holds P.gives P.count_of P.is_ready (P.about task) table.now items.now hand }
    requires others { MaySplit others hand.seat.shares hand.share items.now.count hand.going }
    ensures hand { IfOk result (λ h. Holds P.gives P.count_of P.is_ready (P.about task) table.now
        items.now h) }
    ensures share { IfOk result (λ h. h.share ≡ hand.share * (others + 1)) }
{
    if others == 0 {
        return Ok(work_alone(rt, alloc, task, items, table, hand));
    }
    let mut hand = hand;
    let theirs = split(alloc, task, items, table, others, &mut hand)?;
    let (one, rest) = join(
        rt,
        move || -> Hand<P>
            requires { Holds P.gives P.count_of P.is_ready (P.about task) table.now items.now theirs
                × (theirs.share ≤ most_parts) × (items.now.count < 2 ^ 32) }
            ensures { Holds P.gives P.count_of P.is_ready (P.about task) table.entry.now
                items.entry.now result
                × (result.share ≡ theirs.share) }
        { work_alone(rt, alloc, task, items, table, theirs) },
        move || -> Result<Hand<P>, AllocError>
            requires { IsSend P.row × IsSend P.Rules.row × IsSend P.Key.row × IsSync P.row
                × IsSync R.row
                × IsSync P.Key.row
                × Holds P.gives P.count_of P.is_ready (P.about task) table.now items.now hand
                × (0 < others)
                × MaySplit (others - 1) hand.seat.shares hand.share items.now.count hand.going }
            ensures { IfOk result (λ h. Holds P.gives P.count_of P.is_ready (P.about task)
                table.entry.now
                items.entry.now h × (h.share ≡ hand.share * ((others - 1) + 1))) }
        { crew(rt, alloc, task, items, table, others - 1, hand) },
    );
    let mut all = rest?;
    merge(task, items, table, &mut all, one)?;
    Ok(all)
}
