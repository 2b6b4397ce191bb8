// Drawing a ticket, and waiting until it is served.
ghost use Rattle.std.specs.Prelude.{◌≡◌, [], ◌∷◌, None};
ghost use Rattle.tib_turn.specs.Prefixes.{IsPrefix};
ghost use Rattle.tib_turn.specs.Turns.{IsInside};
ghost use Rattle.tib_turn.specs.declared.view.Stage as Stage;

use crate::grows::Grows;
use crate::rule::{DrawTicket, ReadServed, TakesTurns};
use crate::view::{Stage, View};
use atomic_table::{Seat, Shared};
use std::hint;
use std::snapshot::Snapshot;
use std::sync::Wait;

/// The words and the slot of a lock.
pub type Steps<V> = Shared<Option<V>, View<<V as Grows>::Entry>, Snapshot<V>, TakesTurns<V>>;

/// A pass's seat at them.
pub type Place<V> = Seat<Option<V>, View<<V as Grows>::Entry>>;

/// Draws a ticket. If all 2^64 - 1 tickets are drawn, it waits forever.
pub fn take_ticket<V: Grows, R: Wait>(rt: &R, steps: &Steps<V>, place: &mut Place<V>) -> u64
    requires fits { (place.old.table_id ≡ steps.now.table_id) × (steps.now.table_id.words ≡ 2) }
    requires out { (place.old.me.0.stage ≡ Stage.Idle) × (place.old.me.1 ≡ []) }
    ensures fits { place.new.table_id ≡ place.old.table_id }
    ensures waits { place.new.me ≡ (record place.old.me.0 { stage = Stage.Waiting result }, []) }
{
    let mut next = steps.peek(0);
    for _ in rt.forever() {
        if next < u64::MAX {
            let found = steps.compare_exchange::<DrawTicket<V>>(place, 0, next, next + 1);
            if found == next {
                return found;
            }
        }
        next = steps.peek(0);
    }
    unreachable!()
}

/// How often a pass looks for its turn before it sleeps: turns are short, and sleeping and waking
/// up takes as long as many of them.
const LOOKS: u32 = 1000;

// Waits until the ticket is served, for at most `LOOKS` looks.
fn look_for_turn<V: Grows>(steps: &Steps<V>, ticket: u64)
    requires { steps.now.table_id.words ≡ 2 }
{
    for _ in 0..LOOKS {
        if steps.peek(1) == ticket {
            return;
        }
        hint::spin_loop();
    }
}

/// Waits until the ticket is served, and takes the value out of the slot. It sleeps only if its
/// turn does not come soon.
pub fn wait_for_turn<V: Grows, R: Wait>(
    rt: &R,
    steps: &Steps<V>,
    place: &mut Place<V>,
    ticket: u64,
) -> V
    requires fits { (place.old.table_id ≡ steps.now.table_id) × (steps.now.table_id.words ≡ 2) }
    requires waits { (place.old.me.0.stage ≡ Stage.Waiting ticket) × (place.old.me.1 ≡ []) }
    ensures fits { place.new.table_id ≡ place.old.table_id }
    ensures seen { place.new.me.0.seen ≡ V.log result }
    ensures prefix { IsPrefix place.old.me.0.seen (V.log result) }
    ensures inside { IsInside place.new.me.0.stage × (place.new.me.1 ≡ (0, None) ∷ []) }
{
    for _ in rt.forever() {
        look_for_turn(steps, ticket);
        let served = steps.load::<ReadServed<V>>(place, 1);
        if served == ticket {
            return steps.exchange(place, 0, None).unwrap();
        }
        steps.park(rt, 1, (served % (1 << 32)) as u32);
    }
    unreachable!()
}
