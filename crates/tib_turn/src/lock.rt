// The turn lock: a value that one holder at a time may change, in the order of the tickets.
ghost use Rattle.std.specs.Prelude.{◌≡◌, IfOk, IfErr, true, false};
ghost use Rattle.tib_turn.specs.Prefixes.{IsPrefix, longer};

use crate::grows::Grows;
use crate::rule::{EndTurn, JoinPasses, SeeLonger, SplitPass, TakesTurns};
use crate::ticket::{take_ticket, wait_for_turn};
use crate::view::View;
use atomic_table::{Refused, Seat, Table};
use std::alloc::Global;
use std::marker::{Model, PhantomData};
use std::snapshot::Snapshot;
use std::sync::Wait;

/// A value that is handed to one pass at a time, in the order in which they drew their tickets
/// (Reed and Kanodia 1979).
#[derive(Drop)]
pub struct TurnLock<V: Grows> {
    table: Table<Option<V>, View<V::Entry>, Snapshot<V>, TakesTurns<V>, Global>,
}

impl<V: Grows> Model for TurnLock<V> {
    ghost use Rattle.std.specs.Prelude.{◌≡◌};
    ghost use Rattle.atomic_table.specs.Seated.{TableId, table_id_coded};

    ghost Value = { TableId };

    ghost coded = { table_id_coded };

    ghost view = { λ l. l.table.shared.table_id };

    ghost invariant = { λ l. (l.table.shared.table_id.words ≡ 2) × (l.table.shared.table_id.slots ≡ 1) };
}

/// What enters a lock. It knows its lock, a list that it has seen, which is a prefix of the log,
/// and whether it is in a turn.
#[derive(Drop)]
pub struct Pass<V: Grows> {
    seat: Seat<Option<V>, View<V::Entry>>,
}

impl<V: Grows> Model for Pass<V> {
    ghost use Rattle.tib_turn.specs.Turns.{Stands};
    ghost use Rattle.tib_turn.specs.Seen.{Seen, pass_view};

    ghost Value = { Seen V.Entry };

    ghost view = { λ p. pass_view p.seat.table_id p.seat.me.0 };

    ghost invariant = { λ p. Stands V.log p.seat.me.0.stage p.seat.me.1 };
}

/// The value during a turn. It is not `Drop`: only `TurnLock::leave` ends it.
pub struct Turn<'a, V> {
    /// The value itself. Its log may be made longer in the turn.
    pub value: V,
    lock: PhantomData<&'a V>,
}

impl<V: Grows> TurnLock<V> {
    /// A lock over the value, and its first pass, which has seen the value's log. If memory is
    /// refused, the value comes back as it was.
    pub fn open(alloc: Global, value: V) -> Result<(TurnLock<V>, Pass<V>), V>
        ensures opened { IfOk result (λ r. r.1 ≡ record {
          lock = r.0;
          seen = V.log value;
          inside = false;
        }) }
        ensures refused { IfErr result (λ v. v ≡ value) }
    {
        let Ok(mut slots) = Vec::with_capacity(alloc, 1) else {
            return Err(value);
        };
        let about = Snapshot::of(&value);
        slots.push_reserved(Some(value));
        match Table::new(alloc, &[0, 0], slots, &about) {
            Ok((table, seat)) => Ok((TurnLock { table }, Pass { seat })),
            Err(Refused { mut slots }) => {
                let value = slots.pop().unwrap().unwrap();
                slots.destroy_empty();
                Err(value)
            }
        }
    }

    /// Waits for the pass's turn, and hands out the value. Its log extends what the pass had seen,
    /// and the pass has now seen all of it. It takes no memory. It may wait forever: while another
    /// turn is held, or once 2^64 - 1 tickets were drawn.
    pub fn enter<R: Wait>(&self, rt: &R, pass: &mut Pass<V>) -> Turn<'_, V>
        requires lock { pass.old.lock ≡ self.now }
        requires outside { pass.old.inside ≡ false }
        ensures prefix { IsPrefix pass.old.seen (V.log result.value) }
        ensures inside { pass.new ≡ record {
          lock = self.now;
          seen = V.log result.value;
          inside = true;
        } }
    {
        let ticket = take_ticket(rt, &self.table.shared, &mut pass.seat);
        let value = wait_for_turn(rt, &self.table.shared, &mut pass.seat, ticket);
        Turn {
            value,
            lock: PhantomData,
        }
    }

    /// Ends the turn, and serves the next ticket. The value's log must extend what it was at entry,
    /// and the pass has then seen all of it. It takes no memory and never waits.
    pub fn leave(&self, turn: Turn<'_, V>, pass: &mut Pass<V>)
        requires lock { pass.old.lock ≡ self.now }
        requires inside { pass.old.inside ≡ true }
        requires grows { IsPrefix pass.old.seen (V.log turn.value) }
        ensures outside { pass.new ≡ record {
          lock = self.now;
          seen = V.log turn.entry.value;
          inside = false;
        } }
    {
        let Turn { value, lock: _ } = turn;
        let shared = &self.table.shared;
        let empty = shared.exchange(&mut pass.seat, 0, Some(value));
        let None = empty else { unreachable!() };
        let ticket = shared.fetch_add::<EndTurn<V>>(&mut pass.seat, 1, 1);
        // A pass that draws its ticket after this look finds the turn ended before it can sleep.
        if shared.peek(0) != ticket.wrapping_add(1) {
            shared.wake_all(1);
        }
    }

    /// A second pass, which has seen the same list. It takes no memory and never waits.
    pub fn split(&self, pass: &mut Pass<V>) -> Pass<V>
        requires lock { pass.old.lock ≡ self.now }
        requires outside { pass.old.inside ≡ false }
        ensures made { result ≡ pass.old }
        ensures kept { pass.new ≡ pass.old }
    {
        Pass {
            seat: self.table.shared.split_seat::<SplitPass>(&mut pass.seat),
        }
    }

    /// Takes in another pass, and leaves this one with the longer of the two lists, of which each
    /// is a prefix. It takes no memory and never waits.
    pub fn join(&self, pass: &mut Pass<V>, other: Pass<V>)
        requires lock { pass.old.lock ≡ self.now }
        requires other_lock { other.lock ≡ self.now }
        requires outside { (pass.old.inside ≡ false) × (other.inside ≡ false) }
        ensures longer { pass.new ≡ record {
          lock = self.now;
          seen = longer pass.old.seen other.seen;
          inside = false;
        } }
        ensures this { IsPrefix pass.old.seen pass.new.seen }
        ensures that { IsPrefix other.seen pass.new.seen }
    {
        let Pass { seat: other } = other;
        let shared = &self.table.shared;
        shared.join_seat::<JoinPasses>(&mut pass.seat, other);
        shared.load::<SeeLonger<V>>(&mut pass.seat, 0);
    }
}

impl<V: Grows + Drop> TurnLock<V> {
    /// Waits for a last turn, as `enter` does, and returns the value for good. Its log extends what
    /// the pass has seen. It takes no memory.
    pub fn close<R: Wait>(self, rt: &R, mut pass: Pass<V>) -> V
        requires lock { pass.lock ≡ self }
        requires outside { pass.inside ≡ false }
        ensures { IsPrefix pass.seen (V.log result) }
    {
        let Turn { value, lock: _ } = self.enter(rt, &mut pass);
        let Pass { seat } = pass;
        drop(seat);
        let TurnLock { table } = self;
        drop(table);
        value
    }
}
