//! The claim counter, from which many threads draw the items of a round, each item once.

ghost use Rattle.std.specs.Prelude.{◌≡◌, ◌+◌, ◌-◌, ◌<◌, ◌^◌, ◌++◌, [], ◌∷◌, IfOk, IfSome, IfNone};
ghost use Rattle.tib_workers.specs.Claims.{HasDrawnOnce};

use crate::claim::{Claim, DrawNumber, EachOnce, JoinSeats, SeeDrawn, SplitSeat};
use atomic_table::Table;
use std::alloc::{AllocError, Global};
use std::marker::Model;

/// The claim counter: the items of a round, as the numbers below a count, each of which is drawn
/// once.
#[derive(Drop)]
pub struct Items {
    table: Table<u8, Claim, u64, EachOnce, Global>,
    count: u64,
}

impl Model for Items {
    ghost use Rattle.std.specs.Prelude.{◌≡◌};
    ghost use Rattle.tib_workers.specs.Claims.{Counter};

    ghost Value = { Counter };

    ghost view = { λ i. record { table = i.table.shared.table_id; count = i.count } };

    ghost invariant = { λ i. (i.table.shared.table_id.words ≡ 1) × (i.table.shared.key ≡ i.count) };
}

/// A seat at the counter, from which one thread draws. It knows its counter, its shares, how often
/// it drew None, and the numbers that it drew, in order.
#[derive(Drop)]
pub struct Seat {
    seat: atomic_table::Seat<u8, Claim>,
}

impl Model for Seat {
    ghost use Rattle.std.specs.Prelude.{◌≡◌, ◌<◌, []};
    ghost use Rattle.tib_workers.specs.Claims.{Claimed, claimed};

    ghost Value = { Claimed };

    ghost view = { λ s. claimed s.seat.table_id s.seat.me.0 };

    ghost invariant = { λ s. (0 < s.seat.me.0.shares) × (s.seat.me.1 ≡ []) };
}

impl Items {
    /// A counter of this number of items, fewer than 2^32, and its first seat, which has all 2^31
    /// shares. Err if memory is refused.
    pub fn open(alloc: Global, count: u64) -> Result<(Items, Seat), AllocError>
        requires { count < 2 ^ 32 }
        ensures count { IfOk result (λ r. r.0.count ≡ count) }
        ensures seat { IfOk result (λ r. r.1 ≡ record {
          counter = r.0;
          shares = 2 ^ 31;
          nones = 0;
          drawn = [];
        }) }
    {
        let (table, seat) = Table::of_words(alloc, &[0], &count)?;
        Ok((Items { table, count }, Seat { seat }))
    }

    /// How many items there are, drawn or not.
    pub fn count(&self) -> u64
        ensures { result ≡ self.now.count }
    {
        self.count
    }

    /// A second seat, which gets one share of this one. It takes no memory and never waits.
    pub fn split(&self, seat: &mut Seat) -> Seat
        requires counter { seat.old.counter ≡ self.now }
        requires more { 1 < seat.old.shares }
        requires going { seat.old.nones ≡ 0 }
        ensures kept { seat.new ≡ record seat.old { shares = seat.old.shares - 1 } }
        ensures made { result ≡ record { counter = self.now; shares = 1; nones = 0; drawn = [] } }
    {
        Seat {
            seat: self.table.shared.split_seat::<SplitSeat>(&mut seat.seat),
        }
    }

    /// Takes in another seat: this one then has what both had, and no number is in both lists. It
    /// takes no memory and never waits.
    pub fn join(&self, seat: &mut Seat, other: Seat)
        requires counter { seat.old.counter ≡ self.now }
        requires other_counter { other.counter ≡ self.now }
        ensures both { seat.new ≡ record {
          counter = self.now;
          shares = seat.old.shares + other.shares;
          nones = seat.old.nones + other.nones;
          drawn = seat.old.drawn ++ other.drawn;
        } }
        ensures once { HasDrawnOnce seat.new }
    {
        let Seat { seat: other } = other;
        let shared = &self.table.shared;
        shared.join_seat::<JoinSeats>(&mut seat.seat, other);
        shared.load::<SeeDrawn>(&mut seat.seat, 0);
    }

    /// The next item, which no seat draws again, or None if all are drawn. It takes no memory and
    /// never waits.
    pub fn draw(&self, seat: &mut Seat) -> Option<u64>
        requires counter { seat.old.counter ≡ self.now }
        requires going { seat.old.nones ≡ 0 }
        ensures below { IfSome result (λ n. n < self.now.count) }
        ensures some { IfSome result (λ n. seat.new ≡ record seat.old
            { drawn = seat.old.drawn ++ n ∷ [] }) }
        ensures none { IfNone result (seat.new ≡ record seat.old { nones = 1 }) }
        ensures once { HasDrawnOnce seat.new }
    {
        let shared = &self.table.shared;
        let found = shared.fetch_add::<DrawNumber>(&mut seat.seat, 0, 1);
        if found < self.count {
            Some(found)
        } else {
            None
        }
    }
}
