//! The problem of one round of a hunt.

ghost use Rattle.std.specs.Prelude.{◌≤◌, ◌<◌, ◌^◌, length};

use crate::itemized::Itemized;
use std::collections::LinkedList;
use tib_expand::Expand;
use tib_table::Problem;

/// The problem of one round. Its items are the positions of the order from the first one on, and it
/// may hold the ends of their edges.
#[derive(Drop)]
pub struct RoundOf<'a, E: Expand> {
    /// The operation.
    pub problem: &'a E,
    /// The order so far.
    pub order: &'a [E::Key],
    /// The first position that is not expanded.
    pub first: u32,
    pub ghost within: { first ≤ length order.now },
    pub ghost few: { length order.now < 2 ^ 32 },
}

impl<'a, E: Expand> Problem for RoundOf<'a, E> {
    ghost use Rattle.std.specs.Prelude.{ℕ, ◌-◌, length};
    ghost use Rattle.tib_expand.specs.Expanded.{IsEndAt};
    ghost use Rattle.tib_hunt.specs.RoundModel.{IsItem};

    type Key = E::Key;

    type Data = (E, LinkedList<E::Key>, u64);

    ghost about = { λ r. (r.problem.now, r.order.now, r.first) };

    ghost may_hold = { λ d k. (i : ℕ) × IsItem d.2 (length d.1 - d.2) i × IsEndAt (E.hunted d.0) d.1 i k };
}

impl<'a, E: Expand> Itemized for RoundOf<'a, E> {
    ghost use Rattle.std.specs.Prelude.{◌-◌, length};
    ghost use Rattle.tib_expand.specs.Expanded.{IsEndAt};

    ghost first_of = { λ d. d.2 };

    ghost count_of = { λ d. length d.1 - d.2 };

    ghost is_end = { λ d i k. IsEndAt (E.hunted d.0) d.1 i k };

    fn first(&self) -> u32 {
        self.first
    }

    fn count(&self) -> u32 {
        self.order.len() as u32 - self.first
    }

    ghost holds_ends = { λ d i k item end. (i, item, end) };
}
