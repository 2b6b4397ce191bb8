//! What a seat of the claim counter knows, and what each of its steps does.

use atomic_table::{Join, Play, Split, TableRule};
use std::collections::LinkedList;

/// What a seat knows: how many items there are, how many shares of the counter it has, how often it
/// drew None, and the numbers that it drew. No value of it is made.
pub struct Claim {
    pub count: u64,
    pub shares: u64,
    pub nones: u64,
    pub drawn: LinkedList<u64>,
}

/// What holds between any two steps: each number below the word, and below the count, was drawn
/// once.
pub struct EachOnce;

impl TableRule<u8, Claim, u64> for EachOnce {
    ghost use Rattle.std.specs.Prelude.{[], ◌^◌};
    ghost use Rattle.tib_workers.specs.ClaimRule.{EachIsDrawnOnce, claim};

    ghost holds = { EachIsDrawnOnce };

    ghost first = { λ count. claim count (2 ^ 31) 0 [] };
}

/// A step that draws the number that it finds.
pub struct DrawNumber;

impl Play<u8, Claim> for DrawNumber {
    ghost use Rattle.tib_workers.specs.ClaimRule.{Drew};

    ghost then = { Drew };
}

/// A step that changes nothing, from which a seat learns that it has no number twice.
pub struct SeeDrawn;

impl Play<u8, Claim> for SeeDrawn {
    ghost use Rattle.tib_workers.specs.ClaimRule.{Looked};

    ghost then = { Looked };
}

/// A second seat, with one share of the first.
pub struct SplitSeat;

impl Split<Claim> for SplitSeat {
    ghost use Rattle.std.specs.Prelude.{[], ◌-◌};
    ghost use Rattle.tib_workers.specs.ClaimRule.{claim};

    ghost left = { λ v. claim v.count (v.shares - 1) v.nones v.drawn };

    ghost right = { λ v. claim v.count 1 0 [] };
}

/// A seat with what two had.
pub struct JoinSeats;

impl Join<Claim> for JoinSeats {
    ghost use Rattle.std.specs.Prelude.{[], ◌+◌, ◌++◌};
    ghost use Rattle.tib_workers.specs.ClaimRule.{claim};

    ghost both = { λ v w. claim v.count (v.shares + w.shares) (v.nones + w.nones) (v.drawn ++ w.drawn) };

    ghost spent = { claim 0 0 0 [] };
}
