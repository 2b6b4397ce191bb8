//! Problems with items that end at keys.

ghost use Rattle.std.specs.Prelude.{◌≡◌, ◌+◌, ◌<◌, ◌^◌, ℕ};
ghost use Rattle.tib_hunt.specs.RoundModel.{IsItem};

use tib_table::Problem;

/// A problem with items, each with the keys that are its ends. It may hold each end of an item.
pub trait Itemized: Problem {
    // The first item, and how many there are.
    ghost first_of: { Self.Data → ℕ };

    ghost count_of: { Self.Data → ℕ };

    ghost is_end: { Self.Data → ℕ → Self.Key → Type 0 };

    /// The first item.
    fn first(&self) -> u32
        ensures { result ≡ first_of (Self.about self.now) };

    /// How many items there are.
    fn count(&self) -> u32
        ensures count { result ≡ count_of (Self.about self.now) }
        ensures few { first_of (Self.about self.now) + result < 2 ^ 32 };

    ghost holds_ends: { (d : Self.Data) (i : ℕ) (k : Self.Key) → IsItem (first_of d) (count_of d) i → is_end d i k → Self.may_hold d k };
}

impl<P: Itemized> Itemized for &P {
    ghost first_of = { P.first_of };

    ghost count_of = { P.count_of };

    ghost is_end = { P.is_end };

    fn first(&self) -> u32 {
        P::first(*self)
    }

    fn count(&self) -> u32 {
        P::count(*self)
    }

    ghost holds_ends = { P.holds_ends };
}
