// Keys, and the shelf on which a key belongs.
ghost use Rattle.std.specs.Prelude.{◌≡◌, ◌<◌, ℕ, true};

use std::hash::Hash;

/// A key of a table, which names its shelf. Two keys that compare equal are one value.
pub trait TableKey: Ord + Hash {
    ghost shelf_of: { Self → ℕ };

    ghost entries_of: { Self → ℕ };

    /// The shelf on which the key is held, below 16.
    fn shelf(&self) -> u32
        ensures named { result ≡ shelf_of self.now }
        ensures below { result < 16 };

    /// How many entries the key has. Its parts are one more.
    fn entries(&self) -> u64
        ensures { result ≡ entries_of self.now };

    ghost low: { (x : Self) → shelf_of x < 16 };

    ghost same: { (x y : Self) → Self.eq x y ≡ true → x ≡ y };
}
