//! The keys of parsing: a state of the transducer, two places of the string and a restriction.

ghost use Rattle.std.specs.Prelude.{◌≡◌};

use std::marker::Model;
use tib_expand::TableKey;

/// A state of the transducer, the places where its part of the string begins and ends, and a
/// restriction: 0, or the number of the one label that may be at the root.
#[derive(Clone, Copy, Debug, Drop, PartialEq, Eq, PartialOrd, Ord, Hash)]
pub struct Key {
    state: u32,
    from: u32,
    to: u32,
    restriction: u32,
}

impl Model for Key {
    ghost use Rattle.std.specs.Prelude.{ℕ};
    ghost use Rattle.tib_image.specs.ParseKeys.{key_code};

    ghost Value = { ℕ × ℕ × ℕ × ℕ };

    ghost coded = { key_code };

    ghost view = { λ k. (k.state, k.from, k.to, k.restriction) };

    ghost inverse = { λ k. record { state = k.0; from = k.1; to = k.2; restriction = k.3 } };
}

impl Key {
    /// The key of a state, two places and a restriction.
    pub fn new(state: u32, from: u32, to: u32, restriction: u32) -> Key
        ensures { result ≡ (state, from, to, restriction) }
    {
        Key {
            state,
            from,
            to,
            restriction,
        }
    }

    /// The state of the transducer.
    pub fn state(self) -> u32
        ensures { result ≡ self.0 }
    {
        self.state
    }

    /// The place where its part of the string begins, from 0.
    pub fn from(self) -> u32
        ensures { result ≡ self.1 }
    {
        self.from
    }

    /// The place where its part ends.
    pub fn to(self) -> u32
        ensures { result ≡ self.2 }
    {
        self.to
    }

    /// The restriction.
    pub fn restriction(self) -> u32
        ensures { result ≡ self.3 }
    {
        self.restriction
    }
}

impl TableKey for Key {
    ghost use Rattle.std.specs.Prelude.{◌%◌, ◌+◌, ◌*◌};
    ghost use Rattle.std.proofs.Common.{rules, arith, mod-lt};
    ghost use Rattle.tib_image.specs.ParseOperation.{key_entries};

    ghost shelf_of = { λ k. (k.0 % 16 + 3 * (k.1 % 16) + 5 * (k.2 % 16) + 7 * (k.3 % 16)) % 16 };

    ghost entries_of = { key_entries };

    fn shelf(&self) -> u32 {
        (self.state % 16 + 3 * (self.from % 16) + 5 * (self.to % 16) + 7 * (self.restriction % 16))
            % 16
    }

    fn entries(&self) -> u64 {
        if self.restriction == 0 { 3 } else { 4 }
    }

    ghost low = { λ k. mod-lt (k.0 % 16 + 3 * (k.1 % 16) + 5 * (k.2 % 16) + 7 * (k.3 % 16)) (Prim.omega arith) };

    ghost same = { λ x y e. Prim.search rules };
}
