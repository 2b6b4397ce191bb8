// The keys of forward and backward application.
ghost use Rattle.std.specs.Prelude.{◌≡◌};

use std::marker::Model;
use tib_expand::TableKey;

/// A state of the grammar and a state of the transducer, that of what is read first before the
/// other, and a restriction: 0, or the number of the one label that may be at the root.
#[derive(Clone, Copy, Debug, Drop, PartialEq, Eq, PartialOrd, Ord, Hash)]
pub struct Key {
    first: u32,
    second: u32,
    restriction: u32,
}

impl Model for Key {
    ghost use Rattle.std.specs.Prelude.{ℕ};
    ghost use Rattle.tib_apply.specs.Keys.{key_code};

    ghost Value = { ℕ × ℕ × ℕ };

    ghost coded = { key_code };

    ghost view = { λ k. (k.first, k.second, k.restriction) };

    ghost inverse = { λ k. record { first = k.0; second = k.1; restriction = k.2 } };
}

impl Key {
    /// The key of these states and this restriction.
    pub fn new(first: u32, second: u32, restriction: u32) -> Key
        ensures { result ≡ (first, second, restriction) }
    {
        Key {
            first,
            second,
            restriction,
        }
    }

    /// The first state: in forward application of the grammar, in backward application of the
    /// transducer.
    pub fn first(self) -> u32
        ensures { result ≡ self.0 }
    {
        self.first
    }

    /// The second state.
    pub fn second(self) -> u32
        ensures { result ≡ self.1 }
    {
        self.second
    }

    /// The restriction.
    pub fn restriction(self) -> u32
        ensures { result ≡ self.2 }
    {
        self.restriction
    }
}

impl TableKey for Key {
    ghost use Rattle.std.specs.Prelude.{◌%◌, ◌+◌, ◌*◌};
    ghost use Rattle.std.proofs.Common.{rules, arith, mod-lt};
    ghost use Rattle.tib_apply.specs.Operations.{key_entries};

    ghost shelf_of = { λ k. (k.0 % 16 + 2 * (k.1 % 16) + 5 * (k.2 % 16)) % 16 };

    ghost entries_of = { key_entries };

    fn shelf(&self) -> u32 {
        (self.first % 16 + 2 * (self.second % 16) + 5 * (self.restriction % 16)) % 16
    }

    fn entries(&self) -> u64 {
        if self.restriction == 0 { 2 } else { 3 }
    }

    ghost low = { λ k. mod-lt (k.0 % 16 + 2 * (k.1 % 16) + 5 * (k.2 % 16)) (Prim.omega arith) };

    ghost same = { λ x y e. Prim.search rules };
}
