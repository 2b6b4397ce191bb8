//! Pairs of states, one from each of two machines, as the keys of an operation.

ghost use Rattle.std.specs.Prelude.{◌≡◌};

use std::marker::Model;
use tib_expand::TableKey;

/// A state of a first grammar or transducer and a state of a second one.
#[derive(Clone, Copy, Debug, Drop, PartialEq, Eq, PartialOrd, Ord, Hash)]
pub struct StatePair {
    first: u32,
    second: u32,
}

impl Model for StatePair {
    ghost use Rattle.std.specs.Prelude.{ℕ};
    ghost use Rattle.std.specs.Coded.{coded×, coded_ℕ};

    ghost Value = { ℕ × ℕ };

    ghost coded = { coded× coded_ℕ coded_ℕ };

    ghost view = { λ p. (p.first, p.second) };

    ghost inverse = { λ k. record { first = k.0; second = k.1 } };
}

impl StatePair {
    /// The pair of these states.
    pub fn new(first: u32, second: u32) -> StatePair
        ensures { result ≡ (first, second) }
    {
        StatePair { first, second }
    }

    /// The state of the first one.
    pub fn first(self) -> u32
        ensures { result ≡ self.0 }
    {
        self.first
    }

    /// The state of the second one.
    pub fn second(self) -> u32
        ensures { result ≡ self.1 }
    {
        self.second
    }
}

impl TableKey for StatePair {
    ghost use Rattle.std.specs.Prelude.{◌%◌, ◌+◌, ◌*◌};
    ghost use Rattle.std.proofs.Common.{rules, arith, mod-lt};

    ghost shelf_of = { λ k. (k.0 % 16 + 2 * (k.1 % 16)) % 16 };

    ghost entries_of = { λ _. 2 };

    fn shelf(&self) -> u32 {
        (self.first % 16 + 2 * (self.second % 16)) % 16
    }

    fn entries(&self) -> u64 {
        2
    }

    ghost low = { λ k. mod-lt (k.0 % 16 + 2 * (k.1 % 16)) (Prim.omega arith) };

    ghost same = { λ x y e. Prim.search rules };
}
