//! The keys of the image of a tree: a state of the transducer and a node of the tree.

ghost use Rattle.std.specs.Prelude.{◌≡◌};

use std::marker::Model;
use tib_expand::TableKey;

/// A state of the transducer and a node of the tree, by its number in preorder from 0.
#[derive(Clone, Copy, Debug, Drop, PartialEq, Eq, PartialOrd, Ord, Hash)]
pub struct Key {
    state: u32,
    node: u32,
}

impl Model for Key {
    ghost use Rattle.std.specs.Prelude.{ℕ};
    ghost use Rattle.std.specs.Coded.{coded×, coded_ℕ};

    ghost Value = { ℕ × ℕ };

    ghost coded = { coded× coded_ℕ coded_ℕ };

    ghost view = { λ k. (k.state, k.node) };

    ghost inverse = { λ k. record { state = k.0; node = k.1 } };
}

impl Key {
    /// The key of a state and a node.
    pub fn new(state: u32, node: u32) -> Key
        ensures { result ≡ (state, node) }
    {
        Key { state, node }
    }

    /// The state of the transducer.
    pub fn state(self) -> u32
        ensures { result ≡ self.0 }
    {
        self.state
    }

    /// The node of the tree.
    pub fn node(self) -> u32
        ensures { result ≡ self.1 }
    {
        self.node
    }
}

impl TableKey for Key {
    ghost use Rattle.std.specs.Prelude.{◌%◌, ◌+◌, ◌*◌};
    ghost use Rattle.std.proofs.Common.{rules, arith, mod-lt};
    ghost use Rattle.tib_image.specs.Image.{key_entries};

    ghost shelf_of = { λ k. (k.1 % 16 + 2 * (k.0 % 16)) % 16 };

    ghost entries_of = { key_entries };

    fn shelf(&self) -> u32 {
        (self.node % 16 + 2 * (self.state % 16)) % 16
    }

    fn entries(&self) -> u64 {
        2
    }

    ghost low = { λ k. mod-lt (k.1 % 16 + 2 * (k.0 % 16)) (Prim.omega arith) };

    ghost same = { λ x y e. Prim.search rules };
}
