// A key of two numbers, the first of which says the shelf.
ghost use Rattle.std.specs.Prelude.{◌≡◌};

use tib_expand::TableKey;

#[derive(Clone, Copy, Debug, Drop, PartialEq, Eq, PartialOrd, Ord, Hash)]
pub(crate) struct Pair {
    pub(crate) left: u64,
    pub(crate) right: u64,
}

impl TableKey for Pair {
    ghost use Rattle.std.specs.Prelude.{◌%◌};
    ghost use Rattle.std.proofs.Common.{rules, arith, mod-lt};

    ghost shelf_of = { λ p. p.left % 16 };

    ghost entries_of = { λ _. 2 };

    fn shelf(&self) -> u32 {
        (self.left % 16) as u32
    }

    fn entries(&self) -> u64 {
        2
    }

    ghost low = { λ p. mod-lt p.left (Prim.omega arith) };

    ghost same = { λ x y e. Prim.search rules };
}

/// The key of a number.
pub(crate) fn pair_of(left: u64) -> Pair
    ensures { result.left ≡ left }
{
    Pair {
        left,
        right: left / 2,
    }
}
