//! How many translations there are at least, and how much they put out together.

ghost use Rattle.std.specs.Prelude.{◌≡◌, ℕ, IfSome, OnOk, None};
ghost use Rattle.tib_compose.specs.Plenties.{AreAdded, IsProduct, IsSum, SetsPlenty, plenty_of};

use std::alloc::{AllocError, Global};
use std::collections::HashMap;
use tib_cost::{Cost, Semiring};

/// At least so many translations, which put out at least so many items together, each at no more
/// than a cost.
#[derive(Clone, Copy, Drop)]
pub struct Plenty {
    /// How many.
    pub count: u64,
    /// Their items.
    pub items: u64,
    /// The cost.
    pub worst: Cost,
}

/// Where each translation of a part goes with each of another: none where they cost together more
/// than the greatest cost.
pub(crate) fn product_plenty<S: Semiring>(one: &Plenty, two: &Plenty) -> Option<Plenty>
    ensures { IfSome result (IsProduct S.product one.now two.now) }
{
    let Some(worst) = S::times(one.worst, two.worst) else {
        return None;
    };
    let later = one.count.saturating_mul(two.items);
    let earlier = one.items.saturating_mul(two.count);
    Some(Plenty {
        count: one.count.saturating_mul(two.count),
        items: later.saturating_add(earlier),
        worst,
    })
}

/// The translations of the one and those of the other.
fn sum_plenty(one: &Plenty, two: &Plenty) -> Plenty
    ensures { IsSum one.now two.now result }
{
    let worst = if one.worst.get() < two.worst.get() {
        two.worst
    } else {
        one.worst
    };
    Plenty {
        count: one.count.saturating_add(two.count),
        items: one.items.saturating_add(two.items),
        worst,
    }
}

/// The translations of the one and those of the other, where none are known of either.
pub(crate) fn added_plenty(one: Option<Plenty>, two: Option<Plenty>) -> Option<Plenty>
    ensures { AreAdded one two result }
{
    let Some(first) = one else {
        return two;
    };
    let Some(second) = two else {
        return Some(first);
    };
    Some(sum_plenty(&first, &second))
}

/// For nodes of a right-hand side and states how many translations there are at least.
#[derive(Drop)]
pub struct Plenties {
    table: HashMap<(u32, u32), Plenty>,
}

impl Plenties {
    /// Nothing is known of any node. It takes no memory and one step.
    pub fn new(alloc: Global) -> Plenties
        ensures { (i p : ℕ) → plenty_of result i p ≡ None }
    {
        Plenties {
            table: HashMap::new(alloc),
        }
    }

    /// What is known of a node and a state. Cost: one look-up by hash.
    pub fn of(&self, node: u32, state: u32) -> Option<Plenty>
        ensures { result ≡ plenty_of self.now node state }
    {
        match self.table.get(&(node, state)) {
            Some(plenty) => Some(*plenty),
            None => None,
        }
    }

    /// Sets what is known of a node and a state. Err only if memory is refused; what is known is
    /// then unspecified. Cost: one look-up by hash.
    pub fn set(&mut self, node: u32, state: u32, plenty: Plenty) -> Result<(), AllocError>
        ensures { OnOk result (SetsPlenty node state plenty self.old self.new) }
    {
        self.table.insert((node, state), plenty)?;
        Ok(())
    }
}
