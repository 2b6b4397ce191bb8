//! The positions of an order by the states of their keys.

ghost use Rattle.std.specs.Prelude.{◌≡◌, ℕ, ◌<◌, ◌≤◌, ◌^◌, List, [], length, take, OnOk};
ghost use Rattle.tib_difference.specs.Difference.{KeyOf};
ghost use Rattle.tib_difference.specs.Held.{AreHolders};
ghost use Rattle.tib_difference.specs.Tries.{positions_of};

use crate::lists::{add, list_of};
use crate::subset_key::SubsetKey;
use std::alloc::{AllocError, Global};
use tib_determinize::count_below;

/// For each state the positions of an order, ascending, whose keys have it.
#[derive(Drop)]
pub struct Holders {
    lists: Vec<Vec<u32>>,
}

// Adds the positions of an order from one on to those of the states of their keys.
fn add_positions(
    alloc: Global,
    lists: &mut Vec<Vec<u32>>,
    order: &[SubsetKey],
    from: u32,
) -> Result<(), AllocError>
    requires from { from ≤ length order.now }
    requires few { length order.now < 2 ^ 32 }
    requires held { AreHolders (take from order.now) lists.old.items }
    ensures { OnOk result (AreHolders order.now lists.new.items) }
{
    for position in from as usize..order.len() {
        let state = order[position].state();
        add(alloc, lists, state, position as u32)?;
    }
    Ok(())
}

impl Holders {
    /// The positions of the empty order.
    pub fn new(alloc: Global) -> Holders
        ensures { AreHolders [] result.lists.items }
    {
        Holders {
            lists: Vec::new(alloc),
        }
    }

    /// Adds the positions of an order from one on. Err only if memory is refused. Cost: one step
    /// for each of them, and for each state up to the greatest of theirs.
    pub fn extend(
        &mut self,
        alloc: Global,
        order: &[SubsetKey],
        from: u32,
    ) -> Result<(), AllocError>
        requires from { from ≤ length order.now }
        requires few { length order.now < 2 ^ 32 }
        requires held { AreHolders (take from order.now) self.old.lists.items }
        ensures { OnOk result (AreHolders order.now self.new.lists.items) }
    {
        add_positions(alloc, &mut self.lists, order, from)
    }

    /// The positions below one whose keys have a state. It takes no memory. Cost: a search by
    /// halving.
    pub fn below(&self, state: u32, position: u32) -> &[u32]
        requires { (order : List KeyOf) × AreHolders order self.now.lists.items }
        ensures { (order : List KeyOf) → AreHolders order self.now.lists.items →
            result.now ≡ positions_of (take position order) state }
    {
        let positions = list_of(&self.lists, state);
        let many = count_below(positions, position as usize);
        &positions[..many]
    }
}
