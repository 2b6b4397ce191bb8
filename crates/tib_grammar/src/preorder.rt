// Sides from items, and back.
ghost use Rattle.std.specs.Prelude.{◌≡◌, ℕ, ◌+◌, ◌<◌, ◌≤◌, ◌^◌, ◌≢◌, length, IfOk, Err, IsTrue, false, true};
ghost use Rattle.tib_tree.specs.Trees.{preorder_of, IsOneTree, only};
ghost use Rattle.tib_grammar.specs.Sides.{Side as SideFor, HolesAreLeaves, over as over_of};
ghost use Rattle.tib_grammar.specs.Items.{pairs_of, pair_of, items_over};

use crate::{Item, Side};
use smallvec::SmallVec;
use std::alloc::{AllocError, Global};
use tib_tree::{Label, ShapeError};

// The number of children of an item.
fn rank_of<P>(item: &Item<P>) -> u32
    ensures { result ≡ (pair_of item.now).1 }
{
    match item {
        Item::Label { rank, .. } => *rank,
        Item::Hole(_) => 0,
    }
}

// Whether each item has its children after it, and the first item alone is no item's child.
fn is_one_side<P>(items: &[Item<P>]) -> bool
    requires { length items.now < 2 ^ 32 }
    ensures yes { IsTrue result → IsOneTree (pairs_of items.now) }
    ensures no { result ≡ false → IsOneTree (pairs_of items.now) → ⊥ }
{
    let mut roots: usize = 0;
    let mut i = items.len();
    while i > 0 {
        i -= 1;
        let rank = rank_of(&items[i]) as usize;
        if rank > roots {
            return false;
        }
        roots = roots - rank + 1;
    }
    roots == 1
}

// The preorder of one label over some states.
fn items_over(
    alloc: Global,
    label: Label,
    states: &[u32],
) -> Result<SmallVec<Item<u32>, 3>, AllocError>
    requires { length states.now < 2 ^ 32 }
    ensures { IfOk result (λ v. v.items ≡ items_over label states.now) }
{
    let mut items = SmallVec::with_capacity(alloc, states.len() + 1)?;
    items.push(Item::Label {
        label,
        rank: states.len() as u32,
    })?;
    for state in states {
        items.push(Item::Hole(*state))?;
    }
    Ok(items)
}

impl<P: Drop> Side<P> {
    /// The side whose preorder the items are. `NotATree` exactly if they are not the preorder of
    /// one tree; they are then dropped. No other error comes. It takes no memory. Worst case: one
    /// pass over the items.
    pub fn from_preorder(items: Vec<Item<P>>) -> Result<Side<P>, ShapeError>
        requires { length items.items < 2 ^ 32 }
        ensures side { IfOk result (λ s. preorder_of s ≡ pairs_of items.items) }
        ensures not_a_tree { result ≡ Err ShapeError.NotATree → (s : SideFor ℕ P) →
            preorder_of s ≡ pairs_of items.items → ⊥ }
        ensures no_memory { result ≢ Err ShapeError.OutOfMemory }
    {
        Side::from_items(SmallVec::from_vec(items))
    }

    /// The same of items that take no memory of their own if they are up to three. `NotATree`
    /// exactly if they are not the preorder of one tree; no other error comes. Worst case: one
    /// pass.
    pub fn from_items(items: SmallVec<Item<P>, 3>) -> Result<Side<P>, ShapeError>
        requires { length items.items < 2 ^ 32 }
        ensures side { IfOk result (λ s. preorder_of s ≡ pairs_of items.items) }
        ensures not_a_tree { result ≡ Err ShapeError.NotATree → (s : SideFor ℕ P) →
            preorder_of s ≡ pairs_of items.items → ⊥ }
        ensures no_memory { result ≢ Err ShapeError.OutOfMemory }
    {
        let slice = items.as_slice();
        if is_one_side(slice) {
            Ok(Side { items })
        } else {
            Err(ShapeError::NotATree)
        }
    }
}

impl Side<u32> {
    /// One label over some states. Err only if memory is refused. Worst case: O(n) steps for n
    /// states.
    pub fn over(alloc: Global, label: Label, states: &[u32]) -> Result<Side<u32>, AllocError>
        requires { length states.now < 2 ^ 32 }
        ensures { IfOk result (λ s. s ≡ over_of label states.now) }
    {
        let items = items_over(alloc, label, states)?;
        Ok(Side { items })
    }
}

impl<P> Side<P> {
    /// The items, a label before what is below it. It takes no memory.
    pub fn items(&self) -> &[Item<P>]
        ensures items { pairs_of result.now ≡ preorder_of self.now }
        ensures leaves { HolesAreLeaves (only self.now) }
    {
        self.items.as_slice()
    }
}
