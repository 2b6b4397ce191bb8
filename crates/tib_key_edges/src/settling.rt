//! Sides of edges over places, with positions in place of what their holes carry.

ghost use Rattle.std.specs.Prelude.{◌≡◌, ◌+◌, ◌<◌, ◌≤◌, length, IfOk, slice_index};
ghost use Rattle.tib_grammar.specs.Items.{pairs_of, holes_in};
ghost use Rattle.tib_grammar.specs.Sides.{holes_of, side_map};
ghost use Rattle.tib_key_edges.specs.SideRules.{numbered_side};
ghost use Rattle.tib_key_edges.specs.Settling.{settled_pairs};

use std::alloc::{AllocError, Global};
use tib_grammar::{Item, Side};

/// The items of a side, with the positions of the ends from the first on in place of what its holes
/// carry.
fn settled_items<H>(
    alloc: Global,
    items: &[Item<H>],
    ends: &[u32],
    first: u32,
) -> Result<Vec<Item<u32>>, AllocError>
    requires room { 0 < length (holes_in items.now) → first + length (holes_in items.now)
        ≤ length ends.now }
    ensures settled { IfOk result (λ s. pairs_of s.items ≡ settled_pairs ends.now first
        (pairs_of items.now)) }
{
    let mut settled = Vec::with_capacity(alloc, items.len())?;
    let mut next = first as usize;
    for item in items {
        match item {
            Item::Label { label, rank } => {
                settled.push(Item::Label {
                    label: *label,
                    rank: *rank,
                })?;
            }
            Item::Hole(_) => {
                settled.push(Item::Hole(ends[next]))?;
                next += 1;
            }
        }
    }
    Ok(settled)
}

/// A side with positions in place of what its holes carry. The first of its holes, in preorder,
/// carries the position of the end `first`, the next one that of the next end, and so on. `ends`
/// has the position of each end. Err only if memory is refused. Cost: a pass over the items.
pub fn settled_side<H>(
    alloc: Global,
    side: &Side<H>,
    ends: &[u32],
    first: u32,
) -> Result<Side<u32>, AllocError>
    requires room { 0 < length (holes_of side.now) → first + length (holes_of side.now)
        ≤ length ends.now }
    ensures { IfOk result (λ s. s ≡ side_map (slice_index ends.now) (numbered_side first
        side.now)) }
{
    let items = settled_items(alloc, side.items(), ends, first)?;
    if items.len() > 4_000_000_000 {
        return Err(AllocError);
    }
    match Side::from_preorder(items) {
        Ok(settled) => Ok(settled),
        Err(_) => unreachable!(),
    }
}
