//! Where the fresh start of a difference leads.

ghost use Rattle.std.specs.Prelude.{◌≡◌, ◌<◌, ◌^◌, length, IfOk};
ghost use Rattle.tib_difference.specs.Ending.{final_in, listed_finals};
ghost use Rattle.tib_difference.specs.Series.{finals};

use crate::subset_key::SubsetKey;
use std::alloc::{AllocError, Global};
use tib_cost::{Boolean, Cost, Semiring};

// The cost at which a key ends, if it has the start of the first grammar and not that of the
// second.
fn final_of(key: &SubsetKey) -> Option<Cost>
    ensures { result ≡ final_in key.now }
{
    if key.state() != 0 {
        return None;
    }
    if key.has(0) {
        return None;
    }
    Some(Boolean::one())
}

// The positions whose keys end at a cost, with these costs.
fn list_finals(alloc: Global, order: &[SubsetKey]) -> Result<Vec<(u32, Cost)>, AllocError>
    requires { length order.now < 2 ^ 32 }
    ensures { IfOk result (λ found. found.items ≡ listed_finals 0 order.now) }
{
    let mut found = Vec::new(alloc);
    for position in 0..order.len() {
        if let Some(cost) = final_of(&order[position]) {
            found.push((position as u32, cost))?;
        }
    }
    Ok(found)
}

/// The positions whose keys have the start of the first grammar and not that of the second, each at
/// `one`. Err only if memory is refused. Worst case: one look at each member of the sets.
pub fn finals(alloc: Global, order: &[SubsetKey]) -> Result<Vec<(u32, Cost)>, AllocError>
    requires { length order.now < 2 ^ 32 }
    ensures { IfOk result (λ found. found.items ≡ finals 0 order.now) }
{
    list_finals(alloc, order)
}
