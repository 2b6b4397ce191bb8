//! Looks the ends of an item up among the known keys. Ends that the order has get their positions,
//! and only the others are handed on.

ghost use Rattle.std.specs.Prelude.{◌<◌, ◌^◌, length, IfOk};
ghost use Rattle.tib_hunt.specs.Known.{AreSplit};

use indexmap::IndexSet;
use std::alloc::{AllocError, Global};
use tib_expand::TableKey;
use tib_table::find_position;

/// Where an end of an item is: at a position of the order, or it has the next of the numbers on the
/// shelves.
#[derive(Clone, Copy, Debug, Drop, PartialEq, Eq)]
pub enum EndAt {
    /// The position of the order.
    Position(u32),
    /// The next number.
    Numbered,
}

/// The rules of an item, and where each of its ends is.
#[derive(Drop)]
pub struct Ruled<R> {
    /// The rules, one for each edge.
    pub rules: Vec<R>,
    /// Where each end is, in order, or None if all have numbers.
    pub at: Option<Vec<EndAt>>,
}

/// Where each end of an item is, and the ends that the order lacks.
#[derive(Drop)]
pub(crate) struct Split<K> {
    pub at: Vec<EndAt>,
    pub ends: Vec<K>,
}

/// Looks each end up among the known keys. Err if memory is refused; the ends are then gone. Cost:
/// one look-up by hash for each end.
pub(crate) fn split_ends<K: TableKey + Drop>(
    alloc: Global,
    keys: &IndexSet<K>,
    ends: Vec<K>,
) -> Result<Split<K>, AllocError>
    requires { length keys.now.keys < 2 ^ 32 }
    ensures { IfOk result (λ r. AreSplit keys.now.keys ends.items r.at.items r.ends.items) }
{
    let mut at = Vec::with_capacity(alloc, ends.len())?;
    let mut fresh = Vec::new(alloc);
    for key in ends {
        if let Some(position) = find_position(keys, &key) {
            at.push(EndAt::Position(position as u32))?;
        } else {
            at.push(EndAt::Numbered)?;
            fresh.push(key)?;
        }
    }
    Ok(Split { at, ends: fresh })
}
