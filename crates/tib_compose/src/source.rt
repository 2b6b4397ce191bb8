//! A right-hand side of the first transducer that is to be translated.

ghost use Rattle.std.specs.Prelude.{◌≡◌, ◌<◌, ◌^◌, length};

use crate::bounds::Bounds;
use crate::plenty::Plenties;
use tib_grammar::Item;
use tib_transducer::Pair;

/// The items of a right-hand side, where the trees of each end, and what their translations cost at
/// least and how many there are at least.
#[derive(Drop)]
pub struct Source<'a> {
    /// The items.
    pub items: &'a [Item<Pair<u32>>],
    /// For each the one after its tree.
    pub ends: Vec<u32>,
    /// The bounds.
    pub bounds: Bounds,
    /// How many translations are known.
    pub plenties: Plenties,
    pub ghost long: { length ends.items ≡ length items.now },
    pub ghost few: { length items.now < 2 ^ 32 },
}
