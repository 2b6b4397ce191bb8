//! An edge of determinization, over places.

ghost use Rattle.std.specs.Prelude.{◌<◌, ◌^◌, length};

use smallvec::SmallVec;
use tib_cost::Cost;
use tib_tree::Label;

/// An edge over places: from an end, by a label over positions of the order. With up to four
/// positions it takes no memory of its own.
#[derive(Drop)]
pub struct VectorRule {
    /// The number of the end that the edge leads from.
    pub end: u32,
    /// The label.
    pub label: Label,
    /// The positions, one for each child of the label.
    pub positions: SmallVec<u32, 4>,
    /// What the edge costs.
    pub cost: Cost,
    pub ghost few: { length positions.items < 2 ^ 32 },
}
