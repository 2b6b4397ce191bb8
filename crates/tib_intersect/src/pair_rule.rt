//! An edge of a pair, over places.

use tib_cost::Cost;
use tib_tree::Label;

/// An edge over places: from a position of the order, by a label, to adjacent ends in their list.
#[derive(Clone, Copy, Debug, Drop)]
pub struct PairRule {
    /// The position of the pair that the edge leads from.
    pub position: u32,
    /// The label.
    pub label: Label,
    /// The number of the first end.
    pub first_end: u32,
    /// How many ends.
    pub rank: u32,
    /// What the edge costs.
    pub cost: Cost,
}
