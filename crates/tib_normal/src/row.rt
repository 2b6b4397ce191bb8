// A rule of the normal form by the number of its side.
use tib_cost::Cost;

/// A rule that is to be made: its left state, the number of its right side, and its cost.
#[derive(Drop)]
pub struct Row {
    pub state: u32,
    pub side: u32,
    pub cost: Cost,
}
