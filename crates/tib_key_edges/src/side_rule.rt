//! An edge over places that borrows a side.

use tib_cost::Cost;
use tib_grammar::Side;

/// An edge over places: from a position of the order to a side of a rule. The holes of the side
/// lead, in preorder, to consecutive ends of their list.
#[derive(Drop)]
pub struct SideRule<'a, H> {
    /// The position of the key that the edge leads from.
    pub position: u32,
    /// The side of the rule.
    pub side: &'a Side<H>,
    /// The number of the first end.
    pub first_end: u32,
    /// What the edge costs.
    pub cost: Cost,
}
