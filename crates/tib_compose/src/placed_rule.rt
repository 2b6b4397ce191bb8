//! Edges over places.

use tib_cost::Cost;
use tib_expand::Place;
use tib_grammar::Side;
use tib_transducer::{Pair, Variable};

/// An edge over places: from a position of the order it reads the left-hand side of a rule of the
/// first transducer, and puts out a side whose pairs lead to ends.
#[derive(Drop)]
pub struct PlacedRule<'a> {
    /// The position of the pair that the edge leads from.
    pub position: u32,
    /// The left-hand side of the rule of the first transducer.
    pub left: &'a Side<Variable>,
    /// What is put out.
    pub right: Side<Pair<Place>>,
    /// What the edge costs.
    pub cost: Cost,
}
