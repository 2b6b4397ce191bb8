//! What operations over keys have in common: intersection, and the composition and application of
//! transducers. In them the edges depend only on the key at a position, and there is one start. So
//! the order begins with the start, has no key twice, and its edges are those of its keys.
//!
//! Pairs of states are the keys of intersection and of composition. Edges over places that borrow a
//! side serve the operations whose keys lead to the sides of rules: forward application, the image
//! of a tree, and parsing. An index gives the positions of the rules of a state, a label and a
//! rank. The crate also has laws of the composition of two transducers: the composite transducer
//! has the series of the composition. It uses `tib_grammar`, `tib_expand` and `tib_transducer`.
#![tactic(auto)]

mod buckets;
pub mod composition;
pub mod composition_examples;
mod indexing;
pub mod laws;
mod settling;
mod shape_index;
mod side_listing;
mod side_rule;
mod state_pair;

pub use buckets::{Shape, ShapeIndex};
pub use indexing::{Shaping, index_rules};
pub use settling::settled_side;
pub use side_listing::SideListing;
pub use side_rule::SideRule;
pub use state_pair::StatePair;
