//! Outside costs of the states of a grammar, and the part of a grammar within a beam of its
//! cheapest tree. `outside` settles the states in ascending order of the costs of contexts around
//! them (Dijkstra 1959), once inside costs are known. `prune` keeps the rules that occur in some
//! run whose cost is at most the inside cost of the start plus the beam: no tree within it is lost
//! or changes its cost. `trim_with_insides` trims a grammar, or sees that there is nothing to trim,
//! and gives the inside costs with which `prune_by_insides` and `prune_to_count` go on. It builds
//! on `tib_cost`, `tib_grammar`, `tib_normal` and `tib_inside`.
#![tactic(auto)]

pub mod laws;
mod products;
mod pruning;
mod settling;
mod telling;
mod whole;

pub use pruning::{prune, prune_by_insides, prune_to_count};
pub use settling::outside;
pub use whole::trim_with_insides;
