//! Determinization of a weighted tree grammar by residuals. The vectors that are reached from the
//! labels over no state, with their rules, are a grammar in deterministic form that has the series
//! of the input. `Residuals` is this as an operation that a hunt explores. It builds on
//! `tib_grammar` and `tib_expand`.
#![tactic(auto)]

mod alive;
pub mod examples;
mod expand;
mod holders;
pub mod laws;
mod listing;
mod occurrences;
mod origin;
mod residuals;
mod settling;
mod shapes;
mod started;
mod vector;
mod vector_rule;
mod walk;
mod wanted;
mod wide;

pub use holders::count_below;
pub use origin::Origin;
pub use residuals::Residuals;
pub use started::{final_positions, started_rules};
pub use vector::Vector;
pub use vector_rule::VectorRule;
