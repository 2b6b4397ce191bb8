//! The rules of a grammar that are in complete runs, which are runs from the start within the
//! greatest cost. `trimmed` keeps exactly these rules, in their order, with the states that they
//! need; `through_costs` gives each of them the least cost of a complete run in which it is. Right
//! sides may be of any depth: what counts of a rule is its left state, its cost and the states of
//! its right side. It builds on `tib_inside` for inside costs, and on `tib_prune` for contexts,
//! outside costs and through costs.
#![tactic(auto)]

mod keeping;
pub mod laws;
mod links;
mod products;
mod seen;
mod settling;
mod telling;
mod trimming;

pub use trimming::{through_costs, trimmed};
