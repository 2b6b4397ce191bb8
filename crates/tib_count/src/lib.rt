//! How many runs a grammar has, and how many trees: each a number, more than that, or endlessly
//! many. It builds on `tib_grammar`.
#![tactic(auto)]

mod arithmetic;
mod count;
mod counting;
mod edges;
pub mod laws;
mod order;
mod sums;

pub use count::Count;
pub use counting::count_runs;
