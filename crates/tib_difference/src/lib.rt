//! The trees of a grammar that have no run in another. A key is a state of the first with the set
//! of the states of the second from which the same tree has runs. `Difference` is this as an
//! operation that a hunt explores. It builds on `tib_grammar`, `tib_normal` and `tib_expand`.
#![tactic(auto)]

mod choices;
mod difference;
mod expand;
mod holders;
mod index;
pub mod laws;
mod listing;
mod lists;
mod start;
mod subset;
mod subset_key;
mod users;
mod walk;

pub use difference::Difference;
pub use start::finals;
pub use subset_key::SubsetKey;
