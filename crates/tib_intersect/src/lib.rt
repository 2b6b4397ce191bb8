//! The intersection of two grammars in normal form: pairs of states, reached along pairs of rules
//! that agree in label and rank. `Pairs` is this as an operation that a hunt explores. It builds on
//! `tib_cost`, `tib_grammar`, `tib_normal` and `tib_expand`.
#![tactic(auto)]

mod expand;
mod index;
pub mod laws;
mod listing;
mod pair_rule;
mod pairs;

pub use pair_rule::PairRule;
pub use pairs::Pairs;
