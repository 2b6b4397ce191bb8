//! The sum of two grammars: a fresh start, then the states of the first, then those of the second.
//! It gives each tree the lesser of the costs that both give it. It builds on `tib_grammar`, which
//! gives rules new numbers of their states, and on `tib_canon` for the names of the states.
#![tactic(auto)]

pub mod laws;
mod rules;
mod summing;

pub use summing::sum_of;
