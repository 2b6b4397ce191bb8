//! The domain of a transducer: the trees that it reads, each at the least cost of all its outputs.
//! What is made here is a tree-to-string transducer that reads the same and puts out nothing, so
//! that parsing of the empty string gives the domain as a grammar. What a rule leaves out is read
//! by one more state, which takes any tree over the labels of the left sides. It builds on
//! `tib_transducer` and `tib_strings`, and on `tib_canon` for the names of the states.
#![tactic(auto)]

mod alphabet;
mod any;
pub mod laws;
mod reading;
mod transducer;

pub use transducer::domain_transducer;
