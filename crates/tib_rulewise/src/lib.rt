//! Transducers that are made rule by rule. `derivations` makes of a grammar the transducer that
//! reads each of its runs, as a tree of the labels `r1`, `r2` and so on of its rules, and outputs
//! the tree that the run yields. `inverse` makes of a transducer the one that reads what the first
//! outputs and outputs what the first reads. What each gives is proved for every semiring. It
//! depends on `tib_grammar` and `tib_transducer`; the digits of numbers are those of `itoa`.
#![tactic(auto)]

pub mod examples;
mod from_grammar;
mod from_transducer;
mod labels;
mod sides;

pub use from_grammar::derivations;
pub use from_transducer::inverse;
