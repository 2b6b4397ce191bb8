//! Parsing by tree-to-string transducers: the trees that a linear and nondeleting transducer turns
//! into one string, each at the least cost, as keys of a state, two places of the string and a
//! restriction that are reached along edges. What is defined and proved of it is here, for every
//! semiring. `Parse` is this as an operation that a hunt explores. It builds on `tib_strings`,
//! `tib_apply`, whose restrictions are the same, `tib_expand` and `tib_key_edges`.

pub mod examples;
mod expand;
mod key;
pub mod laws;
mod listing;
mod moves;
mod operation;
mod readers;
mod spans;

pub use key::Key;
pub use listing::ParseRule;
pub use operation::Parse;
