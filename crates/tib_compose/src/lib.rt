//! The composition of two transducers: the pairs of their states, with the rules of the composite
//! transducer. `Composite` is this as an operation that a hunt explores. It builds on
//! `tib_key_edges`, `tib_transducer` and `tib_expand`.
#![tactic(auto)]

mod bounding;
mod bounds;
mod branch;
mod choice;
mod composite;
mod counting;
mod edges;
mod ends;
mod error;
mod expand;
mod flat;
mod index;
mod listing;
mod pending;
mod placed_rule;
mod plenty;
mod putting;
mod search;
mod settling;
mod source;
mod translating;

pub use choice::Choice;
pub use composite::Composite;
pub use error::ComposeError;
pub use placed_rule::PlacedRule;
