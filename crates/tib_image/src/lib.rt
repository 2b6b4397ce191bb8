//! What a transducer makes of one tree, and which trees it turns into one string. The outputs on a
//! tree: keys of a state of the transducer and a node of the tree, reached along the rules whose
//! left-hand sides match at the node. The transducer may copy, delete, be extended and be labelled.
//! `Image` is this as an operation that a hunt explores. The trees of a string are in `parse`. It
//! builds on `tib_transducer`, `tib_expand` and `tib_key_edges`, which has the index of its rules
//! and its edges over places, and for `parse` on `tib_strings`.
#![tactic(auto)]

pub mod examples;
mod expand;
mod index;
mod key;
pub mod laws;
mod listing;
mod operation;
pub mod parse;
mod walk;

pub use key::Key;
pub use operation::Image;
