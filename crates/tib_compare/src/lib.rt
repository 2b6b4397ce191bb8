//! The comparison of the supports of two grammars: whether the same trees have a cost in both, or
//! else the least tree, in the order of trees, that has one in exactly one of them. The vectors of
//! both grammars side by side, as `tib_determinize` defines them, are given. It builds on
//! `tib_k_best`, which gives the least tree of the vectors that distinguish the grammars.
#![tactic(auto)]

mod beside;
mod compare;
mod compared;
mod error;
pub mod laws;
mod moving;
mod wanted;

pub use beside::side_by_side;
pub use compare::{compare_vectors, fault_of};
pub use compared::Compared;
pub use error::CompareError;
