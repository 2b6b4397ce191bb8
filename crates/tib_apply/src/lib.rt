//! Forward and backward application of a transducer to a grammar in normal form: the trees into
//! which the transducer turns trees of the grammar, and the trees that it turns into trees of the
//! grammar, each at the least cost. What is defined and proved of both is here, for every semiring.
//! `Forward` and `Backward` are these as operations that a hunt explores. It builds on
//! `tib_transducer`, `tib_match`, `tib_inside`, `tib_expand` and `tib_key_edges`.
#![tactic(auto)]

mod backward;
mod deleting;
mod edge_list;
mod error;
mod expand_backward;
mod forward;
mod forward_expand;
mod forward_listing;
mod forward_plan;
mod key;
pub mod laws;
mod placing;
mod restrictions;

pub use backward::Backward;
pub use error::ApplyError;
pub use forward::Forward;
pub use forward_listing::ForwardRule;
pub use key::Key;
pub use restrictions::Restrictions;
