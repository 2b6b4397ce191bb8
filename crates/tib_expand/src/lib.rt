//! What a hunt explores, and the reached set that it finds: keys, the edges of each key, how an
//! operation lists them, and the order in which the keys are reached. Operations implement `Expand`
//! over this crate alone; `tib_hunt` finds their reached sets.
#![tactic(auto)]

mod error;
mod expand;
mod found;
mod key;
mod limit;
mod place;

pub use error::HuntError;
pub use expand::Expand;
pub use found::{Found, Gate, Open};
pub use key::TableKey;
pub use limit::{MOST_PARTS, hunts_have_a_limit};
pub use place::{Edges, ExpandError, Place};
