//! Lists of best trees that grow only where a tree is asked for (Huang and Chiang 2005). The crate
//! uses `tib_ranked_trees`.
#![tactic(auto)]

mod adding;
mod asking;
mod beginning;
mod best;
mod demanding;
mod drawing;
mod error;
mod followers;
mod listing;
mod reading;
mod rounds;
mod stepping;
mod walking;

pub use best::{ask_best, ask_lazily};
pub use error::AskError;
