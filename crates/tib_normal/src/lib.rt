//! Grammars in normal form, and the normal form of a grammar; and the agenda by which states get
//! their least costs, which `tib_inside` uses too.
#![tactic(auto)]

mod agenda;
mod error;
mod index;
pub mod laws;
mod links;
mod normal;
mod normal_form;
mod place_names;
mod row;
mod rows;
mod sides;
mod spread;
mod ways;

pub use agenda::Agenda;
pub use error::NormalError;
pub use normal::Normal;
pub use normal_form::normalize;
