//! The texts of the operations that hunt nothing: trees with their weights, lists of best trees,
//! inside costs, the classes of a transducer; a grammar in canonical form, whole, pruned or joined
//! with another; one as its file has it without what is in no complete run; the transducer of the
//! derivations of a grammar, and the inverse of a transducer. Each returns the text or the status
//! with which the run ends. The crate knows neither words nor files.
#![tactic(auto)]

mod check;
mod classes;
mod derivations;
mod derived;
mod forms;
mod inside;
mod inverse;
mod kbest;
mod normal;
mod pieces;
mod prune;
mod text;
mod transducers;
mod trim;
mod union;
mod weigh;

pub use check::classes_text;
pub use classes::{demand, demand_invertible, demand_plain};
pub use derivations::derivations_text;
pub use forms::{normal_of, product_has_laws, trimmed_form};
pub use inside::inside_text;
pub use inverse::inverse_text;
pub use kbest::kbest_text;
pub use normal::canonical_normal;
pub use pieces::{write_about, write_both, write_piece};
pub use prune::canonical_pruned;
pub use text::weighed_text;
pub use trim::{through_text, trimmed_text};
pub use union::union_of;
pub use weigh::costs_of;
