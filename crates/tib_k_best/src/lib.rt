//! Lists of the best trees of a grammar in normal form: first trees (Knuth 1977), and lists that
//! grow where a tree is asked for (`tib_lazy_lists`). If the product is the greater factor, binary
//! search finds the least level with k trees, and the trees below it are weighed and sorted.
#![tactic(auto)]

mod advancing;
mod any_grammar;
mod asking;
mod best;
mod error;
mod first;
mod form;
mod laws;
mod lazy_list;
mod level;
mod level_best;
mod levels;
mod listed;
mod queue;
mod ranked;
mod search;
mod settling;
mod weights;

pub use any_grammar::{best_trees, k_best};
pub use asking::have_trees_below;
pub use best::best_of_rules;
pub use error::KBestError;
pub use first::first_trees;
pub use form::is_deterministic_below;
pub use laws::{deterministic_below, trimmed_has_trees};
pub use lazy_list::{LazyList, lazy_k_best};
pub use level_best::k_best_by_levels;
pub use levels::{level_rules, sorted_costs};
pub use listed::List;
pub use queue::{Queue, Waiting};
pub use ranked::Ranked;
