//! What the list of the k best trees of a grammar is, laws of the ways to make it, and the lists of
//! the best trees of each state with the candidates for them. A candidate is a rule with a rank for
//! each state below it. It stands for the tree that the rule makes of the trees with these ranks.
//!
//! Trees share their subtrees. Each tree is kept once, as its label and the numbers of its
//! children, so equal numbers are equal trees. A comparison of two trees goes down where their
//! numbers differ, and a number's tree is built on demand. A binary heap of numbers, whose order
//! another value gives, holds candidates. The crate uses `tib_cost` and `tib_grammar`.
#![tactic(auto)]

mod building;
pub mod heap;
mod kept;
mod laws;
mod lists;
mod making;
mod offers;
mod ranking;
mod reading;
mod shape_set;
mod shared;
mod text_ranks;
mod tree_laws;
mod tree_order;

pub use kept::Trees;
pub use laws::{
    asking_goes_on, asking_lists_best, candidates_are_apart, costs_are_ordered, costs_are_ranked,
    firsts_are_best, fronts_grow, large_is_listed, levels_list_best, one_k_best,
    order_goes_up_the_rules, pass_goes_on, pass_lists_best, walks_are_short,
};
pub use lists::{Candidate, Entry, Lists};
pub use shared::Shared;
pub use text_ranks::label_ranks;
pub use tree_laws::numbers_name_trees;
