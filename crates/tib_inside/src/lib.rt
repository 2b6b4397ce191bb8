//! The least cost of a run from each state of a grammar, and the grammar without what no run uses.
//! `inside` settles the states in ascending order of cost (Knuth 1977), over all right sides and
//! chains, and looks at each rule once for each state in its right side. `trim` keeps the start,
//! exactly the useful states and exactly their live rules, in order, and `trim_normal` does so for
//! a grammar in normal form, and `trim_rules` for rules without names; the rules are moved, and the
//! series stay the same. `Links` and `add_side` give the places of states. It builds on `tib_cost`,
//! `tib_grammar` and `tib_normal`.
#![tactic(auto)]

mod holes;
mod links;
mod pending;
mod reaching;
mod renaming;
mod rule_costs;
mod settling;
mod trimming;
mod uses;

pub use holes::add_side;
pub use links::Links;
pub use settling::inside;
pub use trimming::{TrimmedRules, trim, trim_normal, trim_rules};
