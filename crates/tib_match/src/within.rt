//! The result of a search for matches within a budget.

use crate::found_match::Match;

/// Matches within a budget.
#[derive(Drop)]
pub enum Within {
    /// The matches, ascending.
    All(Vec<Match>),
    /// There are more than the budget.
    More,
}
