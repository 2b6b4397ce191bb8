//! What a list of edges is made of.

use thiserror::Error;

/// Where a rule over keys points: at a position of the order, or at one of the ends of its own
/// list.
#[derive(Clone, Copy, Debug, Drop, PartialEq, Eq)]
pub enum Place {
    /// A position of the order.
    Known(u32),
    /// The end at that index of its list.
    End(u32),
}

/// A list of edges: the keys at which they end, rules over places, and how many parts the rules
/// have.
#[derive(Drop)]
pub struct Edges<K, R> {
    /// The ends, in any order, and any of them more than once.
    pub ends: Vec<K>,
    /// The rules, one for each edge.
    pub rules: Vec<R>,
    /// The parts of the rules, added up.
    pub parts: u64,
}

/// Why edges are not listed.
#[derive(Debug, Drop, PartialEq, Eq, Error)]
pub enum ExpandError {
    /// Their rules have more parts than the budget.
    #[error("more parts than the budget")]
    More,
    /// Memory was refused.
    #[error("out of memory")]
    OutOfMemory,
}
