// The faults of a comparison.
use thiserror::Error;

/// Why a comparison has no result.
#[derive(Clone, Copy, Debug, PartialEq, Eq, Drop, Error)]
pub enum CompareError {
    /// The reached set of both grammars side by side has more parts than the limit.
    #[error("more than {limit} parts")]
    TooMany { limit: u64 },
    /// The supports differ, and the least tree that has a cost in exactly one has more than 10,000
    /// nodes.
    #[error("a tree has more than 10000 nodes")]
    TreeTooLarge,
    /// Memory was refused, or 32-bit numbers ran out. This says nothing of the grammars.
    #[error("out of memory")]
    OutOfMemory,
}
