// The errors of lists of best trees.
use thiserror::Error;

/// Why there is no list of best trees.
#[derive(Clone, Copy, Debug, PartialEq, Eq, Drop, Error)]
pub enum KBestError {
    /// The state has among its k least trees one of more than 10,000 nodes.
    #[error("state {state} has a tree of more than 10000 nodes among its best")]
    TreeTooLarge { state: u32 },
    /// Memory was refused, or 32-bit numbers ran out. This says nothing about the grammar.
    #[error("out of memory")]
    OutOfMemory,
}
