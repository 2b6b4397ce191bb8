// The errors of asked lists.
use thiserror::Error;

/// Why a list does not have the trees that were asked for.
#[derive(Clone, Copy, Debug, PartialEq, Eq, Drop, Error)]
pub enum AskError {
    /// The state has among its k least trees one of more than 10,000 nodes.
    #[error("state {state} has a tree of more than 10000 nodes among its best")]
    TreeTooLarge { state: u32 },
    /// Memory was refused. This says nothing about the grammar.
    #[error("out of memory")]
    OutOfMemory,
}
