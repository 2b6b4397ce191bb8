//! Why keys are not numbered: there are too many parts, or memory is refused.

use thiserror::Error;

/// Why a hunt answers no reached set.
#[derive(Debug, Drop, PartialEq, Eq, Error)]
pub enum HuntError {
    /// The reached set has more parts than the limit.
    #[error("more than {limit} parts")]
    TooMany { limit: u64 },
    /// Memory was refused.
    #[error("out of memory")]
    OutOfMemory,
}
