// What can go wrong.
ghost use Rattle.std.specs.Prelude.{◌≡◌};

use std::alloc::AllocError;
use thiserror::Error;

/// Why there is no normal form.
#[derive(Debug, Drop, Error)]
pub enum NormalError {
    /// The normal form has more parts than the limit.
    #[error("more than {limit} parts")]
    TooMany { limit: u64 },
    /// Memory was refused. This says nothing about the grammar.
    #[error("out of memory")]
    OutOfMemory,
}

impl From<AllocError> for NormalError {
    ghost use Rattle.std.specs.Prelude.{◌≡◌};
    ghost use Rattle.tib_normal.specs.declared.error.NormalError.TheVariants.{OutOfMemory};

    ghost from_gives = { λ _ r. r ≡ OutOfMemory };

    fn from(_: AllocError) -> NormalError {
        NormalError::OutOfMemory
    }
}
