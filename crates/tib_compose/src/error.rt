//! What can go wrong in composing two transducers.

use thiserror::Error;
use tib_expand::HuntError;
use tib_transducer::{ClassError, ClassFault};

/// Why two transducers were not composed.
#[derive(Debug, Drop, Error)]
pub enum ComposeError {
    /// This is the first rule of the second transducer outside the classes that composition
    /// demands. Rules are numbered from 1.
    #[error("rule {rule}: {fault}")]
    Class { rule: u32, fault: ClassFault },
    /// The reached set has more parts than the limit.
    #[error("more than {limit} parts")]
    TooMany { limit: u64 },
    /// Memory was refused.
    #[error("out of memory")]
    OutOfMemory,
}

impl From<ClassError> for ComposeError {
    ghost use Rattle.std.specs.Prelude.{◌≡◌};
    ghost use Rattle.tib_compose.specs.Faults.{class_error};

    ghost from_gives = { λ e r. r ≡ class_error e };

    fn from(error: ClassError) -> ComposeError {
        match error {
            ClassError::Class { rule, fault } => ComposeError::Class { rule, fault },
            ClassError::OutOfMemory => ComposeError::OutOfMemory,
        }
    }
}

impl From<HuntError> for ComposeError {
    ghost use Rattle.std.specs.Prelude.{◌≡◌};
    ghost use Rattle.tib_compose.specs.Faults.{hunt_error};

    ghost from_gives = { λ e r. r ≡ hunt_error e };

    fn from(error: HuntError) -> ComposeError {
        match error {
            HuntError::TooMany { limit } => ComposeError::TooMany { limit },
            HuntError::OutOfMemory => ComposeError::OutOfMemory,
        }
    }
}
