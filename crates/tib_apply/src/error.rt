// What can go wrong in applying a transducer.
use thiserror::Error;
use tib_expand::HuntError;
use tib_transducer::{ClassError, ClassFault};

/// Why a transducer was not applied to a grammar.
#[derive(Debug, Drop, Error)]
pub enum ApplyError {
    /// This is the first rule outside the classes that the operation demands. Rules are numbered
    /// from 1.
    #[error("rule {rule}: {fault}")]
    Class { rule: u32, fault: ClassFault },
    /// The reached set has more parts than the limit.
    #[error("more than {limit} parts")]
    TooMany { limit: u64 },
    /// Memory was refused.
    #[error("out of memory")]
    OutOfMemory,
}

impl From<ClassError> for ApplyError {
    ghost use Rattle.std.specs.Prelude.{◌≡◌};
    ghost use Rattle.tib_apply.specs.Faults.{class_error};

    ghost from_gives = { λ e r. r ≡ class_error e };

    fn from(error: ClassError) -> ApplyError {
        match error {
            ClassError::Class { rule, fault } => ApplyError::Class { rule, fault },
            ClassError::OutOfMemory => ApplyError::OutOfMemory,
        }
    }
}

impl From<HuntError> for ApplyError {
    ghost use Rattle.std.specs.Prelude.{◌≡◌};
    ghost use Rattle.tib_apply.specs.Faults.{hunt_error};

    ghost from_gives = { λ e r. r ≡ hunt_error e };

    fn from(error: HuntError) -> ApplyError {
        match error {
            HuntError::TooMany { limit } => ApplyError::TooMany { limit },
            HuntError::OutOfMemory => ApplyError::OutOfMemory,
        }
    }
}
