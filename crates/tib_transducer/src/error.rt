// What can be wrong with the class of a transducer.
use std::alloc::AllocError;
use thiserror::Error;

/// Why a rule is outside the classes that are demanded.
#[derive(Debug, PartialEq, Eq, Clone, Copy, Error)]
pub enum ClassFault {
    /// A variable occurs twice on its right side.
    #[error("not linear")]
    NotLinear,
    /// A variable of its left side does not occur on its right side.
    #[error("not nondeleting")]
    NotNondeleting,
    /// Its left side has more than one label.
    #[error("extended")]
    Extended,
    /// A variable of its left side has a label.
    #[error("labelled")]
    Labelled,
    /// Its right side is a lone pair.
    #[error("not strict")]
    NotStrict,
}

/// Why an operation cannot work on a transducer.
#[derive(Debug, Drop, Error)]
pub enum ClassError {
    /// This is the first rule outside the classes that the operation demands. Rules are numbered
    /// from 1.
    #[error("rule {rule}: {fault}")]
    Class { rule: u32, fault: ClassFault },
    /// Memory was refused. This says nothing about the transducer.
    #[error("out of memory")]
    OutOfMemory,
}

impl From<AllocError> for ClassError {
    ghost use Rattle.std.specs.Prelude.{◌≡◌};
    ghost use Rattle.tib_transducer.specs.declared.error.ClassError.TheVariants.{OutOfMemory};

    ghost from_gives = { λ _ e. e ≡ OutOfMemory };

    fn from(_: AllocError) -> ClassError {
        ClassError::OutOfMemory
    }
}
