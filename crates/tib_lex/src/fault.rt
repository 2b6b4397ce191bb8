// What may be wrong with a file.
ghost use Rattle.std.specs.Prelude.{◌≡◌};
ghost use Rattle.tib_lex.specs.FaultOf.{file_error_of};

use std::alloc::AllocError;
use thiserror::Error;

/// What is wrong with a line of a file.
#[derive(Clone, Copy, Debug, PartialEq, Eq, Error)]
pub enum FaultKind {
    /// No line of the file has a token, so it has no start.
    #[error("no start")]
    NoStart,
    /// At some place of the line no token begins.
    #[error("bad token")]
    BadToken,
    /// The tokens are not a start in the start's place, or not a rule in a rule's place.
    #[error("bad rule")]
    BadRule,
    /// The tokens are not one tree.
    #[error("bad tree")]
    BadTree,
    /// A left-hand side is a variable alone.
    #[error("lone variable on the left")]
    LoneVariable,
    /// A variable occurs twice on a left-hand side.
    #[error("variable twice on the left")]
    VariableTwice,
    /// A right-hand side has a variable that its left-hand side lacks.
    #[error("unknown variable")]
    UnknownVariable,
    /// A weight is not a whole number.
    #[error("weight is not a whole number")]
    NotWhole,
    /// A weight is above the greatest one.
    #[error("weight too large")]
    WeightTooLarge,
    /// A tree has too many nodes, or a string too many words.
    #[error("too many nodes")]
    TooManyNodes,
    /// The tokens are not a string, an earlier line has a string, or the file has none.
    #[error("bad string")]
    BadString,
}

/// The first fault of a file. Lines are numbered from 1.
#[derive(Clone, Copy, Debug, PartialEq, Eq, Error)]
#[error("line {line}: {kind}")]
pub struct FileFault {
    pub line: u32,
    pub kind: FaultKind,
}

/// Why a file gave no value.
#[derive(Clone, Copy, Debug, PartialEq, Eq, Error)]
pub enum ReadError {
    /// The file has a fault, and this is its first.
    #[error("{0}")]
    Fault(FileFault),
    /// Memory was refused.
    #[error("out of memory")]
    OutOfMemory,
}

impl From<AllocError> for ReadError {
    ghost use Rattle.std.specs.Prelude.{◌≡◌};
    ghost use Rattle.tib_lex.specs.declared.fault.ReadError.TheVariants.{OutOfMemory};

    ghost from_gives = { λ _ e. e ≡ OutOfMemory };

    fn from(_: AllocError) -> Self {
        ReadError::OutOfMemory
    }
}

/// Why a line gave no value.
#[derive(Clone, Copy, Debug, PartialEq, Eq, Error)]
pub enum LineError {
    /// The line has a fault.
    #[error("{0}")]
    Fault(FaultKind),
    /// Memory was refused.
    #[error("out of memory")]
    OutOfMemory,
}

impl From<AllocError> for LineError {
    ghost use Rattle.std.specs.Prelude.{◌≡◌};
    ghost use Rattle.tib_lex.specs.declared.fault.LineError.TheVariants.{OutOfMemory};

    ghost from_gives = { λ _ e. e ≡ OutOfMemory };

    fn from(_: AllocError) -> Self {
        LineError::OutOfMemory
    }
}

/// The error of the line with this number, as one of its file. Takes no memory.
pub fn file_error(line: u32, error: LineError) -> ReadError
    ensures { result ≡ file_error_of line error }
{
    match error {
        LineError::Fault(kind) => ReadError::Fault(FileFault { line, kind }),
        LineError::OutOfMemory => ReadError::OutOfMemory,
    }
}
