// How a run ends.
ghost use Rattle.std.specs.Prelude.{◌≡◌};
ghost use Rattle.tib_operations.specs.Codes.{code_of};

use tib_lex::FileFault;
use tib_transducer::ClassFault;

/// How a run ended. `file` counts the files of the command from 1.
#[derive(Clone, Copy, Debug, PartialEq, Eq)]
pub enum Status {
    /// The whole text was written, and the output is finished.
    Done,
    /// The words are not in the word language.
    Usage,
    /// The bytes of a file are no value of its kind within the limits; this is its first fault.
    BadInput {
        file: u32,
        fault: FileFault,
    },
    /// The operation demands a class of the transducer of a file. This rule, counted from 1, is the
    /// first that is not of it.
    Class {
        file: u32,
        rule: u32,
        fault: ClassFault,
    },
    /// A constructed object has more than `limit` parts.
    TooMany {
        limit: u64,
    },
    /// A tree has more than 10,000 nodes. In a list of cheapest trees, some state that is useful
    /// in the grammar or in a level of it has such a tree among its cheapest trees, as many as were
    /// asked for. In a comparison of two grammars, the least tree that only one of them has is such
    /// a tree.
    TreeTooLarge,
    /// A read of a file failed.
    ReadFault {
        file: u32,
    },
    /// The output failed; a front of the text was written.
    WriteFault,
    /// A file has more than 8,388,608 bytes.
    TooLong {
        file: u32,
    },
    /// Memory was refused, or a table, a list or a number would exceed a size that the code sets
    /// for it, as 2^32 states. Nothing was written.
    OutOfMemory,
}

impl Status {
    /// The exit code of the program: 0 for `Done`, otherwise from 2 to 10.
    pub fn code(&self) -> u8
        ensures { result ≡ code_of self.now }
    {
        match self {
            Status::Done => 0,
            Status::Usage => 2,
            Status::BadInput { .. } => 3,
            Status::Class { .. } => 4,
            Status::TooMany { .. } => 5,
            Status::TreeTooLarge => 6,
            Status::ReadFault { .. } => 7,
            Status::WriteFault => 8,
            Status::TooLong { .. } => 9,
            Status::OutOfMemory => 10,
        }
    }
}
