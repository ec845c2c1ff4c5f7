ghost use Rattle.std.specs.Prelude.{◌≡◌};
ghost use Rattle.redo_index.specs.declared.index_fault.IndexFault.TheVariants.{OutOfMemory};

use std::alloc::{AllocError, AllocFailed};

/// Why an index is rejected. Lines are counted from 1.
///
/// The fault belongs to the first line that is rejected. If several causes apply to that line, the first in this
/// order is reported.
#[derive(Clone, Copy, Debug, PartialEq, Eq)]
pub enum IndexFault {
    /// This line isn't a number, a space and a name, with or without the must-close flag.
    BadLine { line: u64 },
    /// An earlier line has the same number as this line.
    FidTwice { line: u64 },
    /// The names of this line and of an earlier line have the same normal form.
    NameTwice { line: u64 },
    /// There are more than 1,048,575 lines.
    TooMany,
    /// An allocation failed.
    OutOfMemory,
}

impl From<AllocError> for IndexFault {
    ghost from_gives = { λ _ fault. fault ≡ OutOfMemory };

    fn from(_: AllocError) -> IndexFault {
        IndexFault::OutOfMemory
    }
}

impl<T: Drop> From<AllocFailed<T>> for IndexFault {
    ghost from_gives = { λ _ fault. fault ≡ OutOfMemory };

    fn from(_: AllocFailed<T>) -> IndexFault {
        IndexFault::OutOfMemory
    }
}
