ghost use Rattle.std.specs.Prelude.{◌≡◌};
ghost use Rattle.redo_logs.specs.declared.table_fault.TableFault.TheVariants.{OutOfMemory};

use std::alloc::{AllocError, AllocFailed};

/// Why a log can't be added. If several causes apply, the first in this order is reported.
#[derive(Clone, Copy, Debug, PartialEq, Eq)]
pub enum TableFault {
    /// The table has a log of this target already.
    Twice,
    /// The table holds 1,048,575 logs.
    Full,
    /// An allocation failed.
    OutOfMemory,
}

impl<T: Drop> From<AllocFailed<T>> for TableFault {
    ghost from_gives = { λ _ fault. fault ≡ OutOfMemory };

    fn from(_: AllocFailed<T>) -> TableFault {
        TableFault::OutOfMemory
    }
}

impl From<AllocError> for TableFault {
    ghost from_gives = { λ _ fault. fault ≡ OutOfMemory };

    fn from(_: AllocError) -> TableFault {
        TableFault::OutOfMemory
    }
}
