ghost use Rattle.redo_line.specs.declared.stream_fault.StreamFault.TheVariants.{OutOfMemory};
ghost use Rattle.std.specs.Prelude.{◌≡◌};

use std::alloc::{AllocError, AllocFailed};

/// Why a stream has no log. Lines are counted from 1.
#[derive(Clone, Copy, Debug, PartialEq, Eq)]
pub enum StreamFault {
    /// The line is ended and begins with the record prefix, but is not a record.
    BadRecord { line: u64 },
    /// The line is after the closing record.
    AfterClose { line: u64 },
    /// The stream has more bytes than the limit.
    TooLong,
    /// A read failed. An interrupted read counts as failed.
    Read,
    /// An allocation failed.
    OutOfMemory,
    /// The stream must end with its closing record, but doesn't.
    NotClosed,
}

impl From<AllocError> for StreamFault {
    ghost from_gives = { λ _ fault. fault ≡ OutOfMemory };

    fn from(_: AllocError) -> StreamFault {
        StreamFault::OutOfMemory
    }
}

impl<T: Drop> From<AllocFailed<T>> for StreamFault {
    ghost from_gives = { λ _ fault. fault ≡ OutOfMemory };

    fn from(_: AllocFailed<T>) -> StreamFault {
        StreamFault::OutOfMemory
    }
}
