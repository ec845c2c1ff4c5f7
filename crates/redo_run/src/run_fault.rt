ghost use Rattle.std.specs.Prelude.{◌≡◌};
ghost use Rattle.redo_run.specs.declared.run_fault.RunFault.TheVariants.{OutOfMemory};
ghost use Rattle.redo_run.specs.RunFault.{run_fault_of_gather};

use redo_gather::GatherFault;
use redo_line::StreamFault;
use std::alloc::{AllocError, AllocFailed};

/// Why a run showed nothing, or not the whole text. An unknown argument takes precedence over a stream
/// with a fault.
#[derive(Clone, Copy, Debug, PartialEq, Eq)]
pub enum RunFault {
    /// The argument at this position names no target, or is empty. Positions are counted from 0, and it
    /// is the first such argument. Nothing was written.
    Unknown { place: usize },
    /// The stream with this number has a fault, and no log. Streams are counted from 0, and it is the
    /// lowest-numbered one with a fault. `run` never reports a failed allocation this way. Nothing was
    /// written.
    Stream { number: u32, fault: StreamFault },
    /// An allocation failed. A prefix of the text was written, possibly an empty one.
    OutOfMemory,
    /// A write failed. A prefix of the text was written, possibly an empty one.
    Write,
}

impl From<AllocError> for RunFault {
    ghost from_gives = { λ _ fault. fault ≡ OutOfMemory };

    fn from(_: AllocError) -> RunFault {
        RunFault::OutOfMemory
    }
}

impl<T: Drop> From<AllocFailed<T>> for RunFault {
    ghost from_gives = { λ _ fault. fault ≡ OutOfMemory };

    fn from(_: AllocFailed<T>) -> RunFault {
        RunFault::OutOfMemory
    }
}

impl From<GatherFault> for RunFault {
    ghost from_gives = { λ gathering fault. fault ≡ run_fault_of_gather gathering };

    fn from(fault: GatherFault) -> RunFault {
        match fault {
            GatherFault::Stream { number, fault } => RunFault::Stream { number, fault },
            GatherFault::OutOfMemory => RunFault::OutOfMemory,
        }
    }
}
