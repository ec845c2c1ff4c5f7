ghost use Rattle.std.specs.Prelude.{◌≡◌};
ghost use Rattle.redo_gather.specs.declared.gather_fault.GatherFault.TheVariants.{OutOfMemory};
ghost use Rattle.redo_gather.specs.Private.GatherFault.{fault_of_stream};

use redo_line::StreamFault;
use std::alloc::{AllocError, AllocFailed};

/// Why a gathering has no logs.
#[derive(Clone, Copy, Debug, PartialEq, Eq)]
pub enum GatherFault {
    /// This stream has no log; streams are counted from 0. No gathering returns this with the fault
    /// `OutOfMemory`.
    Stream { number: u32, fault: StreamFault },
    /// Memory ran out.
    OutOfMemory,
}

impl GatherFault {
    // Returns the gathering's fault for the fault of a stream.
    pub(crate) fn of(number: u32, fault: StreamFault) -> GatherFault
        ensures { result ≡ fault_of_stream number fault }
    {
        match fault {
            StreamFault::OutOfMemory => GatherFault::OutOfMemory,
            fault => GatherFault::Stream { number, fault },
        }
    }
}

impl From<AllocError> for GatherFault {
    ghost from_gives = { λ _ fault. fault ≡ OutOfMemory };

    fn from(_: AllocError) -> GatherFault {
        GatherFault::OutOfMemory
    }
}

impl<T: Drop> From<AllocFailed<T>> for GatherFault {
    ghost from_gives = { λ _ fault. fault ≡ OutOfMemory };

    fn from(_: AllocFailed<T>) -> GatherFault {
        GatherFault::OutOfMemory
    }
}
