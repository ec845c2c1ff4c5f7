ghost use Rattle.std.specs.Prelude.{◌≡◌};
ghost use Rattle.redo_command.specs.declared.failure.Failure.TheVariants.{Memory};
ghost use Rattle.redo_command.specs.Failure.{baseline_status, index_status, status_of, stream_status};

use crate::baseline_fault::BaselineFault;
use redo_args::WordsFault;
use redo_index::IndexFault;
use redo_line::StreamFault;
use redo_run::RunFault;
use std::alloc::{AllocError, AllocFailed};
use thiserror::Error;

/// Why the program did not write the whole text. `fault_line_as` returns the error message.
#[derive(Clone, Copy, Debug, PartialEq, Eq, Error)]
pub enum Failure {
    /// The command-line arguments request no run.
    #[error("no run is requested: {0:?}")]
    Words(WordsFault),
    /// There is no file `names`.
    #[error("there is no index")]
    NamesMissing,
    /// The file `names` can't be read, or has more than 1,073,741,824 bytes.
    #[error("the index can't be read")]
    NamesRead,
    /// The index is rejected.
    #[error("the index is rejected: {0:?}")]
    Index(IndexFault),
    /// The run did not write the whole text.
    #[error("the run did not write the whole text: {0:?}")]
    Run(RunFault),
    /// An allocation failed before the run began.
    #[error("out of memory")]
    Memory,
    /// The baseline has no logs. All else is in order, but nothing was written.
    #[error("the baseline has no logs: {0:?}")]
    Baseline(BaselineFault),
}

impl From<AllocError> for Failure {
    ghost from_gives = { λ _ failure. failure ≡ Memory };

    fn from(_: AllocError) -> Failure {
        Failure::Memory
    }
}

impl<T: Drop> From<AllocFailed<T>> for Failure {
    ghost from_gives = { λ _ failure. failure ≡ Memory };

    fn from(_: AllocFailed<T>) -> Failure {
        Failure::Memory
    }
}

/// Returns the exit status for this failure. docs/redo-log.1 has the table.
pub fn status(failure: &Failure) -> u8
    ensures { result ≡ status_of failure.now }
{
    match *failure {
        Failure::Words(WordsFault::Help) => 0,
        Failure::Words(WordsFault::Refused) => 2,
        Failure::Index(fault) => index_status(fault),
        Failure::Run(RunFault::Stream { fault, .. }) => stream_status(fault),
        Failure::NamesMissing | Failure::NamesRead => 5,
        Failure::Run(RunFault::Write) => 6,
        Failure::Run(RunFault::Unknown { .. }) => 24,
        Failure::Words(WordsFault::OutOfMemory) | Failure::Run(RunFault::OutOfMemory) => 7,
        Failure::Memory => 7,
        Failure::Baseline(fault) => baseline_status(fault),
    }
}

// Returns the exit status, which the same fault of the build's own capture has, too.
fn baseline_status(fault: BaselineFault) -> u8
    ensures { result ≡ baseline_status fault }
{
    match fault {
        BaselineFault::NamesMissing | BaselineFault::NamesRead => 5,
        BaselineFault::Index(fault) => index_status(fault),
        BaselineFault::Log { fault, .. } => stream_status(fault),
    }
}

fn index_status(fault: IndexFault) -> u8
    ensures { result ≡ index_status fault }
{
    match fault {
        IndexFault::OutOfMemory => 7,
        _ => 3,
    }
}

fn stream_status(fault: StreamFault) -> u8
    ensures { result ≡ stream_status fault }
{
    match fault {
        StreamFault::BadRecord { .. } => 4,
        StreamFault::AfterClose { .. } => 4,
        StreamFault::TooLong => 4,
        StreamFault::Read => 5,
        StreamFault::OutOfMemory => 7,
        StreamFault::NotClosed => 4,
    }
}
