ghost use Rattle.std.specs.Prelude.{◌≡◌};
ghost use Rattle.clap.specs.Values.{kind_of};
ghost use Rattle.redo_args.specs.declared.words_fault.WordsFault.TheVariants.{OutOfMemory};
ghost use Rattle.redo_args.specs.Words.{fault_of_kind};

use clap::Error;
use clap::error::ErrorKind;
use std::alloc::{AllocError, AllocFailed};

/// Why the command-line arguments describe no job.
#[derive(Clone, Copy, Debug, PartialEq, Eq)]
pub enum WordsFault {
    /// They request the help text.
    Help,
    /// An argument is rejected: an option is unknown, is given twice, lacks its value or has one that it
    /// doesn't take; a number is malformed or out of range; or no target is requested.
    Refused,
    /// An allocation failed.
    OutOfMemory,
}

impl From<AllocError> for WordsFault {
    ghost from_gives = { λ _ fault. fault ≡ OutOfMemory };

    fn from(_: AllocError) -> WordsFault {
        WordsFault::OutOfMemory
    }
}

impl<T: Drop> From<AllocFailed<T>> for WordsFault {
    ghost from_gives = { λ _ fault. fault ≡ OutOfMemory };

    fn from(_: AllocFailed<T>) -> WordsFault {
        WordsFault::OutOfMemory
    }
}

impl From<Error> for WordsFault {
    ghost from_gives = { λ error fault. fault ≡ fault_of_kind (kind_of error) };

    fn from(error: Error) -> WordsFault {
        match error.kind() {
            ErrorKind::DisplayHelp => WordsFault::Help,
            ErrorKind::OutOfMemory => WordsFault::OutOfMemory,
            _ => WordsFault::Refused,
        }
    }
}
