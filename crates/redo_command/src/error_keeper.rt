//! A writer that keeps why another one failed.
ghost use Rattle.std.specs.Prelude.{◌≡◌};
ghost use Rattle.std.specs.IoError.{error_kind};
ghost use Rattle.redo_command.specs.Private.Opening.{write_error_of};

use std::io;
use std::io::{ErrorKind, Write};

/// Why a write failed.
#[derive(Clone, Copy, Debug, PartialEq, Eq)]
pub enum WriteError {
    /// No space is left on the device.
    NoSpace,
    /// The user's quota is used up.
    QuotaExceeded,
    /// The other end of the pipe was closed.
    ClosedPipe,
    /// Any other error.
    Other,
}

/// A writer that keeps why another one failed last.
#[derive(Drop)]
pub struct ErrorKeeper<'a, W: Write> {
    out: &'a mut W,
    error: Option<WriteError>,
}

impl<'a, W: Write> ErrorKeeper<'a, W> {
    /// Returns a writer to `out`, which hasn't failed yet.
    pub fn new(out: &'a mut W) -> ErrorKeeper<'a, W> {
        ErrorKeeper { out, error: None }
    }

    /// Returns why the last write or flush failed that did, if any.
    pub fn error(&self) -> Option<WriteError> {
        self.error
    }
}

impl<W: Write> Write for ErrorKeeper<'_, W> {
    fn write(&mut self, buf: &[u8]) -> io::Result<usize> {
        match self.out.write(buf) {
            Ok(n) => Ok(n),
            Err(error) => {
                self.error = Some(write_error_of(&error));
                Err(error)
            }
        }
    }

    fn flush(&mut self) -> io::Result<()> {
        match self.out.flush() {
            Ok(()) => Ok(()),
            Err(error) => {
                self.error = Some(write_error_of(&error));
                Err(error)
            }
        }
    }
}

// Returns why a write failed, from its error.
fn write_error_of(error: &io::Error) -> WriteError
    ensures { result ≡ write_error_of (error_kind error.now) }
{
    match error.kind() {
        ErrorKind::StorageFull => WriteError::NoSpace,
        ErrorKind::QuotaExceeded => WriteError::QuotaExceeded,
        ErrorKind::BrokenPipe => WriteError::ClosedPipe,
        _ => WriteError::Other,
    }
}
