//! A buffer before a writer of std.
ghost use Rattle.redo_command.specs.Output.{IsClosedAfter};

use crate::failure::Failure;
use redo_line::Writing;
use redo_run::RunFault;
use std::alloc::{AllocError, Global};
use std::io::{BufWriter, Write};

/// The size of the buffer.
const WRITE_BYTES: usize = 64 * 1024;

/// Creates a buffer before a writer. End it with [`flush_after`].
pub fn buffered<W: Write + Drop>(
    alloc: Global,
    out: W,
) -> Result<Writing<BufWriter<W>>, AllocError> {
    match BufWriter::with_capacity(alloc, WRITE_BYTES, out) {
        Ok(buffer) => Ok(Writing(buffer)),
        Err(_) => Err(AllocError),
    }
}

/// Flushes a buffer if the whole text was written to it. After a failure, the rest of the buffer is dropped, so that
/// nothing is written after the failure. The failure stays the failure.
pub fn flush_after<W: Write + Drop>(
    outcome: Result<(), Failure>,
    out: Writing<BufWriter<W>>,
) -> Result<(), Failure>
    ensures { IsClosedAfter outcome result }
{
    let Writing(mut buffer) = out;
    let flushed = match outcome {
        Ok(()) => flush(&mut buffer),
        Err(failure) => Err(failure),
    };
    let _ = buffer.into_parts();
    flushed
}

fn flush<W: Write>(out: &mut W) -> Result<(), Failure>
    ensures { IsClosedAfter (Ok tt) result }
{
    match out.flush() {
        Ok(()) => Ok(()),
        Err(_) => Err(Failure::Run(RunFault::Write)),
    }
}
