ghost use Rattle.std.specs.Prelude.{◌≡◌, ◌<◌, IfOk, length};
ghost use Rattle.redo_command.specs.Failure.{IfStreamFailure, IfUnknownFailure};
ghost use Rattle.redo_index.specs.Index.{listed_targets};
ghost use Rattle.redo_log_cli.specs.Message.{failure_message};
ghost use Rattle.redo_options.specs.Arguments.{argument_bytes};

use redo_command::{Failure, fault_line_as};
use redo_index::Index;
use std::alloc::{AllocError, Global};

/// Returns the error message of `redo-log` for a failure: one line, with its line feed. The rest is as for
/// [`fault_line_as`].
pub fn fault_line(
    alloc: Global,
    failure: &Failure,
    index: &Index,
    arguments: &[Vec<u8>],
) -> Result<Vec<u8>, AllocError>
    requires stream_in_range { IfStreamFailure failure.now (λ number. number < length index.now) }
    requires argument_in_range { IfUnknownFailure failure.now (λ place. place < length arguments.now) }
    ensures { IfOk result (λ line. line.items ≡ failure_message (listed_targets index.now) (argument_bytes arguments.now) failure.now) }
{
    fault_line_as(alloc, "redo-log", "", failure, index, arguments)
}
