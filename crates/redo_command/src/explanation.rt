//! What to do about a failure: one more line after its error message.
//!
//! Other programs may read the first line alone, so `redo-log` prints a second one only after `--explain`, the first argument,
//! which `shell/launcher` adds. Completions don't offer it.
ghost use Rattle.std.specs.Prelude.{◌≡◌, ◌<◌, length, map, IfErr, IfOk};
ghost use Rattle.std.specs.String.{string_bytes};
ghost use Rattle.redo_args.specs.Rejection.{rejection};
ghost use Rattle.redo_command.specs.Explanation.{explanation_as, fault_explanation_as, outcome_explanation_as, rejection_explanation, arguments_explanation};
ghost use Rattle.redo_command.specs.Failure.{IfStreamFailure, IfUnknownFailure, IsReportable};
ghost use Rattle.redo_options.specs.Arguments.{argument_bytes};

use crate::directory::Shown;
use crate::error_keeper::WriteError;
use crate::failure::Failure;
use crate::message::message_line;
use crate::remedy::{memory_remedy, remedy};
use redo_args::{CommandLine, WordsFault, explain_rejection};
use redo_index::Index;
use std::alloc::{AllocError, Global};
use std::io::Write;

/// The maximum number of arguments among which the rejected one is looked for. The time is quadratic in it.
const MAX_EXPLAINED_ARGUMENTS: usize = 1_000;

/// Writes what to do about arguments that describe no job, if anything is known. The line is [`fault_explanation_as`]; it is
/// lost if an allocation for it fails or if it can't be written.
pub fn explain_fault<C: CommandLine, E: Write>(
    alloc: Global,
    program: &str,
    command_line: &C,
    arguments: &[String],
    fault: WordsFault,
    err: &mut E,
) {
    write_line(
        fault_explanation_as(alloc, program, command_line, arguments, fault),
        err,
    );
}

/// Writes what to do about a failure to show logs, if there is one and anything is known. The line is
/// [`outcome_explanation_as`]; it is lost if an allocation for it fails or if it can't be written.
pub fn explain_shown<E: Write>(
    alloc: Global,
    program: &str,
    dir: &str,
    output: &str,
    shown: &Shown,
    arguments: &[Vec<u8>],
    err: &mut E,
)
    requires { IfErr shown.now.outcome (IsReportable (length shown.now.index) (length arguments.now)) }
{
    write_line(
        outcome_explanation_as(alloc, program, dir, output, shown, arguments),
        err,
    );
}

fn write_line<E: Write>(line: Result<Vec<u8>, AllocError>, err: &mut E) {
    if let Ok(line) = line {
        let _ = err.write_all(&line).and_then(|()| err.flush());
    }
}

/// Returns what to do about arguments that describe no job: one line, with its line feed, that begins with the program's
/// name. It is empty for help, and if more than 1,000 arguments are rejected.
pub fn fault_explanation_as<C: CommandLine>(
    alloc: Global,
    program: &str,
    command_line: &C,
    arguments: &[String],
    fault: WordsFault,
) -> Result<Vec<u8>, AllocError>
    ensures { IfOk result (λ line.
        line.items ≡ fault_explanation_as program.now (C.app command_line.now) (map string_bytes arguments.now) fault) }
{
    match fault {
        WordsFault::Help => Ok(Vec::new(alloc)),
        WordsFault::Refused => rejection_line(alloc, program, command_line, arguments),
        WordsFault::OutOfMemory => {
            let text = memory_remedy(alloc)?;
            message_line(alloc, program, &[&text])
        }
    }
}

// Returns why the arguments of a program are rejected; an empty line if there are more than 1,000.
fn rejection_line<C: CommandLine>(
    alloc: Global,
    program: &str,
    command_line: &C,
    arguments: &[String],
) -> Result<Vec<u8>, AllocError>
    ensures { IfOk result (λ line.
        line.items ≡ rejection_explanation program.now (C.app command_line.now) (map string_bytes arguments.now)) }
{
    if arguments.len() <= MAX_EXPLAINED_ARGUMENTS {
        explain_arguments_as(alloc, program, command_line, arguments)
    } else {
        Ok(Vec::new(alloc))
    }
}

/// Returns why the arguments of a program are rejected: one line, with its line feed, that begins with the program's name.
/// The reason isn't `clap`'s text of its error, because `clap`'s contract states only the kind of the error.
pub fn explain_arguments_as<C: CommandLine>(
    alloc: Global,
    program: &str,
    command_line: &C,
    arguments: &[String],
) -> Result<Vec<u8>, AllocError>
    ensures { IfOk result (λ line.
        line.items ≡ arguments_explanation program.now (rejection (C.app command_line.now) (map string_bytes arguments.now))) }
{
    let reason = explain_rejection(alloc, command_line, arguments)?;
    message_line(alloc, program, &[&reason, b"; try --help"])
}

/// Returns what to do about an outcome of showing logs; it is empty if the whole text was written. The rest is as for
/// [`explanation_as`].
pub fn outcome_explanation_as(
    alloc: Global,
    program: &str,
    dir: &str,
    output: &str,
    shown: &Shown,
    arguments: &[Vec<u8>],
) -> Result<Vec<u8>, AllocError>
    requires { IfErr shown.now.outcome (IsReportable (length shown.now.index) (length arguments.now)) }
    ensures { IfOk result (λ line. line.items
        ≡ outcome_explanation_as program.now dir.now output.now shown.now.write_error shown.now.index (argument_bytes arguments.now)
        shown.now.outcome) }
{
    match &shown.outcome {
        Ok(()) => Ok(Vec::new(alloc)),
        Err(failure) => {
            explanation_as(
                alloc,
                program,
                dir,
                output,
                shown.write_error,
                failure,
                &shown.index,
                arguments,
            )
        }
    }
}

/// Returns what to do about a failure to show logs: one line, with its line feed, that begins with the program's name.
/// It says which file `names` is missing, which targets may be meant, how many there are, or which command leaves a damaged
/// log out. It is empty if no remedy is known. `dir` is the capture directory that the failure is about, and `output` the path of
/// the output. The rest is as for [`crate::fault_line_as`].
pub fn explanation_as(
    alloc: Global,
    program: &str,
    dir: &str,
    output: &str,
    write_error: Option<WriteError>,
    failure: &Failure,
    index: &Index,
    arguments: &[Vec<u8>],
) -> Result<Vec<u8>, AllocError>
    requires stream_in_range { IfStreamFailure failure.now (λ number. number < length index.now) }
    requires argument_in_range { IfUnknownFailure failure.now (λ place. place < length arguments.now) }
    ensures { IfOk result (λ line. line.items
        ≡ explanation_as program.now dir.now output.now write_error index.now (argument_bytes arguments.now) failure.now) }
{
    let text = remedy(alloc, dir, output, write_error, failure, index, arguments)?;
    if text.is_empty() {
        Ok(text)
    } else {
        message_line(alloc, program, &[&text])
    }
}
