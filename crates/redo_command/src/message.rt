ghost use Rattle.std.specs.Prelude.{◌≡◌, ◌<◌, ◌++◌, IfOk, codes, decimal, flat_map, length};
ghost use Rattle.std.specs.String.{string_bytes};
ghost use Rattle.redo_command.specs.Failure.{IfStreamFailure, baseline_message, IfUnknownFailure, failure_message_as, index_message, message_line, with_line_number, stream_fault_text};
ghost use Rattle.redo_index.specs.Index.{listed_targets};
ghost use Rattle.redo_options.specs.Arguments.{argument_bytes};

use crate::baseline_fault::BaselineFault;
use crate::failure::Failure;
use itoa::Buffer;
use redo_args::WordsFault;
use redo_index::{Index, IndexFault};
use redo_line::StreamFault;
use redo_run::RunFault;
use std::alloc::{AllocError, Global};

/// Returns the error message of a program for a failure: one line, with its line feed, that begins with the program's
/// name. It is empty for help. Names and arguments are written byte for byte: a name as in the index, an argument as it
/// was given. `dir` is the capture directory that the failure is about; only a message about a baseline names it.
///
/// A stream's number must be a position in the index, and an argument's position must be one in `arguments`.
pub fn fault_line_as(
    alloc: Global,
    program: &str,
    dir: &str,
    failure: &Failure,
    index: &Index,
    arguments: &[Vec<u8>],
) -> Result<Vec<u8>, AllocError>
    requires stream_in_range { IfStreamFailure failure.now (λ number. number < length index.now) }
    requires argument_in_range { IfUnknownFailure failure.now (λ place. place < length arguments.now) }
    ensures { IfOk result (λ line.
        line.items ≡ failure_message_as program.now dir.now (listed_targets index.now) (argument_bytes arguments.now) failure.now) }
{
    match *failure {
        Failure::Words(WordsFault::Help) => Ok(Vec::new(alloc)),
        Failure::Words(WordsFault::Refused) => message_line(alloc, program, &[b"bad command line"]),
        Failure::Words(WordsFault::OutOfMemory) => message_line(
            alloc,
            program,
            &[b"out of memory"],
        ),
        Failure::NamesMissing => message_line(alloc, program, &[b"names: cannot be read"]),
        Failure::NamesRead => message_line(alloc, program, &[b"names: cannot be read"]),
        Failure::Index(fault) => index_message(alloc, program, fault),
        Failure::Run(RunFault::Unknown { place }) => message_line(
            alloc,
            program,
            &[&arguments[place], b": not known"],
        ),
        Failure::Run(RunFault::Stream { number, fault }) => {
            stream_message(alloc, program, index.name(number).bytes(), fault)
        }
        Failure::Run(RunFault::OutOfMemory) => message_line(alloc, program, &[b"out of memory"]),
        Failure::Run(RunFault::Write) => message_line(alloc, program, &[b"cannot write"]),
        Failure::Memory => message_line(alloc, program, &[b"out of memory"]),
        Failure::Baseline(fault) => {
            let names = baseline_names(alloc, program, dir)?;
            baseline_message(alloc, &names, fault)
        }
    }
}

// Returns the beginning of an error message about a baseline: the names of the program and of the baseline.
fn baseline_names(alloc: Global, program: &str, dir: &str) -> Result<String, AllocError>
    ensures { IfOk result (λ names. string_bytes names ≡ program.now ++ codes ": baseline " ++ dir.now) }
{
    [program, ": baseline ", dir].concat(alloc)
}

fn baseline_message(alloc: Global, names: &str, fault: BaselineFault) -> Result<Vec<u8>, AllocError>
    ensures { IfOk result (λ line. line.items ≡ baseline_message names.now fault) }
{
    match fault {
        BaselineFault::NamesMissing => message_line(alloc, names, &[b"names: cannot be read"]),
        BaselineFault::NamesRead => message_line(alloc, names, &[b"names: cannot be read"]),
        BaselineFault::Index(fault) => index_message(alloc, names, fault),
        BaselineFault::Log { number, fault, .. } => {
            let log = log_name(alloc, number)?;
            stream_message(alloc, names, log.as_bytes(), fault)
        }
    }
}

// Returns the name of the log file with this number.
fn log_name(alloc: Global, number: u32) -> Result<String, AllocError>
    ensures { IfOk result (λ name. string_bytes name ≡ codes "log." ++ decimal number) }
{
    let mut buffer = Buffer::new();
    ["log.", buffer.format(number)].concat(alloc)
}

fn index_message(alloc: Global, program: &str, fault: IndexFault) -> Result<Vec<u8>, AllocError>
    ensures { IfOk result (λ line. line.items ≡ index_message program.now fault) }
{
    match fault {
        IndexFault::BadLine { line } => message_at_line(
            alloc,
            program,
            b"names",
            line,
            b"bad line",
        ),
        IndexFault::FidTwice { line } => {
            message_at_line(alloc, program, b"names", line, b"number listed twice")
        }
        IndexFault::NameTwice { line } => message_at_line(
            alloc,
            program,
            b"names",
            line,
            b"name listed twice",
        ),
        IndexFault::TooMany => message_line(alloc, program, &[b"names: too many names"]),
        IndexFault::OutOfMemory => message_line(alloc, program, &[b"out of memory"]),
    }
}

fn stream_message(
    alloc: Global,
    program: &str,
    name: &[u8],
    fault: StreamFault,
) -> Result<Vec<u8>, AllocError>
    ensures { IfOk result (λ line. line.items ≡ message_line program.now (stream_fault_text name.now fault)) }
{
    match fault {
        StreamFault::BadRecord { line } => message_at_line(
            alloc,
            program,
            name,
            line,
            b"bad record",
        ),
        StreamFault::AfterClose { line } => {
            message_at_line(alloc, program, name, line, b"after the closing record")
        }
        StreamFault::TooLong => message_line(alloc, program, &[name, b": too long"]),
        StreamFault::Read => message_line(alloc, program, &[name, b": cannot be read"]),
        StreamFault::OutOfMemory => message_line(alloc, program, &[b"out of memory"]),
        StreamFault::NotClosed => message_line(alloc, program, &[name, b": not closed"]),
    }
}

fn message_at_line(
    alloc: Global,
    program: &str,
    subject: &[u8],
    number: u64,
    cause: &[u8],
) -> Result<Vec<u8>, AllocError>
    ensures { IfOk result (λ line. line.items ≡ message_line program.now (subject.now ++ codes ": " ++ with_line_number number cause.now)) }
{
    let mut buffer = Buffer::new();
    let number = buffer.format(number).as_bytes();
    message_line(alloc, program, &[subject, b": line ", number, b": ", cause])
}

// Returns an error message with these parts, concatenated.
pub(crate) fn message_line(
    alloc: Global,
    program: &str,
    parts: &[&[u8]],
) -> Result<Vec<u8>, AllocError>
    ensures { IfOk result (λ line. line.items ≡ message_line program.now (flat_map (λ part. part.now) parts.now)) }
{
    let text = parts.concat(alloc)?;
    [program.as_bytes(), b": ", &text, b"\n"].concat(alloc)
}
