//! What to do about a failure: the text of an explanation.
ghost use Rattle.std.specs.Prelude.{◌≡◌, ◌<◌, ◌++◌, length, IfOk};
ghost use Rattle.redo_command.specs.Explanation.{baseline_remedy, index_remedy, leave_line_out, leave_out, memory_remedy, names_word, open_logs, read_remedy, remedy, stream_remedy, targets_remedy, unknown_remedy, unreadable_log, unreadable_names, unwritable, write_remedy};
ghost use Rattle.redo_command.specs.Failure.{IfStreamFailure, IfUnknownFailure};
ghost use Rattle.redo_options.specs.Arguments.{argument_bytes};

use crate::baseline_fault::BaselineFault;
use crate::error_keeper::WriteError;
use crate::failure::Failure;
use crate::suggestions::{push_listed, suggestions};
use crate::text::{concat, file_word, push, push_number, push_quoted};
use itoa::Buffer;
use redo_index::{Index, IndexFault};
use redo_line::StreamFault;
use redo_run::RunFault;
use std::alloc::{AllocError, Global};

/// From this number of open logs on, a log may be unreadable because too many files are open.
const MANY_LOGS: u32 = 16;

pub(crate) fn remedy(
    alloc: Global,
    dir: &str,
    output: &str,
    write_error: Option<WriteError>,
    failure: &Failure,
    index: &Index,
    arguments: &[Vec<u8>],
) -> Result<Vec<u8>, AllocError>
    requires stream_in_range { IfStreamFailure failure.now (λ number. number < length index.now) }
    requires argument_in_range { IfUnknownFailure failure.now (λ place. place < length arguments.now) }
    ensures { IfOk result (λ text.
        text.items ≡ remedy dir.now output.now write_error index.now (argument_bytes arguments.now) failure.now) }
{
    match *failure {
        Failure::Run(RunFault::Unknown { place }) => {
            let names = suggestions(alloc, &arguments[place], index)?;
            unknown_remedy(alloc, dir, index.len(), &names)
        }
        Failure::Run(RunFault::Stream { number, fault }) => {
            let fid = index.fid(number);
            stream_remedy(alloc, dir, number, fid, fault)
        }
        Failure::NamesMissing => about_names(
            alloc,
            b"no file ",
            dir,
            b"; without --dir DIR, a capture is looked for here, in .redo-log and in capture",
        ),
        Failure::NamesRead => unreadable_names(alloc, dir),
        Failure::Index(fault) => index_remedy(alloc, dir, fault),
        Failure::Run(RunFault::OutOfMemory) => memory_remedy(alloc),
        Failure::Run(RunFault::Write) => write_remedy(alloc, output, write_error),
        Failure::Memory => memory_remedy(alloc),
        Failure::Words(_) => Ok(Vec::new(alloc)),
        Failure::Baseline(fault) => baseline_remedy(alloc, dir, fault),
    }
}

// Returns what to do about a fault of a baseline.
fn baseline_remedy(alloc: Global, dir: &str, fault: BaselineFault) -> Result<Vec<u8>, AllocError>
    ensures { IfOk result (λ text. text.items ≡ baseline_remedy dir.now fault) }
{
    match fault {
        BaselineFault::NamesMissing => about_names(
            alloc,
            b"no file ",
            dir,
            b"; --baseline takes the capture directory of an earlier build",
        ),
        BaselineFault::NamesRead => unreadable_names(alloc, dir),
        BaselineFault::Index(fault) => index_remedy(alloc, dir, fault),
        BaselineFault::Log {
            position,
            number,
            fault,
        } => stream_remedy(alloc, dir, position, number, fault),
    }
}

// Returns what to do if the file `names` can't be read.
fn unreadable_names(alloc: Global, dir: &str) -> Result<Vec<u8>, AllocError>
    ensures { IfOk result (λ text. text.items ≡ unreadable_names dir.now) }
{
    about_names(
        alloc,
        b"not readable: ",
        dir,
        b"; it must be a file of at most 1073741824 bytes that you may read",
    )
}

// Returns a text with the path of the file `names`.
fn about_names(alloc: Global, start: &[u8], dir: &str, end: &[u8]) -> Result<Vec<u8>, AllocError>
    ensures { IfOk result (λ text. text.items ≡ start.now ++ names_word dir.now ++ end.now) }
{
    let word = file_word(alloc, dir, b"names")?;
    concat(alloc, &[start, &word, end])
}

/// Returns what to do if memory ran out.
pub(crate) fn memory_remedy(alloc: Global) -> Result<Vec<u8>, AllocError>
    ensures { IfOk result (λ text. text.items ≡ memory_remedy) }
{
    concat(
        alloc,
        &[
            b"no memory or no thread was left; --senders 1 needs the least, and ulimit -v shows a limit on memory",
        ],
    )
}

// Returns what to do if the text wasn't written, from why the last write failed that did.
fn write_remedy(
    alloc: Global,
    output: &str,
    error: Option<WriteError>,
) -> Result<Vec<u8>, AllocError>
    ensures { IfOk result (λ text. text.items ≡ write_remedy output.now error) }
{
    match error {
        None => unwritable(alloc, output),
        Some(WriteError::NoSpace) => concat(
            alloc,
            &[b"no space is left where the output is written; df -h shows how full each disk is"],
        ),
        Some(WriteError::QuotaExceeded) => concat(
            alloc,
            &[b"your disk quota is used up where the output is written; quota -s shows it"],
        ),
        Some(WriteError::ClosedPipe) => concat(
            alloc,
            &[b"what reads the output ended early; sed -n 1,10p, unlike head, reads all of it"],
        ),
        Some(WriteError::Other) => Ok(Vec::new(alloc)),
    }
}

// Returns what to do if the file with this path can't be created or replaced.
fn unwritable(alloc: Global, output: &str) -> Result<Vec<u8>, AllocError>
    ensures { IfOk result (λ text. text.items ≡ unwritable output.now) }
{
    let mut text = Vec::new(alloc);
    push(&mut text, b"not writable: '")?;
    push_quoted(&mut text, output.as_bytes())?;
    push(
        &mut text,
        b"'; it must be a file in a directory that exists, and you must be allowed to write there",
    )?;
    Ok(text)
}

// Returns what to do about a fault of `names`.
fn index_remedy(alloc: Global, dir: &str, fault: IndexFault) -> Result<Vec<u8>, AllocError>
    ensures { IfOk result (λ text. text.items ≡ index_remedy dir.now fault) }
{
    match fault {
        IndexFault::BadLine { line } => leave_line_out(alloc, dir, line),
        IndexFault::FidTwice { line } => leave_line_out(alloc, dir, line),
        IndexFault::NameTwice { line } => leave_line_out(alloc, dir, line),
        IndexFault::TooMany => about_names(alloc, b"at most 1048575 lines can be read: ", dir, b""),
        IndexFault::OutOfMemory => memory_remedy(alloc),
    }
}

// Returns the command that removes this line from `names`.
fn leave_line_out(alloc: Global, dir: &str, line: u64) -> Result<Vec<u8>, AllocError>
    ensures { IfOk result (λ text. text.items ≡ leave_line_out dir.now line) }
{
    let word = file_word(alloc, dir, b"names")?;
    let mut buffer = Buffer::new();
    let line = buffer.format(line).as_bytes();
    concat(
        alloc,
        &[b"leave this line out: sed -i ", line, b"d ", &word],
    )
}

// Returns what may be meant by an unknown target, from the suggestions for it.
fn unknown_remedy(
    alloc: Global,
    dir: &str,
    count: u32,
    names: &[Vec<u8>],
) -> Result<Vec<u8>, AllocError>
    ensures { IfOk result (λ text. text.items ≡ unknown_remedy dir.now count (argument_bytes names.now)) }
{
    if names.is_empty() {
        targets_remedy(alloc, dir, count)
    } else {
        let mut text = Vec::new(alloc);
        push(&mut text, b"did you mean ")?;
        push_listed(&mut text, names)?;
        Ok(text)
    }
}

// Returns how many targets there are, and the command that shows them.
fn targets_remedy(alloc: Global, dir: &str, count: u32) -> Result<Vec<u8>, AllocError>
    ensures { IfOk result (λ text. text.items ≡ targets_remedy dir.now count) }
{
    let word = file_word(alloc, dir, b"names")?;
    let mut text = Vec::new(alloc);
    push(&mut text, b"targets: ")?;
    push_number(&mut text, count)?;
    push(&mut text, b"; list them: cut -d ' ' -f 2- ")?;
    push(&mut text, &word)?;
    Ok(text)
}

// Returns what to do about the fault of the log `number`, at this position of the index.
fn stream_remedy(
    alloc: Global,
    dir: &str,
    position: u32,
    number: u32,
    fault: StreamFault,
) -> Result<Vec<u8>, AllocError>
    ensures { IfOk result (λ text. text.items ≡ stream_remedy dir.now position number fault) }
{
    match fault {
        StreamFault::Read => read_remedy(alloc, dir, position, number),
        StreamFault::OutOfMemory => memory_remedy(alloc),
        StreamFault::BadRecord { .. } => leave_out(alloc, dir, number),
        StreamFault::AfterClose { .. } => leave_out(alloc, dir, number),
        StreamFault::TooLong => leave_out(alloc, dir, number),
        StreamFault::NotClosed => leave_out(alloc, dir, number),
    }
}

// Returns what to do if a log can't be read. The logs before its position are open, and may be as many as the limit allows.
fn read_remedy(alloc: Global, dir: &str, position: u32, number: u32) -> Result<Vec<u8>, AllocError>
    ensures { IfOk result (λ text. text.items ≡ read_remedy dir.now position number) }
{
    if MANY_LOGS <= position {
        let log = unreadable_log(alloc, dir, number)?;
        let open = open_logs(alloc, position)?;
        concat(alloc, &[&log, &open])
    } else {
        unreadable_log(alloc, dir, number)
    }
}

// Returns how many logs may be open, at the end of a text.
fn open_logs(alloc: Global, count: u32) -> Result<Vec<u8>, AllocError>
    ensures { IfOk result (λ text. text.items ≡ open_logs count) }
{
    let mut buffer = Buffer::new();
    concat(
        alloc,
        &[
            b"; up to ",
            buffer.format(count).as_bytes(),
            b" others are open, and ulimit -n shows how many files may be",
        ],
    )
}

// Returns which file can't be read.
fn unreadable_log(alloc: Global, dir: &str, number: u32) -> Result<Vec<u8>, AllocError>
    ensures { IfOk result (λ text. text.items ≡ unreadable_log dir.now number) }
{
    let mut buffer = Buffer::new();
    let file = concat(alloc, &[b"log.", buffer.format(number).as_bytes()])?;
    let word = file_word(alloc, dir, &file)?;
    concat(
        alloc,
        &[
            b"not readable: ",
            &word,
            b"; it must be a file that you may read",
        ],
    )
}

// Returns the command that removes the log with this number from `names`.
fn leave_out(alloc: Global, dir: &str, number: u32) -> Result<Vec<u8>, AllocError>
    ensures { IfOk result (λ text. text.items ≡ leave_out dir.now number) }
{
    let word = file_word(alloc, dir, b"names")?;
    let mut buffer = Buffer::new();
    let number = buffer.format(number).as_bytes();
    concat(
        alloc,
        &[b"leave this log out: sed -i '/^!*", number, b" /d' ", &word],
    )
}
