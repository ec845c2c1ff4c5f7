//! Tests of failures: their error messages and exit statuses.
ghost use Rattle.std.specs.Prelude.{◌<◌, IsTrue};
ghost use Rattle.redo_command.specs.Failure.{IfStreamFailure, IfUnknownFailure};

use crate::expect::expect_eq;
use redo_line::StreamFault;
use redo_log_cli::{
    Failure, Index, IndexFault, RunFault, WordsFault, fault_line, read_index, status,
};
use std::alloc::{AllocError, Global};
use std::process::Abort;
use std::test::Fail;

/// Checks the error message and the status of a failure. The targets are `d/a` and `b`. The arguments are
/// `x/../d/a`, an empty one, and bytes that aren't valid text.
fn expect_message(
    rt: &(impl Abort + AllocGlobal),
    failure: Failure,
    want: &[u8],
    number: u8,
) -> Result<(), Fail> {
    let line = message_of(rt.alloc(), &failure)?;
    expect_eq(
        rt,
        (line.as_slice(), status(&failure)),
        (want, number),
        failure,
    );
    Ok(())
}

fn message_of(alloc: Global, failure: &Failure) -> Result<Vec<u8>, Fail> {
    let index = read_index(alloc, b"7 ./d//a\n1 b\n".as_slice())?;
    line_with(alloc, failure, &index)
}

fn line_with(alloc: Global, failure: &Failure, index: &Index) -> Result<Vec<u8>, Fail> {
    let words = words(alloc)?;
    line_of(alloc, failure, index, &words)
}

fn line_of(
    alloc: Global,
    failure: &Failure,
    index: &Index,
    words: &[Vec<u8>],
) -> Result<Vec<u8>, Fail> {
    if !has_places(failure, index.len(), words.len()) {
        return Err("a place that is none".into());
    }
    Ok(fault_line(alloc, failure, index, words)?)
}

static WORDS: [&[u8]; 3] = [b"x/../d/a", b"", b"\xff\xfe"];

fn words(alloc: Global) -> Result<Vec<Vec<u8>>, AllocError> {
    let mut words = Vec::new(alloc);
    for word in &WORDS {
        words.push(word.to_vec(alloc)?)?;
    }
    Ok(words)
}

/// Returns whether a stream's number and an argument's position are in range.
fn has_places(failure: &Failure, streams: u32, words: usize) -> bool
    ensures stream_in_range { IsTrue result → IfStreamFailure failure.now (λ number. number < streams) }
    ensures argument_in_range { IsTrue result → IfUnknownFailure failure.now (λ place. place < words) }
{
    match *failure {
        Failure::Run(RunFault::Stream { number, .. }) => number < streams,
        Failure::Run(RunFault::Unknown { place }) => place < words,
        _ => true,
    }
}

const NO_MEMORY: &[u8] = b"redo-log: out of memory\n";

/// A failure, its error message and its status.
static MESSAGES: &[(Failure, &[u8], u8)] = &[
    (Failure::Words(WordsFault::Help), b"", 0),
    (
        Failure::Words(WordsFault::Refused),
        b"redo-log: bad command line\n",
        2,
    ),
    (Failure::Words(WordsFault::OutOfMemory), NO_MEMORY, 7),
    (Failure::NamesRead, b"redo-log: names: cannot be read\n", 5),
    (
        Failure::Index(IndexFault::BadLine { line: 1 }),
        b"redo-log: names: line 1: bad line\n",
        3,
    ),
    (
        Failure::Index(IndexFault::FidTwice { line: 20 }),
        b"redo-log: names: line 20: number listed twice\n",
        3,
    ),
    (
        Failure::Index(IndexFault::NameTwice { line: 1048576 }),
        b"redo-log: names: line 1048576: name listed twice\n",
        3,
    ),
    (
        Failure::Index(IndexFault::TooMany),
        b"redo-log: names: too many names\n",
        3,
    ),
    (Failure::Index(IndexFault::OutOfMemory), NO_MEMORY, 7),
    (Failure::Run(RunFault::OutOfMemory), NO_MEMORY, 7),
    (
        Failure::Run(RunFault::Write),
        b"redo-log: cannot write\n",
        6,
    ),
    (Failure::Memory, NO_MEMORY, 7),
];

#[test]
fn failure_has_message_and_status(rt: HostRuntime) -> Result<(), Fail> {
    for (failure, line, number) in MESSAGES {
        expect_message(&rt, *failure, line, *number)?;
    }
    Ok(())
}

/// The position of an unknown argument, and the error message.
static UNKNOWN: &[(usize, &[u8])] = &[
    (0, b"redo-log: x/../d/a: not known\n"),
    (1, b"redo-log: : not known\n"),
    (2, b"redo-log: \xff\xfe: not known\n"),
];

#[test]
fn unknown_target_is_reported_verbatim(rt: HostRuntime) -> Result<(), Fail> {
    for (place, line) in UNKNOWN {
        let failure = Failure::Run(RunFault::Unknown { place: *place });
        expect_message(&rt, failure, line, 24)?;
    }
    Ok(())
}

/// The number of a stream, its fault, the error message and the status.
static OF_STREAMS: &[(u32, StreamFault, &[u8], u8)] = &[
    (
        0,
        StreamFault::BadRecord { line: 9 },
        b"redo-log: d/a: line 9: bad record\n",
        4,
    ),
    (
        1,
        StreamFault::AfterClose {
            line: 18446744073709551615,
        },
        b"redo-log: b: line 18446744073709551615: after the closing record\n",
        4,
    ),
    (0, StreamFault::TooLong, b"redo-log: d/a: too long\n", 4),
    (1, StreamFault::Read, b"redo-log: b: cannot be read\n", 5),
    (0, StreamFault::OutOfMemory, NO_MEMORY, 7),
    (1, StreamFault::NotClosed, b"redo-log: b: not closed\n", 4),
];

#[test]
fn stream_fault_message_names_target(rt: HostRuntime) -> Result<(), Fail> {
    for (number, fault, line, status) in OF_STREAMS {
        let (number, fault) = (*number, *fault);
        let failure = Failure::Run(RunFault::Stream { number, fault });
        expect_message(&rt, failure, line, *status)?;
    }
    Ok(())
}
