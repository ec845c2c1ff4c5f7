//! Tests of runs whose writer fails, at each byte and in each call, and of runs whose readers fail, at each
//! read.
ghost use Rattle.std.specs.Prelude.{None};

use crate::expect::expect_eq;
use crate::run::{Outcome, Want, expect_outcome, expect_planned, ran, stream};
use redo_gather::Plan;
use redo_line::{Broken, Sink, StreamFault, Taker};
use redo_log_cli::RunFault;
use redo_test_support::cases::{BUILD, BUILD_TEXT, DEEP, MAX_BYTES};
use redo_test_support::{Cut, Given, whole};
use std::alloc::{AllocError, Global};
use std::process::Abort;
use std::sync::Wait;
use std::test::Fail;
use std::thread::Threads;

const CANNOT_WRITE: Want<'static> = Err((RunFault::Write, "redo-log: cannot write\n", 6));

/// Checks a run that writes the text of the build to a writer with room for `room` bytes.
fn expect_room(
    rt: &(impl Abort + AllocGlobal + Threads + Wait + Sync),
    room: usize,
    per_call: usize,
    want: Want<'_>,
    text: &[u8],
) -> Result<(), Fail> {
    let mut out = Taker::new(rt.alloc(), room, per_call)?;
    expect_build(rt, want, &mut out)?;
    expect_eq(rt, out.bytes(), text, room);
    Ok(())
}

/// Checks the result of a run that writes the text of the build to this writer.
fn expect_build(
    rt: &(impl Abort + AllocGlobal + Threads + Wait + Sync),
    want: Want<'_>,
    out: &mut impl Sink,
) -> Result<(), Fail> {
    let ran = ran_build(rt, out)?;
    expect_outcome(rt, &ran, want);
    Ok(())
}

fn ran_build(
    rt: &(impl AllocGlobal + Threads + Wait + Sync),
    out: &mut impl Sink,
) -> Result<Outcome, Fail> {
    let plan = Plan::new(4, 64, MAX_BYTES)?;
    let given = whole(rt.alloc(), &BUILD)?;
    ran(rt, &given, Cut::InReadsOf(1), &plan, &DEEP, &["all"], out)
}

#[test]
fn full_writer_ends_run(rt: HostRuntime) -> Result<(), Fail> {
    expect_rooms(&rt, BUILD_TEXT)
}

fn expect_rooms(
    rt: &(impl Abort + AllocGlobal + Threads + Wait + Sync),
    text: &str,
) -> Result<(), Fail> {
    expect_eq(rt, text.len(), 70, "length");
    expect_prefixes(rt, text.as_bytes())?;
    expect_room(rt, text.len(), 3, Ok(text), text.as_bytes())?;
    expect_room(rt, text.len(), 0, CANNOT_WRITE, b"")
}

/// Checks that a writer with room for only a prefix of the text holds that prefix.
fn expect_prefixes(
    rt: &(impl Abort + AllocGlobal + Threads + Wait + Sync),
    text: &[u8],
) -> Result<(), Fail> {
    for room in 0..text.len() {
        expect_room(rt, room, 1000, CANNOT_WRITE, &text[..room])?;
    }
    Ok(())
}

/// A writer that takes one byte in each call, except one call, which fails.
#[derive(Drop)]
struct FailingOnce {
    taken: Vec<u8>,
    fails_at: usize,
    calls: usize,
}

impl Sink for FailingOnce {
    ghost written = { λ _. None };

    fn push(&mut self, bytes: &[u8]) -> Result<usize, Broken> {
        self.calls = self.calls.saturating_add(1);
        if self.calls == self.fails_at {
            return Err(Broken);
        }
        let Some(byte) = bytes.first() else {
            return Ok(0);
        };
        match self.taken.push(*byte) {
            Ok(()) => Ok(1),
            Err(_) => Err(Broken),
        }
    }
}

/// Checks a run that writes the text of the build to a writer that fails only in the call `fails_at`.
fn expect_failing_once(
    rt: &(impl Abort + AllocGlobal + Threads + Wait + Sync),
    fails_at: usize,
    want: Want<'_>,
    text: &[u8],
    calls: usize,
) -> Result<(), Fail> {
    let mut out = FailingOnce {
        taken: Vec::new(rt.alloc()),
        fails_at,
        calls: 0,
    };
    expect_build(rt, want, &mut out)?;
    expect_eq(
        rt,
        (out.taken.as_slice(), out.calls),
        (text, calls),
        fails_at,
    );
    Ok(())
}

#[test]
fn run_writes_nothing_after_failed_write(rt: HostRuntime) -> Result<(), Fail> {
    expect_failing_calls(&rt, BUILD_TEXT.as_bytes())
}

fn expect_failing_calls(
    rt: &(impl Abort + AllocGlobal + Threads + Wait + Sync),
    text: &[u8],
) -> Result<(), Fail> {
    for before in 0..text.len() {
        let call = before.saturating_add(1);
        expect_failing_once(rt, call, CANNOT_WRITE, &text[..before], call)?;
    }
    let more = text.len().saturating_add(1);
    expect_failing_once(rt, more, Ok(BUILD_TEXT), text, text.len())
}

/// Checks a run in which reads of some streams of the build fail, each after the given number of bytes. The
/// bytes are read one by one. Nothing is written.
fn expect_failed_reads(
    rt: &(impl Abort + AllocGlobal + Threads + Wait + Sync),
    behind: [Option<usize>; 3],
    want: Want<'_>,
) -> Result<(), Fail> {
    let given = failing_build(rt.alloc(), behind)?;
    expect_all_senders(rt, &given, want)
}

/// Numbers of senders.
static SENDERS: [u32; 3] = [1, 2, 64];

fn expect_all_senders(
    rt: &(impl Abort + AllocGlobal + Threads + Wait + Sync),
    given: &[Given<'_>],
    want: Want<'_>,
) -> Result<(), Fail> {
    for senders in &SENDERS {
        let plan = Plan::new(*senders, 1, MAX_BYTES)?;
        expect_planned(rt, given, Cut::InReadsOf(1), &plan, &DEEP, &["all"], want)?;
    }
    Ok(())
}

/// Returns the streams of the build. Reads of some of them fail after the given number of bytes.
fn failing_build(
    alloc: Global,
    behind: [Option<usize>; 3],
) -> Result<Vec<Given<'static>>, AllocError> {
    let mut given = Vec::new(alloc);
    for ((name, stream), bytes) in BUILD.iter().zip(&behind) {
        given.push((*name, prefix(stream, *bytes), bytes.is_some()))?;
    }
    Ok(given)
}

/// Returns the first `bytes` bytes of the stream, or all of them.
fn prefix(stream: &str, bytes: Option<usize>) -> &str {
    match bytes {
        Some(bytes) => stream.get(..bytes).unwrap_or(stream),
        None => stream,
    }
}

#[test]
fn run_reports_failed_read(rt: HostRuntime) -> Result<(), Fail> {
    expect_lengths(&rt);
    let told = stream(0, StreamFault::Read, "redo-log: all: cannot be read\n", 5);
    for bytes in 0..114 {
        expect_failed_reads(&rt, [Some(bytes), None, None], told)?;
    }
    let told = stream(2, StreamFault::Read, "redo-log: b.o: cannot be read\n", 5);
    for bytes in 0..6 {
        expect_failed_reads(&rt, [None, None, Some(bytes)], told)?;
    }
    let told = stream(1, StreamFault::Read, "redo-log: a.o: cannot be read\n", 5);
    expect_failed_reads(&rt, [None, Some(0), Some(0)], told)
}

/// Checks the lengths of the streams that fail after each of their bytes.
fn expect_lengths(rt: &impl Abort) {
    let [(_, all), _, (_, last)] = BUILD;
    expect_eq(rt, (all.len(), last.len()), (113, 5), "lengths");
}
