//! Tests of runs with many logs: each with a fault, or each mentioning the target of the next.
use crate::expect::expect_eq;
use crate::run::{expect_planned, ran, stream};
use redo_gather::Plan;
use redo_line::{StreamFault, Taker};
use redo_test_support::cases::{DEEP, MAX_BYTES, PLAIN};
use redo_test_support::{Cut, Given};
use std::alloc::{AllocError, Global};
use std::process::Abort;
use std::sync::Wait;
use std::test::Fail;
use std::thread::Threads;

/// Returns names of four digits, in order.
fn numbers(alloc: Global, count: usize) -> Result<Vec<String>, AllocError> {
    let mut names = Vec::new(alloc);
    for number in 1000..count.saturating_add(1000) {
        names.push(format!(in alloc; "{number}")?)?;
    }
    Ok(names)
}

#[test]
fn run_reports_first_of_many_bad_logs(rt: HostRuntime) -> Result<(), Fail> {
    let names = numbers(rt.alloc(), 64)?;
    let given = bad_logs(rt.alloc(), &names)?;
    expect_first_fault(&rt, &given)
}

/// Returns a stream for each name. Its first line is a bad record.
fn bad_logs(alloc: Global, names: &[String]) -> Result<Vec<Given<'_>>, AllocError> {
    let mut given = Vec::new(alloc);
    for name in names {
        given.push((name.as_str(), "@@REDO:\n", false))?;
    }
    Ok(given)
}

/// Sizes of reads.
static SIZES: [usize; 2] = [1, 1000];

fn expect_first_fault(
    rt: &(impl Abort + AllocGlobal + Threads + Wait + Sync),
    given: &[Given<'_>],
) -> Result<(), Fail> {
    let fault = StreamFault::BadRecord { line: 1 };
    let fault = stream(0, fault, "redo-log: 1000: line 1: bad record\n", 4);
    let plan = Plan::new(64, 1, MAX_BYTES)?;
    for size in &SIZES {
        expect_planned(
            rt,
            given,
            Cut::InReadsOf(*size),
            &plan,
            &PLAIN,
            &["1063"],
            fault,
        )?;
    }
    Ok(())
}

/// Returns a chain of streams: each one mentions the target of the next. The last one has a text line.
fn chain(alloc: Global, names: &[String]) -> Result<Vec<String>, AllocError> {
    let mut streams = Vec::new(alloc);
    for name in names.iter().skip(1) {
        streams.push(mention(alloc, name)?)?;
    }
    end(alloc, &mut streams)?;
    Ok(streams)
}

fn end(alloc: Global, streams: &mut Vec<String>) -> Result<(), AllocError> {
    streams.push(String::from_str(alloc, "end\n")?)?;
    Ok(())
}

fn mention(alloc: Global, name: &str) -> Result<String, AllocError> {
    format!(in alloc; "@@REDO:do:1:1@@ {name}\n")
}

/// The end of the chain's text, after the spaces of the last redo line.
const LAST: &str = "3999\nend\n";

#[test]
fn run_shows_chain_of_3000_logs(rt: HostRuntime) -> Result<(), Fail> {
    let names = numbers(rt.alloc(), 3000)?;
    expect_chain(&rt, &names)
}

fn expect_chain(
    rt: &(impl Abort + AllocGlobal + Threads + Wait + Sync),
    names: &[String],
) -> Result<(), Fail> {
    let streams = chain(rt.alloc(), names)?;
    expect_streams(rt, names, &streams)
}

fn expect_streams(
    rt: &(impl Abort + AllocGlobal + Threads + Wait + Sync),
    names: &[String],
    streams: &[String],
) -> Result<(), Fail> {
    let given = logs(rt.alloc(), names, streams)?;
    expect_shown(rt, &given)
}

fn logs<'a>(
    alloc: Global,
    names: &'a [String],
    streams: &'a [String],
) -> Result<Vec<Given<'a>>, AllocError> {
    let mut given = Vec::new(alloc);
    for (name, stream) in names.iter().zip(streams.iter()) {
        given.push(log(name, stream))?;
    }
    Ok(given)
}

fn log<'a>(name: &'a String, stream: &'a String) -> Given<'a> {
    (name.as_str(), stream.as_str(), false)
}

/// Checks that a run that requests the first target of the chain writes the whole text.
fn expect_shown(
    rt: &(impl Abort + AllocGlobal + Threads + Wait + Sync),
    given: &[Given<'_>],
) -> Result<(), Fail> {
    let mut out = Taker::new(rt.alloc(), 10_000_000, 10_000_000)?;
    expect_no_fault(rt, given, &mut out)?;
    expect_end_of_chain(rt, out.bytes());
    Ok(())
}

fn expect_no_fault(
    rt: &(impl Abort + AllocGlobal + Threads + Wait + Sync),
    given: &[Given<'_>],
    out: &mut Taker,
) -> Result<(), Fail> {
    let plan = Plan::new(4, 64, MAX_BYTES)?;
    let cut = Cut::InReadsOf(1000);
    let ran = ran(rt, given, cut, &plan, &DEEP, &["1000"], out)?;
    expect_eq(rt, ran.status, 0, "status");
    Ok(())
}

// The redo line of the last of 3,000 targets has 6,000 spaces. The last log has one line.
fn expect_end_of_chain(rt: &impl Abort, text: &[u8]) {
    expect_eq(rt, text.len(), 9_030_004, "length");
    let (front, end) = text.split_at(text.len().saturating_sub(LAST.len()));
    expect_eq(rt, end, LAST.as_bytes(), "end");
    expect_spaces(rt, front);
}

fn expect_spaces(rt: &impl Abort, front: &[u8]) {
    let (front, spaces) = front.split_at(front.len().saturating_sub(6000));
    for byte in spaces {
        assert!(rt; *byte == b' ', "not a space");
    }
    assert!(rt; front.ends_with(b"\nredo"));
}
