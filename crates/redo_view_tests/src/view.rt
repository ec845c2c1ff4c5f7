//! The text of logs at requested targets.
ghost use Rattle.std.specs.Prelude.{◌≡◌, true, IfOk};
ghost use Rattle.std.specs.List.{list_all};
ghost use Rattle.redo_logs.specs.Logs.{has_ended};

use crate::gathered::gathered;
use redo_gather::GatherFault;
use redo_line::{Taker, TargetName};
use redo_logs::LogTable;
use redo_test_support::cases::{
    ASKED, BUILD, BUILD_TEXT, BY_PIDS, CHOSEN, Case, DEEP, Given, LOGS, MAX_BYTES, MENTIONS, PLAIN,
    STATUSES,
};
use redo_test_support::{Cut, captured, whole};
use redo_view::{Options, ViewFault, view};
use std::alloc::Global;
use std::fmt::Debug;
use std::process::Abort;
use std::test::Fail;

/// Views the logs with a writer for `capacity` bytes, and returns the result and the bytes in the writer.
fn viewed(
    alloc: Global,
    given: &[Given],
    options: &Options,
    asked: &[&str],
    capacity: usize,
    per_call: usize,
) -> Result<(Result<(), ViewFault>, Vec<u8>), Fail> {
    let table = logs_of(alloc, given)?;
    written(alloc, &table, options, asked, capacity, per_call)
}

/// Does the same for a table.
fn written(
    alloc: Global,
    table: &LogTable,
    options: &Options,
    asked: &[&str],
    capacity: usize,
    per_call: usize,
) -> Result<(Result<(), ViewFault>, Vec<u8>), Fail>
    requires { list_all has_ended table.now ≡ true }
{
    let asked = resolved(alloc, asked)?;
    let mut out = Taker::new(alloc, capacity, per_call)?;
    let outcome = view(alloc, table, options, &asked, &mut out);
    Ok((outcome, out.bytes().to_vec(alloc)?))
}

fn logs_of(alloc: Global, given: &[Given]) -> Result<LogTable, Fail>
    ensures { IfOk result (λ table. list_all has_ended table ≡ true) }
{
    let given = whole(alloc, given)?;
    Ok(gathered_logs(alloc, &given)??)
}

fn gathered_logs(
    alloc: Global,
    given: &[redo_test_support::Given<'_>],
) -> Result<Result<LogTable, GatherFault>, Fail>
    ensures { IfOk result (λ outcome. IfOk outcome (λ table. list_all has_ended table ≡ true)) }
{
    let (targets, readers) = captured(alloc, given, Cut::InReadsOf(1))?;
    gathered(alloc, &targets, readers, MAX_BYTES)
}

fn resolved(alloc: Global, names: &[&str]) -> Result<Vec<TargetName>, Fail> {
    let mut resolved = Vec::new(alloc);
    for name in names {
        resolved.push(TargetName::resolve(alloc, None, name.as_bytes())?)?;
    }
    Ok(resolved)
}

/// Checks that the complete text of each case is written.
fn expect(rt: &(impl Abort + AllocGlobal), cases: &[Case]) -> Result<(), Fail> {
    for case in cases {
        expect_case(rt, case)?;
    }
    Ok(())
}

fn expect_case(rt: &(impl Abort + AllocGlobal), case: &Case) -> Result<(), Fail> {
    let (given, options, asked, text) = case;
    let (outcome, written) = viewed(rt.alloc(), given, options, asked, 1000, 1000)?;
    expect_outcome(rt, outcome, Ok(()), given);
    expect_written(rt, &written, text.as_bytes(), given);
    Ok(())
}

/// Checks the result of a view.
fn expect_outcome(
    rt: &impl Abort,
    outcome: Result<(), ViewFault>,
    want: Result<(), ViewFault>,
    about: &impl Debug,
) {
    assert_eq!(rt; outcome, want, "{about:?}");
}

/// Checks which bytes of the text are written.
fn expect_written(rt: &impl Abort, written: &[u8], want: &[u8], about: &impl Debug) {
    assert_eq!(rt; written, want, "{about:?}");
}

// The tables that the tests iterate over. They are statics because a constant is written out wherever it is named.
static OF_LOGS: &[Case] = &LOGS;

static OF_MENTIONS: &[Case] = &MENTIONS;

static OF_ASKING: &[Case] = &ASKED;

static OF_OPTIONS: &[Case] = &CHOSEN;

static OF_STATUSES: &[Case] = &STATUSES;

static OF_PIDS: &[Case] = &BY_PIDS;

#[test]
fn log_follows_line_of_target(rt: HostRuntime) -> Result<(), Fail> {
    expect(&rt, OF_LOGS)
}

#[test]
fn recursive_opens_mentioned_logs(rt: HostRuntime) -> Result<(), Fail> {
    expect(&rt, OF_MENTIONS)
}

#[test]
fn requested_target_opens_named_log(rt: HostRuntime) -> Result<(), Fail> {
    expect(&rt, OF_ASKING)
}

#[test]
fn options_select_shown_entries(rt: HostRuntime) -> Result<(), Fail> {
    expect(&rt, OF_OPTIONS)
}

#[test]
fn nonzero_status_is_shown(rt: HostRuntime) -> Result<(), Fail> {
    expect(&rt, OF_STATUSES)
}

#[test]
fn debug_pids_prefixes_redo_line(rt: HostRuntime) -> Result<(), Fail> {
    expect(&rt, OF_PIDS)
}

/// Requested targets, and the index of the first unknown one.
static UNKNOWN: &[(&[&str], usize)] = &[
    (&["all", "zz"], 1),
    (&["zz", "all"], 0),
    (&["zz", "yy"], 0),
];

#[test]
fn first_unknown_target_is_reported(rt: HostRuntime) -> Result<(), Fail> {
    for (asked, place) in UNKNOWN {
        expect_unknown(&rt, asked, *place)?;
    }
    Ok(())
}

/// Checks that the target at this index is reported, and that nothing is written.
fn expect_unknown(
    rt: &(impl Abort + AllocGlobal),
    asked: &[&str],
    place: usize,
) -> Result<(), Fail> {
    let given = [("all", "hello\n")];
    let (outcome, written) = viewed(rt.alloc(), &given, &PLAIN, asked, 1000, 1000)?;
    expect_outcome(rt, outcome, Err(ViewFault::Unknown { place }), &asked);
    assert_eq!(rt; written.len(), 0, "{asked:?}");
    Ok(())
}

/// Checks how much of the build's text a writer for `capacity` bytes gets.
fn expect_build(
    rt: &(impl Abort + AllocGlobal),
    capacity: usize,
    per_call: usize,
    want: Result<(), ViewFault>,
    text: &[u8],
) -> Result<(), Fail> {
    let (outcome, written) = viewed(rt.alloc(), &BUILD, &DEEP, &["all"], capacity, per_call)?;
    expect_outcome(rt, outcome, want, &capacity);
    expect_written(rt, &written, text, &capacity);
    Ok(())
}

#[test]
fn failed_write_leaves_prefix(rt: HostRuntime) -> Result<(), Fail> {
    let text = BUILD_TEXT.as_bytes();
    for capacity in 0..text.len() {
        expect_build(
            &rt,
            capacity,
            1000,
            Err(ViewFault::Write),
            &text[..capacity],
        )?;
    }
    expect_build(&rt, text.len(), 3, Ok(()), text)?;
    expect_build(&rt, text.len(), 0, Err(ViewFault::Write), b"")
}
