//! Tests of the table of logs: the results of its calls, and the logs after them.
ghost use Rattle.std.specs.Prelude.{◌≡◌, Some, OnOk, slice_get};
ghost use Rattle.redo_logs.specs.Logs.{states_of};
ghost use Rattle.redo_logs.specs.declared.log_state.LogState.TheVariants.{Running};

use crate::expect::expect_eq;
use crate::scan::entries_of;
use redo_line::{Entries, Entry, NameFault, StreamFault, TargetName, read_line};
use redo_logs::{LogState, LogTable, Numbered, NumberedEntry, TableFault};
use redo_test_support::{entry_text, line, logs_text};
use std::alloc::Global;
use std::process::Abort;
use std::test::Fail;

fn name(alloc: Global, text: &str) -> Result<TargetName, NameFault> {
    TargetName::resolve(alloc, None, text.as_bytes())
}

/// Enters the logs of `a` and `b`.
fn enter_both(alloc: Global, table: &mut LogTable) -> Result<(), Fail> {
    table.enter(name(alloc, "a")?)?;
    table.enter(name(alloc, "b")?)?;
    Ok(())
}

/// Adds the entry of a line to a log.
fn add(alloc: Global, table: &mut LogTable, number: u32, text: &str) -> Result<(), Fail> {
    let entry = entry_in(alloc, target(table, number)?, text)?;
    add_entry(table, number, entry)
}

fn entry_in(alloc: Global, target: &TargetName, text: &str) -> Result<Entry, Fail> {
    let line = line(alloc, text)?.ok_or("no line")?;
    Ok(read_line(alloc, target, line, true)?)
}

fn target(table: &LogTable, number: u32) -> Result<&TargetName, &'static str> {
    if number >= table.len() {
        return Err("no such log");
    }
    Ok(table.name(number))
}

fn add_entry(table: &mut LogTable, number: u32, entry: Entry) -> Result<(), Fail> {
    check_runs(table, number)?;
    Ok(table.add(number, entry)?)
}

/// Adds entries together to a log.
pub fn add_read(table: &mut LogTable, number: u32, read: Entries) -> Result<(), Fail> {
    check_runs(table, number)?;
    Ok(table.add_all(number, read)?)
}

/// Fails if there is no such log, or it doesn't run.
fn check_runs(table: &LogTable, number: u32) -> Result<(), &'static str>
    ensures { OnOk result (slice_get (states_of table.now) number ≡ Some Running) }
{
    if number >= table.len() {
        return Err("no such log");
    }
    match table.state(number) {
        LogState::Running => Ok(()),
        _ => Err("the log doesn't run"),
    }
}

/// Ends a log, or fails it if there is a fault.
fn close(table: &mut LogTable, number: u32, fault: Option<StreamFault>) -> Result<(), Fail> {
    check_runs(table, number)?;
    match fault {
        None => table.end(number),
        Some(fault) => table.fail(number, fault),
    }
    Ok(())
}

/// Adds the entries of lines to a log.
fn add_all(alloc: Global, table: &mut LogTable, number: u32, texts: &[&str]) -> Result<(), Fail> {
    for text in texts {
        add(alloc, table, number, text)?;
    }
    Ok(())
}

fn expect(rt: &(impl Abort + AllocGlobal), table: &LogTable, text: &str) -> Result<(), Fail> {
    expect_eq(rt, logs_text(rt.alloc(), table)?.as_str(), text, "logs");
    Ok(())
}

/// Expects this first fault, and whether all logs have ended.
fn expect_ends(
    rt: &impl Abort,
    table: &LogTable,
    first: Option<(u32, StreamFault)>,
    all_ended: bool,
) {
    expect_eq(
        rt,
        (table.first_fault(), table.all_ended()),
        (first, all_ended),
        "ends",
    );
}

fn expect_entered(
    rt: &(impl Abort + AllocGlobal),
    table: &mut LogTable,
    text: &str,
    answer: Result<u32, TableFault>,
) -> Result<(), Fail> {
    let target = name(rt.alloc(), text)?;
    expect_eq(rt, table.enter(target), answer, text);
    Ok(())
}

fn expect_found(
    rt: &(impl Abort + AllocGlobal),
    table: &LogTable,
    text: &str,
    place: Option<u32>,
) -> Result<(), Fail> {
    let target = name(rt.alloc(), text)?;
    expect_eq(rt, table.find(&target), place, text);
    Ok(())
}

/// Targets that are entered into a table, and the results.
static ENTERED: [(&str, Result<u32, TableFault>); 4] = [
    ("a", Ok(0)),
    ("b", Ok(1)),
    ("a", Err(TableFault::Twice)),
    ("x/../b", Err(TableFault::Twice)),
];

#[test]
fn enter_numbers_logs_in_order(rt: HostRuntime) -> Result<(), Fail> {
    enter_in_order(&rt, &mut LogTable::new(rt.alloc()))
}

fn enter_in_order(rt: &(impl Abort + AllocGlobal), table: &mut LogTable) -> Result<(), Fail> {
    expect_eq(rt, table.len(), 0, "empty");
    for (text, answer) in &ENTERED {
        expect_entered(rt, table, text, *answer)?;
    }
    expect_eq(rt, table.len(), 2, "entered");
    find_all(rt, table)?;
    expect(rt, table, "a: Running\nb: Running\n")
}

/// Targets that are looked up in the table, and the numbers of their logs.
static FOUND: [(&str, Option<u32>); 3] = [("a", Some(0)), ("b", Some(1)), ("c", None)];

fn find_all(rt: &(impl Abort + AllocGlobal), table: &LogTable) -> Result<(), Fail> {
    for (text, place) in &FOUND {
        expect_found(rt, table, text, *place)?;
    }
    Ok(())
}

#[test]
fn add_appends_entries_to_log(rt: HostRuntime) -> Result<(), Fail> {
    add_to_both(&rt, &mut LogTable::new(rt.alloc()))
}

/// Records with different entries.
static SAID: [&str; 5] = [
    "@@REDO:do:4294967295:1@@ c",
    "@@REDO:done:20:1@@ -2 c",
    "@@REDO:check:301:1@@ yes",
    "@@REDO:hint:4002:1@@ no",
    "@@REDO:done:5:1@@ 3 b",
];

fn add_to_both(rt: &(impl Abort + AllocGlobal), table: &mut LogTable) -> Result<(), Fail> {
    enter_both(rt.alloc(), table)?;
    add(rt.alloc(), table, 0, "x")?;
    add_all(rt.alloc(), table, 1, &SAID)?;
    expect(
        rt,
        table,
        "a: Running\ntext|x\nb: Running\ndo|4294967295|c\ndone|20|-2|c\nnote|301|check|yes\n\
         note|4002|hint|no\nclosing|5|3\n",
    )
}

#[test]
fn entry_returns_entry_by_index(rt: HostRuntime) -> Result<(), Fail> {
    add_one_entry(&rt, &mut LogTable::new(rt.alloc()))
}

fn add_one_entry(rt: &(impl Abort + AllocGlobal), table: &mut LogTable) -> Result<(), Fail> {
    enter_both(rt.alloc(), table)?;
    add(rt.alloc(), table, 0, "x")?;
    expect_entry(rt, table)?;
    expect_no_entry(rt, table, 0, 1);
    expect_no_entry(rt, table, 2, 0);
    Ok(())
}

fn expect_no_entry(rt: &impl Abort, table: &LogTable, i: u32, k: usize) {
    assert!(rt; table.entry(i, k).is_none());
}

fn expect_entry(rt: &(impl Abort + AllocGlobal), table: &LogTable) -> Result<(), Fail> {
    let first = table.entry(0, 0).ok_or("no entry")?;
    expect_eq(
        rt,
        entry_text(rt.alloc(), first)?.as_str(),
        "text|x",
        "entry",
    );
    Ok(())
}

#[test]
fn end_and_fail_set_log_state(rt: HostRuntime) -> Result<(), Fail> {
    end_and_fail(&rt, &mut LogTable::new(rt.alloc()))
}

fn end_and_fail(rt: &(impl Abort + AllocGlobal), table: &mut LogTable) -> Result<(), Fail> {
    enter_both(rt.alloc(), table)?;
    add(rt.alloc(), table, 0, "x")?;
    expect_ends(rt, table, None, false);
    close(table, 0, None)?;
    expect_ends(rt, table, None, false);
    close(table, 1, Some(StreamFault::TooLong))?;
    expect_ends(rt, table, Some((1, StreamFault::TooLong)), false);
    expect(rt, table, "a: Ended\ntext|x\nb: Failed(TooLong)\n")
}

#[test]
fn first_fault_has_lowest_number(rt: HostRuntime) -> Result<(), Fail> {
    fail_both(&rt, &mut LogTable::new(rt.alloc()))
}

fn fail_both(rt: &(impl Abort + AllocGlobal), table: &mut LogTable) -> Result<(), Fail> {
    enter_both(rt.alloc(), table)?;
    let fault = StreamFault::BadRecord { line: 9 };
    close(table, 1, Some(StreamFault::Read))?;
    close(table, 0, Some(fault))?;
    expect_ends(rt, table, Some((0, fault)), false);
    Ok(())
}

#[test]
fn all_ended_is_true_for_ended_logs(rt: HostRuntime) -> Result<(), Fail> {
    end_both(&rt, &mut LogTable::new(rt.alloc()))
}

fn end_both(rt: &(impl Abort + AllocGlobal), table: &mut LogTable) -> Result<(), Fail> {
    enter_both(rt.alloc(), table)?;
    close(table, 1, None)?;
    close(table, 0, None)?;
    expect_ends(rt, table, None, true);
    Ok(())
}

#[test]
fn all_ended_is_true_for_empty_table(rt: HostRuntime) {
    expect_ends(&rt, &LogTable::new(rt.alloc()), None, true);
}

/// Adds the entries of a chunk of text lines together to a log.
fn add_together(alloc: Global, table: &mut LogTable, number: u32, piece: &str) -> Result<(), Fail> {
    let read = entries_of(alloc, target(table, number)?, piece.as_bytes())?;
    add_read(table, number, read)
}

/// Enters both logs. The first log gets two texts together; after the second log's text it gets one more text, a mention
/// and an empty text.
fn enter_lines(alloc: Global, table: &mut LogTable) -> Result<(), Fail> {
    enter_both(alloc, table)?;
    add_together(alloc, table, 0, "x\nyy\n")?;
    add(alloc, table, 1, "other")?;
    add_all(alloc, table, 0, &["z", "@@REDO:do:1:1@@ b", ""])
}

/// The number of a log and the index of an entry; and of the texts that were added together with this entry, the lines
/// from it on, and their number.
static LINES: [(u32, usize, &str, usize); 8] = [
    (0, 0, "x\nyy\n", 2),
    (0, 1, "yy\n", 1),
    (0, 2, "z\n", 1),
    (0, 3, "", 0),
    (0, 4, "\n", 1),
    (0, 5, "", 0),
    (1, 0, "other\n", 1),
    (2, 0, "", 0),
];

#[test]
fn lines_returns_adjacent_texts(rt: HostRuntime) -> Result<(), Fail> {
    expect_lines(&rt, &mut LogTable::new(rt.alloc()))
}

fn expect_lines(rt: &(impl Abort + AllocGlobal), table: &mut LogTable) -> Result<(), Fail> {
    enter_lines(rt.alloc(), table)?;
    let logs = table.numbered();
    for (i, k, lines, count) in &LINES {
        expect_eq(rt, logs.lines(*i, *k), (lines.as_bytes(), *count), (*i, *k));
    }
    Ok(())
}

#[test]
fn numbered_entry_has_name_number(rt: HostRuntime) -> Result<(), Fail> {
    expect_mention(&rt, &mut LogTable::new(rt.alloc()))
}

fn expect_mention(rt: &(impl Abort + AllocGlobal), table: &mut LogTable) -> Result<(), Fail> {
    enter_lines(rt.alloc(), table)?;
    expect_numbers(rt, &table.numbered())
}

fn expect_numbers(rt: &impl Abort, logs: &Numbered<'_>) -> Result<(), Fail> {
    let Some(NumberedEntry::Mention { pid: 1, name, .. }) = logs.entry(0, 3) else {
        return Err("no mention".into());
    };
    if name >= logs.names() || logs.len() < 2 {
        return Err("no name of this number".into());
    }
    expect_eq(
        rt,
        (logs.name(name).bytes(), logs.target(1)),
        (b"b".as_slice(), name),
        "b",
    );
    expect_eq(rt, logs.log_of(name), Some(1), "b");
    Ok(())
}
