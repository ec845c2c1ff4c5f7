//! Tests of a scan over the chunks of a stream: its entries, or its fault and the entries before it.
ghost use Rattle.std.specs.Prelude.{◌≤◌, ◌^◌, length};

use crate::expect::expect_eq;
use crate::table::add_read;
use redo_line::{Entries, Entry, NameFault, Scan, Step, StreamFault, TargetName};
use redo_logs::{EntryRef, LogTable};
use redo_test_support::{Cut, cut_into_reads, cuts, entry_text};
use std::alloc::{AllocError, Global};
use std::process::Abort;
use std::test::Fail;

/// The entries that a scan found, each with a line feed, and its fault.
#[derive(Drop)]
struct Scanned {
    entries: String,
    fault: Option<StreamFault>,
}

fn add(alloc: Global, entries: &mut String, entry: Entry) -> Result<(), AllocError> {
    add_text(alloc, entries, EntryRef::of(&entry))
}

fn add_text(alloc: Global, entries: &mut String, entry: EntryRef<'_>) -> Result<(), AllocError> {
    entries.push_str(&entry_text(alloc, entry)?)?;
    entries.push_str("\n")
}

/// Steps through a chunk, to its end or to a fault. Each entry must end after the previous one.
fn take(alloc: Global, scan: &mut Scan, chunk: &[u8], scanned: &mut Scanned) -> Result<(), Fail> {
    let mut from = 0;
    for _ in 0..chunk.len().saturating_add(1) {
        if from > chunk.len() {
            return Err("a place past the chunk".into());
        }
        let Some(upto) = take_line(alloc, scan, chunk, from, scanned)? else {
            return Ok(());
        };
        from = upto;
    }
    Err("more entries than bytes".into())
}

/// Steps once, and adds the entry or the fault. Returns the place after an entry.
fn take_line(
    alloc: Global,
    scan: &mut Scan,
    chunk: &[u8],
    from: usize,
    scanned: &mut Scanned,
) -> Result<Option<usize>, AllocError>
    requires { from ≤ length chunk.now }
{
    match scan.step(chunk, from) {
        Ok(Step::Found { entry, upto }) => {
            add(alloc, &mut scanned.entries, entry)?;
            Ok(Some(upto))
        }
        Ok(Step::More) => Ok(None),
        Err(fault) => {
            scanned.fault = Some(fault);
            Ok(None)
        }
    }
}

/// Creates a scan of the log of a target, with a limit.
fn new_scan(alloc: Global, target: &str, max_bytes: u64) -> Result<Scan, NameFault> {
    let target = TargetName::resolve(alloc, None, target.as_bytes())?;
    Ok(Scan::new(alloc, target, limit(max_bytes), false))
}

/// Returns this limit if a scan may have it, or else 1.
fn limit(max_bytes: u64) -> u64
    ensures at_least { 1 ≤ result }
    ensures at_most { result ≤ 2 ^ 40 }
{
    if max_bytes == 0 || max_bytes > 1_099_511_627_776 {
        return 1;
    }
    max_bytes
}

/// Adds the unended line, or the fault.
fn finish(alloc: Global, scan: Scan, scanned: &mut Scanned) -> Result<(), AllocError> {
    match scan.finish() {
        Ok(Some(last)) => add(alloc, &mut scanned.entries, last)?,
        Ok(None) => {}
        Err(fault) => scanned.fault = Some(fault),
    }
    Ok(())
}

/// Returns the result of a scan of these chunks.
fn scan(alloc: Global, mut scan: Scan, pieces: &[Vec<u8>]) -> Result<Scanned, Fail> {
    let mut scanned = Scanned {
        entries: String::new(alloc),
        fault: None,
    };
    for chunk in pieces {
        take(alloc, &mut scan, chunk, &mut scanned)?;
    }
    finish(alloc, scan, &mut scanned)?;
    Ok(scanned)
}

/// Steps through a chunk, to its end or to a fault, and adds its entries together to the first log of a table.
fn take_together(
    alloc: Global,
    scan: &mut Scan,
    chunk: &[u8],
    table: &mut LogTable,
) -> Result<Option<StreamFault>, Fail> {
    let mut read = Entries::new(alloc);
    let fault = step_through(scan, chunk, &mut read)?;
    add_read(table, 0, read)?;
    Ok(fault)
}

/// Appends the entries of the lines that end in a chunk, of at most three lines in each step. Each step must end after
/// the previous one.
fn step_through(
    scan: &mut Scan,
    chunk: &[u8],
    read: &mut Entries,
) -> Result<Option<StreamFault>, &'static str> {
    let mut from = 0;
    for _ in 0..chunk.len().saturating_add(1) {
        if from > chunk.len() {
            return Err("a place past the chunk");
        }
        match step_lines(scan, chunk, from, 3, read) {
            Ok(Some(upto)) => from = upto,
            Ok(None) => return Ok(None),
            Err(fault) => return Ok(Some(fault)),
        }
    }
    Err("more entries than bytes")
}

/// Appends the entries of some lines, and returns the place after them, or none if no line ends.
fn step_lines(
    scan: &mut Scan,
    chunk: &[u8],
    from: usize,
    max_lines: u16,
    read: &mut Entries,
) -> Result<Option<usize>, StreamFault>
    requires from { from ≤ length chunk.now }
    requires max_lines { 1 ≤ max_lines }
{
    scan.step_into(chunk, from, max_lines, read)
}

/// Returns the entries of the lines of a chunk, of at most ten.
pub fn entries_of(alloc: Global, target: &TargetName, chunk: &[u8]) -> Result<Entries, Fail> {
    let mut scan = Scan::new(alloc, target.copy(alloc)?, 1_000, false);
    let mut read = Entries::new(alloc);
    step_lines(&mut scan, chunk, 0, 10, &mut read)?;
    Ok(read)
}

/// Returns the result of a scan of these chunks if the entries of each chunk are added together to a table.
fn scan_together(alloc: Global, mut scan: Scan, pieces: &[Vec<u8>]) -> Result<Scanned, Fail> {
    let mut scanned = take_all_together(alloc, &mut scan, pieces)?;
    finish(alloc, scan, &mut scanned)?;
    Ok(scanned)
}

/// Steps through all chunks, without the end of the stream.
fn take_all_together(alloc: Global, scan: &mut Scan, pieces: &[Vec<u8>]) -> Result<Scanned, Fail> {
    take_into(alloc, scan, pieces, &mut LogTable::new(alloc))
}

/// Does the same with a table that has no log yet.
fn take_into(
    alloc: Global,
    scan: &mut Scan,
    pieces: &[Vec<u8>],
    table: &mut LogTable,
) -> Result<Scanned, Fail> {
    table.enter(TargetName::resolve(alloc, None, b"one")?)?;
    let mut fault = None;
    for chunk in pieces {
        fault = fault.or(take_together(alloc, scan, chunk, table)?);
    }
    let entries = first_entries(alloc, table)?;
    Ok(Scanned { entries, fault })
}

/// Returns the entries of the first log, each with a line feed.
fn first_entries(alloc: Global, table: &LogTable) -> Result<String, AllocError> {
    let mut entries = String::new(alloc);
    for place in 0..usize::MAX {
        let Some(entry) = table.entry(0, place) else {
            break;
        };
        add_text(alloc, &mut entries, entry)?;
    }
    Ok(entries)
}

/// A target, a limit, the target's stream, and its entries and its fault within the limit.
type Case = (
    &'static str,
    u64,
    &'static str,
    &'static str,
    Option<StreamFault>,
);

fn expect_all(rt: &(impl Abort + AllocGlobal), cases: &[Case]) -> Result<(), Fail> {
    for case in cases {
        expect(rt, case)?;
    }
    Ok(())
}

/// Expects these entries and this fault, however the stream is divided into chunks.
fn expect(rt: &(impl Abort + AllocGlobal), case: &Case) -> Result<(), Fail> {
    for cut in &cuts(rt.alloc(), &[("", case.2, false)])? {
        expect_cut(rt, case, *cut)?;
    }
    Ok(())
}

/// Expects the same of one division into chunks, with entries found one by one and with all entries of a chunk together.
fn expect_cut(rt: &(impl Abort + AllocGlobal), case: &Case, cut: Cut) -> Result<(), Fail> {
    let pieces = cut_into_reads(rt.alloc(), case.2.as_bytes(), cut)?;
    expect_apart(rt, case, &pieces)?;
    expect_together(rt, case, &pieces)
}

fn expect_apart(
    rt: &(impl Abort + AllocGlobal),
    case: &Case,
    pieces: &[Vec<u8>],
) -> Result<(), Fail> {
    let scanned = scan(rt.alloc(), new_scan(rt.alloc(), case.0, case.1)?, pieces)?;
    expect_scanned(rt, &scanned, case);
    Ok(())
}

fn expect_together(
    rt: &(impl Abort + AllocGlobal),
    case: &Case,
    pieces: &[Vec<u8>],
) -> Result<(), Fail> {
    let scanned = scan_together(rt.alloc(), new_scan(rt.alloc(), case.0, case.1)?, pieces)?;
    expect_scanned(rt, &scanned, case);
    Ok(())
}

fn expect_scanned(rt: &impl Abort, scanned: &Scanned, case: &Case) {
    let (_, _, stream, entries, fault) = case;
    expect_eq(
        rt,
        (scanned.fault, scanned.entries.as_str()),
        (*fault, *entries),
        *stream,
    );
}

static ENTRIES: [Case; 8] = [
    ("all", 1000, "", "", None),
    ("all", 1000, "hello\n", "text|hello\n", None),
    ("all", 1000, "x", "text|x\n", None),
    ("all", 1000, "@@REDO:do:7", "text|@@REDO:do:7\n", None),
    ("all", 1000, "\n\nx", "text|\ntext|\ntext|x\n", None),
    (
        "a",
        1000,
        "@@REDO:done:7:1.0000@@ 0 a\n",
        "closing|7|0\n",
        None,
    ),
    (
        "a",
        1000,
        "@@REDO:do:12:1@@ b\nt\n@@REDO:done:7:1@@ 1 a",
        "do|12|b\ntext|t\ntext|@@REDO:done:7:1@@ 1 a\n",
        None,
    ),
    (
        "d/a",
        1000,
        "@@REDO:do:13:1@@ ../e//x\n@@REDO:done:014:1@@ 2 b\n",
        "do|13|e/x\ndone|14|2|d/b\n",
        None,
    ),
];

#[test]
fn scan_returns_entries(rt: HostRuntime) -> Result<(), Fail> {
    expect_all(&rt, &ENTRIES)
}

static FAULTS: [Case; 5] = [
    (
        "all",
        1000,
        "ok\n@@REDO:do:7\n",
        "text|ok\n",
        Some(StreamFault::BadRecord { line: 2 }),
    ),
    (
        "all",
        1000,
        "@@REDO:do:7\nok\n",
        "",
        Some(StreamFault::BadRecord { line: 1 }),
    ),
    (
        "a",
        1000,
        "@@REDO:done:7:1.0000@@ 0 a\nz",
        "closing|7|0\n",
        Some(StreamFault::AfterClose { line: 2 }),
    ),
    (
        "a",
        1000,
        "@@REDO:done:7:1.0000@@ 0 a\n@@REDO:\n",
        "closing|7|0\n",
        Some(StreamFault::AfterClose { line: 2 }),
    ),
    (
        "a",
        1000,
        "\n\n@@REDO:done:7:1@@ 0 ./a\n\n",
        "text|\ntext|\nclosing|7|0\n",
        Some(StreamFault::AfterClose { line: 4 }),
    ),
];

#[test]
fn scan_returns_entries_before_fault(rt: HostRuntime) -> Result<(), Fail> {
    expect_all(&rt, &FAULTS)
}

const CLOSING: &str = "@@REDO:done:7:1.0000@@ 0 a\n";

const CLOSING_AND_MORE: &str = "@@REDO:done:7:1.0000@@ 0 a\nz";

static LIMITED: [Case; 10] = [
    ("all", 4, "abc\n", "text|abc\n", None),
    ("all", 4, "abc\nd", "text|abc\n", Some(StreamFault::TooLong)),
    (
        "a",
        28,
        CLOSING_AND_MORE,
        "closing|7|0\n",
        Some(StreamFault::AfterClose { line: 2 }),
    ),
    (
        "a",
        27,
        CLOSING_AND_MORE,
        "closing|7|0\n",
        Some(StreamFault::TooLong),
    ),
    ("a", 26, CLOSING_AND_MORE, "", Some(StreamFault::TooLong)),
    ("a", 27, CLOSING, "closing|7|0\n", None),
    ("a", 26, CLOSING, "", Some(StreamFault::TooLong)),
    (
        "all",
        8,
        "@@REDO:\nmore",
        "",
        Some(StreamFault::BadRecord { line: 1 }),
    ),
    ("all", 7, "@@REDO:\nmore", "", Some(StreamFault::TooLong)),
    ("all", 1, "\n", "text|\n", None),
];

#[test]
fn scan_stops_at_max_bytes(rt: HostRuntime) -> Result<(), Fail> {
    expect_all(&rt, &LIMITED)
}

/// Chunks after `@@RE`. A scan fails in the first one.
static FAILING: [&str; 3] = ["DO:do:7\nok\n", "ok\n", ""];

#[test]
fn scan_error_is_sticky(rt: HostRuntime) -> Result<(), Fail> {
    let mut scan = new_scan(rt.alloc(), "all", 100)?;
    expect_failing(&rt, &mut scan);
    expect_bad_record(&rt, scan.finish().err(), "the end");
    Ok(())
}

fn expect_failing(rt: &impl Abort, scan: &mut Scan) {
    expect_more(rt, scan.step(b"@@RE", 0));
    for chunk in &FAILING {
        expect_bad_record(rt, scan.step(chunk.as_bytes(), 0).err(), chunk);
    }
}

fn expect_more(rt: &impl Abort, step: Result<Step, StreamFault>) {
    assert!(rt;
        matches!(&step, Ok(Step::More)),
        "a line or a fault was found"
    );
}

fn expect_bad_record(rt: &impl Abort, fault: Option<StreamFault>, case: &str) {
    expect_eq(rt, fault, Some(StreamFault::BadRecord { line: 1 }), case);
}

const BATCHED: &[u8] = b"a\nb\nc\n@@REDO:do:7:1@@ d\ne\n";

/// Where steps of at most two lines begin and end: two text lines, the text line before a record, the record alone, and
/// the last line.
static BATCHES: [(usize, usize); 4] = [(0, 4), (4, 6), (6, 24), (24, 26)];

#[test]
fn step_into_batches_text_lines(rt: HostRuntime) -> Result<(), Fail> {
    let mut scan = new_scan(rt.alloc(), "all", 100)?;
    expect_batches(&rt, &mut scan, &mut Entries::new(rt.alloc()));
    Ok(())
}

fn expect_batches(rt: &impl Abort, scan: &mut Scan, read: &mut Entries) {
    for (from, upto) in &BATCHES {
        assert!(rt; *from <= BATCHED.len(), "{from}");
        let found = step_lines(scan, BATCHED, *from, 2, read);
        expect_eq(rt, found, Ok(Some(*upto)), *from);
    }
    expect_eq(
        rt,
        (read.len(), read.layout().places.len()),
        (5, 4),
        "lengths",
    );
}
