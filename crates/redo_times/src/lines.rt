//! The reports of the lines of a chunk of a log.
//!
//! A line is skipped unless it begins with `@@REDO:`. Most lines have no `@`, and these are skipped many at once. Only records that
//! report something are resolved and looked up. A record that is not valid is skipped, because a run reports it. A stream with a fault
//! has times too.
ghost use Rattle.std.specs.Prelude.{◌≡◌, ◌≢◌, ◌≤◌, ℕ, List, ◌++◌, ◌∷◌, [], Some, drop, length, slice_get, take, IfOk, OnOk};
ghost use Rattle.std.specs.List.{AllByRecursion};
ghost use Rattle.redo_index.specs.Index.{listed_targets, IsIndex};
ghost use Rattle.redo_line.specs.Lines.{ended, rest};
ghost use Rattle.redo_line.specs.Record.{at_sign};
ghost use Rattle.redo_times.specs.declared.report.Report.{Report};
ghost use Rattle.redo_times.specs.Private.Tally.{AreTallies, AreTalliesAfter};
ghost use Rattle.redo_times.specs.Report.{reports_in};

use crate::report::read_report;
use crate::tally::{Log, Tally, add_report};
use memchr::{memchr, memrchr};
use redo_index::Index;
use std::alloc::{AllocError, Global};

/// Adds the reports of the lines that end in a chunk. `partial` has the bytes after the last line feed so far.
pub fn add_chunk(
    alloc: Global,
    index: &Index,
    tallies: &mut [Tally],
    log: Log<'_>,
    partial: &mut Vec<u8>,
    chunk: &[u8],
) -> Result<(), AllocError>
    requires index { IsIndex index.now }
    requires count { length tallies.old ≡ length index.now }
    requires log { slice_get (listed_targets index.now) log.position ≡ Some log.target.now }
    ensures partial { (taken : List ℕ) → partial.old.items ≡ rest taken → OnOk result (partial.new.items ≡ rest (taken ++ chunk.now)) }
    ensures tallies { (reports : List Report) (taken : List ℕ) → partial.old.items ≡ rest taken
        → AreTalliesAfter (listed_targets index.now) log.entry.target.now reports taken tallies.old
        → OnOk result (AreTalliesAfter (listed_targets index.now) log.entry.target.now reports (taken ++ chunk.now) tallies.new) }
{
    let Some(at) = memchr(b'\n', chunk) else {
        partial.extend_from_slice(chunk)?;
        return Ok(());
    };
    partial.extend_from_slice(&chunk[..at])?;
    add_line(alloc, index, tallies, log, partial)?;
    let others = &chunk[at + 1..];
    let upto = add_lines(alloc, index, tallies, log, others)?;
    partial.clear();
    partial.extend_from_slice(&others[upto..])?;
    Ok(())
}

// Adds the reports of the ended lines of these bytes, and returns the number of bytes up to the last line feed.
fn add_lines(
    alloc: Global,
    index: &Index,
    tallies: &mut [Tally],
    log: Log<'_>,
    bytes: &[u8],
) -> Result<usize, AllocError>
    requires index { IsIndex index.now }
    requires count { length tallies.old ≡ length index.now }
    requires log { slice_get (listed_targets index.now) log.position ≡ Some log.target.now }
    ensures range { IfOk result (λ upto. upto ≤ length bytes.now) }
    ensures rest { IfOk result (λ upto. drop upto bytes.now ≡ rest bytes.now) }
    ensures tallies { (reports : List Report) → AreTallies (listed_targets index.now) reports tallies.old
        → OnOk result (AreTalliesAfter (listed_targets index.now) log.entry.target.now reports bytes.now tallies.new) }
{
    let mut upto = 0;
    'lines: loop {
        upto += skip_lines(&bytes[upto..]);
        let Some(at) = memchr(b'\n', &bytes[upto..]) else {
            return Ok(upto);
        };
        add_line(alloc, index, tallies, log, &bytes[upto..upto + at])?;
        upto += at + 1;
    }
}

// Returns the start of the first line that has an `@`, or of the last line if none has one.
fn skip_lines(bytes: &[u8]) -> usize
    ensures range { result ≤ length bytes.now }
    ensures complete { rest (take result bytes.now) ≡ [] }
    ensures none { AllByRecursion (λ byte. byte ≢ at_sign) (take result bytes.now) }
{
    let end = find_at(bytes);
    match memrchr(b'\n', &bytes[..end]) {
        Some(last) => last + 1,
        None => 0,
    }
}

// Returns the place of the first `@`, or the number of bytes if there is none.
fn find_at(bytes: &[u8]) -> usize
    ensures range { result ≤ length bytes.now }
    ensures none { AllByRecursion (λ byte. byte ≢ at_sign) (take result bytes.now) }
{
    match memchr(b'@', bytes) {
        Some(at) => at,
        None => bytes.len(),
    }
}

// Adds the reports of an ended line.
fn add_line(
    alloc: Global,
    index: &Index,
    tallies: &mut [Tally],
    log: Log<'_>,
    line: &[u8],
) -> Result<(), AllocError>
    requires index { IsIndex index.now }
    requires count { length tallies.old ≡ length index.now }
    requires log { slice_get (listed_targets index.now) log.position ≡ Some log.target.now }
    ensures { (reports : List Report) → AreTallies (listed_targets index.now) reports tallies.old
        → OnOk result (AreTallies (listed_targets index.now) (reports ++ reports_in log.entry.target.now (line.now ∷ [])) tallies.new) }
{
    if let Some(report) = read_report(alloc, log.target, line)? {
        add_report(index, tallies, log, report)?;
    }
    Ok(())
}
