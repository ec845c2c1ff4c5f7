//! Facts of a single log.
//!
//! Warnings are searched in whole stretches of stored lines, not line by line. An occurrence lies in one line, because the
//! searched text has no line feed; the search goes on after the end of this line.
ghost use Rattle.std.specs.Prelude.{◌≡◌, [], codes, count_by};
ghost use Rattle.memchr.specs.Find.{FindsNeedle};
ghost use Rattle.redo_line.specs.Lines.{ended, rest};
ghost use Rattle.redo_logs.specs.EntryRef.{entry_value};
ghost use Rattle.redo_outline.specs.Facts.{closing_status, entries_at, is_warning, target_at};
ghost use Rattle.redo_outline.specs.Private.LogFacts.{after_line, facts_of, warnings_if};

use memchr::memchr;
use redo_logs::{EntryRef, LogTable};

/// The facts about a log by itself. A count that exceeds 2^64 - 1 is 2^64 - 1.
#[derive(Clone, Copy)]
pub struct LogFacts {
    pub lines: u64,
    pub bytes: u64,
    pub warnings: u64,
    /// The status in its closing record.
    pub status: Option<i32>,
}

/// Returns the target of the log with this number, or the empty name if there is no such log.
pub fn target_at(table: &LogTable, number: u32) -> &[u8]
    ensures { result.now ≡ target_at table.now number }
{
    if number < table.len() {
        table.name(number).bytes()
    } else {
        b""
    }
}

/// Returns the facts of log `number`. A log that doesn't exist has no entries. Without warnings, their number is 0.
pub fn log_facts(table: &LogTable, number: u32, with_warnings: bool) -> LogFacts
    ensures { result ≡ facts_of with_warnings (entries_at number table.now) }
{
    let logs = table.numbered();
    let mut facts = LogFacts {
        lines: 0,
        bytes: 0,
        warnings: 0,
        status: None,
    };
    let mut next_entry = 0;
    'entries: loop {
        let (lines, count) = logs.lines(number, next_entry);
        if count > 0 {
            facts.lines = facts.lines.saturating_add(count as u64);
            facts.bytes = facts.bytes.saturating_add(lines.len() as u64);
            facts.warnings = facts
                .warnings
                .saturating_add(warnings_if(with_warnings, lines));
            next_entry += count;
        } else if let Some(entry) = table.entry(number, next_entry) {
            facts.status = facts.status.or(closing_status(entry));
            next_entry += 1;
        } else {
            return facts;
        }
    }
}

// Returns the status in a closing record.
fn closing_status(entry: EntryRef<'_>) -> Option<i32>
    ensures { result ≡ closing_status (entry_value entry.entry) }
{
    match entry {
        EntryRef::Closing { status, .. } => Some(status),
        _ => None,
    }
}

// Returns the number of lines that are warnings, if they are counted. The lines are passed with their line feeds.
fn warnings_if(counted: bool, lines: &[u8]) -> u64
    requires { rest lines.now ≡ [] }
    ensures { result ≡ warnings_if counted (ended lines.now) }
{
    if counted { count_warnings(lines) } else { 0 }
}

// Returns the number of lines that are warnings. The lines are passed with their line feeds.
fn count_warnings(lines: &[u8]) -> u64
    requires { rest lines.now ≡ [] }
    ensures { result ≡ count_by is_warning (ended lines.now) }
{
    let mut count = 0;
    let mut left = lines;
    'warnings: while let Some(at) = find_warning(left) {
        left = after_line(&left[at..]);
        count += 1;
    }
    count
}

// Returns the place of the first `warning:`. It looks only where a `w` is: the output of compilers has few, while places such as
// `a.c:12:5:` and names of C++ have many colons. A search for two of the letters at once costs more where warnings are frequent.
fn find_warning(bytes: &[u8]) -> Option<usize>
    ensures { FindsNeedle bytes.now (codes "warning:") 0 result }
{
    let mut from = 0;
    'letters: while let Some(at) = memchr(b'w', &bytes[from..]) {
        let place = from + at;
        if bytes[place..].starts_with(b"warning:") {
            return Some(place);
        }
        from = place + 1;
    }
    None
}

// Returns the bytes after the first line feed; none if there is no line feed.
fn after_line(bytes: &[u8]) -> &[u8]
    ensures { result.now ≡ after_line bytes.now }
{
    match memchr(b'\n', bytes) {
        Some(end) => &bytes[end + 1..],
        None => &[],
    }
}
