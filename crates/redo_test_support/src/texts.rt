//! The text forms of entries and logs, for tests. An entry is one word for its variant, the pid of its record, and its
//! parts, with a `|` between them. A log is a line with its target and its state, and then a line for each entry.
use redo_line::How;
use redo_logs::{EntryRef, LogTable};
use std::alloc::{AllocError, Global};
use std::{fmt, str};

fn text(bytes: &[u8]) -> &str {
    str::from_utf8(bytes).unwrap_or("no text")
}

/// Returns the word for a mention: the kind of its record.
fn kind(how: How) -> &'static str {
    match how {
        How::Made => "do",
        How::Waiting => "waiting",
        How::Locked => "locked",
        How::Unlocked => "unlocked",
        How::Unchanged => "unchanged",
    }
}

/// Returns the text form of an entry.
pub fn entry_text(alloc: Global, entry: EntryRef<'_>) -> Result<String, AllocError> {
    match entry {
        EntryRef::Text(line) => format!(in alloc; "text|{}", text(line)),
        EntryRef::Mention { pid, how, name } => {
            format!(in alloc; "{}|{pid}|{}", kind(how), text(name.bytes()))
        }
        EntryRef::Done { pid, status, name } => {
            format!(in alloc; "done|{pid}|{status}|{}", text(name.bytes()))
        }
        EntryRef::Closing { pid, status } => format!(in alloc; "closing|{pid}|{status}"),
        EntryRef::Note {
            pid,
            kind,
            text: note,
        } => { format!(in alloc; "note|{pid}|{}|{}", text(kind), text(note)) }
    }
}

/// Returns the text form of all logs of a table.
pub fn logs_text(alloc: Global, table: &LogTable) -> Result<String, AllocError> {
    let mut text = String::new(alloc);
    for i in 0..table.len() {
        let name = str::from_utf8(table.name(i).bytes()).unwrap_or("no text");
        text.push_str(&format!(in alloc; "{name}: {:?}\n", table.state(i))?)?;
        add_entries(alloc, &mut text, table, i)?;
    }
    Ok(text)
}

fn add_entries(
    alloc: Global,
    text: &mut String,
    table: &LogTable,
    i: u32,
) -> Result<(), AllocError> {
    for k in 0..usize::MAX {
        let Some(entry) = table.entry(i, k) else {
            break;
        };
        add_line(text, &entry_text(alloc, entry)?)?;
    }
    Ok(())
}

fn add_line(text: &mut String, line: &str) -> Result<(), AllocError> {
    text.push_str(line)?;
    text.push_str("\n")
}
