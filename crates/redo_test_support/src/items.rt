//! The text form of items, for tests.
use redo_line::{Entries, Entry, EntryAt};
use redo_wire::{Item, What};
use std::alloc::{AllocError, Global};
use std::str;

/// Returns the text form of an item.
pub fn item_text(alloc: Global, item: &Item) -> Result<String, AllocError> {
    let head = format!(in alloc; "{} of {}:", item.stream, item.sender)?;
    match &item.what {
        What::Line(entry) => format!(in alloc; "{head} {}", text_of(entry)),
        What::Lines(entries) => lines_text(alloc, &head, entries),
        What::End => format!(in alloc; "{head} end"),
        What::Fail(fault) => format!(in alloc; "{head} {fault:?}"),
    }
}

fn lines_text(alloc: Global, head: &str, entries: &Entries) -> Result<String, AllocError> {
    let layout = entries.layout();
    let mut text = format!(in alloc; "{head}")?;
    for place in layout.places {
        for line in text_at(layout.bytes, *place).lines() {
            text.push_str(" ")?;
            text.push_str(line)?;
        }
    }
    Ok(text)
}

// Returns the lines at a place.
fn text_at(bytes: &[u8], place: EntryAt) -> &str {
    match place {
        EntryAt::Texts { start, end, .. } => shown(
            bytes.get(start..end).unwrap_or(b"no text".as_slice()),
        ),
        _ => "no text",
    }
}

fn text_of(entry: &Entry) -> &str {
    match entry {
        Entry::Text(line) => shown(line.bytes()),
        _ => "no text",
    }
}

fn shown(line: &[u8]) -> &str {
    str::from_utf8(line).unwrap_or("no text")
}
