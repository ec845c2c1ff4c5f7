//! Reads the entry of a line. `BadRecord` is decided before anything is allocated, so it is returned exactly if a line has no
//! entry. Names of kinds are compared one after another, because a proof can't cite the bytes of a pattern over byte strings.
ghost use Rattle.std.specs.Prelude.{◌≡◌, ◌↔◌, ◌&&◌, true, None, Some, Ok, Err, IfOk, IsTrue, nat_eq};
ghost use Rattle.std.specs.List.{starts_with};
ghost use Rattle.redo_line.specs.Parts.{split_once};
ghost use Rattle.redo_line.specs.Record.{record_prefix, space};
ghost use Rattle.redo_line.specs.Entry.{entry_of, candidate_body, done_entry};
ghost use Rattle.redo_line.specs.Line.{line_fault_of_name};
ghost use Rattle.redo_line.specs.Lines.{HasNoLineFeed};
ghost use Rattle.redo_line.specs.Private.CutLine.{line_bytes};
ghost use Rattle.redo_line.specs.Private.Line.{Reads, ReadsInto};
ghost use Rattle.redo_line.specs.declared.entry.Entry.TheVariants.{Text};
ghost use Rattle.redo_line.specs.declared.line.LineFault.TheVariants.{BadRecord, OutOfMemory};

use crate::entries::Entries;
use crate::entry::Entry;
use crate::line_text::LineText;
use crate::partial_line::Line;
use crate::record::{Kind, kind_of, read_fields, read_status};
use crate::resolver::Resolver;
use crate::split_once::split_at_first;
use redo_name::{NameFault, TargetName};
use std::alloc::{AllocError, Global};

// The record prefix.
pub const RECORD_PREFIX: &[u8] = b"@@REDO:";

/// Why a line has no entry.
#[derive(Clone, Copy, Debug, PartialEq, Eq)]
pub enum LineFault {
    /// The line is ended and begins with the record prefix, but is not a record.
    BadRecord,
    /// An allocation failed.
    OutOfMemory,
}

impl From<AllocError> for LineFault {
    ghost from_gives = { λ _ fault. fault ≡ OutOfMemory };

    fn from(_: AllocError) -> LineFault {
        LineFault::OutOfMemory
    }
}

impl From<NameFault> for LineFault {
    ghost from_gives = { λ name_fault fault. fault ≡ line_fault_of_name name_fault };

    // A line whose name is empty is not a record.
    fn from(fault: NameFault) -> LineFault {
        match fault {
            NameFault::Empty => LineFault::BadRecord,
            NameFault::OutOfMemory => LineFault::OutOfMemory,
        }
    }
}

/// Returns the entry of a line in the log of a target. An ended line that begins with `@@REDO:` is a
/// candidate; it fails with `BadRecord` exactly if it is not a record. Any other line is text.
/// docs/format.md has the rule.
///
/// A text line needs no allocation: its entry takes ownership of the line.
pub fn read_line(
    alloc: Global,
    target: &TargetName,
    line: LineText,
    ended: bool,
) -> Result<Entry, LineFault>
    // The entry of a record has its pid, as a number.
    ensures entry { IfOk result (λ entry. entry_of target.now line ended ≡ Some entry) }
    ensures bad { (result ≡ Err LineFault.BadRecord) ↔ (entry_of target.now line ended ≡ None) }
    ensures text { candidate_body line ended ≡ None → result ≡ Ok (Text line) }
{
    if is_candidate(line.bytes(), ended) {
        read_owned(alloc, target, line.bytes())
    } else {
        Ok(Entry::Text(line))
    }
}

// Returns whether the line is a candidate: whether it must be a record.
fn is_candidate(line: &[u8], ended: bool) -> bool
    ensures { result ≡ (ended && starts_with nat_eq line.now record_prefix) }
{
    ended && has_record_prefix(line)
}

// Returns whether the line begins with the record prefix. Most lines differ from it in the first byte.
pub fn has_record_prefix(line: &[u8]) -> bool
    ensures { result ≡ starts_with nat_eq line.now record_prefix }
{
    match line.first() {
        Some(b'@') => line.starts_with(RECORD_PREFIX),
        _ => false,
    }
}

// Returns the entry of a record, with its own buffers.
fn read_owned(alloc: Global, target: &TargetName, line: &[u8]) -> Result<Entry, LineFault>
    requires record_prefix { IsTrue (starts_with nat_eq line.now record_prefix) }
    requires no_line_feed { HasNoLineFeed line.now }
    ensures { Reads result (entry_of target.now line.now true) }
{
    let mut read = Entries::new(alloc);
    let mut names = Resolver::new(alloc, target);
    read_record(&mut read, &mut names, target, line)?;
    let entry = read.into_entry(alloc)?;
    Ok(entry)
}

/// Appends the entry of an ended line in the log of a target to `entries`, and returns whether it closes the log. If it
/// fails, `entries` are unchanged.
pub fn read_into(
    entries: &mut Entries,
    names: &mut Resolver,
    target: &TargetName,
    line: Line<'_>,
) -> Result<bool, LineFault>
    requires target { names.old.target ≡ target.now }
    requires no_line_feed { HasNoLineFeed (line_bytes line) }
    ensures read { ReadsInto result (entry_of target.now (line_bytes line.entry) true) entries.old entries.new }
    ensures target_unchanged { names.new.target ≡ names.old.target }
{
    if is_candidate(line.bytes(), true) {
        return read_record(entries, names, target, line.bytes());
    }
    entries.push_line(line)?;
    Ok(false)
}

fn read_record(
    entries: &mut Entries,
    names: &mut Resolver,
    target: &TargetName,
    line: &[u8],
) -> Result<bool, LineFault>
    requires target { names.old.target ≡ target.now }
    requires record_prefix { IsTrue (starts_with nat_eq line.now record_prefix) }
    requires no_line_feed { HasNoLineFeed line.now }
    ensures read { ReadsInto result (entry_of target.now line.now true) entries.old entries.new }
    ensures target_unchanged { names.new.target ≡ names.old.target }
{
    let Some(fields) = read_fields(&line[RECORD_PREFIX.len()..]) else {
        return Err(LineFault::BadRecord);
    };
    match kind_of(fields.kind) {
        Kind::Mention(how) => {
            names.resolve(target, fields.text)?;
            entries.push_mention(fields.pid, how, names.path())?;
            Ok(false)
        }
        Kind::Done => read_done(entries, names, target, fields.pid, fields.text),
        Kind::Note => {
            entries.push_note(fields.pid, fields.kind, fields.text)?;
            Ok(false)
        }
    }
}

fn read_done(
    entries: &mut Entries,
    names: &mut Resolver,
    target: &TargetName,
    pid: u32,
    text: &[u8],
) -> Result<bool, LineFault>
    requires { names.old.target ≡ target.now }
    ensures read { ReadsInto result (done_entry target.now pid (split_once space text.now)) entries.old entries.new }
    ensures target_unchanged { names.new.target ≡ names.old.target }
{
    let Some((status, name)) = split_at_first(b' ', text) else {
        return Err(LineFault::BadRecord);
    };
    let Some(status) = read_status(status) else {
        return Err(LineFault::BadRecord);
    };
    names.resolve(target, name)?;
    let closes = names.path() == target.bytes();
    if closes {
        entries.push_closing(pid, status)?;
    } else {
        entries.push_done(pid, status, names.path())?;
    }
    Ok(closes)
}
