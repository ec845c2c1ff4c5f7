//! The member of an object with the text lines of a log. The lines are read from the table once for each part.
ghost use Rattle.std.specs.Prelude.{◌≡◌, true, [], IfNone, IfSome, OnOk};
ghost use Rattle.std.specs.List.{list_all};
ghost use Rattle.std.specs.Str.{is_utf8};
ghost use Rattle.json.specs.Print.{escape};
ghost use Rattle.json.specs.Run.{is_plain};
ghost use Rattle.redo_device.specs.Sink.{Writes};
ghost use Rattle.redo_line.specs.Lines.{ended};
ghost use Rattle.redo_outline.specs.Facts.{entries_at, texts_of};
ghost use Rattle.redo_json.specs.Fields.{exact_items, exact_list, exact_name, list_fields};
ghost use Rattle.redo_json.specs.Private.LogLines.{AreOfKind, ArePlainLines, AreUtf8, IsNextExactLine};
ghost use Rattle.redo_json.specs.Private.Parts.{comma_fields, items_text};
ghost use Rattle.redo_json.specs.Private.Lines.{BeginsWithLine, before_line, lines_left, lines_text};
ghost use Rattle.redo_json.specs.Private.Writing.{IsAppended};
ghost use Rattle.redo_json.specs.Text.{text_of};

use crate::escape::{join_escaped, write_escaped};
use crate::field::is_text;
use crate::joined::join_bytes;
use crate::kind::Kind;
use crate::list::write_exact_item;
use crate::part::{Part, write_parts};
use crate::plain::are_plain_lines;
use crate::string::write_text;
use memchr::memchr;
use redo_device::{Broken, Sink, push_all};
use redo_logs::LogTable;
use redo_outline::TextLines;
use std::alloc::AllocError;

/// Writes a member with the texts of a log's lines, which are of this kind, and another one with the exact bytes of lines whose texts don't
/// have them. `buffer` is overwritten.
pub fn write_lines<W: Sink>(
    name: &[u8],
    kind: Kind,
    table: &LogTable,
    number: u32,
    buffer: &mut Vec<u8>,
    out: &mut W,
) -> Result<(), Broken>
    requires { AreOfKind kind (texts_of (entries_at number table.now)) }
    ensures { Writes (W.written out.old) (W.written out.new)
        (comma_fields (list_fields name.now (texts_of (entries_at number table.now)))) result }
{
    write_parts(
        &[Part::Json(b",\""), Part::Escaped(name), Part::Json(b"\":[")],
        out,
    )?;
    write_texts(kind, table, number, buffer, out)?;
    push_all(out, b"]")?;
    if kind.is_text() {
        return Ok(());
    }
    write_exact_lines(name, table, number, out)
}

// Writes the strings of a log's lines, which are of this kind, with a comma between two of them. `buffer` is overwritten.
fn write_texts<W: Sink>(
    kind: Kind,
    table: &LogTable,
    number: u32,
    buffer: &mut Vec<u8>,
    out: &mut W,
) -> Result<(), Broken>
    requires { AreOfKind kind (texts_of (entries_at number table.now)) }
    ensures { Writes (W.written out.old) (W.written out.new) (items_text true (texts_of (entries_at number table.now))) result }
{
    let mut left = TextLines::new(table, number);
    let mut is_first = true;
    'stretches: while let Some(lines) = left.next_stretch() {
        write_stretch(kind, is_first, lines, buffer, out)?;
        is_first = false;
    }
    push_all(out, last_quote(is_first))
}

// Returns the quote that ends the last string, unless there is no string.
fn last_quote(is_first: bool) -> &'static [u8]
    ensures { result.now ≡ lines_left is_first [] }
{
    if is_first { b"" } else { b"\"" }
}

// Writes the strings of lines that are stored together, from the quote that ends the string before them, up to the last line. They are of this
// kind. `is_first` says that there is no string before them. If they are UTF-8, the strings are joined in memory, and are one write.
fn write_stretch<W: Sink>(
    kind: Kind,
    is_first: bool,
    lines: &[u8],
    buffer: &mut Vec<u8>,
    out: &mut W,
) -> Result<(), Broken>
    requires { AreOfKind kind (ended lines.now) }
    ensures { Writes (W.written out.old) (W.written out.new) (lines_text is_first (ended lines.now)) result }
{
    let are_text = kind.is_text();
    if are_text && lines.len() <= JOINED_BYTES {
        buffer.clear();
        if join_lines(is_first, are_plain(kind, lines), lines, buffer).is_ok() {
            return push_all(out, buffer);
        }
    }
    write_each_line(are_text, is_first, lines, out)
}

// Returns true only if no byte of these lines, which are of this kind, has an escape.
fn are_plain(kind: Kind, lines: &[u8]) -> bool
    requires { AreOfKind kind (ended lines.now) }
    ensures { result ≡ true → ArePlainLines (ended lines.now) }
{
    if kind.is_plain() {
        return true;
    }
    are_plain_lines(lines)
}

// The most bytes of lines that are joined.
const JOINED_BYTES: usize = 65_536;

// Appends the strings of lines that are UTF-8, as `write_stretch` writes them. `are_plain` says that no byte is known to have an escape.
fn join_lines(
    is_first: bool,
    are_plain: bool,
    lines: &[u8],
    joined: &mut Vec<u8>,
) -> Result<(), AllocError>
    requires text { AreUtf8 (ended lines.now) }
    requires plain { are_plain ≡ true → ArePlainLines (ended lines.now) }
    ensures { OnOk result (IsAppended joined.old.items joined.new.items (lines_text is_first (ended lines.now))) }
{
    let mut is_next_first = is_first;
    let mut left = lines;
    'lines: while let Some((line, others)) = split_line(left) {
        join_bytes(before_line(is_next_first), joined)?;
        join_line(are_plain, line, joined)?;
        is_next_first = false;
        left = others;
    }
    Ok(())
}

// Appends what a string with the text of a line has between its quotes. The line is UTF-8. `has_no_escape` says that its bytes are known to
// have no escape.
#[inline(always)]
fn join_line(has_no_escape: bool, line: &[u8], joined: &mut Vec<u8>) -> Result<(), AllocError>
    requires text { is_utf8 line.now ≡ true }
    requires plain { has_no_escape ≡ true → list_all is_plain line.now ≡ true }
    ensures { OnOk result (IsAppended joined.old.items joined.new.items (escape (text_of line.now))) }
{
    if has_no_escape {
        return join_bytes(line, joined);
    }
    join_escaped(line, joined)
}

// Writes the strings of lines one by one, as `write_stretch` does.
fn write_each_line<W: Sink>(
    are_text: bool,
    is_first: bool,
    lines: &[u8],
    out: &mut W,
) -> Result<(), Broken>
    requires { are_text ≡ true → AreUtf8 (ended lines.now) }
    ensures { Writes (W.written out.old) (W.written out.new) (lines_text is_first (ended lines.now)) result }
{
    let mut is_next_first = is_first;
    let mut left = lines;
    'lines: while let Some((line, others)) = split_line(left) {
        push_all(out, before_line(is_next_first))?;
        write_line(are_text, line, out)?;
        is_next_first = false;
        left = others;
    }
    Ok(())
}

// Returns the first line without its line feed, and the bytes after the line feed.
#[inline(always)]
fn split_line(lines: &[u8]) -> Option<(&[u8], &[u8])>
    ensures some { IfSome result (λ parts. BeginsWithLine lines.now parts.0.now parts.1.now) }
    ensures none { IfNone result (ended lines.now ≡ []) }
{
    match memchr(b'\n', lines) {
        Some(end) => Some((&lines[..end], &lines[end + 1..])),
        None => None,
    }
}

// Returns what is between a string and the next one, from its quotes on: only a quote before the first one.
fn before_line(is_first: bool) -> &'static [u8]
    ensures { result.now ≡ before_line is_first }
{
    if is_first { b"\"" } else { b"\",\"" }
}

// Writes what a string with the text of a line has between its quotes. `is_text` says that the line is known to be UTF-8.
fn write_line<W: Sink>(is_text: bool, line: &[u8], out: &mut W) -> Result<(), Broken>
    requires { is_text ≡ true → is_utf8 line.now ≡ true }
    ensures { Writes (W.written out.old) (W.written out.new) (escape (text_of line.now)) result }
{
    if is_text {
        write_escaped(line, out)
    } else {
        write_text(line, out)
    }
}

// Writes a member with the exact bytes of those lines of which the texts don't have them, if there are such lines.
fn write_exact_lines<W: Sink>(
    name: &[u8],
    table: &LogTable,
    number: u32,
    out: &mut W,
) -> Result<(), Broken>
    ensures { Writes (W.written out.old) (W.written out.new)
        (comma_fields (exact_list (exact_name name.now) (exact_items 0 (texts_of (entries_at number table.now))))) result }
{
    let mut lines = TextLines::new(table, number);
    let Some((position, line)) = next_exact_line(&mut lines) else {
        return Ok(());
    };
    write_parts(
        &[
            Part::Json(b",\""),
            Part::Escaped(name),
            Part::Json(b"_base64\":{"),
        ],
        out,
    )?;
    write_exact_item(position, line, out)?;
    write_other_lines(&mut lines, out)?;
    push_all(out, b"}")
}

// Writes the exact bytes of those lines that are left of which the texts don't have them, each after a comma.
fn write_other_lines<W: Sink>(lines: &mut TextLines<'_>, out: &mut W) -> Result<(), Broken>
    ensures { Writes (W.written out.old) (W.written out.new) (comma_fields (exact_items lines.old.done lines.old.left)) result }
{
    'each: while let Some((position, line)) = next_exact_line(lines) {
        push_all(out, b",")?;
        write_exact_item(position, line, out)?;
    }
    Ok(())
}

// Returns the next line of which the text doesn't have the exact bytes, and its position.
fn next_exact_line<'a>(lines: &mut TextLines<'a>) -> Option<(usize, &'a [u8])>
    ensures some { IfSome result (λ found. IsNextExactLine lines.old lines.new found.0 found.1.now) }
    ensures none { IfNone result (exact_items lines.old.done lines.old.left ≡ []) }
{
    'each: loop {
        let position = lines.position();
        let Some(line) = lines.next_line() else {
            return None;
        };
        if !is_text(line) {
            return Some((position, line));
        }
    }
}
