//! The member of an object with the diagnostics of a log.
ghost use Rattle.std.specs.Prelude.{◌≡◌, ◌∷◌, ◌++◌, ℕ, List, [], None, Some, true, IfOk, OnOk, codes, option_copied, option_map};
ghost use Rattle.std.specs.List.{list_all};
ghost use Rattle.json.specs.Json.{string};
ghost use Rattle.json.specs.Print.{print};
ghost use Rattle.json.specs.Run.{is_plain};
ghost use Rattle.json.specs.Tree.{json_tokens};
ghost use Rattle.redo_device.specs.Sink.{Writes};
ghost use Rattle.redo_diagnostics.specs.Counts.{AreCounts, stored, times_of};
ghost use Rattle.redo_diagnostics.specs.Diagnostic.{HasNoTemporary, diagnostic_of, with_key};
ghost use Rattle.redo_outline.specs.Facts.{entries_at, texts_of};
ghost use Rattle.redo_view.specs.Form.{FormWrites};
ghost use Rattle.redo_json.specs.Diagnostics.{diagnostics_field, diagnostics_of, first_flag, flagged, other_flags, severity_name};
ghost use Rattle.redo_json.specs.Fields.{boolean_value, field, number_value, optional_bytes_fields};
ghost use Rattle.redo_json.specs.Private.Diagnosing.{Adds, IsOfLine, IsVerbatimDiagnostic};
ghost use Rattle.redo_json.specs.Private.LogLines.{AreOfKind, IsOfKind, IsSimple};
ghost use Rattle.redo_json.specs.Private.Parts.{comma_field, comma_fields, diagnostic_text, diagnostics_text, place_text};

use crate::field::write_bytes;
use crate::joined::{join_diagnostic, object_end, object_start};
use crate::kind::Kind;
use crate::log_lines::next_candidate;
use crate::part::{Part, write_parts};
use crate::plain::{is_verbatim, plain_len};
use memchr::{memchr, memmem};
use redo_device::{Broken, Sink, push_all};
use redo_diagnostics::{
    Diagnostic, Key, KeyCounts, Place, Severity, read_diagnostic, read_simple_diagnostic,
};
use redo_logs::LogTable;
use redo_outline::TextLines;
use redo_view::FormFault;
use std::alloc::{AllocError, Global};

// A buffer with this number of bytes is full. The buffer of a pipe is larger, so a write doesn't wait twice for the reader.
const FULL_BYTES: usize = 32_768;

/// Writes a member with the diagnostics of a log. If there is a baseline, `flags` says of each diagnostic, in order, whether it is new.
/// The lines are of this kind. `buffer` is overwritten, and what `counts` had is lost.
pub fn write_diagnostics<'t, W: Sink>(
    alloc: Global,
    flags: Option<&[bool]>,
    kind: Kind,
    table: &'t LogTable,
    number: u32,
    buffer: &mut Vec<u8>,
    counts: &mut KeyCounts<'t>,
    out: &mut W,
) -> Result<(), FormFault>
    requires { AreOfKind kind (texts_of (entries_at number table.now)) }
    ensures { FormWrites (W.written out.old) (W.written out.new)
        (comma_field (diagnostics_field (option_copied flags.entry) (texts_of (entries_at number table.now)))) result }
{
    push_all(out, b",\"diagnostics\":[")?;
    write_each(alloc, flags, kind, table, number, buffer, counts, out)?;
    push_all(out, b"]")?;
    Ok(())
}

// Writes the diagnostics of a log, with a comma between two of them.
fn write_each<'t, W: Sink>(
    alloc: Global,
    flags: Option<&[bool]>,
    kind: Kind,
    table: &'t LogTable,
    number: u32,
    buffer: &mut Vec<u8>,
    counts: &mut KeyCounts<'t>,
    out: &mut W,
) -> Result<(), FormFault>
    requires { AreOfKind kind (texts_of (entries_at number table.now)) }
    ensures { FormWrites (W.written out.old) (W.written out.new)
        (diagnostics_text true (flagged (option_copied flags.entry) (diagnostics_of (texts_of (entries_at number table.now))))) result }
{
    let mut lines = TextLines::new(table, number);
    let mut plain = Vec::new(alloc);
    let mut is_first = true;
    let mut left = flags;
    counts.clear();
    buffer.clear();
    'each: while let Some((position, line)) = next_candidate(&mut lines) {
        let is_known = is_simple(kind, line);
        if let Some((diagnostic, key)) = read_line(alloc, is_known, line, &mut plain)? {
            let (new, others) = next_flag(left);
            write_diagnostic(
                alloc,
                is_first,
                position,
                is_known,
                &diagnostic,
                key,
                new,
                counts,
                buffer,
                out,
            )?;
            is_first = false;
            left = others;
        }
    }
    flush(buffer, out)
}

// Returns true only if a line of a log of this kind is simple. It isn't worth knowing for a line without a colon, which is no diagnostic.
fn is_simple(kind: Kind, line: &[u8]) -> bool
    requires { IsOfKind kind line.now }
    ensures { result ≡ true → IsSimple line.now }
{
    match kind {
        Kind::Simple => true,
        Kind::Text => {
            if memchr(b':', line).is_none() {
                return false;
            }
            has_no_escape(line) && has_no_temporary(line)
        }
        Kind::Any => false,
    }
}

// Returns whether a string of JSON has the bytes of a line as they are.
fn has_no_escape(line: &[u8]) -> bool
    ensures { result ≡ true → list_all is_plain line.now ≡ true }
{
    plain_len(line) == line.len()
}

// Returns whether no name of a temporary file can be in a line.
fn has_no_temporary(line: &[u8]) -> bool
    ensures { result ≡ true → HasNoTemporary line.now }
{
    memmem::find(line, b"/cc").is_none()
}

// Writes what is in a buffer.
fn flush<W: Sink>(buffer: &mut Vec<u8>, out: &mut W) -> Result<(), FormFault>
    ensures wrote { Adds (W.written out.old) (W.written out.new) buffer.old.items buffer.new.items [] result }
    ensures empty { OnOk result (buffer.new.items ≡ []) }
{
    push_all(out, buffer)?;
    buffer.clear();
    Ok(())
}

// Writes what is in a buffer if it is full.
fn make_room<W: Sink>(buffer: &mut Vec<u8>, out: &mut W) -> Result<(), FormFault>
    ensures { Adds (W.written out.old) (W.written out.new) buffer.old.items buffer.new.items [] result }
{
    if buffer.len() < FULL_BYTES {
        return Ok(());
    }
    flush(buffer, out)
}

// Returns the diagnostic of a line, if it is one, and its key. `is_simple` says that the line is known to be simple. Otherwise the key is a
// copy.
fn read_line<'t: 'a, 'a>(
    alloc: Global,
    is_simple: bool,
    line: &'t [u8],
    plain: &'a mut Vec<u8>,
) -> Result<Option<(Diagnostic<'a>, Key<'t>)>, AllocError>
    requires { is_simple ≡ true → IsSimple line.now }
    ensures { IfOk result (λ found. found ≡ option_map with_key (diagnostic_of line.now)) }
{
    if is_simple {
        return Ok(read_simple_diagnostic(line));
    }
    let Some(diagnostic) = read_diagnostic(line, plain)? else {
        return Ok(None);
    };
    let key = diagnostic.key(alloc)?.to_owned(alloc)?;
    Ok(Some((diagnostic, key)))
}

// Returns the flag of the next diagnostic, and the flags of the others.
fn next_flag(flags: Option<&[bool]>) -> (Option<bool>, Option<&[bool]>)
    ensures first { result.0 ≡ first_flag (option_copied flags.entry) }
    ensures others { option_copied result.1 ≡ other_flags (option_copied flags.entry) }
{
    match flags {
        None => (None, None),
        Some([]) => (None, Some(&[])),
        Some([first, others @ ..]) => (Some(*first), Some(others)),
    }
}

// Writes the object of a diagnostic, after a comma unless it is the first one, and counts its key. `is_known` says that its strings are known
// to be written as they are. The object may be left in `buffer`, behind what is there.
fn write_diagnostic<'t, W: Sink>(
    alloc: Global,
    is_first: bool,
    position: usize,
    is_known: bool,
    diagnostic: &Diagnostic<'_>,
    key: Key<'t>,
    new: Option<bool>,
    counts: &mut KeyCounts<'t>,
    buffer: &mut Vec<u8>,
    out: &mut W,
) -> Result<(), FormFault>
    requires of_line { IsOfLine diagnostic.now }
    requires key { key ≡ diagnostic.now.key }
    requires known { is_known ≡ true → IsVerbatimDiagnostic diagnostic.now }
    ensures counted { (keys : List (List ℕ)) → AreCounts counts.old keys → OnOk result (
        AreCounts counts.new (keys ++ diagnostic.now.key ∷ [])) }
    ensures wrote { (keys : List (List ℕ)) → AreCounts counts.old keys →
        Adds (W.written out.old) (W.written out.new) buffer.old.items buffer.new.items (diagnostic_text is_first
        (record { line = position; value = diagnostic.now; nth = stored (times_of diagnostic.now.key keys) }, new)) result }
{
    if is_verbatim_diagnostic(is_known, diagnostic, &key) {
        make_room(buffer, out)?;
        join_diagnostic(is_first, position, diagnostic, key, new, counts, buffer)?;
        return Ok(());
    }
    let bytes = key.to_vec(alloc)?;
    let nth = counts.add(key)?;
    flush(buffer, out)?;
    write_any_diagnostic(is_first, position, diagnostic, &bytes, nth, new, out)?;
    Ok(())
}

// Returns true only if all strings of a diagnostic are written as they are. It looks only at the key, which has the other strings in it: the
// letters and digits that are replaced in a name of a temporary file are written as they are, too. `is_known` says that it is known already.
fn is_verbatim_diagnostic(is_known: bool, diagnostic: &Diagnostic<'_>, key: &Key<'_>) -> bool
    requires of_line { IsOfLine diagnostic.now }
    requires key { key.now ≡ diagnostic.now.key }
    requires known { is_known ≡ true → IsVerbatimDiagnostic diagnostic.now }
    ensures { result ≡ true → IsVerbatimDiagnostic diagnostic.now }
{
    if is_known {
        return true;
    }
    let (origin, tail) = key.parts();
    is_verbatim(origin) && is_verbatim(tail)
}

// Writes the object of a diagnostic, whatever bytes it has, after a comma unless it is the first one.
fn write_any_diagnostic<W: Sink>(
    is_first: bool,
    position: usize,
    diagnostic: &Diagnostic<'_>,
    key: &[u8],
    nth: u64,
    new: Option<bool>,
    out: &mut W,
) -> Result<(), Broken>
    requires { key.now ≡ diagnostic.now.key }
    ensures { Writes (W.written out.old) (W.written out.new)
        (diagnostic_text is_first (record { line = position; value = diagnostic.now; nth = nth }, new)) result }
{
    write_parts(
        &[
            Part::Json(object_start(is_first)),
            Part::Number(position as u64),
        ],
        out,
    )?;
    write_severity(diagnostic.severity(), out)?;
    write_place(diagnostic.place(), out)?;
    let (message, flag) = diagnostic.message_and_flag();
    write_bytes(b"message", b",\"message\":\"", message, out)?;
    write_flag(flag, out)?;
    write_bytes(b"key", b",\"key\":\"", key, out)?;
    write_parts(
        &[
            Part::Json(b",\"nth\":"),
            Part::Number(nth),
            Part::Json(object_end(new)),
        ],
        out,
    )
}

fn write_severity<W: Sink>(severity: Severity, out: &mut W) -> Result<(), Broken>
    ensures { Writes (W.written out.old) (W.written out.new)
        (comma_field (field (codes "severity") (string (severity_name severity)))) result }
{
    match severity {
        Severity::Warning => push_all(out, b",\"severity\":\"warning\""),
        Severity::Error => push_all(out, b",\"severity\":\"error\""),
        Severity::FatalError => push_all(out, b",\"severity\":\"fatal error\""),
    }
}

// Writes the members with the place of a diagnostic. What isn't known is `null`.
fn write_place<W: Sink>(place: Option<Place<'_>>, out: &mut W) -> Result<(), Broken>
    ensures { Writes (W.written out.old) (W.written out.new) (place_text place.entry) result }
{
    match place {
        None => push_all(out, b",\"file\":null,\"row\":null,\"column\":null"),
        Some(place) => write_known_place(&place, out),
    }
}

fn write_known_place<W: Sink>(place: &Place<'_>, out: &mut W) -> Result<(), Broken>
    ensures { Writes (W.written out.old) (W.written out.new) (place_text (Some place.now)) result }
{
    write_bytes(b"file", b",\"file\":\"", place.file(), out)?;
    write_parts(
        &[
            Part::Json(b",\"row\":"),
            Part::Number(place.row() as u64),
            Part::Json(b",\"column\":"),
        ],
        out,
    )?;
    write_column(place.column(), out)
}

fn write_column<W: Sink>(column: Option<u32>, out: &mut W) -> Result<(), Broken>
    ensures { Writes (W.written out.old) (W.written out.new) (print (json_tokens (number_value column))) result }
{
    match column {
        None => push_all(out, b"null"),
        Some(column) => write_parts(&[Part::Number(column as u64)], out),
    }
}

// Writes the member with the flag of a diagnostic, or `null`.
fn write_flag<'a, W: Sink>(flag: Option<&'a [u8]>, out: &mut W) -> Result<(), Broken>
    ensures { Writes (W.written out.old) (W.written out.new)
        (comma_fields (optional_bytes_fields (codes "flag") (option_copied flag.entry))) result }
{
    match flag {
        None => push_all(out, b",\"flag\":null"),
        Some(flag) => write_bytes(b"flag", b",\"flag\":\"", flag, out),
    }
}
