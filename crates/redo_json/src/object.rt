//! The object of a log.
ghost use Rattle.std.specs.Prelude.{◌≡◌, true, option_copied};
ghost use Rattle.redo_device.specs.Sink.{Writes};
ghost use Rattle.redo_line.specs.Lines.{with_line_feed};
ghost use Rattle.redo_outline.specs.Facts.{entries_at, texts_of};
ghost use Rattle.redo_view.specs.Form.{FormWrites};
ghost use Rattle.redo_json.specs.Build.{object_text};
ghost use Rattle.redo_json.specs.Object.{new_flags, number_fields};
ghost use Rattle.redo_json.specs.Private.LogLines.{AreOfKind};
ghost use Rattle.redo_json.specs.Private.Parts.{comma_fields, front_text};
ghost use Rattle.redo_json.specs.Private.Values.{values_of};

use crate::changes::write_baseline;
use crate::diagnostics::write_diagnostics;
use crate::field::{write_exact, write_number, write_optional_bytes, write_signed};
use crate::kind::Kind;
use crate::lines::write_lines;
use crate::list::write_list;
use crate::part::{Part, write_parts};
use redo_compare::TargetChanges;
use redo_device::{Broken, Sink, push_all};
use redo_diagnostics::KeyCounts;
use redo_logs::LogTable;
use redo_view::FormFault;
use std::alloc::Global;

/// The values of a log. An unknown value is `None`, or an empty list.
#[derive(Clone, Copy)]
pub struct LogObject<'t, 'a> {
    /// The name of the log's target.
    pub target: &'a [u8],
    /// The name of the target in whose log this log is opened.
    pub parent: Option<&'a [u8]>,
    /// The exit status of the target.
    pub status: Option<i32>,
    /// When the target began, in milliseconds since 1970.
    pub start_ms: Option<u64>,
    /// When the target ended, in milliseconds since 1970.
    pub end_ms: Option<u64>,
    /// The processor time of the recipe, in milliseconds.
    pub cpu_ms: Option<u64>,
    /// The peak memory of the recipe, in KiB.
    pub peak_kb: Option<u64>,
    /// The directory in which the recipe ran.
    pub directory: Option<&'a [u8]>,
    /// The commands of the recipe that are known whole.
    pub commands: &'a [&'a [u8]],
    /// The other targets that the log mentions.
    pub needs: &'a [&'a [u8]],
    /// The table that has the text lines of the log.
    pub table: &'t LogTable,
    /// The number of the log in this table.
    pub number: u32,
    /// What changed in the target since the baseline, if there is one.
    pub changes: Option<&'a TargetChanges>,
}

/// Writes the object of a log, and a line feed. `buffer` is overwritten, and what `counts` had is lost.
pub fn write_object<'t, W: Sink>(
    alloc: Global,
    log: &LogObject<'t, '_>,
    buffer: &mut Vec<u8>,
    counts: &mut KeyCounts<'t>,
    out: &mut W,
) -> Result<(), FormFault>
    ensures { FormWrites (W.written out.old) (W.written out.new) (with_line_feed (object_text (values_of log.now))) result }
{
    let kind = Kind::of(log.table, log.number);
    write_front(log, kind, buffer, out)?;
    write_diagnostics(
        alloc,
        new_flags(log.changes),
        kind,
        log.table,
        log.number,
        buffer,
        counts,
        out,
    )?;
    write_baseline(log.changes, out)?;
    push_all(out, b"}\n")?;
    Ok(())
}

// Returns, for each diagnostic of a log, whether it is new, if there is a baseline.
fn new_flags(changes: Option<&TargetChanges>) -> Option<&[bool]>
    ensures { option_copied result ≡ new_flags (option_copied changes.entry) }
{
    match changes {
        None => None,
        Some(changes) => Some(changes.new()),
    }
}

// Writes an object up to the text lines of the log, which are of this kind. `buffer` is overwritten.
fn write_front<W: Sink>(
    log: &LogObject<'_, '_>,
    kind: Kind,
    buffer: &mut Vec<u8>,
    out: &mut W,
) -> Result<(), Broken>
    requires { AreOfKind kind (texts_of (entries_at log.now.number log.now.table.now)) }
    ensures { Writes (W.written out.old) (W.written out.new) (front_text (values_of log.now)) result }
{
    write_parts(&[Part::Json(b"{\"target\":"), Part::Text(log.target)], out)?;
    write_exact(b"target", log.target, out)?;
    write_optional_bytes(b"parent", b",\"parent\":\"", log.parent, out)?;
    write_numbers(log, out)?;
    write_optional_bytes(b"directory", b",\"directory\":\"", log.directory, out)?;
    write_list(b"commands", log.commands, out)?;
    write_list(b"needs", log.needs, out)?;
    write_lines(b"lines", kind, log.table, log.number, buffer, out)
}

fn write_numbers<W: Sink>(log: &LogObject<'_, '_>, out: &mut W) -> Result<(), Broken>
    ensures { Writes (W.written out.old) (W.written out.new) (comma_fields (number_fields (values_of log.now))) result }
{
    write_signed(b"status", log.status, out)?;
    write_number(b"start_ms", log.start_ms, out)?;
    write_number(b"end_ms", log.end_ms, out)?;
    write_number(b"cpu_ms", log.cpu_ms, out)?;
    write_number(b"peak_kb", log.peak_kb, out)
}
