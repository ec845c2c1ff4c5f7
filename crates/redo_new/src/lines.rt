//! The lines of a log whose diagnostics are new.
ghost use Rattle.std.specs.Prelude.{◌≡◌, IfOk, is_some};
ghost use Rattle.std.specs.List.{list_any};
ghost use Rattle.redo_diagnostics.specs.Diagnostic.{diagnostic_of};
ghost use Rattle.redo_compare.specs.Rounds.{picked};
ghost use Rattle.redo_outline.specs.Facts.{target_at};
ghost use Rattle.redo_view.specs.Form.{FormWrites};
ghost use Rattle.redo_new.specs.News.{diagnostic_lines};
ghost use Rattle.redo_new.specs.Private.Sections.{flagged, new_text};

use crate::writing::write_new;
use redo_compare::skip_others;
use redo_device::Sink;
use redo_diagnostics::read_diagnostic;
use redo_logs::LogTable;
use redo_outline::{TextLines, target_at};
use redo_view::FormFault;
use std::alloc::{AllocError, Global};

/// Writes a line for each new diagnostic of log `number`. The flags say which of its diagnostics are new, in order. The lines of a log
/// without new diagnostics aren't read.
pub fn write_new_lines<W: Sink>(
    alloc: Global,
    table: &LogTable,
    number: u32,
    flags: &[bool],
    out: &mut W,
) -> Result<(), FormFault>
    ensures { FormWrites (W.written out.old) (W.written out.new)
        (new_text (target_at table.now number) (picked flags.now (diagnostic_lines table.now number))) result }
{
    if is_any_set(flags) {
        write_flagged(alloc, table, number, flags, out)
    } else {
        Ok(())
    }
}

// Returns whether a flag is set.
fn is_any_set(flags: &[bool]) -> bool
    ensures { result ≡ list_any (λ is. is) flags.now }
{
    flags.iter().any(|is_set| *is_set)
}

// Like `write_new_lines`, but reads the lines.
fn write_flagged<W: Sink>(
    alloc: Global,
    table: &LogTable,
    number: u32,
    flags: &[bool],
    out: &mut W,
) -> Result<(), FormFault>
    ensures { FormWrites (W.written out.old) (W.written out.new)
        (new_text (target_at table.now number) (picked flags.now (diagnostic_lines table.now number))) result }
{
    let target = target_at(table, number);
    let mut lines = TextLines::new(table, number);
    let mut plain = Vec::new(alloc);
    let mut next = 0;
    'lines: loop {
        skip_others(&mut lines);
        let Some(line) = lines.next_line() else {
            return Ok(());
        };
        if is_diagnostic(line, &mut plain)? {
            write_if_set(target, line, flags, next, out)?;
            next += 1;
        }
    }
}

// Returns whether a line is a diagnostic. `plain` is overwritten.
fn is_diagnostic(line: &[u8], plain: &mut Vec<u8>) -> Result<bool, AllocError>
    ensures { IfOk result (λ is. is ≡ is_some (diagnostic_of line.now)) }
{
    Ok(read_diagnostic(line, plain)?.is_some())
}

// Writes the line of diagnostic `next`, if its flag is set.
fn write_if_set<W: Sink>(
    target: &[u8],
    line: &[u8],
    flags: &[bool],
    next: usize,
    out: &mut W,
) -> Result<(), FormFault>
    ensures { FormWrites (W.written out.old) (W.written out.new) (new_text target.now (flagged flags.now next line.now)) result }
{
    match flags.get(next) {
        Some(true) => write_new(target, line, out),
        _ => Ok(()),
    }
}
