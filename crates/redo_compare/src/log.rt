//! The diagnostics of a log of a table.
//!
//! Lines that are stored together are tested at once, because most of them are no diagnostics. They are looked at one by one only if one
//! of them may be a diagnostic, or if the first one may show a source line.
ghost use Rattle.std.specs.Prelude.{◌≡◌, ◌≤◌, List, ℕ, length, IfOk};
ghost use Rattle.redo_outline.specs.Facts.{entries_at, texts_of};
ghost use Rattle.redo_compare.specs.Occurrences.{IsFoundIn};
ghost use Rattle.redo_compare.specs.Skipping.{AreSkipped};
ghost use Rattle.redo_compare.specs.Private.Finding.{IsFoundBefore};

use crate::found::LogDiagnostics;
use redo_diagnostics::may_have_diagnostic;
use redo_logs::LogTable;
use redo_outline::TextLines;
use std::alloc::{AllocError, Global};

impl LogDiagnostics {
    /// Returns the diagnostics of the text lines of log `number`. A log that doesn't exist has no lines.
    ///
    /// It copies keys and source lines, and nothing of other lines. For n bytes, this takes O(n) time. The only error is that an allocation
    /// failed.
    pub fn of_log(
        alloc: Global,
        table: &LogTable,
        number: u32,
    ) -> Result<LogDiagnostics, AllocError>
        ensures { IfOk result (IsFoundIn (texts_of (entries_at number table.now))) }
    {
        let mut found = LogDiagnostics::new(alloc);
        let mut lines = TextLines::new(table, number);
        'lines: loop {
            skip_unless_last(&found, &mut lines);
            let position = lines.position();
            let Some(line) = lines.next_line() else {
                return Ok(found);
            };
            found.add(alloc, position, line)?;
        }
    }
}

// Skips lines like `skip_others`, unless the next line may show the source line of a diagnostic.
fn skip_unless_last(found: &LogDiagnostics, lines: &mut TextLines<'_>)
    ensures found { (all : List (List ℕ)) → IsFoundBefore all lines.old found.now → IsFoundBefore all lines.new found.now }
    ensures fewer { length lines.new.left ≤ length lines.old.left }
{
    if !found.is_last() {
        skip_others(lines);
    }
}

/// Skips lines that are no diagnostics, as long as nothing is left of a stretch, and the next stretch has no diagnostic.
///
/// Whole stretches are tested, by a search for bytes that each diagnostic has.
pub fn skip_others(lines: &mut TextLines<'_>)
    ensures { AreSkipped lines.old lines.new }
{
    if !lines.stretch().is_empty() {
        return;
    }
    'stretches: while let Some(stretch) = lines.peek_stretch() {
        if may_have_diagnostic(stretch) {
            return;
        }
        lines.skip_stretch();
    }
}
