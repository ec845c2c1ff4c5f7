//! What is known of the text lines of a log. Lines that are stored together are tested at once.
ghost use Rattle.std.specs.Prelude.{◌≡◌, true, ◌<◌, ◌^◌, [], IfNone, IfSome};
ghost use Rattle.redo_line.specs.Lines.{ended, rest};
ghost use Rattle.redo_outline.specs.Facts.{entries_at, texts_of};
ghost use Rattle.redo_json.specs.Diagnostics.{placed_from};
ghost use Rattle.redo_json.specs.Private.LogLines.{ArePlainLines, AreSimple, AreUtf8, IsNextCandidate};

use crate::field::is_text;
use crate::plain::{are_plain_lines, are_verbatim_lines};
use redo_compare::skip_others;
use redo_diagnostics::may_have_temporary;
use redo_logs::LogTable;
use redo_outline::TextLines;

/// Returns true only if all lines of a log are UTF-8.
pub fn are_text(table: &LogTable, number: u32) -> bool
    ensures { result ≡ true → AreUtf8 (texts_of (entries_at number table.now)) }
{
    let mut left = TextLines::new(table, number);
    'stretches: while let Some(lines) = left.next_stretch() {
        if !is_text(lines) {
            return false;
        }
    }
    true
}

/// Returns true only if all lines of a log are simple: a string of JSON has them as they are, and none has a name of a temporary file.
pub fn are_simple(table: &LogTable, number: u32) -> bool
    ensures { result ≡ true → AreSimple (texts_of (entries_at number table.now)) }
{
    let mut left = TextLines::new(table, number);
    'stretches: while let Some(lines) = left.next_stretch() {
        if !is_plain_text(lines) {
            return false;
        }
        if may_have_temporary(lines) {
            return false;
        }
    }
    true
}

// Returns true only if these lines are UTF-8 that a string of JSON has as it is. Most lines are ASCII, which takes one test.
fn is_plain_text(lines: &[u8]) -> bool
    requires complete { rest lines.now ≡ [] }
    ensures { result ≡ true → AreUtf8 (ended lines.now) × ArePlainLines (ended lines.now) }
{
    if are_verbatim_lines(lines) {
        return true;
    }
    is_text(lines) && are_plain_lines(lines)
}

/// Returns the next line that may be a diagnostic, and its position. The lines before it are none.
pub fn next_candidate<'a>(lines: &mut TextLines<'a>) -> Option<(usize, &'a [u8])>
    ensures some { IfSome result (λ found. IsNextCandidate lines.old lines.new found.0 found.1.now) }
    ensures none { IfNone result (placed_from lines.old.done lines.old.left ≡ []) }
    ensures no_overflow { lines.new.done < 2 ^ 64 }
{
    skip_others(lines);
    let position = lines.position();
    let Some(line) = lines.next_line() else {
        return None;
    };
    Some((position, line))
}
