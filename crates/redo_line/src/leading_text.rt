//! Finds many text lines at once.
//!
//! Consecutive text lines are consumed together, as one copy and one `EntryAt`.
ghost use Rattle.std.specs.Prelude.{◌≤◌, length, take};
ghost use Rattle.redo_line.specs.Private.CutLine.{AreTextLines};

use crate::find::find_near;
use crate::line::has_record_prefix;

// The number of bytes of a line that are compared one by one. Starting a search takes as long.
const LINEAR_SEARCH_BYTES: usize = 8;

// Returns the number of bytes of the first text lines, with their line feeds, and the number of these lines. They are
// the ended lines before the first one that begins with the record prefix, and at most `max_lines`.
pub fn text_lines(bytes: &[u8], max_lines: u16) -> (usize, u16)
    ensures lines { AreTextLines (take result.0 bytes.now) result.1 }
    ensures range { result.0 ≤ length bytes.now }
    ensures at_most { result.1 ≤ max_lines }
{
    let mut length = 0;
    let mut count = 0;
    'lines: while count < max_lines {
        let rest = &bytes[length..];
        if has_record_prefix(rest) {
            break 'lines;
        }
        let Some(at) = find_near(LINEAR_SEARCH_BYTES, b'\n', rest) else {
            break 'lines;
        };
        length += at + 1;
        count += 1;
    }
    (length, count)
}
