ghost use Rattle.std.specs.Prelude.{◌≡◌, None, Some, IfSome, IfNone};
ghost use Rattle.redo_line.specs.Parts.{split_once};

use crate::find::find_near;

// The number of bytes that are compared one by one. Most fields of records are shorter.
const LINEAR_SEARCH_BYTES: usize = 16;

/// Returns the bytes before and after the first separator, if there is one. It searches the first bytes without starting
/// a vector search, because most fields of records are short.
pub fn split_at_first(separator: u8, bytes: &[u8]) -> Option<(&[u8], &[u8])>
    ensures some { IfSome result (λ parts. split_once separator bytes.now ≡ Some (parts.0.now, parts.1.now)) }
    ensures none { IfNone result (split_once separator bytes.now ≡ None) }
{
    match find_near(LINEAR_SEARCH_BYTES, separator, bytes) {
        Some(position) => Some((&bytes[..position], &bytes[position + 1..])),
        None => None,
    }
}
