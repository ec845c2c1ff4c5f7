//! Parts of a text.
ghost use Rattle.std.specs.Prelude.{◌≡◌, None, Some, IfSome, IfNone};
ghost use Rattle.redo_line.specs.Parts.{split_once};

use memchr::memchr;

/// Returns the bytes before and after the first separator, if there is one. Texts are long, so it begins with a vector search.
pub fn split_text(separator: u8, bytes: &[u8]) -> Option<(&[u8], &[u8])>
    ensures some { IfSome result (λ parts. split_once separator bytes.now ≡ Some (parts.0.now, parts.1.now)) }
    ensures none { IfNone result (split_once separator bytes.now ≡ None) }
{
    match memchr(separator, bytes) {
        Some(at) => Some((&bytes[..at], &bytes[at + 1..])),
        None => None,
    }
}
