//! Where the text of a log may be cut.
ghost use Rattle.std.specs.Prelude.{◌≡◌, ◌≤◌, length};
ghost use Rattle.redo_html.specs.Cut.{last_where, may_cut};

use crate::symbol::symbol_at;
use crate::text_kind::TextKind;

/// Returns the last index, at most `limit`, at which the text of a log may be cut: in no character, and in no sequence.
pub fn cut_len(limit: usize, bytes: &[u8]) -> usize
    ensures value { result ≡ last_where (may_cut bytes.now) limit }
    ensures within { result ≤ length bytes.now }
{
    let mut at = 0;
    'symbols: while at < bytes.len() {
        let (_, len) = symbol_at(TextKind::Log, &bytes[at..]);
        if limit - at < len {
            return at;
        }
        at += len;
    }
    at
}
