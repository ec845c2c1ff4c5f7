//! Which names are shown as they are.
ghost use Rattle.std.specs.Prelude.{◌≡◌, ◌+◌, ◌<◌, ◌≤◌, ◌&&◌, nat_lt, false, not, drop, length, if◌then◌else◌, IfNone, IfSome};
ghost use Rattle.redo_html.specs.Shown.{is_printable, is_unprintable};

use crate::symbol::{is_unprintable_code_point, symbol_at};
use crate::text_kind::TextKind;

/// Returns whether no notation is shown in a name, instead of one of its characters. It takes time in proportion to the name's length.
pub fn is_printable(name: &[u8]) -> bool
    ensures { result ≡ is_printable name.now }
{
    let mut at = 0;
    'symbols: while at < name.len() {
        let len = printable_len(name, at);
        if len == 0 {
            return false;
        }
        at += len;
    }
    true
}

// Returns the number of bytes of the character at `at`, or 0 if a notation is shown instead of it.
fn printable_len(name: &[u8], at: usize) -> usize
    requires { at < length name.now }
    ensures within { at + result ≤ length name.now }
    ensures printable { is_printable (drop at name.now) ≡ (nat_lt 0 result && is_printable (drop (at + result) name.now)) }
{
    let (code_point, len) = symbol_at(TextKind::Monochrome, &name[at..]);
    len_if(is_visible(code_point), len)
}

fn len_if(condition: bool, len: usize) -> usize
    ensures { result ≡ (if condition then len else 0) }
{
    if condition { len } else { 0 }
}

fn is_visible(code_point: Option<u32>) -> bool
    ensures some { IfSome code_point (λ one. result ≡ not (is_unprintable one)) }
    ensures none { IfNone code_point (result ≡ false) }
{
    match code_point {
        Some(code_point) => !is_unprintable_code_point(code_point),
        None => false,
    }
}
