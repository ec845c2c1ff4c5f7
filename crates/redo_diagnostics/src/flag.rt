//! The flag at the end of a message.
ghost use Rattle.std.specs.Prelude.{◌≡◌, ◌≢◌, ◌∷◌, ◌++◌, ℕ, List, [], None, Some, IfNone, IfSome};
ghost use Rattle.std.specs.List.{AllByRecursion};
ghost use Rattle.redo_diagnostics.specs.Diagnostic as spec;

use memchr::{memchr, memrchr};

/// Returns `M` and `G` of a text `M [G]`, if it has this form.
pub fn split_flag(text: &[u8]) -> Option<(&[u8], &[u8])>
    ensures some { IfSome result (λ parts. spec.split_flag text.now ≡ Some (parts.0.now, parts.1.now)) }
    ensures none { IfNone result (spec.split_flag text.now ≡ None) }
{
    let Some(front) = without_last(b']', text) else {
        return None;
    };
    let Some((before, flag)) = split_at_last(b'[', front) else {
        return None;
    };
    if flag.is_empty() {
        return None;
    }
    if memchr(b']', flag).is_some() {
        return None;
    }
    match without_last(b' ', before) {
        Some(message) => Some((message, flag)),
        None => None,
    }
}

// Returns the bytes before the last one, if this is `last`.
fn without_last(last: u8, bytes: &[u8]) -> Option<&[u8]>
    ensures some { IfSome result (λ front. bytes.now ≡ front.now ++ last ∷ []) }
    ensures none { IfNone result ((front : List ℕ) → bytes.now ≢ front ++ last ∷ []) }
{
    match bytes.split_last() {
        Some((byte, front)) if *byte == last => Some(front),
        _ => None,
    }
}

// Returns the bytes before and after the last separator, if there is one.
fn split_at_last(separator: u8, bytes: &[u8]) -> Option<(&[u8], &[u8])>
    ensures some { IfSome result (λ parts. bytes.now ≡ parts.0.now ++ separator ∷ parts.1.now) }
    ensures last { IfSome result (λ parts. AllByRecursion (λ byte. byte ≢ separator) parts.1.now) }
    ensures none { IfNone result (AllByRecursion (λ byte. byte ≢ separator) bytes.now) }
{
    match memrchr(separator, bytes) {
        Some(at) => Some((&bytes[..at], &bytes[at + 1..])),
        None => None,
    }
}
