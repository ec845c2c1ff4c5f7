//! The source line that a compiler shows below a diagnostic.
ghost use Rattle.std.specs.Prelude.{◌≡◌, ◌≢◌, ◌∷◌, ◌++◌, ℕ, List, [], IfNone, IfOk, IfSome};
ghost use Rattle.std.specs.Char.{is_ascii_digit};
ghost use Rattle.redo_line.specs.Record.{space};
ghost use Rattle.redo_compare.specs.Source as spec;

use memchr::memchr;
use redo_diagnostics::push_plain;
use redo_html::ESCAPE;
use std::alloc::{AllocError, Global};

/// Returns the source line that a line shows. It allocates only this, and a copy of the line if the line has an escape byte.
pub fn source_of(alloc: Global, line: &[u8]) -> Result<Vec<u8>, AllocError>
    ensures { IfOk result (λ source. source.items ≡ spec.source_of line.now) }
{
    if memchr(ESCAPE, line).is_none() {
        let source = source_in(line).to_vec(alloc)?;
        return Ok(source);
    }
    let mut plain = Vec::new(alloc);
    push_plain(line, &mut plain)?;
    let source = source_in(&plain).to_vec(alloc)?;
    Ok(source)
}

// Returns the source line that a line without colours and links shows.
fn source_in(plain: &[u8]) -> &[u8]
    ensures { result.now ≡ spec.text_after_row (spec.after_those spec.is_space plain.now) }
{
    text_after_row(after_spaces(plain))
}

fn text_after_row(bytes: &[u8]) -> &[u8]
    ensures { result.now ≡ spec.text_after_row bytes.now }
{
    match bytes {
        [first, others @ ..] if first.is_ascii_digit() => text_after_bar(after_digits(others)),
        _ => b"",
    }
}

// Returns what follows a space and a bar, without the spaces at its ends. It is empty if the bytes begin otherwise.
fn text_after_bar(bytes: &[u8]) -> &[u8]
    ensures { result.now ≡ spec.text_after_bar bytes.now }
{
    match bytes.strip_prefix(b" |".as_slice()) {
        Some(text) => before_spaces(after_spaces(text)),
        None => b"",
    }
}

fn after_spaces(bytes: &[u8]) -> &[u8]
    ensures { result.now ≡ spec.after_those spec.is_space bytes.now }
{
    let mut left = bytes;
    'spaces: while let [b' ', others @ ..] = left {
        left = others;
    }
    left
}

fn after_digits(bytes: &[u8]) -> &[u8]
    ensures { result.now ≡ spec.after_those is_ascii_digit bytes.now }
{
    let mut left = bytes;
    'digits: while let [first, others @ ..] = left {
        if !first.is_ascii_digit() {
            return left;
        }
        left = others;
    }
    left
}

fn before_spaces(bytes: &[u8]) -> &[u8]
    ensures { result.now ≡ spec.before_spaces bytes.now }
{
    let mut left = bytes;
    'spaces: while let Some(front) = before_space(left) {
        left = front;
    }
    left
}

// Returns the bytes before the last one, if this is a space.
fn before_space(bytes: &[u8]) -> Option<&[u8]>
    ensures some { IfSome result (λ front. bytes.now ≡ front.now ++ space ∷ []) }
    ensures none { IfNone result ((front : List ℕ) → bytes.now ≢ front ++ space ∷ []) }
{
    match bytes.split_last() {
        Some((byte, front)) if *byte == b' ' => Some(front),
        _ => None,
    }
}
