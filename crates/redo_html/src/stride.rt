//! Tests many bytes at once for plain bytes and for letters in blocks whose code points are all visible.
ghost use Rattle.std.specs.Prelude.{◌≡◌, ◌≤◌, ◌+◌, true, length};
ghost use Rattle.bstr.specs.Utf8.{continues};
ghost use Rattle.redo_html.specs.Laws.{is_plain};
ghost use Rattle.redo_html.specs.Private.Letters.{AreLetters, follows, is_lead, is_open, open_len};
ghost use Rattle.redo_html.specs.Private.Writing.{IsVerbatim};

use std::simd::prelude::*;

// The number of bytes that are tested at once.
const STRIDE: usize = 32;

/// Returns a number of bytes after the first `at`, so that all of them are code points which are written as they are.
pub fn strides_len(bytes: &[u8], at: usize) -> usize
    requires { IsVerbatim bytes.now at }
    ensures { IsVerbatim bytes.now (at + result) }
{
    let mut end = at;
    while end >= 2 && bytes.len() - end >= STRIDE {
        if !has_high(bytes, end) || !are_letters(bytes, end) {
            return end - at;
        }
        end += STRIDE - open_len(bytes[end + STRIDE - 2], bytes[end + STRIDE - 1]);
    }
    end - at
}

// Returns whether a byte of the stride isn't in ASCII. Only speed depends on it: another function tests plain bytes faster.
#[inline(always)]
fn has_high(bytes: &[u8], at: usize) -> bool
    requires { at + STRIDE ≤ length bytes.now }
{
    u8x32::from_slice(&bytes[at..])
        .simd_ge(u8x32::splat(128))
        .to_bitmask()
        != 0
}

// Returns whether a stride has only plain bytes and bytes of letters. No test has a branch, so the compiler tests several bytes at once.
#[inline(always)]
fn are_letters(bytes: &[u8], at: usize) -> bool
    requires two { 2 ≤ at }
    requires room { at + STRIDE ≤ length bytes.now }
    ensures { result ≡ true → AreLetters bytes.now at STRIDE }
{
    let mut letters = !is_open(bytes[at - 2], bytes[at - 1]);
    for k in 0..STRIDE {
        letters = letters & follows(bytes[at + k - 2], bytes[at + k - 1], bytes[at + k]);
    }
    letters
}

// Returns whether a byte may be next after two others.
#[inline(always)]
fn follows(before: u8, last: u8, byte: u8) -> bool
    ensures { result ≡ follows before last byte }
{
    let open = is_open(before, last);
    (open & (continues(byte) & !((last == 0xE3) & (byte == 0x85))))
        | (!open & (is_plain_byte(byte) | is_lead(byte)))
}

// Returns whether a letter goes on after two bytes.
#[inline(always)]
fn is_open(before: u8, last: u8) -> bool
    ensures { result ≡ is_open before last }
{
    (0xE0 <= before) | (0xC0 <= last)
}

#[inline(always)]
fn continues(byte: u8) -> bool
    ensures { result ≡ continues byte }
{
    (0x7F < byte) & (byte < 0xC0)
}

#[inline(always)]
fn is_plain_byte(byte: u8) -> bool
    ensures { result ≡ is_plain byte }
{
    ((32 <= byte) & (byte < 127) & !((byte == b'&') | (byte == b'<') | (byte == b'>')))
        | (byte == b'\t')
        | (byte == b'\n')
}

#[inline(always)]
fn is_lead(byte: u8) -> bool
    ensures { result ≡ is_lead byte }
{
    (0xC3 <= byte)
        & ((byte <= 0xEC)
            & ((byte != 0xCD) & ((byte != 0xD8) & !((0xE0 <= byte) & (byte <= 0xE2)))))
}

// Returns the number of bytes of a letter that goes on after two bytes.
#[inline(always)]
fn open_len(before: u8, last: u8) -> usize
    ensures { result ≡ open_len before last }
{
    if 0xC0 <= last {
        1
    } else if 0xE0 <= before {
        2
    } else {
        0
    }
}
