//! The symbols of a text: code points, and sequences that set colours.
ghost use Rattle.std.specs.Prelude.{◌≡◌, ◌≤◌, ◌<◌, ◌+◌, ◌/◌, ◌%◌, ◌^◌, slice_index_or, ◌==◌, ◌||◌, ◌&&◌, true, length, take, drop, slice_index, List, ℕ, ◌∷◌, ◌++◌, []};
ghost use Rattle.std.specs.List.{list_all, list_any, prefix_len};
ghost use Rattle.redo_html.specs.Laws.{is_plain};
ghost use Rattle.redo_html.specs.Shown.{is_unprintable, is_control, ends_plane, is_between, unseen_ranges};
ghost use Rattle.redo_html.specs.Symbols.{first_code_point, code_point_len, is_parameter, is_link_byte, begins_link_text, end_len, link_len, sequence_len, has_colours, first_symbol, symbol_len};
ghost use Rattle.redo_html.specs.Private.Writing.{ArePlain, HaveNoLineFeed, IsQuote, IsVerbatim, first_set, symbol_code_point};
ghost use Rattle.redo_html.specs.declared.symbol.TheConstants.{STEPS};

use crate::stride::strides_len;
use crate::text_kind::TextKind;
use bstr::decode_utf8;
use std::simd::prelude::*;

// Characters that can't be seen or that a browser rejects, by their first and last numbers, and bytes that are no part of a
// character. The ranges are in order.
const UNSEEN: [(u32, u32); 21] = [
    (0x80, 0x9F),
    (0xAD, 0xAD),
    (0x34F, 0x34F),
    (0x61C, 0x61C),
    (0x115F, 0x1160),
    (0x17B4, 0x17B5),
    (0x180B, 0x180F),
    (0x200B, 0x200B),
    (0x200E, 0x200F),
    (0x2028, 0x202E),
    (0x2060, 0x206F),
    (0x3164, 0x3164),
    (0xD800, 0xDFFF),
    (0xFDD0, 0xFDEF),
    (0xFE00, 0xFE0E),
    (0xFEFF, 0xFEFF),
    (0xFFA0, 0xFFA0),
    (0xFFF0, 0xFFFB),
    (0x1BCA0, 0x1BCA3),
    (0x1D173, 0x1D17A),
    (0xE0000, 0xE0FFF),
];

// Whether a byte is plain.
const PLAIN: [bool; 256] = [
    N, N, N, N, N, N, N, N, N, Y, Y, N, N, N, N, N, N, N, N, N, N, N, N, N, N, N, N, N, N, N, N, N,
    Y, Y, Y, Y, Y, Y, N, Y, Y, Y, Y, Y, Y, Y, Y, Y, Y, Y, Y, Y, Y, Y, Y, Y, Y, Y, Y, Y, N, Y, N, Y,
    Y, Y, Y, Y, Y, Y, Y, Y, Y, Y, Y, Y, Y, Y, Y, Y, Y, Y, Y, Y, Y, Y, Y, Y, Y, Y, Y, Y, Y, Y, Y, Y,
    Y, Y, Y, Y, Y, Y, Y, Y, Y, Y, Y, Y, Y, Y, Y, Y, Y, Y, Y, Y, Y, Y, Y, Y, Y, Y, Y, Y, Y, Y, Y, N,
    N, N, N, N, N, N, N, N, N, N, N, N, N, N, N, N, N, N, N, N, N, N, N, N, N, N, N, N, N, N, N, N,
    N, N, N, N, N, N, N, N, N, N, N, N, N, N, N, N, N, N, N, N, N, N, N, N, N, N, N, N, N, N, N, N,
    N, N, N, N, N, N, N, N, N, N, N, N, N, N, N, N, N, N, N, N, N, N, N, N, N, N, N, N, N, N, N, N,
    N, N, N, N, N, N, N, N, N, N, N, N, N, N, N, N, N, N, N, N, N, N, N, N, N, N, N, N, N, N, N, N,
];

const Y: bool = true;

const N: bool = false;

// Two states between the bytes of letters: before a letter, and after bytes that no letter has.
const START: u64 = 0;

const FAILED: u64 = 42;

// The states after each byte. A state is a multiple of 6, and the six lowest bits of `STEPS[byte] >> state` are the state after the byte.
// Read from the right, each pair of octal digits is for one state: before a letter, before its last byte, before its last two bytes,
// after `E0`, after `E2`, after `E2 80`, after `E3`, and `FAILED`.
const STEPS: [u64; 256] = [
    O, O, O, O, O, O, O, O, O, P, P, O, O, O, O, O, O, O, O, O, O, O, O, O, O, O, O, O, O, O, O, O,
    P, P, P, P, P, P, O, P, P, P, P, P, P, P, P, P, P, P, P, P, P, P, P, P, P, P, P, P, O, P, O, P,
    P, P, P, P, P, P, P, P, P, P, P, P, P, P, P, P, P, P, P, P, P, P, P, P, P, P, P, P, P, P, P, P,
    P, P, P, P, P, P, P, P, P, P, P, P, P, P, P, P, P, P, P, P, P, P, P, P, P, P, P, P, P, P, P, O,
    C1, C2, C4, C4, C4, C3, C4, C4, C4, C4, C4, C4, C4, C4, C4, C4, C5, C5, C5, C5, C5, C5, C5, C5,
    C5, C5, C5, C5, C5, C5, C5, C5, C6, C6, C6, C6, C6, C6, C6, C6, C7, C7, C7, C7, C7, C7, C7, C7,
    C7, C7, C7, C7, C7, C7, C7, C7, C7, C7, C7, C7, C7, C7, C7, C7, O, O, O, S2, S2, S2, S2, S2,
    S2, S2, S2, S2, S2, O, S2, S2, S2, S2, S2, S2, S2, S2, S2, S2, O, S2, S2, S2, S2, S2, S2, S2,
    E0, O, E2, E3, S3, S3, S3, S3, S3, S3, S3, S3, S3, O, O, O, O, O, O, O, O, O, O, O, O, O, O, O,
    O, O, O, O,
];

// Bytes that no letter has.
const O: u64 = 0o52_52_52_52_52_52_52_52;

// Plain bytes, and first bytes of letters.
const P: u64 = 0o52_52_52_52_52_52_52_00;

const S2: u64 = 0o52_52_52_52_52_52_52_06;

const S3: u64 = 0o52_52_52_52_52_52_52_14;

const E0: u64 = 0o52_52_52_52_52_52_52_22;

const E2: u64 = 0o52_52_52_52_52_52_52_30;

const E3: u64 = 0o52_52_52_52_52_52_52_44;

// The other bytes of letters: 80, 81, 85, other ones up to 8F, and those up to 9F, A7 and BF.
const C1: u64 = 0o52_06_52_36_52_06_00_52;

const C2: u64 = 0o52_06_52_52_52_06_00_52;

const C3: u64 = 0o52_52_52_06_52_06_00_52;

const C4: u64 = 0o52_06_52_06_52_06_00_52;

const C5: u64 = 0o52_06_00_06_52_06_00_52;

const C6: u64 = 0o52_06_00_06_06_06_00_52;

const C7: u64 = 0o52_06_52_06_06_06_00_52;

/// The byte at the start of each sequence.
pub const ESCAPE: u8 = 27;

/// The number of bytes that are tested at once.
pub const LANES: usize = 16;

// The number of bytes after which a search for letters tests many bytes at once again.
const WINDOW: usize = 32;

/// Returns the number of bytes at the start that are code points which are written as they are.
pub fn verbatim_len(bytes: &[u8]) -> usize
    ensures { IsVerbatim bytes.now result }
{
    let mut len = plain_len(bytes);
    while len < bytes.len() && bytes[len] >= 128 {
        let more = high_len(&bytes[len..]);
        if more == 0 {
            return len;
        }
        len += more;
        len += strides_len(bytes, len);
        len += plain_len(&bytes[len..]);
    }
    len
}

/// Returns a number of bytes from `at` on, at most as many as are tested at once, that are code points which are written as they are. No
/// byte after the first line feed is among them.
#[inline(always)]
pub fn verbatim_run(bytes: &[u8], at: usize) -> usize
    requires room { at + LANES ≤ length bytes.now }
    ensures verbatim { (line more : List ℕ) → drop at bytes.now ≡ line ++ 10 ∷ more → IsVerbatim (line ++ 10 ∷ []) result }
    ensures few { result ≤ LANES }
{
    if bytes[at] < 128 {
        ascii_run(bytes, at)
    } else {
        high_run(bytes, at)
    }
}

// Returns the number of bytes from `at` on that are plain, up to the first line feed and with it, of as many bytes as are tested at once.
#[inline(always)]
fn ascii_run(bytes: &[u8], at: usize) -> usize
    requires { at + LANES ≤ length bytes.now }
    ensures plain { ArePlain bytes.now at LANES result }
    ensures line { (line more : List ℕ) → drop at bytes.now ≡ line ++ 10 ∷ more → result ≤ length line + 1 }
{
    let run = unbroken_run(bytes, at);
    if run < LANES && bytes[at + run] == b'\n' {
        run + 1
    } else {
        run
    }
}

// Returns the number of bytes from `at` on that are plain and before the first line feed, of as many bytes as are tested at once.
#[inline(always)]
fn unbroken_run(bytes: &[u8], at: usize) -> usize
    requires { at + LANES ≤ length bytes.now }
    ensures plain { ArePlain bytes.now at LANES result }
    ensures line { HaveNoLineFeed bytes.now at LANES result }
{
    let vector = u8x16::from_slice(&bytes[at..]);
    let not_letter = (vector - u8x16::splat(b' ')).simd_ge(u8x16::splat(95));
    let control = not_letter & vector.simd_ne(u8x16::splat(b'\t'));
    let other = control
        | vector.simd_eq(u8x16::splat(b'&'))
        | vector.simd_eq(u8x16::splat(b'<'))
        | vector.simd_eq(u8x16::splat(b'>'));
    first_set(other.to_bitmask(), LANES)
}

// Returns a number of bytes as `verbatim_run` does. The first one isn't in ASCII. Compilers write names between quotes that aren't, so
// after such a quote many bytes at once are tested. No register of the caller is kept free for this function.
#[cold]
#[inline(never)]
fn high_run(bytes: &[u8], at: usize) -> usize
    requires room { at + LANES ≤ length bytes.now }
    ensures verbatim { (line more : List ℕ) → drop at bytes.now ≡ line ++ 10 ∷ more → IsVerbatim (line ++ 10 ∷ []) result }
    ensures few { result ≤ LANES }
{
    if bytes.len() - at >= LANES + 3 && is_quote(bytes, at) {
        3 + ascii_run(bytes, at + 3).min(LANES - 3)
    } else {
        let line = line_run(bytes, at);
        letters_len(&bytes[at..], line)
    }
}

// Returns whether U+2018 or U+2019 is at an index.
#[inline(always)]
fn is_quote(bytes: &[u8], at: usize) -> bool
    requires { at + 3 ≤ length bytes.now }
    ensures { result ≡ true → IsQuote bytes.now at }
{
    bytes[at] == 0xE2 && bytes[at + 1] == 0x80 && (bytes[at + 2] == 0x98 || bytes[at + 2] == 0x99)
}

// Returns the number of bytes from `at` on up to the first line feed and with it, of as many bytes as are tested at once.
#[inline(always)]
fn line_run(bytes: &[u8], at: usize) -> usize
    requires { at + LANES ≤ length bytes.now }
    ensures few { result ≤ LANES }
    ensures line { (line more : List ℕ) → drop at bytes.now ≡ line ++ 10 ∷ more → result ≤ length line + 1 }
{
    let before = before_line_feed(bytes, at);
    (before + 1).min(LANES)
}

// Returns the number of bytes from `at` on before the first line feed, of as many bytes as are tested at once.
#[inline(always)]
fn before_line_feed(bytes: &[u8], at: usize) -> usize
    requires { at + LANES ≤ length bytes.now }
    ensures { HaveNoLineFeed bytes.now at LANES result }
{
    let feeds = u8x16::from_slice(&bytes[at..]).simd_eq(u8x16::splat(b'\n'));
    first_set(feeds.to_bitmask(), LANES)
}

// Returns a number of bytes at the start that are code points which are written as they are. The first one isn't in ASCII.
fn high_len(bytes: &[u8]) -> usize
    requires { 0 < length bytes.now }
    ensures { IsVerbatim bytes.now result }
{
    let len = letters_len(bytes, WINDOW);
    if len > 0 { len } else { visible_len(bytes) }
}

// Returns the number of bytes of some letters at the start that are easy to tell, and of plain bytes among them: at most `window`.
fn letters_len(bytes: &[u8], window: usize) -> usize
    ensures verbatim { IsVerbatim bytes.now result }
    ensures few { result ≤ window }
{
    let end = bytes.len().min(window);
    let mut len = 0;
    let mut state = START;
    let mut at = 0;
    while at < end && state != FAILED {
        state = next_state(state, bytes[at]);
        at += 1;
        if state == START {
            len = at;
        }
    }
    len
}

// Returns the state after a byte.
#[inline(always)]
fn next_state(state: u64, byte: u8) -> u64
    requires { state < 64 }
    ensures { result ≡ (slice_index_or STEPS byte 0 / 2 ^ state) % 64 }
{
    (STEPS[byte as usize] >> state) % 64
}

// Returns the number of bytes of the first code point if it is visible and not in ASCII, or 0 otherwise.
fn visible_len(bytes: &[u8]) -> usize
    requires { 0 < length bytes.now }
    ensures { IsVerbatim bytes.now result }
{
    if bytes[0] < 128 {
        return 0;
    }
    match decode_utf8(bytes) {
        (Some(character), len) => {
            if is_unprintable_code_point(u32::from(character)) {
                0
            } else {
                len
            }
        }
        (None, _) => 0,
    }
}

// Returns a number of bytes at the start that are plain: all of them that are.
fn plain_len(bytes: &[u8]) -> usize
    ensures within { result ≤ length bytes.now }
    ensures plain { list_all is_plain (take result bytes.now) ≡ true }
{
    let mut len = 0;
    while bytes.len() - len >= LANES {
        let run = plain_run(bytes, len);
        len += run;
        if run < LANES {
            return len;
        }
    }
    len + plain_bytes_len(&bytes[len..])
}

// Returns the number of bytes from `at` on that are plain, of as many bytes as are tested at once.
#[inline(always)]
fn plain_run(bytes: &[u8], at: usize) -> usize
    requires { at + LANES ≤ length bytes.now }
    ensures { ArePlain bytes.now at LANES result }
{
    let lanes = u8x16::from_slice(&bytes[at..]);
    let no_letter = (lanes - u8x16::splat(b' ')).simd_ge(u8x16::splat(95));
    let control = no_letter
        & lanes.simd_ne(u8x16::splat(b'\t'))
        & lanes.simd_ne(u8x16::splat(b'\n'));
    let other = control
        | lanes.simd_eq(u8x16::splat(b'&'))
        | lanes.simd_eq(u8x16::splat(b'<'))
        | lanes.simd_eq(u8x16::splat(b'>'));
    first_set(other.to_bitmask(), LANES)
}

// Returns the place of the lowest bit that is set, or `count` if none is.
#[inline(always)]
fn first_set(mask: u64, count: usize) -> usize
    ensures { result ≡ first_set mask count }
{
    if mask == 0 {
        count
    } else {
        mask.trailing_zeros() as usize
    }
}

// Returns the number of bytes at the start that are plain, byte by byte.
fn plain_bytes_len(bytes: &[u8]) -> usize
    ensures within { result ≤ length bytes.now }
    ensures plain { list_all is_plain (take result bytes.now) ≡ true }
{
    for (at, byte) in bytes.iter().enumerate() {
        if !is_plain_by_table(*byte) {
            return at;
        }
    }
    bytes.len()
}

fn is_plain_by_table(byte: u8) -> bool
    ensures { result ≡ is_plain byte }
{
    PLAIN[byte as usize]
}

/// Returns the code point that is the first symbol of `bytes`, or `None` if that is a sequence; and the number of its bytes.
pub fn symbol_at(kind: TextKind, bytes: &[u8]) -> (Option<u32>, usize)
    requires { 0 < length bytes.now }
    ensures code_point { result.0 ≡ symbol_code_point (first_symbol kind bytes.now) }
    ensures len { result.1 ≡ symbol_len kind bytes.now }
{
    if !is_log(kind) {
        let (code_point, len) = code_point_at(bytes);
        return (Some(code_point), len);
    }
    let len = sequence_size(bytes);
    if len > 0 {
        return (None, len);
    }
    let (code_point, len) = code_point_at(bytes);
    (Some(code_point), len)
}

/// Returns whether a text has sequences.
pub fn is_log(kind: TextKind) -> bool
    ensures { result ≡ has_colours kind }
{
    match kind {
        TextKind::Log => true,
        TextKind::Monochrome | TextKind::Title => false,
    }
}

// Returns the first code point, and the number of its bytes.
fn code_point_at(bytes: &[u8]) -> (u32, usize)
    requires { 0 < length bytes.now }
    ensures code_point { result.0 ≡ first_code_point bytes.now }
    ensures len { result.1 ≡ code_point_len bytes.now }
{
    match decode_utf8(bytes) {
        (Some(character), len) => (u32::from(character), len),
        (None, _) => (0xDC00 + u32::from(bytes[0]), 1),
    }
}

/// Returns the number of bytes of the sequence at the start, or 0 if there is none.
pub fn sequence_size(bytes: &[u8]) -> usize
    ensures { result ≡ sequence_len bytes.now }
{
    if byte_at(bytes, 0) != 27 {
        return 0;
    }
    if byte_at(bytes, 1) != b'[' {
        return link_size(bytes);
    }
    let end = 2 + parameters_len(&bytes[2..]);
    if is_final(byte_at(bytes, end)) {
        end + 1
    } else {
        0
    }
}

// Returns the number of bytes of the link at the start, or 0 if there is none.
fn link_size(bytes: &[u8]) -> usize
    ensures { result ≡ link_len bytes.now }
{
    if !is_link_start(bytes) {
        return 0;
    }
    let end = 4 + link_bytes_len(&bytes[4..]);
    if !has_semicolon(&bytes[4..end]) {
        return 0;
    }
    let end_size = link_end_size(byte_at(bytes, end), byte_at(bytes, end + 1));
    if end_size == 0 { 0 } else { end + end_size }
}

// Returns whether bytes begin with `ESC ] 8 ;`.
fn is_link_start(bytes: &[u8]) -> bool
    ensures { result ≡ begins_link_text bytes.now }
{
    byte_at(bytes, 0) == 27
        && byte_at(bytes, 1) == b']'
        && byte_at(bytes, 2) == b'8'
        && byte_at(bytes, 3) == b';'
}

// Returns the number of bytes at the start that the text of a link may have.
fn link_bytes_len(bytes: &[u8]) -> usize
    ensures value { result ≡ prefix_len is_link_byte bytes.now }
    ensures within { result ≤ length bytes.now }
{
    for (at, byte) in bytes.iter().enumerate() {
        if !is_in_link(*byte) {
            return at;
        }
    }
    bytes.len()
}

fn is_in_link(byte: u8) -> bool
    ensures { result ≡ is_link_byte byte }
{
    32 < byte && byte < 127
}

fn has_semicolon(bytes: &[u8]) -> bool
    ensures { result ≡ list_any (λ byte. byte == 59) bytes.now }
{
    bytes.contains(&b';')
}

// Returns the number of bytes that end a link, by the first two bytes after its text.
fn link_end_size(byte: u8, next: u8) -> usize
    ensures { result ≡ end_len byte next }
{
    if byte == 7 {
        1
    } else if byte == 27 && next == b'\\' {
        2
    } else {
        0
    }
}

// Returns a byte, or 0 after the end.
fn byte_at(bytes: &[u8], at: usize) -> u8
    ensures { result ≡ slice_index bytes.now at }
{
    if at < bytes.len() { bytes[at] } else { 0 }
}

fn is_final(byte: u8) -> bool
    ensures { result ≡ (byte == 109 || byte == 75) }
{
    byte == b'm' || byte == b'K'
}

// Returns the number of parameter bytes at the start.
fn parameters_len(bytes: &[u8]) -> usize
    ensures value { result ≡ prefix_len is_parameter bytes.now }
    ensures within { result ≤ length bytes.now }
{
    for (at, byte) in bytes.iter().enumerate() {
        if !is_parameter_byte(*byte) {
            return at;
        }
    }
    bytes.len()
}

// Returns whether a byte may be in the parameters of a sequence.
fn is_parameter_byte(byte: u8) -> bool
    ensures { result ≡ is_parameter byte }
{
    (b'0' <= byte && byte <= b'9') || byte == b';'
}

/// Returns whether a notation is shown instead of a code point.
#[tactic(auto, unfolding(crate::specs::Shown::is_unprintable))]
pub fn is_unprintable_code_point(code_point: u32) -> bool
    ensures { result ≡ is_unprintable code_point }
{
    is_control_code_point(code_point) || (ends_plane(code_point) || is_unseen(code_point))
}

fn is_control_code_point(code_point: u32) -> bool
    ensures { result ≡ is_control code_point }
{
    (code_point < 32 && code_point != 9 && code_point != 10) || code_point == 127
}

// Returns whether a code point is one of the last two of its plane.
fn ends_plane(code_point: u32) -> bool
    ensures { result ≡ ends_plane code_point }
{
    code_point % 0x10000 >= 0xFFFE
}

fn is_unseen(code_point: u32) -> bool
    ensures { result ≡ list_any (is_between code_point) unseen_ranges }
{
    for range in &UNSEEN {
        if code_point <= range.1 {
            return range.0 <= code_point;
        }
    }
    false
}
