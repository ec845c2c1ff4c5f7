//! Why a target failed: the line of its output that tells it best.
ghost use Rattle.std.specs.Prelude.{Some, if◌then◌else◌, slice_get, ◌-◌, ◌<◌, ◌≡◌, length};
ghost use Rattle.std.specs.Option.{option_copied};
ghost use Rattle.redo_html.specs.Symbols.{sequence_len};
ghost use Rattle.redo_outline.specs.Facts.{entries_at, texts_of};
ghost use Rattle.redo_page.specs.Errors.{begins_with, begins_with_error, cause_of, is_blank, is_error, is_letter, is_word_byte, is_word_end};

use redo_html::{ESCAPE, sequence_size};
use redo_logs::LogTable;
use redo_outline::TextLines;

const ERROR_WORDS: &[&[u8]] = &[
    b"error",
    b"undefined reference",
    b"no such file",
    b"fatal",
    b"not found",
    b"cannot",
    b"FAIL",
    b"FAILED",
];

fn is_word_byte(byte: u8) -> bool
    ensures { result ≡ is_word_byte byte }
{
    byte.is_ascii_alphanumeric() || byte == b'_'
}

fn is_word_end(bytes: &[u8]) -> bool
    ensures { result ≡ is_word_end bytes.now }
{
    match bytes {
        [] => true,
        [byte, ..] => !is_word_byte(*byte),
    }
}

fn is_letter(letter: u8, byte: u8) -> bool
    ensures { result ≡ is_letter letter byte }
{
    byte == letter || byte.to_ascii_lowercase() == letter
}

// Returns whether bytes begin with these words, and the last word ends there.
#[tactic(auto, using(crate::proofs::ErrorLemmas::begins_here, crate::proofs::ErrorLemmas::begins_past))]
fn begins_with(words: &[u8], bytes: &[u8]) -> bool
    ensures { result ≡ begins_with words.now bytes.now }
{
    for at in 0..words.len() {
        if at >= bytes.len() {
            return false;
        }
        if !is_letter(words[at], bytes[at]) {
            return false;
        }
    }
    is_word_end(&bytes[words.len()..])
}

// Returns whether bytes begin with words for an error.
fn begins_with_error(bytes: &[u8]) -> bool
    ensures { result ≡ begins_with_error bytes.now }
{
    for words in ERROR_WORDS {
        if begins_with(words, bytes) {
            return true;
        }
    }
    false
}

// Returns the number of bytes after the first one that belong to the same sequence.
#[tactic(auto, using(crate::proofs::ErrorLemmas::no_sequence))]
fn sequence_rest(bytes: &[u8]) -> usize
    requires { 0 < length bytes.now }
    ensures { result ≡ sequence_len bytes.now - 1 }
{
    if bytes[0] == ESCAPE {
        sequence_size(bytes).saturating_sub(1)
    } else {
        0
    }
}

/// Returns whether a line reports an error.
#[tactic(auto, using(crate::proofs::ErrorLemmas::error_skipped))]
pub fn is_error(line: &[u8]) -> bool
    ensures { result ≡ is_error line.now }
{
    let mut skipped = 0;
    let mut in_word = false;
    for at in 0..line.len() {
        if skipped > 0 {
            skipped -= 1;
            continue;
        }
        if !in_word && begins_with_error(&line[at..]) {
            return true;
        }
        // ESC is in no word, so a sequence ends one.
        in_word = is_word_byte(line[at]);
        skipped = sequence_rest(&line[at..]);
    }
    false
}

// Returns whether nothing of a line is visible.
#[tactic(auto, using(crate::proofs::ErrorLemmas::blank_lines))]
fn is_blank(line: &[u8]) -> bool
    ensures { result ≡ is_blank line.now }
{
    let mut skipped = 0;
    for at in 0..line.len() {
        if skipped > 0 {
            skipped -= 1;
            continue;
        }
        if line[at] > b' ' {
            return false;
        }
        skipped = sequence_rest(&line[at..]);
    }
    true
}

// Returns the line unless it is blank, and otherwise the last one.
fn last_filled<'a>(line: &'a [u8], last: Option<&'a [u8]>) -> Option<&'a [u8]>
    ensures { option_copied result ≡ (if is_blank line.now then option_copied last.entry else Some line.now) }
{
    if is_blank(line) { last } else { Some(line) }
}

/// Returns the line of log `number` that tells best why its target failed: the first one that reports an error, or else the last one that isn't
/// blank.
pub fn find_cause<'a>(table: &'a LogTable, number: u32) -> Option<&'a [u8]>
    ensures { option_copied result ≡ cause_of (texts_of (entries_at number table.now)) }
{
    let mut printed = TextLines::new(table, number);
    let mut last = None;
    'lines: while let Some(line) = printed.next_line() {
        if is_error(line) {
            return Some(line);
        }
        last = last_filled(line, last);
    }
    last
}

/// Returns the line of log `number` at a position, if there is one.
///
/// It processes the lines before this one, too.
pub fn find_line<'a>(table: &'a LogTable, number: u32, position: u64) -> Option<&'a [u8]>
    ensures { option_copied result ≡ slice_get (texts_of (entries_at number table.now)) position }
{
    let mut printed = TextLines::new(table, number);
    let mut before = position;
    'lines: while let Some(line) = printed.next_line() {
        if before == 0 {
            return Some(line);
        }
        before -= 1;
    }
    None
}
