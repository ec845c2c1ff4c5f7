//! The word of a diagnostic.
ghost use Rattle.std.specs.Prelude.{◌≡◌, ◌+◌, ◌-◌, ◌≤◌, ◌==◌, ◌||◌, true, length, get_or, IfSome, option_map};
ghost use Rattle.redo_line.specs.Record.{space};
ghost use Rattle.redo_diagnostics.specs.Diagnostic as spec;
ghost use Rattle.redo_diagnostics.specs.Private.Words.{EndAfter, IsFirstBefore, IsFirstColon, IsPlaceBefore};

use crate::severity::Severity;
use memchr::memchr;

/// Returns the bytes of a word.
pub fn word_of(severity: Severity) -> &'static [u8]
    ensures { result.now ≡ spec.word_of severity }
{
    match severity {
        Severity::Warning => b"warning:",
        Severity::Error => b"error:",
        Severity::FatalError => b"fatal error:",
    }
}

/// Returns the first word of a plain line, and its place. `colon` is the place of the first colon. It looks for words only before colons:
/// each word ends with its only colon, so a word that ends with a later colon begins later.
pub fn find_word(plain: &[u8], colon: usize) -> Option<(usize, Severity)>
    requires { IsFirstColon plain.now colon }
    ensures place { option_map (λ found. found.0) result ≡ spec.word_place plain.now }
    ensures severity { IfSome result (λ found. spec.severity_at plain.now found.0 ≡ Some found.1) }
    ensures range { IfSome result (λ found. found.0 + length (spec.word_of found.1) ≤ length plain.now) }
{
    if let Some(found) = word_before(plain, colon + 1) {
        return Some(found);
    }
    find_later_word(plain, colon + 1)
}

// Returns the first word of a plain line, and its place, if each word ends after `start`.
fn find_later_word(plain: &[u8], start: usize) -> Option<(usize, Severity)>
    requires few { start ≤ length plain.now }
    requires after { EndAfter plain.now start }
    ensures place { option_map (λ found. found.0) result ≡ spec.word_place plain.now }
    ensures severity { IfSome result (λ found. spec.severity_at plain.now found.0 ≡ Some found.1) }
    ensures range { IfSome result (λ found. found.0 + length (spec.word_of found.1) ≤ length plain.now) }
{
    let mut from = start;
    'colons: while let Some(at) = memchr(b':', &plain[from..]) {
        let end = from + at + 1;
        if let Some(found) = word_before(plain, end) {
            return Some(found);
        }
        from = end;
    }
    None
}

// Returns the first word of those that end before this byte, and its place. The longest one begins first.
fn word_before(plain: &[u8], end: usize) -> Option<(usize, Severity)>
    requires { end ≤ length plain.now }
    ensures { IsFirstBefore plain.now end result }
{
    if !may_end(plain, end) {
        return None;
    }
    if let Some(place) = place_before(plain, end, Severity::FatalError) {
        return Some((place, Severity::FatalError));
    }
    if let Some(place) = place_before(plain, end, Severity::Warning) {
        return Some((place, Severity::Warning));
    }
    match place_before(plain, end, Severity::Error) {
        Some(place) => Some((place, Severity::Error)),
        None => None,
    }
}

// Returns the place of the word of this severity, if it ends before this byte. This byte must be a space, if there is one.
fn place_before(plain: &[u8], end: usize, severity: Severity) -> Option<usize>
    requires range { end ≤ length plain.now }
    requires ends { (end == length plain.now || get_or plain.now end 0 == space) ≡ true }
    ensures { IsPlaceBefore plain.now end severity result }
{
    let word = word_of(severity);
    if end < word.len() {
        return None;
    }
    let place = end - word.len();
    if &plain[place..end] == word && may_begin(plain, place) {
        Some(place)
    } else {
        None
    }
}

// Returns whether a word may begin here: it begins the line or follows a space.
fn may_begin(plain: &[u8], place: usize) -> bool
    requires { place ≤ length plain.now }
    ensures { result ≡ (place == 0 || get_or plain.now (place - 1) 0 == space) }
{
    place == 0 || plain[place - 1] == b' '
}

// Returns whether a word may end before this byte: it ends the line or is before a space.
fn may_end(plain: &[u8], end: usize) -> bool
    requires { end ≤ length plain.now }
    ensures { result ≡ (end == length plain.now || get_or plain.now end 0 == space) }
{
    end == plain.len() || plain[end] == b' '
}
