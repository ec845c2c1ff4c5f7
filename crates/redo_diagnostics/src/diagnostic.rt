ghost use Rattle.std.specs.Prelude.{◌≡◌, ◌≢◌, false, None, Some, IfNone, IfOk, IfSome, ◌+◌, drop, length, option_copied, option_map};
ghost use Rattle.std.specs.List.{AllByRecursion};
ghost use Rattle.redo_line.specs.Lines.{ended};
ghost use Rattle.redo_diagnostics.specs.Diagnostic.{HasNoTemporary, diagnostic_from, diagnostic_of, flag_in, message_in, parts_in, with_key, word_of};
ghost use Rattle.redo_diagnostics.specs.Diagnostic as spec;
ghost use Rattle.redo_diagnostics.specs.Private.Words.{IsColonOf};

use crate::flag::split_flag;
use crate::key::{Key, key_of, simple_key};
use crate::place::{Place, origin_of, place_of};
use crate::plain::push_plain;
use crate::severity::Severity;
use crate::word::{find_word, word_of};
use memchr::{memchr, memmem};
use redo_html::ESCAPE;
use std::alloc::{AllocError, Global};
use std::marker::Model;

/// A warning or an error. It borrows from the line without colours and links, and reads its parts when they are asked for.
#[derive(Drop)]
pub struct Diagnostic<'a> {
    // The bytes before the word.
    head: &'a [u8],
    // The place of the first colon in these bytes, or after them if they have none.
    colon: usize,
    severity: Severity,
    // The bytes from the word on.
    tail: &'a [u8],
}

impl<'a> Model for Diagnostic<'a> {
    ghost use Rattle.redo_diagnostics.specs.Diagnostic.{DiagnosticValue, diagnostic_from};
    ghost use Rattle.redo_diagnostics.specs.Private.Words.{IsColonOf};

    ghost Value = { DiagnosticValue };

    ghost view = { λ diagnostic.
        diagnostic_from (record { head = diagnostic.head.now; severity = diagnostic.severity; tail = diagnostic.tail.now }) };

    ghost invariant = { λ diagnostic. IsColonOf diagnostic.head.now diagnostic.colon };
}

impl<'a> Diagnostic<'a> {
    /// Returns the severity, by the word of the line.
    pub fn severity(&self) -> Severity
        ensures { result ≡ self.now.severity }
    {
        self.severity
    }

    /// Returns the place, if the bytes before the word are one.
    pub fn place(&self) -> Option<Place<'a>>
        ensures { result ≡ self.now.place }
    {
        place_of(self.head, self.colon)
    }

    /// Returns the message without the flag, and the flag if the message ends with one in brackets, such as `-Wunused`.
    pub fn message_and_flag(&self) -> (&'a [u8], Option<&'a [u8]>)
        ensures message { result.0.now ≡ self.now.message }
        ensures flag { option_copied result.1 ≡ self.now.flag }
    {
        message_and_flag(text_of(self.severity, self.tail))
    }

    /// Returns the key: the file or program, a colon, a space, the word, and all that follows it. It has no row, no column and no
    /// random part of a name. Without a file or program it begins with the colon. Only a key with such a name is allocated.
    pub fn key(&self, alloc: Global) -> Result<Key<'a>, AllocError>
        ensures { IfOk result (λ key. key ≡ self.now.key) }
    {
        key_of(alloc, origin_of(self.head, self.colon), self.tail)
    }
}

/// Returns the diagnostic of a line, if it is one. The line must have no line feed, but may have any other bytes.
///
/// Colours and links don't count. A line that has an escape byte is copied to `plain` without them; what `plain` had is lost. The only error
/// is that an allocation failed. A line without a colon or without an escape byte allocates nothing. For n bytes, this takes O(n) time.
pub fn read_diagnostic<'a>(
    line: &'a [u8],
    plain: &'a mut Vec<u8>,
) -> Result<Option<Diagnostic<'a>>, AllocError>
    ensures { IfOk result (λ diagnostic. diagnostic ≡ diagnostic_of line.now) }
{
    if memchr(ESCAPE, line).is_none() {
        return Ok(read_plain(line));
    }
    if memchr(b':', line).is_none() {
        return Ok(None);
    }
    plain.clear();
    push_plain(line, plain)?;
    Ok(read_plain(plain))
}

/// Does the same for a line that is known to have no escape byte and no name of a temporary file, and returns the key, too. It allocates
/// nothing.
pub fn read_simple_diagnostic(line: &[u8]) -> Option<(Diagnostic<'_>, Key<'_>)>
    requires plain { AllByRecursion (λ byte. byte ≢ 27) line.now }
    requires simple { HasNoTemporary line.now }
    ensures { result ≡ option_map with_key (diagnostic_of line.now) }
{
    let Some(colon) = memchr(b':', line) else {
        return None;
    };
    let Some((at, severity)) = find_word(line, colon) else {
        return None;
    };
    let (head, tail) = (&line[..at], &line[at..]);
    let key = simple_key(origin_of(head, colon), tail);
    let diagnostic = Diagnostic {
        head,
        colon,
        severity,
        tail,
    };
    Some((diagnostic, key))
}

/// Returns false only if none of these lines has a name of a temporary file. Each line ends with a line feed.
pub fn may_have_temporary(lines: &[u8]) -> bool
    ensures { result ≡ false → AllByRecursion HasNoTemporary (ended lines.now) }
{
    memmem::find(lines, b"/cc").is_some()
}

/// Returns false only if none of these lines is a diagnostic. Each line ends with a line feed. How often it returns true changes only the
/// speed of callers. It allocates nothing, and takes much less time than [`read_diagnostic`] for each line.
pub fn may_have_diagnostic(lines: &[u8]) -> bool
    ensures { result ≡ false → AllByRecursion (λ line. diagnostic_of line ≡ None) (ended lines.now) }
{
    if memchr(b':', lines).is_none() {
        return false;
    }
    if memchr(ESCAPE, lines).is_some() {
        return true;
    }
    if memmem::find(lines, b"warning:").is_some() {
        return true;
    }
    memmem::find(lines, b"error:").is_some()
}

// Returns the diagnostic of a line without colours and links.
fn read_plain(plain: &[u8]) -> Option<Diagnostic<'_>>
    ensures { result ≡ option_map diagnostic_from (parts_in plain.now) }
{
    let Some(colon) = memchr(b':', plain) else {
        return None;
    };
    let Some((at, severity)) = find_word(plain, colon) else {
        return None;
    };
    Some(Diagnostic {
        head: &plain[..at],
        colon,
        severity,
        tail: &plain[at..],
    })
}

// Returns the message and the flag of a text.
fn message_and_flag(text: &[u8]) -> (&[u8], Option<&[u8]>)
    ensures message { result.0.now ≡ message_in text.now (spec.split_flag text.now) }
    ensures flag { option_copied result.1 ≡ flag_in (spec.split_flag text.now) }
{
    match split_flag(text) {
        Some((message, flag)) => (message, Some(flag)),
        None => (text, None),
    }
}

// Returns what follows the word and one space.
fn text_of(severity: Severity, tail: &[u8]) -> &[u8]
    ensures { result.now ≡ drop (length (word_of severity) + 1) tail.now }
{
    let word = word_of(severity).len();
    if tail.len() > word {
        &tail[word + 1..]
    } else {
        b""
    }
}
