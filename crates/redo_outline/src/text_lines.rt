//! The text lines of a log, one by one or as they are stored.
//!
//! Lines that are stored together are a *stretch*: slices of bytes can be searched at once, which is faster than line by line.
ghost use Rattle.std.specs.Prelude.{◌≡◌, ◌∷◌, ◌++◌, ◌+◌, ◌<◌, ◌^◌, ℕ, List, [], length, IfSome, MatchOption};
ghost use Rattle.redo_line.specs.Lines.{ended, rest, with_line_feed};
ghost use Rattle.redo_outline.specs.Facts.{entries_at, texts_of};
ghost use Rattle.redo_outline.specs.TextLines.{AreNextLines, IsStretch, IsWholeLine};
ghost use Rattle.redo_outline.specs.Private.TextLines.{IsNextStretch, IsRefilled};

use memchr::memchr;
use redo_logs::{LogTable, Numbered};
use std::marker::Model;

/// The text lines of a log, from some line on.
///
/// It is modelled as the lines that are left, their stretch, and the number of lines before them.
#[derive(Drop)]
pub struct TextLines<'a> {
    logs: Numbered<'a>,
    number: u32,
    // What is left of a stretch, with line feeds.
    stretch: &'a [u8],
    // The number of lines in it.
    count: usize,
    // The entry after it.
    next: usize,
    // The number of lines before it.
    done: usize,
}

impl<'a> Model for TextLines<'a> {
    ghost use Rattle.std.specs.Prelude.{◌≡◌, ◌+◌, ◌≤◌, ◌<◌, ◌^◌, ◌++◌, [], length};
    ghost use Rattle.redo_line.specs.Lines.{ended, rest};
    ghost use Rattle.redo_outline.specs.TextLines.{LinesLeft};
    ghost use Rattle.redo_outline.specs.Private.TextLines.{texts_from};

    ghost Value = { LinesLeft };

    ghost view = { λ lines. record {
      left = ended lines.stretch.now ++ texts_from lines.logs.logs lines.number lines.next;
      stretch = lines.stretch.now;
      done = lines.done;
    } };

    ghost invariant = { λ lines. (rest lines.stretch.now ≡ []) × (lines.count ≡ length (ended lines.stretch.now))
        × (lines.done + lines.count ≤ lines.next) × (lines.next < 2 ^ 64) };
}

impl<'a> TextLines<'a> {
    /// Returns the lines of log `number`. A log that doesn't exist has no lines.
    pub fn new(table: &'a LogTable, number: u32) -> TextLines<'a>
        ensures left { result.left ≡ texts_of (entries_at number table.now) }
        ensures done { result.done ≡ 0 }
    {
        TextLines {
            logs: table.numbered(),
            number,
            stretch: &[],
            count: 0,
            next: 0,
            done: 0,
        }
    }

    /// Returns the position of the next line: the number of lines before it.
    pub fn position(&self) -> usize
        ensures { result ≡ self.now.done }
    {
        self.done
    }

    /// Returns the next line, with its line feed.
    pub fn next_whole_line(&mut self) -> Option<&'a [u8]>
        ensures line { MatchOption result (self.old.left ≡ [])
            (λ bytes. (is : IsWholeLine bytes.now) × (self.old.left ≡ is.line ∷ self.new.left)) }
        ensures done { MatchOption result (self.new.done ≡ self.old.done) (λ bytes. self.new.done ≡ self.old.done + 1) }
        ensures no_overflow { self.new.done < 2 ^ 64 }
    {
        let (stretch, count, next) = refill(
            &self.logs,
            self.number,
            self.stretch,
            self.count,
            self.next,
        );
        let Some(end) = memchr(b'\n', stretch) else {
            return None;
        };
        self.stretch = &stretch[end + 1..];
        self.count = count - 1;
        self.next = next;
        self.done += 1;
        Some(&stretch[..end + 1])
    }

    /// Returns the next line, without its line feed.
    pub fn next_line(&mut self) -> Option<&'a [u8]>
        ensures line { MatchOption result (self.old.left ≡ []) (λ line. self.old.left ≡ line.now ∷ self.new.left) }
        ensures done { MatchOption result (self.new.done ≡ self.old.done) (λ line. self.new.done ≡ self.old.done + 1) }
        ensures no_overflow { self.new.done < 2 ^ 64 }
    {
        match self.next_whole_line() {
            None => None,
            Some(whole) => Some(without_line_feed(whole)),
        }
    }

    /// Returns what is left of the lines that are stored together with the last one, with their line feeds.
    pub fn stretch(&self) -> &'a [u8]
        ensures { result.now ≡ self.now.stretch }
    {
        self.stretch
    }

    /// Returns the next lines that are stored together, with their line feeds, but doesn't take them.
    pub fn peek_stretch(&mut self) -> Option<&'a [u8]>
        ensures lines { MatchOption result (self.old.left ≡ []) (λ lines. IsStretch lines.now) }
        ensures stretch { IfSome result (λ lines. lines.now ≡ self.new.stretch) }
        ensures left { self.new.left ≡ self.old.left }
        ensures done { self.new.done ≡ self.old.done }
    {
        let (stretch, count, next) = refill(
            &self.logs,
            self.number,
            self.stretch,
            self.count,
            self.next,
        );
        self.stretch = stretch;
        self.count = count;
        self.next = next;
        if stretch.is_empty() {
            None
        } else {
            Some(stretch)
        }
    }

    /// Takes what is left of the lines that are stored together with the last one.
    pub fn skip_stretch(&mut self)
        ensures lines { AreNextLines self.old.stretch self.old self.new }
        ensures no_overflow { self.new.done < 2 ^ 64 }
    {
        self.done += self.count;
        self.stretch = &[];
        self.count = 0;
    }

    /// Returns the next lines that are stored together, with their line feeds.
    pub fn next_stretch(&mut self) -> Option<&'a [u8]>
        ensures some { MatchOption result (self.old.left ≡ []) (λ lines. IsStretch lines.now) }
        ensures lines { IfSome result (λ lines. AreNextLines lines.now self.old self.new) }
        ensures no_overflow { self.new.done < 2 ^ 64 }
    {
        let stretch = self.peek_stretch();
        self.skip_stretch();
        stretch
    }
}

/// Returns a line without its line feed.
pub fn without_line_feed(whole: &[u8]) -> &[u8]
    requires { IsWholeLine whole.now }
    ensures { (line : List ℕ) → whole.now ≡ with_line_feed line → result.now ≡ line }
{
    &whole[..whole.len() - 1]
}

// Returns the stretch, or the next one if it is used up, its number of lines, and the number of the entry after it.
fn refill<'a>(
    logs: &Numbered<'a>,
    number: u32,
    stretch: &'a [u8],
    count: usize,
    next: usize,
) -> (&'a [u8], usize, usize)
    requires complete { rest stretch.now ≡ [] }
    requires count { count ≡ length (ended stretch.now) }
    ensures lines { IsRefilled logs.now.logs number stretch.now next result.0.now result.2 }
    ensures count { result.1 ≡ length (ended result.0.now) }
{
    if stretch.is_empty() {
        next_lines(logs, number, next)
    } else {
        (stretch, count, next)
    }
}

// Returns the next text lines of log `number` that are stored together, from entry `next` on, with their line feeds, their number, and
// the number of the entry after them. They are none if no text line is left.
fn next_lines<'a>(logs: &Numbered<'a>, number: u32, next: usize) -> (&'a [u8], usize, usize)
    ensures lines { IsNextStretch logs.now.logs number next result.0.now result.2 }
    ensures count { result.1 ≡ length (ended result.0.now) }
{
    let mut at = next;
    'entries: loop {
        let (lines, count) = logs.lines(number, at);
        if count > 0 {
            return (lines, count, at + count);
        }
        match logs.entry(number, at) {
            None => return (&[], 0, at),
            Some(_) => at += 1,
        }
    }
}
