//! The state of a scan after the bytes that it consumed. `IsAfter` relates it to the definitions: the bytes have no fault,
//! and the state has their unended line, their number, the number of their lines, and whether the last one closes the log.
//! A loop over chunks can maintain that it has exactly the entries of the bytes so far.
//!
//! After a fault, a scan never uses its `Progress` again, so `Progress` needs no invariant while it reads a line.
ghost use Rattle.std.specs.Prelude.{◌≡◌, ◌↔◌, Err, ◌<◌, ◌≤◌, ◌+◌, ◌-◌, false, ◌^◌, ◌⊎◌, List, ℕ, true, None, Some, [], IfOk, IfErr, length, take};
ghost use Rattle.redo_line.specs.Entry.{entry_of};
ghost use Rattle.redo_line.specs.Lines.{HasNoLineFeed, unended};
ghost use Rattle.redo_line.specs.Private.CutLine.{AreTextLines, line_bytes};
ghost use Rattle.redo_line.specs.Private.Line.{IsPut};
ghost use Rattle.redo_line.specs.Private.Progress.{IsAfter, Advances, first_byte_fault};
ghost use Rattle.redo_line.specs.declared.stream_fault.StreamFault.TheVariants.{BadRecord, OutOfMemory};

use crate::entries::Entries;
use crate::leading_text::text_lines;
use crate::line::{LineFault, read_into};
use crate::line_text::LineText;
use crate::partial_line::{Line, PartialLine};
use crate::resolver::Resolver;
use crate::stream_fault::StreamFault;
use redo_name::TargetName;
use std::alloc::Global;
use std::marker::Model;

/// The state of a scan that has not failed.
#[derive(Drop)]
pub struct Progress {
    target: TargetName,
    names: Resolver,
    max_bytes: u64,
    start: PartialLine,
    taken: u64,
    lines: u64,
    closed: bool,
}

impl Model for Progress {
    ghost use Rattle.std.specs.Prelude.{◌≡◌};
    ghost use Rattle.redo_line.specs.Private.Progress as spec;

    ghost Value = { spec.Progress };

    ghost view = { λ p. record {
      target = p.target;
      max_bytes = p.max_bytes;
      kept = p.start;
      taken = p.taken;
      lines = p.lines;
      closed = p.closed;
    } };

    ghost invariant = { λ p. p.names.target ≡ p.target };
}

impl Progress {
    pub fn new(alloc: Global, target: TargetName, max_bytes: u64) -> Progress
        ensures after { IsAfter result [] }
        ensures target { result.target ≡ target }
        ensures limit { result.max_bytes ≡ max_bytes }
    {
        Progress {
            names: Resolver::new(alloc, &target),
            target,
            max_bytes,
            start: PartialLine::new(alloc),
            taken: 0,
            lines: 0,
            closed: false,
        }
    }

    // Consumes the bytes of a chunk from the offset `from` up to the end of the first line, or of several text lines, at
    // most `max_lines`. Appends their entries to `entries` and returns the offset after them. If no line ends, consumes the
    // rest of the chunk and returns `None`. After an error the state is unspecified, and `entries` are unchanged.
    pub fn advance(
        &mut self,
        chunk: &[u8],
        from: usize,
        max_lines: u16,
        entries: &mut Entries,
    ) -> Result<Option<usize>, StreamFault>
        requires from { from ≤ length chunk.now }
        requires max_lines { 1 ≤ max_lines }
        requires limit { self.old.max_bytes ≤ 2 ^ 40 }
        requires after { (before : List ℕ) × IsAfter self.old before }
        ensures { Advances self.old self.new chunk.now from max_lines entries.old entries.new result }
    {
        let rest = &chunk[from..];
        let (length, count) = self.leading_text_lines(rest, max_lines);
        if count == 0 {
            return self.advance_one_line(chunk, from, entries);
        }
        entries.push_lines(&rest[..length], count)?;
        self.taken += length as u64;
        self.lines += count as u64;
        Ok(Some(from + length))
    }

    // Returns the number of bytes of the text lines that can be consumed at once, and the number of these lines.
    fn leading_text_lines(&self, rest: &[u8], max_lines: u16) -> (usize, u16)
        requires { self.now.taken ≤ self.now.max_bytes }
        ensures lines { AreTextLines (take result.0 rest.now) result.1 }
        ensures range { result.0 ≤ length rest.now }
        ensures in_limit { self.now.taken + result.0 ≤ self.now.max_bytes }
        ensures at_most { result.1 ≤ max_lines }
        ensures no_partial_line { 0 < result.1 → self.now.kept ≡ [] }
        ensures not_closed { 0 < result.1 → self.now.closed ≡ false }
    {
        if self.closed || !self.start.is_empty() {
            return (0, 0);
        }
        text_lines(limit_to(rest, self.max_bytes - self.taken), max_lines)
    }

    // Consumes the first line, of any kind, or all bytes if no line ends.
    fn advance_one_line(
        &mut self,
        chunk: &[u8],
        from: usize,
        entries: &mut Entries,
    ) -> Result<Option<usize>, StreamFault>
        requires from { from ≤ length chunk.now }
        requires limit { self.old.max_bytes ≤ 2 ^ 40 }
        requires after { (before : List ℕ) × IsAfter self.old before }
        ensures { Advances self.old self.new chunk.now from 1 entries.old entries.new result }
    {
        let rest = &chunk[from..];
        if let Some(fault) = self.first_byte_fault(rest) {
            return Err(fault);
        }
        let allowed = limit_to(rest, self.max_bytes - self.taken);
        match self.start.next_line(allowed)? {
            Some((line, length)) => {
                let number = self.lines + 1;
                self.closed = read_entry(entries, &mut self.names, &self.target, line, number)?;
                self.taken += length as u64;
                self.lines = number;
                Ok(Some(from + length))
            }
            None => {
                if allowed.len() < rest.len() {
                    return Err(StreamFault::TooLong);
                }
                self.taken += rest.len() as u64;
                Ok(None)
            }
        }
    }

    // Returns the fault that the first of these bytes has because of its position: it is past the limit, or after the line
    // that closes the log. This doesn't allocate.
    fn first_byte_fault(&self, rest: &[u8]) -> Option<StreamFault>
        requires taken { self.now.taken ≤ self.now.max_bytes }
        requires lines { self.now.lines + 1 < 2 ^ 64 }
        ensures { result ≡ first_byte_fault self.now rest.now }
    {
        if rest.is_empty() {
            None
        } else if self.taken == self.max_bytes {
            Some(StreamFault::TooLong)
        } else if self.closed {
            Some(StreamFault::AfterClose {
                line: self.lines + 1,
            })
        } else {
            None
        }
    }

    // Returns whether the last ended line closes the log.
    pub fn is_closed(&self) -> bool
        ensures { result ≡ self.now.closed }
    {
        self.closed
    }

    // Returns the unended line of all bytes consumed.
    pub fn finish(self) -> Option<LineText>
        ensures { result ≡ unended self.kept }
    {
        self.start.finish()
    }
}

// Returns the first `max_bytes` bytes, or all if there are fewer.
fn limit_to(bytes: &[u8], max_bytes: u64) -> &[u8]
    ensures { result.now ≡ take max_bytes bytes.now }
{
    if bytes.len() as u64 <= max_bytes {
        bytes
    } else {
        &bytes[..max_bytes as usize]
    }
}

fn read_entry(
    entries: &mut Entries,
    names: &mut Resolver,
    target: &TargetName,
    line: Line<'_>,
    number: u64,
) -> Result<bool, StreamFault>
    requires target { names.old.target ≡ target.now }
    requires no_line_feed { HasNoLineFeed (line_bytes line) }
    ensures put { IfOk result (λ closing. IsPut closing (entry_of target.now (line_bytes line.entry) true) entries.old entries.new) }
    ensures fault { IfErr result (λ fault.
        (fault ≡ OutOfMemory) ⊎ ((fault ≡ BadRecord number) × (entry_of target.now (line_bytes line.entry) true ≡ None))) }
    ensures bad { (result ≡ Err (BadRecord number)) ↔ (entry_of target.now (line_bytes line.entry) true ≡ None) }
    ensures unchanged_on_err { IfErr result (λ _. entries.new ≡ entries.old) }
    ensures target_unchanged { names.new.target ≡ names.old.target }
{
    match read_into(entries, names, target, line) {
        Ok(closes) => Ok(closes),
        Err(LineFault::BadRecord) => Err(StreamFault::BadRecord { line: number }),
        Err(LineFault::OutOfMemory) => Err(StreamFault::OutOfMemory),
    }
}
