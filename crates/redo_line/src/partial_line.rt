ghost use Rattle.std.specs.Prelude.{◌≡◌, ◌<◌, ◌≤◌, ◌↔◌, true, [], ◌∷◌, ◌++◌, length, take, Contains, IsSome, IfSome, IfNone, IfOk, OnErr};
ghost use Rattle.redo_line.specs.Lines.{HasNoLineFeed, line_feed, unended};
ghost use Rattle.redo_line.specs.Private.CutLine.{Cuts, IsBorrowed, line_bytes};

use crate::line_text::LineText;
use memchr::memchr;
use std::alloc::{AllocError, Global};
use std::marker::Model;
use std::mem;

// A line, without its line feed.
#[derive(Drop)]
pub enum Line<'a> {
    // The line is within one chunk.
    Borrowed(&'a [u8]),
    // The line was joined from several chunks.
    Owned(Vec<u8>),
}

impl<'a> Line<'a> {
    pub fn bytes(&self) -> &[u8]
        ensures { result.now ≡ line_bytes self.now }
    {
        match self {
            Line::Borrowed(bytes) => bytes,
            Line::Owned(bytes) => bytes,
        }
    }

    // Returns the line's bytes in their own buffer. Only a line within one chunk allocates.
    pub fn into_vec(self, alloc: Global) -> Result<Vec<u8>, AllocError>
        ensures bytes { IfOk result (λ bytes. bytes.items ≡ line_bytes self.entry) }
        ensures borrowed_on_err { OnErr result (IsBorrowed self.entry) }
    {
        match self {
            Line::Borrowed(bytes) => bytes.to_vec(alloc),
            Line::Owned(bytes) => Ok(bytes),
        }
    }
}

/// The start of an unended line. It is modelled as the bytes since the last line feed.
#[derive(Drop)]
pub struct PartialLine {
    alloc: Global,
    kept: Vec<u8>,
}

impl Model for PartialLine {
    ghost use Rattle.std.specs.Prelude.{ℕ, List};
    ghost use Rattle.redo_line.specs.Lines.{HasNoLineFeed};

    ghost Value = { List ℕ };

    ghost view = { λ start. start.kept.items };

    ghost invariant = { λ start. HasNoLineFeed start.kept.items };
}

impl PartialLine {
    // Creates an empty start of a line. It doesn't allocate.
    pub fn new(alloc: Global) -> PartialLine
        ensures { result ≡ [] }
    {
        PartialLine {
            alloc,
            kept: Vec::new(alloc),
        }
    }

    // Returns whether there is no byte since the last line feed.
    pub fn is_empty(&self) -> bool
        ensures { (result ≡ true) ↔ (self.now ≡ []) }
    {
        self.kept.is_empty()
    }

    // Consumes a chunk up to and including its first line feed, and returns the line and the number of bytes consumed. If
    // there is no line feed, consumes the whole chunk and returns `None`. If it fails, nothing changes.
    pub fn next_line<'a>(
        &mut self,
        chunk: &'a [u8],
    ) -> Result<Option<(Line<'a>, usize)>, AllocError>
        ensures found { IfOk result (λ found. IsSome found ↔ Contains chunk.now line_feed) }
        ensures range { IfOk result (λ found. IfSome found (λ cut. (0 < cut.1) × (cut.1 ≤ length chunk.now))) }
        ensures line { IfOk result (λ found. IfSome found (λ cut. Cuts self.old (take cut.1 chunk.now) (line_bytes cut.0 ∷ []) [])) }
        ensures no_line_feed { IfOk result (λ found. IfSome found (λ cut. HasNoLineFeed (line_bytes cut.0))) }
        ensures line_kept { IfOk result (λ found. IfSome found (λ _. self.new ≡ [])) }
        ensures borrowed { IfOk result (λ found. IfSome found (λ cut. IsBorrowed cut.0 → self.old ≡ [])) }
        ensures rest_consumed { IfOk result (λ found. IfNone found (Cuts self.old chunk.now [] self.new)) }
        ensures unchanged_on_err { OnErr result (self.new ≡ self.old) }
    {
        match memchr(b'\n', chunk) {
            Some(at) => {
                let line = self.complete_with(&chunk[..at])?;
                Ok(Some((line, at + 1)))
            }
            None => {
                self.kept.extend_from_slice(chunk)?;
                Ok(None)
            }
        }
    }

    // Returns the line that consists of the stored bytes and these bytes.
    fn complete_with<'a>(&mut self, bytes: &'a [u8]) -> Result<Line<'a>, AllocError>
        requires { HasNoLineFeed bytes.now }
        ensures no_line_feed { IfOk result (λ line. HasNoLineFeed (line_bytes line)) }
        ensures line { IfOk result (λ line. line_bytes line ≡ self.old ++ bytes.now) }
        ensures taken { IfOk result (λ _. self.new ≡ []) }
        ensures borrowed { IfOk result (λ line. IsBorrowed line → self.old ≡ []) }
        ensures unchanged_on_err { OnErr result (self.new ≡ self.old) }
    {
        if self.kept.is_empty() {
            return Ok(Line::Borrowed(bytes));
        }
        self.kept.extend_from_slice(bytes)?;
        Ok(Line::Owned(mem::replace(&mut self.kept, Vec::new(self.alloc))))
    }

    // Returns the unended line, unless it is empty.
    pub fn finish(self) -> Option<LineText>
        ensures { result ≡ unended self }
    {
        if self.kept.is_empty() {
            None
        } else {
            Some(LineText::from_vec(self.kept))
        }
    }
}
