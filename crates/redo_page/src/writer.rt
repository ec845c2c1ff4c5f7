//! Writes the parts of a page.
//!
//! After a failed write, a [`PageWriter`] writes nothing, so a function that writes several parts needs no test between them. A chart is
//! written without it, because a `PageWriter` doesn't allocate and a chart does.
ghost use Rattle.std.specs.Prelude.{◌≡◌, false, [], map};
ghost use Rattle.redo_html.specs.Lines.{line_parts, style_after_lines};
ghost use Rattle.redo_html.specs.Parts.{part_of};
ghost use Rattle.redo_line.specs.Lines.{ended, rest};
ghost use Rattle.redo_page.specs.Private.Writing.{WroteParts, done_if};

use redo_device::{Broken, Sink};
use redo_html::{Piece, Style, write_log_lines, write_pieces};

/// Writes the parts of a page, until a write fails. Later calls of `put` do nothing.
#[derive(Drop)]
pub struct PageWriter<'a, W> {
    pub out: &'a mut W,
    pub failed: bool,
}

impl<'a, W: Sink> PageWriter<'a, W> {
    pub fn new(out: &'a mut W) -> PageWriter<'a, W>
        ensures out { result.out.ghost_name ≡ out.entry.ghost_name }
        ensures now { result.out.now ≡ out.old }
        ensures good { result.failed ≡ false }
    {
        PageWriter { out, failed: false }
    }

    /// Writes pieces, unless a write failed before.
    pub fn put(&mut self, pieces: &[Piece<'_>])
        ensures { WroteParts W.written self.old self.new (map part_of pieces.now) }
    {
        if !self.failed {
            self.failed = write_pieces(pieces, self.out).is_err();
        }
    }

    /// Writes lines of a log, which are passed with their line feeds, unless a write failed before. `style` is the style at their start,
    /// and becomes the style at their end, unless a write failed.
    pub fn put_lines(&mut self, style: &mut Style, lines: &[u8])
        requires complete { rest lines.now ≡ [] }
        ensures written { WroteParts W.written self.old self.new (line_parts style.old (ended lines.now)) }
        ensures style { self.new.failed ≡ false → style.new ≡ style_after_lines style.old (ended lines.now) }
    {
        if !self.failed {
            self.failed = write_log_lines(style, lines, self.out).is_err();
        }
    }

    /// Returns whether a write failed.
    pub fn result(&self) -> Result<(), Broken>
        ensures { result ≡ done_if self.now.failed }
    {
        if self.failed { Err(Broken) } else { Ok(()) }
    }
}
