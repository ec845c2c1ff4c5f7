ghost use Rattle.std.specs.Prelude.{◌≡◌, ◌<◌, ◌≤◌, ◌↔◌, [], ◌∷◌, ◌++◌, length, drop, slice_range, Contains, IsTrue, IfOk, OnErr};
ghost use Rattle.redo_line.specs.Lines.{line_feed, ended, rest, unended};
ghost use Rattle.redo_line.specs.Cut.{IfLine, IfMore, is_line};

use crate::history::History;
use crate::line_text::LineText;
use crate::partial_line::PartialLine;
use std::alloc::{AllocError, Global};
use std::marker::Model;

/// The result of a cutter for a chunk.
#[derive(Drop)]
pub enum Cut {
    /// A line, and the offset in the chunk after its line feed.
    Line { bytes: LineText, upto: usize },
    /// No line ends in the rest of the chunk, and all of it was consumed.
    More,
}

/// Splits bytes that arrive in chunks into lines. A cutter is modelled as all bytes that it consumed. It stores only the
/// bytes since the last line feed.
#[derive(Drop)]
pub struct Cutter {
    alloc: Global,
    start: PartialLine,
    history: History,
}

impl Model for Cutter {
    ghost use Rattle.std.specs.Prelude.{◌≡◌, ℕ, List};
    ghost use Rattle.redo_line.specs.Lines.{rest};

    ghost Value = { List ℕ };

    ghost view = { λ cutter. cutter.history.bytes };

    ghost invariant = { λ cutter. cutter.start ≡ rest cutter.history.bytes };
}

impl Cutter {
    /// Creates a cutter that has consumed nothing. This doesn't allocate; later calls allocate from `alloc`.
    pub fn new(alloc: Global) -> Cutter
        ensures { result ≡ [] }
    {
        Cutter {
            alloc,
            start: PartialLine::new(alloc),
            history: History::empty(),
        }
    }

    /// Consumes the bytes of `chunk` from the offset `from` up to and including the first line feed.
    /// Call it again with the returned offset until it returns `More`, and then with the next chunk.
    ///
    /// If it fails, nothing changes: the bytes from `from` on are not consumed.
    #[inline]
    pub fn next(&mut self, chunk: &[u8], from: usize) -> Result<Cut, AllocError>
        requires { from ≤ length chunk.now }

        // A line is returned exactly if the rest of the chunk has a line feed.
        ensures found { IfOk result (λ cut. IsTrue (is_line cut) ↔ Contains (drop from chunk.now) line_feed) }

        // Then the bytes up to the offset are consumed. They end one more line, which is this one, and no byte follows it.
        ensures range { IfOk result (λ cut. IfLine cut (λ line upto. (from < upto) × (upto ≤ length chunk.now))) }
        ensures consumed { IfOk result (λ cut. IfLine cut (λ line upto. self.new ≡ self.old ++ slice_range chunk.now from upto)) }
        ensures line { IfOk result (λ cut. IfLine cut (λ line upto. ended self.new ≡ ended self.old ++ line ∷ [])) }
        ensures no_rest { IfOk result (λ cut. IfLine cut (λ line upto. rest self.new ≡ [])) }

        // Otherwise the rest of the chunk is consumed and ends no further line.
        ensures rest_consumed { IfOk result (λ cut. IfMore cut (self.new ≡ self.old ++ drop from chunk.now)) }
        ensures no_line { IfOk result (λ cut. IfMore cut (ended self.new ≡ ended self.old)) }
        ensures unchanged_on_err { OnErr result (self.new ≡ self.old) }
    {
        match self.start.next_line(&chunk[from..])? {
            Some((line, length)) => {
                let bytes = LineText::from_vec(line.into_vec(self.alloc)?);
                let upto = from + length;
                self.history = History::extended(&self.history, &chunk[from..upto]);
                Ok(Cut::Line { bytes, upto })
            }
            None => {
                self.history = History::extended(&self.history, &chunk[from..]);
                Ok(Cut::More)
            }
        }
    }

    /// Returns the unended line: the bytes after the last line feed, if there are any.
    pub fn finish(self) -> Option<LineText>
        ensures { result ≡ unended (rest self) }
    {
        self.start.finish()
    }
}
