//! A writer that keeps the first byte of a text.
ghost use Rattle.std.specs.Prelude.{◌≡◌};
ghost use Rattle.redo_command.specs.FirstByte.{IsUnwritten, first_taken};

use redo_line::{Broken, Sink};

/// A writer to another one that keeps the first byte which this took.
pub struct FirstByte<W: Sink> {
    out: W,
    first: Option<u8>,
    ghost is_first: { first ≡ first_taken (W.written out) first },
}

impl<W: Sink> FirstByte<W> {
    /// Returns a writer to `out`, which took no byte yet.
    pub fn new(out: W) -> FirstByte<W>
        requires { IsUnwritten (W.written out) }
        ensures { result.out ≡ out }
    {
        FirstByte { out, first: None }
    }

    /// Returns the other writer, and the first byte that it took, if it took one.
    pub fn into_parts(self) -> (W, Option<u8>)
        ensures out { result.0 ≡ self.out }
        ensures first { result.1 ≡ first_taken (W.written result.0) result.1 }
    {
        let FirstByte { out, first } = self;
        (out, first)
    }
}

impl<W: Sink> Sink for FirstByte<W> {
    ghost written = { λ keeper. W.written keeper.out };

    fn push(&mut self, bytes: &[u8]) -> Result<usize, Broken> {
        let taken = self.out.push(bytes)?;
        if taken > 0 {
            self.first = self.first.or(Some(bytes[0]));
        }
        Ok(taken)
    }
}
