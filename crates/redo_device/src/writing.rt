ghost use Rattle.std.specs.Prelude.{None};

use crate::feed::Broken;
use crate::sink::Sink;
use std::io::Write;

/// A writer of std. It is opaque. Every error, including an interruption, becomes `Broken`. The
/// contract doesn't say what the writer does with the bytes that it took: it may keep them in a
/// buffer.
#[derive(Drop)]
pub struct Writing<W: Write>(pub W);

impl<W: Write> Sink for Writing<W> {
    ghost written = { λ _. None };

    fn push(&mut self, bytes: &[u8]) -> Result<usize, Broken> {
        self.0.write(bytes).map_err(|_| Broken)
    }
}
