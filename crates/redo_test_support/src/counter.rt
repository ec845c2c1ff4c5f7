ghost use Rattle.std.specs.Prelude.{None};

use redo_line::{Broken, Sink};

/// A writer that takes all bytes and counts them.
#[derive(Drop)]
pub struct Counter {
    pub bytes: u64,
}

impl Sink for Counter {
    ghost written = { λ _. None };

    fn push(&mut self, bytes: &[u8]) -> Result<usize, Broken> {
        self.bytes = self.bytes.saturating_add(bytes.len() as u64);
        Ok(bytes.len())
    }
}
