ghost use Rattle.std.specs.Prelude.{None};

use crate::feed::{Broken, Feed};
use std::io::Read;

/// A reader of std. It is opaque. Every error, including an interruption, becomes `Broken`.
#[derive(Drop)]
pub struct Reading<R: Read>(pub R);

impl<R: Read + Drop> Feed for Reading<R> {
    ghost contents = { λ _. None };

    fn pull(&mut self, buf: &mut [u8]) -> Result<usize, Broken> {
        self.0.read(buf).map_err(|_| Broken)
    }
}
