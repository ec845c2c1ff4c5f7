ghost use Rattle.std.specs.Prelude.{◌≡◌, ◌<◌, ◌≤◌, Option, IfOk, length};
ghost use Rattle.redo_device.specs.Sink.{Output, Writes, after_push};

use crate::feed::Broken;

/// A writer of bytes.
pub trait Sink {
    /// The known output of the writer: the bytes that it took, and how often it failed or took none. It is `None` for
    /// an opaque writer, such as a terminal.
    ghost written: { Self → Option Output };

    /// Writes a prefix of `bytes`, which must not be empty, and returns the number of bytes that the
    /// writer took. If it returns `Broken`, the writer took none.
    fn push(&mut self, bytes: &[u8]) -> Result<usize, Broken>
        requires nonempty { 0 < length bytes.now }
        ensures bound { IfOk result (λ n. n ≤ length bytes.now) }
        // The number of failures rises by one exactly if the writer failed or took no byte.
        ensures takes { written self.new ≡ after_push (written self.old) bytes.now result };
}

/// Writes all of `bytes`, with as many writes as necessary. If a write fails or takes no byte, it
/// returns `Broken`: a prefix of `bytes` was written then, and no write followed the failed one.
pub fn push_all<W: Sink>(out: &mut W, bytes: &[u8]) -> Result<(), Broken>
    ensures { Writes (W.written out.old) (W.written out.new) bytes.now result }
{
    let mut done = 0;
    while done < bytes.len() {
        match out.push(&bytes[done..])? {
            0 => return Err(Broken),
            n => done += n,
        }
    }
    Ok(())
}
