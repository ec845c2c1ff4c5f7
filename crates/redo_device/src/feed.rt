//! A reader of bytes. It is modelled as the bytes to come and whether a failed read ends them; as `None` if it is opaque. This way,
//! one clause serves known and opaque readers without premises. A clause on an opaque stream holds for *some* stream: what was read
//! and what was written still fit each other. The stream is the file's only if nothing is read after an end or a failed read, which
//! is tested.
ghost use Rattle.std.specs.Prelude.{◌<◌, ◌≤◌, Option, IfOk, length};
ghost use Rattle.redo_device.specs.Feed.{Stream, Pulls};

/// The failure of a device: a read gave no bytes, or a write took none. It doesn't say what
/// failed.
#[derive(Clone, Copy, Debug, PartialEq, Eq)]
pub struct Broken;

/// A reader of bytes.
pub trait Feed: Drop {
    /// The known stream of the reader: the bytes to come, and whether a failed read ends them. It is `None` for an
    /// opaque reader, such as a file.
    ghost contents: { Self → Option Stream };

    /// Reads into the start of `buf`, which must not be empty, and returns the number of bytes read:
    /// at least one while bytes are to come, and 0 at the end of input. The rest of `buf` is
    /// unspecified.
    ///
    /// An opaque reader may return anything, including `Broken`, except a number above the length of
    /// `buf`.
    fn pull(&mut self, buf: &mut [u8]) -> Result<usize, Broken>
        requires room { 0 < length buf.old }
        ensures bound { IfOk result (λ n. n ≤ length buf.new) }
        ensures gives { Pulls (contents self.old) (contents self.new) result buf.new };
}
