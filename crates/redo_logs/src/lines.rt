//! Functions that find lines which end with a line feed.
ghost use Rattle.std.specs.Prelude.{◌≡◌, ◌≤◌, ◌<◌, Some, length, drop, slice_get};
ghost use Rattle.redo_line.specs.Lines.{ended, rest};

use memchr::memchr;

/// Returns the bytes after the first `count` lines. There must be that many lines.
pub fn skip_lines(bytes: &[u8], count: usize) -> &[u8]
    requires { count ≤ length (ended bytes.now) }
    ensures lines { ended result.now ≡ drop count (ended bytes.now) }
    ensures last { rest result.now ≡ rest bytes.now }
{
    let mut upto = 0;
    for _ in 0..count {
        let Some(at) = memchr(b'\n', &bytes[upto..]) else {
            unreachable!()
        };
        upto += at + 1;
    }
    &bytes[upto..]
}

/// Returns the first line, without its line feed. There must be one.
pub fn first_line(bytes: &[u8]) -> &[u8]
    requires { 0 < length (ended bytes.now) }
    ensures { slice_get (ended bytes.now) 0 ≡ Some result.now }
{
    let Some(at) = memchr(b'\n', bytes) else {
        unreachable!()
    };
    &bytes[..at]
}
