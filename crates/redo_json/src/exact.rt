//! Strings of JSON that have bytes in Base64.
ghost use Rattle.std.specs.Prelude.{◌≤◌, length, IfNone, IfSome};
ghost use Rattle.json.specs.Print.{escape, quoted};
ghost use Rattle.redo_device.specs.Sink.{Writes};
ghost use Rattle.redo_json.specs.Text.{base64_of};
ghost use Rattle.redo_json.specs.Private.Writing.{HasChunk};

use crate::escape::write_escaped;
use base64::engine::general_purpose::STANDARD;
use redo_device::{Broken, Sink, push_all};

// The number of bytes that are encoded at once. They are groups of three bytes, so only the last of them have padding.
const CHUNK: usize = 768;

/// Writes a string with these bytes in Base64. If a write fails, a prefix of it was written, and no write followed.
pub fn write_base64<W: Sink>(bytes: &[u8], out: &mut W) -> Result<(), Broken>
    ensures { Writes (W.written out.old) (W.written out.new) (quoted (base64_of bytes.now)) result }
{
    push_all(out, b"\"")?;
    write_chunks(bytes, out)?;
    push_all(out, b"\"")
}

fn write_chunks<W: Sink>(bytes: &[u8], out: &mut W) -> Result<(), Broken>
    ensures { Writes (W.written out.old) (W.written out.new) (escape (base64_of bytes.now)) result }
{
    let mut left = bytes;
    'chunks: while let Some((chunk, behind)) = first_chunk(left) {
        write_chunk(chunk, out)?;
        left = behind;
    }
    write_chunk(left, out)
}

// Returns the first chunk and the bytes after it, if there are more bytes than a chunk has.
fn first_chunk(bytes: &[u8]) -> Option<(&[u8], &[u8])>
    ensures some { IfSome result (λ parts. HasChunk bytes.now parts.0.now parts.1.now) }
    ensures none { IfNone result (length bytes.now ≤ 768) }
{
    if bytes.len() <= CHUNK {
        return None;
    }
    Some((&bytes[..CHUNK], &bytes[CHUNK..]))
}

fn write_chunk<W: Sink>(bytes: &[u8], out: &mut W) -> Result<(), Broken>
    requires { length bytes.now ≤ 768 }
    ensures { Writes (W.written out.old) (W.written out.new) (escape (base64_of bytes.now)) result }
{
    let mut buffer = [0; 1024];
    let Ok(len) = STANDARD.encode_slice(bytes, &mut buffer) else {
        unreachable!();
    };
    write_escaped(&buffer[..len], out)
}
