//! Strings of JSON that have the text of bytes.
ghost use Rattle.std.specs.Prelude.{◌≡◌, IfNone, IfSome};
ghost use Rattle.std.specs.Str.Lossy.{utf8_lossy};
ghost use Rattle.json.specs.Print.{escape, quoted};
ghost use Rattle.redo_device.specs.Sink.{Writes};
ghost use Rattle.redo_json.specs.Text.{text_of};
ghost use Rattle.redo_json.specs.Private.Writing.{HasInvalid};

use crate::escape::write_escaped;
use redo_device::{Broken, Sink, push_all};
use std::str;

// U+FFFD in UTF-8.
const REPLACEMENT: &[u8] = &[0xEF, 0xBF, 0xBD];

/// Writes a string with the text of these bytes. If a write fails, a prefix of it was written, and no write followed.
pub fn write_string<W: Sink>(bytes: &[u8], out: &mut W) -> Result<(), Broken>
    ensures { Writes (W.written out.old) (W.written out.new) (quoted (text_of bytes.now)) result }
{
    push_all(out, b"\"")?;
    write_text(bytes, out)?;
    push_all(out, b"\"")
}

/// Writes what a string with the text of these bytes has between its quotes.
pub fn write_text<W: Sink>(bytes: &[u8], out: &mut W) -> Result<(), Broken>
    ensures { Writes (W.written out.old) (W.written out.new) (escape (text_of bytes.now)) result }
{
    let mut left = bytes;
    'pieces: while let Some((valid, behind)) = first_invalid(left) {
        write_escaped(valid, out)?;
        push_all(out, REPLACEMENT)?;
        left = behind;
    }
    write_escaped(left, out)
}

// Returns the text before the first piece that is no character, and the bytes after that piece.
fn first_invalid(bytes: &[u8]) -> Option<(&[u8], &[u8])>
    ensures some { IfSome result (λ parts. HasInvalid bytes.now parts.0.now parts.1.now) }
    ensures none { IfNone result (utf8_lossy bytes.now ≡ bytes.now) }
{
    let Err(error) = str::from_utf8(bytes) else {
        return None;
    };
    let valid = error.valid_up_to();
    let invalid = error.error_len().unwrap_or(bytes.len() - valid);
    Some((&bytes[..valid], &bytes[valid + invalid..]))
}
