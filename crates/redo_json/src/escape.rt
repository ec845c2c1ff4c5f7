//! Escapes of a string of JSON.
ghost use Rattle.std.specs.Prelude.{◌≡◌, ◌<◌, IfNone, IfSome, OnOk};
ghost use Rattle.std.specs.Char.{digit_char};
ghost use Rattle.json.specs.Print.{escape, escape_byte, escape_letter};
ghost use Rattle.redo_device.specs.Sink.{Writes};
ghost use Rattle.redo_json.specs.Private.Writing.{HasEscape, IsAppended};

use crate::joined::join_bytes;
use crate::plain::plain_len;
use redo_device::{Broken, Sink, push_all};
use std::alloc::AllocError;

/// Writes what a string of JSON has for this text. Stretches without escapes are written at once.
pub fn write_escaped<W: Sink>(text: &[u8], out: &mut W) -> Result<(), Broken>
    ensures { Writes (W.written out.old) (W.written out.new) (escape text.now) result }
{
    let mut left = text;
    'escapes: while let Some((plain, byte, behind)) = first_escape(left) {
        push_all(out, plain)?;
        write_escape(byte, out)?;
        left = behind;
    }
    push_all(out, left)
}

/// Appends what a string of JSON has for this text. After an error, a part of it may have been appended.
pub fn join_escaped(text: &[u8], joined: &mut Vec<u8>) -> Result<(), AllocError>
    ensures { OnOk result (IsAppended joined.old.items joined.new.items (escape text.now)) }
{
    let mut left = text;
    'escapes: while let Some((plain, byte, behind)) = first_escape(left) {
        join_bytes(plain, joined)?;
        join_escape(byte, joined)?;
        left = behind;
    }
    join_bytes(left, joined)
}

// Returns the bytes before the first one that has an escape, that byte, and the bytes after it.
fn first_escape(text: &[u8]) -> Option<(&[u8], u8, &[u8])>
    ensures some { IfSome result (λ parts. HasEscape text.now parts.0.now parts.1 parts.2.now) }
    ensures none { IfNone result (escape text.now ≡ text.now) }
{
    let len = plain_len(text);
    if len == text.len() {
        return None;
    }
    Some((&text[..len], text[len], &text[len + 1..]))
}

fn write_escape<W: Sink>(byte: u8, out: &mut W) -> Result<(), Broken>
    ensures { Writes (W.written out.old) (W.written out.new) (escape_byte byte) result }
{
    let letter = letter(byte);
    if letter > 0 {
        return push_all(out, &[b'\\', letter]);
    }
    if byte < 32 {
        return push_all(
            out,
            &[b'\\', b'u', b'0', b'0', hex(byte / 16), hex(byte % 16)],
        );
    }
    push_all(out, &[byte])
}

fn join_escape(byte: u8, joined: &mut Vec<u8>) -> Result<(), AllocError>
    ensures { OnOk result (IsAppended joined.old.items joined.new.items (escape_byte byte)) }
{
    let letter = letter(byte);
    if letter > 0 {
        return join_bytes(&[b'\\', letter], joined);
    }
    if byte < 32 {
        let (high, low) = (hex(byte / 16), hex(byte % 16));
        return join_bytes(&[b'\\', b'u', b'0', b'0', high, low], joined);
    }
    join_bytes(&[byte], joined)
}

// Returns the letter of a byte's short escape, or 0 if it has none.
fn letter(byte: u8) -> u8
    ensures { result ≡ escape_letter byte }
{
    match byte {
        b'"' | b'\\' => byte,
        8 => b'b',
        12 => b'f',
        b'\n' => b'n',
        b'\r' => b'r',
        b'\t' => b't',
        _ => 0,
    }
}

fn hex(digit: u8) -> u8
    requires { digit < 16 }
    ensures { result ≡ digit_char digit }
{
    if digit < 10 {
        b'0' + digit
    } else {
        b'a' - 10 + digit
    }
}
