//! Notations of unprintable code points.
ghost use Rattle.std.specs.Prelude.{◌≡◌, ◌<◌, ◌*◌, ◌^◌};
ghost use Rattle.std.specs.List.{repeat};
ghost use Rattle.redo_device.specs.Sink.{Writes};
ghost use Rattle.redo_html.specs.Shown.{lower_hex, upper_hex, byte_notation, code_point_notation, notation, unprintable_text};

use crate::markup::write_number;
use redo_device::{Broken, Sink, push_all};

/// Writes an unprintable code point that occurs `count` times in a row.
pub fn write_unprintable<W: Sink>(code_point: u32, count: usize, out: &mut W) -> Result<(), Broken>
    ensures { Writes (W.written out.old) (W.written out.new) (unprintable_text code_point count) result }
{
    if count < 5 {
        return write_notations(code_point, count, out);
    }
    write_notation(code_point, out)?;
    push_all(out, &[0xC3, 0x97])?;
    write_number(count as u64, out)?;
    push_all(out, b" ")
}

// Writes a notation `count` times.
fn write_notations<W: Sink>(code_point: u32, count: usize, out: &mut W) -> Result<(), Broken>
    ensures { Writes (W.written out.old) (W.written out.new) (repeat count (notation code_point)) result }
{
    let mut left = count;
    while left > 0 {
        write_notation(code_point, out)?;
        left -= 1;
    }
    Ok(())
}

fn write_notation<W: Sink>(code_point: u32, out: &mut W) -> Result<(), Broken>
    ensures { Writes (W.written out.old) (W.written out.new) (notation code_point) result }
{
    if code_point < 32 {
        push_all(out, &[b'^', code_point as u8 + 64])
    } else if code_point == 127 {
        push_all(out, b"^?")
    } else if 0xDC00 <= code_point && code_point <= 0xDCFF {
        write_byte(code_point - 0xDC00, out)
    } else {
        write_code(code_point, out)
    }
}

// Writes the notation of a byte that is no part of a character.
fn write_byte<W: Sink>(byte: u32, out: &mut W) -> Result<(), Broken>
    ensures { Writes (W.written out.old) (W.written out.new) (byte_notation byte) result }
{
    let high = lower(byte / 16);
    let low = lower(byte);
    push_all(out, &[b'\\', b'x', high, low])
}

// Writes the notation of a character by its number.
fn write_code<W: Sink>(code_point: u32, out: &mut W) -> Result<(), Broken>
    ensures { Writes (W.written out.old) (W.written out.new) (code_point_notation code_point) result }
{
    let digit_6 = upper(code_point / 0x100000);
    let digit_5 = upper(code_point / 65536);
    let digit_4 = upper(code_point / 4096);
    let digit_3 = upper(code_point / 256);
    let digit_2 = upper(code_point / 16);
    let digit_1 = upper(code_point);
    if code_point < 0x10000 {
        push_all(
            out,
            &[b'[', b'U', b'+', digit_4, digit_3, digit_2, digit_1, b']'],
        )
    } else if code_point < 0x100000 {
        push_all(
            out,
            &[
                b'[', b'U', b'+', digit_5, digit_4, digit_3, digit_2, digit_1, b']',
            ],
        )
    } else {
        push_all(
            out,
            &[
                b'[', b'U', b'+', digit_6, digit_5, digit_4, digit_3, digit_2, digit_1, b']',
            ],
        )
    }
}

// Returns the last hexadecimal digit of a number.
fn lower(number: u32) -> u8
    ensures { result ≡ lower_hex number }
{
    let digit = (number % 16) as u8;
    if digit < 10 { 48 + digit } else { 87 + digit }
}

fn upper(number: u32) -> u8
    ensures { result ≡ upper_hex number }
{
    let digit = (number % 16) as u8;
    if digit < 10 { 48 + digit } else { 55 + digit }
}
