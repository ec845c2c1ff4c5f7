//! Parts of a JSON text that are written in order.
ghost use Rattle.std.specs.Prelude.{decimal};
ghost use Rattle.std.specs.Fmt.{signed_decimal};
ghost use Rattle.std.specs.List.{flat_map};
ghost use Rattle.json.specs.Print.{escape};
ghost use Rattle.redo_device.specs.Sink.{Writes};
ghost use Rattle.redo_json.specs.Private.Parts.{part_text};

use crate::escape::write_escaped;
use crate::exact::write_base64;
use crate::string::write_string;
use itoa::Buffer;
use redo_device::{Broken, Sink, push_all};

/// A part of a JSON text.
#[derive(Clone, Copy)]
pub enum Part<'a> {
    /// JSON of the program, as it is.
    Json(&'a [u8]),
    /// A text in a string, without quotes.
    Escaped(&'a [u8]),
    /// A string with the text of these bytes.
    Text(&'a [u8]),
    /// A string with these bytes in Base64.
    Base64(&'a [u8]),
    /// A number in decimal.
    Number(u64),
    /// A number in decimal, with a minus sign if it is negative.
    Signed(i32),
    /// A number in decimal in a string, without quotes.
    Position(u64),
}

/// Writes parts in order.
pub fn write_parts<W: Sink>(parts: &[Part<'_>], out: &mut W) -> Result<(), Broken>
    ensures { Writes (W.written out.old) (W.written out.new) (flat_map part_text parts.now) result }
{
    for part in parts {
        write_part(*part, out)?;
    }
    Ok(())
}

fn write_part<W: Sink>(part: Part<'_>, out: &mut W) -> Result<(), Broken>
    ensures { Writes (W.written out.old) (W.written out.new) (part_text part.entry) result }
{
    match part {
        Part::Json(json) => push_all(out, json),
        Part::Escaped(text) => write_escaped(text, out),
        Part::Text(bytes) => write_string(bytes, out),
        Part::Base64(bytes) => write_base64(bytes, out),
        Part::Number(value) => write_number(value, out),
        Part::Signed(value) => write_signed(value, out),
        Part::Position(value) => write_position(value, out),
    }
}

fn write_number<W: Sink>(value: u64, out: &mut W) -> Result<(), Broken>
    ensures { Writes (W.written out.old) (W.written out.new) (decimal value) result }
{
    let mut buffer = Buffer::new();
    push_all(out, buffer.format(value).as_bytes())
}

fn write_signed<W: Sink>(value: i32, out: &mut W) -> Result<(), Broken>
    ensures { Writes (W.written out.old) (W.written out.new) (signed_decimal value) result }
{
    let mut buffer = Buffer::new();
    push_all(out, buffer.format(value).as_bytes())
}

fn write_position<W: Sink>(value: u64, out: &mut W) -> Result<(), Broken>
    ensures { Writes (W.written out.old) (W.written out.new) (escape (decimal value)) result }
{
    let mut buffer = Buffer::new();
    write_escaped(buffer.format(value).as_bytes(), out)
}
