//! Members of an object, each with the comma before it.
ghost use Rattle.std.specs.Prelude.{◌≡◌, option_copied};
ghost use Rattle.redo_device.specs.Sink.{Writes};
ghost use Rattle.redo_json.specs.Fields.{bytes_fields, exact_fields, exact_name, field, number_value, optional_bytes_fields, signed_value};
ghost use Rattle.redo_json.specs.Text.{exact_of};
ghost use Rattle.redo_json.specs.Private.Parts.{comma_field, comma_fields, string_start};
ghost use Rattle.json.specs.Json.{null, number};
ghost use Rattle.std.specs.Fmt.{signed_decimal};
ghost use Rattle.std.specs.Str.{is_utf8};

use crate::part::{Part, write_parts};
use redo_device::{Broken, Sink};

/// Writes a member with bytes, and another one with the exact bytes if their text doesn't have them. `start` is what the member has
/// before the text.
pub fn write_bytes<'a, W: Sink>(
    name: &'a [u8],
    start: &'a [u8],
    bytes: &'a [u8],
    out: &mut W,
) -> Result<(), Broken>
    requires { start.now ≡ string_start name.now }
    ensures { Writes (W.written out.old) (W.written out.new) (comma_fields (bytes_fields name.now bytes.now)) result }
{
    if is_text(bytes) {
        return write_parts(
            &[Part::Json(start), Part::Escaped(bytes), Part::Json(b"\"")],
            out,
        );
    }
    write_parts(
        &[
            Part::Json(b",\""),
            Part::Escaped(name),
            Part::Json(b"\":"),
            Part::Text(bytes),
        ],
        out,
    )?;
    write_exact(name, bytes, out)
}

/// Writes a member with the exact bytes of the member `name` if their text doesn't have them.
pub fn write_exact<'a, W: Sink>(name: &'a [u8], bytes: &'a [u8], out: &mut W) -> Result<(), Broken>
    ensures { Writes (W.written out.old) (W.written out.new)
        (comma_fields (exact_fields (exact_name name.now) (exact_of bytes.now))) result }
{
    if is_text(bytes) {
        return Ok(());
    }
    write_parts(
        &[
            Part::Json(b",\""),
            Part::Escaped(name),
            Part::Json(b"_base64\":"),
            Part::Base64(bytes),
        ],
        out,
    )
}

/// Returns whether bytes are UTF-8.
pub fn is_text(bytes: &[u8]) -> bool
    ensures { result ≡ is_utf8 bytes.now }
{
    simdutf8::is_utf8(bytes)
}

/// Writes a member with bytes, or `null` if they are not known. `start` is what the member has before the text.
pub fn write_optional_bytes<'a, W: Sink>(
    name: &'a [u8],
    start: &'a [u8],
    bytes: Option<&'a [u8]>,
    out: &mut W,
) -> Result<(), Broken>
    requires { start.now ≡ string_start name.now }
    ensures { Writes (W.written out.old) (W.written out.new)
        (comma_fields (optional_bytes_fields name.now (option_copied bytes.entry))) result }
{
    match bytes {
        None => write_null(name, out),
        Some(bytes) => write_bytes(name, start, bytes, out),
    }
}

/// Writes a member with a number, or `null` if it is not known.
pub fn write_number<W: Sink>(name: &[u8], value: Option<u64>, out: &mut W) -> Result<(), Broken>
    ensures { Writes (W.written out.old) (W.written out.new) (comma_field (field name.now (number_value value))) result }
{
    let Some(value) = value else {
        return write_null(name, out);
    };
    write_parts(
        &[
            Part::Json(b",\""),
            Part::Escaped(name),
            Part::Json(b"\":"),
            Part::Number(value),
        ],
        out,
    )
}

/// Writes a member with a signed number, or `null` if it is not known.
pub fn write_signed<W: Sink>(name: &[u8], value: Option<i32>, out: &mut W) -> Result<(), Broken>
    ensures { Writes (W.written out.old) (W.written out.new) (comma_field (field name.now (signed_value value))) result }
{
    match value {
        None => write_null(name, out),
        Some(value) => write_known_signed(name, value, out),
    }
}

fn write_known_signed<W: Sink>(name: &[u8], value: i32, out: &mut W) -> Result<(), Broken>
    ensures { Writes (W.written out.old) (W.written out.new) (comma_field (field name.now (number (signed_decimal value)))) result }
{
    write_parts(
        &[
            Part::Json(b",\""),
            Part::Escaped(name),
            Part::Json(b"\":"),
            Part::Signed(value),
        ],
        out,
    )
}

fn write_null<W: Sink>(name: &[u8], out: &mut W) -> Result<(), Broken>
    ensures { Writes (W.written out.old) (W.written out.new) (comma_field (field name.now null)) result }
{
    write_parts(
        &[
            Part::Json(b",\""),
            Part::Escaped(name),
            Part::Json(b"\":null"),
        ],
        out,
    )
}
