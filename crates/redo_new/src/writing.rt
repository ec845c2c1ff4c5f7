//! Lines that are written in parts.
ghost use Rattle.std.specs.Prelude.{◌≡◌};
ghost use Rattle.std.specs.List.{flat_map};
ghost use Rattle.redo_line.specs.Lines.{with_line_feed};
ghost use Rattle.redo_view.specs.Form.{FormWrites};
ghost use Rattle.redo_new.specs.News.{failing_line, fixed_line, new_line};

use itoa::Buffer;
use redo_device::{Sink, push_all};
use redo_view::FormFault;

/// Writes the line of a target that newly fails.
pub fn write_failing<W: Sink>(
    target: &[u8],
    status: Option<i32>,
    out: &mut W,
) -> Result<(), FormFault>
    ensures { FormWrites (W.written out.old) (W.written out.new) (with_line_feed (failing_line target.now status)) result }
{
    match status {
        None => write_parts(&[b"newly failing: ", target, b"\n"], out),
        Some(status) => {
            let mut buffer = Buffer::new();
            let number = buffer.format(status).as_bytes();
            write_parts(
                &[b"newly failing: ", target, b" (exit ", number, b")\n"],
                out,
            )
        }
    }
}

/// Writes the line of a new diagnostic of a target.
pub fn write_new<W: Sink>(target: &[u8], line: &[u8], out: &mut W) -> Result<(), FormFault>
    ensures { FormWrites (W.written out.old) (W.written out.new) (with_line_feed (new_line target.now line.now)) result }
{
    write_parts(&[b"new: ", target, b": ", line, b"\n"], out)
}

/// Writes the line of a target that is fixed.
pub fn write_fixed<W: Sink>(target: &[u8], out: &mut W) -> Result<(), FormFault>
    ensures { FormWrites (W.written out.old) (W.written out.new) (with_line_feed (fixed_line target.now)) result }
{
    write_parts(&[b"fixed: ", target, b"\n"], out)
}

// Writes these parts in order.
fn write_parts<W: Sink>(parts: &[&[u8]], out: &mut W) -> Result<(), FormFault>
    ensures { FormWrites (W.written out.old) (W.written out.new) (flat_map (λ part. part.now) parts.now) result }
{
    for part in parts {
        push_all(out, part)?;
    }
    Ok(())
}
