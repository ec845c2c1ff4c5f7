//! Lines of a log. Each begins with the style after the line before it.
ghost use Rattle.std.specs.Prelude.{◌≡◌, ◌≤◌, ◌<◌, [], true, length, take, OnErr, OnOk};
ghost use Rattle.std.specs.List.{list_all};
ghost use Rattle.redo_device.specs.Sink.{Writes};
ghost use Rattle.redo_line.specs.Lines.{ended, rest};
ghost use Rattle.redo_html.specs.Lines.{is_no_escape, lines_html, style_after_lines};
ghost use Rattle.redo_html.specs.Private.Buffering.{held, PutLines, PutPassage};

use crate::buffer::Buffer;
use crate::passage::write_passage;
use crate::style::{Style, has_own_element};
use crate::styled::put_lines;
use crate::symbol::ESCAPE;
use crate::text_kind::TextKind;
use memchr::{memchr, memrchr};
use redo_device::{Broken, Sink};

/// Writes lines of a log, which are passed with their line feeds. `style` is the style at their start, and becomes the style at
/// their end. If a write fails, a prefix of their HTML was written, no write followed, and `style` stays the same.
pub fn write_log_lines<W: Sink>(style: &mut Style, lines: &[u8], out: &mut W) -> Result<(), Broken>
    requires complete { rest lines.now ≡ [] }
    ensures written { Writes (W.written out.old) (W.written out.new) (lines_html style.old (ended lines.now)) result }
    ensures style { OnOk result (style.new ≡ style_after_lines style.old (ended lines.now)) }
    ensures unchanged_on_err { OnErr result (style.new ≡ style.old) }
{
    let mut buffer = Buffer::new();
    let mut current = *style;
    let mut done = 0;
    while done < lines.len() {
        let (next, len) = write_some_lines(current, &lines[done..], &mut buffer, out)?;
        current = next;
        done += len;
    }
    buffer.flush(out)?;
    *style = current;
    Ok(())
}

// Writes the lines before the first one with an escape character as one passage, if they begin with the plain style and there are any, and
// otherwise lines through the buffer. Returns the style after them, and the number of their bytes.
fn write_some_lines<W: Sink>(
    style: Style,
    lines: &[u8],
    buffer: &mut Buffer,
    out: &mut W,
) -> Result<(Style, usize), Broken>
    requires some { 0 < length lines.now }
    requires complete { rest lines.now ≡ [] }
    ensures { PutLines (W.written out.old) (W.written out.new) (held buffer.old) style lines.now (held buffer.new) result }
{
    if has_own_element(style) {
        return put_lines(style, lines, buffer, out);
    }
    let len = plain_lines_len(lines);
    if len == 0 {
        return put_lines(style, lines, buffer, out);
    }
    let next = write_lines(style, &lines[..len], buffer, out)?;
    Ok((next, len))
}

// Writes lines as one passage, without the buffer.
fn write_lines<W: Sink>(
    style: Style,
    lines: &[u8],
    buffer: &mut Buffer,
    out: &mut W,
) -> Result<Style, Broken>
    ensures { PutPassage (W.written out.old) (W.written out.new) (held buffer.old) style lines.now (held buffer.new) result }
{
    buffer.flush(out)?;
    write_passage(TextKind::Log, style, lines, out)
}

// Returns the number of bytes of the lines before the first line with an escape character.
fn plain_lines_len(lines: &[u8]) -> usize
    requires complete { rest lines.now ≡ [] }
    ensures within { result ≤ length lines.now }
    ensures complete { rest (take result lines.now) ≡ [] }
    ensures no_escape { list_all is_no_escape (take result lines.now) ≡ true }
{
    let Some(escape) = memchr(ESCAPE, lines) else {
        return lines.len();
    };
    match memrchr(b'\n', &lines[..escape]) {
        Some(at) => at + 1,
        None => 0,
    }
}
