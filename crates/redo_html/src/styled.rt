//! Lines with sequences. They have many small parts, which are collected in a buffer.
ghost use Rattle.std.specs.Prelude.{◌≡◌, ◌≤◌, ◌<◌, ◌+◌, ◌==◌, ◌||◌, ℕ, List, ◌∷◌, ◌++◌, [], true, false, length, take, drop, slice_index, OnOk};
ghost use Rattle.std.specs.List.{flat_map};
ghost use Rattle.redo_html.specs.declared.text_kind.TextKind.TheVariants.{Log};
ghost use Rattle.redo_html.specs.Passage.{has_element, highlight_text, inline_html};
ghost use Rattle.redo_html.specs.Private.Highlighting.{after_code_point, highlights_between, html_from};
ghost use Rattle.redo_html.specs.Passage.Inline.{StyleStart, StyleEnd};
ghost use Rattle.redo_line.specs.Lines.{ended, rest, with_line_feed};
ghost use Rattle.redo_html.specs.Private.Buffering.{held, Puts, PutLines, PutSomeOfLine, PutSomeOrFailed};
ghost use Rattle.redo_html.specs.Private.Writing.{IsVerbatim, optional_highlight};

use crate::buffer::Buffer;
use crate::look::{Look, at_start};
use crate::passage::{
    has_reference, padded_end_tag, padded_reference, padded_start_tag, write_end, write_rest,
};
use crate::style::{Style, after_sequences, has_own_element, is_same};
use crate::symbol::{ESCAPE, LANES, verbatim_run};
use crate::text_kind::TextKind;
use memchr::memchr;
use redo_device::{Broken, Sink};

// The number of bytes after which a caller may look for lines without sequences again. Only speed depends on it.
const WINDOW: usize = 1024;

/// Writes one line or more of a log that begin with this style: all of them, or those up to a line in the plain style after a window.
/// Returns the style after them, and the number of their bytes. A line feed ends a passage, and if no style is open there, nothing needs
/// to be done.
#[inline(never)]
pub fn put_lines<W: Sink>(
    style: Style,
    lines: &[u8],
    buffer: &mut Buffer,
    out: &mut W,
) -> Result<(Style, usize), Broken>
    requires some { 0 < length lines.now }
    requires complete { rest lines.now ≡ [] }
    ensures { PutLines (W.written out.old) (W.written out.new) (held buffer.old) style lines.now (held buffer.new) result }
{
    let mut look = at_start(style);
    let mut done = 0;
    while done < lines.len() {
        done += put_some(&mut look, lines, done, buffer, out)?;
        if lines[done - 1] == b'\n' {
            put_end(&look, buffer, out)?;
            look = at_start(look.wanted);
            if done >= WINDOW && !has_own_element(look.wanted) {
                return Ok((look.wanted, done));
            }
        }
    }
    put_end(&look, buffer, out)?;
    Ok((look.wanted, done))
}

// Writes some bytes from `done` on, none after the first line feed. Returns their number, and sets the look to the one after them.
#[inline(always)]
fn put_some<W: Sink>(
    look: &mut Look,
    lines: &[u8],
    done: usize,
    buffer: &mut Buffer,
    out: &mut W,
) -> Result<usize, Broken>
    requires some { done < length lines.now }
    requires complete { rest (drop done lines.now) ≡ [] }
    ensures { PutSomeOfLine (W.written out.old) (W.written out.new) (held buffer.old) look.old (drop done lines.now) (held buffer.new)
        look.new result }
{
    let (style, at) = after_sequences(look.wanted, lines, done);
    look.wanted = style;
    let count = put_text(look, lines, at, buffer, out)?;
    Ok(at - done + count)
}

// Does the same where no sequence begins.
#[inline(always)]
fn put_text<W: Sink>(
    look: &mut Look,
    lines: &[u8],
    done: usize,
    buffer: &mut Buffer,
    out: &mut W,
) -> Result<usize, Broken>
    requires { done < length lines.now }
    ensures { PutSomeOfLine (W.written out.old) (W.written out.new) (held buffer.old) look.old (drop done lines.now) (held buffer.new)
        look.new result }
{
    if !look.unprintable {
        let first = lines[done];
        if has_reference(first) {
            return put_reference(look, first, buffer, out);
        }
        if lines.len() - done >= LANES {
            let len = verbatim_run(lines, done);
            if len > 0 {
                return put_verbatim(look, lines, done, len, buffer, out);
            }
        }
    }
    let mut other = *look;
    let written = put_other(&mut other, &lines[done..], buffer, out);
    *look = other;
    written
}

// Writes the rest of the first line without the buffer. All of it, so that each line feed is looked for once.
#[cold]
#[inline(never)]
fn put_other<W: Sink>(
    look: &mut Look,
    lines: &[u8],
    buffer: &mut Buffer,
    out: &mut W,
) -> Result<usize, Broken>
    requires { 0 < length lines.now }
    ensures { PutSomeOfLine (W.written out.old) (W.written out.new) (held buffer.old) look.old lines.now (held buffer.new)
        look.new result }
{
    let len = first_line_len(lines);
    buffer.flush(out)?;
    write_rest(TextKind::Log, look, &lines[..len], out)
}

// Returns the number of bytes of the first line.
fn first_line_len(lines: &[u8]) -> usize
    requires { 0 < length lines.now }
    ensures some { 0 < result }
    ensures within { result ≤ length lines.now }
    ensures line { (line : List ℕ) (more : List (List ℕ)) → ended lines.now ≡ line ∷ more → take result lines.now ≡ with_line_feed line }
{
    match memchr(b'\n', lines) {
        Some(at) => at + 1,
        None => lines.len(),
    }
}

// Writes code points that are written as they are: the `len` bytes from `done` on. They begin the rest of a passage.
#[inline(always)]
fn put_verbatim<W: Sink>(
    look: &mut Look,
    bytes: &[u8],
    done: usize,
    len: usize,
    buffer: &mut Buffer,
    out: &mut W,
) -> Result<usize, Broken>
    requires some { 0 < len }
    requires few { len ≤ LANES }
    requires room { done + LANES ≤ length bytes.now }
    requires visible { look.old.unprintable ≡ false }
    ensures { (left : List ℕ) → IsVerbatim left len → take len left ≡ take len (drop done bytes.now)
        → PutSomeOrFailed (W.written out.old) (W.written out.new) (held buffer.old) look.old left (held buffer.new) look.new result }
{
    put_style_change(look, buffer, out)?;
    buffer.put(bytes, done, len, out)?;
    Ok(len)
}

// Writes a byte that is written as a reference. It is the first of the rest of a passage.
#[inline(always)]
fn put_reference<W: Sink>(
    look: &mut Look,
    first: u8,
    buffer: &mut Buffer,
    out: &mut W,
) -> Result<usize, Broken>
    requires reference { (first == 38 || first == 60 || first == 62) ≡ true }
    requires visible { look.old.unprintable ≡ false }
    ensures { (left : List ℕ) → 0 < length left → first ≡ slice_index left 0
        → PutSomeOrFailed (W.written out.old) (W.written out.new) (held buffer.old) look.old left (held buffer.new) look.new result }
{
    put_style_change(look, buffer, out)?;
    let (reference, len) = padded_reference(first);
    buffer.put(reference, 0, len, out)?;
    Ok(1)
}

// Writes the highlights between two visible code points, and sets the look to the one after the second. Mostly there are none, and the
// look stays as it is.
#[inline(always)]
fn put_style_change<W: Sink>(
    look: &mut Look,
    buffer: &mut Buffer,
    out: &mut W,
) -> Result<(), Broken>
    requires { look.old.unprintable ≡ false }
    ensures put { Puts (W.written out.old) (W.written out.new) (held buffer.old)
        (flat_map (inline_html Log) (highlights_between look.old false)) (held buffer.new) result }
    ensures look { OnOk result (look.new ≡ after_code_point look.old false) }
{
    if is_same(look.wanted, look.current) {
        return Ok(());
    }
    put_style_end(look.current, buffer, out)?;
    let written = put_style_start(look.wanted, buffer, out);
    look.current = look.wanted;
    written
}

// Writes the end of the highlight of a style, if it has one.
#[inline(always)]
fn put_style_end<W: Sink>(style: Style, buffer: &mut Buffer, out: &mut W) -> Result<(), Broken>
    ensures { Puts (W.written out.old) (W.written out.new) (held buffer.old)
        (optional_highlight Log (has_element style) (60 ∷ (highlight_text (StyleEnd style) ++ 62 ∷ []))) (held buffer.new) result }
{
    if has_own_element(style) {
        let (tag, len) = padded_end_tag(style);
        buffer.put(tag, 0, len, out)
    } else {
        Ok(())
    }
}

// Writes the start of the highlight of a style, if it has one.
#[inline(always)]
fn put_style_start<W: Sink>(style: Style, buffer: &mut Buffer, out: &mut W) -> Result<(), Broken>
    ensures { Puts (W.written out.old) (W.written out.new) (held buffer.old)
        (optional_highlight Log (has_element style) (60 ∷ (highlight_text (StyleStart style) ++ 62 ∷ []))) (held buffer.new) result }
{
    if has_own_element(style) {
        let (tag, len) = padded_start_tag(style);
        buffer.put(tag, 0, len, out)
    } else {
        Ok(())
    }
}

// Writes the highlights at the end of a passage.
#[inline(always)]
fn put_end<W: Sink>(look: &Look, buffer: &mut Buffer, out: &mut W) -> Result<(), Broken>
    ensures { Puts (W.written out.old) (W.written out.new) (held buffer.old) (html_from Log look.now []) (held buffer.new) result }
{
    if look.unprintable {
        buffer.flush(out)?;
        let last = *look;
        write_end(TextKind::Log, &last, out)
    } else {
        put_style_end(look.current, buffer, out)
    }
}
