//! Passages of text: writes what they show, with highlights for unprintable code points and for styles.
ghost use Rattle.std.specs.Prelude.{◌≡◌, ◌≤◌, ◌<◌, ◌==◌, ◌||◌, ◌↔◌, ◌∷◌, ◌++◌, ◌&&◌, not, [], true, false, IsTrue, Some, length, take, slice_index, encode_utf8};
ghost use Rattle.std.specs.List.{flat_map, list_all};
ghost use Rattle.redo_device.specs.Sink.{Writes};
ghost use Rattle.redo_html.specs.declared.text_kind.TextKind.TheVariants as text_kind;
ghost use Rattle.redo_html.specs.Passage.{escaped, escaped_byte, has_element, is_same_style, highlight_text, has_highlights, inline_html, passage_html};
ghost use Rattle.redo_html.specs.Private.Highlighting.{highlights_between, html_from};
ghost use Rattle.redo_html.specs.Passage.Inline.{StyleStart, StyleEnd};
ghost use Rattle.redo_html.specs.Laws.{is_plain};
ghost use Rattle.redo_html.specs.Style.{plain_style};
ghost use Rattle.redo_html.specs.Shown.{is_unprintable};
ghost use Rattle.redo_html.specs.Symbols.{first_symbol, has_colours, symbol_len};
ghost use Rattle.redo_html.specs.Symbols.Symbol.{CodePoint};
ghost use Rattle.redo_html.specs.Private.Buffering.{IsPadded};
ghost use Rattle.redo_html.specs.Private.Writing.{WrotePassage, WroteSomeOrFailed, IsRepeated, IsVerbatim, SkipsSequences, optional_highlight};

use crate::look::{Look, at_start, pass_code_point};
use crate::notation::write_unprintable;
use crate::style::{Hue, Style, after_sequence, after_sequences, has_own_element, is_same};
use crate::symbol::{ESCAPE, is_log, is_unprintable_code_point, symbol_at, verbatim_len};
use crate::text_kind::TextKind;
use redo_device::{Broken, Sink, push_all};

/// Writes text of a log that begins with this style. Its colours are shown, and end with the text.
pub fn write_log_text<W: Sink>(style: Style, bytes: &[u8], out: &mut W) -> Result<(), Broken>
    ensures { Writes (W.written out.old) (W.written out.new) (passage_html text_kind.Log style bytes.now) result }
{
    match write_passage(TextKind::Log, style, bytes, out) {
        Ok(_) => Ok(()),
        Err(broken) => Err(broken),
    }
}

/// Writes a name, or words of the program.
pub fn write_text<W: Sink>(bytes: &[u8], out: &mut W) -> Result<(), Broken>
    ensures { Writes (W.written out.old) (W.written out.new) (passage_html text_kind.Monochrome plain_style bytes.now) result }
{
    match write_passage(TextKind::Monochrome, Style::PLAIN, bytes, out) {
        Ok(_) => Ok(()),
        Err(broken) => Err(broken),
    }
}

/// Writes the text of a title, which has no elements.
pub fn write_title_text<W: Sink>(bytes: &[u8], out: &mut W) -> Result<(), Broken>
    ensures { Writes (W.written out.old) (W.written out.new) (passage_html text_kind.Title plain_style bytes.now) result }
{
    match write_passage(TextKind::Title, Style::PLAIN, bytes, out) {
        Ok(_) => Ok(()),
        Err(broken) => Err(broken),
    }
}

/// Writes a passage that begins with this style. Returns the style at its end.
pub fn write_passage<W: Sink>(
    kind: TextKind,
    style: Style,
    bytes: &[u8],
    out: &mut W,
) -> Result<Style, Broken>
    ensures { WrotePassage (W.written out.old) (W.written out.new) kind style bytes.now result }
{
    let mut look = at_start(style);
    let mut done = 0;
    while done < bytes.len() {
        done += write_some(kind, &mut look, &bytes[done..], out)?;
    }
    write_end(kind, &look, out)?;
    Ok(look.wanted)
}

/// Writes the rest of a passage, which isn't empty, up to the highlights at its end. Returns the number of its bytes, and sets the look to
/// the one after it.
pub fn write_rest<W: Sink>(
    kind: TextKind,
    look: &mut Look,
    bytes: &[u8],
    out: &mut W,
) -> Result<usize, Broken>
    requires { 0 < length bytes.now }
    ensures { WroteSomeOrFailed (W.written out.old) (W.written out.new) kind look.old bytes.now look.new result }
{
    let mut done = 0;
    while done < bytes.len() {
        done += write_some(kind, look, &bytes[done..], out)?;
    }
    Ok(done)
}

// Writes the start of the rest of a passage, which isn't empty. Returns the number of its bytes, and sets the look to the one after it.
#[inline(always)]
fn write_some<W: Sink>(
    kind: TextKind,
    look: &mut Look,
    bytes: &[u8],
    out: &mut W,
) -> Result<usize, Broken>
    requires { 0 < length bytes.now }
    ensures { WroteSomeOrFailed (W.written out.old) (W.written out.new) kind look.old bytes.now look.new result }
{
    let first = bytes[0];
    if first == ESCAPE && is_log(kind) {
        let (style, len) = after_sequences(look.wanted, bytes, 0);
        if len > 0 {
            look.wanted = style;
            return Ok(len);
        }
    }
    if has_reference(first) {
        return write_reference(kind, look, first, bytes, out);
    }
    let verbatim = verbatim_len(bytes);
    if verbatim > 0 {
        return write_verbatim(kind, look, bytes, verbatim, out);
    }
    write_symbol(kind, look, bytes, out)
}

// Writes the first symbol of the rest of a passage, and all of a run of unprintable code points.
#[inline(never)]
fn write_symbol<W: Sink>(
    kind: TextKind,
    look: &mut Look,
    bytes: &[u8],
    out: &mut W,
) -> Result<usize, Broken>
    requires { 0 < length bytes.now }
    ensures { WroteSomeOrFailed (W.written out.old) (W.written out.new) kind look.old bytes.now look.new result }
{
    let (symbol, len) = symbol_at(kind, bytes);
    match symbol {
        None => {
            let style = after_sequence(look.wanted, bytes, len);
            look.wanted = style;
            Ok(len)
        }
        Some(code_point) => {
            if is_unprintable_code_point(code_point) {
                write_unprintable_run(kind, look, code_point, bytes, out)
            } else {
                write_visible(kind, look, code_point, bytes, len, out)
            }
        }
    }
}

/// Returns whether a byte is one of the three that are written as references.
pub fn has_reference(byte: u8) -> bool
    ensures { result ≡ (byte == 38 || byte == 60 || byte == 62) }
{
    byte == b'&' || byte == b'<' || byte == b'>'
}

// Writes a byte that is written as a reference.
#[inline(always)]
fn write_reference<W: Sink>(
    kind: TextKind,
    look: &mut Look,
    first: u8,
    bytes: &[u8],
    out: &mut W,
) -> Result<usize, Broken>
    requires some { 0 < length bytes.now }
    requires first { first ≡ slice_index bytes.now 0 }
    requires reference { (first == 38 || first == 60 || first == 62) ≡ true }
    ensures { WroteSomeOrFailed (W.written out.old) (W.written out.new) kind look.old bytes.now look.new result }
{
    write_highlights(kind, look, false, out)?;
    push_all(out, reference(first))?;
    pass_code_point(look, false);
    Ok(1)
}

fn reference(byte: u8) -> &'static [u8]
    requires { (byte == 38 || byte == 60 || byte == 62) ≡ true }
    ensures { result.now ≡ escaped_byte byte }
{
    let (bytes, len) = padded_reference(byte);
    &bytes[..len]
}

/// Returns a reference with spaces after it, and the number of its bytes.
#[inline(always)]
pub fn padded_reference(byte: u8) -> (&'static [u8], usize)
    requires { (byte == 38 || byte == 60 || byte == 62) ≡ true }
    ensures { IsPadded result.0.now result.1 (escaped_byte byte) }
{
    if byte == b'&' {
        (b"&amp;           ", 5)
    } else if byte == b'<' {
        (b"&lt;            ", 4)
    } else {
        (b"&gt;            ", 4)
    }
}

// Writes code points that are written as they are.
fn write_verbatim<W: Sink>(
    kind: TextKind,
    look: &mut Look,
    bytes: &[u8],
    len: usize,
    out: &mut W,
) -> Result<usize, Broken>
    requires some { 0 < len }
    requires verbatim { IsVerbatim bytes.now len }
    ensures { WroteSomeOrFailed (W.written out.old) (W.written out.new) kind look.old bytes.now look.new result }
{
    write_highlights(kind, look, false, out)?;
    push_all(out, &bytes[..len])?;
    pass_code_point(look, false);
    Ok(len)
}

// Writes a code point that is not unprintable.
fn write_visible<W: Sink>(
    kind: TextKind,
    look: &mut Look,
    code_point: u32,
    bytes: &[u8],
    len: usize,
    out: &mut W,
) -> Result<usize, Broken>
    requires some { 0 < length bytes.now }
    requires code_point { first_symbol kind bytes.now ≡ CodePoint code_point }
    requires visible { is_unprintable code_point ≡ false }
    requires len { len ≡ symbol_len kind bytes.now }
    ensures { WroteSomeOrFailed (W.written out.old) (W.written out.new) kind look.old bytes.now look.new result }
{
    write_highlights(kind, look, false, out)?;
    write_code_point(code_point, &bytes[..len], out)?;
    pass_code_point(look, false);
    Ok(len)
}

// Writes the unprintable code point at the start, as often as it occurs in a row.
fn write_unprintable_run<W: Sink>(
    kind: TextKind,
    look: &mut Look,
    code_point: u32,
    bytes: &[u8],
    out: &mut W,
) -> Result<usize, Broken>
    requires some { 0 < length bytes.now }
    requires code_point { first_symbol kind bytes.now ≡ CodePoint code_point }
    requires unprintable { is_unprintable code_point ≡ true }
    ensures { WroteSomeOrFailed (W.written out.old) (W.written out.new) kind look.old bytes.now look.new result }
{
    let (count, len) = repeats(kind, code_point, bytes);
    write_highlights(kind, look, true, out)?;
    write_unprintable(code_point, count, out)?;
    pass_code_point(look, true);
    Ok(len)
}

// Returns how often the code point at the start occurs in a row, and the number of bytes of all of them.
fn repeats(kind: TextKind, code_point: u32, bytes: &[u8]) -> (usize, usize)
    requires some { 0 < length bytes.now }
    requires code_point { first_symbol kind bytes.now ≡ CodePoint code_point }
    ensures { IsRepeated kind code_point bytes.now result.0 result.1 }
{
    let mut count = 0;
    let mut len = 0;
    while len < bytes.len() {
        let (symbol, more) = symbol_at(kind, &bytes[len..]);
        if !is_code_point(symbol, code_point) {
            return (count, len);
        }
        count += 1;
        len += more;
    }
    (count, len)
}

fn is_code_point(symbol: Option<u32>, code_point: u32) -> bool
    ensures { IsTrue result ↔ (symbol ≡ Some code_point) }
{
    match symbol {
        Some(other) => other == code_point,
        None => false,
    }
}

// Writes a code point whose bytes these are.
fn write_code_point<W: Sink>(code_point: u32, bytes: &[u8], out: &mut W) -> Result<(), Broken>
    requires { bytes.now ≡ encode_utf8 code_point }
    ensures { Writes (W.written out.old) (W.written out.new) (escaped (encode_utf8 code_point)) result }
{
    if code_point == 38 {
        push_all(out, b"&amp;")
    } else if code_point == 60 {
        push_all(out, b"&lt;")
    } else if code_point == 62 {
        push_all(out, b"&gt;")
    } else {
        push_all(out, bytes)
    }
}

// Writes the highlights before a code point. Mostly there are none.
#[inline(always)]
fn write_highlights<W: Sink>(
    kind: TextKind,
    look: &Look,
    unprintable: bool,
    out: &mut W,
) -> Result<(), Broken>
    ensures { Writes (W.written out.old) (W.written out.new)
        (flat_map (inline_html kind) (highlights_between look.now unprintable)) result }
{
    if !unprintable && !look.unprintable {
        if is_same(look.wanted, look.current) {
            return Ok(());
        }
        return write_style_change(kind, look, out);
    }
    write_changed_highlights(kind, look, unprintable, out)
}

// Writes the highlights between two visible code points with different styles.
#[inline(always)]
fn write_style_change<W: Sink>(kind: TextKind, look: &Look, out: &mut W) -> Result<(), Broken>
    requires visible { look.now.unprintable ≡ false }
    requires changes { is_same_style look.now.wanted look.now.current ≡ false }
    ensures { Writes (W.written out.old) (W.written out.new) (flat_map (inline_html kind) (highlights_between look.now false)) result }
{
    write_style_end(kind, look.current, out)?;
    write_style_start(kind, look.wanted, out)
}

// Writes the end of the highlight of a style, if it has one.
#[inline(always)]
fn write_style_end<W: Sink>(kind: TextKind, style: Style, out: &mut W) -> Result<(), Broken>
    ensures { Writes (W.written out.old) (W.written out.new)
        (optional_highlight kind (has_element style) (60 ∷ (highlight_text (StyleEnd style) ++ 62 ∷ []))) result }
{
    if has_own_element(style) && shows_highlights(kind) {
        push_all(out, style_end_tag(style))
    } else {
        Ok(())
    }
}

// Writes the start of the highlight of a style, if it has one.
#[inline(always)]
fn write_style_start<W: Sink>(kind: TextKind, style: Style, out: &mut W) -> Result<(), Broken>
    ensures { Writes (W.written out.old) (W.written out.new)
        (optional_highlight kind (has_element style) (60 ∷ (highlight_text (StyleStart style) ++ 62 ∷ []))) result }
{
    if has_own_element(style) && shows_highlights(kind) {
        push_all(out, style_start_tag(style))
    } else {
        Ok(())
    }
}

// Writes the highlights before a code point, if there are any.
fn write_changed_highlights<W: Sink>(
    kind: TextKind,
    look: &Look,
    unprintable: bool,
    out: &mut W,
) -> Result<(), Broken>
    ensures { Writes (W.written out.old) (W.written out.new)
        (flat_map (inline_html kind) (highlights_between look.now unprintable)) result }
{
    let unprintable_ends = ends_unprintable(look, unprintable);
    let style_ends = ends_style(look);
    let style_starts = starts_style(look);
    let unprintable_starts = starts_unprintable(look, unprintable);
    let end_tag = style_end_tag(look.current);
    let start_tag = style_start_tag(look.wanted);
    write_highlight(kind, unprintable_ends, b"</i>", out)?;
    write_highlight(kind, style_ends, end_tag, out)?;
    write_highlight(kind, style_starts, start_tag, out)?;
    write_highlight(kind, unprintable_starts, b"<i>", out)
}

// Returns whether the highlight for unprintable code points ends before a code point.
fn ends_unprintable(look: &Look, unprintable: bool) -> bool
    ensures { result ≡ (look.now.unprintable && not (is_same_style look.now.wanted look.now.current && unprintable)) }
{
    look.unprintable && !(is_same(look.wanted, look.current) && unprintable)
}

fn starts_unprintable(look: &Look, unprintable: bool) -> bool
    ensures { result ≡ (unprintable && not (is_same_style look.now.wanted look.now.current && look.now.unprintable)) }
{
    unprintable && !(is_same(look.wanted, look.current) && look.unprintable)
}

// Returns whether the highlight of the open style ends before the next code point.
fn ends_style(look: &Look) -> bool
    ensures { result ≡ (not (is_same_style look.now.wanted look.now.current) && has_element look.now.current) }
{
    !is_same(look.wanted, look.current) && has_own_element(look.current)
}

fn starts_style(look: &Look) -> bool
    ensures { result ≡ (not (is_same_style look.now.wanted look.now.current) && has_element look.now.wanted) }
{
    !is_same(look.wanted, look.current) && has_own_element(look.wanted)
}

/// Writes the highlights at the end of a passage.
#[inline(never)]
pub fn write_end<W: Sink>(kind: TextKind, look: &Look, out: &mut W) -> Result<(), Broken>
    ensures { Writes (W.written out.old) (W.written out.new) (html_from kind look.now []) result }
{
    let style = look.current;
    write_highlight(kind, look.unprintable, b"</i>", out)?;
    write_style_end(kind, style, out)
}

fn write_highlight<W: Sink>(
    kind: TextKind,
    wanted: bool,
    tag: &[u8],
    out: &mut W,
) -> Result<(), Broken>
    ensures { Writes (W.written out.old) (W.written out.new) (optional_highlight kind wanted tag.now) result }
{
    if wanted && shows_highlights(kind) {
        push_all(out, tag)
    } else {
        Ok(())
    }
}

fn shows_highlights(kind: TextKind) -> bool
    ensures { result ≡ has_highlights kind }
{
    match kind {
        TextKind::Log | TextKind::Monochrome => true,
        TextKind::Title => false,
    }
}

fn style_start_tag(style: Style) -> &'static [u8]
    ensures { result.now ≡ 60 ∷ (highlight_text (StyleStart style) ++ 62 ∷ []) }
{
    let (bytes, len) = padded_start_tag(style);
    &bytes[..len]
}

/// Returns the start tag of a style with spaces after it, and the number of its bytes.
pub fn padded_start_tag(style: Style) -> (&'static [u8], usize)
    ensures { IsPadded result.0.now result.1 (60 ∷ (highlight_text (StyleStart style) ++ 62 ∷ [])) }
{
    if style.bold {
        match style.hue {
            Hue::Plain => (b"<b>             ", 3),
            Hue::Red => (b"<b class=\"r\">   ", 13),
            Hue::Green => (b"<b class=\"g\">   ", 13),
            Hue::Yellow => (b"<b class=\"y\">   ", 13),
            Hue::Blue => (b"<b class=\"b\">   ", 13),
            Hue::Magenta => (b"<b class=\"m\">   ", 13),
            Hue::Cyan => (b"<b class=\"c\">   ", 13),
        }
    } else {
        match style.hue {
            Hue::Plain => (b"<span>          ", 6),
            Hue::Red => (b"<span class=\"r\">", 16),
            Hue::Green => (b"<span class=\"g\">", 16),
            Hue::Yellow => (b"<span class=\"y\">", 16),
            Hue::Blue => (b"<span class=\"b\">", 16),
            Hue::Magenta => (b"<span class=\"m\">", 16),
            Hue::Cyan => (b"<span class=\"c\">", 16),
        }
    }
}

fn style_end_tag(style: Style) -> &'static [u8]
    ensures { result.now ≡ 60 ∷ (highlight_text (StyleEnd style) ++ 62 ∷ []) }
{
    let (bytes, len) = padded_end_tag(style);
    &bytes[..len]
}

/// Returns the end tag of a style with spaces after it, and the number of its bytes.
pub fn padded_end_tag(style: Style) -> (&'static [u8], usize)
    ensures { IsPadded result.0.now result.1 (60 ∷ (highlight_text (StyleEnd style) ++ 62 ∷ [])) }
{
    if style.bold {
        (b"</b>            ", 4)
    } else {
        (b"</span>         ", 7)
    }
}
