//! The pieces of a page.
ghost use Rattle.std.specs.Prelude.{map};
ghost use Rattle.std.specs.List.{flat_map};
ghost use Rattle.redo_device.specs.Sink.{Writes};
ghost use Rattle.redo_html.specs.Parts.{part_html, part_of};
ghost use Rattle.redo_html.specs.Parts.Part.{StylePart, TitlePart};

use crate::chart::{Chart, write_chart, write_meter};
use crate::markup::{Markup, write_markup, write_number};
use crate::passage::{write_log_text, write_text, write_title_text};
use crate::style::Style;
use crate::style_sheet::STYLE_SHEET;
use redo_device::{Broken, Sink, push_all};

/// A piece of a page.
#[derive(Clone, Copy)]
pub enum Piece<'a> {
    /// A tag.
    Markup(Markup),
    /// Text of a log that begins with this style. Its colours are shown, and end with it.
    Log(Style, &'a [u8]),
    /// Any bytes, without colours: a name, or words of the program.
    Text(&'a [u8]),
    /// A number in decimal.
    Number(u64),
    /// The element `title` with this text. It belongs into the head of the page.
    Title(&'a [u8]),
    /// The element `style` with the style sheet of the page. It belongs into the head of the page.
    StyleSheet,
    /// A chart of bars over time.
    Chart(Chart<'a>),
    /// A bar in a cell of a table, which is filled to this width, in hundredths of a percent.
    Meter(u64),
}

/// Writes pieces in order. If a write fails, a prefix of them was written, and no write followed.
pub fn write_pieces<W: Sink>(pieces: &[Piece<'_>], out: &mut W) -> Result<(), Broken>
    ensures { Writes (W.written out.old) (W.written out.new) (flat_map part_html (map part_of pieces.now)) result }
{
    for piece in pieces {
        write_piece(*piece, out)?;
    }
    Ok(())
}

fn write_piece<W: Sink>(piece: Piece<'_>, out: &mut W) -> Result<(), Broken>
    ensures { Writes (W.written out.old) (W.written out.new) (part_html (part_of piece.entry)) result }
{
    match piece {
        Piece::Markup(markup) => write_markup(markup, out),
        Piece::Log(style, text) => write_log_text(style, text, out),
        Piece::Text(text) => write_text(text, out),
        Piece::Number(number) => write_number(number, out),
        Piece::Title(title) => write_title(title, out),
        Piece::StyleSheet => write_style_sheet(out),
        Piece::Chart(chart) => write_chart(chart, out),
        Piece::Meter(width) => write_meter(width, out),
    }
}

fn write_title<W: Sink>(title: &[u8], out: &mut W) -> Result<(), Broken>
    ensures { Writes (W.written out.old) (W.written out.new) (part_html (TitlePart title.now)) result }
{
    push_all(out, b"<title>")?;
    write_title_text(title, out)?;
    push_all(out, b"</title>")
}

fn write_style_sheet<W: Sink>(out: &mut W) -> Result<(), Broken>
    ensures { Writes (W.written out.old) (W.written out.new) (part_html StylePart) result }
{
    push_all(out, b"<style>")?;
    push_all(out, STYLE_SHEET)?;
    push_all(out, b"</style>")
}
