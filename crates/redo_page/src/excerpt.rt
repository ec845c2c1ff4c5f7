//! Excerpts of long outputs, and how a long line is cut.
ghost use Rattle.std.specs.Prelude.{◌≡◌, ◌-◌, ◌<◌, ◌^◌, length};
ghost use Rattle.redo_outline.specs.Facts.{entries_at, texts_of};
ghost use Rattle.redo_page.specs.Excerpt.{cut_to, error_position, excerpt_line_end, excerpt_line_parts, excerpt_parts, in_tree_parts, is_kept, left_out_parts};
ghost use Rattle.redo_page.specs.Private.Excerpting.{change_parts, end_parts, first_error, kept_parts, open_after, open_count, step_parts};
ghost use Rattle.redo_page.specs.Private.Writing.{WroteParts};

use crate::cause::is_error;
use crate::labels::{IN_ITS_LOG, MORE_LINE, MORE_LINES};
use crate::targets::plural;
use crate::writer::PageWriter;
use redo_device::Sink;
use redo_html::{Markup, Piece, Style, cut_len};
use redo_logs::LogTable;
use redo_outline::TextLines;

const MAX_EXCERPT_LINE: usize = 1000;

// ---- cutting

/// Returns the beginning of a text, at most `limit` bytes of it. No character and no sequence is cut in two.
#[tactic(auto, using(crate::proofs::WriterLemmas::wrote_then), unfolding(crate::specs::Excerpt::cut_to))]
pub fn cut_to(limit: usize, bytes: &[u8]) -> &[u8]
    ensures { result.now ≡ cut_to limit bytes.now }
{
    if bytes.len() <= limit {
        return bytes;
    }
    &bytes[..cut_len(limit, bytes)]
}

// ---- lines

#[tactic(auto, using(crate::proofs::WriterLemmas::wrote_then), unfolding(crate::specs::Excerpt::excerpt_line_end))]
fn line_end(line: &[u8]) -> &'static [u8]
    ensures { result.now ≡ excerpt_line_end line.now }
{
    if line.len() <= MAX_EXCERPT_LINE {
        b"\n"
    } else {
        b" ...\n"
    }
}

#[tactic(auto, using(crate::proofs::WriterLemmas::wrote_then), unfolding(crate::specs::Excerpt::excerpt_line_parts))]
fn write_line<W: Sink>(line: &[u8], page: &mut PageWriter<'_, W>)
    ensures { WroteParts W.written page.old page.new (excerpt_line_parts line.now) }
{
    let text = cut_to(MAX_EXCERPT_LINE, line);
    let end = line_end(line);
    if is_error(line) {
        page.put(&[
            Piece::Markup(Markup::Emphasis),
            Piece::Log(Style::PLAIN, text),
            Piece::Text(end),
            Piece::Markup(Markup::EndEmphasis),
        ])
    } else {
        page.put(&[Piece::Log(Style::PLAIN, text), Piece::Text(end)])
    }
}

// ---- stretches

/// The stretch of consecutive lines that is open: none, lines that are shown, or lines that are left out, with their number.
#[derive(Clone, Copy)]
pub enum OpenStretch {
    Nothing,
    Shown,
    LeftOut(usize),
}

/// Which lines of an output an excerpt shows.
#[derive(Clone, Copy)]
struct Extent {
    // The number of lines.
    count: usize,
    // The position of the first line that reports an error; the number of lines if there is none.
    error: usize,
}

impl Extent {
    // Returns the extent of the output of log `number`.
    fn of(table: &LogTable, number: u32) -> Extent
        ensures count { result.count ≡ length (texts_of (entries_at number table.now)) }
        ensures error { result.error ≡ error_position (texts_of (entries_at number table.now)) }
    {
        let mut printed = TextLines::new(table, number);
        let mut count = 0;
        let mut error = None;
        'lines: while let Some(line) = printed.next_line() {
            error = first_error(error, count, line);
            count += 1;
        }
        Extent {
            count,
            error: error.unwrap_or(count),
        }
    }

    fn shows(self, at: usize) -> bool
        ensures { result ≡ is_kept self.count self.error at }
    {
        at < 10
            || (self.error.saturating_sub(5) <= at && at.saturating_sub(self.error) < 25)
            || self.count.saturating_sub(60) <= at
    }
}

fn first_error(error: Option<usize>, at: usize, line: &[u8]) -> Option<usize>
    ensures { result ≡ first_error error at line.now }
{
    match error {
        Some(error) => Some(error),
        None => { if is_error(line) { Some(at) } else { None } }
    }
}

impl OpenStretch {
    // Returns the stretch that is open after one more line.
    fn after(self, shown: bool) -> OpenStretch
        requires { open_count self < 2 ^ 64 - 1 }
        ensures { result ≡ open_after self shown }
    {
        if shown {
            return OpenStretch::Shown;
        }
        match self {
            OpenStretch::Nothing => OpenStretch::LeftOut(1),
            OpenStretch::Shown => OpenStretch::LeftOut(1),
            OpenStretch::LeftOut(count) => OpenStretch::LeftOut(count + 1),
        }
    }
}

/// Writes a link to the position of a target in the tree.
#[tactic(auto, using(crate::proofs::WriterLemmas::wrote_then), unfolding(crate::specs::Excerpt::in_tree_parts))]
pub fn write_in_tree<W: Sink>(position: usize, text: &[u8], page: &mut PageWriter<'_, W>)
    ensures { WroteParts W.written page.old page.new (in_tree_parts position text.now) }
{
    page.put(&[
        Piece::Markup(Markup::TargetLink(position as u64)),
        Piece::Text(text),
        Piece::Markup(Markup::EndLink),
    ])
}

// Writes how many lines are left out.
#[tactic(auto, using(crate::proofs::WriterLemmas::wrote_then), unfolding(crate::specs::Excerpt::left_out_parts))]
fn write_left_out<W: Sink>(position: usize, count: usize, page: &mut PageWriter<'_, W>)
    ensures { WroteParts W.written page.old page.new (left_out_parts position count) }
{
    page.put(&[
        Piece::Markup(Markup::CutParagraph),
        Piece::Number(count as u64),
        Piece::Text(plural(count as u64, MORE_LINE, MORE_LINES)),
    ]);
    write_in_tree(position, IN_ITS_LOG, page);
    page.put(&[Piece::Markup(Markup::EndParagraph)]);
}

// Writes the end of the open stretch.
fn write_end<W: Sink>(position: usize, current: OpenStretch, page: &mut PageWriter<'_, W>)
    ensures { WroteParts W.written page.old page.new (end_parts position current) }
{
    match current {
        OpenStretch::Nothing => {}
        OpenStretch::Shown => page.put(&[Piece::Markup(Markup::EndPre)]),
        OpenStretch::LeftOut(count) => write_left_out(position, count, page),
    }
}

// Writes the parts before a line.
fn write_change<W: Sink>(
    position: usize,
    current: OpenStretch,
    shown: bool,
    page: &mut PageWriter<'_, W>,
)
    ensures { WroteParts W.written page.old page.new (change_parts position current shown) }
{
    match (current, shown) {
        (OpenStretch::Nothing, true) => page.put(&[Piece::Markup(Markup::Pre)]),
        (OpenStretch::Nothing, false) => {}
        (OpenStretch::Shown, true) => {}
        (OpenStretch::Shown, false) => page.put(&[Piece::Markup(Markup::EndPre)]),
        (OpenStretch::LeftOut(count), true) => {
            write_left_out(position, count, page);
            page.put(&[Piece::Markup(Markup::Pre)]);
        }
        (OpenStretch::LeftOut(_), false) => {}
    }
}

fn write_shown<W: Sink>(shown: bool, line: &[u8], page: &mut PageWriter<'_, W>)
    ensures { WroteParts W.written page.old page.new (kept_parts shown line.now) }
{
    if shown {
        write_line(line, page);
    }
}

fn write_step<W: Sink>(
    position: usize,
    current: OpenStretch,
    shown: bool,
    line: &[u8],
    page: &mut PageWriter<'_, W>,
)
    ensures { WroteParts W.written page.old page.new (step_parts position current shown line.now) }
{
    write_change(position, current, shown, page);
    write_shown(shown, line, page);
}

/// Writes the excerpt of the output of log `number`, whose target has this position.
pub fn write_excerpt<W: Sink>(
    table: &LogTable,
    number: u32,
    position: usize,
    page: &mut PageWriter<'_, W>,
)
    ensures { WroteParts W.written page.old page.new (excerpt_parts position (texts_of (entries_at number table.now))) }
{
    let extent = Extent::of(table, number);
    let mut printed = TextLines::new(table, number);
    let mut current = OpenStretch::Nothing;
    let mut at = 0;
    'lines: while let Some(line) = printed.next_line() {
        let shown = extent.shows(at);
        write_step(position, current, shown, line, page);
        current = current.after(shown);
        at += 1;
    }
    write_end(position, current, page);
}
