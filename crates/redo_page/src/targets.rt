//! How targets are shown: names, statuses and counts.
ghost use Rattle.std.specs.Prelude.{◌≡◌, nat_abs};
ghost use Rattle.redo_page.specs.Private.Writing.{WroteParts};
ghost use Rattle.redo_page.specs.Targets.{article_link_parts, name_parts, sign, exit_parts, badge_parts, plural, lines_parts, warnings_parts, below_parts, facts_parts, how_word, how_parts, linked_parts, took_parts};

use crate::labels::{
    BELOW, EXIT, FACT_DOT, LINE, LINES, LOCKED, MADE, NOT_CLOSED, UNCHANGED, UNLOCKED, WAITING,
    WARNING, WARNING_BELOW, WARNINGS, WARNINGS_BELOW,
};
use crate::words::write_words;
use crate::writer::PageWriter;
use redo_device::Sink;
use redo_html::{Markup, Piece};
use redo_line::How;
use redo_outline::Node;
use redo_units::duration;

/// Writes a name.
pub fn write_name<W: Sink>(name: &[u8], page: &mut PageWriter<'_, W>)
    ensures { WroteParts W.written page.old page.new (name_parts name.now) }
{
    page.put(&[
        Piece::Markup(Markup::Bdi),
        Piece::Text(name),
        Piece::Markup(Markup::EndBdi),
    ])
}

/// Writes a name that leads to the position of a target in the tree, if it is there.
pub fn write_linked<W: Sink>(position: Option<usize>, name: &[u8], page: &mut PageWriter<'_, W>)
    ensures { WroteParts W.written page.old page.new (linked_parts position name.now) }
{
    match position {
        None => write_name(name, page),
        Some(position) => page.put(&[
            Piece::Markup(Markup::TargetLink(position as u64)),
            Piece::Markup(Markup::Bdi),
            Piece::Text(name),
            Piece::Markup(Markup::EndBdi),
            Piece::Markup(Markup::EndLink),
        ]),
    }
}

/// Writes a name that leads to the article of the target at a position.
pub fn write_article_link<W: Sink>(position: usize, name: &[u8], page: &mut PageWriter<'_, W>)
    ensures { WroteParts W.written page.old page.new (article_link_parts position name.now) }
{
    page.put(&[
        Piece::Markup(Markup::OutputLink(position as u64)),
        Piece::Markup(Markup::Bdi),
        Piece::Text(name),
        Piece::Markup(Markup::EndBdi),
        Piece::Markup(Markup::EndLink),
    ])
}

/// Returns the sign of a status, if it is negative.
pub fn sign_of(status: i32) -> &'static [u8]
    ensures { result.now ≡ sign status }
{
    if status < 0 { b"-" } else { b"" }
}

/// Returns a status without its sign.
pub fn magnitude_of(status: i32) -> u64
    ensures { result ≡ nat_abs status }
{
    u64::from(status.unsigned_abs())
}

/// Writes the badge of a target that failed.
pub fn write_exit<W: Sink>(status: i32, page: &mut PageWriter<'_, W>)
    ensures { WroteParts W.written page.old page.new (exit_parts status) }
{
    page.put(&[
        Piece::Text(b" "),
        Piece::Markup(Markup::ExitBadge),
        Piece::Text(EXIT),
        Piece::Text(sign_of(status)),
        Piece::Number(magnitude_of(status)),
        Piece::Markup(Markup::EndBadge),
    ])
}

/// Writes the badge of a target that failed or is unfinished.
pub fn write_badge<W: Sink>(status: Option<i32>, page: &mut PageWriter<'_, W>)
    ensures { WroteParts W.written page.old page.new (badge_parts status) }
{
    match status {
        None => page.put(&[
            Piece::Text(b" "),
            Piece::Markup(Markup::OpenBadge),
            Piece::Text(NOT_CLOSED),
            Piece::Markup(Markup::EndBadge),
        ]),
        Some(0) => {}
        Some(status) => write_exit(status, page),
    }
}

/// Returns a word that depends on a number.
pub fn plural<'a>(number: u64, one: &'a [u8], many: &'a [u8]) -> &'a [u8]
    ensures { result.now ≡ plural number one.now many.now }
{
    if number == 1 { one } else { many }
}

fn write_lines<W: Sink>(lines: u64, page: &mut PageWriter<'_, W>)
    ensures { WroteParts W.written page.old page.new (lines_parts lines) }
{
    if lines == 0 {
        return;
    }
    page.put(&[
        Piece::Text(b" "),
        Piece::Markup(Markup::Small),
        Piece::Text(FACT_DOT),
        Piece::Number(lines),
        Piece::Text(plural(lines, LINE, LINES)),
        Piece::Markup(Markup::EndSmall),
    ])
}

fn write_warnings<'a, W: Sink>(
    warnings: u64,
    one: &'a [u8],
    many: &'a [u8],
    page: &mut PageWriter<'_, W>,
)
    ensures { WroteParts W.written page.old page.new (warnings_parts warnings one.now many.now) }
{
    if warnings == 0 {
        return;
    }
    page.put(&[
        Piece::Text(b" "),
        Piece::Markup(Markup::Small),
        Piece::Text(FACT_DOT),
        Piece::Markup(Markup::Emphasis),
        Piece::Number(warnings),
        Piece::Text(plural(warnings, one, many)),
        Piece::Markup(Markup::EndEmphasis),
        Piece::Markup(Markup::EndSmall),
    ])
}

fn write_below<W: Sink>(below: usize, page: &mut PageWriter<'_, W>)
    ensures { WroteParts W.written page.old page.new (below_parts below) }
{
    if below == 0 {
        return;
    }
    page.put(&[
        Piece::Text(b" "),
        Piece::Markup(Markup::Small),
        Piece::Text(FACT_DOT),
        Piece::Number(below as u64),
        Piece::Text(BELOW),
        Piece::Markup(Markup::EndSmall),
    ])
}

fn write_took<W: Sink>(took: Option<u64>, page: &mut PageWriter<'_, W>)
    ensures { WroteParts W.written page.old page.new (took_parts took) }
{
    let Some(ms) = took else {
        return;
    };
    page.put(&[
        Piece::Text(b" "),
        Piece::Markup(Markup::Small),
        Piece::Text(FACT_DOT),
    ]);
    write_words(&duration(ms), page);
    page.put(&[Piece::Markup(Markup::EndSmall)]);
}

/// Writes the facts that follow the name of a target.
pub fn write_facts<W: Sink>(node: &Node, page: &mut PageWriter<'_, W>)
    ensures { WroteParts W.written page.old page.new (facts_parts node.now) }
{
    write_badge(node.status, page);
    write_took(node.took, page);
    write_lines(node.lines, page);
    write_warnings(node.warnings, WARNING, WARNINGS, page);
    write_below(node.below, page);
    write_warnings(node.warnings_below, WARNING_BELOW, WARNINGS_BELOW, page)
}

fn word_of(how: How) -> &'static [u8]
    ensures { result.now ≡ how_word how }
{
    match how {
        How::Made => MADE,
        How::Waiting => WAITING,
        How::Locked => LOCKED,
        How::Unlocked => UNLOCKED,
        How::Unchanged => UNCHANGED,
    }
}

/// Writes what was done about a target's lock, if it is shown.
pub fn write_how<W: Sink>(shown: bool, how: How, page: &mut PageWriter<'_, W>)
    ensures { WroteParts W.written page.old page.new (how_parts shown how) }
{
    if !shown {
        return;
    }
    page.put(&[
        Piece::Text(b" "),
        Piece::Markup(Markup::Small),
        Piece::Text(FACT_DOT),
        Piece::Text(word_of(how)),
        Piece::Markup(Markup::EndSmall),
    ])
}
