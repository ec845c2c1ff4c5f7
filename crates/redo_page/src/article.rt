//! The articles of targets that failed: where each target is, its recipe, and its output.
ghost use Rattle.std.specs.Prelude.{◌≡◌, false};
ghost use Rattle.std.specs.List.{flat_map};
ghost use Rattle.std.specs.Option.{option_copied};
ghost use Rattle.redo_html.specs.Lines.{style_after_lines};
ghost use Rattle.redo_html.specs.Style.{plain_style};
ghost use Rattle.redo_line.specs.Lines.{ended};
ghost use Rattle.redo_outline.specs.Facts.{entries_at, texts_of};
ghost use Rattle.redo_page.specs.Article.{article_of, article_parts, article_took, cause_of_node, cause_parts, line_of_node, no_failure_below, nothing_parts, output_line_parts, output_parts, path_parts, whole_parts};
ghost use Rattle.redo_page.specs.Targets.{name_parts};
ghost use Rattle.redo_outline.specs.Facts.{target_at};
ghost use Rattle.redo_outline.specs.TextLines.{IsWholeLine};
ghost use Rattle.redo_page.specs.Private.Writing.{WroteParts};

use crate::cause::{find_cause, find_line, is_error};
use crate::excerpt::{cut_to, write_excerpt, write_in_tree};
use crate::labels::{
    MIDDLE_DOT, MORE_ABOVE, NO_FAILURE_BELOW, NOTHING_CAPTURED, PATH_SEPARATOR, PLACE_IN_TREE,
};
use crate::nodes::{is_short, node_at};
use crate::recipe::write_recipe;
use crate::targets::{write_badge, write_name};
use crate::words::write_words;
use crate::writer::PageWriter;
use redo_device::Sink;
use redo_facts::Facts;
use redo_html::{Markup, Piece, Style};
use redo_logs::LogTable;
use redo_outline::{Node, TextLines, target_at, without_line_feed};
use redo_units::duration;

const MAX_CAUSE: usize = 160;

const MAX_PATH: usize = 4;

// ---- outputs

// Writes a line, which is passed with its line feed. `style` is the style at its start, and becomes the style at its end, unless a write failed.
fn write_output_line<W: Sink>(style: &mut Style, whole: &[u8], page: &mut PageWriter<'_, W>)
    requires { IsWholeLine whole.now }
    ensures written { WroteParts W.written page.old page.new (output_line_parts style.old (ended whole.now)) }
    ensures style { page.new.failed ≡ false → style.new ≡ style_after_lines style.old (ended whole.now) }
{
    if is_error(without_line_feed(whole)) {
        page.put(&[Piece::Markup(Markup::Emphasis)]);
        page.put_lines(style, whole);
        page.put(&[Piece::Markup(Markup::EndEmphasis)]);
    } else {
        page.put_lines(style, whole);
    }
}

// Writes the lines that log `number` has.
fn write_lines<W: Sink>(table: &LogTable, number: u32, page: &mut PageWriter<'_, W>)
    ensures { WroteParts W.written page.old page.new (output_line_parts plain_style (texts_of (entries_at number table.now))) }
{
    let mut printed = TextLines::new(table, number);
    let mut style = Style::PLAIN;
    'lines: while let Some(whole) = printed.next_whole_line() {
        write_output_line(&mut style, whole, page);
    }
}

fn write_whole<W: Sink>(table: &LogTable, number: u32, page: &mut PageWriter<'_, W>)
    ensures { WroteParts W.written page.old page.new (whole_parts (texts_of (entries_at number table.now))) }
{
    page.put(&[Piece::Markup(Markup::Pre)]);
    write_lines(table, number, page);
    page.put(&[Piece::Markup(Markup::EndPre)]);
}

fn no_failure_below(below: usize) -> &'static [u8]
    ensures { result.now ≡ no_failure_below below }
{
    if below == 0 { b"" } else { NO_FAILURE_BELOW }
}

#[tactic(auto, using(crate::proofs::WriterLemmas::wrote_then), unfolding(crate::specs::Article::nothing_parts))]
fn write_nothing<W: Sink>(node: &Node, page: &mut PageWriter<'_, W>)
    ensures { WroteParts W.written page.old page.new (nothing_parts node.now) }
{
    page.put(&[
        Piece::Markup(Markup::QuietParagraph),
        Piece::Text(NOTHING_CAPTURED),
        Piece::Text(no_failure_below(node.below)),
        Piece::Markup(Markup::EndParagraph),
    ])
}

#[tactic(auto, using(crate::proofs::WriterLemmas::wrote_then), unfolding(crate::specs::Article::output_parts))]
fn write_output<W: Sink>(
    table: &LogTable,
    position: usize,
    node: &Node,
    page: &mut PageWriter<'_, W>,
)
    ensures { WroteParts W.written page.old page.new (output_parts table.now position node.now) }
{
    if node.lines == 0 {
        write_nothing(node, page)
    } else if is_short(node) {
        write_whole(table, node.number, page)
    } else {
        write_excerpt(table, node.number, position, page)
    }
}

// ---- names

// Writes the name of the target of log `number`.
fn write_target<W: Sink>(table: &LogTable, number: u32, page: &mut PageWriter<'_, W>)
    ensures { WroteParts W.written page.old page.new (name_parts (target_at table.now number)) }
{
    write_name(target_at(table, number), page)
}

// ---- causes

#[tactic(auto, using(crate::proofs::WriterLemmas::wrote_then), unfolding(crate::specs::Article::cause_parts))]
fn write_cause_line<W: Sink>(cause: Option<&[u8]>, page: &mut PageWriter<'_, W>)
    ensures { WroteParts W.written page.old page.new (cause_parts (option_copied cause.entry)) }
{
    match cause {
        None => {}
        Some(line) => page.put(&[
            Piece::Text(b" "),
            Piece::Markup(Markup::Code),
            Piece::Log(Style::PLAIN, cut_to(MAX_CAUSE, line)),
            Piece::Markup(Markup::EndCode),
        ]),
    }
}

/// Writes the line of a target's log at a position, if there is one, as causes are written.
#[tactic(auto, using(crate::proofs::WriterLemmas::wrote_then), unfolding(crate::specs::Article::line_of_node))]
pub fn write_line<W: Sink>(
    table: &LogTable,
    node: &Node,
    position: u64,
    page: &mut PageWriter<'_, W>,
)
    ensures { WroteParts W.written page.old page.new (line_of_node table.now node.now position) }
{
    let line = find_line(table, node.number, position);
    write_cause_line(line, page)
}

/// Writes why a target failed, in one line.
#[tactic(auto, using(crate::proofs::WriterLemmas::wrote_then), unfolding(crate::specs::Article::cause_of_node))]
pub fn write_cause<W: Sink>(table: &LogTable, node: &Node, page: &mut PageWriter<'_, W>)
    ensures { WroteParts W.written page.old page.new (cause_of_node table.now node.now) }
{
    let cause = find_cause(table, node.number);
    write_cause_line(cause, page)
}

// ---- articles

// Writes the logs around a target, at most `levels` of them, the outermost first.
#[tactic(auto, using(crate::proofs::WriterLemmas::wrote_then), unfolding(crate::specs::Article::path_parts))]
fn write_path<W: Sink>(
    table: &LogTable,
    nodes: &[Node],
    levels: usize,
    position: Option<usize>,
    page: &mut PageWriter<'_, W>,
)
    ensures { WroteParts W.written page.old page.new (path_parts table.now nodes.now levels position) }
{
    let Some(position) = position else {
        return;
    };
    if levels == 0 {
        page.put(&[Piece::Text(MORE_ABOVE)]);
        return;
    }
    let node = node_at(nodes, position);
    write_path(table, nodes, levels - 1, node.parent, page);
    write_target(table, node.number, page);
    page.put(&[Piece::Text(PATH_SEPARATOR)]);
}

// Writes how long a target took, if this is known.
fn write_took<W: Sink>(took: Option<u64>, page: &mut PageWriter<'_, W>)
    ensures { WroteParts W.written page.old page.new (article_took took) }
{
    let Some(ms) = took else {
        return;
    };
    write_words(&duration(ms), page);
    page.put(&[Piece::Text(MIDDLE_DOT)]);
}

fn write_article_of<W: Sink>(
    table: &LogTable,
    nodes: &[Node],
    recipes: &[Facts],
    position: usize,
    node: &Node,
    page: &mut PageWriter<'_, W>,
)
    ensures { WroteParts W.written page.old page.new (article_of table.now nodes.now recipes.now position node.now) }
{
    page.put(&[
        Piece::Markup(Markup::Article(position as u64)),
        Piece::Markup(Markup::Title3),
    ]);
    write_target(table, node.number, page);
    write_badge(node.status, page);
    page.put(&[
        Piece::Markup(Markup::EndTitle3),
        Piece::Markup(Markup::MetaParagraph),
    ]);
    write_took(node.took, page);
    write_path(table, nodes, MAX_PATH, node.parent, page);
    write_in_tree(position, PLACE_IN_TREE, page);
    page.put(&[Piece::Markup(Markup::EndParagraph)]);
    write_recipe(recipes, node.number, page);
    write_output(table, position, node, page);
    page.put(&[Piece::Markup(Markup::EndArticle)]);
}

// Writes where the target at a position is, its recipe, and its output.
#[tactic(auto, using(crate::proofs::WriterLemmas::wrote_then), unfolding(crate::specs::Article::article_parts))]
fn write_article<W: Sink>(
    table: &LogTable,
    nodes: &[Node],
    recipes: &[Facts],
    position: usize,
    page: &mut PageWriter<'_, W>,
)
    ensures { WroteParts W.written page.old page.new (article_parts table.now nodes.now recipes.now position) }
{
    let node = node_at(nodes, position);
    write_article_of(table, nodes, recipes, position, &node, page)
}

/// Writes the articles of targets at these positions.
pub fn write_articles<W: Sink>(
    table: &LogTable,
    nodes: &[Node],
    recipes: &[Facts],
    positions: &[usize],
    page: &mut PageWriter<'_, W>,
)
    ensures { WroteParts W.written page.old page.new (flat_map (article_parts table.now nodes.now recipes.now) positions.now) }
{
    for position in positions {
        write_article(table, nodes, recipes, *position, page);
    }
}
