//! Templates: a section of a page as data, and the function that writes it.
//!
//! A template is a constant: tags, labels, values, repetitions and conditions. Its parts are defined over the same constant, so an order is
//! written once, and a new value takes one line in `scope.rt` and one in `Scope.antt`. Which elements a template ends and leaves open, its
//! links and the tags of its sections are computed (`TemplateNesting`, `TemplateIds`).
ghost use Rattle.std.specs.Prelude.{◌≡◌, ℕ, List, take};
ghost use Rattle.std.specs.List.{flat_map};
ghost use Rattle.redo_device.specs.Sink.{Writes};
ghost use Rattle.redo_html.specs.Parts.{Part, part_html};
ghost use Rattle.redo_page.specs.Private.Viewing.{view_of};
ghost use Rattle.redo_page.specs.Private.Writing.{WroteParts};
ghost use Rattle.redo_page.specs.Scope.{View, max_rows, position_view, positions_of, row_view, target_view};
ghost use Rattle.redo_page.specs.Template.{around_parts, parts_of_item, parts_of_items, nothing, tile_end, tile_start};

use crate::article::{write_articles, write_cause, write_line};
use crate::scope::{Count, Listed, Measure, Phrase, Rows, Scope, Test};
use crate::targets::{write_article_link, write_badge, write_linked, write_name};
use crate::writer::PageWriter;
use redo_device::{Broken, Sink};
use redo_html::{Markup, Piece};
use redo_summary::Rank;

/// A template. Its items contain others, up to four levels deep.
pub type Template = &'static [Item<&'static [u8], Block3>];

pub type Block3 = &'static [Item<&'static [u8], Block2>];

pub type Block2 = &'static [Item<&'static [u8], Block1>];

pub type Block1 = &'static [Item<&'static [u8], ()>];

/// An item of a template. `T` is a text, and `B` is the block in an item.
#[derive(Clone, Copy)]
pub enum Item<T, B> {
    /// A tag.
    Tag(Markup),
    /// The start tag of the body, with the verdict on the build.
    Body,
    /// The title that a browser shows in its tab.
    TabTitle,
    /// The style sheet.
    StyleSheet,
    /// Words of the program.
    Text(T),
    /// A text that depends on the build.
    Phrase(Phrase),
    /// When the build began, if this has a date, and a middle dot.
    Date,
    /// The start of a term and its description.
    Tile(T),
    /// The end of the description.
    EndTile,
    /// A number.
    Number(Count),
    /// A number with a unit.
    Measure(Measure),
    /// The name of the row's target.
    Name,
    /// The name of the row's target, which leads to the target in the tree.
    Link,
    /// The name of the row's target, which leads to its article.
    ArticleLink,
    /// The badge of the row's target.
    Badge,
    /// Why the row's target failed.
    Cause,
    /// The line of the row's target whose position is the row's value.
    Line,
    /// The articles of targets that failed.
    Articles,
    /// A meter that shows how large the row's value is.
    Meter,
    /// A block that is shown if a test holds, or for each row of a table.
    In(Around, B),
}

/// When the block in an item is shown.
#[derive(Clone, Copy)]
pub enum Around {
    /// If this holds.
    If(Test),
    /// If this doesn't hold.
    Unless(Test),
    /// Once for each of these rows.
    Each(Rows),
    /// Once for each target, in the order of the tree.
    EachTarget,
    /// Once for each of these targets, as far as their list names them.
    EachOf(Listed),
}

/// The block in an item.
pub trait Block {
    /// The parts that it writes.
    ghost parts: { Self → View → List Part };

    /// Writes it.
    fn write<W: Sink>(&self, scope: &Scope<'_>, page: &mut PageWriter<'_, W>)
        ensures { WroteParts W.written page.old page.new (parts self.now (view_of scope.now)) };
}

/// The innermost items contain nothing.
impl Block for () {
    ghost parts = { nothing };

    fn write<W: Sink>(&self, _scope: &Scope<'_>, _page: &mut PageWriter<'_, W>) {}
}

/// A text of a template.
pub trait Label {
    /// Its bytes.
    ghost bytes: { Self → List ℕ };

    /// Returns its bytes.
    fn get(&self) -> &'static [u8]
        ensures { result.now ≡ bytes self.now };
}

impl Label for &'static [u8] {
    ghost bytes = { λ text. text.now };

    fn get(&self) -> &'static [u8] {
        *self
    }
}

impl<T: Label, B: Block> Block for &'static [Item<T, B>] {
    ghost parts = { λ block view. parts_of_items T.bytes B.parts view block.now };

    fn write<W: Sink>(&self, scope: &Scope<'_>, page: &mut PageWriter<'_, W>) {
        write_items(*self, scope, page);
    }
}

fn write_items<T: Label, B: Block, W: Sink>(
    items: &[Item<T, B>],
    scope: &Scope<'_>,
    page: &mut PageWriter<'_, W>,
)
    ensures { WroteParts W.written page.old page.new (parts_of_items T.bytes B.parts (view_of scope.now) items.now) }
{
    for item in items {
        write_item(item, scope, page);
    }
}

fn write_item<T: Label, B: Block, W: Sink>(
    item: &Item<T, B>,
    scope: &Scope<'_>,
    page: &mut PageWriter<'_, W>,
)
    ensures { WroteParts W.written page.old page.new (parts_of_item T.bytes B.parts (view_of scope.now) item.now) }
{
    match item {
        Item::Tag(markup) => page.put(&[Piece::Markup(*markup)]),
        Item::Body => page.put(&[Piece::Markup(scope.texts.verdict.body())]),
        Item::TabTitle => page.put(&[Piece::Title(scope.tab())]),
        Item::StyleSheet => page.put(&[Piece::StyleSheet]),
        Item::Text(text) => page.put(&[Piece::Text(text.get())]),
        Item::Phrase(phrase) => page.put(&[Piece::Text(scope.phrase(*phrase))]),
        Item::Date => scope.write_date(page),
        Item::Tile(term) => write_tile_start(term.get(), page),
        Item::EndTile => write_tile_end(page),
        Item::Number(count) => page.put(&[Piece::Number(scope.count(*count))]),
        Item::Measure(measure) => scope.write_measure(*measure, page),
        Item::Name => write_name(scope.name(), page),
        Item::Link => write_linked(Some(scope.rank.position), scope.name(), page),
        Item::ArticleLink => write_article_link(scope.rank.position, scope.name(), page),
        Item::Badge => write_badge(scope.node.status, page),
        Item::Cause => write_cause(scope.table, &scope.node, page),
        Item::Line => write_line(scope.table, &scope.node, scope.rank.value, page),
        Item::Articles => write_articles(
            scope.table,
            scope.nodes,
            scope.request.recipes,
            scope.positions(Listed::Articles),
            page,
        ),
        Item::Meter => page.put(&[Piece::Meter(scope.share_of_largest())]),
        Item::In(around, block) => write_in(*around, block, scope, page),
    }
}

fn write_tile_start<W: Sink>(term: &[u8], page: &mut PageWriter<'_, W>)
    ensures { WroteParts W.written page.old page.new (tile_start term.now) }
{
    page.put(&[
        Piece::Markup(Markup::Div),
        Piece::Markup(Markup::Term),
        Piece::Text(term),
        Piece::Markup(Markup::EndTerm),
        Piece::Markup(Markup::Description),
    ]);
}

fn write_tile_end<W: Sink>(page: &mut PageWriter<'_, W>)
    ensures { WroteParts W.written page.old page.new tile_end }
{
    page.put(&[
        Piece::Markup(Markup::EndDescription),
        Piece::Markup(Markup::EndDiv),
    ]);
}

fn write_in<B: Block, W: Sink>(
    around: Around,
    block: &B,
    scope: &Scope<'_>,
    page: &mut PageWriter<'_, W>,
)
    ensures { WroteParts W.written page.old page.new (around_parts B.parts (view_of scope.now) around block.now) }
{
    match around {
        Around::If(test) => {
            if scope.holds(test) {
                block.write(scope, page);
            }
        }
        Around::Unless(test) => {
            if !scope.holds(test) {
                block.write(scope, page);
            }
        }
        Around::Each(rows) => write_each(scope.rows(rows), block, scope, page),
        Around::EachTarget => write_each_target(block, scope, page),
        Around::EachOf(listed) => write_each_of(scope.listed(listed), block, scope, page),
    }
}

fn write_each<B: Block, W: Sink>(
    ranks: &[Rank],
    block: &B,
    scope: &Scope<'_>,
    page: &mut PageWriter<'_, W>,
)
    ensures { WroteParts W.written page.old page.new
        (flat_map (λ rank. B.parts block.now (row_view (view_of scope.now) ranks.now rank)) ranks.now) }
{
    for rank in ranks {
        block.write(&scope.at_row(ranks, *rank), page);
    }
}

fn write_each_target<B: Block, W: Sink>(block: &B, scope: &Scope<'_>, page: &mut PageWriter<'_, W>)
    ensures { WroteParts W.written page.old page.new
        (flat_map (λ node. B.parts block.now (target_view (view_of scope.now) node)) scope.now.nodes.now) }
{
    for node in scope.nodes {
        block.write(&scope.at_target(*node), page);
    }
}

fn write_each_of<B: Block, W: Sink>(
    positions: &[usize],
    block: &B,
    scope: &Scope<'_>,
    page: &mut PageWriter<'_, W>,
)
    ensures { WroteParts W.written page.old page.new
        (flat_map (λ position. B.parts block.now (position_view (view_of scope.now) position)) positions.now) }
{
    for position in positions {
        block.write(&scope.at_position(*position), page);
    }
}

/// Writes a template by itself.
pub fn write_template<B: Block, W: Sink>(
    template: &B,
    scope: &Scope<'_>,
    out: &mut W,
) -> Result<(), Broken>
    ensures { Writes (W.written out.old) (W.written out.new) (flat_map part_html (B.parts template.now (view_of scope.now))) result }
{
    let mut page = PageWriter::new(out);
    template.write(scope, &mut page);
    page.result()
}
