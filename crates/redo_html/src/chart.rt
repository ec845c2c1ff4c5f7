//! Charts: bars over time as one inline SVG, and meters for the cells of a table.
ghost use Rattle.std.specs.Prelude.{◌≡◌, map};
ghost use Rattle.std.specs.List.{flat_map};
ghost use Rattle.redo_device.specs.Sink.{Writes};
ghost use Rattle.redo_html.specs.Chart.{anchor_attributes, bar_of, bar_nodes, drawing_nodes, drawing_of, failed_attributes, label_fill, lanes_word, last_digit, layer_of, meter_nodes, nodes_html, percent_text, shape_nodes, shape_of};
ghost use Rattle.redo_html.specs.Chart.Shape.{BarShape, LineShape, TickShape};
ghost use Rattle.redo_html.specs.Private.Charting.{attributes_html, chart_start_html, group_start_html, fragment_html, layer_html, shape_html};

use crate::markup::write_number;
use crate::passage::write_title_text;
use redo_device::{Broken, Sink, push_all};

/// A chart of bars over time. Horizontal positions and widths are percentages, in hundredths, and vertical ones are pixels.
#[derive(Clone, Copy)]
pub struct Chart<'a> {
    /// The height of the chart, in pixels.
    pub height: u64,
    /// The number of lanes that its label reports to those who can't see it.
    pub lanes: u64,
    /// The groups, in order: later ones are in front.
    pub groups: &'a [ChartGroup<'a>],
}

/// Items of a chart that look alike.
#[derive(Clone, Copy)]
pub struct ChartGroup<'a> {
    /// The kind of the items, which determines how they look.
    pub kind: GroupKind,
    /// The items, in order: later ones are in front.
    pub items: &'a [ChartItem<'a>],
}

/// The kind of the items of a group.
#[derive(Clone, Copy)]
pub enum GroupKind {
    /// Lines and ticks. `<g class="axis" stroke="#8886" fill="currentColor" stroke-width=".5">`
    Axis,
    /// Recipes that ran others. `<g class="w" fill="#8886">`
    Callers,
    /// Other recipes. `<g class="k" fill="#3a6ea5">`
    Recipes,
    /// Recipes with an unknown start or end. `<g class="e" fill="#8a6d3b">`
    Untimed,
}

/// An item of a chart.
#[derive(Clone, Copy)]
pub enum ChartItem<'a> {
    /// A vertical line from below the ticks to `bottom`. `<line x1="12.34%" x2="12.34%" y1="15" y2="BOTTOM"></line>`
    Line {
        x: u64,
        bottom: u64,
    },
    /// Text at the top. `<text x="12.34%" y="11" text-anchor="middle">TEXT</text>`
    Tick {
        x: u64,
        anchor: Anchor,
        text: &'a [u8],
    },
    /// A bar.
    Bar(Bar<'a>),
}

/// Which part of a tick's text is at its position.
#[derive(Clone, Copy)]
pub enum Anchor {
    /// The start of the text. It has no attribute.
    Start,
    /// The middle of the text. `text-anchor="middle"`
    Middle,
    /// The end of the text. `text-anchor="end"`
    End,
}

/// A bar with a tooltip, which links to a target. It is `<a href="#tN" tabindex="-1">` with a `rect`, or with an `svg` if it has a label.
#[derive(Clone, Copy)]
pub struct Bar<'a> {
    /// The number of the target, as in [`Markup::TargetLink`](crate::Markup::TargetLink).
    pub target: u64,
    /// The position of its left end, in hundredths of a percent of the chart's width.
    pub x: u64,
    /// The position of its upper end, in pixels.
    pub y: u64,
    /// Its width, in hundredths of a percent of the chart's width.
    pub width: u64,
    /// Its height, in pixels.
    pub height: u64,
    /// Whether the target failed: then the bar is red.
    pub failed: bool,
    /// The tooltip.
    pub title: &'a [u8],
    /// The text in the bar, if it has one.
    pub label: Option<&'a [u8]>,
}

/// A part of a chart's HTML: HTML of the program, a number, a percentage in hundredths, or text, which is escaped.
#[derive(Clone, Copy)]
pub enum Fragment<'a> {
    Html(&'a [u8]),
    Number(u64),
    Percent(u64),
    Words(&'a [u8]),
}

/// Writes a chart. If a write fails, a prefix of it was written, and no write followed.
pub fn write_chart<W: Sink>(chart: Chart<'_>, out: &mut W) -> Result<(), Broken>
    ensures { Writes (W.written out.old) (W.written out.new) (nodes_html (drawing_nodes (drawing_of chart.entry))) result }
{
    write_chart_start(chart.height, chart.lanes, out)?;
    write_groups(chart.groups, out)?;
    push_all(out, b"</svg>")
}

/// Writes a meter that is filled to this width, in hundredths of a percent. If a write fails, a prefix of it was written.
pub fn write_meter<W: Sink>(width: u64, out: &mut W) -> Result<(), Broken>
    ensures { Writes (W.written out.old) (W.written out.new) (nodes_html (meter_nodes width)) result }
{
    write_fragments(
        &[
            Fragment::Html(
                b"<svg width=\"100%\" height=\"10\" aria-hidden=\"true\"><rect width=\"",
            ),
            Fragment::Percent(width),
            Fragment::Html(b"\" height=\"10\" fill=\"#3a6ea5\"></rect></svg>"),
        ],
        out,
    )
}

fn write_chart_start<W: Sink>(height: u64, lanes: u64, out: &mut W) -> Result<(), Broken>
    ensures { Writes (W.written out.old) (W.written out.new) (chart_start_html height lanes) result }
{
    write_fragments(
        &[
            Fragment::Html(
                b"<svg role=\"img\" aria-label=\"A bar for each target, from its start to its end, in ",
            ),
            Fragment::Number(lanes),
            Fragment::Html(lanes_after(lanes)),
            Fragment::Html(b"\" width=\"100%\" height=\""),
            Fragment::Number(height),
            Fragment::Html(b"\" font-size=\"11\">"),
        ],
        out,
    )
}

fn lanes_after(lanes: u64) -> &'static [u8]
    ensures { result.now ≡ lanes_word lanes }
{
    if lanes == 1 { b" lane" } else { b" lanes" }
}

fn write_groups<W: Sink>(groups: &[ChartGroup<'_>], out: &mut W) -> Result<(), Broken>
    ensures { Writes (W.written out.old) (W.written out.new) (flat_map layer_html (map layer_of groups.now)) result }
{
    for group in groups {
        write_group(*group, out)?;
    }
    Ok(())
}

fn write_group<W: Sink>(group: ChartGroup<'_>, out: &mut W) -> Result<(), Broken>
    ensures { Writes (W.written out.old) (W.written out.new) (layer_html (layer_of group.entry)) result }
{
    push_all(out, group_start(group.kind))?;
    write_items(group.kind, group.items, out)?;
    push_all(out, b"</g>")
}

fn group_start(kind: GroupKind) -> &'static [u8]
    ensures { result.now ≡ group_start_html kind }
{
    match kind {
        GroupKind::Axis => {
            b"<g class=\"axis\" stroke=\"#8886\" fill=\"currentColor\" stroke-width=\".5\">"
        }
        GroupKind::Callers => b"<g class=\"w\" fill=\"#8886\">",
        GroupKind::Recipes => b"<g class=\"k\" fill=\"#3a6ea5\">",
        GroupKind::Untimed => b"<g class=\"e\" fill=\"#8a6d3b\">",
    }
}

fn write_items<W: Sink>(kind: GroupKind, items: &[ChartItem<'_>], out: &mut W) -> Result<(), Broken>
    ensures { Writes (W.written out.old) (W.written out.new) (flat_map (shape_html kind) (map shape_of items.now)) result }
{
    for item in items {
        write_item(kind, *item, out)?;
    }
    Ok(())
}

fn write_item<W: Sink>(kind: GroupKind, item: ChartItem<'_>, out: &mut W) -> Result<(), Broken>
    ensures { Writes (W.written out.old) (W.written out.new) (shape_html kind (shape_of item.entry)) result }
{
    match item {
        ChartItem::Line { x, bottom } => write_line(x, bottom, out),
        ChartItem::Tick { x, anchor, text } => write_tick(x, anchor, text, out),
        ChartItem::Bar(bar) => write_bar(kind, bar, out),
    }
}

fn write_line<W: Sink>(x: u64, bottom: u64, out: &mut W) -> Result<(), Broken>
    ensures { (kind : GroupKind) →
        Writes (W.written out.old) (W.written out.new) (shape_html kind (LineShape x bottom)) result }
{
    write_fragments(
        &[
            Fragment::Html(b"<line x1=\""),
            Fragment::Percent(x),
            Fragment::Html(b"\" x2=\""),
            Fragment::Percent(x),
            Fragment::Html(b"\" y1=\"15\" y2=\""),
            Fragment::Number(bottom),
            Fragment::Html(b"\"></line>"),
        ],
        out,
    )
}

fn write_tick<W: Sink>(x: u64, anchor: Anchor, text: &[u8], out: &mut W) -> Result<(), Broken>
    ensures { (kind : GroupKind) →
        Writes (W.written out.old) (W.written out.new) (shape_html kind (TickShape x anchor text.now)) result }
{
    write_fragments(
        &[
            Fragment::Html(b"<text x=\""),
            Fragment::Percent(x),
            Fragment::Html(b"\" y=\"11\""),
            Fragment::Html(anchor_attribute(anchor)),
            Fragment::Html(b">"),
            Fragment::Words(text),
            Fragment::Html(b"</text>"),
        ],
        out,
    )
}

fn anchor_attribute(anchor: Anchor) -> &'static [u8]
    ensures { result.now ≡ attributes_html (anchor_attributes anchor) }
{
    match anchor {
        Anchor::Start => b"",
        Anchor::Middle => b" text-anchor=\"middle\"",
        Anchor::End => b" text-anchor=\"end\"",
    }
}

fn write_bar<W: Sink>(kind: GroupKind, bar: Bar<'_>, out: &mut W) -> Result<(), Broken>
    ensures { Writes (W.written out.old) (W.written out.new) (shape_html kind (BarShape (bar_of bar.entry))) result }
{
    write_fragments(
        &[
            Fragment::Html(b"<a href=\"#t"),
            Fragment::Number(bar.target),
            Fragment::Html(b"\" tabindex=\"-1\">"),
        ],
        out,
    )?;
    write_bar_shape(kind, bar, out)?;
    push_all(out, b"</a>")
}

fn write_bar_shape<W: Sink>(kind: GroupKind, bar: Bar<'_>, out: &mut W) -> Result<(), Broken>
    ensures { let drawn = bar_of bar.entry in
        Writes (W.written out.old) (W.written out.new) (nodes_html (bar_nodes kind drawn drawn.label)) result }
{
    match bar.label {
        None => write_plain_bar(bar, out),
        Some(label) => write_labelled_bar(kind, bar, label, out),
    }
}

fn write_plain_bar<W: Sink>(bar: Bar<'_>, out: &mut W) -> Result<(), Broken>
    ensures { (kind : GroupKind) →
        Writes (W.written out.old) (W.written out.new) (nodes_html (bar_nodes kind (bar_of bar.entry) None)) result }
{
    write_fragments(
        &[
            Fragment::Html(b"<rect x=\""),
            Fragment::Percent(bar.x),
            Fragment::Html(b"\" y=\""),
            Fragment::Number(bar.y),
            Fragment::Html(b"\" width=\""),
            Fragment::Percent(bar.width),
            Fragment::Html(b"\" height=\""),
            Fragment::Number(bar.height),
            Fragment::Html(b"\""),
            Fragment::Html(failed_attribute(bar.failed)),
            Fragment::Html(b"><title>"),
            Fragment::Words(bar.title),
            Fragment::Html(b"</title></rect>"),
        ],
        out,
    )
}

fn write_labelled_bar<'a, W: Sink>(
    kind: GroupKind,
    bar: Bar<'a>,
    label: &'a [u8],
    out: &mut W,
) -> Result<(), Broken>
    ensures { Writes (W.written out.old) (W.written out.new) (nodes_html (bar_nodes kind (bar_of bar.entry) (Some label.now))) result }
{
    write_fragments(
        &[
            Fragment::Html(b"<svg x=\""),
            Fragment::Percent(bar.x),
            Fragment::Html(b"\" y=\""),
            Fragment::Number(bar.y),
            Fragment::Html(b"\" width=\""),
            Fragment::Percent(bar.width),
            Fragment::Html(b"\" height=\""),
            Fragment::Number(bar.height),
            Fragment::Html(b"\"><title>"),
            Fragment::Words(bar.title),
            Fragment::Html(b"</title><rect width=\"100%\" height=\""),
            Fragment::Number(bar.height),
            Fragment::Html(b"\""),
            Fragment::Html(failed_attribute(bar.failed)),
            Fragment::Html(b"></rect><text x=\"4\" y=\""),
            Fragment::Number(bar.height / 4 * 3),
            Fragment::Html(b"\" fill=\""),
            Fragment::Html(fill_of_label(kind, bar.failed)),
            Fragment::Html(b"\">"),
            Fragment::Words(label),
            Fragment::Html(b"</text></svg>"),
        ],
        out,
    )
}

fn failed_attribute(failed: bool) -> &'static [u8]
    ensures { result.now ≡ attributes_html (failed_attributes failed) }
{
    if failed {
        b" class=\"f\" fill=\"#c62828\""
    } else {
        b""
    }
}

fn fill_of_label(kind: GroupKind, failed: bool) -> &'static [u8]
    ensures { result.now ≡ label_fill kind failed }
{
    match kind {
        GroupKind::Callers if !failed => b"currentColor",
        _ => b"#fff",
    }
}

fn write_fragments<W: Sink>(fragments: &[Fragment<'_>], out: &mut W) -> Result<(), Broken>
    ensures { Writes (W.written out.old) (W.written out.new) (flat_map fragment_html fragments.now) result }
{
    for fragment in fragments {
        write_fragment(*fragment, out)?;
    }
    Ok(())
}

fn write_fragment<W: Sink>(fragment: Fragment<'_>, out: &mut W) -> Result<(), Broken>
    ensures { Writes (W.written out.old) (W.written out.new) (fragment_html fragment.entry) result }
{
    match fragment {
        Fragment::Html(html) => push_all(out, html),
        Fragment::Number(number) => write_number(number, out),
        Fragment::Percent(hundredths) => write_percent(hundredths, out),
        Fragment::Words(words) => write_title_text(words, out),
    }
}

// Writes a percentage, which is given in hundredths, with two decimals.
fn write_percent<W: Sink>(hundredths: u64, out: &mut W) -> Result<(), Broken>
    ensures { Writes (W.written out.old) (W.written out.new) (percent_text hundredths) result }
{
    write_number(hundredths / 100, out)?;
    push_all(
        out,
        &[
            b'.',
            last_digit_of(hundredths / 10),
            last_digit_of(hundredths),
            b'%',
        ],
    )
}

fn last_digit_of(number: u64) -> u8
    ensures { result ≡ last_digit number }
{
    b'0' + (number % 10) as u8
}
