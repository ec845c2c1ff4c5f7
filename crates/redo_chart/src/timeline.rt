//! The chart of the timeline of a build.
//!
//! A `Chart` borrows its texts, so the tooltips and the texts of the axis are made first. If memory runs out, nothing was
//! written.
ghost use Rattle.std.specs.Prelude.{◌≡◌, ◌<◌, ◌^◌, map};
ghost use Rattle.redo_html.specs.Chart.{layer_of, shape_of};
ghost use Rattle.redo_html.specs.Parts.{part_html};
ghost use Rattle.redo_html.specs.Parts.Part.{ChartPart};
ghost use Rattle.redo_timeline.specs.Bars.{IsValidWindow};
ghost use Rattle.redo_timeline.specs.Laws.{IsInLanes};
ghost use Rattle.redo_view.specs.Form.{FormWrites};
ghost use Rattle.redo_chart.specs.Bands.{max_mark_lanes, max_caller_lanes, max_recipe_lanes};
ghost use Rattle.redo_chart.specs.Private.Layering.{drawing_with, layer_with};
ghost use Rattle.redo_chart.specs.Timeline.{drawing_of, timeline_drawing};

use crate::axis::{axis_items, tick_texts};
use crate::band::Band;
use crate::bars::bar_items;
use crate::titles::titles;
use redo_device::Sink;
use redo_html::{Chart, ChartGroup, ChartItem, GroupKind, write_chart};
use redo_logs::LogTable;
use redo_outline::Node;
use redo_timeline::{Span, Timeline, Window, layout};
use redo_view::FormFault;
use std::alloc::Global;

// The maximum number of lanes of each group.
const MAX_CALLER_LANES: usize = 24;

const MAX_RECIPE_LANES: usize = 96;

const MAX_MARK_LANES: usize = 1;

/// Writes the chart of a timeline as one `svg` element: an axis, the recipes that ran others (`callers`), the other recipes, and the
/// targets with only one known time (`marks`). A mark begins and ends at this time. Each bar leads to its target in the tree of the
/// page, has a tooltip, and a label if it is large enough.
///
/// `nodes` are the shown targets, and a span has the position of its node. A bar whose position is past the last node has an empty name and
/// an unknown status. The width of the window must be from 1 to 2^44 - 1 milliseconds.
///
/// If an allocation or a write fails, a prefix was written, possibly nothing, and no write followed one that failed. All is laid out before
/// anything is written.
///
/// This takes the time of [`layout`], and writes each bar once.
pub fn write_timeline<W: Sink>(
    alloc: Global,
    table: &LogTable,
    nodes: &[Node],
    window: Window,
    callers: &[Span],
    recipes: &[Span],
    marks: &[Span],
    out: &mut W,
) -> Result<(), FormFault>
    requires { IsValidWindow window }
    ensures { FormWrites (W.written out.old) (W.written out.new)
        (part_html (ChartPart (timeline_drawing table.now nodes.now window callers.now recipes.now marks.now))) result }
{
    let callers = layout(alloc, window, MAX_CALLER_LANES, callers)?;
    let recipes = layout(alloc, window, MAX_RECIPE_LANES, recipes)?;
    let marks = layout(alloc, window, MAX_MARK_LANES, marks)?;
    write_laid_out(
        alloc,
        table,
        nodes,
        window.width,
        &callers,
        &recipes,
        &marks,
        out,
    )
}

// Writes the chart of timelines that were laid out.
fn write_laid_out<W: Sink>(
    alloc: Global,
    table: &LogTable,
    nodes: &[Node],
    width: u64,
    callers: &Timeline,
    recipes: &Timeline,
    marks: &Timeline,
    out: &mut W,
) -> Result<(), FormFault>
    requires width { (0 < width) × (width < 2 ^ 44) }
    requires callers { IsInLanes max_caller_lanes callers.now }
    requires recipes { IsInLanes max_recipe_lanes recipes.now }
    requires marks { IsInLanes max_mark_lanes marks.now }
    ensures { FormWrites (W.written out.old) (W.written out.new)
        (part_html (ChartPart (drawing_of table.now nodes.now width callers.now recipes.now marks.now))) result }
{
    let callers_band = Band::callers();
    let recipes_band = Band::recipes(callers.lane_count(), recipes.lane_count());
    let marks_band = Band::marks(callers.lane_count(), recipes.lane_count());
    let height = marks_band.below(marks.lane_count());
    let ticks = tick_texts(alloc, width)?;
    let caller_titles = titles(alloc, table, nodes, GroupKind::Callers, callers.bars())?;
    let recipe_titles = titles(alloc, table, nodes, GroupKind::Recipes, recipes.bars())?;
    let mark_titles = titles(alloc, table, nodes, GroupKind::Untimed, marks.bars())?;
    let axis = axis_items(alloc, height.saturating_sub(4), width, &ticks)?;
    let caller_items = bar_items(
        alloc,
        table,
        nodes,
        callers_band,
        callers.bars(),
        &caller_titles,
    )?;
    let recipe_items = bar_items(
        alloc,
        table,
        nodes,
        recipes_band,
        recipes.bars(),
        &recipe_titles,
    )?;
    let mark_items = bar_items(alloc, table, nodes, marks_band, marks.bars(), &mark_titles)?;
    write_groups(
        height,
        recipes.lane_count(),
        &axis,
        &caller_items,
        &recipe_items,
        &mark_items,
        out,
    )
}

// Writes a chart of these items.
fn write_groups<'a, W: Sink>(
    height: u64,
    lanes: usize,
    axis: &'a [ChartItem<'a>],
    callers: &'a [ChartItem<'a>],
    recipes: &'a [ChartItem<'a>],
    marks: &'a [ChartItem<'a>],
    out: &mut W,
) -> Result<(), FormFault>
    ensures { FormWrites (W.written out.old) (W.written out.new) (part_html (ChartPart (drawing_with height lanes
        (map shape_of axis.now) (map shape_of callers.now) (map shape_of recipes.now) (map shape_of marks.now)))) result }
{
    let groups = [
        group(GroupKind::Axis, axis),
        group(GroupKind::Callers, callers),
        group(GroupKind::Recipes, recipes),
        group(GroupKind::Untimed, marks),
    ];
    write_chart(
        Chart {
            height,
            lanes: lanes as u64,
            groups: &groups,
        },
        out,
    )?;
    Ok(())
}

fn group<'a>(kind: GroupKind, items: &'a [ChartItem<'a>]) -> ChartGroup<'a>
    ensures { layer_of result ≡ layer_with kind (map shape_of items.now) }
{
    ChartGroup { kind, items }
}
