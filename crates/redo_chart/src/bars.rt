//! How the bars of a timeline are drawn.
//!
//! A bar has a minimum width, and may be wider than its time. The law states that it includes all times of its spans.
ghost use Rattle.std.specs.Prelude.{◌≡◌, ◌<◌, ◌≤◌, ◌+◌, ◌*◌, ◌^◌, IfOk, map, option_map};
ghost use Rattle.redo_html.specs.Chart.{bar_of, shape_of};
ghost use Rattle.redo_chart.specs.Bars as spec;
ghost use Rattle.redo_chart.specs.Titles.{title_of};
ghost use Rattle.redo_chart.specs.Private.Fitting.{AllFit, Fits, texts_in};

use crate::band::Band;
use crate::targets::{last_part, name_at};
use redo_html::ChartItem;
use redo_logs::LogTable;
use redo_outline::Node;
use redo_timeline::Bar;
use std::alloc::{AllocError, Global};

// A narrower bar has no label, in hundredths of a percent.
const MIN_LABEL_WIDTH: u64 = 350;

// Bars in lanes of this height, or less, have no labels.
const LOW_LANE: u64 = 12;

/// Returns the items of a chart that draw bars in a band. `titles` has their tooltips.
pub fn bar_items<'a>(
    alloc: Global,
    table: &'a LogTable,
    nodes: &[Node],
    band: Band,
    bars: &[Bar],
    titles: &'a [Vec<u8>],
) -> Result<Vec<ChartItem<'a>>, AllocError>
    requires fit { AllFit band bars.now }
    requires titles { texts_in titles.now ≡ map (title_of table.now nodes.now band.kind) bars.now }
    ensures { IfOk result (λ items. map shape_of items.items ≡ spec.bar_shapes table.now nodes.now band bars.now) }
{
    let mut items = Vec::new(alloc);
    for (i, bar) in bars.iter().enumerate() {
        items.push(ChartItem::Bar(drawn_bar(table, nodes, band, bar, &titles[i])))?;
    }
    Ok(items)
}

// Returns how a bar is drawn in a band.
fn drawn_bar<'a>(
    table: &'a LogTable,
    nodes: &[Node],
    band: Band,
    bar: &Bar,
    title: &'a [u8],
) -> redo_html::Bar<'a>
    requires fits { Fits band bar.now }
    requires title { title.now ≡ title_of table.now nodes.now band.kind bar.now }
    ensures { bar_of result ≡ spec.drawn_bar table.now nodes.now band bar.now }
{
    redo_html::Bar {
        target: bar.position as u64,
        x: bar.x,
        y: band.top + bar.lane as u64 * band.lane_height,
        width: bar.width,
        height: band.lane_height.saturating_sub(2),
        failed: bar.failed,
        title,
        label: label(name_at(table, nodes, bar.position), band.lane_height, bar),
    }
}

fn label<'a>(name: &'a [u8], lane_height: u64, bar: &Bar) -> Option<&'a [u8]>
    ensures { option_map (λ label. label.now) result ≡ spec.label_of name.now lane_height bar.now }
{
    if bar.width >= MIN_LABEL_WIDTH && lane_height > LOW_LANE {
        last_part(name)
    } else {
        None
    }
}
