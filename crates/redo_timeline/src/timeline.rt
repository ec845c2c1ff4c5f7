//! The layout of a timeline.
//!
//! A time outside the window is drawn at its edge, so only the window must be valid, and no product of a width overflows.
ghost use Rattle.std.specs.Prelude.{◌≡◌, IfOk};
ghost use Rattle.redo_timeline.specs.Bars.{IsValidWindow};
ghost use Rattle.redo_timeline.specs.Timeline.{timeline_of};

use crate::bar::Bar;
use crate::bars::add_bars;
use crate::lanes::assign_lanes;
use crate::sorting::sorted;
use crate::span::{Span, Window};
use std::alloc::{AllocError, Global};
use std::marker::Model;

/// The bars of a timeline.
#[derive(Drop)]
pub struct Timeline {
    bars: Vec<Bar>,
    lane_count: usize,
}

impl Model for Timeline {
    ghost use Rattle.redo_timeline.specs.Timeline.{Drawing};

    ghost Value = { Drawing };

    ghost view = { λ timeline. record { bars = timeline.bars.items; lane_count = timeline.lane_count } };
}

impl Timeline {
    /// Returns the bars, lane by lane, and in order in each lane.
    pub fn bars(&self) -> &[Bar]
        ensures { result.now ≡ self.now.bars }
    {
        self.bars.as_slice()
    }

    /// Returns the number of lanes.
    pub fn lane_count(&self) -> usize
        ensures { result ≡ self.now.lane_count }
    {
        self.lane_count
    }
}

/// Lays out the spans in lanes, and returns the bars that are drawn of them. The only error is out of memory.
///
/// The width of the window must be from 1 to 2^44 - 1 milliseconds. A time outside the window is drawn at its edge.
///
/// The spans may be in any order. In the order in which they began, each span takes the lowest lane that is free. If `max_lanes` lanes
/// are taken and none is free, it takes the last one, over other spans; 0 allows one lane, too.
///
/// A span is narrow if it has fewer than 20 units and didn't fail. A narrow span joins the bar before it in its lane if the spans of
/// this bar are narrow, the bar ends fewer than 10 units before the span, and both together have fewer than 50 units.
///
/// For n spans, this takes O(n log n + n * `max_lanes`) time.
pub fn layout(
    alloc: Global,
    window: Window,
    max_lanes: usize,
    spans: &[Span],
) -> Result<Timeline, AllocError>
    requires { IsValidWindow window }
    ensures { IfOk result (λ timeline. timeline ≡ timeline_of window max_lanes spans.now) }
{
    let spans = sorted(alloc, spans)?;
    let lanes = assign_lanes(alloc, max_lanes, &spans)?;
    let mut bars = Vec::new(alloc);
    for lane in 0..lanes.len() {
        add_bars(window, lane, &lanes[lane], &mut bars)?;
    }
    let lane_count = lanes.len();
    Ok(Timeline { bars, lane_count })
}
