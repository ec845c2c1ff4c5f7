//! The lanes that spans take.
//!
//! A lane is free if all of its spans have ended, not only the last one. This makes a difference only in the last lane that
//! is allowed, where spans may overlap. The code stores when each lane ended, and looks at each lane for each span.
ghost use Rattle.std.specs.Prelude.{◌≡◌, [], IfOk, OnOk};
ghost use Rattle.redo_timeline.specs.Lanes.{take_lanes};
ghost use Rattle.redo_timeline.specs.Private.Placing.{lane_for, put_end, put_in_lane, spans_in};

use crate::span::Span;
use std::alloc::{AllocError, Global};

/// Returns the spans in each lane. The spans must be in order.
pub fn assign_lanes(
    alloc: Global,
    max_lanes: usize,
    spans: &[Span],
) -> Result<Vec<Vec<Span>>, AllocError>
    ensures { IfOk result (λ lanes. spans_in lanes.items ≡ take_lanes max_lanes [] spans.now) }
{
    let mut lanes = Vec::new(alloc);
    // When the last span in each lane ended.
    let mut ends = Vec::new(alloc);
    for span in spans {
        let lane = lane_for(max_lanes, &ends, span.began);
        put_in_lane(alloc, &mut lanes, lane, *span)?;
        put_end(&mut ends, lane, span.ended)?;
    }
    Ok(lanes)
}

// Returns the lane that a span takes which began at this time.
fn lane_for(max_lanes: usize, ends: &[u64], began: u64) -> usize
    ensures { result ≡ lane_for max_lanes began ends.now }
{
    for (lane, ended) in ends.iter().enumerate() {
        if *ended <= began || lane + 1 >= max_lanes {
            return lane;
        }
    }
    ends.len()
}

// Adds a span to this lane, or to a new lane.
fn put_in_lane(
    alloc: Global,
    lanes: &mut Vec<Vec<Span>>,
    lane: usize,
    span: Span,
) -> Result<(), AllocError>
    ensures { OnOk result (spans_in lanes.new.items ≡ put_in_lane lane span (spans_in lanes.old.items)) }
{
    if lane < lanes.len() {
        lanes[lane].push(span)?;
    } else {
        let mut spans = Vec::new(alloc);
        spans.push(span)?;
        lanes.push(spans)?;
    }
    Ok(())
}

// Sets when the last span in this lane ended, after one more span.
fn put_end(ends: &mut Vec<u64>, lane: usize, ended: u64) -> Result<(), AllocError>
    ensures { OnOk result (ends.new.items ≡ put_end lane ended ends.old.items) }
{
    if lane < ends.len() {
        if ends[lane] < ended {
            ends[lane] = ended;
        }
    } else {
        ends.push(ended)?;
    }
    Ok(())
}
