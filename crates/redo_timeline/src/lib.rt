//! The layout of a timeline: a bar for each target, from when it began to when it ended, in lanes.
//!
//! [`layout`] says where each bar is drawn. It makes no HTML. [`most_at_once`] says how many spans run at once, and [`times_alone`] how
//! long each runs as the only one.
//!
//! # Terms
//!
//! - *Span*: the time from when a target began to when it ended. Its *position* says which target it is.
//! - *Alone*: a span runs alone while none of the other spans runs.
//! - *Lane*: a row of the timeline. The spans in a lane follow each other, except in the last lane that is allowed.
//! - *Bar*: the rectangle for a span, or for several consecutive ones that are too narrow to be drawn apart.
//! - *Unit*: a hundredth of a percent of the width of the timeline.
#![tactic(auto)]

mod alone;
mod bar;
mod bars;
mod counting;
mod draft;
mod lanes;
mod laws;
mod parallelism;
mod sorting;
mod span;
mod timeline;

pub use alone::times_alone;
pub use bar::Bar;
pub use laws::{
    bars_are_in_lanes, bars_do_not_overlap, failed_spans_are_alone, joined_bars_are_narrow,
    lanes_are_needed, most_spans_run, no_more_spans_run, no_other_span_runs, spans_are_drawn_once,
    spans_are_ordered, times_add_up, times_alone_add_up, times_alone_are_bounded,
};
pub use parallelism::most_at_once;
pub use span::{Span, Window};
pub use timeline::{Timeline, layout};
