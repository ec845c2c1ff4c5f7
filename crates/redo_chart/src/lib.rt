//! The chart of the timeline of a build: which recipes ran when.
//!
//! [`write_timeline`] lays out the spans of targets with `redo_timeline`, and draws the bars and an axis as a chart of `redo_html`. Laws
//! state that each span is in exactly one bar, what a bar says of its spans, and where the links of the bars lead.
//!
//! # Terms
//!
//! - *Callers*: recipes that ran others, in the upper part of the chart. *Recipes*: the others, in the middle. *Marks*: recipes with
//!   only one known time, in the last row.
//! - *Band*: where the lanes of one of these groups are.
#![tactic(auto)]

mod axis;
mod band;
mod bars;
mod laws;
mod targets;
mod timeline;
mod titles;

pub use laws::{
    axis_has_no_bars, bars_are_in_rows, bars_lead_to_positions, bars_say_when_targets_ran,
};
pub use timeline::write_timeline;
