//! Leaves out the middle of long logs: an adapter for a form, which is passed the events that are left.
//!
//! [`Trimmed`] passes events on to the form that it owns. If a log has a [`Limit`], it passes on only the text lines in
//! the log's head and in its tail. A marker takes the place of the first line that it leaves out.
//!
//! # Terms
//!
//! - *Head*: the lines of a log that end within its first bytes. Only text lines count, with their line feeds.
//! - *Tail*: the lines of a log that begin at some byte or after it.
//! - *Gauge*: the facts about a log that is open: its limit, and the number of bytes seen so far.
#![tactic(auto)]

mod gauges;
mod laws;
mod limit;
mod trimmed;

pub use laws::{
    head_and_tail_are_kept, no_log_has_markers, only_text_is_left_out, trimmed_events_are_in_tree,
    trimmed_form_writes, unlimited_logs_are_whole,
};
pub use limit::{Gauge, Limit};
pub use trimmed::Trimmed;
