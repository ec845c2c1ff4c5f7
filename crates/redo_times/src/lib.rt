//! When targets began and ended, and which ran others, by the records of all logs.
//!
//! [`read_times`] reads the streams of an index's targets by itself, on one thread, and returns the [`Times`] of each
//! target. Laws state that they don't depend on the order of the logs, and which records they come from.
//!
//! # Terms
//!
//! - *Report*: what a record says about a target: a stage, and when the target reached it.
//! - *Stage*: that the target began, ended, or ran another one. Its own log counts more than other logs.
//! - *Tally*: the times of a target, as they were found so far.
#![tactic(auto)]

mod laws;
mod lines;
mod report;
mod stream;
mod tally;
mod time;
mod times;

pub use laws::{
    beginning_is_first_report, end_is_last_report, order_of_logs_is_irrelevant,
    ran_others_by_own_log,
};
pub use times::{Times, read_times};
