//! The facts about a build's shown targets: when they ran, how long the build took, which ones took longest, and what their recipes
//! used.
//!
//! [`Summary::new`] computes them from logs, the nodes of their outline and the times of all targets, and [`UsageSummary::new`] from what
//! is known of recipes. They make no HTML.
//!
//! # Terms
//!
//! - *Shown target*: the target of a node. Its *position* is the node's position.
//! - *Span*: the time from when a target began to when it ended, if both are known.
//! - *Mark*: the one time that is known of a target, as a span without length.
//! - *Caller*: the span of a target that ran others, as `redo_times` says. All other spans are *recipes*.
#![tactic(auto)]

mod laws;
mod rank;
mod ranking;
mod spans;
mod summary;
mod target;
mod targets;
mod totals;
mod usage;
mod window;

pub use laws::{
    callers_ran_others, positions_are_of_nodes, ranks_are_in_order, ranks_have_values_of_targets,
    spans_are_callers_or_recipes, spans_are_in_order_of_position, spans_are_of_targets,
    tables_have_first_ranks, totals_are_over_all, window_is_over_known_times,
};
pub use rank::Rank;
pub use summary::Summary;
pub use targets::duration_of;
pub use usage::UsageSummary;
