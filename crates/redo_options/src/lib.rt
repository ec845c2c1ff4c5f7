//! The options of a text, the plan of a run with the limits of its numbers, and command-line arguments as bytes.
#![tactic(auto)]

mod options;
mod plan;

pub use options::Options;
pub use plan::{Plan, PlanFault};
