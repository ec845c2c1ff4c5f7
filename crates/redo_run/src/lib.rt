//! A run turns the streams of all targets, and the arguments that request some of them, into one text.
//!
//! [`run`] looks the arguments up in an index, gathers the logs of the streams, and shows the logs of
//! the requested targets. If it fails, it returns a [`RunFault`]. [`run_as`] writes any other text of the
//! logs instead.
#![tactic(auto)]

mod laws;
mod run_fault;
mod running;

pub use laws::{run_as_matches_run, run_has_a_result};
pub use run_fault::RunFault;
pub use running::{run, run_as};
