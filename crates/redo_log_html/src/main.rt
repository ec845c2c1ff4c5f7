//! The program `redo-log-html`: shows the logs of a parallel build as one HTML page.
//!
//! [`HtmlProgram`] is its command line, and an [`job::HtmlJob`] what arguments ask for. The contract of [`redo_command::write_job`] states
//! the page that is written of a job.
#![tactic(auto)]

mod job;
mod program;

use crate::program::HtmlProgram;
use redo_command::run_process;
use std::process::ExitCode;

fn main(rt: HostRuntime) -> ExitCode {
    let mut out = rt.stdout();
    let mut err = rt.stderr();
    ExitCode::from(run_process(&rt, &HtmlProgram, &mut out, &mut err))
}
