//! The program `redo-log-json`: shows the logs of a parallel build as JSON, one object per log.
//!
//! [`JsonProgram`] is its command line, and a [`job::BuildJob`] what arguments ask for. The contract of [`redo_command::write_job`] states
//! the JSON that is written of a job.
#![tactic(auto)]

mod job;
mod program;

use crate::program::JsonProgram;
use redo_command::run_process;
use std::process::ExitCode;

fn main(rt: HostRuntime) -> ExitCode {
    let mut out = rt.stdout();
    let mut err = rt.stderr();
    ExitCode::from(run_process(&rt, &JsonProgram, &mut out, &mut err))
}
