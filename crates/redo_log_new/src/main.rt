//! The program `redo-log-new`: prints what is new in a parallel build since a baseline, and reports by its exit status whether anything is.
//!
//! [`program::NewProgram`] is its command line, and a [`job::NewsJob`] what arguments ask for. The contract of [`redo_command::write_job`]
//! states the text that is written of a job. The one of `redo_command::text_status` states the exit status by the first byte of the text,
//! and [`laws::alarm_says_that_something_is_new`] what this byte says.
#![tactic(auto)]

mod job;
mod laws;
mod program;

use crate::program::run_process;
use std::process::ExitCode;

fn main(rt: HostRuntime) -> ExitCode {
    let mut out = rt.stdout();
    let mut err = rt.stderr();
    ExitCode::from(run_process(&rt, &mut out, &mut err))
}
