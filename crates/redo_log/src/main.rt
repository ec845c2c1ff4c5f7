//! The program `redo-log`: shows the logs of a parallel build as one text.
#![tactic(auto)]

use redo_log_cli::{TextProgram, run_process};
use std::process::ExitCode;

fn main(rt: HostRuntime) -> ExitCode {
    let mut out = rt.stdout();
    let mut err = rt.stderr();
    ExitCode::from(run_process(&rt, &TextProgram, &mut out, &mut err))
}
