ghost use Rattle.std.specs.Prelude.{◌≡◌, Some};
ghost use Rattle.redo_command.specs.Alarm.{IsStatusWith};
ghost use Rattle.redo_log_new.specs.Alarm.{alarm};

use crate::job::NewsJob;
use redo_args::WordsFault;
use redo_args::new::{RedoLogNew, help_text, read_arguments};
use redo_command::{Program, run_process_with};
use std::alloc::{AllocError, Global};
use std::io::Write;
use std::random::RandomSource;
use std::rt::{Env, Files};
use std::sync::Wait;
use std::thread::Threads;

/// The line that `--version` writes.
const VERSION: &str = "redo-log-new 0.2.0\n";

/// The program `redo-log-new`. It writes what is new to the output file of its arguments, or else to standard output.
pub struct NewProgram;

impl Program for NewProgram {
    type Line = RedoLogNew;

    type Job = NewsJob;

    fn name(&self) -> &'static str {
        "redo-log-new"
    }

    fn version(&self) -> &'static str {
        VERSION
    }

    fn always_explains(&self) -> bool {
        true
    }

    fn line(&self) -> &RedoLogNew {
        &RedoLogNew
    }

    fn job(&self, alloc: Global, arguments: &[String]) -> Result<NewsJob, WordsFault> {
        let job = read_arguments(alloc, arguments)?;
        Ok(NewsJob { job })
    }

    fn help_text(&self, alloc: Global) -> Result<String, AllocError> {
        help_text(alloc)
    }
}

/// Runs the program with the arguments of the process, and returns its exit status: 1 if the text was written and something is new or newly
/// fails.
pub fn run_process<
    R: Env + Files<File: Send> + RandomSource + Threads + Wait + Sync + AllocGlobal,
    W: Write,
    E: Write,
>(rt: &R, out: &mut W, err: &mut E) -> u8
    ensures { IsStatusWith (Some alarm) result }
{
    run_process_with(rt, &NewProgram, Some(alarm()), out, err)
}

/// Returns the byte with which the text begins if something is new or newly fails ([`crate::laws::alarm_says_that_something_is_new`]).
pub fn alarm() -> u8
    ensures { result ≡ alarm }
{
    b'n'
}
