ghost use Rattle.redo_command.specs.Failure.{IsStatus};

use crate::job::TextJob;
use redo_args::{RedoLog, WordsFault, help_text, read_arguments};
use redo_command::{Program, run_program};
use std::alloc::{AllocError, Global};
use std::io::Write;
use std::random::RandomSource;
use std::rt::Files;
use std::sync::Wait;
use std::thread::Threads;

/// The line that `--version` writes.
const VERSION: &str = "redo-log 0.2.0\n";

/// The program `redo-log`. It says what to do about a failure only with `--explain` as the first argument.
pub struct TextProgram;

impl Program for TextProgram {
    type Line = RedoLog;

    type Job = TextJob;

    fn name(&self) -> &'static str {
        "redo-log"
    }

    fn version(&self) -> &'static str {
        VERSION
    }

    fn always_explains(&self) -> bool {
        false
    }

    fn line(&self) -> &RedoLog {
        &RedoLog
    }

    fn job(&self, alloc: Global, arguments: &[String]) -> Result<TextJob, WordsFault> {
        let job = read_arguments(alloc, arguments)?;
        Ok(TextJob { job })
    }

    fn help_text(&self, alloc: Global) -> Result<String, AllocError> {
        help_text(alloc)
    }
}

/// Runs the program: reads its command-line arguments, which don't include its own name, and the
/// directory that they name, and writes the text to `out`. If it fails, it writes one line to `err`, and with
/// `--explain` as the first argument a second one, if it can say what to do. It returns the exit status;
/// docs/redo-log.1 has the table.
pub fn command<
    R: Files<File: Send> + RandomSource + Threads + Wait + Sync + AllocGlobal,
    W: Write,
    E: Write,
>(rt: &R, words: Vec<String>, out: &mut W, err: &mut E) -> u8
    ensures { IsStatus result }
{
    run_program(rt, &TextProgram, &words, out, err)
}
