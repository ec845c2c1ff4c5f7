//! What a command does, from its arguments to its exit status.
ghost use Rattle.redo_command.specs.Alarm.{IsStatusWith};
ghost use Rattle.redo_command.specs.Failure.{IsStatus};

use crate::explanation::{explain_fault, explain_shown};
use crate::failure::Failure;
use crate::job::{Job, show_job};
use crate::process::{command_arguments, explains, process_arguments, requests_version};
use crate::reports::{print, print_help, report_before_run_as, text_status};
use redo_args::{CommandLine, WordsFault};
use std::alloc::{AllocError, Global};
use std::io::Write;
use std::random::RandomSource;
use std::rt::{Env, Files};
use std::sync::Wait;
use std::thread::Threads;

/// A command: its name, its command line, and the jobs that arguments describe.
pub trait Program {
    /// The definition of its command line for `clap`.
    type Line: CommandLine;

    /// What it writes.
    type Job: Job + Drop;

    /// Returns the name with which its error messages begin.
    fn name(&self) -> &'static str;

    /// Returns the line that `--version` writes, with its line feed.
    fn version(&self) -> &'static str;

    /// Returns whether it says what to do about a failure without `--explain` as the first argument, and rejects this argument.
    fn always_explains(&self) -> bool;

    /// Returns its command line, which explains why arguments are rejected.
    fn line(&self) -> &Self::Line;

    /// Returns the job that arguments describe.
    fn job(&self, alloc: Global, arguments: &[String]) -> Result<Self::Job, WordsFault>;

    /// Returns the help text.
    fn help_text(&self, alloc: Global) -> Result<String, AllocError>;
}

/// Runs a command with the arguments of the process, as [`run_program`] does, or writes its version. It returns the exit status.
pub fn run_process<
    R: Env + Files<File: Send> + RandomSource + Threads + Wait + Sync + AllocGlobal,
    P: Program,
    W: Write,
    E: Write,
>(rt: &R, program: &P, out: &mut W, err: &mut E) -> u8
    ensures { IsStatus result }
{
    run_process_with(rt, program, None, out, err)
}

/// Like [`run_process`], but returns 1 after a text that begins with the byte `alarm`, as [`text_status`] does.
pub fn run_process_with<
    R: Env + Files<File: Send> + RandomSource + Threads + Wait + Sync + AllocGlobal,
    P: Program,
    W: Write,
    E: Write,
>(rt: &R, program: &P, alarm: Option<u8>, out: &mut W, err: &mut E) -> u8
    ensures { IsStatusWith alarm result }
{
    let alloc = rt.alloc();
    match process_arguments(rt) {
        Ok(words) if requests_version(&words) => {
            print(alloc, program.name(), program.version(), out, err)
        }
        Ok(words) => run_program_with(rt, program, alarm, &words, out, err),
        Err(failure) => report_before_run_as(alloc, program.name(), &failure, err),
    }
}

/// Runs a command: reads its arguments, which don't include its own name, and the directory that they name, and writes the text to
/// the output file that they name, or else to `out`. If it fails, it writes one line to `err`. It writes a second one if it can say
/// what to do and explains: always, or with `--explain` as the first argument. It returns the exit status.
pub fn run_program<
    R: Files<File: Send> + RandomSource + Threads + Wait + Sync + AllocGlobal,
    P: Program,
    W: Write,
    E: Write,
>(rt: &R, program: &P, words: &[String], out: &mut W, err: &mut E) -> u8
    ensures { IsStatus result }
{
    run_program_with(rt, program, None, words, out, err)
}

/// Like [`run_program`], but returns 1 after a text that begins with the byte `alarm`, as [`text_status`] does.
pub fn run_program_with<
    R: Files<File: Send> + RandomSource + Threads + Wait + Sync + AllocGlobal,
    P: Program,
    W: Write,
    E: Write,
>(rt: &R, program: &P, alarm: Option<u8>, words: &[String], out: &mut W, err: &mut E) -> u8
    ensures { IsStatusWith alarm result }
{
    if program.always_explains() {
        run_arguments(rt, program, alarm, true, words, out, err)
    } else {
        run_arguments(
            rt,
            program,
            alarm,
            explains(words),
            command_arguments(words),
            out,
            err,
        )
    }
}

fn run_arguments<
    R: Files<File: Send> + RandomSource + Threads + Wait + Sync + AllocGlobal,
    P: Program,
    W: Write,
    E: Write,
>(
    rt: &R,
    program: &P,
    alarm: Option<u8>,
    explains: bool,
    arguments: &[String],
    out: &mut W,
    err: &mut E,
) -> u8
    ensures { IsStatusWith alarm result }
{
    let alloc = rt.alloc();
    let name = program.name();
    match program.job(alloc, arguments) {
        Ok(job) => {
            let shown = show_job(rt, &job, out);
            let dir = dir_of_outcome(&job, &shown.outcome);
            let status = text_status(alloc, name, dir, &shown, job.targets(), alarm, err);
            if explains {
                explain_shown(
                    alloc,
                    name,
                    dir,
                    job.output().unwrap_or(""),
                    &shown,
                    job.targets(),
                    err,
                );
            }
            status
        }
        Err(WordsFault::Help) => print_help(alloc, name, program.help_text(alloc), out, err),
        Err(fault) => {
            let status = report_before_run_as(alloc, name, &Failure::Words(fault), err);
            if explains {
                explain_fault(alloc, name, program.line(), arguments, fault, err);
            }
            status
        }
    }
}

// Returns the capture directory that an outcome is about: the baseline's if the baseline failed, and otherwise the job's own.
fn dir_of_outcome<'a, J: Job>(job: &'a J, outcome: &Result<(), Failure>) -> &'a str {
    match outcome {
        Err(Failure::Baseline(_)) => job.baseline().unwrap_or(""),
        _ => job.dir(),
    }
}
