//! The output of a program besides the text of logs: error messages and, for example, a help text.
ghost use Rattle.std.specs.Prelude.{◌≡◌, ◌≢◌, ◌⊎◌, ◌↔◌, true, false, Ok, IfErr, length};
ghost use Rattle.redo_run.specs.declared.run_fault.RunFault.TheVariants as run;
ghost use Rattle.redo_command.specs.declared.failure.Failure.TheVariants.{Memory, Run};
ghost use Rattle.redo_command.specs.Alarm.{is_alarm};
ghost use Rattle.redo_command.specs.Failure.{IsBeforeRun, IsReportable, status_of};

use crate::directory::Shown;
use crate::failure::{Failure, status};
use crate::message::fault_line_as;
use redo_index::Index;
use redo_run::RunFault;
use std::alloc::{AllocError, Global};
use std::io::Write;

/// Writes the error message of a program for a failure that is neither the fault of a stream nor an unknown argument,
/// and returns its exit status. The message begins with the program's name. If an allocation fails, it returns the
/// status of `Failure::Memory` instead.
pub fn report_before_run_as<E: Write>(
    alloc: Global,
    program: &str,
    failure: &Failure,
    err: &mut E,
) -> u8
    requires { IsBeforeRun failure.now }
    ensures { (result ≡ status_of failure.now) ⊎ (result ≡ status_of Memory) }
{
    report(alloc, program, "", failure, &Index::new(alloc), &[], err)
}

/// Returns the exit status of a program that showed logs: 0 if the whole text was written. Otherwise it writes the
/// failure's error message, which begins with the program's name, and returns its status. If an allocation fails, it
/// writes the message for `Failure::Memory` and returns its status instead. `dir` is as for [`crate::fault_line_as`].
pub fn exit_status<E: Write>(
    alloc: Global,
    program: &str,
    dir: &str,
    shown: &Shown,
    arguments: &[Vec<u8>],
    err: &mut E,
) -> u8
    requires reportable { IfErr shown.now.outcome (IsReportable (length shown.now.index) (length arguments.now)) }
    requires nonzero_status { IfErr shown.now.outcome (λ failure. status_of failure ≢ 0) }
    ensures success { (result ≡ 0) ↔ (shown.now.outcome ≡ Ok tt) }
    ensures failure { IfErr shown.now.outcome (λ failure. (result ≡ status_of failure) ⊎ (result ≡ status_of Memory)) }
{
    match &shown.outcome {
        Ok(()) => 0,
        Err(failure) => report(alloc, program, dir, failure, &shown.index, arguments, err),
    }
}

/// Returns the exit status of a program that showed logs, as [`exit_status`] does, except that it is 1 if the whole text was written and
/// begins with the byte `alarm`.
pub fn text_status<E: Write>(
    alloc: Global,
    program: &str,
    dir: &str,
    shown: &Shown,
    arguments: &[Vec<u8>],
    alarm: Option<u8>,
    err: &mut E,
) -> u8
    requires reportable { IfErr shown.now.outcome (IsReportable (length shown.now.index) (length arguments.now)) }
    requires nonzero_status { IfErr shown.now.outcome (λ failure. status_of failure ≢ 0) }
    ensures alarm { (result ≡ 1) ↔ ((shown.now.outcome ≡ Ok tt) × (is_alarm alarm shown.now.first ≡ true)) }
    ensures success { (result ≡ 0) ↔ ((shown.now.outcome ≡ Ok tt) × (is_alarm alarm shown.now.first ≡ false)) }
    ensures failure { IfErr shown.now.outcome (λ failure. (result ≡ status_of failure) ⊎ (result ≡ status_of Memory)) }
{
    let status = exit_status(alloc, program, dir, shown, arguments, err);
    if status == 0 && is_alarm(alarm, shown.first) {
        1
    } else {
        status
    }
}

// Returns whether a text that begins with this byte is reported by status 1.
fn is_alarm(alarm: Option<u8>, first: Option<u8>) -> bool
    ensures { result ≡ is_alarm alarm first }
{
    alarm.is_some() && first == alarm
}

/// Writes a text that is no result of a run, such as a help text, and returns the exit status: 0 if it was written.
/// Otherwise it writes the error message of the program.
pub fn print<W: Write, E: Write>(
    alloc: Global,
    program: &str,
    text: &str,
    out: &mut W,
    err: &mut E,
) -> u8
    ensures { (result ≡ 0) ⊎ (result ≡ status_of (Run run.Write)) ⊎ (result ≡ status_of Memory) }
{
    match out.write_all(text.as_bytes()).and_then(|()| out.flush()) {
        Ok(()) => 0,
        Err(_) => { report_before_run_as(alloc, program, &Failure::Run(RunFault::Write), err) }
    }
}

/// Writes a help text, unless an allocation for it failed, and returns the exit status. The rest is as for [`print`].
pub fn print_help<W: Write, E: Write>(
    alloc: Global,
    program: &str,
    text: Result<String, AllocError>,
    out: &mut W,
    err: &mut E,
) -> u8
    ensures { (result ≡ 0) ⊎ (result ≡ status_of (Run run.Write)) ⊎ (result ≡ status_of Memory) }
{
    match text {
        Ok(text) => print(alloc, program, &text, out, err),
        Err(AllocError) => report_before_run_as(alloc, program, &Failure::Memory, err),
    }
}

// Writes the error message of a failure, and returns its status. If an allocation fails, it writes the message for
// `Failure::Memory` and returns its status instead.
fn report<E: Write>(
    alloc: Global,
    program: &str,
    dir: &str,
    failure: &Failure,
    index: &Index,
    arguments: &[Vec<u8>],
    err: &mut E,
) -> u8
    requires { IsReportable (length index.now) (length arguments.now) failure.now }
    ensures { (result ≡ status_of failure.now) ⊎ (result ≡ status_of Memory) }
{
    match fault_line_as(alloc, program, dir, failure, index, arguments) {
        Ok(line) => {
            let _ = err.write_all(&line).and_then(|()| err.flush());
            status(failure)
        }
        Err(AllocError) => {
            let _ = err
                .write_all(program.as_bytes())
                .and_then(|()| err.write_all(b": out of memory\n"))
                .and_then(|()| err.flush());
            status(&Failure::Memory)
        }
    }
}
