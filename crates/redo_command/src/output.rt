//! A file that a text is written to. A regular file is replaced when the whole text was written, and not before.
//!
//! It is replaced by a rename. A pipe, a device, a directory or a symbolic link is opened itself. No clause says what a file has,
//! so this is only tested.
ghost use Rattle.std.specs.Prelude.{◌≡◌, ◌↔◌, ◌⊎◌, true, Ok, Err, IfOk, IfErr};
ghost use Rattle.std.specs.Fs.{IsFile, file_type};
ghost use Rattle.std.specs.IoError.{error_kind};
ghost use Rattle.std.specs.String.{string_bytes};
ghost use Rattle.std.specs.declared.io.ErrorKind.TheVariants as kind;
ghost use Rattle.redo_run.specs.declared.run_fault.RunFault.TheVariants as run;
ghost use Rattle.redo_command.specs.declared.failure.Failure.TheVariants.{Memory, Run};
ghost use Rattle.redo_command.specs.Output.{IsBeside, IsClosedAfter, temporary_path};
ghost use Rattle.redo_command.specs.Private.Opening.{write_failure_after};

use crate::failure::Failure;
use itoa::Buffer;
use redo_run::RunFault;
use std::alloc::{AllocError, Global};
use std::fs::{File, Metadata};
use std::io::{ErrorKind, Read, Write};
use std::rt::Files;
use std::{fs, io};

/// How many names of a temporary file are tried.
const MAX_TEMPORARY_NAMES: u32 = 1000;

/// The file that the text is written to, from [`create_output`] to [`close_output`].
#[derive(Drop)]
pub enum Output<'a, F: Write + Drop> {
    /// The output file itself: it isn't a regular file. It may be a pipe, a device or a symbolic link.
    Direct(F),
    /// A new file at `temporary`, in the directory of the output file. It is renamed to `path`, the output file.
    Temporary {
        file: F,
        temporary: String,
        path: &'a str,
    },
}

impl<F: Write + Drop> Write for Output<'_, F> {
    fn write(&mut self, buf: &[u8]) -> io::Result<usize> {
        match self {
            Output::Direct(file) => file.write(buf),
            Output::Temporary { file, .. } => file.write(buf),
        }
    }

    fn flush(&mut self) -> io::Result<()> {
        match self {
            Output::Direct(file) => file.flush(),
            Output::Temporary { file, .. } => file.flush(),
        }
    }
}

/// Creates the file that the text is written to. If there is a regular file at `path`, or none, this is a new file
/// in the same directory, with the permissions of any new file. Its name has the suffix `.tmp` and a number. Fails with
/// `RunFault::Write` if it can't be created.
pub fn create_output<'a, R: Files + AllocGlobal>(
    rt: &R,
    path: &'a str,
) -> Result<Output<'a, R::File>, Failure>
    ensures beside { IfOk result (IsBeside path.entry.now) }
    ensures failure { IfErr result (λ failure. (failure ≡ Run run.Write) ⊎ (failure ≡ Memory)) }
{
    if is_replaceable(fs::symlink_metadata(rt, path)) {
        create_temporary(rt, path)
    } else {
        match fs::create(rt, path) {
            Ok(file) => Ok(Output::Direct(file)),
            Err(error) => Err(failure_after(&error)),
        }
    }
}

/// Closes the file that the text was written to. If the whole text was written, a temporary file replaces the output
/// file; otherwise it is removed, and the output file stays as it was. A failure to write stays
/// the failure, and a failed rename is a failure.
pub fn close_output<R: Files>(
    rt: &R,
    output: Output<'_, R::File>,
    outcome: Result<(), Failure>,
) -> Result<(), Failure>
    ensures { IsClosedAfter outcome result }
{
    match output {
        Output::Direct(_) => outcome,
        Output::Temporary {
            file,
            temporary,
            path,
        } => {
            drop(file);
            replace_unless_failed(rt, &temporary, path, outcome)
        }
    }
}

fn replace_unless_failed<R: Files>(
    rt: &R,
    temporary: &str,
    path: &str,
    outcome: Result<(), Failure>,
) -> Result<(), Failure>
    ensures { IsClosedAfter outcome result }
{
    let closed = match outcome {
        Ok(()) => rename_outcome(fs::rename(rt, temporary, path)),
        Err(failure) => Err(failure),
    };
    if closed.is_err() {
        let _ = fs::remove_file(rt, temporary);
    }
    closed
}

// Returns the outcome of writing a file, from the result of renaming it at the end.
fn rename_outcome(renamed: io::Result<()>) -> Result<(), Failure>
    ensures renamed { IfOk renamed (λ _. result ≡ Ok tt) }
    ensures failed { IfErr renamed (λ _. result ≡ Err (Run run.Write)) }
{
    match renamed {
        Ok(()) => Ok(()),
        Err(_) => Err(Failure::Run(RunFault::Write)),
    }
}

// Returns whether a file can be replaced, from what was found at its path: a regular file, or nothing.
fn is_replaceable(found: io::Result<Metadata>) -> bool
    ensures file { IfOk found (λ metadata. (result ≡ true) ↔ IsFile (file_type metadata)) }
    ensures missing { IfErr found (λ error. (result ≡ true) ↔ (error_kind error ≡ kind.NotFound)) }
{
    match found {
        Ok(metadata) => metadata.is_file(),
        Err(error) => matches!(error.kind(), ErrorKind::NotFound),
    }
}

// Creates a new file beside the output file, under the first name that isn't taken.
fn create_temporary<'a, R: Files + AllocGlobal>(
    rt: &R,
    path: &'a str,
) -> Result<Output<'a, R::File>, Failure>
    ensures beside { IfOk result (IsBeside path.entry.now) }
    ensures failure { IfErr result (λ failure. (failure ≡ Run run.Write) ⊎ (failure ≡ Memory)) }
{
    for number in 0..MAX_TEMPORARY_NAMES {
        let temporary = temporary_path(rt.alloc(), path, number)?;
        if let Some(file) = new_file(File::create_new(rt, temporary.as_str()))? {
            return Ok(Output::Temporary {
                file,
                temporary,
                path,
            });
        }
    }
    Err(Failure::Run(RunFault::Write))
}

// Returns the file that was created, or `None` if its name is taken.
fn new_file<F: Drop>(created: io::Result<F>) -> Result<Option<F>, Failure>
    ensures { IfErr result (λ failure. (failure ≡ Run run.Write) ⊎ (failure ≡ Memory)) }
{
    match created {
        Ok(file) => Ok(Some(file)),
        Err(error) => match error.kind() {
            ErrorKind::AlreadyExists => Ok(None),
            _ => Err(failure_after(&error)),
        },
    }
}

// Returns the path of a temporary file with this number.
fn temporary_path(alloc: Global, path: &str, number: u32) -> Result<String, AllocError>
    ensures { IfOk result (λ temporary. string_bytes temporary ≡ temporary_path path.now number) }
{
    let mut buffer = Buffer::new();
    [path, ".tmp", buffer.format(number)].concat(alloc)
}

// Returns the failure if a file can't be created.
fn failure_after(error: &io::Error) -> Failure
    ensures { result ≡ write_failure_after (error_kind error.now) }
{
    match error.kind() {
        ErrorKind::OutOfMemory => Failure::Memory,
        _ => Failure::Run(RunFault::Write),
    }
}
