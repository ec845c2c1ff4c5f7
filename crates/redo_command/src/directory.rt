//! Reads the index of a capture directory.
ghost use Rattle.std.specs.Prelude.{◌≡◌, Err, IfOk, IfErr};
ghost use Rattle.std.specs.String.{string_bytes};
ghost use Rattle.std.specs.IoError.{error_kind};
ghost use Rattle.redo_device.specs.Feed.{SomeStream};
ghost use Rattle.redo_command.specs.Failure.{IsIndexFailure};
ghost use Rattle.redo_command.specs.Private.Opening.{failure_after, names_path};
ghost use Rattle.redo_command.specs.Private.Program.{IsIndexResult};

use crate::error_keeper::WriteError;
use crate::failure::Failure;
use crate::names_file::read_names;
use redo_index::{Index, read_index_with_keys};
use redo_line::{Feed, HashKeys, Reading};
use std::alloc::{AllocError, Global};
use std::io::ErrorKind;
use std::random::RandomSource;
use std::rt::Files;
use std::{fs, io};

/// The result of showing the logs of a directory.
#[derive(Drop)]
pub struct Shown {
    /// The index of the directory. It is empty if the file `names` wasn't read.
    pub index: Index,
    /// Whether the whole text was written.
    pub outcome: Result<(), Failure>,
    /// The first byte of the text that was written, if there is one.
    pub first: Option<u8>,
    /// The error of the last write that failed, if one did.
    pub write_error: Option<WriteError>,
}

/// Reads the index of a directory: its file `names`, once. The failure is one of this file, or out of memory.
pub fn find_index<R: Files + RandomSource + AllocGlobal>(
    rt: &R,
    dir: &str,
) -> Result<Index, Failure>
    ensures { IfErr result IsIndexFailure }
{
    let alloc = rt.alloc();
    let path = names_path(alloc, dir)?;
    let keys = HashKeys::random(rt);
    index_of(alloc, keys, fs::open(rt, path).map(Reading))
}

// Returns the path of the file `names`.
fn names_path(alloc: Global, dir: &str) -> Result<String, AllocError>
    ensures { IfOk result (λ path. string_bytes path ≡ names_path dir.now) }
{
    format!(in alloc; "{dir}/names")
}

// Returns the index in the file `names`, from the result of opening it. The index is made of all bytes of the file. A file that
// exceeds the maximum size is rejected. Without a file, the failure is `NamesMissing`; if it can't be opened for another
// reason, `Memory` or `NamesRead`. This is a function of the result of opening, because no clause states this result.
fn index_of<F: Feed>(alloc: Global, keys: HashKeys, opened: io::Result<F>) -> Result<Index, Failure>
    ensures read { IfOk opened (λ reader. SomeStream (F.contents reader) (IsIndexResult result)) }
    ensures unopened { IfErr opened (λ error. result ≡ Err (failure_after (error_kind error))) }
    ensures index_failure { IfErr result IsIndexFailure }
{
    let mut reader = match opened {
        Ok(reader) => reader,
        Err(error) => {
            return Err(match error.kind() {
                ErrorKind::NotFound => Failure::NamesMissing,
                ErrorKind::OutOfMemory => Failure::Memory,
                _ => Failure::NamesRead,
            });
        }
    };
    let bytes = read_names(alloc, &mut reader)?;
    read_index_with_keys(alloc, keys, &bytes).map_err(Failure::Index)
}
