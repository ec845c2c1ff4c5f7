ghost use Rattle.std.specs.Prelude.{◌≡◌, ◌↔◌, true, false, None, IfOk, IfErr, IsOkAnd};
ghost use Rattle.std.specs.Fs.{IsFile, file_type};
ghost use Rattle.std.specs.String.{string_bytes};
ghost use Rattle.redo_command.specs.Private.Opening.{IsLogFileOf, IsOutOfMemory, facts_path, log_path};

use crate::logs::{OpenFacts, OpenLog};
use itoa::Buffer;
use redo_line::{Broken, Feed, Reading};
use std::alloc::{AllocError, Global};
use std::fs::{Metadata, OpenFile};
use std::io::{ErrorKind, Read, Seek};
use std::rt::Files;
use std::{fs, io};

/// The result of opening a log file, or the file `facts`.
#[derive(Drop)]
pub enum LogFile<F: Read + Drop> {
    /// The file is open.
    Open(Reading<F>),
    /// There is no file, or only a regular one was to be opened: the stream is empty.
    Missing,
    /// The file can't be opened: the first read fails.
    Unreadable,
}

impl<F: Read + Drop> Feed for LogFile<F> {
    ghost use Rattle.redo_command.specs.LogFile.{known_contents};

    ghost contents = { known_contents };

    fn pull(&mut self, buf: &mut [u8]) -> Result<usize, Broken> {
        match self {
            LogFile::Open(file) => file.pull(buf),
            LogFile::Missing => Ok(0),
            LogFile::Unreadable => Err(Broken),
        }
    }
}

/// The log files of a directory: `log.FID` for each number.
#[derive(Drop)]
pub struct LogFiles<'a, R> {
    pub rt: &'a R,
    pub dir: &'a str,
}

impl<R: Files<File: Send> + AllocGlobal> OpenLog for LogFiles<'_, R> {
    ghost use Rattle.redo_command.specs.Logs.{opaque_logs};

    type Log = LogFile<R::File>;

    ghost known = { λ files. opaque_logs };

    fn open(&self, fid: u32) -> Result<LogFile<R::File>, AllocError> {
        let path = log_path(self.rt.alloc(), self.dir, fid)?;
        log_file_of(fs::open(self.rt, path))
    }
}

/// A log that is a regular file can be read twice; a pipe can't. The file `facts` is read if it is a regular file, and otherwise taken as
/// missing.
impl<R: Files<File: Send> + AllocGlobal> OpenFacts for LogFiles<'_, R> {
    type File = LogFile<R::File>;

    ghost known_facts = { λ files. None };

    fn open_facts(&self) -> Result<LogFile<R::File>, AllocError> {
        open_regular(self.rt, facts_path(self.rt.alloc(), self.dir)?)
    }

    fn can_rewind(&self, _fid: u32, log: &LogFile<R::File>) -> bool {
        match log {
            LogFile::Open(file) => is_regular(file.0.metadata()).unwrap_or(false),
            _ => true,
        }
    }

    fn rewind(&self, _fid: u32, log: &mut LogFile<R::File>) {
        let failed = match log {
            LogFile::Open(file) => fails_to_rewind(&mut file.0),
            _ => false,
        };
        if failed {
            *log = LogFile::Unreadable;
        }
    }
}

/// The log files of a directory that are regular files, or symbolic links to one. Any other file is taken as missing and isn't opened,
/// because a pipe may never end.
#[derive(Drop)]
pub struct RegularLogFiles<'a, R> {
    pub rt: &'a R,
    pub dir: &'a str,
}

impl<R: Files<File: Send> + AllocGlobal> OpenLog for RegularLogFiles<'_, R> {
    ghost use Rattle.redo_command.specs.Logs.{opaque_logs};

    type Log = LogFile<R::File>;

    ghost known = { λ files. opaque_logs };

    fn open(&self, fid: u32) -> Result<LogFile<R::File>, AllocError> {
        open_regular(self.rt, log_path(self.rt.alloc(), self.dir, fid)?)
    }
}

// Goes back to the start of an open file, and returns whether this failed. A pipe, of which nothing was read, is at its start.
fn fails_to_rewind<F: Seek>(file: &mut F) -> bool {
    match file.rewind() {
        Ok(()) => false,
        Err(error) => !matches!(error.kind(), ErrorKind::NotSeekable),
    }
}

// Opens the file at a path if it is a regular file. Otherwise it is taken as missing.
fn open_regular<R: Files + AllocGlobal>(
    rt: &R,
    path: String,
) -> Result<LogFile<R::File>, AllocError> {
    if is_regular(fs::metadata(rt, path.as_str()))? {
        log_file_of(fs::open(rt, path))
    } else {
        Ok(LogFile::Missing)
    }
}

// Returns whether a file is a regular file, from the result of reading its metadata. The only error is that memory ran out.
fn is_regular(found: io::Result<Metadata>) -> Result<bool, AllocError>
    ensures file { IfOk found (λ metadata. IsOkAnd result (λ is. (is ≡ true) ↔ IsFile (file_type metadata))) }
    ensures other { IfErr found (λ _. IfOk result (λ is. is ≡ false)) }
    ensures memory { IfErr result (λ _. IsOutOfMemory found) }
{
    match found {
        Ok(metadata) => Ok(metadata.is_file()),
        Err(error) => match error.kind() {
            ErrorKind::OutOfMemory => Err(AllocError),
            _ => Ok(false),
        },
    }
}

// Returns the path of the log file with this number.
fn log_path(alloc: Global, dir: &str, fid: u32) -> Result<String, AllocError>
    ensures { IfOk result (λ path. string_bytes path ≡ log_path dir.now fid) }
{
    let mut number = Buffer::new();
    [dir, "/log.", number.format(fid)].concat(alloc)
}

// Returns the path of the file `facts`.
fn facts_path(alloc: Global, dir: &str) -> Result<String, AllocError>
    ensures { IfOk result (λ path. string_bytes path ≡ facts_path dir.now) }
{
    format!(in alloc; "{dir}/facts")
}

// Returns the `LogFile`, from the result of opening its file. By the kind of the error, it is missing exactly if opening found no
// file. Which files are opened is tested. This is a function of the result of opening, because no clause states this result.
fn log_file_of<F: Read + Drop>(opened: io::Result<F>) -> Result<LogFile<F>, AllocError>
    ensures log_file { IfOk result (λ log_file. IsLogFileOf opened log_file) }
    ensures memory { IfErr result (λ _. IsOutOfMemory opened) }
{
    match opened {
        Ok(file) => Ok(LogFile::Open(Reading(file))),
        Err(error) => match error.kind() {
            ErrorKind::NotFound => Ok(LogFile::Missing),
            ErrorKind::OutOfMemory => Err(AllocError),
            _ => Ok(LogFile::Unreadable),
        },
    }
}
