//! A baseline: the capture of an earlier build, with which this one is compared.
//!
//! Its logs are read on the calling thread, before this build's logs. A log without its closing record counts as it is, unless its
//! must-close flag is set: the baseline may still be written.
ghost use Rattle.std.specs.Prelude.{◌≡◌, true, IfOk, option_copied};
ghost use Rattle.std.specs.List.{list_all};
ghost use Rattle.redo_logs.specs.Logs.{has_ended};
ghost use Rattle.redo_command.specs.Baseline.{AreBaselineLogs, IsReadOfFiles};
ghost use Rattle.redo_command.specs.Private.Opening.{fault_of_index};

use crate::baseline_fault::BaselineFault;
use crate::directory::find_index;
use crate::failure::Failure;
use crate::log_file::RegularLogFiles;
use crate::logs::{OpenLog, open_logs};
use crate::names_file::MAX_BYTES;
use redo_gather::{GatherFault, gather_plain};
use redo_index::Index;
use redo_logs::LogTable;
use std::alloc::{AllocError, Global};
use std::marker::Model;
use std::random::RandomSource;
use std::rt::Files;

/// The files of a baseline: its index, or why it can't be read, and its logs, which aren't read yet.
#[derive(Drop)]
pub struct BaselineFiles<L> {
    pub index: Result<Index, BaselineFault>,
    pub logs: L,
}

/// The logs of a baseline. All of them have ended.
#[derive(Drop)]
pub struct BaselineLogs {
    table: LogTable,
}

impl Model for BaselineLogs {
    ghost use Rattle.std.specs.Prelude.{◌≡◌, true, List};
    ghost use Rattle.std.specs.List.{list_all};
    ghost use Rattle.redo_logs.specs.Logs.{Log, has_ended};

    ghost Value = { List Log };

    ghost view = { λ logs. logs.table };

    ghost invariant = { λ logs. list_all has_ended logs.table ≡ true };
}

impl BaselineLogs {
    /// Returns the logs as a table. All of them have ended.
    pub fn table(&self) -> &LogTable
        ensures logs { result.now ≡ self.now }
        ensures ended { list_all has_ended self.now ≡ true }
    {
        &self.table
    }
}

/// Reads the index of the baseline with this directory, if it can be read. The only error is that an allocation failed.
///
/// Its logs are read from regular files only, as facts are: a pipe that never ends would stop the job.
pub fn open_baseline<'a, R: Files<File: Send> + RandomSource + AllocGlobal>(
    rt: &'a R,
    dir: &'a str,
) -> Result<BaselineFiles<RegularLogFiles<'a, R>>, AllocError> {
    let index = match find_index(rt, dir) {
        Ok(index) => Ok(index),
        Err(failure) => Err(index_fault(failure).ok_or(AllocError)?),
    };
    Ok(BaselineFiles {
        index,
        logs: RegularLogFiles { rt, dir },
    })
}

// Returns the fault of a baseline whose index can't be read for this reason. There is none if an allocation failed.
fn index_fault(failure: Failure) -> Option<BaselineFault>
    ensures { result ≡ fault_of_index failure }
{
    match failure {
        Failure::NamesMissing => Some(BaselineFault::NamesMissing),
        Failure::NamesRead => Some(BaselineFault::NamesRead),
        Failure::Index(fault) => Some(BaselineFault::Index(fault)),
        _ => None,
    }
}

/// Reads the logs of a baseline, if there is one, one after another, up to the first one that has a fault. The only error is that
/// an allocation failed.
pub fn read_baseline<L: OpenLog>(
    alloc: Global,
    files: Option<&BaselineFiles<L>>,
) -> Result<Option<Result<BaselineLogs, BaselineFault>>, AllocError>
    ensures { IfOk result (IsReadOfFiles L.known (option_copied files.entry)) }
{
    let Some(files) = files else {
        return Ok(None);
    };
    match &files.index {
        Ok(index) => Ok(Some(read_logs(alloc, &files.logs, index)?)),
        Err(fault) => Ok(Some(Err(*fault))),
    }
}

// Reads the logs that the index of a baseline lists.
fn read_logs<L: OpenLog>(
    alloc: Global,
    logs: &L,
    index: &Index,
) -> Result<Result<BaselineLogs, BaselineFault>, AllocError>
    ensures { IfOk result (AreBaselineLogs (L.known logs.now) index.now) }
{
    let readers = open_logs(alloc, logs, index)?;
    let names = index.names(alloc)?;
    let flags = index.must_close_flags(alloc)?;
    match gather_plain(alloc, names, flags, readers, MAX_BYTES) {
        Ok(table) => Ok(Ok(BaselineLogs { table })),
        Err(GatherFault::Stream { number, fault }) => Ok(Err(BaselineFault::Log {
            position: number,
            number: index.fid(number),
            fault,
        })),
        Err(GatherFault::OutOfMemory) => Err(AllocError),
    }
}
