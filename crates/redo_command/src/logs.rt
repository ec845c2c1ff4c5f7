//! The logs of a directory, and a text of them.
ghost use Rattle.std.specs.Prelude.{◌≡◌, ◌≢◌, ℕ, false, Option, None, IfOk, IfErr, length, map};
ghost use Rattle.redo_device.specs.Feed.{Stream};
ghost use Rattle.redo_options.specs.Arguments.{argument_bytes};
ghost use Rattle.redo_options.specs.Limits.{IsCapacity, IsSenderCount};
ghost use Rattle.redo_command.specs.Failure.{IsReportable, status_of};
ghost use Rattle.redo_command.specs.Logs.{AllGive, Gives, IsWriteResult, known_logs, logs_call};
ghost use Rattle.redo_command.specs.NamesFile.{byte_limit};

use crate::failure::Failure;
use crate::names_file::MAX_BYTES;
use redo_gather::{Free, Plan};
use redo_index::Index;
use redo_line::{Feed, Sink};
use redo_run::run_as;
use redo_view::Render;
use std::alloc::{AllocError, Global};
use std::sync::Wait;
use std::thread::Threads;

/// Opens the logs of a directory.
pub trait OpenLog {
    /// A reader of a log.
    type Log: Feed;

    /// The known stream of the log with a number: each of its readers gives it. It is `None` for a file, whose contents
    /// are not known.
    ghost known: { Self → ℕ → Option Stream };

    /// Opens the log with this number. The only error is that an allocation failed.
    fn open(&self, fid: u32) -> Result<Self::Log, AllocError>
        ensures { IfOk result (λ log. Gives (known self.now fid) (Self.Log.contents log)) };
}

/// Opens what facts are read from: the file `facts` of a directory, and logs, which are read for their times before they are shown.
pub trait OpenFacts: OpenLog {
    /// A reader of the file.
    type File: Feed;

    /// The known stream of the file, as [`OpenLog`] has it of a log.
    ghost known_facts: { Self → Option Stream };

    /// Opens the file. The only error is that an allocation failed.
    fn open_facts(&self) -> Result<Self::File, AllocError>
        ensures { IfOk result (λ file. Gives (known_facts self.now) (Self.File.contents file)) };

    /// Returns whether the log with this number, which was opened, can be read twice. If it can't, nothing is known of it.
    fn can_rewind(&self, fid: u32, log: &Self::Log) -> bool
        ensures { result ≡ false → Self.known self.now fid ≡ None };

    /// Goes back to the start of the log with this number, which was opened.
    fn rewind(&self, fid: u32, log: &mut Self::Log)
        ensures { Gives (Self.known self.now fid) (Self.Log.contents log.new) };
}

/// Opens the logs of all targets, in the order of the index.
///
/// One thread opens 3,000 files in 4 ms. Two or four threads would take 57 to 75 ms: whenever the table of open files grows, the
/// system waits for all processors if a process has several threads.
pub fn open_logs<L: OpenLog>(
    alloc: Global,
    logs: &L,
    index: &Index,
) -> Result<Vec<L::Log>, AllocError>
    ensures given { IfOk result (λ readers. AllGive (known_logs (L.known logs.now) index.now) (map L.Log.contents readers.items)) }
    ensures count { IfOk result (λ readers. length readers.items ≡ length index.now) }
{
    let mut readers = Vec::with_capacity(alloc, index.len() as usize)?;
    for i in 0..index.len() {
        readers.push(logs.open(index.fid(i))?)?;
    }
    Ok(readers)
}

/// Writes any text of the logs that an index lists, such as a page. There must be a reader for each, in order. `arguments` name the
/// requested targets. They are looked up before a log is read, and nothing is written before all logs were read. `out` isn't flushed.
///
/// For any logs and writer, the text is written, or a prefix of it until a write failed or memory ran out. An unknown argument
/// or a stream's fault is the result of the run, and then nothing is written.
pub fn write_logs<T: Threads + Wait + Sync + AllocGlobal, R: Feed + Send, V: Render, W: Sink>(
    rt: &T,
    readers: Vec<R>,
    index: &Index,
    senders: u32,
    capacity: u32,
    renderer: &V,
    arguments: &[Vec<u8>],
    out: &mut W,
) -> Result<(), Failure>
    requires count { length readers.items ≡ length index.now }
    requires senders { IsSenderCount senders }
    requires capacity { IsCapacity capacity }
    ensures written { (known : ℕ → Option Stream) → AllGive (known_logs known index.now) (map R.contents readers.items)
        → IsWriteResult (logs_call known (V.text renderer.now) index.now (argument_bytes arguments.now))
        (W.written out.old) (W.written out.new) result }
    ensures reportable { IfErr result (IsReportable (length index.now) (length arguments.now)) }
    ensures nonzero_status { IfErr result (λ failure. status_of failure ≢ 0) }
{
    let alloc = rt.alloc();
    let plan = plan_of(senders, capacity);
    match run_as(
        rt, alloc, index, readers, &plan, renderer, arguments, &Free, out,
    ) {
        Ok(()) => Ok(()),
        Err(fault) => Err(Failure::Run(fault)),
    }
}

// Returns the plan with this number of senders and this capacity, and the maximum number of bytes of a log.
fn plan_of(senders: u32, capacity: u32) -> Plan
    requires senders { IsSenderCount senders }
    requires capacity { IsCapacity capacity }
    ensures { result ≡ record { senders = senders; capacity = capacity; max_bytes = byte_limit } }
{
    let Ok(plan) = Plan::new(senders, capacity, MAX_BYTES) else {
        unreachable!()
    };
    plan
}
