//! Gathers streams, by senders or on one thread.
ghost use Rattle.std.specs.Prelude.{◌≡◌, true, length, IfOk};
ghost use Rattle.std.specs.List.{list_all};
ghost use Rattle.redo_logs.specs.Logs.{has_ended};

use crate::table::tell;
use redo_gather::{Free, GatherFault, Plan, gather_plain};
use redo_line::Pieces;
use redo_log_cli::{Index, read_index};
use redo_logs::LogTable;
use std::alloc::{AllocError, Global};
use std::io;
use std::sync::Wait;
use std::thread::Threads;

/// The maximum number of bytes of a stream.
pub const MAX_BYTES: u64 = 1000;

/// The index of some targets, and their streams.
pub struct Streams {
    index: &'static [u8],
    streams: &'static [&'static [u8]],
}

/// Three streams that have logs. The second one has the must-close flag.
pub const WHOLE: Streams = Streams {
    index: b"1 all\n!2 a.o\n3 b.o\n",
    streams: &[
        b"@@REDO:do:7:1.0000@@ a.o\n@@REDO:do:7:1.0000@@ b.o\n@@REDO:done:7:1.0000@@ 0 a.o\n\
          @@REDO:done:7:1.0000@@ 1 b.o\nlink\n",
        b"cc a\n@@REDO:done:7:1.0000@@ 0 a.o\n",
        b"cc b",
    ],
};

/// Three streams that have logs. One log waits for the lock of another one's target.
pub const LOCKS: Streams = Streams {
    index: b"1 all\n2 a\n3 x\n",
    streams: &[
        b"@@REDO:do:7:1.0000@@ a\n@@REDO:waiting:7:1.0000@@ x\nend\n",
        b"@@REDO:do:7:1.0000@@ x\n",
        b"X\n",
    ],
};

/// One stream, with a bad record.
pub const BAD: Streams = Streams {
    index: b"1 all\n",
    streams: &[b"ok\n@@REDO:do:7\n"],
};

/// Two streams, each with a bad record.
pub const BOTH_BAD: Streams = Streams {
    index: b"1 a\n2 b\n",
    streams: &[
        b"ok\nok\nok\nok\nok\nok\nok\nok\n@@REDO:do:7\n",
        b"@@REDO:do:7\n",
    ],
};

/// Two streams with the must-close flag. The second one has no closing record, because its last line is unended.
pub const OPEN: Streams = Streams {
    index: b"!1 a\n!2 b\n",
    streams: &[
        b"ok\n@@REDO:done:7:1.0000@@ 0 a\n",
        b"ok\n@@REDO:done:7:1.0000@@ 0 b",
    ],
};

/// Gathers the streams by the plan's senders, or on one thread if there is no plan. Prints their logs.
pub fn gather(
    rt: &(impl Print + AllocGlobal + Threads + Wait + Sync),
    given: &Streams,
    plan: Option<Plan>,
) -> io::Result<()> {
    let answer = match plan {
        Some(plan) => gathered_by(rt, given, &plan),
        None => gathered(rt.alloc(), given),
    };
    match answer {
        Ok(table) => tell(rt, &table),
        Err(why) => tell_missing(rt, why),
    }
}

/// Why there are no logs.
#[derive(Clone, Copy)]
pub enum Missing {
    Memory,
    Reader,
    Logs(GatherFault),
}

pub fn tell_missing(rt: &impl Print, why: Missing) -> io::Result<()> {
    match why {
        Missing::Memory => println!(rt; "no memory for the streams"),
        Missing::Reader => println!(rt; "not a reader for each name"),
        Missing::Logs(fault) => println!(rt; "gathering: {fault:?}"),
    }
}

/// Gathers the streams on one thread.
pub fn gathered(alloc: Global, given: &Streams) -> Result<LogTable, Missing>
    ensures { IfOk result (λ table. list_all has_ended table ≡ true) }
{
    let (index, readers) = captured(alloc, given)?;
    gathered_of(alloc, &index, readers)
}

fn gathered_of(alloc: Global, index: &Index, readers: Vec<Pieces>) -> Result<LogTable, Missing>
    requires { length readers.items ≡ length index.now }
    ensures { IfOk result (λ table. list_all has_ended table ≡ true) }
{
    let (Ok(names), Ok(flags)) = (index.names(alloc), index.must_close_flags(alloc)) else {
        return Err(Missing::Memory);
    };
    gather_plain(alloc, names, flags, readers, MAX_BYTES).map_err(Missing::Logs)
}

fn gathered_by<T: AllocGlobal + Threads + Wait + Sync>(
    rt: &T,
    given: &Streams,
    plan: &Plan,
) -> Result<LogTable, Missing> {
    let (index, readers) = captured(rt.alloc(), given)?;
    gathered_of_by(rt, &index, readers, plan)
}

fn gathered_of_by<T: AllocGlobal + Threads + Wait + Sync>(
    rt: &T,
    index: &Index,
    readers: Vec<Pieces>,
    plan: &Plan,
) -> Result<LogTable, Missing>
    requires { length readers.items ≡ length index.now }
{
    let alloc = rt.alloc();
    let (Ok(names), Ok(flags)) = (index.names(alloc), index.must_close_flags(alloc)) else {
        return Err(Missing::Memory);
    };
    redo_gather::gather(rt, alloc, index.keys(), names, flags, readers, plan, &Free).map_err(
        Missing::Logs,
    )
}

/// Returns the index of the targets and a reader for each. A reader gives 16 bytes at a time.
pub fn captured(alloc: Global, given: &Streams) -> Result<(Index, Vec<Pieces>), Missing>
    ensures { IfOk result (λ captured. length captured.1.items ≡ length captured.0) }
{
    let index = read_index(alloc, given.index).map_err(|_| Missing::Memory)?;
    let readers = so_many_readers(alloc, given, index.len() as usize)?;
    Ok((index, readers))
}

fn so_many_readers(alloc: Global, given: &Streams, count: usize) -> Result<Vec<Pieces>, Missing>
    ensures { IfOk result (λ readers. length readers.items ≡ count) }
{
    match readers(alloc, given) {
        Ok(readers) if readers.len() == count => Ok(readers),
        Ok(_) => Err(Missing::Reader),
        Err(_) => Err(Missing::Memory),
    }
}

fn readers(alloc: Global, given: &Streams) -> Result<Vec<Pieces>, AllocError> {
    let mut readers = Vec::new(alloc);
    for stream in given.streams {
        readers.push(Pieces::new(in_reads(alloc, stream)?, false))?;
    }
    Ok(readers)
}

fn in_reads(alloc: Global, stream: &[u8]) -> Result<Vec<Vec<u8>>, AllocError> {
    let mut reads = Vec::new(alloc);
    for read in stream.chunks(16) {
        reads.push(read.to_vec(alloc)?)?;
    }
    Ok(reads)
}
