//! Reads the stream of one log.
//!
//! The line that a chunk ends in is stored until it ends, even if it is text, so the longest line determines the memory.
ghost use Rattle.std.specs.Prelude.{◌≡◌, ◌<◌, List, ◌++◌, [], IsOk, OnOk, Some, length, slice_get};
ghost use Rattle.redo_device.specs.Feed.{SomeStream, Stream};
ghost use Rattle.redo_index.specs.Index.{listed_targets, IsIndex};
ghost use Rattle.redo_times.specs.declared.report.Report.{Report};
ghost use Rattle.redo_times.specs.Private.Tally.{AreTallies, AreTalliesOfStream};

use crate::lines::add_chunk;
use crate::tally::{Log, Tally};
use redo_device::{Broken, Feed};
use redo_index::Index;
use std::alloc::{AllocError, Global};

/// Adds the reports of a log. It reads at most `max_bytes` bytes of the stream, and nothing after its end or a failed read. None of these
/// is an error. `chunk` and `partial` are buffers for the bytes that are read; their contents don't matter, before or afterwards.
pub fn add_stream<R: Feed>(
    alloc: Global,
    index: &Index,
    tallies: &mut [Tally],
    log: Log<'_>,
    reader: &mut R,
    max_bytes: u64,
    chunk: &mut [u8],
    partial: &mut Vec<u8>,
) -> Result<(), AllocError>
    requires index { IsIndex index.now }
    requires count { length tallies.old ≡ length index.now }
    requires log { slice_get (listed_targets index.now) log.position ≡ Some log.target.now }
    requires room { 0 < length chunk.old }
    ensures tallies { (reports : List Report) → AreTallies (listed_targets index.now) reports tallies.old
        → OnOk result (SomeStream (R.contents reader.old) (λ stream.
        AreTalliesOfStream (listed_targets index.now) log.entry.target.now reports max_bytes stream tallies.new)) }
    ensures no_bytes { (stream : Stream) → R.contents reader.old ≡ Some stream → stream.bytes ≡ [] → IsOk result }
    ensures chunk { length chunk.new ≡ length chunk.old }
{
    partial.clear();
    let mut left = max_bytes;
    'reads: while left > 0 {
        let room = left.min(chunk.len() as u64) as usize;
        match reader.pull(&mut chunk[..room]) {
            Err(Broken) => return Ok(()),
            Ok(0) => return Ok(()),
            Ok(n) => {
                add_chunk(alloc, index, tallies, log, partial, &chunk[..n])?;
                left -= n as u64;
            }
        }
    }
    Ok(())
}
