//! The definition collects the reports of all logs (`reports_of`), and takes the first beginning and the last end of a target
//! from it. The code keeps one tally for each target. Nothing is proved about two readings of one file: it may change between
//! `read_times` and a run.
ghost use Rattle.std.specs.Prelude.{◌≡◌, ◌<◌, [], IfOk, OnOk, length, map};
ghost use Rattle.std.specs.List.{AllByRecursion};
ghost use Rattle.redo_index.specs.Index.{listed_targets, IsIndex};
ghost use Rattle.redo_times.specs.Readers.{AreTimesOfReaders};
ghost use Rattle.redo_times.specs.Times.{AreInRange};
ghost use Rattle.redo_times.specs.Private.Tally.{AreTallies, AreTalliesOfReaders, times_from};

use crate::stream::add_stream;
use crate::tally::{Log, Tally};
use redo_device::Feed;
use redo_index::Index;
use std::alloc::{AllocError, Global};

// How many bytes are read at once, at most.
const READ_BYTES: usize = 64 * 1024;

/// When a target began and ended, in milliseconds since 1970, and whether it ran others. Decimals after the third are dropped. A time is
/// `None` if no record has it. Records with less than 1,000,000,000 or more than 9,999,999,999 seconds don't count, because a clock
/// was not set.
#[derive(Clone, Copy, Debug, PartialEq, Eq)]
pub struct Times {
    /// The first time of a `do` record of the target in its own log; if there is none, in another log. It is `None` if it is after
    /// `ended`: the clock was set.
    pub began: Option<u64>,
    /// The last time of a `done` record of the target in its own log; if this has neither a `do` nor a `done` record of it, in another
    /// log.
    pub ended: Option<u64>,
    /// Whether it ran others, or waited for them: its own log has a record of another target, of the kind `do`, `done`, `waiting`, `locked`
    /// or `unlocked`, at a time after `began`, and not after `ended`.
    pub ran_others: bool,
}

/// Reads the streams of the targets of an index, and returns the times of each target, in the order of the index, and then the readers.
/// Each reader gives the stream of the target at the same position, so there must be as many readers as targets. Nothing is known of
/// what a returned reader still gives.
///
/// Only ended lines within the first `max_bytes` bytes of a stream count, and no more bytes are read. A failed read ends
/// the stream: the bytes before it count. A record that is not valid is skipped.
///
/// Each time is from 1,000,000,000,000 to 9,999,999,999,999. The only error is that an allocation failed.
///
/// It stores a chunk of 64 KiB, the longest line that chunks divide, some 140 bytes for each target, and a time for each record of
/// another target. It allocates for records that name targets, and not for other lines.
pub fn read_times<R: Feed>(
    alloc: Global,
    index: &Index,
    readers: Vec<R>,
    max_bytes: u64,
) -> Result<(Vec<Times>, Vec<R>), AllocError>
    requires { length readers.items ≡ length index.now }
    // These are the times of the streams that the readers give; for an opaque reader, of some stream.
    ensures times { IfOk result (λ read.
        AreTimesOfReaders max_bytes (listed_targets index.now) (map R.contents readers.items) read.0.items) }
    ensures in_range { IfOk result (λ read. AllByRecursion AreInRange read.0.items) }
    ensures readers { IfOk result (λ read. length read.1.items ≡ length index.now) }
{
    let (tallies, readers) = read_tallies(alloc, index, readers, max_bytes)?;
    let times = to_times(alloc, &tallies)?;
    Ok((times, readers))
}

// Returns when each target began and ended.
fn to_times(alloc: Global, tallies: &[Tally]) -> Result<Vec<Times>, AllocError>
    ensures { IfOk result (λ times. times.items ≡ map times_from tallies.now) }
{
    tallies.iter().map(|tally| tally.times()).collect(alloc)
}

// Reads the streams, and returns the tally of each target, and the readers.
fn read_tallies<R: Feed>(
    alloc: Global,
    index: &Index,
    readers: Vec<R>,
    max_bytes: u64,
) -> Result<(Vec<Tally>, Vec<R>), AllocError>
    requires { length readers.items ≡ length index.now }
    ensures tallies { IfOk result (λ read.
        AreTalliesOfReaders max_bytes (listed_targets index.now) (map R.contents readers.items) read.0.items) }
    ensures readers { IfOk result (λ read. length read.1.items ≡ length index.now) }
{
    let mut chunk = vec![in alloc; 0u8; READ_BYTES]?;
    let mut tallies = empty_tallies(alloc, index)?;
    let readers = add_streams(
        alloc,
        index,
        tallies.as_mut_slice(),
        readers,
        max_bytes,
        chunk.as_mut_slice(),
    )?;
    Ok((tallies, readers))
}

// Returns an empty tally for each target.
fn empty_tallies(alloc: Global, index: &Index) -> Result<Vec<Tally>, AllocError>
    ensures tallies { IfOk result (λ tallies. AreTallies (listed_targets index.now) [] tallies.items) }
    ensures index { IsIndex index.now }
{
    let mut tallies = Vec::with_capacity(alloc, index.len() as usize)?;
    for _ in 0..index.len() {
        tallies.push(Tally::empty(alloc))?;
    }
    Ok(tallies)
}

// Adds the reports of all logs to empty tallies, and returns the readers.
fn add_streams<R: Feed>(
    alloc: Global,
    index: &Index,
    tallies: &mut [Tally],
    readers: Vec<R>,
    max_bytes: u64,
    chunk: &mut [u8],
) -> Result<Vec<R>, AllocError>
    requires index { IsIndex index.now }
    requires begins { AreTallies (listed_targets index.now) [] tallies.old }
    requires readers { length readers.items ≡ length index.now }
    requires room { 0 < length chunk.old }
    ensures tallies { OnOk result (
        AreTalliesOfReaders max_bytes (listed_targets index.now) (map R.contents readers.items) tallies.new) }
    ensures readers { IfOk result (λ read. length read.items ≡ length index.now) }
{
    let mut read = Vec::with_capacity(alloc, readers.len())?;
    let mut partial = Vec::new(alloc);
    let mut i = 0;
    for mut reader in readers {
        let log = Log {
            target: index.name(i),
            position: i,
        };
        add_stream(
            alloc,
            index,
            tallies,
            log,
            &mut reader,
            max_bytes,
            chunk,
            &mut partial,
        )?;
        read.push(reader)?;
        i += 1;
    }
    Ok(read)
}
