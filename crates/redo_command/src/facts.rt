//! Reads what is known of the targets of a directory before its logs are shown: times and facts of recipes.
//!
//! The times are read before the run, because entries have none and a text may begin with them. Each log is read twice then.
ghost use Rattle.std.specs.Prelude.{◌≡◌, IfOk, length, map};
ghost use Rattle.redo_options.specs.Limits.{IsSenderCount};
ghost use Rattle.redo_command.specs.Facts.{AreBuildFacts, AreFactsOfFile, AreTimesOfLogs};
ghost use Rattle.redo_command.specs.Logs.{AllGive, known_logs};

use crate::first_reading::{FirstReadings, rewind_all};
use crate::logs::{OpenFacts, open_logs};
use crate::names_file::MAX_BYTES;
use redo_facts::{Facts, read_facts};
use redo_index::Index;
use redo_line::HashKeys;
use redo_times::{Times, read_times};
use std::alloc::{AllocError, Global};

// Logs that have fewer bytes than this on average are small.
const SMALL_LOG_BYTES: u64 = 8 * 1024;

/// What is known of the targets of a directory, in the order of the index: when they began and ended, and the facts of their recipes.
/// `keys` are the keys by which the index hashes names, and `log_bytes` is the number of bytes that were read from the logs.
#[derive(Drop)]
pub struct BuildFacts {
    pub times: Vec<Times>,
    pub recipes: Vec<Facts>,
    pub keys: HashKeys,
    pub log_bytes: u64,
}

impl BuildFacts {
    /// Returns the number of senders for the second reading, at most `most`: one if the logs are small. They were just read, so no sender
    /// waits for a disk, and several would mostly wait for each other.
    pub fn senders(&self, most: u32) -> u32
        ensures { IsSenderCount most → IsSenderCount result }
    {
        if self.log_bytes / SMALL_LOG_BYTES < self.times.len() as u64 {
            1
        } else {
            most
        }
    }
}

/// Opens the logs that an index lists, and reads what is known of its targets, from the logs and from the file `facts`. Returns it, and
/// the logs, which are again at their starts. The only error is that an allocation failed.
pub fn read_build_facts<L: OpenFacts>(
    alloc: Global,
    files: &L,
    index: &Index,
) -> Result<(BuildFacts, Vec<L::Log>), AllocError>
    ensures facts { IfOk result (λ read. AreBuildFacts (L.known files.now) (L.known_facts files.now) index.now read.0) }
    ensures given { IfOk result (λ read. AllGive (known_logs (L.known files.now) index.now) (map L.Log.contents read.1.items)) }
    ensures count { IfOk result (λ read. length read.1.items ≡ length index.now) }
{
    let readings = open_logs(alloc, &FirstReadings { files }, index)?;
    let (times, readings) = read_times(alloc, index, readings, MAX_BYTES)?;
    let (logs, log_bytes) = rewind_all(alloc, files, index, readings)?;
    let recipes = read_recipe_facts(alloc, files, index)?;
    let facts = BuildFacts {
        times,
        recipes,
        keys: index.keys(),
        log_bytes,
    };
    Ok((facts, logs))
}

/// Reads the facts of the recipes of an index's targets, from the file `facts`. Nothing is known if a read fails. The only error is
/// that an allocation failed.
pub fn read_recipe_facts<F: OpenFacts>(
    alloc: Global,
    files: &F,
    index: &Index,
) -> Result<Vec<Facts>, AllocError>
    ensures { IfOk result (λ facts. AreFactsOfFile (F.known_facts files.now) index.now facts.items) }
{
    let mut file = files.open_facts()?;
    read_facts(alloc, index, &mut file, MAX_BYTES)
}
