//! Logs that are read twice, for their times and then for a text. Each is opened once.
ghost use Rattle.std.specs.Prelude.{◌≡◌, ℕ, IfOk, length, map};
ghost use Rattle.redo_command.specs.Logs.{AllGive, known_logs};

use crate::logs::{OpenFacts, OpenLog};
use redo_index::Index;
use redo_line::{Broken, Feed};
use std::alloc::{AllocError, Global};

/// A log that is read for the first time of two. A log that can be read only once gives nothing.
#[derive(Drop)]
pub(crate) struct FirstReading<F: Feed> {
    log: F,
    can_rewind: bool,
    // The number of bytes that were read.
    bytes: u64,
}

impl<F: Feed> Feed for FirstReading<F> {
    ghost use Rattle.redo_command.specs.Private.FirstReading.{first_contents};

    ghost contents = { λ reading. first_contents F.contents reading };

    fn pull(&mut self, buf: &mut [u8]) -> Result<usize, Broken> {
        if !self.can_rewind {
            return Ok(0);
        }
        let n = self.log.pull(buf)?;
        self.bytes = self.bytes.saturating_add(n as u64);
        Ok(n)
    }
}

/// The logs of a directory, each opened for the first reading of two.
#[derive(Drop)]
pub(crate) struct FirstReadings<'a, L> {
    pub files: &'a L,
}

impl<L: OpenFacts> OpenLog for FirstReadings<'_, L> {
    type Log = FirstReading<L::Log>;

    ghost known = { λ logs. L.known logs.files.now };

    fn open(&self, fid: u32) -> Result<FirstReading<L::Log>, AllocError> {
        let log = self.files.open(fid)?;
        let can_rewind = self.files.can_rewind(fid, &log);
        Ok(FirstReading {
            log,
            can_rewind,
            bytes: 0,
        })
    }
}

/// Goes back to the starts of logs that were read, for a second reading. Returns the logs, and the number of bytes of the first reading.
pub(crate) fn rewind_all<L: OpenFacts>(
    alloc: Global,
    files: &L,
    index: &Index,
    readings: Vec<FirstReading<L::Log>>,
) -> Result<(Vec<L::Log>, u64), AllocError>
    requires { length readings.items ≡ length index.now }
    ensures given { IfOk result (λ read. AllGive (known_logs (L.known files.now) index.now) (map L.Log.contents read.0.items)) }
    ensures count { IfOk result (λ read. length read.0.items ≡ length index.now) }
{
    let mut logs = Vec::with_capacity(alloc, index.len() as usize)?;
    let mut bytes = 0u64;
    let mut i = 0;
    for reading in readings {
        let FirstReading {
            mut log,
            can_rewind: _,
            bytes: more,
        } = reading;
        files.rewind(index.fid(i), &mut log);
        logs.push(log)?;
        bytes = bytes.saturating_add(more);
        i += 1;
    }
    Ok((logs, bytes))
}
