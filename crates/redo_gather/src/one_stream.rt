ghost use Rattle.std.specs.Prelude.{◌≤◌, ◌^◌, ◌≡◌};
ghost use Rattle.redo_line.specs.Source.{source};
ghost use Rattle.redo_gather.specs.Expected.{IsExpectedFor};

use crate::reading::{EntrySink, read_entries};
use redo_line::{Entries, Entry, Feed, Scan, StreamFault, TargetName};
use std::alloc::Global;

// How many text lines are consumed at once, at most.
const MAX_LINES_PER_STEP: u16 = 1024;

/// The result of reading a stream: the entries of its log and no fault, or the entries before its fault and the fault. If memory
/// ran out, it has some of the first entries and the fault `OutOfMemory`.
#[derive(Drop)]
pub struct StreamLog {
    pub entries: Entries,
    pub fault: Option<StreamFault>,
}

/// Reads a stream to its end or its fault, at most `max_bytes + 1` times. `buf` is the buffer for one read.
pub fn read_stream<R: Feed>(
    alloc: Global,
    target: TargetName,
    max_bytes: u64,
    must_close: bool,
    reader: &mut R,
    buf: &mut [u8],
) -> StreamLog
    requires at_least { 1 ≤ max_bytes }
    requires at_most { max_bytes ≤ 2 ^ 40 }
    ensures { IsExpectedFor max_bytes (source target must_close (R.contents reader.old)) result.entries result.fault }
{
    let mut entries = Entries::new(alloc);
    let scan = Scan::new(alloc, target, max_bytes, must_close);
    match read_entries(&mut entries, scan, reader, buf, &|_| {}) {
        Ok(()) => StreamLog {
            entries,
            fault: None,
        },
        Err(fault) => StreamLog {
            entries,
            fault: Some(fault),
        },
    }
}

// The list has the entries of the stream so far, and nothing else.
impl EntrySink for Entries {
    ghost has_taken = { λ before after entries. after ≡ entries };

    fn take_chunk(&mut self, scan: &mut Scan, chunk: &[u8]) -> Result<(), StreamFault> {
        let mut offset = 0;
        'lines: while let Some(end_offset) = scan.step_into(
            chunk,
            offset,
            MAX_LINES_PER_STEP,
            self,
        )? {
            offset = end_offset;
        }
        Ok(())
    }

    fn take_last(&mut self, last: Entry) -> Result<(), StreamFault> {
        self.push(last)?;
        Ok(())
    }
}
