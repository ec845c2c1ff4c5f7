//! Before a sender reads again, it posts the entries that the last read completed, in as few items as possible
//! (`read_batch`). An item is limited in entries and in bytes. The limit in bytes makes the capacity bound memory too: a
//! short record may have a name as long as its log's directory.
ghost use Rattle.std.specs.Prelude.{◌≡◌, ◌≢◌, ◌<◌, ◌≤◌, ◌++◌, [], IfOk, IfErr, OnOk, OnErr, length, map, List};
ghost use Rattle.redo_line.specs.declared.stream_fault.StreamFault.TheVariants.{OutOfMemory, Read};
ghost use Rattle.redo_line.specs.declared.entry.Entry.{Entry as EntryValue};
ghost use Rattle.redo_line.specs.Scan.{Scanned};
ghost use Rattle.redo_gather.specs.Private.Posting.{HasPosted};
ghost use Rattle.redo_gather.specs.Private.Reading.{IsReadTo, IsRefused};
ghost use Rattle.redo_gather.specs.Sending.{IsWellSized, entry_item, max_entries, singles_in};

use crate::reading::EntrySink;
use redo_line::{Entries, Entry, Scan, StreamFault};
use redo_wire::{Item, PostEnd, What};
use std::alloc::{AllocError, Global};
use std::sync::Wait;

// The maximum number of entries in an item.
const MAX_BATCH_ENTRIES: usize = 1024;

// Once the texts and names of an item have this many bytes, no more lines are added to it.
const MAX_BATCH_BYTES: usize = 128 * 1024;

/// Posts the entries of one stream at the post end of its sender.
#[derive(Drop)]
pub struct Poster<'a, T> {
    pub rt: &'a T,
    pub alloc: Global,
    pub end: PostEnd,
    pub stream: u32,
}

impl<'a, T: Wait> EntrySink for Poster<'a, T> {
    ghost has_taken = { λ before after entries.
        (after.stream ≡ before.stream) × HasPosted before.end after.end (map (entry_item before.end.number before.stream) entries) };

    // Posts the entries in as few items as the limits allow.
    fn take_chunk(&mut self, scan: &mut Scan, chunk: &[u8]) -> Result<(), StreamFault> {
        let mut offset = 0;
        let mut size_hint = chunk.len();
        'batches: while offset < chunk.len() {
            let mut batch = new_batch(self.alloc, size_hint.min(chunk.len() - offset))?;
            let outcome = read_batch(&mut batch, scan, chunk, offset);
            post_batch(self.rt, self.alloc, &mut self.end, self.stream, batch)?;
            let end_offset = outcome?;
            size_hint = end_offset - offset;
            offset = end_offset;
        }
        Ok(())
    }

    fn take_last(&mut self, last: Entry) -> Result<(), StreamFault> {
        post(self.rt, &mut self.end, self.stream, What::Line(last));
        Ok(())
    }
}

// Returns an empty list with capacity for some entries, for `bytes` bytes of text, and for the start of a line from
// an earlier chunk.
fn new_batch(alloc: Global, bytes: usize) -> Result<Entries, AllocError>
    ensures { IfOk result (λ batch. batch ≡ []) }
{
    Entries::with_capacity(alloc, 64, bytes.saturating_add(bytes / 16))
}

// Reads a chunk from the offset `from` on, until the batch has as many entries as an item may have, or enough bytes.
// Returns the end offset: how far the chunk was read.
fn read_batch(
    batch: &mut Entries,
    scan: &mut Scan,
    chunk: &[u8],
    from: usize,
) -> Result<usize, StreamFault>
    requires empty { batch.old ≡ [] }
    requires from { from < length chunk.now }
    ensures size { length batch.new ≤ max_entries }
    ensures range { IfOk result (λ end_offset. (from < end_offset) × (end_offset ≤ length chunk.now)) }

    // For a chunk that was consumed up to `from`: `initial` is the scan before the chunk, and `earlier` are the entries so far.
    ensures read { (initial : Scanned) (earlier : List EntryValue) → IsReadTo initial chunk.now from scan.old earlier →
        IfOk result (λ end_offset. IsReadTo initial chunk.now end_offset scan.new (earlier ++ batch.new)) }
    ensures refused { (initial : Scanned) (earlier : List EntryValue) → IsReadTo initial chunk.now from scan.old earlier →
        IfErr result (IsRefused initial chunk.now (earlier ++ batch.new)) }
    ensures never_read_fault { IfErr result (λ fault. fault ≢ Read) }
{
    let mut offset = from;
    'lines: loop {
        let remaining = (MAX_BATCH_ENTRIES - batch.len()) as u16;
        match scan.step_into(chunk, offset, remaining, batch)? {
            Some(end_offset) => offset = end_offset,
            None => return Ok(chunk.len()),
        }
        if batch.len() == MAX_BATCH_ENTRIES || bytes_of(batch) >= MAX_BATCH_BYTES {
            return Ok(offset);
        }
    }
}

// Returns the number of bytes of the texts and names of entries.
fn bytes_of(entries: &Entries) -> usize {
    let layout = entries.layout();
    layout.bytes.len().saturating_add(layout.names.len())
}

// Posts a batch as one item. A single entry is posted as an owned copy.
fn post_batch<T: Wait>(
    rt: &T,
    alloc: Global,
    end: &mut PostEnd,
    stream: u32,
    batch: Entries,
) -> Result<(), StreamFault>
    requires { length batch ≤ max_entries }
    ensures posted { OnOk result (HasPosted end.old end.new (map (entry_item end.old.number stream) batch)) }
    ensures unchanged_on_err { OnErr result (end.new ≡ end.old) }
    ensures only_out_of_memory { IfErr result (λ fault. fault ≡ OutOfMemory) }
{
    match batch.len() {
        0 => {}
        1 => post(rt, end, stream, What::Line(batch.into_entry(alloc)?)),
        _ => post(rt, end, stream, What::Lines(batch)),
    }
    Ok(())
}

/// Posts an item, and posts it again as long as it is returned.
pub fn post<T: Wait>(rt: &T, end: &mut PostEnd, stream: u32, what: What)
    requires { IsWellSized what }
    ensures { HasPosted end.old end.new (singles_in end.old.number stream what) }
{
    let mut item = Item {
        sender: end.number(),
        stream,
        what,
    };
    for _ in rt.forever() {
        match end.post(rt, item) {
            Ok(()) => return,
            Err(returned) => item = returned,
        }
    }
    unreachable!()
}
