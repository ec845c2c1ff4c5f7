//! Reads one stream, for every kind of gathering.
//!
//! One loop reads every stream (`read_entries`), and gives the entries to an `EntrySink`: a list of entries, or a `Poster`.
ghost use Rattle.std.specs.Prelude.{◌≡◌, ◌≢◌, ◌≤◌, ◌^◌, ◌∷◌, [], ◌++◌, List, IfOk, IfErr, OnOk, OnErr, length};
ghost use Rattle.redo_line.specs.declared.stream_fault.StreamFault.TheVariants.{OutOfMemory, Read};
ghost use Rattle.redo_line.specs.declared.entry.Entry.{Entry as EntryValue};
ghost use Rattle.redo_line.specs.Source.{source};
ghost use Rattle.redo_gather.specs.Private.Reading.{AreChunksTaken, AreEntriesTaken, IsChunkTaken, IsRead};

use redo_line::{Broken, Entry, Feed, Scan, StreamFault};
use std::alloc::{AllocError, Global};

// The maximum number of bytes of one read.
const READ_BYTES: usize = 64 * 1024;

/// Takes the entries of one stream, in order: into a list, or to a mailbox.
pub trait EntrySink {
    /// These are the entries that the sink took since it was `before`: `has_taken before after entries`.
    ghost has_taken: { Self → Self → List EntryValue → Type 0 };

    /// Takes the entries of the lines that end in a chunk, up to a fault.
    fn take_chunk(&mut self, scan: &mut Scan, chunk: &[u8]) -> Result<(), StreamFault>
        ensures taken { (before : Self) (earlier : List EntryValue) → has_taken before self.old earlier → IsRead scan.old earlier →
            IsChunkTaken (has_taken before self.new) chunk.now scan.old scan.new result }
        ensures never_read_fault { IfErr result (λ fault. fault ≢ Read) };

    /// Takes the entry of the unended line.
    fn take_last(&mut self, last: Entry) -> Result<(), StreamFault>
        ensures taken { (before : Self) (earlier : List EntryValue) → has_taken before self.old earlier →
            OnOk result (has_taken before self.new (earlier ++ last ∷ [])) }
        ensures unchanged_on_err { (before : Self) (earlier : List EntryValue) → has_taken before self.old earlier →
            OnErr result (has_taken before self.new earlier) }
        ensures only_out_of_memory { IfErr result (λ fault. fault ≡ OutOfMemory) };
}

/// Returns a buffer for one read.
pub fn new_buffer(alloc: Global) -> Result<Vec<u8>, AllocError>
    ensures { IfOk result (λ buffer. length buffer.items ≡ 2 ^ 16) }
{
    vec![in alloc; 0u8; READ_BYTES]
}

/// Reads a stream, up to its end or its fault, and gives its entries to a sink. Returns the fault. Without a buffer it
/// returns `OutOfMemory`. It reads again only if the bytes so far are within the limit, so at most `max_bytes + 1`
/// times. It calls `before_read` before each read, with the read's number from 1.
pub fn read_entries<S: EntrySink, R: Feed, B: Fn(u64)>(
    sink: &mut S,
    scan: Scan,
    reader: &mut R,
    buf: &mut [u8],
    before_read: &B,
) -> Result<(), StreamFault>
    requires at_most { scan.max_bytes ≤ 2 ^ 40 }
    requires begins { scan.bytes ≡ [] }
    requires read { IsRead scan [] }
    requires none_taken { S.has_taken sink.old sink.old [] }
    requires callable { B.IsAlwaysCallable before_read.now }
    ensures { AreEntriesTaken (S.has_taken sink.old sink.new) scan.max_bytes
        (source scan.target scan.must_close (R.contents reader.old)) result }
{
    let mut scan = scan;
    read_chunks(sink, &mut scan, reader, buf, before_read)?;
    if let Some(last) = scan.finish()? {
        sink.take_last(last)?;
    }
    Ok(())
}

// Reads a stream, up to its end or its fault, except for an unended line.
fn read_chunks<S: EntrySink, R: Feed, B: Fn(u64)>(
    sink: &mut S,
    scan: &mut Scan,
    reader: &mut R,
    buf: &mut [u8],
    before_read: &B,
) -> Result<(), StreamFault>
    requires at_most { scan.old.max_bytes ≤ 2 ^ 40 }
    requires begins { scan.old.bytes ≡ [] }
    requires read { IsRead scan.old [] }
    requires none_taken { S.has_taken sink.old sink.old [] }
    requires callable { B.IsAlwaysCallable before_read.now }
    ensures { AreChunksTaken (S.has_taken sink.old sink.new) (R.contents reader.old) scan.old scan.new result }
{
    if buf.is_empty() {
        return Err(StreamFault::OutOfMemory);
    }
    let mut read_number = 0;
    'reads: loop {
        read_number += 1;
        before_read(read_number);
        match reader.pull(buf) {
            Err(Broken) => return Err(StreamFault::Read),
            Ok(0) => return Ok(()),
            Ok(n) => sink.take_chunk(scan, &buf[..n])?,
        }
    }
}
