//! A sender allocates its buffer in its own thread. If it can't, it posts out of memory for each stream, so `send` has no
//! other result.
ghost use Rattle.std.specs.Prelude.{◌≡◌, ◌≤◌, ◌^◌, ◌++◌, [], map};
ghost use Rattle.redo_line.specs.Source.{source};
ghost use Rattle.redo_gather.specs.Private.Posting.{IsStreamPosted};
ghost use Rattle.redo_gather.specs.Private.Reading.{IsRead, fault_in};
ghost use Rattle.redo_gather.specs.Sending.{AreExpected, AreWellSized, final_what, numbered_source, posted_since, singles};

use crate::gate::Gate;
use crate::poster::{Poster, post};
use crate::reading::{new_buffer, read_entries};
use redo_line::{Feed, Scan, StreamFault, TargetName};
use redo_wire::{PostEnd, What};
use std::alloc::Global;
use std::sync::Wait;

/// The streams of one sender, in order. Each has its number, the target of its log, its must-close flag (whether it
/// must end with the closing record of this log), and its reader.
pub type Share<R> = Vec<(u32, TargetName, bool, R)>;

/// Reads the streams of a share one after another, posts their entries at `end`, and returns `end`. For each stream it posts the
/// entries of its log and an end. If the stream has a fault, it posts the entries before the fault, and the fault. If memory runs
/// out, it posts some of the first entries and the fault `OutOfMemory`. Then it goes on with the next stream.
///
/// Before it reads again, it posts every entry that the bytes so far complete. It uses as few items as possible: an
/// item has at most 1,024 entries, and gets no more lines once its texts and names have 131,072 bytes. It blocks
/// while the mailbox is full, and notifies the gate before each read. If an item is returned to it, it posts the
/// item again, so it never ends if the mailbox's take end is gone.
pub fn send<T: Wait, R: Feed, G: Gate>(
    rt: &T,
    alloc: Global,
    end: PostEnd,
    share: Share<R>,
    max_bytes: u64,
    gate: &G,
) -> PostEnd
    requires at_least { 1 ≤ max_bytes }
    requires at_most { max_bytes ≤ 2 ^ 40 }
    // The end is the same, with the items that it posted before.
    ensures unchanged { (result.mailbox ≡ end.mailbox) × (result.number ≡ end.number) }
    ensures posted { result.posted ≡ end.posted ++ posted_since end result }

    // The items that it posted since are, entry by entry, as expected for the streams of the share, one after another.
    ensures expected { AreExpected max_bytes end.number (map (numbered_source R.contents) share.items) (singles (posted_since end result)) }

    // No item of several entries has fewer than 2 or more than 1,024.
    ensures well_sized { AreWellSized (posted_since end result) }
{
    let mut end = end;
    // Without memory for a buffer, each stream gets an empty one, and the fault `OutOfMemory`.
    let mut buffer = new_buffer(alloc).unwrap_or(Vec::new(alloc));
    let buf = buffer.as_mut_slice();
    for (stream, target, must_close, mut reader) in share {
        let before_read = |read_number| gate.before_read(rt, stream, read_number);
        let scan = Scan::new(alloc, target, max_bytes, must_close);
        let poster = Poster {
            rt,
            alloc,
            end,
            stream,
        };
        end = send_stream(poster, scan, &mut reader, buf, &before_read);
    }
    end
}

// Posts a stream's entries, and its end or its fault. Returns the end.
fn send_stream<T: Wait, R: Feed, B: Fn(u64)>(
    mut poster: Poster<'_, T>,
    scan: Scan,
    reader: &mut R,
    buf: &mut [u8],
    before_read: &B,
) -> PostEnd
    requires at_most { scan.max_bytes ≤ 2 ^ 40 }
    requires begins { scan.bytes ≡ [] }
    requires read { IsRead scan [] }
    requires callable { B.IsAlwaysCallable before_read.now }
    ensures { IsStreamPosted scan.max_bytes poster.entry.stream (source scan.target scan.must_close (R.contents reader.old))
        poster.entry.end result }
{
    let outcome = read_entries(&mut poster, scan, reader, buf, before_read);
    let Poster {
        rt,
        mut end,
        stream,
        ..
    } = poster;
    post(rt, &mut end, stream, last_item(outcome));
    end
}

// Returns the last item of a stream, after its entries.
fn last_item(outcome: Result<(), StreamFault>) -> What
    ensures { result ≡ final_what (fault_in outcome) }
{
    match outcome {
        Ok(()) => What::End,
        Err(fault) => What::Fail(fault),
    }
}
