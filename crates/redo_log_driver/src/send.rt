//! Senders that send their shares in parallel, and the items of each one.
ghost use Rattle.std.specs.Prelude.{◌≡◌};

use crate::gather::MAX_BYTES;
use redo_gather::{Free, Plan, Share, send};
use redo_line::{Entries, Entry, EntryAt, Layout, Pieces, TargetName};
use redo_test_support::{Posting, exchange};
use redo_wire::{Item, PostEnd, What};
use std::alloc::{AllocError, Global};
use std::io;
use std::sync::Wait;
use std::thread::Threads;

/// The streams of a share: number, target, must-close flag and bytes. The first one has a bad record, the second one has
/// a log, and the third one has no closing record.
const SHARE: [(u32, &[u8], bool, &[u8]); 3] = [
    (0, b"a", true, b"ok\nok\n@@REDO:do:7\n"),
    (1, b"b", false, b"@@REDO:do:7:1.0000@@ c\nb1\nb2"),
    (2, b"c", true, b"c1\n"),
];

/// The maximum number of items.
const MAX_ITEMS: usize = 1000;

/// A share to be sent.
#[derive(Drop)]
struct Sending {
    alloc: Global,
    share: Share<Pieces>,
}

impl Posting for Sending {
    fn streams(&self) -> usize {
        self.share.len()
    }

    fn post<T: Wait>(self, rt: &T, end: PostEnd) -> PostEnd
        ensures { result.mailbox ≡ end.mailbox }
    {
        send(rt, self.alloc, end, self.share, MAX_BYTES, &Free)
    }
}

/// Sends one share per sender of the plan, through a mailbox of the plan's capacity. Prints the items of each sender.
pub fn send_shares(
    rt: &(impl Print + AllocGlobal + Threads + Wait + Sync),
    plan: Option<Plan>,
) -> io::Result<()> {
    let Some(plan) = plan else {
        return println!(rt; "no number of senders");
    };
    let Ok(shares) = shares(rt.alloc(), plan.senders()) else {
        return println!(rt; "no memory for the streams");
    };
    match exchange(rt, plan.capacity(), shares, MAX_ITEMS) {
        Ok(items) => tell(rt, &items, plan.senders()),
        Err(why) => println!(rt; "{why}"),
    }
}

/// Returns a share for each sender. Its streams come in reads of 10 bytes.
fn shares(alloc: Global, senders: u32) -> Result<Vec<Sending>, AllocError> {
    let mut shares = Vec::new(alloc);
    for _ in 0..senders {
        shares.push(Sending {
            alloc,
            share: share(alloc)?,
        })?;
    }
    Ok(shares)
}

fn share(alloc: Global) -> Result<Share<Pieces>, AllocError> {
    let mut share = Vec::new(alloc);
    for (number, name, must_close, stream) in &SHARE {
        let Ok(target) = TargetName::resolve(alloc, None, name) else {
            return Err(AllocError);
        };
        share.push((*number, target, *must_close, reader(alloc, stream)?))?;
    }
    Ok(share)
}

fn reader(alloc: Global, stream: &[u8]) -> Result<Pieces, AllocError> {
    let mut reads = Vec::new(alloc);
    for read in stream.chunks(10) {
        reads.push(read.to_vec(alloc)?)?;
    }
    Ok(Pieces::new(reads, false))
}

/// Prints the items of each sender, in order.
fn tell(rt: &impl Print, items: &[Item], senders: u32) -> io::Result<()> {
    for sender in 0..senders {
        for item in items {
            if item.sender == sender {
                tell_item(rt, item)?;
            }
        }
    }
    Ok(())
}

fn tell_item(rt: &impl Print, item: &Item) -> io::Result<()> {
    match &item.what {
        What::Line(entry) => tell_entry(rt, item, entry),
        What::Lines(entries) => tell_entries(rt, item, entries),
        What::End => println!(rt; "sender {}, stream {}: end", item.sender, item.stream),
        What::Fail(fault) => {
            println!(rt; "sender {}, stream {}: {fault:?}", item.sender, item.stream)
        }
    }
}

fn tell_entries(rt: &impl Print, item: &Item, entries: &Entries) -> io::Result<()> {
    let layout = entries.layout();
    for place in layout.places {
        tell_place(rt, item, &layout, *place)?;
    }
    Ok(())
}

/// Prints one of several entries in the form of a single entry.
fn tell_place(rt: &impl Print, item: &Item, layout: &Layout<'_>, place: EntryAt) -> io::Result<()> {
    let Item { sender, stream, .. } = item;
    match place {
        EntryAt::Texts { start, end, .. } => {
            let lines = layout.bytes.get(start..end).unwrap_or(b"".as_slice());
            tell_lines(rt, item, lines.strip_suffix(b"\n").unwrap_or(lines))
        }
        EntryAt::Mention {
            pid,
            how,
            start,
            end,
        } => {
            let name = layout.names.get(start..end).unwrap_or(b"".as_slice());
            println!(rt;
                "sender {sender}, stream {stream}: Mention {{ pid: {pid}, how: {how:?}, name: TargetName {{ bytes: {name:?} }} }}"
            )
        }
        other => println!(rt; "sender {sender}, stream {stream}: {other:?}"),
    }
}

fn tell_lines(rt: &impl Print, item: &Item, lines: &[u8]) -> io::Result<()> {
    let Item { sender, stream, .. } = item;
    for line in lines.split(|byte: &u8| *byte == b'\n') {
        println!(rt; "sender {sender}, stream {stream}: Text(LineText {{ bytes: {line:?} }})")?;
    }
    Ok(())
}

fn tell_entry(rt: &impl Print, item: &Item, entry: &Entry) -> io::Result<()> {
    println!(rt; "sender {}, stream {}: {entry:?}", item.sender, item.stream)
}
