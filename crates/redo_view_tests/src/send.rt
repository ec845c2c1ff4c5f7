//! Tests of the items that senders post for the streams of their shares.
use crate::sent::sent;
use redo_gather::{Free, Share};
use redo_line::{Pieces, TargetName};
use redo_test_support::gate::Holding;
use redo_test_support::{Cut, Given, item_text, reader};
use redo_wire::{Item, What};
use std::alloc::{AllocError, Global};
use std::process::Abort;
use std::sync::Wait;
use std::test::Fail;
use std::thread::Threads;

/// A stream that is at its end at once.
const NOTHING: Given<'static> = ("z", "", false);

/// Returns a share of these streams, with numbers from `from` on, cut into reads.
fn share(alloc: Global, from: u32, given: &[Given<'_>], cut: Cut) -> Result<Share<Pieces>, Fail> {
    let mut share = Vec::new(alloc);
    let mut number = from;
    for stream in given {
        share.push(member(alloc, number, stream, cut)?)?;
        number = number.saturating_add(1);
    }
    Ok(share)
}

fn member(
    alloc: Global,
    number: u32,
    given: &Given<'_>,
    cut: Cut,
) -> Result<(u32, TargetName, bool, Pieces), Fail> {
    let (name, stream, fails) = given;
    let target = TargetName::resolve(alloc, None, name.as_bytes())?;
    Ok((number, target, false, reader(alloc, stream, *fails, cut)?))
}

/// Checks that these are the items of the sender, in order.
fn expect_items(
    rt: &(impl Abort + AllocGlobal),
    taken: &[Item],
    sender: u32,
    want: &[&str],
) -> Result<(), Fail> {
    let mut position = 0usize;
    for item in taken {
        if item.sender == sender {
            expect_item(rt, item, want.get(position).copied())?;
            position = position.saturating_add(1);
        }
    }
    assert_eq!(rt; position, want.len());
    Ok(())
}

fn expect_item(
    rt: &(impl Abort + AllocGlobal),
    item: &Item,
    want: Option<&str>,
) -> Result<(), Fail> {
    let text = item_text(rt.alloc(), item)?;
    assert_eq!(rt; Some(text.as_str()), want);
    Ok(())
}

/// Returns the items that a sender posts for these streams, cut into reads, next to a sender whose stream is at its end at once.
fn posted(
    rt: &(impl AllocGlobal + Threads + Wait + Sync),
    given: &[Given<'_>],
    cut: Cut,
) -> Result<Vec<Item>, Fail> {
    let first = share(rt.alloc(), 5, given, cut)?;
    let second = share(rt.alloc(), 9, &[NOTHING], cut)?;
    sent(rt, first, second, given.len(), &Free)
}

/// Checks the items that a sender posts for these streams, cut into reads.
fn expect_posted(
    rt: &(impl Abort + AllocGlobal + Threads + Wait + Sync),
    given: &[Given<'_>],
    cut: Cut,
    want: &[&str],
) -> Result<(), Fail> {
    let taken = posted(rt, given, cut)?;
    expect_items(rt, &taken, 0, want)?;
    expect_items(rt, &taken, 1, &["9 of 1: end"])
}

/// Streams, the number of bytes of a read, and the items that are posted.
static POSTED: &[(&[Given<'static>], usize, &[&str])] = &[
    (&[("a", "", false)], 9, &["5 of 0: end"]),
    (
        &[("a", "x\ny\nz\n", false)],
        2,
        &["5 of 0: x", "5 of 0: y", "5 of 0: z", "5 of 0: end"],
    ),
    (
        &[("a", "x\ny\nz\n", false)],
        6,
        &["5 of 0: x y z", "5 of 0: end"],
    ),
    (
        &[("a", "x\ny\nz", false)],
        5,
        &["5 of 0: x y", "5 of 0: z", "5 of 0: end"],
    ),
    (
        &[("a", "x\n@@REDO:do:7\ny\n", false), ("b", "z\n", false)],
        99,
        &[
            "5 of 0: x",
            "5 of 0: BadRecord { line: 2 }",
            "6 of 0: z",
            "6 of 0: end",
        ],
    ),
    (&[("a", "x\ny", true)], 9, &["5 of 0: x", "5 of 0: Read"]),
    (
        &[("a", "x\n", false), ("b", "", true), ("c", "z", false)],
        1,
        &[
            "5 of 0: x",
            "5 of 0: end",
            "6 of 0: Read",
            "7 of 0: z",
            "7 of 0: end",
        ],
    ),
];

// Each read gives one item with the entries that it completes, and after a fault comes the next stream.
#[test]
fn sender_posts_lines_of_each_read(rt: HostRuntime) -> Result<(), Fail> {
    for (given, bytes, want) in POSTED {
        expect_posted(&rt, given, Cut::InReadsOf(*bytes), want)?;
    }
    Ok(())
}

/// Checks how many entries each item has that a sender posts for a stream in reads of 5,000 bytes.
fn expect_counts(
    rt: &(impl Abort + AllocGlobal + Threads + Wait + Sync),
    name: &str,
    stream: &str,
    want: &[usize],
) -> Result<(), Fail> {
    let counts = counts_of(rt, &[(name, stream, false)])?;
    assert_eq!(rt; counts.as_slice(), want);
    Ok(())
}

fn counts_of(
    rt: &(impl AllocGlobal + Threads + Wait + Sync),
    given: &[Given<'_>],
) -> Result<Vec<usize>, Fail> {
    let items = posted(rt, given, Cut::InReadsOf(5000))?;
    Ok(counts_in(rt.alloc(), &items)?)
}

/// Returns the number of entries of each item of the first sender.
fn counts_in(alloc: Global, items: &[Item]) -> Result<Vec<usize>, AllocError> {
    let mut counts = Vec::new(alloc);
    for item in items {
        if item.sender == 0 {
            counts.push(entries_in(item))?;
        }
    }
    Ok(counts)
}

fn repeated(alloc: Global, text: &str, times: u32) -> Result<String, AllocError> {
    let mut repeated = String::new(alloc);
    for _ in 0..times {
        repeated.push_str(text)?;
    }
    Ok(repeated)
}

#[test]
fn item_has_at_most_1024_entries(rt: HostRuntime) -> Result<(), Fail> {
    let stream = repeated(rt.alloc(), "x\n", 2049)?;
    expect_counts(&rt, "a", &stream, &[1024, 1024, 1, 0])
}

// Names are as long as the directory of the log's target. With three of them an item has enough bytes.
#[test]
fn item_ends_at_131072_bytes(rt: HostRuntime) -> Result<(), Fail> {
    let mut name = repeated(rt.alloc(), "d/", 30_000)?;
    name.push_str("a")?;
    expect_mentions(&rt, &name)
}

fn expect_mentions(
    rt: &(impl Abort + AllocGlobal + Threads + Wait + Sync),
    name: &str,
) -> Result<(), Fail> {
    let stream = repeated(rt.alloc(), "@@REDO:do:1:1@@ b\n", 7)?;
    expect_counts(rt, name, &stream, &[3, 3, 1, 0])
}

// Each sender reads its second line only after the first line of the other one was taken.
#[test]
fn senders_post_before_next_read(rt: HostRuntime) -> Result<(), Fail> {
    let gate = Holding::of_second_reads();
    expect_pair(&rt, &gate)?;
    assert!(rt; gate.kept_all());
    Ok(())
}

/// Checks the items that two senders of two lines each post with this gate.
fn expect_pair(
    rt: &(impl Abort + AllocGlobal + Threads + Wait + Sync),
    gate: &Holding,
) -> Result<(), Fail> {
    let items = pair_posted(rt, gate)?;
    expect_items(rt, &items, 0, &["0 of 0: p1", "0 of 0: p2", "0 of 0: end"])?;
    expect_items(rt, &items, 1, &["1 of 1: q1", "1 of 1: q2", "1 of 1: end"])
}

fn pair_posted(
    rt: &(impl AllocGlobal + Threads + Wait + Sync),
    gate: &Holding,
) -> Result<Vec<Item>, Fail> {
    let cut = Cut::InReadsOf(3);
    let first = share(rt.alloc(), 0, &[("p", "p1\np2\n", false)], cut)?;
    let second = share(rt.alloc(), 1, &[("q", "q1\nq2\n", false)], cut)?;
    sent(rt, first, second, 1, gate)
}

/// Returns the number of entries of an item.
fn entries_in(item: &Item) -> usize {
    match &item.what {
        What::Line(_) => 1,
        What::Lines(entries) => entries.len(),
        What::End | What::Fail(_) => 0,
    }
}
