//! The items taken from a mailbox are the items posted, in order for each sender.
//!
//! They arrive from two ends on the collector's thread, from 1, 2 and 64 parallel senders with capacities from 1 to 65,536,
//! and from 4 senders a hundred times. An item comes back if nobody can take it, and none comes once all ends are gone.
ghost use Rattle.std.specs.Prelude.{◌≡◌};

use redo_line::{Entries, Entry};
use redo_test_support::{Posts, Two, exchange, item_text, line, rest, two_ended};
use redo_wire::{Item, PostEnd, TakeEnd, What};
use std::alloc::{AllocError, Global};
use std::panic::Expect;
use std::process::Abort;
use std::sync::Wait;
use std::thread::Threads;

fn entry(rt: &(impl Abort + AllocGlobal), text: &str) -> Entry {
    Entry::Text(
        line(rt.alloc(), text)
            .expect(rt, "no memory")
            .expect(rt, "no line"),
    )
}

/// Returns an item of this sender, with one text entry.
fn item(rt: &(impl Abort + AllocGlobal), sender: u32, text: &str) -> Item
    ensures { result.sender ≡ sender }
{
    Item {
        sender,
        stream: 7,
        what: What::Line(entry(rt, text)),
    }
}

/// The text that is expected if there is no item.
const NONE: &str = "none";

/// Checks the text of an item that was taken or that a post returned.
fn expect(rt: &(impl Abort + AllocGlobal), item: Option<Item>, want: &str) {
    expect_item(rt, item.as_ref(), want).expect(rt, "no memory");
}

fn expect_item(
    rt: &(impl Abort + AllocGlobal),
    item: Option<&Item>,
    want: &str,
) -> Result<(), AllocError> {
    let Some(item) = item else {
        expect_text(rt, NONE, want);
        return Ok(());
    };
    expect_text_of(rt, item, want)
}

fn expect_text_of(
    rt: &(impl Abort + AllocGlobal),
    item: &Item,
    want: &str,
) -> Result<(), AllocError> {
    let text = item_text(rt.alloc(), item)?;
    expect_text(rt, text.as_str(), want);
    Ok(())
}

fn expect_text(rt: &impl Abort, text: &str, want: &str) {
    assert!(rt; text == want, "`{text}` is not `{want}`");
}

/// Posts a line at this end, and checks the item that the post returns, or that it returns none.
fn post<R: Abort + AllocGlobal + Wait>(rt: &R, end: &mut PostEnd, text: &str, left: &str)
    ensures { end.new.mailbox ≡ end.old.mailbox }
{
    let item = item(rt, end.number(), text);
    expect(rt, end.post(rt, item).err(), left);
}

/// Takes an item, and checks it, or that there is none.
fn take<R: Abort + AllocGlobal + Wait>(rt: &R, mailbox: &mut TakeEnd, want: &str)
    ensures { mailbox.new.mailbox ≡ mailbox.old.mailbox }
{
    expect(rt, mailbox.take(rt), want);
}

#[test]
fn two_ends_post_and_are_met(rt: HostRuntime) -> Result<(), AllocError> {
    let Two {
        mut mailbox,
        mut first,
        mut second,
    } = two_ended(rt.alloc(), 2)?;
    post_three(&rt, &mut mailbox, &mut first, &mut second);
    meet_both(&rt, &mut mailbox, first, second);
    expect_rest(&rt, &mut mailbox, "7 of 0: C");
    expect_rest(&rt, &mut mailbox, NONE);
    Ok(())
}

/// Posts twice at the first end and once at the second, and takes the first item of each.
fn post_three<R: Abort + AllocGlobal + Wait>(
    rt: &R,
    mailbox: &mut TakeEnd,
    first: &mut PostEnd,
    second: &mut PostEnd,
)
    ensures mailbox { mailbox.new.mailbox ≡ mailbox.old.mailbox }
    ensures first { first.new.mailbox ≡ first.old.mailbox }
    ensures second { second.new.mailbox ≡ second.old.mailbox }
{
    post(rt, first, "A", NONE);
    post(rt, second, "B", NONE);
    take(rt, mailbox, "7 of 0: A");
    take(rt, mailbox, "7 of 1: B");
    post(rt, first, "C", NONE);
}

fn meet_both<R: Abort + Wait>(rt: &R, mailbox: &mut TakeEnd, first: PostEnd, second: PostEnd)
    requires { (first.mailbox ≡ mailbox.old.mailbox) × (second.mailbox ≡ mailbox.old.mailbox) }
{
    expect_all_met(rt, mailbox, false);
    mailbox.meet(rt, first);
    expect_all_met(rt, mailbox, false);
    mailbox.meet(rt, second);
    expect_all_met(rt, mailbox, true);
}

fn expect_all_met(rt: &impl Abort, mailbox: &TakeEnd, all_met: bool) {
    assert!(rt; mailbox.all_met() == all_met);
}

/// Takes one of the items that are left, and checks it, or that there is none.
fn expect_rest<R: Abort + AllocGlobal + Wait>(rt: &R, mailbox: &mut TakeEnd, want: &str) {
    expect(rt, rest(rt, mailbox).expect(rt, "rest"), want);
}

#[test]
fn post_without_receiver_returns_item(rt: HostRuntime) -> Result<(), AllocError> {
    let Two {
        mailbox,
        mut first,
        second: _,
    } = two_ended(rt.alloc(), 1)?;
    drop(mailbox);
    post(&rt, &mut first, "A", "7 of 0: A");
    post(&rt, &mut first, "B", "7 of 0: B");
    Ok(())
}

#[test]
fn take_returns_none_without_senders(rt: HostRuntime) -> Result<(), AllocError> {
    let Two {
        mut mailbox,
        first,
        second,
    } = two_ended(rt.alloc(), 3)?;
    post_and_drop(&rt, first, second);
    take(&rt, &mut mailbox, "7 of 0: A");
    take(&rt, &mut mailbox, NONE);
    expect_all_met(&rt, &mailbox, false);
    Ok(())
}

/// Posts at the first end, and drops both.
fn post_and_drop<R: Abort + AllocGlobal + Wait>(rt: &R, mut first: PostEnd, second: PostEnd) {
    post(rt, &mut first, "A", NONE);
    drop(first);
    drop(second);
}

/// The number of senders, the number of lines that each of them posts, and the number of lines in an
/// item.
#[derive(Clone, Copy)]
struct Load {
    senders: u32,
    lines: u32,
    at_once: u32,
}

impl Load {
    /// Returns the lines of the item at index `place`, as a range of numbers. Returns `None` after the
    /// last item.
    fn lines_at(self, place: u32) -> Option<(u32, u32)> {
        let first = place.saturating_mul(self.at_once);
        let upto = first.saturating_add(self.at_once).min(self.lines);
        (first < upto).then_some((first, upto))
    }

    /// Returns the text of the item at index `place`, or of the end after the last item.
    fn text_at(self, alloc: Global, sender: u32, place: u32) -> Result<String, AllocError> {
        let stream = stream_of(sender);
        let Some((first, upto)) = self.lines_at(place) else {
            return format!(in alloc; "{stream} of {sender}: end");
        };
        let mut text = format!(in alloc; "{stream} of {sender}:")?;
        add_numbers(alloc, &mut text, first, upto)?;
        Ok(text)
    }

    /// Returns the items that the sender posts.
    fn posts(self, rt: &(impl Abort + AllocGlobal), sender: u32) -> Posts {
        let stream = stream_of(sender);
        let mut posts = Vec::new(rt.alloc());
        for place in 0..self.lines {
            let Some((first, upto)) = self.lines_at(place) else {
                break;
            };
            posts
                .push((stream, what_of(rt, first, upto)))
                .expect(rt, "no memory");
        }
        posts.push((stream, What::End)).expect(rt, "no memory");
        posts
    }
}

/// Returns the number of the sender's stream.
fn stream_of(sender: u32) -> u32 {
    sender.saturating_add(100)
}

/// Adds the numbers from `first` to below `upto`, with a space before each.
fn add_numbers(alloc: Global, text: &mut String, first: u32, upto: u32) -> Result<(), AllocError> {
    for number in first..upto {
        text.push_str(&format!(in alloc; " {number}")?)?;
    }
    Ok(())
}

/// Returns a number as a text entry.
fn numbered(rt: &(impl Abort + AllocGlobal), number: u32) -> Entry {
    let text = format!(in rt.alloc(); "{number}").expect(rt, "no memory");
    entry(rt, &text)
}

/// Returns the numbers from `first` to below `upto` as lines: one line, or several.
fn what_of(rt: &(impl Abort + AllocGlobal), first: u32, upto: u32) -> What {
    match upto.saturating_sub(first) {
        0 => What::End,
        1 => What::Line(numbered(rt, first)),
        _ => What::Lines(entries_of(rt, first, upto)),
    }
}

fn entries_of(rt: &(impl Abort + AllocGlobal), first: u32, upto: u32) -> Entries {
    let mut entries = Entries::new(rt.alloc());
    for number in first..upto {
        entries.push(numbered(rt, number)).expect(rt, "no memory");
    }
    entries
}

/// Checks that all that the senders of a load post arrives, in order for each sender.
fn expect_all<T: Abort + AllocGlobal + Threads + Wait + Sync>(rt: &T, capacity: u32, load: Load) {
    let mut posts = Vec::new(rt.alloc());
    let mut most_items = 0usize;
    for sender in 0..load.senders {
        let items = load.posts(rt, sender);
        most_items = most_items.saturating_add(items.len());
        posts.push(items).expect(rt, "no memory");
    }
    let taken = exchange(rt, capacity, posts, most_items).expect(rt, "exchange");
    expect_taken(rt, &taken, load)
}

/// Checks that these are the items of the load's senders, and nothing else.
fn expect_taken(rt: &(impl Abort + AllocGlobal), taken: &[Item], load: Load) {
    for sender in 0..load.senders {
        expect_of(rt, sender, taken, load);
    }
    for item in taken {
        assert!(rt; item.sender < load.senders, "{}", item.sender);
    }
}

/// Checks that the sender's items are all items of its load, in order, and nothing else.
fn expect_of(rt: &(impl Abort + AllocGlobal), sender: u32, taken: &[Item], load: Load) {
    let mut place = 0;
    let mut has_ended = false;
    for item in taken {
        if item.sender == sender {
            expect_at(rt, item, load, place).expect(rt, "no memory");
            expect_ended(rt, sender, has_ended, false);
            has_ended = load.lines_at(place).is_none();
            place = place.saturating_add(1);
        }
    }
    expect_ended(rt, sender, has_ended, true);
}

/// Checks whether the sender has ended.
fn expect_ended(rt: &impl Abort, sender: u32, has_ended: bool, want: bool) {
    assert!(rt; has_ended == want, "sender {sender}");
}

/// Checks that this is its sender's item at index `place`.
fn expect_at(
    rt: &(impl Abort + AllocGlobal),
    item: &Item,
    load: Load,
    place: u32,
) -> Result<(), AllocError> {
    let want = load.text_at(rt.alloc(), item.sender, place)?;
    expect_text_of(rt, item, want.as_str())
}

#[test]
fn mailbox_keeps_order_of_four_senders(rt: HostRuntime) {
    let load = Load {
        senders: 4,
        lines: 1000,
        at_once: 1,
    };
    for _ in 0..100 {
        expect_all(&rt, 3, load);
    }
}

#[test]
fn mailbox_keeps_order_at_every_capacity(rt: HostRuntime) {
    for senders in [1, 2, 64] {
        for capacity in [1, 2, 64, 65_536] {
            for at_once in [1, 16, 300] {
                let load = Load {
                    senders,
                    lines: 300,
                    at_once,
                };
                expect_all(&rt, capacity, load);
            }
        }
    }
}
