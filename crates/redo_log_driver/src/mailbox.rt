//! Opens a mailbox, posts to it and takes from it.
ghost use Rattle.std.specs.Prelude.{◌≡◌};

use redo_test_support::{Two, rest, two_ended};
use redo_wire::{Item, PostEnd, TakeEnd, What};
use std::io;
use std::sync::Wait;

/// Opens a mailbox with two post ends, a second time if an allocation fails. Then posts, takes and meets the ends.
pub fn mailbox(rt: &(impl Print + AllocGlobal + Wait)) -> io::Result<()> {
    if let Ok(two) = two_ended(rt.alloc(), 2) {
        return post_and_take(rt, two);
    }
    println!(rt; "open: no memory")?;
    match two_ended(rt.alloc(), 2) {
        Ok(two) => post_and_take(rt, two),
        Err(_) => println!(rt; "open: no memory"),
    }
}

fn post_and_take(rt: &(impl Print + Wait), two: Two) -> io::Result<()> {
    let Two {
        mut mailbox,
        mut first,
        mut second,
    } = two;
    post_three(rt, &mut mailbox, &mut first, &mut second)?;
    meet(rt, &mut mailbox, first)?;
    meet(rt, &mut mailbox, second)?;
    tell_rest(rt, &mut mailbox)
}

/// Posts two items, takes one, and posts one more.
fn post_three(
    rt: &(impl Print + Wait),
    mailbox: &mut TakeEnd,
    first: &mut PostEnd,
    second: &mut PostEnd,
) -> io::Result<()>
    ensures mailbox { mailbox.new.mailbox ≡ mailbox.old.mailbox }
    ensures first { first.new.mailbox ≡ first.old.mailbox }
    ensures second { second.new.mailbox ≡ second.old.mailbox }
{
    post(rt, first, 5)?;
    post(rt, second, 6)?;
    println!(rt; "take: {:?}", mailbox.take(rt))?;
    post(rt, first, 7)
}

fn meet(rt: &(impl Print + Wait), mailbox: &mut TakeEnd, end: PostEnd) -> io::Result<()>
    requires { end.mailbox ≡ mailbox.old.mailbox }
    ensures { mailbox.new.mailbox ≡ mailbox.old.mailbox }
{
    mailbox.meet(rt, end);
    println!(rt; "all_met: {}", mailbox.all_met())
}

fn tell_rest(rt: &(impl Print + Wait), mailbox: &mut TakeEnd) -> io::Result<()> {
    for _ in 0..3 {
        match rest(rt, mailbox) {
            Ok(item) => println!(rt; "rest: {item:?}")?,
            Err(_) => println!(rt; "not all are met")?,
        }
    }
    Ok(())
}

fn post(rt: &(impl Print + Wait), end: &mut PostEnd, stream: u32) -> io::Result<()>
    ensures { end.new.mailbox ≡ end.old.mailbox }
{
    let item = Item {
        sender: end.number(),
        stream,
        what: What::End,
    };
    let answer = end.post(rt, item);
    println!(rt; "post at {}: {answer:?}", end.number())
}
