//! Two senders that send in parallel, and the items taken from them.
ghost use Rattle.std.specs.Prelude.{◌≡◌};

use redo_gather::{Gate, Share, send};
use redo_line::Pieces;
use redo_test_support::{Two, rest, two_ended};
use redo_wire::{Item, PostEnd, TakeEnd, What};
use std::sync::Wait;
use std::test::Fail;
use std::thread::{Threads, join};

/// How many bytes a stream may have.
const MAX_BYTES: u64 = 1_000_000;

/// Sends two shares in parallel, one of `streams` streams and one of a single stream, through a mailbox of capacity 1. Takes their
/// items meanwhile, and notifies the gate. Returns the items taken.
pub fn sent<T: AllocGlobal + Threads + Wait + Sync, G: Gate>(
    rt: &T,
    first_share: Share<Pieces>,
    second_share: Share<Pieces>,
    streams: usize,
    gate: &G,
) -> Result<Vec<Item>, Fail> {
    let taken = Vec::with_capacity(rt.alloc(), 1000)?;
    let Two {
        mailbox,
        first,
        second,
    } = two_ended(rt.alloc(), 1)?;
    let ((first, second), (mut mailbox, taken)) = join(
        rt,
        || {
            join(
                rt,
                || send_share(rt, first, first_share, gate),
                || send_share(rt, second, second_share, gate),
            )
        },
        || take_all(rt, mailbox, taken, streams, gate),
    );
    mailbox.meet(rt, first);
    mailbox.meet(rt, second);
    with_rest(rt, mailbox, taken)
}

/// Returns the items taken, and those left in the mailbox.
fn with_rest<T: Wait>(
    rt: &T,
    mut mailbox: TakeEnd,
    mut taken: Vec<Item>,
) -> Result<Vec<Item>, Fail> {
    for _ in rt.forever() {
        let Some(item) = rest(rt, &mut mailbox)? else {
            break;
        };
        taken.push(item)?;
    }
    Ok(taken)
}

fn send_share<T: AllocGlobal + Wait, G: Gate>(
    rt: &T,
    end: PostEnd,
    share: Share<Pieces>,
    gate: &G,
) -> PostEnd
    ensures { result.mailbox ≡ end.mailbox }
{
    send(rt, rt.alloc(), end, share, MAX_BYTES, gate)
}

/// Takes until `streams` streams and one more are over, or nothing more comes.
fn take_all<T: Wait, G: Gate>(
    rt: &T,
    mut mailbox: TakeEnd,
    mut taken: Vec<Item>,
    streams: usize,
    gate: &G,
) -> (TakeEnd, Vec<Item>)
    ensures { result.0.mailbox ≡ mailbox.mailbox }
{
    let mut over = 0usize;
    for _ in rt.forever() {
        if over > streams {
            break;
        }
        let Some(item) = mailbox.take(rt) else {
            break;
        };
        match item.what {
            What::Line(_) => gate.taken(rt, item.stream, 1),
            What::Lines(_) => {}
            What::End | What::Fail(_) => {
                gate.over(rt, item.stream);
                over = over.wrapping_add(1);
            }
        }
        if taken.push(item).is_err() {
            break;
        }
    }
    (mailbox, taken)
}
