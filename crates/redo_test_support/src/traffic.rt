//! Senders that post in parallel, and the items that are taken from them.
ghost use Rattle.std.specs.Prelude.{◌≡◌, IfOk};
ghost use Rattle.std.specs.List.{AllByRecursion};

use redo_wire::{Item, PostEnd, TakeEnd, What, open};
use std::alloc::{AllocError, Global};
use std::snapshot::Snapshot;
use std::sync::Wait;
use std::thread;
use std::thread::{Promise, PromisedHandle, Scope, Threads};

/// The items that a sender posts at its end.
pub trait Posting: Drop + Send {
    /// Returns the number of streams that it ends or lets fail.
    fn streams(&self) -> usize;

    /// Posts everything at the end, and returns the end.
    fn post<T: Wait>(self, rt: &T, end: PostEnd) -> PostEnd
        ensures { result.mailbox ≡ end.mailbox };
}

/// The items of one stream, in order, each as the stream's number and its content. The last one is an `End`.
pub type Posts = Vec<(u32, What)>;

impl Posting for Posts {
    fn streams(&self) -> usize {
        1
    }

    fn post<T: Wait>(self, rt: &T, end: PostEnd) -> PostEnd
        ensures { result.mailbox ≡ end.mailbox }
    {
        post_items(rt, end, self)
    }
}

/// The promise of a thread: the end that it returns is of the same mailbox as the end that it got.
#[derive(Drop)]
struct OfOneMailbox(Snapshot<PostEnd>);

impl Promise<PostEnd> for OfOneMailbox {
    ghost use Rattle.std.specs.Prelude.{◌≡◌};

    ghost kept_by = { λ promise end. end.mailbox ≡ promise.0.value.mailbox };
}

/// A mailbox that is being emptied.
#[derive(Drop)]
struct Emptied {
    mailbox: TakeEnd,
    taken: Vec<Item>,
    is_lost: bool,
}

/// Opens a mailbox of this capacity with a post end for each sender. Each sender posts in its own thread. Returns
/// all items, in the order in which they were taken. There may be `most_items` of them.
pub fn exchange<T: AllocGlobal + Threads + Wait + Sync, P: Posting>(
    rt: &T,
    capacity: u32,
    posts: Vec<P>,
    most_items: usize,
) -> Result<Vec<Item>, &'static str> {
    let senders = posts.len();
    if capacity < 1 || capacity > 1 << 16 || senders < 1 || senders > 64 {
        return Err("no such mailbox");
    }
    let Ok(taken) = Vec::with_capacity(rt.alloc(), most_items) else {
        return Err("no memory for the items");
    };
    let Ok((mailbox, ends)) = open(rt.alloc(), capacity, senders as u32) else {
        return Err("open: no memory");
    };
    let emptied = Emptied {
        mailbox,
        taken,
        is_lost: false,
    };
    let emptied = thread::scope(
        thread::scope_env(),
        rt,
        |scope| -> Emptied
            requires { AllByRecursion (λ end. end.mailbox ≡ emptied.mailbox.mailbox) ends.items }
        {
            let mut emptied = emptied;
            post_all(scope, rt, ends, posts, 0, &mut emptied);
            emptied
        },
    );
    emptied.all(rt)
}

/// Starts a thread for each end, empties the mailbox meanwhile, joins the threads and meets their ends. `streams`
/// counts the streams of the threads that were started before. If a thread can't be started, the mailbox is emptied
/// of these streams.
fn post_all<'s, T: Threads + Wait + Sync, P: Posting + 's, E>(
    scope: &Scope<'s, E>,
    rt: &'s T,
    mut ends: Vec<PostEnd>,
    mut posts: Vec<P>,
    streams: usize,
    emptied: &mut Emptied,
)
    requires { AllByRecursion (λ end. end.mailbox ≡ emptied.old.mailbox.mailbox) ends.items }
    ensures { emptied.new.mailbox.mailbox ≡ emptied.old.mailbox.mailbox }
{
    let (Some(end), Some(posting)) = (ends.pop(), posts.pop()) else {
        emptied.take(rt, streams);
        return;
    };
    let streams_then = streams.wrapping_add(posting.streams());
    let Ok(thread) = start(scope, rt, end, posting) else {
        emptied.take(rt, streams);
        return;
    };
    post_all(scope, rt, ends, posts, streams_then, emptied);
    let end = thread.join(rt);
    emptied.mailbox.meet(rt, end);
}

/// Starts a thread that posts at an end.
fn start<'s, T: Threads + Wait + Sync, P: Posting + 's, E>(
    scope: &Scope<'s, E>,
    rt: &'s T,
    end: PostEnd,
    posting: P,
) -> Result<PromisedHandle<PostEnd, OfOneMailbox>, AllocError>
    ensures { IfOk result (λ handle. handle.promise.0.value.mailbox ≡ end.mailbox) }
{
    let promise = OfOneMailbox(Snapshot::of(&end));
    Ok(scope.spawn_with(promise, move || posting.post(rt, end))?)
}

fn post_items<T: Wait>(rt: &T, end: PostEnd, items: Posts) -> PostEnd
    ensures { result.mailbox ≡ end.mailbox }
{
    let mut end = end;
    for (stream, what) in items {
        let item = Item {
            sender: end.number(),
            stream,
            what,
        };
        post(rt, &mut end, item);
    }
    end
}

/// Posts the item, and posts it again as long as it is returned.
fn post<T: Wait>(rt: &T, end: &mut PostEnd, mut item: Item)
    requires { item.sender ≡ end.old.number }
    ensures { end.new.mailbox ≡ end.old.mailbox }
{
    for _ in rt.forever() {
        match end.post(rt, item) {
            Ok(()) => return,
            Err(back) => item = back,
        }
    }
    unreachable!()
}

impl Emptied {
    /// Takes until this many streams are over, or nothing more comes.
    fn take<T: Wait>(&mut self, rt: &T, streams: usize)
        ensures { self.new.mailbox.mailbox ≡ self.old.mailbox.mailbox }
    {
        let mut streams = streams;
        for _ in rt.forever() {
            if streams == 0 {
                return;
            }
            let Some(item) = self.mailbox.take(rt) else {
                return;
            };
            if matches!(item.what, What::End | What::Fail(_)) {
                streams = streams.wrapping_sub(1);
            }
            self.keep(item);
        }
        unreachable!()
    }

    fn keep(&mut self, item: Item)
        ensures { self.new.mailbox ≡ self.old.mailbox }
    {
        self.is_lost |= self.taken.push(item).is_err();
    }

    /// Takes the remaining items after all ends were met, and returns all items taken.
    fn all<T: Wait>(mut self, rt: &T) -> Result<Vec<Item>, &'static str> {
        for _ in rt.forever() {
            let Some(item) = rest(rt, &mut self.mailbox)? else {
                break;
            };
            self.keep(item);
        }
        if self.is_lost {
            return Err("no memory for what was taken");
        }
        Ok(self.taken)
    }
}

/// Takes one of the items that are left in a mailbox whose ends were all met.
pub fn rest<T: Wait>(rt: &T, mailbox: &mut TakeEnd) -> Result<Option<Item>, &'static str>
    ensures { mailbox.new.mailbox ≡ mailbox.old.mailbox }
{
    if !mailbox.all_met() {
        return Err("an end was not met");
    }
    Ok(mailbox.rest(rt))
}
