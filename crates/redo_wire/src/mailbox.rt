//! A mailbox is a bounded channel of `crossbeam_channel` that maintains the rule of `rule.rt`. `post` blocks while it is
//! full, `take` while it is empty. Both return when the other side is gone. Only `open` allocates.
//!
//! The rule is about schedules of the machine, so that there is only one definition to believe. `post`, `take` and `rest` say
//! which step the machine took. `open` and `meet` can't, because the channel's `Split` and `Join` only make views. The take
//! end holds no sending half of the channel, so `take` returns `None` instead of blocking forever when all ends are gone.
//!
//! `meet` takes the runtime although it doesn't block: an implementation that does could have the same signature. `post` and
//! `take` block as the channel does. Yielding first was measured (bench/README.md).
ghost use Rattle.std.specs.Prelude.{◌≡◌, ◌<◌, ◌≤◌, ◌^◌, true, ◌↔◌, IfOk, IfErr, OnOk, IfSome, IfNone};
ghost use Rattle.std.specs.List.{list_all};
ghost use Rattle.redo_wire.specs.Machine.{FindsEmpty, Takes};
ghost use Rattle.redo_wire.specs.Mailbox.{AreAllMet, AreEndsOf, ArePrefixesOfMet, AreFromSenders, AreMetFullyTaken, HasSchedule, IsMet, IsOpened, MetEndsLeaveRoom, PostsByStep, MakesStep, after_meet, after_post, after_take};

use crate::item::Item;
use crate::rule::{AddEndStep, InitStep, MailboxProtocol, MeetStep, PutStep, Size, TakeStep, View};
use crossbeam_channel::{Pass, RuledReceiver, RuledSender, bounded_with};
use std::alloc::{AllocError, Global};
use std::marker::{Brand, Model};
use std::sync::Wait;

/// A post end of a mailbox. One sender posts at it.
#[derive(Drop)]
pub struct PostEnd {
    sender: RuledSender<Item, View, MailboxProtocol>,
    pass: Pass<Item, View>,
    number: u32,
}

impl Model for PostEnd {
    ghost use Rattle.redo_wire.specs.Mailbox.{PostEndState};
    ghost use Rattle.redo_wire.specs.Private.Ends.{IsPoster, poster_of};

    ghost Value = { PostEndState };

    ghost view = { λ end. poster_of end.pass end.number };

    ghost invariant = { λ end. IsPoster end.sender end.pass end.number };
}

/// The take end of a mailbox. The collector takes items at it.
#[derive(Drop)]
pub struct TakeEnd {
    receiver: RuledReceiver<Item, View, MailboxProtocol>,
    pass: Pass<Item, View>,
    // For each number, whether the post end with this number was met.
    met: Vec<bool>,
}

impl Model for TakeEnd {
    ghost use Rattle.redo_wire.specs.Mailbox.{TakeEndState};
    ghost use Rattle.redo_wire.specs.Private.Ends.{IsCollector, collector_of};

    ghost Value = { TakeEndState };

    ghost view = { λ end. collector_of end.pass };

    ghost invariant = { λ end. IsCollector end.receiver end.pass end.met.items };
}

/// Opens a mailbox that holds at most `capacity` items, from 1 to 65,536. It has one take end and `senders`
/// post ends, from 1 to 64; the post end at index i has number i. This call allocates all the memory that the
/// calls of the mailbox need.
pub fn open(
    alloc: Global,
    capacity: u32,
    senders: u32,
) -> Result<(TakeEnd, Vec<PostEnd>), AllocError>
    requires capacity { (1 ≤ capacity) × (capacity ≤ 2 ^ 16) }
    requires senders { (1 ≤ senders) × (senders ≤ 64) }
    // The mailbox has this capacity and this number of post ends. Nothing was taken, and no end was met.
    ensures take_end { IfOk result (λ ends. IsOpened capacity senders ends.0) }
    // The end at index i has number i, is of this mailbox, and posted nothing.
    ensures post_ends { IfOk result (λ ends. AreEndsOf ends.0.mailbox ends.1.items) }
{
    open_sized::<Brand>(alloc, capacity, senders)
}

// Does the same. The type `S` has the capacity and the number of senders, so that the steps of the rule can name
// them.
fn open_sized<S: Size>(
    alloc: Global,
    capacity: u32,
    senders: u32,
) -> Result<(TakeEnd, Vec<PostEnd>), AllocError>
    requires some_room { 0 < capacity }
    requires capacity { capacity ≡ S.capacity }
    requires senders { senders ≡ S.senders }
    ensures take_end { IfOk result (λ ends. IsOpened capacity senders ends.0) }
    ensures post_ends { IfOk result (λ ends. AreEndsOf ends.0.mailbox ends.1.items) }
{
    let met = vec![in alloc; false; senders as usize]?;
    let mut ends = Vec::with_capacity(alloc, senders as usize)?;
    let (sender, receiver, mut pass) = bounded_with::<Item, View, MailboxProtocol, Global>(
        alloc,
        capacity as usize,
    )?;
    let _idle = sender.another::<InitStep<S>>(&mut pass);
    for number in 0..senders {
        let end = PostEnd {
            sender: sender.try_clone()?,
            pass: sender.another::<AddEndStep>(&mut pass),
            number,
        };
        ends.push(end)?;
    }
    Ok((
        TakeEnd {
            receiver,
            pass,
            met,
        },
        ends,
    ))
}

impl PostEnd {
    /// Returns the end's number, which is less than the number of the mailbox's post ends.
    pub fn number(&self) -> u32
        ensures number { result ≡ self.now.number }
        ensures below { result < self.now.mailbox.senders }
    {
        self.number
    }

    /// Posts an item of this sender: puts it at the back of the mailbox, and blocks while the mailbox is full. If
    /// nobody is left to take the item, it may be returned as the error; then nothing has changed.
    #[tactic(auto, using(crate::proofs::Knowing::posting))]
    pub fn post<T: Wait>(&mut self, rt: &T, item: Item) -> Result<(), Item>
        requires { item.sender ≡ self.old.number }

        // The item was posted; or it is returned, and nothing has changed.
        ensures posted { OnOk result (self.new ≡ after_post item self.old) }
        ensures returned { IfErr result (λ back. (back ≡ item) × (self.new ≡ self.old)) }

        // In both cases it is the same end of the same mailbox.
        ensures unchanged { (self.new.mailbox ≡ self.old.mailbox) × (self.new.number ≡ self.old.number) }

        // For some schedule that leads to `self.old`, posting the item is the next step of the mailbox.
        ensures step { OnOk result (PostsByStep item self.old self.new) }
    {
        match self.sender.send_as::<PutStep, T>(rt, &mut self.pass, item) {
            Ok(()) => Ok(()),
            Err(error) => Err(error.into_inner()),
        }
    }
}

impl TakeEnd {
    /// Takes the front item. Blocks while the mailbox is empty and some post end may still post. If it returns
    /// `None`, all that the met ends posted was taken, and nothing has changed.
    #[tactic(auto, using(crate::proofs::Knowing::taking))]
    pub fn take<T: Wait>(&mut self, rt: &T) -> Option<Item>
        // An item was taken; or none was, and nothing has changed.
        ensures taken { IfSome result (λ item. self.new ≡ after_take item self.old) }
        ensures unchanged_if_none { IfNone result (self.new ≡ self.old) }
        ensures unchanged { (self.new.mailbox ≡ self.old.mailbox) × (self.new.met ≡ self.old.met) }

        // For each met end, the items taken from it are the first that it posted. If no item was taken, they are all.
        ensures prefixes { ArePrefixesOfMet self.new }
        ensures met_all_taken { IfNone result (AreMetFullyTaken self.new) }

        // After an item was taken, fewer items of the met ends are left than the capacity.
        ensures bound { IfSome result (λ item. MetEndsLeaveRoom self.new) }

        // For some schedule that leads to `self.old`, taking the item is the next step of the mailbox; without an item,
        // the next step finds nothing.
        ensures step { IfSome result (λ item. MakesStep (Takes item) self.old self.new) }
        ensures empty_step { IfNone result (MakesStep FindsEmpty self.old self.new) }
    {
        let Ok(item) = self.receiver.recv_as::<TakeStep, T>(rt, &mut self.pass) else {
            return None;
        };
        Some(item)
    }

    /// Meets a post end of this mailbox: consumes it, so that it posts nothing more.
    pub fn meet<T: Wait>(&mut self, _rt: &T, end: PostEnd)
        requires { end.mailbox ≡ self.old.mailbox }

        // The end counts as met, for the first time. Nothing is taken.
        ensures met { self.new ≡ after_meet end self.old }
        ensures newly_met { ¬ IsMet end.number self.old.met }
        ensures unchanged { (self.new.mailbox ≡ self.old.mailbox) × (self.new.taken ≡ self.old.taken) }

        // For each met end, the items taken from it are the first that it posted.
        ensures prefixes { ArePrefixesOfMet self.new }

        // Some schedule leads to the state that this end shows.
        ensures schedule { HasSchedule self.new }
    {
        let PostEnd {
            sender,
            pass,
            number,
        } = end;
        sender.absorb::<MeetStep>(&mut self.pass, pass);
        sender.learn_as::<TakeStep>(&mut self.pass);
        self.met[number as usize] = true;
    }

    /// Returns whether every post end of the mailbox was met.
    pub fn all_met(&self) -> bool
        ensures { (result ≡ true) ↔ AreAllMet self.now }
    {
        are_all_set(&self.met)
    }

    /// Takes the front item after all post ends were met. Returns `None` only if all that they posted was taken.
    #[tactic(auto, using(crate::proofs::Knowing::taking))]
    pub fn rest<T: Wait>(&mut self, rt: &T) -> Option<Item>
        requires { AreAllMet self.old }

        // An item was taken; or none was, and nothing has changed.
        ensures taken { IfSome result (λ item. self.new ≡ after_take item self.old) }
        ensures unchanged_if_none { IfNone result (self.new ≡ self.old) }
        ensures unchanged { (self.new.mailbox ≡ self.old.mailbox) × (self.new.met ≡ self.old.met) }

        // For each met end, the items taken from it are the first that it posted. If no item was taken, they are all.
        ensures prefixes { ArePrefixesOfMet self.new }
        ensures met_all_taken { IfNone result (AreMetFullyTaken self.new) }

        // If none was, every item that was taken came from a sender of this mailbox.
        ensures only_senders { IfNone result (AreFromSenders self.new) }

        // After an item was taken, fewer items of the met ends are left than the capacity.
        ensures bound { IfSome result (λ item. MetEndsLeaveRoom self.new) }

        // For some schedule that leads to `self.old`, taking the item is the next step of the mailbox; without an item,
        // the next step finds nothing.
        ensures step { IfSome result (λ item. MakesStep (Takes item) self.old self.new) }
        ensures empty_step { IfNone result (MakesStep FindsEmpty self.old self.new) }
    {
        let Ok(left) = self.receiver.try_recv_as::<TakeStep, T>(rt, &mut self.pass) else {
            return None;
        };
        Some(left)
    }
}

fn are_all_set(flags: &[bool]) -> bool
    ensures { result ≡ list_all (λ flag. flag) flags.now }
{
    flags.iter().all(|flag| *flag)
}
