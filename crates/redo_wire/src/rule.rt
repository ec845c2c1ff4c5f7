//! The rule of the mailbox: the knowledge of its passes, and the steps that they take.
//!
//! Each caller of the channel holds a *pass*, a token without bytes. Its ghost view is the knowledge of its holder (`View`):
//! for a post end, its number and the items that it posted; for the take end, the items that it took and the ends that it met.
//! The rule (`Invariant`) says that a schedule of the machine leads to a state with this queue, and that every view is true of
//! it. Each call is one step, and is allowed only if it keeps the rule for any items in the channel and any views of the
//! others; a lemma says so for each (`Moves`). For each met end, the items taken and queued are all that it posted. A take
//! knows from this that the items taken are a prefix of those posted, and all of them if the channel is empty. Items of
//! different senders have no known order.
//!
//! A rule is a type and can't name the numbers of a run. The first pass learns them by a step that is generic in a type
//! with these ghosts (`InitStep`).
ghost use Rattle.std.specs.Prelude.{ℕ};

use crate::item::Item;
use crossbeam_channel::protocol::{Join, Lesson, Outcome, Protocol, Split};
use std::collections::LinkedList;
use std::marker::{Brand, PhantomData};

// The knowledge of a pass. No value of this type is ever made.
pub enum View {
    // Nothing.
    Idle,
    // That the mailbox is new.
    Starting,
    // The items that the end of this number posted.
    Posting {
        capacity: u32,
        senders: u32,
        number: u32,
        put: LinkedList<Item>,
    },
    // The items taken, how many post ends were made, and the met ends with the items of each.
    Taking {
        capacity: u32,
        senders: u32,
        made: u32,
        got: LinkedList<Item>,
        met: LinkedList<(u32, LinkedList<Item>)>,
    },
}

pub struct MailboxProtocol;

impl Protocol<Item, View> for MailboxProtocol {
    ghost use Rattle.redo_wire.specs.declared.rule.View.TheVariants.{Starting};
    ghost use Rattle.redo_wire.specs.Private.Rule.{Invariant};

    ghost holds = { Invariant };

    ghost first = { Starting };
}

// The capacity and the number of senders of a mailbox, which are known once it is created.
pub trait Size {
    ghost capacity: { ℕ };

    ghost senders: { ℕ };
}

impl Size for Brand {
    ghost capacity = { 0 };

    ghost senders = { 0 };
}

// The step that gives the mailbox these numbers, before a post end is made.
pub struct InitStep<S>(PhantomData<S>);

impl<S: Size> Split<View> for InitStep<S> {
    ghost use Rattle.std.specs.Prelude.{[]};
    ghost use Rattle.redo_wire.specs.declared.rule.View.TheVariants.{Idle, Taking};

    ghost left = { λ view. Taking S.capacity S.senders 0 [] [] };

    ghost right = { λ view. Idle };
}

// The step that splits off another post end.
pub struct AddEndStep;

impl Split<View> for AddEndStep {
    ghost use Rattle.redo_wire.specs.Private.Rule.{with_one_made, next_end};

    ghost left = { with_one_made };

    ghost right = { next_end };
}

// The step that meets a post end.
pub struct MeetStep;

impl Join<View> for MeetStep {
    ghost use Rattle.redo_wire.specs.declared.rule.View.TheVariants.{Idle};
    ghost use Rattle.redo_wire.specs.Private.Rule.{with_met};

    ghost both = { with_met };

    ghost spent = { Idle };
}

// A post: a step of the machine puts the item at the back.
pub struct PutStep;

impl Outcome<Item, View> for PutStep {
    ghost use Rattle.std.specs.Prelude.{◌≡◌};
    ghost use Rattle.redo_wire.specs.Private.Rule.{KnowsPost, with_put};

    ghost then = { λ before item after. (after ≡ with_put item before) × KnowsPost before item after };
}

impl Lesson<Item, View> for PutStep {
    ghost use Rattle.std.specs.Prelude.{⊤};

    ghost fact = { λ view items. ⊤ };
}

// A take: either a step of the machine takes the front, and the outcome states facts about the met ends; or nothing is
// found, and the lesson states such facts.
pub struct TakeStep;

impl Outcome<Item, View> for TakeStep {
    ghost use Rattle.std.specs.Prelude.{◌≡◌};
    ghost use Rattle.redo_wire.specs.Private.Rule.{KnowsMet, KnowsStep, with_got};

    ghost then = { λ before item after. (after ≡ with_got item before) × KnowsMet after × KnowsStep before item after };
}

impl Lesson<Item, View> for TakeStep {
    ghost use Rattle.redo_wire.specs.Private.Rule.{KnowsOf};

    ghost fact = { KnowsOf };
}
