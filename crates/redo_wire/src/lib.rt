//! A bounded mailbox: each sender posts items at its own end, and one collector takes them.
//!
//! There is one post end per sender and one take end. A post end is modelled as its number and the items that it posted; the
//! take end as the items that it took, and the ends that it met with the items of each.
//!
//! # The machine
//!
//! The machine (`Machine`) has five kinds of step: an item is put at the back, the front is taken, nothing is found, an end is
//! split off, an end is met. For example:
//!
//!               at first       B2 is posted     the front is taken
//!     posted 0  A0 A1 A2       A0 A1 A2         A0 A1 A2
//!     posted 1  B0 B1          B0 B1 B2         B0 B1 B2
//!     queued    B1 A2          B1 A2 B2         A2 B2
//!     taken     A0 B0 A1       A0 B0 A1         A0 B0 A1 B1
//!
//! A state is valid if the items that each end posted are those taken from it followed by those queued, there are no other
//! items, and the queue fits the capacity. Each step keeps the state valid ([`steps_preserve_validity`]).
//!
//! Steps that move no item are of three kinds. With one kind, a mailbox could find nothing while it holds items.
//!
//! An item may have many entries: passing one costs a thread about as much as reading several lines.
//!
//! # What no clause states
//!
//! No clause states that a call ends; an order between senders; when `post` returns its item; that there is an item while no end
//! was met; that `open` and `meet` are steps of the machine, and that two calls have one schedule (`mailbox.rt` says why). A
//! dropped end is never met: `all_met` stays false, and `rest` may not be called. A `post` that always returns its item would
//! meet its clauses. `mailbox.rt` of the tests shows that items arrive. Only `open` allocates, and may be called again after it
//! failed: `tests/allocation_failures`.
//!
//! No mutant of `take`, `rest` or `meet` alone makes `bound`, `prefixes` or `newly_met` false. Only a wrong `open` changes the
//! contents of the channel and which ends exist.
#![tactic(auto)]

mod item;
mod laws;
mod mailbox;
mod rule;

pub use item::{Item, What};
pub use laws::{
    room_for_any, room_for_one, step_preconditions, steps_are_deterministic, steps_exist,
    steps_preserve_validity,
};
pub use mailbox::{PostEnd, TakeEnd, open};
