//! Fixtures of tests, measurements and single calls: targets, their streams, readers that cut the
//! streams, and a writer that counts bytes; senders and a collector that drive a mailbox; the
//! text forms of entries, logs and items; cases of logs with their texts; and a gate that holds threads.
//!
//! A test iterates over a `static` table by reference and passes each case to a short function, because proofs grow faster
//! than functions. A `const` is rebuilt wherever it is named. Functions that own a table or readers, also outside tests,
//! should only create them and lend them out: each exit drops what it owns, and each drop is proved. This is why
//! `LogTable` and `Index` implement `Drop` by hand.
#![tactic(auto)]

pub mod cases;
mod counter;
pub mod gate;
mod items;
mod lines;
mod pair;
mod reads;
mod script;
mod streams;
mod targets;
mod texts;
mod traffic;

pub use counter::Counter;
pub use items::item_text;
pub use lines::line;
pub use pair::{Two, two_ended};
pub use reads::{Cut, cut_into_reads};
pub use script::{Answer, Script};
pub use streams::{Given, captured, cuts, reader, whole};
pub use targets::{entered, names_of};
pub use texts::{entry_text, logs_text};
pub use traffic::{Posting, Posts, exchange, rest};
