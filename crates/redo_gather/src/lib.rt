//! From streams to logs: each stream is read to its end or its fault, and its entries are stored in a table.
//!
//! The crates above rely on this: [`gather`] and [`gather_plain`] return the logs of whole streams, or the
//! fault of the lowest-numbered stream that has one. [`gather`] reads the streams in parallel, by senders in
//! their own threads; [`gather_plain`] reads them on the calling thread.
//!
//! All names are entered into the table first, so the number of a log is the position of its name. [`gather_plain`] reads one
//! stream after another and stops at the first fault. [`gather`] distributes the streams round-robin and starts no sender
//! without a stream. A sender reads a chunk (`reading.rt`), posts its entries (`poster.rt`), then the stream's end or its
//! fault, and continues with the next stream (`sending.rt`). The calling thread starts the senders (`gathering.rt`), and stores
//! their items (`collector.rt`).
//!
//! # Why the table is right
//!
//! A joined thread has fulfilled its `Promise` (`SenderPromise`): it posted what is expected for each stream of its share
//! (`AreExpected`). That is all entries and an end; or all entries before the fault, and the fault; or some of the first entries,
//! and out of memory. When all ends are met and nothing is left, the items taken from each sender are all that it posted. Only
//! items of its stream change a log, however the streams interleave (`InterleavingLemmas`), and one sender posts all of them
//! (`SharesLemmas`). Therefore each log is the log of its stream (`AreSettled`).
//!
//! # What no clause states
//!
//! A sender posts what a read completes before it reads again, in as few items as possible. An item ends with the lines,
//! consumed together, by which its texts and names reach 131,072 bytes: `send.rt` of the tests. An opaque reader gives *some*
//! stream, so the clauses allow calling it again after a failed read or an end. Counting readers in `gather.rt` and `run.rt`
//! show how often a reader is called, also after a failed read, an end or another stream's fault. The clauses allow
//! [`gather_plain`] to call readers after the first fault.
//!
//! No clause says that two threads ever run at once, or that a sender posts before it reads on: a [`gather`] that reads all
//! streams itself would meet them. None mentions the gate, which is for tests. `gather.rt`, whose head says how, `send.rt` and
//! `run.rt` show all this.
//!
//! These would meet their clauses and block senders forever on a full mailbox: a `LogCollector::take` that takes nothing, or
//! nothing once memory ran out, and a `run_next_sender` that doesn't take if a thread can't be started. Every test with more
//! items than the capacity shows the first; `tests/allocation_failures`, with capacity 1 and a time limit, shows the others.
#![tactic(auto)]

mod collector;
mod flags;
mod gate;
mod gather_fault;
mod gathering;
mod laws;
mod one_stream;
mod plain;
mod poster;
mod reading;
mod sender;
mod sending;
mod storing;

pub use gate::{Free, Gate};
pub use gather_fault::GatherFault;
pub use gathering::gather;
pub use laws::{
    expected_for_share, expected_for_stream, items_for_share, known_streams_decide,
    logs_unless_fault,
};
pub use plain::gather_plain;
pub use redo_options::{Plan, PlanFault};
pub use sending::{Share, send};
