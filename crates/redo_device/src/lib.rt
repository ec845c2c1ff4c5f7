//! The devices that logs are read from and the text is written to: readers and writers of bytes.
//!
//! The crates above rely on this: a [`Feed`] gives the bytes that are known of it, and a [`Sink`] takes as many bytes
//! as it returns. [`push_all`] is the only loop over a sink's writes. Contracts describe a device by its known stream
//! or output (`tells`). The wrappers of std's readers and writers are opaque. [`Pieces`] and [`Taker`] are in memory,
//! and everything is known of them.
#![tactic(auto)]

mod failures;
mod feed;
mod pieces;
mod reading;
mod sink;
mod taker;
mod writing;

pub use feed::{Broken, Feed};
pub use pieces::Pieces;
pub use reading::Reading;
pub use sink::{Sink, push_all};
pub use taker::Taker;
pub use writing::Writing;
