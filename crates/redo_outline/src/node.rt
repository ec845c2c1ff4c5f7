//! The facts about a log that is opened.
//!
//! It says how long its target took, and when it ended, if `set_times` was called. `Outline::new` can't know this, because
//! entries have no times. `Outline::without_warnings` leaves both
//! numbers of warnings 0.

/// The facts about a log that is opened, and about the logs in it. A count that exceeds 2^64 - 1 is 2^64 - 1.
#[derive(Clone, Copy, Debug, PartialEq, Eq)]
pub struct Node {
    /// The number of the log.
    pub number: u32,
    /// The position of the log that contains it. The log of a requested target is in none.
    pub parent: Option<usize>,
    /// The status of the target, as its log says, or else as another log says that is shown.
    pub status: Option<i32>,
    /// The number of text lines.
    pub lines: u64,
    /// The number of bytes of the text lines, with their line feeds.
    pub bytes: u64,
    /// The number of text lines that contain `warning:`.
    pub warnings: u64,
    /// The number of logs that are opened in it, at any depth.
    pub below: usize,
    /// The number of logs that are opened directly in it.
    pub children: usize,
    /// Whether anything but logs is visible directly in it.
    pub others: bool,
    /// The number of warnings of all logs that are opened in it.
    pub warnings_below: u64,
    /// Whether the target of a log that is opened in it failed.
    pub fails_below: bool,
    /// The number of silent logs in a row that begins with this one. It is 0 if this one isn't silent.
    pub silent: usize,
    /// How long the target took, in milliseconds, if it was set ([`Outline::set_times`](crate::Outline::set_times)).
    pub took: Option<u64>,
    /// When the target ended, in milliseconds since 1970, if it was set.
    pub ended: Option<u64>,
}

/// When a target ran, as far as this is known.
#[derive(Clone, Copy, Debug, PartialEq, Eq)]
pub struct RunTimes {
    /// How long the target took, in milliseconds.
    pub took: Option<u64>,
    /// When the target ended, in milliseconds since 1970.
    pub ended: Option<u64>,
}
