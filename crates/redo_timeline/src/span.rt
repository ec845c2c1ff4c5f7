//! The input of a timeline: spans and a window.

/// The time from when a target began to when it ended. Spans are ordered by when they began, then by position.
#[derive(Clone, Copy, Debug, PartialEq, Eq, PartialOrd, Ord)]
pub struct Span {
    /// When the target began, in milliseconds.
    pub began: u64,
    /// Which target it is. Two spans may have the same position.
    pub position: usize,
    /// When the target ended, in milliseconds.
    pub ended: u64,
    /// Whether the target failed.
    pub failed: bool,
}

/// The time that a timeline shows, over its whole width.
#[derive(Clone, Copy, Debug, PartialEq, Eq)]
pub struct Window {
    /// When it begins, in milliseconds.
    pub began: u64,
    /// How long it is, in milliseconds: from 1 to 2^44 - 1.
    pub width: u64,
}
