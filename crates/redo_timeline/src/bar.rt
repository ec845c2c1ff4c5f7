//! A bar of the timeline.

/// The bar of one span, or of several that are too narrow to be drawn apart.
#[derive(Clone, Copy, Debug, PartialEq, Eq)]
pub struct Bar {
    /// The lane, counted from 0.
    pub lane: usize,
    /// Its beginning, in units from the left.
    pub x: u64,
    /// How wide it is drawn, in units: at least 10, or 30 if its target failed.
    pub width: u64,
    /// The position of its first span.
    pub position: usize,
    /// The number of its spans.
    pub count: usize,
    /// When its first span began, in milliseconds.
    pub began: u64,
    /// When the last of its spans ended, in milliseconds.
    pub ended: u64,
    /// Whether its target failed.
    pub failed: bool,
}
