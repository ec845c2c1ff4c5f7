//! Where a log is in the tree.

/// The surroundings of logs that are directly in one log, or of the logs of the requested targets.
#[derive(Clone, Copy)]
pub struct Level {
    /// The position of the log around, if there is one.
    pub position: Option<usize>,
    /// Whether this log is expanded when the page is opened.
    pub expanded: bool,
    /// The number of logs around.
    pub depth: usize,
}

/// A log that is open: it hasn't ended yet.
#[derive(Clone, Copy)]
pub struct OpenLog {
    pub position: usize,
    pub expanded: bool,
    /// The number of logs that are left of the group that the log is in, with this log. It is 0 if the log is in no group.
    pub left: usize,
}
