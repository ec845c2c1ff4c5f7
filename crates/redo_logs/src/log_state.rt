use redo_line::StreamFault;

/// The state of a log.
#[derive(Clone, Copy, Debug, PartialEq, Eq)]
pub enum LogState {
    /// More entries may follow.
    Running,
    /// The log is complete.
    Ended,
    /// The log can't be completed, because its stream has this fault.
    Failed(StreamFault),
}
