use crate::line_text::LineText;
use redo_name::TargetName;

/// How a record mentions a target. Each value is one kind of record.
#[derive(Clone, Copy, Debug, PartialEq, Eq)]
pub enum How {
    /// `do`: the target is built.
    Made,
    /// `waiting`: another process builds the target, and the process of this record waits for it.
    Waiting,
    /// `locked`: another process had locked the target.
    Locked,
    /// `unlocked`: no other process locks the target any more.
    Unlocked,
    /// `unchanged`: the target did not need to be built.
    Unchanged,
}

/// The entry of a line of a log. Names are resolved to their normal forms, and `pid` is the pid in the record.
/// docs/format.md has the rules.
#[derive(Debug, Drop)]
pub enum Entry {
    /// A line that is not a record, unchanged.
    Text(LineText),
    /// The line mentions a target: another one, or the log's own.
    Mention {
        pid: u32,
        how: How,
        name: TargetName,
    },
    /// Another target is done, with this status.
    Done {
        pid: u32,
        status: i32,
        name: TargetName,
    },
    /// The log's own target is done, which closes the log.
    Closing {
        pid: u32,
        status: i32,
    },
    /// A record of any other kind.
    Note {
        pid: u32,
        kind: LineText,
        text: LineText,
    },
}
