//! Events: the things that are shown, in order. How they look is no part of them.
//!
//! An event says whether a log is opened at it (`Opening`), although the state determines this: a form can't look ahead.
use redo_line::{How, TargetName};
use redo_logs::EntryRef;

/// Whether a line about a target opens the target's log.
#[derive(Clone, Copy, Debug, PartialEq, Eq)]
pub enum Opening {
    /// It doesn't: the target has no log, or mentions open no logs.
    NotOpened,
    /// The log with this number was opened before.
    OpenedBefore(u32),
    /// The log with this number is opened here: everything up to its `LogEnds` is in it.
    OpensHere(u32),
}

/// An event, with borrowed names and texts. The depth of an event is the number of open logs.
#[derive(Clone, Copy)]
pub enum EventRef<'a> {
    /// A requested target, whose log is opened here. Its depth is 0.
    Requested {
        name: &'a TargetName,
        opening: Opening,
    },
    /// A mention of another target, or of the log's own.
    Mentioned {
        depth: usize,
        pid: u32,
        how: How,
        name: &'a TargetName,
        opening: Opening,
    },
    /// Any other entry.
    EntryShown {
        depth: usize,
        entry: EntryRef<'a>,
    },
    /// The end of the log that was opened last. Its entries have this depth.
    LogEnds {
        depth: usize,
    },
}
