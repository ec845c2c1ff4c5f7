ghost use Rattle.std.specs.Prelude.{◌≡◌};
ghost use Rattle.redo_logs.specs.EntryRef.{entry_value};

use redo_line::{Entry, How, TargetName};

/// An entry of a log, with borrowed names and texts. It has the same variants as [`Entry`].
#[derive(Clone, Copy, Debug)]
pub enum EntryRef<'a> {
    /// A text line, without its line feed.
    Text(&'a [u8]),
    /// A mention of another target, or of the log's own.
    Mention {
        pid: u32,
        how: How,
        name: &'a TargetName,
    },
    /// Another target is done, with this status.
    Done {
        pid: u32,
        status: i32,
        name: &'a TargetName,
    },
    /// The closing record: the log's own target is done, with this status.
    Closing {
        pid: u32,
        status: i32,
    },
    /// A record of any other kind.
    Note {
        pid: u32,
        kind: &'a [u8],
        text: &'a [u8],
    },
}

impl<'a> EntryRef<'a> {
    /// Borrows an entry.
    pub fn of(entry: &'a Entry) -> EntryRef<'a>
        ensures { entry_value result ≡ entry.now }
    {
        match entry {
            Entry::Text(line) => EntryRef::Text(line.bytes()),
            Entry::Mention { pid, how, name } => EntryRef::Mention {
                pid: *pid,
                how: *how,
                name,
            },
            Entry::Done { pid, status, name } => EntryRef::Done {
                pid: *pid,
                status: *status,
                name,
            },
            Entry::Closing { pid, status } => EntryRef::Closing {
                pid: *pid,
                status: *status,
            },
            Entry::Note { pid, kind, text } => EntryRef::Note {
                pid: *pid,
                kind: kind.bytes(),
                text: text.bytes(),
            },
        }
    }
}
