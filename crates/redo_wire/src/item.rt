use redo_line::{Entries, Entry, StreamFault};

/// An item of the mailbox: a sender posts it about one of its streams.
#[derive(Debug, Drop)]
pub struct Item {
    /// The number of the sender.
    pub sender: u32,
    /// The number of the stream.
    pub stream: u32,
    pub what: What,
}

/// The content of an item, about its stream.
#[derive(Debug, Drop)]
pub enum What {
    /// One further entry.
    Line(Entry),
    /// Several further entries, in order.
    Lines(Entries),
    /// The end of the stream: no entry follows, and its log is complete.
    End,
    /// The fault of the stream: why it has no log.
    Fail(StreamFault),
}
