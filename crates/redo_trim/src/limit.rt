//! Limits of logs, and how a text line is shown.
//!
//! A limit is two numbers: where the head of a log ends and where its tail begins. How a line is shown depends only on its
//! own bytes and on the bytes before it, so the events are walked once. A caller has to know how long the logs are to set
//! limits; a page takes this from its outline. A count that is saturated at 2^64 - 1 decides as the exact count does, because
//! a tail begins before that (`FitsInto64Bits`). The laws about lines use the exact count.
ghost use Rattle.std.specs.Prelude.{◌≡◌, ◌<◌};
ghost use Rattle.redo_trim.specs.Trim.{showing_of};

/// How much of a log is shown, in bytes of its text lines with their line feeds.
#[derive(Clone, Copy)]
pub struct Limit {
    /// The lines that end within this many bytes are the log's head. They are shown.
    pub head: u64,
    /// The lines that begin at this byte or after it are the log's tail. They are shown. With 0, all lines are.
    pub tail: u64,
}

/// The facts about a log that is open.
#[derive(Clone, Copy)]
pub struct Gauge {
    pub limit: Limit,
    /// The number of bytes of its text lines so far, with their line feeds. It is 2^64 - 1 if there were more.
    pub seen: u64,
}

/// How a text line is shown.
#[derive(Clone, Copy)]
pub enum Showing {
    /// The line itself.
    Whole,
    /// The marker: the line is the first one that is left out.
    Marker,
    Nothing,
}

/// Returns how the next text line of a log is shown. `size` is its number of bytes with the line feed.
pub fn showing_of(gauge: Gauge, size: u64) -> Showing
    requires { 0 < size }
    ensures { result ≡ showing_of gauge size }
{
    if gauge.limit.tail <= gauge.seen {
        return Showing::Whole;
    }
    if gauge.seen > gauge.limit.head {
        return Showing::Nothing;
    }
    if size <= gauge.limit.head - gauge.seen {
        Showing::Whole
    } else {
        Showing::Marker
    }
}
