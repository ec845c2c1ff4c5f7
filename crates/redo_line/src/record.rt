//! Reads records. `IsRecord` is a relation: the line is its parts, joined, and each part has its form. The function cuts at
//! the first `:`, the next `:` and the first `@` after them, and so does this file. The law `entry_is_sound_and_complete`
//! says that the function gives an entry exactly if the relation has one, and the same one.
ghost use Rattle.std.specs.Prelude.{◌≡◌, ◌≢◌, ◌<◌, [], None, Some, IfSome, IfNone, length, option_map};
ghost use Rattle.std.specs.List.{list_all};
ghost use Rattle.redo_line.specs.Decimal.{are_digits};
ghost use Rattle.redo_line.specs.Private.Record.{parts_of, pid_of};
ghost use Rattle.redo_line.specs.Record as spec;

use crate::decimal::{are_digits, read_number};
use crate::entry::How;
use crate::split_once::split_at_first;

// The names of the kinds. A record of any other kind is a note.
const DO: &[u8] = b"do";

const WAITING: &[u8] = b"waiting";

const LOCKED: &[u8] = b"locked";

const UNLOCKED: &[u8] = b"unlocked";

const UNCHANGED: &[u8] = b"unchanged";

const DONE: &[u8] = b"done";

/// How the text of a record is read.
#[derive(Clone, Copy)]
pub enum Kind {
    Mention(How),
    Done,
    Note,
}

/// The parts of a record from which an entry is made.
#[derive(Clone, Copy)]
pub struct Fields<'a> {
    pub kind: &'a [u8],
    pub pid: u32,
    pub time: &'a [u8],
    pub text: &'a [u8],
}

// Reads a record from the bytes after the record prefix.
pub fn read_fields(bytes: &[u8]) -> Option<Fields<'_>>
    ensures some { IfSome result (λ read. option_map parts_of (spec.fields_of bytes.now) ≡ Some (read.kind.now, read.pid, read.text.now)) }
    ensures time { IfSome result (λ read. option_map (λ fields. fields.time) (spec.fields_of bytes.now) ≡ Some read.time.now) }
    ensures none { IfNone result (spec.fields_of bytes.now ≡ None) }
{
    let (kind, rest) = split_at_first(b':', bytes)?;
    let (pid, rest) = split_at_first(b':', rest)?;
    let (time, rest) = split_at_first(b'@', rest)?;
    let text = rest.strip_prefix(b"@ ")?;
    let number = read_pid(pid)?;
    if is_kind(kind) && is_time(time) {
        Some(Fields {
            kind,
            pid: number,
            time,
            text,
        })
    } else {
        None
    }
}

fn is_kind(kind: &[u8]) -> bool
    ensures { result ≡ spec.is_kind kind.now }
{
    !kind.is_empty() && are_kind_bytes(kind)
}

fn are_kind_bytes(bytes: &[u8]) -> bool
    ensures { result ≡ list_all spec.is_kind_byte bytes.now }
{
    bytes.iter().all(|&byte| is_kind_byte(byte))
}

fn is_kind_byte(byte: u8) -> bool
    ensures { result ≡ spec.is_kind_byte byte }
{
    byte.is_ascii_lowercase() || byte == b'-' || byte == b'_'
}

// Returns the value of a pid: one to ten digits whose value fits a `u32`.
fn read_pid(pid: &[u8]) -> Option<u32>
    ensures { result ≡ pid_of pid.now }
{
    let number = read_number(10, pid)?;
    u32::try_from(number).ok()
}

fn is_time(time: &[u8]) -> bool
    ensures { result ≡ spec.is_time time.now }
{
    match split_at_first(b'.', time) {
        Some((seconds, fraction)) => are_digits(20, seconds) && are_digits(9, fraction),
        None => are_digits(20, time),
    }
}

// Returns how the text of a record is read, by the name of its kind.
pub fn kind_of(name: &[u8]) -> Kind
    ensures { result ≡ spec.kind_of name.now }
{
    if name == DO {
        Kind::Mention(How::Made)
    } else if name == WAITING {
        Kind::Mention(How::Waiting)
    } else if name == LOCKED {
        Kind::Mention(How::Locked)
    } else if name == UNLOCKED {
        Kind::Mention(How::Unlocked)
    } else if name == UNCHANGED {
        Kind::Mention(How::Unchanged)
    } else if name == DONE {
        Kind::Done
    } else {
        Kind::Note
    }
}

/// Returns the value of a status: one to nine digits, optionally after a `-`. Returns `None` if the bytes are anything
/// else.
pub fn read_status(status: &[u8]) -> Option<i32>
    ensures { result ≡ spec.status_of status.now }
{
    match status.strip_prefix(b"-") {
        Some(digits) => match read_number(9, digits) {
            Some(value) => Some(-(value as i32)),
            None => None,
        },
        None => match read_number(9, status) {
            Some(value) => Some(value as i32),
            None => None,
        },
    }
}
