//! Bytes in, entries out: splits bytes into lines, reads the records among them, and scans streams.
//!
//! A [`Scan`] gives the entries of a stream, or its fault and the entries before the fault, however
//! the stream is divided into chunks. A [`Cutter`] gives only the lines of all bytes that it
//! consumed, and [`read_line`] gives the entry of one line. Devices and names are re-exported from
//! `redo_device` and `redo_name`.
#![tactic(auto)]

mod cutter;
mod decimal;
mod entries;
mod entry;
mod find;
mod history;
mod laws;
mod leading_text;
mod line;
mod line_text;
mod partial_line;
mod progress;
mod record;
mod resolver;
mod scan;
mod split_once;
mod stream_fault;
mod timed;

pub use cutter::{Cut, Cutter};
pub use decimal::read_number;
pub use entries::{Entries, EntryAt, Layout};
pub use entry::{Entry, How};
pub use laws::{
    closing_record_is_last, early_fault_is_final, entries_are_final, entry_is_sound_and_complete,
    failed_read_is_the_fault, first_faulty_line, one_entry_per_line, record_has_one_parse,
    splitting_is_incremental, splitting_is_unique, unflagged_log_may_end_anywhere,
};
pub use line::{LineFault, read_line};
pub use line_text::LineText;
pub use record::read_status;
pub use redo_device::{Broken, Feed, Pieces, Reading, Sink, Taker, Writing, push_all};
pub use redo_name::{HashKeys, NameFault, TargetName};
pub use scan::{Scan, Step};
pub use split_once::split_at_first;
pub use stream_fault::StreamFault;
pub use timed::{Timed, read_timed};
