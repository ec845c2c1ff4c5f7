//! What JSON says of a build: an object for each log that is opened, one in each line.
//!
//! # Design
//!
//! The definition is a value of the kit's `json`, and the bytes are the text that `json` prints of it. A theorem of `json` says that a
//! reader reads the object back.
//!
//! - A string of JSON can't have bytes that are not UTF-8, and some readers reject raw bytes and lone surrogates. Therefore a string
//!   has the text, in which U+FFFD replaces each piece that is no character. A member whose name ends with `_base64` has the exact
//!   bytes.
//! - `json` writes into memory. Here parts are written to a `Sink`. The text lines of a log are read from the table three times: for the
//!   texts, for the exact bytes, and for the diagnostics. So no object is held in memory. Of one log, the commands, the needs and a map of
//!   its diagnostics' keys are.
//! - Lines that are stored together are tested together. First, this shows of which `Kind` a log is. If all lines are UTF-8, none is read for
//!   exact bytes, and up to 64 KiB of them are joined in a buffer with their escapes, and are one write.
//! - A line is simple if it is UTF-8 without escapes, and without names of temporary files. Then no string of its diagnostic is tested for
//!   UTF-8, escapes or colours, and its key is no copy. The objects of such diagnostics are joined, and some 32 KiB of them are one write.
//! - The definition is a recursion over the tree of what is shown. The code iterates over the nodes of the outline.
//! - Base64 is encoded in chunks of 768 bytes, on the stack, and written as the text of any string is. No proof knows its alphabet.
//! - If there is a baseline, a log is compared before its object is written: `redo_compare` says of each diagnostic whether it is new, as a
//!   list of flags, which are iterated over with the diagnostics.
//! - Programs read numbers as doubles, so the law about reading has the premise that numbers are below 2^53.
#![tactic(auto)]

mod build;
mod changes;
mod diagnostics;
mod escape;
mod every;
mod exact;
mod field;
mod joined;
mod kind;
mod laws;
mod lines;
mod list;
mod log_lines;
mod names;
mod needs;
mod object;
mod part;
mod plain;
mod string;

pub use build::{BuildRequest, json_options, write_build};
pub use every::every_target;
pub use exact::write_base64;
pub use laws::{
    bytes_are_recovered, diagnostics_are_of_lines, each_log_has_one_object, json_is_utf8,
    needs_are_mentioned, new_are_in_new_lines, nothing_is_compared_without_baseline,
    numbers_are_exact, objects_are_of_logs, objects_are_read, parents_mention_their_targets,
    strings_are_utf8,
};
pub use string::write_string;
