//! What is new in a build since a baseline, as a text: a line for each target that newly fails, each new warning or error, and each
//! fixed target.
//!
//! [`write_news`] writes the text, from the logs of both builds. `redo_compare` says what is new. Laws say which lines the text has, and
//! that it begins with `new` exactly if something is new or newly fails, so that a program needs only its beginning for its exit status.
//!
//! # Terms
//!
//! - *News*: the lines of the text, in three sections, of which the last has the fixed targets.
//! - *Section*: the lines of one kind. In each of them, targets are in the order in which their logs are opened.
#![tactic(auto)]

mod laws;
mod lines;
mod news;
mod section;
mod target;
mod writing;

pub use laws::{
    each_new_diagnostic_has_its_line, lines_are_told_apart, same_build_has_no_news,
    text_begins_with_new,
};
pub use news::write_news;
