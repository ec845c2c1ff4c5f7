//! The command line of `redo-log-html`: the job that its arguments describe, or why they describe none; and the help text.
mod job;
mod words;

pub use job::PageJob;
pub use words::{RedoLogHtml, help_text, read_arguments};
