//! The command line of `redo-log-json`: the job that its arguments describe, or why they describe none; and the help text.
mod job;
mod words;

pub use job::JsonJob;
pub use words::{RedoLogJson, help_text, read_arguments};
