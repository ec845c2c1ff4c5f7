//! The command line of `redo-log-new`: the job that its arguments describe, or why they describe none; and the help text.
mod job;
mod words;

pub use job::NewJob;
pub use words::{RedoLogNew, help_text, read_arguments};
