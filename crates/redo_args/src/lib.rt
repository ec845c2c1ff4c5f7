//! The command lines of the four programs: the job that arguments describe, or why they describe none; and the help text. This
//! module has the command line of `redo-log`, and [`html`], [`json`] and [`new`] have one each. All of them share the options in
//! `arguments`, the parser, and [`explain_rejection`], which says why arguments are rejected.
//!
//! The crate depends only on `clap` and `redo_options`, and is proved while the first crates are. As a part of the command, it
//! made every process that proves the command load `clap`'s contracts.
#![tactic(auto)]

mod arguments;
pub mod html;
mod job;
pub mod json;
pub mod new;
mod parsing;
mod rejection;
mod words;
mod words_fault;

pub use job::Job;
pub use rejection::{CommandLine, explain_rejection, fault_in};
pub use words::{RedoLog, help_text, read_arguments, read_words};
pub use words_fault::WordsFault;
