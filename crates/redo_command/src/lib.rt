//! The parts that the commands share: arguments of the process, the files of a capture directory, the output, failures,
//! error messages and exit statuses.
//!
//! A command has a [`Program`], with its command line, and a [`Job`]: what it reads and writes. [`run_program`] does the rest: it reads
//! the index of a directory by [`find_index`] and writes a text of its logs by [`write_logs`], over [`LogFiles`] and through
//! [`buffered`], or to a file by [`create_output`]. It ends with [`text_status`], which reports a [`Failure`], or with
//! [`print_help`]. [`explain_shown`] and [`explain_fault`] write what to do about a failure.
//!
//! Files are opaque, so [`write_job`] is generic over logs and a writer: its contract states the text that is written.
#![tactic(auto)]

mod baseline;
mod baseline_fault;
mod buffer;
mod directory;
mod error_keeper;
mod explanation;
mod facts;
mod failure;
mod first_byte;
mod first_reading;
mod job;
mod laws;
mod log_file;
mod logs;
mod message;
mod names_file;
mod output;
mod process;
mod program;
mod remedy;
mod reports;
mod suggestions;
mod text;

pub use baseline::{BaselineFiles, BaselineLogs, open_baseline, read_baseline};
pub use baseline_fault::BaselineFault;
pub use buffer::{buffered, flush_after};
pub use directory::{Shown, find_index};
pub use error_keeper::{ErrorKeeper, WriteError};
pub use explanation::{
    explain_arguments_as, explain_fault, explain_shown, explanation_as, fault_explanation_as,
    outcome_explanation_as,
};
pub use facts::{BuildFacts, read_build_facts, read_recipe_facts};
pub use failure::{Failure, status};
pub use first_byte::FirstByte;
pub use job::{Job, show_job, write_job};
pub use laws::{baseline_fails_last, suggestions_are_listed_targets};
pub use log_file::{LogFile, LogFiles, RegularLogFiles};
pub use logs::{OpenFacts, OpenLog, open_logs, write_logs};
pub use message::fault_line_as;
pub use names_file::{MAX_BYTES, read_names};
pub use output::{Output, close_output, create_output};
pub use process::{command_arguments, explains, process_arguments, requests_version};
pub use program::{Program, run_process, run_process_with, run_program, run_program_with};
pub use redo_args::WordsFault;
pub use redo_index::Index;
pub use redo_run::RunFault;
pub use reports::{exit_status, print, print_help, report_before_run_as, text_status};
