//! The program `redo-log`, generic over readers and writers.
//!
//! [`command`] is the program: it reads the command-line arguments and a capture directory, and writes
//! the text. [`fault_line`] and [`status`] return the error message and the exit status of a failure.
//! The crate re-exports the index, the run, the arguments, and what commands share, which it builds on. The contract of
//! [`write_job`] states the text that is written of a [`TextJob`].
#![tactic(auto)]

mod job;
mod message;
mod program;

pub use job::TextJob;
pub use message::fault_line;
pub use program::{TextProgram, command};
pub use redo_args::{Job, WordsFault, help_text, read_words};
pub use redo_command::{
    Failure, LogFile, LogFiles, MAX_BYTES, OpenLog, Output, RegularLogFiles, Shown, buffered,
    close_output, create_output, exit_status, fault_line_as, find_index, flush_after, open_logs,
    print, process_arguments, read_names, report_before_run_as, requests_version, run_process,
    status, write_job, write_logs,
};
pub use redo_index::{Index, IndexFault, index_result_is_unique, read_index};
pub use redo_run::{RunFault, run, run_as, run_has_a_result};
