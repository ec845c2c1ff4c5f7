use crate::job::BuildJob;
use redo_args::WordsFault;
use redo_args::json::{RedoLogJson, help_text, read_arguments};
use redo_command::Program;
use std::alloc::{AllocError, Global};

/// The line that `--version` writes.
const VERSION: &str = "redo-log-json 0.2.0\n";

/// The program `redo-log-json`. It writes JSON to the output file of its arguments, or else to standard output.
pub struct JsonProgram;

impl Program for JsonProgram {
    type Line = RedoLogJson;

    type Job = BuildJob;

    fn name(&self) -> &'static str {
        "redo-log-json"
    }

    fn version(&self) -> &'static str {
        VERSION
    }

    fn always_explains(&self) -> bool {
        true
    }

    fn line(&self) -> &RedoLogJson {
        &RedoLogJson
    }

    fn job(&self, alloc: Global, arguments: &[String]) -> Result<BuildJob, WordsFault> {
        let job = read_arguments(alloc, arguments)?;
        Ok(BuildJob { job })
    }

    fn help_text(&self, alloc: Global) -> Result<String, AllocError> {
        help_text(alloc)
    }
}
