use crate::job::HtmlJob;
use redo_args::WordsFault;
use redo_args::html::{RedoLogHtml, help_text, read_arguments};
use redo_command::Program;
use std::alloc::{AllocError, Global};

/// The line that `--version` writes.
const VERSION: &str = "redo-log-html 0.2.0\n";

/// The program `redo-log-html`. It writes a page to the output file of its arguments, or else to standard output.
pub struct HtmlProgram;

impl Program for HtmlProgram {
    type Line = RedoLogHtml;

    type Job = HtmlJob;

    fn name(&self) -> &'static str {
        "redo-log-html"
    }

    fn version(&self) -> &'static str {
        VERSION
    }

    fn always_explains(&self) -> bool {
        true
    }

    fn line(&self) -> &RedoLogHtml {
        &RedoLogHtml
    }

    fn job(&self, alloc: Global, arguments: &[String]) -> Result<HtmlJob, WordsFault> {
        let job = read_arguments(alloc, arguments)?;
        Ok(HtmlJob { job })
    }

    fn help_text(&self, alloc: Global) -> Result<String, AllocError> {
        help_text(alloc)
    }
}
