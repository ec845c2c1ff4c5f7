ghost use Rattle.std.specs.Prelude.{⊤, true, None};
ghost use Rattle.redo_view.specs.Expansion.{expansion};

use redo_args::Job;
use redo_command::{BaselineLogs, Index, OpenFacts, open_logs};
use redo_line::{Sink, TargetName};
use redo_logs::LogTable;
use redo_view::{FormFault, PlainText, Render};
use std::alloc::{AllocError, Global};
use std::marker::Model;

/// A job whose text is the plain text of the requested targets, with the job's options.
#[derive(Drop)]
pub struct TextJob {
    pub job: Job,
}

impl redo_command::Job for TextJob {
    type Facts = ();

    ghost are_facts = { λ text logs file index facts. ⊤ };

    ghost text = { λ text facts baseline logs requested. expansion logs text.job.options requested };

    ghost arguments = { λ text. text.job.targets };

    ghost baseline_dir = { λ text. None };

    fn dir(&self) -> &str {
        self.job.dir()
    }

    fn baseline(&self) -> Option<&str> {
        None
    }

    fn output(&self) -> Option<&str> {
        None
    }

    fn senders(&self, _facts: &()) -> u32 {
        self.job.senders()
    }

    fn capacity(&self) -> u32 {
        self.job.capacity()
    }

    fn targets(&self) -> &[Vec<u8>] {
        self.job.targets()
    }

    fn open<L: OpenFacts>(
        &self,
        alloc: Global,
        files: &L,
        index: &Index,
    ) -> Result<((), Vec<L::Log>), AllocError> {
        Ok(((), open_logs(alloc, files, index)?))
    }

    fn render<W: Sink>(
        &self,
        _facts: &(),
        _baseline: Option<&BaselineLogs>,
        alloc: Global,
        table: &LogTable,
        requested: &[TargetName],
        out: &mut W,
    ) -> Result<(), FormFault> {
        let text = PlainText {
            options: *self.job.options(),
        };
        text.render(alloc, table, requested, out)
    }
}
