ghost use Rattle.std.specs.Prelude.{◌≡◌, true, None, Some, option_copied};
ghost use Rattle.std.specs.List.{list_all};
ghost use Rattle.redo_logs.specs.Logs.{has_ended};
ghost use Rattle.redo_view.specs.Form.{FormWrites};
ghost use Rattle.redo_view.specs.View.{find_unknown};
ghost use Rattle.redo_log_new.specs.Job.{job_news};

use redo_args::new::NewJob;
use redo_command::{BaselineLogs, Index, Job, OpenFacts, open_logs};
use redo_json::every_target;
use redo_line::{HashKeys, Sink, TargetName};
use redo_logs::LogTable;
use redo_new::write_news;
use redo_view::FormFault;
use std::alloc::{AllocError, Global};

/// The capacity of the mailbox. There is no option for it. No byte of the text depends on it.
const CAPACITY: u32 = 64;

/// A job whose text is what is new in the logs of the requested targets, or of every listed target, since its baseline.
#[derive(Drop)]
pub struct NewsJob {
    pub job: NewJob,
}

impl Job for NewsJob {
    /// The keys with which diagnostics are hashed.
    type Facts = HashKeys;

    ghost are_facts = { λ news logs file index keys. Unit {0} };

    ghost text = { λ news keys baseline. job_news news.job baseline };

    ghost arguments = { λ news. news.job.targets };

    ghost baseline_dir = { λ news. Some news.job.baseline };

    fn dir(&self) -> &str {
        self.job.dir()
    }

    fn baseline(&self) -> Option<&str> {
        Some(self.job.baseline())
    }

    fn output(&self) -> Option<&str> {
        self.job.output()
    }

    fn senders(&self, _keys: &HashKeys) -> u32 {
        self.job.senders()
    }

    fn capacity(&self) -> u32 {
        CAPACITY
    }

    fn targets(&self) -> &[Vec<u8>] {
        self.job.targets()
    }

    fn open<L: OpenFacts>(
        &self,
        alloc: Global,
        files: &L,
        index: &Index,
    ) -> Result<(HashKeys, Vec<L::Log>), AllocError> {
        Ok((index.keys(), open_logs(alloc, files, index)?))
    }

    fn render<W: Sink>(
        &self,
        keys: &HashKeys,
        baseline: Option<&BaselineLogs>,
        alloc: Global,
        table: &LogTable,
        requested: &[TargetName],
        out: &mut W,
    ) -> Result<(), FormFault> {
        match baseline {
            // Each job asks for a baseline.
            None => Ok(()),
            Some(baseline) => {
                let earlier = baseline.table();
                write_of_targets(&self.job, *keys, earlier, alloc, table, requested, out)
            }
        }
    }
}

// Writes what is new in the logs of the requested targets, or of every listed target.
fn write_of_targets<W: Sink>(
    job: &NewJob,
    keys: HashKeys,
    earlier: &LogTable,
    alloc: Global,
    table: &LogTable,
    requested: &[TargetName],
    out: &mut W,
) -> Result<(), FormFault>
    requires earlier_ended { list_all has_ended earlier.now ≡ true }
    requires ended { list_all has_ended table.now ≡ true }
    requires known { find_unknown table.now requested.now ≡ None }
    ensures { FormWrites (W.written out.old) (W.written out.new) (job_news job.now (Some earlier.now) table.now requested.now) result }
{
    let unchanged = job.unchanged();
    if job.every() {
        let targets = every_target(alloc, table, requested)?;
        write_news(alloc, keys, earlier, table, unchanged, &targets, out)
    } else {
        write_news(alloc, keys, earlier, table, unchanged, requested, out)
    }
}
