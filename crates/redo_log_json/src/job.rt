ghost use Rattle.std.specs.Prelude.{◌≡◌, true, None, option_copied};
ghost use Rattle.std.specs.List.{list_all};
ghost use Rattle.redo_command.specs.Facts.{AreBuildFacts};
ghost use Rattle.redo_logs.specs.Logs.{has_ended};
ghost use Rattle.redo_view.specs.Form.{FormWrites};
ghost use Rattle.redo_view.specs.View.{find_unknown};
ghost use Rattle.redo_json.specs.Build.{request_of};
ghost use Rattle.redo_log_json.specs.Request.{job_json, json_of_targets, request_for};

use redo_args::json::JsonJob;
use redo_command::{BaselineLogs, BuildFacts, Index, Job, OpenFacts, read_build_facts};
use redo_compare::Baseline;
use redo_json::{BuildRequest, every_target, json_options, write_build};
use redo_line::{Sink, TargetName};
use redo_logs::LogTable;
use redo_view::FormFault;
use std::alloc::{AllocError, Global};
use std::marker::Model;

/// The capacity of the mailbox. There is no option for it. No byte of the JSON depends on it.
const CAPACITY: u32 = 64;

/// A job whose text is the JSON of the requested targets, or of every listed target.
#[derive(Drop)]
pub struct BuildJob {
    pub job: JsonJob,
}

impl Job for BuildJob {
    type Facts = BuildFacts;

    ghost are_facts = { λ build logs file index facts. AreBuildFacts logs file index facts };

    ghost text = { λ build facts baseline. job_json build.job facts.times.items facts.recipes.items baseline };

    ghost arguments = { λ build. build.job.targets };

    ghost baseline_dir = { λ build. build.job.baseline };

    fn dir(&self) -> &str {
        self.job.dir()
    }

    fn baseline(&self) -> Option<&str> {
        self.job.baseline()
    }

    fn output(&self) -> Option<&str> {
        self.job.output()
    }

    fn senders(&self, facts: &BuildFacts) -> u32 {
        facts.senders(self.job.senders())
    }

    fn capacity(&self) -> u32 {
        CAPACITY
    }

    fn targets(&self) -> &[Vec<u8>] {
        self.job.targets()
    }

    fn open<L: OpenFacts>(
        &self,
        alloc: Global,
        files: &L,
        index: &Index,
    ) -> Result<(BuildFacts, Vec<L::Log>), AllocError> {
        read_build_facts(alloc, files, index)
    }

    fn render<W: Sink>(
        &self,
        facts: &BuildFacts,
        baseline: Option<&BaselineLogs>,
        alloc: Global,
        table: &LogTable,
        requested: &[TargetName],
        out: &mut W,
    ) -> Result<(), FormFault> {
        if self.job.every() {
            let targets = every_target(alloc, table, requested)?;
            write_targets(&self.job, facts, baseline, alloc, table, &targets, out)
        } else {
            write_targets(&self.job, facts, baseline, alloc, table, requested, out)
        }
    }
}

// Writes the JSON of these targets.
fn write_targets<W: Sink>(
    job: &JsonJob,
    facts: &BuildFacts,
    baseline: Option<&BaselineLogs>,
    alloc: Global,
    table: &LogTable,
    targets: &[TargetName],
    out: &mut W,
) -> Result<(), FormFault>
    requires ended { list_all has_ended table.now ≡ true }
    requires known { find_unknown table.now targets.now ≡ None }
    ensures { FormWrites (W.written out.old) (W.written out.new) (json_of_targets job.now facts.now.times.items facts.now.recipes.items
        (option_copied baseline.entry) table.now targets.now) result }
{
    match baseline {
        None => {
            let request = request_for(job, facts, None);
            write_build(alloc, table, &request, targets, out)
        }
        Some(earlier) => {
            let options = json_options(job.unchanged());
            let baseline = Baseline::new(alloc, facts.keys, earlier.table(), &options, targets)?;
            let request = request_for(job, facts, Some(&baseline));
            write_build(alloc, table, &request, targets, out)
        }
    }
}

// Returns the request for the JSON of a job.
fn request_for<'a>(
    job: &JsonJob,
    facts: &'a BuildFacts,
    baseline: Option<&'a Baseline<'a>>,
) -> BuildRequest<'a>
    ensures { request_of result ≡ request_for job.entry.now facts.entry.now.times.items facts.entry.now.recipes.items
        (option_copied baseline.entry) }
{
    BuildRequest {
        unchanged: job.unchanged(),
        times: &facts.times,
        facts: &facts.recipes,
        baseline,
        keys: facts.keys,
    }
}
