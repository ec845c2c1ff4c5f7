ghost use Rattle.std.specs.Prelude.{◌≡◌, IfOk};
ghost use Rattle.std.specs.Option.{option_copied};
ghost use Rattle.redo_page.specs.Page.{page_html, request_of};
ghost use Rattle.redo_command.specs.Facts.{AreBuildFacts};
ghost use Rattle.redo_log_html.specs.Request.{baseline_for, request_for, title_for};

use redo_args::html::PageJob;
use redo_command::{BaselineLogs, BuildFacts, Index, Job, OpenFacts, read_build_facts};
use redo_compare::Baseline;
use redo_line::{HashKeys, Sink, TargetName};
use redo_logs::LogTable;
use redo_page::{PageRequest, page_options, write_page};
use redo_view::FormFault;
use std::alloc::{AllocError, Global};
use std::marker::Model;

/// The capacity of the mailbox. There is no option for it. No byte of a page depends on it.
const CAPACITY: u32 = 64;

/// A job whose text is a page of the requested targets.
#[derive(Drop)]
pub struct HtmlJob {
    pub job: PageJob,
}

impl Job for HtmlJob {
    type Facts = BuildFacts;

    ghost are_facts = { λ html logs file index facts. AreBuildFacts logs file index facts };

    ghost text = { λ html facts earlier logs requested. page_html
        (request_for html.job facts.times.items facts.recipes.items (baseline_for html.job earlier requested)) logs requested };

    ghost arguments = { λ html. html.job.targets };

    ghost baseline_dir = { λ html. html.job.baseline };

    fn dir(&self) -> &str {
        self.job.dir()
    }

    fn baseline(&self) -> Option<&str> {
        self.job.baseline()
    }

    fn output(&self) -> Option<&str> {
        self.job.output()
    }

    fn senders(&self, facts: &BuildFacts) -> u32 {
        facts.senders(self.job.senders())
    }

    fn capacity(&self) -> u32 {
        CAPACITY
    }

    fn targets(&self) -> &[Vec<u8>] {
        self.job.targets()
    }

    fn open<L: OpenFacts>(
        &self,
        alloc: Global,
        files: &L,
        index: &Index,
    ) -> Result<(BuildFacts, Vec<L::Log>), AllocError> {
        read_build_facts(alloc, files, index)
    }

    fn render<W: Sink>(
        &self,
        facts: &BuildFacts,
        earlier: Option<&BaselineLogs>,
        alloc: Global,
        table: &LogTable,
        requested: &[TargetName],
        out: &mut W,
    ) -> Result<(), FormFault> {
        let baseline = baseline_for(alloc, &self.job, facts.keys, earlier, requested)?;
        let request = request_for(&self.job, facts, baseline.as_ref());
        write_page(alloc, table, &request, requested, out)
    }
}

// Returns the baseline with which a job compares a build with these requested targets, if it has the logs of an earlier build.
fn baseline_for<'a>(
    alloc: Global,
    job: &PageJob,
    keys: HashKeys,
    earlier: Option<&'a BaselineLogs>,
    requested: &[TargetName],
) -> Result<Option<Baseline<'a>>, AllocError>
    ensures { IfOk result (λ baseline. baseline ≡ baseline_for job.entry.now (option_copied earlier.entry) requested.entry.now) }
{
    let Some(earlier) = earlier else {
        return Ok(None);
    };
    let options = page_options(job.unchanged(), job.debug_locks());
    Ok(Some(Baseline::new(alloc, keys, earlier.table(), &options, requested)?))
}

// Returns the request for the page of a job.
fn request_for<'a>(
    job: &'a PageJob,
    facts: &'a BuildFacts,
    baseline: Option<&'a Baseline<'a>>,
) -> PageRequest<'a>
    ensures { request_of result ≡ request_for job.entry.now facts.entry.now.times.items facts.entry.now.recipes.items
        (option_copied baseline.entry) }
{
    PageRequest {
        title: title_of(job),
        dir: job.dir().as_bytes(),
        unchanged: job.unchanged(),
        debug_locks: job.debug_locks(),
        max_bytes: job.max_bytes(),
        times: &facts.times,
        recipes: &facts.recipes,
        baseline,
    }
}

fn title_of(job: &PageJob) -> &[u8]
    ensures { result.now ≡ title_for job.now.title }
{
    match job.title() {
        Some(title) => title.as_bytes(),
        None => b"",
    }
}
