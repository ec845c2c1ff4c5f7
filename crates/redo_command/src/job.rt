//! What a command writes of a capture directory, and how it is written.
//!
//! A [`Job`] reads and renders, and starts no thread. [`write_job`] and [`show_job`] are functions, because Rattle can't prove that
//! what the threads of a trait's method get is `Send`.
//!
//! A baseline is read before the job's own logs are opened, and its fault is kept. A fault of the job's own capture comes first, so that
//! it isn't hidden: the own logs are then read as always, but no text is written of them.
ghost use Rattle.std.specs.Prelude.{◌≡◌, ◌≢◌, ℕ, true, None, IfErr, IfOk, List, [], Option, is_some, length, map, option_copied, option_map};
ghost use Rattle.std.specs.List.{list_all};
ghost use Rattle.redo_device.specs.Feed.{Stream};
ghost use Rattle.redo_index.specs.declared.index_entry.IndexEntry.{IndexEntry};
ghost use Rattle.redo_logs.specs.Logs.{Log, has_ended};
ghost use Rattle.redo_options.specs.Arguments.{argument_bytes};
ghost use Rattle.redo_options.specs.Limits.{IsCapacity, IsSenderCount};
ghost use Rattle.redo_view.specs.Form.{FormWrites};
ghost use Rattle.redo_view.specs.View.{find_unknown};
ghost use Rattle.redo_command.specs.Baseline.{IsReadIfAsked, IsReadOfFiles};
ghost use Rattle.redo_command.specs.Failure.{IsReportable, status_of};
ghost use Rattle.redo_command.specs.Job.{IsBaselineReported, IsJobWritten, IsTextWritten};
ghost use Rattle.redo_command.specs.Logs.{AllGive, IsWriteResult, known_logs, logs_call, opaque_logs};
ghost use Rattle.redo_command.specs.Shown.{IsShown, IsShownOrNotCreated};

use crate::baseline::{BaselineFiles, BaselineLogs, open_baseline, read_baseline};
use crate::baseline_fault::BaselineFault;
use crate::buffer::{buffered, flush_after};
use crate::directory::{Shown, find_index};
use crate::error_keeper::ErrorKeeper;
use crate::failure::Failure;
use crate::first_byte::FirstByte;
use crate::log_file::{LogFiles, RegularLogFiles};
use crate::logs::{OpenFacts, OpenLog, write_logs};
use crate::output::{Output, close_output, create_output};
use redo_index::Index;
use redo_line::{Feed, Sink, TargetName};
use redo_logs::LogTable;
use redo_view::{FormFault, Render};
use std::alloc::{AllocError, Global};
use std::io::Write;
use std::random::RandomSource;
use std::rt::Files;
use std::sync::Wait;
use std::thread::Threads;

/// What a command writes of the logs of a directory: a text of them.
pub trait Job {
    /// What is known of the logs before the text is written, such as times.
    type Facts: Drop;

    /// Whether these are the facts, from what is known of the log with each number and of the file `facts`, and the index.
    ghost are_facts: { Self → (ℕ → Option Stream) → Option Stream → List IndexEntry → Self.Facts → Type 0 };

    /// The text, from the facts, the logs of the baseline, if there is one, the logs and the requested targets.
    ghost text: { Self → Self.Facts → Option (List Log) → List Log → List (List ℕ) → List ℕ };

    /// The arguments that name the requested targets.
    ghost arguments: { Self → List (List ℕ) };

    /// The directory of the baseline, if one is asked for.
    ghost baseline_dir: { Self → Option (List ℕ) };

    /// Returns the capture directory.
    fn dir(&self) -> &str;

    /// Returns the directory of the baseline, the capture of an earlier build with which this one is compared, if one is asked for.
    fn baseline(&self) -> Option<&str>
        ensures { option_map (λ dir. dir.now) result ≡ baseline_dir self.now };

    /// Returns the path of the file that the text is written to. Without it, the text goes to standard output.
    fn output(&self) -> Option<&str>;

    /// Returns the number of senders, if these are the facts.
    fn senders(&self, facts: &Self::Facts) -> u32
        ensures { IsSenderCount result };

    /// Returns the capacity of the mailbox in items.
    fn capacity(&self) -> u32
        ensures { IsCapacity result };

    /// Returns the arguments that name the requested targets.
    fn targets(&self) -> &[Vec<u8>]
        ensures { argument_bytes result.now ≡ arguments self.now };

    /// Opens the logs that an index lists, and reads the facts. Returns the facts, and the logs, which are at their starts. The only error
    /// is that an allocation failed.
    fn open<L: OpenFacts>(
        &self,
        alloc: Global,
        files: &L,
        index: &Index,
    ) -> Result<(Self::Facts, Vec<L::Log>), AllocError>
        ensures facts { IfOk result (λ opened. are_facts self.now (L.known files.now) (L.known_facts files.now) index.now opened.0) }
        ensures given { IfOk result (λ opened. AllGive (known_logs (L.known files.now) index.now) (map L.Log.contents opened.1.items)) }
        ensures count { IfOk result (λ opened. length opened.1.items ≡ length index.now) };

    /// Writes the text, as [`Render::render`] does.
    fn render<W: Sink>(
        &self,
        facts: &Self::Facts,
        baseline: Option<&BaselineLogs>,
        alloc: Global,
        table: &LogTable,
        requested: &[TargetName],
        out: &mut W,
    ) -> Result<(), FormFault>
        requires ended { list_all has_ended table.now ≡ true }
        requires known { find_unknown table.now requested.now ≡ None }
        ensures { FormWrites (W.written out.old) (W.written out.new)
            (text self.now facts.now (option_copied baseline.entry) table.now requested.now) result };
}

// The text of a job with these facts and this baseline.
#[derive(Drop)]
struct JobText<'a, J: Job> {
    job: &'a J,
    facts: &'a J::Facts,
    baseline: Option<&'a BaselineLogs>,
}

impl<J: Job> Render for JobText<'_, J> {
    ghost text = { λ text. J.text text.job.now text.facts.now (option_copied text.baseline) };

    fn render<W: Sink>(
        &self,
        alloc: Global,
        table: &LogTable,
        requested: &[TargetName],
        out: &mut W,
    ) -> Result<(), FormFault> {
        self.job
            .render(self.facts, self.baseline, alloc, table, requested, out)
    }
}

// No text.
struct NoText;

impl Render for NoText {
    ghost text = { λ _ logs requested. [] };

    fn render<W: Sink>(
        &self,
        _alloc: Global,
        _table: &LogTable,
        _requested: &[TargetName],
        _out: &mut W,
    ) -> Result<(), FormFault> {
        Ok(())
    }
}

/// Writes the text of a job, from the logs that an index lists. It reads the logs of the baseline, if there is one, then the facts, and
/// then all logs. Nothing is written before that. `out` isn't flushed.
///
/// The clause states the text, for any logs and writer. It may be of other streams than its facts: a file may change between the
/// two readings.
pub fn write_job<
    T: Threads + Wait + Sync + AllocGlobal,
    J: Job,
    F: OpenFacts + OpenLog<Log: Send>,
    B: OpenLog,
    W: Sink,
>(
    rt: &T,
    job: &J,
    files: &F,
    index: &Index,
    baseline: Option<&BaselineFiles<B>>,
    out: &mut W,
) -> Result<(), Failure>
    ensures written { IsJobWritten (J.are_facts job.now (F.known files.now) (F.known_facts files.now) index.now)
        (IsReadOfFiles B.known (option_copied baseline.entry)) (J.text job.now) (F.known files.now) index.now (J.arguments job.now)
        (W.written out.old) (W.written out.new) result }
    ensures reportable { IfErr result (IsReportable (length index.now) (length (J.arguments job.now))) }
    ensures nonzero_status { IfErr result (λ failure. status_of failure ≢ 0) }
{
    let alloc = rt.alloc();
    let read = read_baseline(alloc, baseline)?;
    let (facts, logs) = job.open(alloc, files, index)?;
    write_with(rt, job, &facts, &read, logs, index, out)
}

// Writes the text of a job with these facts and what was read of its baseline, or reports the baseline's fault.
fn write_with<T: Threads + Wait + Sync + AllocGlobal, J: Job, R: Feed + Send, W: Sink>(
    rt: &T,
    job: &J,
    facts: &J::Facts,
    read: &Option<Result<BaselineLogs, BaselineFault>>,
    logs: Vec<R>,
    index: &Index,
    out: &mut W,
) -> Result<(), Failure>
    requires { length logs.items ≡ length index.now }
    ensures written { (known : ℕ → Option Stream) → AllGive (known_logs known index.now) (map R.contents logs.items)
        → IsTextWritten (J.text job.now facts.now) read.now known index.now (J.arguments job.now) (W.written out.old) (W.written out.new)
        result }
    ensures reportable { IfErr result (IsReportable (length index.now) (length (J.arguments job.now))) }
    ensures nonzero_status { IfErr result (λ failure. status_of failure ≢ 0) }
{
    match read {
        None => write_text(rt, job, facts, None, logs, index, out),
        Some(Ok(baseline)) => write_text(rt, job, facts, Some(baseline), logs, index, out),
        Some(Err(fault)) => report_baseline(rt, job, facts, *fault, logs, index, out),
    }
}

// Reports the fault of a baseline, unless the job's own logs or arguments have one.
fn report_baseline<T: Threads + Wait + Sync + AllocGlobal, J: Job, R: Feed + Send, W: Sink>(
    rt: &T,
    job: &J,
    facts: &J::Facts,
    fault: BaselineFault,
    logs: Vec<R>,
    index: &Index,
    out: &mut W,
) -> Result<(), Failure>
    requires { length logs.items ≡ length index.now }
    ensures written { (known : ℕ → Option Stream) → AllGive (known_logs known index.now) (map R.contents logs.items)
        → IsBaselineReported fault known index.now (J.arguments job.now) (W.written out.old) (W.written out.new) result }
    ensures reportable { IfErr result (IsReportable (length index.now) (length (J.arguments job.now))) }
    ensures nonzero_status { IfErr result (λ failure. status_of failure ≢ 0) }
{
    write_rendered(rt, job, facts, &NoText, logs, index, out).and(Err(Failure::Baseline(fault)))
}

// Writes the text of a job with these facts and this baseline, from the logs that an index lists.
fn write_text<'a, T: Threads + Wait + Sync + AllocGlobal, J: Job, R: Feed + Send, W: Sink>(
    rt: &T,
    job: &'a J,
    facts: &'a J::Facts,
    baseline: Option<&'a BaselineLogs>,
    logs: Vec<R>,
    index: &Index,
    out: &mut W,
) -> Result<(), Failure>
    requires { length logs.items ≡ length index.now }
    ensures written { (known : ℕ → Option Stream) → AllGive (known_logs known index.now) (map R.contents logs.items)
        → IsWriteResult (logs_call known (J.text job.now facts.now (option_copied baseline.entry)) index.now (J.arguments job.now))
        (W.written out.old) (W.written out.new) result }
    ensures reportable { IfErr result (IsReportable (length index.now) (length (J.arguments job.now))) }
    ensures nonzero_status { IfErr result (λ failure. status_of failure ≢ 0) }
{
    let text = JobText {
        job,
        facts,
        baseline,
    };
    write_rendered(rt, job, facts, &text, logs, index, out)
}

// Writes a text, from the logs that an index lists, as the job requests.
fn write_rendered<
    T: Threads + Wait + Sync + AllocGlobal,
    J: Job,
    V: Render,
    R: Feed + Send,
    W: Sink,
>(
    rt: &T,
    job: &J,
    facts: &J::Facts,
    text: &V,
    logs: Vec<R>,
    index: &Index,
    out: &mut W,
) -> Result<(), Failure>
    requires { length logs.items ≡ length index.now }
    ensures written { (known : ℕ → Option Stream) → AllGive (known_logs known index.now) (map R.contents logs.items)
        → IsWriteResult (logs_call known (V.text text.now) index.now (J.arguments job.now)) (W.written out.old) (W.written out.new) result }
    ensures reportable { IfErr result (IsReportable (length index.now) (length (J.arguments job.now))) }
    ensures nonzero_status { IfErr result (λ failure. status_of failure ≢ 0) }
{
    write_logs(
        rt,
        logs,
        index,
        job.senders(facts),
        job.capacity(),
        text,
        job.targets(),
        out,
    )
}

/// Writes the text of a job: to its output file, or else to `out`. It reads the index and the log files of the job's directory, and
/// writes what [`write_job`] states, unless the index couldn't be read, the output file couldn't be created or closed, the buffer
/// couldn't be flushed, or memory ran out. If the job asks for a baseline, it reads one.
///
/// Nothing is known of the files, and nothing is stated about the bytes that `out` takes.
pub fn show_job<
    R: Files<File: Send> + RandomSource + Threads + Wait + Sync + AllocGlobal,
    J: Job,
    W: Write,
>(rt: &R, job: &J, out: &mut W) -> Shown
    ensures shown { IsShownOrNotCreated (IsJobWritten (J.are_facts job.now opaque_logs None result.index)
        (IsReadIfAsked (J.baseline_dir job.now)) (J.text job.now) opaque_logs result.index (J.arguments job.now) None None) result.outcome }
    ensures reportable { IfErr result.outcome (IsReportable (length result.index) (length (J.arguments job.now))) }
    ensures nonzero_status { IfErr result.outcome (λ failure. status_of failure ≢ 0) }
{
    match job.output() {
        None => show_logs(rt, job, out),
        Some(path) => match create_output(rt, path) {
            Ok(output) => show_in_file(rt, job, output),
            Err(failure) => not_shown(rt.alloc(), failure),
        },
    }
}

// What came of it if the index couldn't be read or the output file couldn't be created.
fn not_shown(alloc: Global, failure: Failure) -> Shown
    ensures index { length result.index ≡ 0 }
    ensures outcome { result.outcome ≡ Err failure }
{
    Shown {
        index: Index::new(alloc),
        outcome: Err(failure),
        first: None,
        write_error: None,
    }
}

// Writes the text of a job to an output file, and closes it.
fn show_in_file<R: Files<File: Send> + RandomSource + Threads + Wait + Sync + AllocGlobal, J: Job>(
    rt: &R,
    job: &J,
    output: Output<'_, R::File>,
) -> Shown
    ensures shown { IsShown (IsJobWritten (J.are_facts job.now opaque_logs None result.index)
        (IsReadIfAsked (J.baseline_dir job.now)) (J.text job.now) opaque_logs result.index (J.arguments job.now) None None) result.outcome }
    ensures reportable { IfErr result.outcome (IsReportable (length result.index) (length (J.arguments job.now))) }
    ensures nonzero_status { IfErr result.outcome (λ failure. status_of failure ≢ 0) }
{
    let mut output = output;
    let shown = show_logs(rt, job, &mut output);
    Shown {
        index: shown.index,
        outcome: close_output(rt, output, shown.outcome),
        first: shown.first,
        write_error: shown.write_error,
    }
}

// Writes the text of a job, from the index and the log files of its directory.
fn show_logs<
    R: Files<File: Send> + RandomSource + Threads + Wait + Sync + AllocGlobal,
    J: Job,
    W: Write,
>(rt: &R, job: &J, out: &mut W) -> Shown
    ensures shown { IsShown (IsJobWritten (J.are_facts job.now opaque_logs None result.index)
        (IsReadIfAsked (J.baseline_dir job.now)) (J.text job.now) opaque_logs result.index (J.arguments job.now) None None) result.outcome }
    ensures reportable { IfErr result.outcome (IsReportable (length result.index) (length (J.arguments job.now))) }
    ensures nonzero_status { IfErr result.outcome (λ failure. status_of failure ≢ 0) }
{
    match find_index(rt, job.dir()) {
        Ok(index) => {
            let mut out = ErrorKeeper::new(out);
            let mut first = None;
            let outcome = show_text(rt, job, &index, &mut out, &mut first);
            Shown {
                index,
                outcome,
                first,
                write_error: out.error(),
            }
        }
        Err(failure) => not_shown(rt.alloc(), failure),
    }
}

// Writes the text of a job through a buffer, from the log files that an index lists, and sets `first` to its first byte.
fn show_text<
    R: Files<File: Send> + RandomSource + Threads + Wait + Sync + AllocGlobal,
    J: Job,
    W: Write,
>(rt: &R, job: &J, index: &Index, out: &mut W, first: &mut Option<u8>) -> Result<(), Failure>
    ensures shown { IsShown (IsJobWritten (J.are_facts job.now opaque_logs None index.now) (IsReadIfAsked (J.baseline_dir job.now))
        (J.text job.now) opaque_logs index.now (J.arguments job.now) None None) result }
    ensures reportable { IfErr result (IsReportable (length index.now) (length (J.arguments job.now))) }
    ensures nonzero_status { IfErr result (λ failure. status_of failure ≢ 0) }
{
    let files = LogFiles { rt, dir: job.dir() };
    let baseline = job_baseline(rt, job)?;
    let buffer = buffered(rt.alloc(), out)?;
    let mut writer = FirstByte::new(buffer);
    let outcome = write_job(rt, job, &files, index, baseline.as_ref(), &mut writer);
    let (buffer, byte) = writer.into_parts();
    *first = byte;
    flush_after(outcome, buffer)
}

// Opens the baseline of a job, if one is asked for.
fn job_baseline<'a, R: Files<File: Send> + RandomSource + AllocGlobal, J: Job>(
    rt: &'a R,
    job: &'a J,
) -> Result<Option<BaselineFiles<RegularLogFiles<'a, R>>>, AllocError>
    ensures { IfOk result (λ files. is_some files ≡ is_some (J.baseline_dir job.now)) }
{
    match job.baseline() {
        Some(dir) => Ok(Some(open_baseline(rt, dir)?)),
        None => Ok(None),
    }
}
