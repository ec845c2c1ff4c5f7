//! The result of a run is a function of the request and the streams (`result_of`): the first unknown target, otherwise the
//! first fault of a stream, otherwise the text. `run` is `run_as` with plain text, and its proof needs no file: each of its
//! clauses is a clause of `run_as`, by the definitions. Targets are looked up in the index. The table will have the same
//! ones, as `Render::render` requires. `run` calls the law `logs_unless_fault`. At run time this does nothing; it is how a
//! proof uses another crate's law.
ghost use Rattle.std.specs.Prelude.{◌≡◌, ◌≢◌, ◌<◌, ◌⊎◌, true, None, Err, IfOk, IfErr, OnOk, length, map};
ghost use Rattle.std.specs.List.{list_all};
ghost use Rattle.redo_line.specs.declared.stream_fault.StreamFault.TheVariants as stream;
ghost use Rattle.redo_logs.specs.Logs.{has_ended};
ghost use Rattle.redo_gather.specs.GatherFault as gathering;
ghost use Rattle.redo_gather.specs.Gathered.{IsGathered};
ghost use Rattle.redo_gather.specs.Streams.{known_inputs};
ghost use Rattle.redo_view.specs.View.{find_unknown};
ghost use Rattle.redo_view.specs.Written.{WroteAll, WroteNothing, WrotePrefix, WroteUntilFailed};
ghost use Rattle.redo_index.specs.Index.{must_close_flags, listed_targets};
ghost use Rattle.redo_run.specs.declared.run_fault.RunFault.TheVariants.{OutOfMemory, Write};
ghost use Rattle.redo_run.specs.Private.LookUp.{IsArgumentFault};
ghost use Rattle.redo_options.specs.Arguments.{argument_bytes};
ghost use Rattle.redo_run.specs.Run.{find_target, find_targets, unknown_argument};
ghost use Rattle.redo_run.specs.RunFault.{IfStreamFault, IfNoText, IfUnknown};
ghost use Rattle.redo_run.specs.Rendered.{IsSomeRenderedFault, SomeRenderedText, render_call};
ghost use Rattle.redo_run.specs.Outcome.{IsSomeResultFault, WritesSomePrefix, WritesSomeText, WritesSomeTextUntilFailure, call};

use crate::run_fault::RunFault;
use redo_gather::{Gate, GatherFault, Plan, gather, logs_unless_fault};
use redo_index::Index;
use redo_line::{Feed, NameFault, Sink, TargetName};
use redo_logs::LogTable;
use redo_view::{FormFault, Options, PlainText, Render};
use std::alloc::{AllocError, Global};
use std::sync::Wait;
use std::thread::Threads;

/// Shows the logs of the requested targets as one text, as if nothing had run in parallel:
///
/// **For every set of streams, however reads cut them, every number of senders and every capacity, where
/// `run` returns without fault, each target's log is its stream's lines, each once, in order, none after
/// its closing record, and the bytes written are the depth-first expansion of these logs at the targets
/// asked for, each log opened at its first mention and never again.**
///
/// The clause `ok` states this. Laws state what it means. For a log, they are in `redo_line`: one entry for each
/// line, in order (`one_entry_per_line`), and nothing after the closing record (`closing_record_is_last`). For
/// the text, they are in `redo_view` (`show_log_equation`, `at_first_mention`, `each_log_once`). The plan's senders,
/// each a thread, read the streams and post to a mailbox, as [`redo_gather::gather`] describes.
///
/// Each reader gives the stream of the target at its position in the index, so there must be one reader for each
/// target. If the target has the must-close flag, its stream must end with the log's closing record. Each argument
/// in `arguments` is the name of a target, relative to the base directory. The arguments are looked up before a byte is
/// read, and nothing is written before all streams were read. `out` isn't flushed.
pub fn run<T: Threads + Wait + Sync, R: Feed + Send, W: Sink, G: Gate>(
    rt: &T,
    alloc: Global,
    index: &Index,
    readers: Vec<R>,
    plan: &Plan,
    options: &Options,
    arguments: &[Vec<u8>],
    gate: &G,
    out: &mut W,
) -> Result<(), RunFault>
    requires { length readers.items ≡ length index.now }

    // The whole text was written, and no other byte.
    ensures ok { IfOk result (λ _. WritesSomeText (call R.contents index.now readers.items plan.now.max_bytes options.now arguments.now)
        (W.written out.old) (W.written out.new)) }

    // An argument is unknown, or a stream has a fault, and nothing was written. An argument is unknown if it is empty or names no target of
    // the index; the fault has the lowest position of such an argument. Without one, it has the lowest-numbered stream with a fault.
    ensures fault { IfNoText result
        (IsSomeResultFault (call R.contents index.now readers.items plan.now.max_bytes options.now arguments.now)) }
    ensures nothing_written { IfNoText result (λ _. W.written out.new ≡ W.written out.old) }
    ensures argument_in_range { IfUnknown result (λ place. place < length arguments.now) }
    ensures stream_in_range { IfStreamFault result (λ number _. number < length index.now) }
    ensures never_out_of_memory { IfStreamFault result (λ _ fault. fault ≢ stream.OutOfMemory) }

    // A prefix of the text was written, and then one write failed.
    ensures write { result ≡ Err Write →
        WritesSomeTextUntilFailure (call R.contents index.now readers.items plan.now.max_bytes options.now arguments.now)
        (W.written out.old) (W.written out.new) }

    // An allocation failed, and no write failed: nothing was written, or a prefix of the text.
    ensures memory { result ≡ Err OutOfMemory → (W.written out.new ≡ W.written out.old) ⊎
        WritesSomePrefix (call R.contents index.now readers.items plan.now.max_bytes options.now arguments.now)
        (W.written out.old) (W.written out.new) }
{
    let renderer = PlainText { options: *options };
    run_as(
        rt, alloc, index, readers, plan, &renderer, arguments, gate, out,
    )
}

/// Writes any text of the logs of the requested targets, such as a page. [`run`] is the same with plain text.
///
/// The arguments are looked up before a byte is read, and nothing is written before all streams were read. `out` isn't
/// flushed.
pub fn run_as<T: Threads + Wait + Sync, R: Feed + Send, V: Render, W: Sink, G: Gate>(
    rt: &T,
    alloc: Global,
    index: &Index,
    readers: Vec<R>,
    plan: &Plan,
    renderer: &V,
    arguments: &[Vec<u8>],
    gate: &G,
    out: &mut W,
) -> Result<(), RunFault>
    requires { length readers.items ≡ length index.now }

    // The whole text was written, and no other byte.
    ensures ok { IfOk result (λ _. SomeRenderedText
        (render_call (V.text renderer.now) R.contents index.now readers.items plan.now.max_bytes arguments.now)
        (WroteAll (W.written out.old) (W.written out.new))) }

    // An argument is unknown, or a stream has a fault, and nothing was written. An argument is unknown if it is empty or names no target of
    // the index; the fault has the lowest position of such an argument. Without one, it has the lowest-numbered stream with a fault.
    ensures fault { IfNoText result (IsSomeRenderedFault
        (render_call (V.text renderer.now) R.contents index.now readers.items plan.now.max_bytes arguments.now)) }
    ensures nothing_written { IfNoText result (λ _. WroteNothing (W.written out.old) (W.written out.new)) }
    ensures argument_in_range { IfUnknown result (λ place. place < length arguments.now) }
    ensures stream_in_range { IfStreamFault result (λ number _. number < length index.now) }
    ensures never_out_of_memory { IfStreamFault result (λ _ fault. fault ≢ stream.OutOfMemory) }

    // A prefix of the text was written, and then one write failed.
    ensures write { result ≡ Err Write → SomeRenderedText
        (render_call (V.text renderer.now) R.contents index.now readers.items plan.now.max_bytes arguments.now)
        (WroteUntilFailed (W.written out.old) (W.written out.new)) }

    // An allocation failed, and no write failed: nothing was written, or a prefix of the text.
    ensures memory { result ≡ Err OutOfMemory → WroteNothing (W.written out.old) (W.written out.new) ⊎ SomeRenderedText
        (render_call (V.text renderer.now) R.contents index.now readers.items plan.now.max_bytes arguments.now)
        (WrotePrefix (W.written out.old) (W.written out.new)) }
{
    let targets = find_targets(alloc, index, arguments)?;
    logs_unless_fault();
    let table = gather_listed(rt, alloc, index, readers, plan, gate)?;
    show(alloc, &table, renderer, &targets, out)
}

// Returns the logs of all targets of the index.
fn gather_listed<T: Threads + Wait + Sync, R: Feed + Send, G: Gate>(
    rt: &T,
    alloc: Global,
    index: &Index,
    readers: Vec<R>,
    plan: &Plan,
    gate: &G,
) -> Result<LogTable, GatherFault>
    requires { length readers.items ≡ length index.now }
    ensures gathered { IsGathered plan.now.max_bytes (listed_targets index.now)
        (known_inputs R.contents (must_close_flags index.now) readers.items) result }
    ensures never_out_of_memory { gathering.IfStreamFault result (λ number fault. fault ≢ stream.OutOfMemory) }
{
    let names = index.names(alloc)?;
    let flags = index.must_close_flags(alloc)?;
    gather(rt, alloc, index.keys(), names, flags, readers, plan, gate)
}

// Shows the logs of targets that each have one.
fn show<V: Render, W: Sink>(
    alloc: Global,
    table: &LogTable,
    renderer: &V,
    targets: &[TargetName],
    out: &mut W,
) -> Result<(), RunFault>
    requires ended { list_all has_ended table.now ≡ true }
    requires known { find_unknown table.now targets.now ≡ None }
    ensures ok { OnOk result (WroteAll (W.written out.old) (W.written out.new) (V.text renderer.now table.now targets.now)) }
    ensures write_or_memory { IfErr result (λ fault. (fault ≡ Write) ⊎ (fault ≡ OutOfMemory)) }
    ensures write { result ≡ Err Write →
        WroteUntilFailed (W.written out.old) (W.written out.new) (V.text renderer.now table.now targets.now) }
    ensures memory { result ≡ Err OutOfMemory →
        WrotePrefix (W.written out.old) (W.written out.new) (V.text renderer.now table.now targets.now) }
{
    match renderer.render(alloc, table, targets, out) {
        Ok(()) => Ok(()),
        Err(FormFault::Write) => Err(RunFault::Write),
        Err(FormFault::OutOfMemory) => Err(RunFault::OutOfMemory),
    }
}

// Returns the targets that the arguments name. Fails at the first argument that names none.
fn find_targets(
    alloc: Global,
    index: &Index,
    arguments: &[Vec<u8>],
) -> Result<Vec<TargetName>, RunFault>
    ensures known { IfOk result (λ _. unknown_argument (listed_targets index.now) (argument_bytes arguments.now) ≡ None) }
    ensures targets { IfOk result (λ targets. targets.items ≡ find_targets (listed_targets index.now) (argument_bytes arguments.now)) }
    ensures fault { IfErr result (λ fault. IsArgumentFault (listed_targets index.now) (argument_bytes arguments.now) fault) }
{
    let mut targets = Vec::with_capacity(alloc, arguments.len())?;
    for (place, argument) in arguments.iter().enumerate() {
        let Some(target) = find_target(alloc, index, argument)? else {
            return Err(RunFault::Unknown { place });
        };
        targets.push(target)?;
    }
    Ok(targets)
}

fn find_target(
    alloc: Global,
    index: &Index,
    argument: &[u8],
) -> Result<Option<TargetName>, AllocError>
    ensures { IfOk result (λ target. target ≡ find_target (listed_targets index.now) argument.now) }
{
    match TargetName::resolve(alloc, None, argument) {
        Ok(name) => Ok(index.find(&name).is_some().then_some(name)),
        Err(NameFault::Empty) => Ok(None),
        Err(NameFault::OutOfMemory) => Err(AllocError),
    }
}
