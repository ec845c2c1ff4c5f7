//! `run_next_sender` starts one sender per level of a recursion. The innermost level takes until all streams are over. Each level
//! then joins its sender and meets its end, and `drain` takes the remaining items. The recursion joins each sender however the
//! others end, and no list of threads has to grow. A level borrows the collector, so it takes a few hundred bytes of stack. `join`
//! instead of `spawn_with` would read a share on the calling thread if no thread can be started.
//!
//! There is no deadlock (tested, not proved): a sender blocks only while the mailbox is full, or in the gate. The collector
//! takes as long as a stream isn't over, and afterwards no sender posts. If a thread can't be started, the others are served
//! and joined, and the missing end makes the result out of memory.
ghost use Rattle.std.specs.Prelude.{◌≡◌, ◌≢◌, ◌<◌, ◌≤◌, ◌^◌, IfOk, nat_eq, length, map};
ghost use Rattle.std.specs.List.{AllByRecursion, IsDistinct};
ghost use Rattle.std.specs.Cmp.Lexicographic.{pointwise};
ghost use Rattle.redo_line.specs.declared.stream_fault.StreamFault.TheVariants.{OutOfMemory};
ghost use Rattle.redo_line.specs.Source.{sources};
ghost use Rattle.redo_logs.specs.Logs.{max_logs, new_log, targets_of};
ghost use Rattle.redo_gather.specs.GatherFault.{IfStreamFault};
ghost use Rattle.redo_gather.specs.Gathered.{IsGathered};
ghost use Rattle.redo_gather.specs.Sending.{HasSent, numbered_source};
ghost use Rattle.redo_gather.specs.Streams.{known_input, known_inputs};
ghost use Rattle.redo_gather.specs.Private.Collecting.{Collects};
ghost use Rattle.redo_gather.specs.Private.Distribution.{AreDistributed, AreEmpty};

use crate::collector::LogCollector;
use crate::flags::zip_flags;
use crate::gate::Gate;
use crate::gather_fault::GatherFault;
use crate::sender::{Sender, SenderPromise};
use crate::sending::Share;
use crate::storing::new_table;
use redo_line::{Feed, HashKeys, TargetName};
use redo_logs::LogTable;
use redo_options::Plan;
use redo_wire::PostEnd;
use std::alloc::{AllocError, Global};
use std::snapshot::Snapshot;
use std::sync::Wait;
use std::thread;
use std::thread::{PromisedHandle, Scope, Threads};

/// Reads streams in parallel, by the plan's senders, and returns the logs of their targets in the order of the
/// names. Each reader gives the stream of the name at the same index. If the must-close flag at that index is set,
/// the stream must end with the closing record of its log. There must be as many flags and readers as names.
/// There may be at most 1,048,575 names, or none. No name may occur twice.
///
/// Sender i of n reads the streams i, i + n, i + 2n and so on, in its own thread ([`crate::send`]). If there are fewer streams than
/// senders, no more senders are started than there are streams. The senders post their entries to a mailbox of the plan's capacity.
/// The calling thread takes it and stores it in a table. A stream is read even if another one has a fault. If streams have faults,
/// the fault of the lowest-numbered one is returned. If memory runs out, even for a thread, `OutOfMemory` is returned instead.
///
/// The sender notifies the gate before each read. The calling thread notifies it after it has taken an entry or an
/// end. Names are looked up by a hash with these keys. The result doesn't depend on them, but with keys that an
/// untrusted party knows, it can choose names that make this slow.
pub fn gather<T: Threads + Wait + Sync, R: Feed + Send, G: Gate>(
    rt: &T,
    alloc: Global,
    keys: HashKeys,
    names: Vec<TargetName>,
    flags: Vec<bool>,
    readers: Vec<R>,
    plan: &Plan,
    gate: &G,
) -> Result<LogTable, GatherFault>
    requires flags { length flags.items ≡ length names.items }
    requires readers { length readers.items ≡ length names.items }
    requires distinct { IsDistinct (pointwise nat_eq) names.items }
    requires size { length names.items ≤ max_logs }

    // The logs of the streams, or the fault of the lowest-numbered stream that has one, or `OutOfMemory`.
    ensures gathered { IsGathered plan.now.max_bytes names.items (known_inputs R.contents flags.items readers.items) result }
    // Out of memory is never the fault of a stream.
    ensures never_out_of_memory { IfStreamFault result (λ number fault. fault ≢ OutOfMemory) }
{
    let table = new_table(alloc, keys, names)?;
    let senders = plan.senders().min(table.len());
    if senders == 0 {
        return Ok(table);
    }
    let readers = zip_flags(alloc, flags, readers)?;
    gather_by(rt, alloc, table, readers, senders, plan, gate)
}

// Does the same with `senders` senders, for a table of the targets.
fn gather_by<T: Threads + Wait + Sync, R: Feed + Send, G: Gate>(
    rt: &T,
    alloc: Global,
    table: LogTable,
    readers: Vec<(bool, R)>,
    senders: u32,
    plan: &Plan,
    gate: &G,
) -> Result<LogTable, GatherFault>
    requires begins { table ≡ map new_log (targets_of table) }
    requires readers { length readers.items ≡ length table }
    requires size { length table ≤ max_logs }
    requires senders { (1 ≤ senders) × (senders ≤ 64) }
    ensures gathered { IsGathered plan.now.max_bytes (targets_of table) (map (known_input R.contents) readers.items) result }
    ensures never_out_of_memory { IfStreamFault result (λ number fault. fault ≢ OutOfMemory) }
{
    let shares = distribute(alloc, &table, readers, senders)?;
    let (collector, ends) = LogCollector::open(alloc, table, plan.capacity(), senders)?;
    let max_bytes = plan.max_bytes();
    let context = Context {
        rt,
        alloc,
        gate,
        max_bytes,
    };
    run_senders(&context, ends, shares, collector).finish(rt, gate)
}

// The values that all senders of a gathering share.
#[derive(Drop)]
struct Context<'s, T, G> {
    rt: &'s T,
    alloc: Global,
    gate: &'s G,
    // How many bytes each stream may have.
    max_bytes: u64,
}

// Runs the senders of these ends on their shares, collects their items, and joins all of them.
fn run_senders<T: Threads + Wait + Sync, R: Feed + Send, G: Gate>(
    context: &Context<'_, T, G>,
    ends: Vec<PostEnd>,
    shares: Vec<Share<R>>,
    collector: LogCollector,
) -> LogCollector
    requires one { AllByRecursion (λ end. end.mailbox ≡ collector.take_end.mailbox) ends.items }
    requires limit { (1 ≤ context.now.max_bytes) × (context.now.max_bytes ≤ 2 ^ 40) }
    ensures { Collects R.contents context.now.max_bytes ends.items (map (λ share. share.items) shares.items) collector result }
{
    thread::scope(
        thread::scope_env(),
        context.rt,
        |scope| -> LogCollector
            requires one { AllByRecursion (λ end. end.mailbox ≡ collector.take_end.mailbox) ends.items }
            requires limit { (1 ≤ context.now.max_bytes) × (context.now.max_bytes ≤ 2 ^ 40) }
            ensures { Collects R.contents context.entry.now.max_bytes ends.items
                (map (λ share. share.items) shares.items) collector result }
        {
            let mut collector = collector;
            run_next_sender(scope, context, ends, shares, 0, &mut collector);
            collector
        },
    )
}

// Distributes the streams of a table's targets round-robin to the senders: number 0 to the first sender, and
// so on.
fn distribute<R: Feed>(
    alloc: Global,
    table: &LogTable,
    readers: Vec<(bool, R)>,
    senders: u32,
) -> Result<Vec<Share<R>>, AllocError>
    requires readers { length readers.items ≡ length table.now }
    requires size { length readers.items ≤ max_logs }
    requires senders { 0 < length readers.items → 0 < senders }
    ensures { IfOk result (λ shares.
        AreDistributed R.contents senders (sources (targets_of table.now) (map (known_input R.contents) readers.items))
        (map (λ share. share.items) shares.items)) }
{
    let mut shares = empty_shares(alloc, senders)?;
    let mut number = 0;
    for (must_close, reader) in readers {
        let target = table.name(number).copy(alloc)?;
        let sender = (number % senders) as usize;
        shares[sender].push((number, target, must_close, reader))?;
        number += 1;
    }
    Ok(shares)
}

// Returns `senders` shares without streams.
fn empty_shares<R: Drop>(alloc: Global, senders: u32) -> Result<Vec<Share<R>>, AllocError>
    ensures { IfOk result (λ shares. AreEmpty senders (map (λ share. share.items) shares.items)) }
{
    let mut shares = Vec::new(alloc);
    for _ in 0..senders {
        shares.push(Vec::new(alloc))?;
    }
    Ok(shares)
}

// Starts a sender for each end and its share, in its own thread. Takes their items meanwhile, joins them and meets their ends.
// `streams_before` counts the streams of the senders that were started before. If a sender can't be started, no more are started,
// and the items of these streams are taken before the senders are joined.
fn run_next_sender<'s, T: Threads + Wait + Sync, R: Feed + Send + 's, G: Gate, E>(
    scope: &Scope<'s, E>,
    context: &Context<'s, T, G>,
    mut ends: Vec<PostEnd>,
    mut shares: Vec<Share<R>>,
    streams_before: usize,
    collector: &mut LogCollector,
)
    requires one { AllByRecursion (λ end. end.mailbox ≡ collector.old.take_end.mailbox) ends.items }
    requires limit { (1 ≤ context.now.max_bytes) × (context.now.max_bytes ≤ 2 ^ 40) }
    ensures { Collects R.contents context.now.max_bytes ends.items (map (λ share. share.items) shares.items) collector.old collector.new }
{
    let (Some(end), Some(share)) = (ends.pop(), shares.pop()) else {
        collector.take(context.rt, context.gate, streams_before);
        return;
    };
    let streams_after = streams_before.wrapping_add(share.len());
    let sender = Sender {
        end,
        share,
        max_bytes: context.max_bytes,
    };
    let Ok(thread) = spawn_sender(scope, context, sender) else {
        collector.take(context.rt, context.gate, streams_before);
        return;
    };
    run_next_sender(scope, context, ends, shares, streams_after, collector);
    let end = thread.join(context.rt);
    collector.meet(context.rt, end);
}

// Starts a sender in its own thread.
fn spawn_sender<'s, T: Threads + Wait + Sync, R: Feed + Send + 's, G: Gate, E>(
    scope: &Scope<'s, E>,
    context: &Context<'s, T, G>,
    sender: Sender<R>,
) -> Result<PromisedHandle<PostEnd, SenderPromise<R>>, AllocError>
    ensures { IfOk result (λ handle. handle.promise.0.value ≡ sender) }
{
    let (rt, alloc, gate) = (context.rt, context.alloc, context.gate);
    let owing = SenderPromise(Snapshot::of(&sender));
    Ok(scope.spawn_with(
        owing,
        move || -> PostEnd
            ensures { HasSent sender.max_bytes (map (numbered_source R.contents) sender.share.items) sender.end result }
        { sender.send(rt, alloc, gate) },
    )?)
}
