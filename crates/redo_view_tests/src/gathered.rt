//! Gatherings, for tests.
ghost use Rattle.std.specs.Prelude.{◌≡◌, true, IfOk, length};
ghost use Rattle.std.specs.List.{list_all};
ghost use Rattle.redo_logs.specs.Logs.{has_ended};

use redo_gather::{Gate, GatherFault, Plan, gather, gather_plain};
use redo_line::{Feed, HashKeys};
use redo_logs::LogTable;
use redo_test_support::names_of;
use std::alloc::{AllocError, Global};
use std::sync::Wait;
use std::test::Fail;
use std::thread::Threads;

/// Which threads read the streams.
#[derive(Clone, Copy, Debug)]
pub enum Way {
    /// The calling thread.
    Plain,
    /// This many senders, with a mailbox of this capacity.
    Senders(u32, u32),
}

/// The calling thread; and one, few and as many senders as there may be.
pub static WAYS: &[Way] = &[
    Way::Plain,
    Way::Senders(1, 1),
    Way::Senders(2, 1),
    Way::Senders(2, 64),
    Way::Senders(3, 64),
    Way::Senders(64, 1),
];

/// Returns the logs of the targets of a table, which have a reader each, or the fault.
pub fn gathered<R: Feed>(
    alloc: Global,
    targets: &LogTable,
    readers: Vec<R>,
    max_bytes: u64,
) -> Result<Result<LogTable, GatherFault>, Fail>
    ensures ended { IfOk result (λ outcome. IfOk outcome (λ table. list_all has_ended table ≡ true)) }
{
    let names = names_of(alloc, targets)?;
    if readers.len() != names.len() {
        return Err("not a reader for each name".into());
    }
    if max_bytes < 1 || max_bytes > 1 << 40 {
        return Err("no such limit".into());
    }
    let flags = unset_flags(alloc, names.len())?;
    Ok(gather_plain(alloc, names, flags, readers, max_bytes))
}

/// Does the same, in this way.
pub fn gathered_by<T: AllocGlobal + Threads + Wait + Sync, R: Feed + Send, G: Gate>(
    rt: &T,
    targets: &LogTable,
    readers: Vec<R>,
    max_bytes: u64,
    way: Way,
    gate: &G,
) -> Result<Result<LogTable, GatherFault>, Fail> {
    let alloc = rt.alloc();
    let Way::Senders(senders, capacity) = way else {
        return gathered(alloc, targets, readers, max_bytes);
    };
    let names = names_of(alloc, targets)?;
    if readers.len() != names.len() {
        return Err("not a reader for each name".into());
    }
    let plan = Plan::new(senders, capacity, max_bytes)?;
    let flags = unset_flags(alloc, names.len())?;
    let keys = HashKeys::fixed();
    Ok(gather(rt, alloc, keys, names, flags, readers, &plan, gate))
}

/// Returns `count` must-close flags that aren't set: the streams may end with any line.
fn unset_flags(alloc: Global, count: usize) -> Result<Vec<bool>, AllocError>
    ensures { IfOk result (λ flags. length flags.items ≡ count) }
{
    vec![in alloc; false; count]
}
