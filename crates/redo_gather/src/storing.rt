ghost use Rattle.std.specs.Prelude.{◌≡◌, ◌≢◌, ◌≤◌, ◌↔◌, true, false, [], Some, IfOk, OnOk, length, map, slice_get};
ghost use Rattle.std.specs.List.{IsDistinct};
ghost use Rattle.std.specs.Cmp.Lexicographic.{pointwise};
ghost use Rattle.std.specs.Prelude.{nat_eq};
ghost use Rattle.redo_line.specs.declared.stream_fault.StreamFault.TheVariants.{OutOfMemory};
ghost use Rattle.redo_logs.specs.declared.log_state.LogState.TheVariants.{Running};
ghost use Rattle.redo_logs.specs.Logs.{update_log, max_logs, new_log, states_of};
ghost use Rattle.redo_wire.specs.declared.item.What.TheVariants.{Fail};
ghost use Rattle.redo_gather.specs.Private.Collecting.{step};
ghost use Rattle.redo_gather.specs.Private.Storing.{completed};

use crate::one_stream::StreamLog;
use redo_line::{HashKeys, StreamFault, TargetName};
use redo_logs::{LogState, LogTable, TableFault};
use redo_wire::{Item, What};
use std::alloc::{AllocError, Global};

/// Returns a table with an empty log for each of these targets.
pub fn new_table(
    alloc: Global,
    keys: HashKeys,
    names: Vec<TargetName>,
) -> Result<LogTable, AllocError>
    requires distinct { IsDistinct (pointwise nat_eq) names.items }
    requires size { length names.items ≤ max_logs }
    ensures { IfOk result (λ table. table ≡ map new_log names.items) }
{
    let mut table = LogTable::with_keys(alloc, keys);
    enter_names(&mut table, names).and(Ok(table))
}

// Enters an empty log for each of these targets in a table that has none.
fn enter_names(table: &mut LogTable, names: Vec<TargetName>) -> Result<(), AllocError>
    requires begins { table.old ≡ [] }
    requires distinct { IsDistinct (pointwise nat_eq) names.items }
    requires size { length names.items ≤ max_logs }
    ensures { OnOk result (table.new ≡ map new_log names.items) }
{
    for name in names {
        match table.enter(name) {
            Ok(_) => {}
            Err(TableFault::Twice) => unreachable!(),
            Err(TableFault::Full) => unreachable!(),
            Err(TableFault::OutOfMemory) => return Err(AllocError),
        }
    }
    Ok(())
}

/// Adds the entries of a stream to its log, and ends the log or lets it fail. Returns an error if memory ran out while the stream
/// was read.
pub fn store(table: &mut LogTable, number: u32, log: StreamLog) -> Result<(), AllocError>
    requires { slice_get (states_of table.old) number ≡ Some Running }
    ensures stored { OnOk result (table.new ≡ update_log number (completed log.entries log.fault) table.old) }
    ensures had_memory { OnOk result (log.fault ≢ Some OutOfMemory) }
{
    if is_truncated(&log) {
        return Err(AllocError);
    }
    let StreamLog { entries, fault } = log;
    table.add_all(number, entries)?;
    match fault {
        None => table.end(number),
        Some(fault) => table.fail(number, fault),
    }
    Ok(())
}

// Whether memory ran out while a log was read.
fn is_truncated(log: &StreamLog) -> bool
    ensures { result ≡ false → log.now.fault ≢ Some OutOfMemory }
{
    match log.fault {
        Some(StreamFault::OutOfMemory) => true,
        _ => false,
    }
}

/// Stores an item: adds its entries to the log of its stream, or ends the log, or lets it fail. A log that isn't
/// running any more takes nothing. Returns an error if the item reports that memory ran out.
pub fn store_item(table: &mut LogTable, item: Item) -> Result<(), AllocError>
    ensures stored { OnOk result (table.new ≡ update_log item.stream (step item.what) table.old) }
    ensures had_memory { OnOk result (item.what ≢ Fail OutOfMemory) }
{
    if is_out_of_memory(&item.what) {
        drop(item);
        return Err(AllocError);
    }
    if is_running(table, item.stream) {
        return store_in(table, item.stream, item.what);
    }
    drop(item);
    Ok(())
}

// Does the same for a log that is running.
fn store_in(table: &mut LogTable, stream: u32, what: What) -> Result<(), AllocError>
    requires { slice_get (states_of table.old) stream ≡ Some Running }
    ensures { OnOk result (table.new ≡ update_log stream (step what) table.old) }
{
    match what {
        What::Line(entry) => table.add(stream, entry)?,
        What::Lines(entries) => table.add_all(stream, entries)?,
        What::End => table.end(stream),
        What::Fail(fault) => table.fail(stream, fault),
    }
    Ok(())
}

fn is_running(table: &LogTable, stream: u32) -> bool
    ensures { (result ≡ true) ↔ (slice_get (states_of table.now) stream ≡ Some Running) }
{
    stream < table.len() && matches!(table.state(stream), LogState::Running)
}

fn is_out_of_memory(what: &What) -> bool
    ensures { result ≡ false → what.now ≢ Fail OutOfMemory }
{
    matches!(what, What::Fail(StreamFault::OutOfMemory))
}
