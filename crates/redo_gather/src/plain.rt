ghost use Rattle.std.specs.Prelude.{◌≡◌, ◌≢◌, ℕ, ◌<◌, ◌≤◌, ◌^◌, List, Some, Ok, OnOk, nat_eq, length, map, slice_get};
ghost use Rattle.std.specs.List.{IsDistinct};
ghost use Rattle.std.specs.Result.{result_and};
ghost use Rattle.std.specs.Cmp.Lexicographic.{pointwise};
ghost use Rattle.redo_line.specs.declared.stream_fault.StreamFault.TheVariants.{OutOfMemory};
ghost use Rattle.redo_line.specs.Source.{source};
ghost use Rattle.redo_logs.specs.declared.log_state.LogState.TheVariants.{Running};
ghost use Rattle.redo_logs.specs.Logs.{max_logs, new_log, states_of, targets_of};
ghost use Rattle.redo_gather.specs.GatherFault.{IfStreamFault};
ghost use Rattle.redo_gather.specs.Gathered.{IsGathered};
ghost use Rattle.redo_gather.specs.Streams.{known_input, known_inputs};
ghost use Rattle.redo_gather.specs.Private.Storing.{HasFault, IsCompleted};

use crate::flags::zip_flags;
use crate::gather_fault::GatherFault;
use crate::one_stream::read_stream;
use crate::reading::new_buffer;
use crate::storing::{new_table, store};
use redo_line::{Feed, HashKeys, TargetName};
use redo_logs::LogTable;
use std::alloc::Global;

/// Reads streams one after another, and returns the logs of their targets in the order of the names.
/// Each reader gives the stream of the name at the same index. If the must-close flag at this index is set,
/// the stream must end with the closing record of its log. There must be as many flags and readers as names.
/// There may be at most 1,048,575 names, or none. No name may occur twice.
///
/// A stream may have at most `max_bytes` bytes, from 1 to 1,099,511,627,776. Each stream is read at most
/// `max_bytes + 1` times. If streams have faults, the fault of the lowest-numbered one is returned, and nothing
/// is read after it. docs/format.md has the rules.
pub fn gather_plain<R: Feed>(
    alloc: Global,
    names: Vec<TargetName>,
    flags: Vec<bool>,
    readers: Vec<R>,
    max_bytes: u64,
) -> Result<LogTable, GatherFault>
    requires at_least { 1 ≤ max_bytes }
    requires at_most { max_bytes ≤ 2 ^ 40 }
    requires flags { length flags.items ≡ length names.items }
    requires readers { length readers.items ≡ length names.items }
    requires distinct { IsDistinct (pointwise nat_eq) names.items }
    requires size { length names.items ≤ max_logs }

    // The logs of the streams, or the fault of the lowest-numbered stream that has one, or `OutOfMemory`.
    ensures gathered { IsGathered max_bytes names.items (known_inputs R.contents flags.items readers.items) result }
    ensures never_out_of_memory { IfStreamFault result (λ number fault. fault ≢ OutOfMemory) }
{
    let mut buffer = new_buffer(alloc)?;
    let mut table = new_table(alloc, HashKeys::fixed(), names)?;
    let readers = zip_flags(alloc, flags, readers)?;
    gather_into(alloc, &mut table, readers, max_bytes, buffer.as_mut_slice()).and(Ok(table))
}

// Completes the empty logs of a table of the targets, or returns the fault.
fn gather_into<R: Feed>(
    alloc: Global,
    table: &mut LogTable,
    readers: Vec<(bool, R)>,
    max_bytes: u64,
    buf: &mut [u8],
) -> Result<(), GatherFault>
    requires at_least { 1 ≤ max_bytes }
    requires at_most { max_bytes ≤ 2 ^ 40 }
    requires begins { table.old ≡ map new_log (targets_of table.old) }
    requires readers { length readers.items ≡ length table.old }
    requires size { length table.old ≤ max_logs }
    ensures gathered { IsGathered max_bytes (targets_of table.old) (map (known_input R.contents) readers.items)
        (result_and result (Ok table.new)) }
    ensures never_out_of_memory { IfStreamFault result (λ number fault. fault ≢ OutOfMemory) }
{
    let mut number = 0;
    for (must_close, mut reader) in readers {
        gather_one(
            alloc,
            table,
            number,
            max_bytes,
            must_close,
            &mut reader,
            buf,
        )?;
        number += 1;
    }
    Ok(())
}

// Reads one stream and completes the log of its number, or returns its fault.
fn gather_one<R: Feed>(
    alloc: Global,
    table: &mut LogTable,
    number: u32,
    max_bytes: u64,
    must_close: bool,
    reader: &mut R,
    buf: &mut [u8],
) -> Result<(), GatherFault>
    requires at_least { 1 ≤ max_bytes }
    requires at_most { max_bytes ≤ 2 ^ 40 }
    requires runs { slice_get (states_of table.old) number ≡ Some Running }
    ensures completed { (target : List ℕ) → slice_get (targets_of table.old) number ≡ Some target →
        OnOk result (IsCompleted max_bytes number (source target must_close (R.contents reader.old)) table.old table.new) }
    ensures fault { (target : List ℕ) → slice_get (targets_of table.old) number ≡ Some target →
        IfStreamFault result (λ other fault. (other ≡ number)
        × HasFault max_bytes (source target must_close (R.contents reader.old)) fault) }
    ensures never_out_of_memory { IfStreamFault result (λ number fault. fault ≢ OutOfMemory) }
{
    let target = table.name(number).copy(alloc)?;
    let log = read_stream(alloc, target, max_bytes, must_close, reader, buf);
    let fault = log.fault;
    if let Some(fault) = fault {
        return Err(GatherFault::of(number, fault));
    }
    store(table, number, log)?;
    Ok(())
}
