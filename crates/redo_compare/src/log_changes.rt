//! What changed in the log of a target.
ghost use Rattle.std.specs.Prelude.{◌≡◌, length, count_by, IfOk, option_map};
ghost use Rattle.redo_compare.specs.Changes.{all_or_none};
ghost use Rattle.redo_compare.specs.LogChanges.{are_new, diagnostics_in, earlier_number, gone_in_log};

use crate::changes::compare;
use crate::found::LogDiagnostics;
use redo_line::HashKeys;
use redo_logs::LogTable;
use std::alloc::{AllocError, Global};

/// What changed in the diagnostics of a log.
#[derive(Drop)]
pub struct LogChanges {
    /// The number of the earlier log of the same target, if there is one.
    pub earlier: Option<u32>,
    /// For each diagnostic of the log, in order: whether it is new.
    pub new: Vec<bool>,
    /// How many diagnostics of the earlier log are gone.
    pub gone: usize,
}

/// Compares the diagnostics of log `number` of a table with the diagnostics of the same target in an earlier build. All are new, and none
/// is gone, if the earlier build has no log of the target. A log that doesn't exist has no diagnostics.
///
/// Keys and source lines are hashed with `keys`, as in [`compare`]. If both logs have n bytes, this takes O(n) time, and a few look-ups for
/// each diagnostic. The only error is that an allocation failed.
pub fn compare_log(
    alloc: Global,
    keys: HashKeys,
    earlier: &LogTable,
    table: &LogTable,
    number: u32,
) -> Result<LogChanges, AllocError>
    ensures earlier { IfOk result (λ changes. changes.earlier ≡ earlier_number earlier.now table.now number) }
    ensures new { IfOk result (λ changes. changes.new.items ≡ are_new earlier.now table.now number) }
    ensures gone { IfOk result (λ changes. changes.gone ≡ length (gone_in_log earlier.now table.now number)) }
{
    let other = find_earlier(earlier, table, number);
    let before = diagnostics_in(alloc, earlier, other)?;
    let now = LogDiagnostics::of_log(alloc, table, number)?;
    let changes = compare(
        alloc,
        keys,
        Some(before.occurrences()),
        Some(now.occurrences()),
    )?;
    Ok(LogChanges {
        earlier: other,
        gone: count_set(&changes.gone),
        new: changes.new,
    })
}

// Returns the number of the earlier log of the target of log `number`, if there is one.
fn find_earlier(earlier: &LogTable, table: &LogTable, number: u32) -> Option<u32>
    ensures { result ≡ earlier_number earlier.now table.now number }
{
    if number < table.len() {
        earlier.find(table.name(number))
    } else {
        None
    }
}

// Returns the diagnostics of a log; none if there is no such log.
fn diagnostics_in(
    alloc: Global,
    table: &LogTable,
    number: Option<u32>,
) -> Result<LogDiagnostics, AllocError>
    ensures { IfOk result (λ found. found.occurrences ≡ all_or_none (option_map (diagnostics_in table.now) number)) }
{
    match number {
        Some(number) => LogDiagnostics::of_log(alloc, table, number),
        None => Ok(LogDiagnostics::new(alloc)),
    }
}

// Returns how many flags are set.
fn count_set(flags: &[bool]) -> usize
    ensures { result ≡ count_by (λ is. is) flags.now }
{
    let mut count = 0;
    for is_set in flags {
        if *is_set {
            count += 1;
        }
    }
    count
}
