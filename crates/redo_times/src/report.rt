//! The report of a line about a target.
ghost use Rattle.std.specs.Prelude.{◌≡◌, ℕ, Some, IfOk, option_and_then};
ghost use Rattle.redo_line.specs.Entry.{done_entry, entry_of_fields};
ghost use Rattle.redo_line.specs.Parts.{split_once};
ghost use Rattle.redo_line.specs.Record.{kind_of, space};
ghost use Rattle.redo_name.specs.Names.{normal};
ghost use Rattle.redo_times.specs.Private.Reporting.{begin_of, report_of, stage_of, wait_of};

use crate::time::time_value;
use redo_line::{NameFault, TargetName, read_status, read_timed, split_at_first};
use std::alloc::{AllocError, Global};

// The kinds of records that report something.
const DO: &[u8] = b"do";

const DONE: &[u8] = b"done";

const WAITING: &[u8] = b"waiting";

const LOCKED: &[u8] = b"locked";

const UNLOCKED: &[u8] = b"unlocked";

/// The stage that a record reports of a target.
#[derive(Clone, Copy)]
pub enum Stage {
    BeganInOwnLog,
    BeganInOtherLog,
    EndedInOwnLog,
    EndedInOtherLog,
    /// The target runs another one, or waits for it, as its own log says.
    RunsOther,
}

/// The stage that a record reports, the target that the record names, and when this was, in milliseconds since 1970.
#[derive(Drop)]
pub struct Report {
    pub stage: Stage,
    pub target: TargetName,
    pub time: u64,
}

/// Returns the report of an ended line in the log of `log`. Only a line that is reported allocates: the target's name.
pub fn read_report(
    alloc: Global,
    log: &TargetName,
    line: &[u8],
) -> Result<Option<Report>, AllocError>
    ensures { IfOk result (λ report. report ≡ report_of log.now line.now) }
{
    let Some(record) = read_timed(line) else {
        return Ok(None);
    };
    let Some(time) = time_value(record.time) else {
        return Ok(None);
    };
    let Some((stage, target)) = read_stage(alloc, log, record.kind, record.text)? else {
        return Ok(None);
    };
    Ok(Some(Report {
        stage,
        target,
        time,
    }))
}

// Returns the stage that a record with this kind and text reports, and its target.
fn read_stage(
    alloc: Global,
    log: &TargetName,
    kind: &[u8],
    text: &[u8],
) -> Result<Option<(Stage, TargetName)>, AllocError>
    ensures { (pid : ℕ) → IfOk result (λ said.
        said ≡ option_and_then (stage_of log.now) (entry_of_fields log.now (kind_of kind.now) kind.now pid text.now)) }
{
    if kind == DO {
        return read_begin(alloc, log, text);
    }
    if kind == DONE {
        return read_end(alloc, log, text);
    }
    if kind == WAITING || kind == LOCKED || kind == UNLOCKED {
        return read_wait(alloc, log, text);
    }
    Ok(None)
}

// Returns the stage that a `do` record with this text reports, and its target.
fn read_begin(
    alloc: Global,
    log: &TargetName,
    text: &[u8],
) -> Result<Option<(Stage, TargetName)>, AllocError>
    ensures { IfOk result (λ said. said ≡ begin_of log.now (normal (Some log.now) text.now)) }
{
    match resolve(alloc, log, text)? {
        Some(target) if target.same(log) => Ok(Some((Stage::BeganInOwnLog, target))),
        Some(target) => Ok(Some((Stage::BeganInOtherLog, target))),
        None => Ok(None),
    }
}

// Returns the stage that a `done` record with this text reports, and its target.
fn read_end(
    alloc: Global,
    log: &TargetName,
    text: &[u8],
) -> Result<Option<(Stage, TargetName)>, AllocError>
    ensures { (pid : ℕ) → IfOk result (λ said.
        said ≡ option_and_then (stage_of log.now) (done_entry log.now pid (split_once space text.now))) }
{
    let Some((status, name)) = split_at_first(b' ', text) else {
        return Ok(None);
    };
    if read_status(status).is_none() {
        return Ok(None);
    }
    match resolve(alloc, log, name)? {
        Some(target) if target.same(log) => Ok(Some((Stage::EndedInOwnLog, target))),
        Some(target) => Ok(Some((Stage::EndedInOtherLog, target))),
        None => Ok(None),
    }
}

// Returns what a record says that mentions a target to wait for, and the target. The log's own target doesn't wait for itself.
fn read_wait(
    alloc: Global,
    log: &TargetName,
    text: &[u8],
) -> Result<Option<(Stage, TargetName)>, AllocError>
    ensures { IfOk result (λ said. said ≡ wait_of log.now (normal (Some log.now) text.now)) }
{
    match resolve(alloc, log, text)? {
        Some(target) if target.same(log) => Ok(None),
        Some(target) => Ok(Some((Stage::RunsOther, target))),
        None => Ok(None),
    }
}

// Returns the normal form of a name in the log of `log`; none if the name is empty.
fn resolve(alloc: Global, log: &TargetName, name: &[u8]) -> Result<Option<TargetName>, AllocError>
    ensures { IfOk result (λ resolved. resolved ≡ normal (Some log.now) name.now) }
{
    match TargetName::resolve(alloc, Some(log), name) {
        Ok(target) => Ok(Some(target)),
        Err(NameFault::Empty) => Ok(None),
        Err(NameFault::OutOfMemory) => Err(AllocError),
    }
}
