//! The times of targets, as they were found so far.
ghost use Rattle.std.specs.Prelude.{◌≡◌, ◌<◌, ℕ, List, ◌++◌, ◌∷◌, [], OnOk, Some, length, nat_eq, slice_get};
ghost use Rattle.std.specs.Cmp.Lexicographic.{pointwise};
ghost use Rattle.std.specs.List.{IsDistinct, list_any};
ghost use Rattle.redo_index.specs.Index.{listed_targets, IsIndex};
ghost use Rattle.redo_times.specs.declared.report.Report.{Report};
ghost use Rattle.redo_times.specs.Report.{report_at};
ghost use Rattle.redo_times.specs.Times as spec;
ghost use Rattle.redo_times.specs.Private.Reporting.{named_reports, owner_reports, with_owner};
ghost use Rattle.redo_times.specs.Private.Tally.{AreTallies, tally_of, times_from, with_time};

use crate::report::{Report, Stage};
use crate::times::Times;
use redo_index::Index;
use redo_line::TargetName;
use std::alloc::{AllocError, Global};
use std::marker::Model;

/// The times of a target, as they were found so far: when it first began, and when it last ended, each as its own log and as
/// other logs say, and when it ran others, as its own log says.
#[derive(Drop)]
pub struct Tally {
    began_in_own_log: Option<u64>,
    began_in_other_log: Option<u64>,
    ended_in_own_log: Option<u64>,
    ended_in_other_log: Option<u64>,
    ran_others_at: Vec<u64>,
}

impl Model for Tally {
    ghost use Rattle.redo_times.specs.Private.Tally.{TallyValue};

    ghost Value = { TallyValue };

    ghost view = { λ tally. record {
      began_in_own_log = tally.began_in_own_log;
      began_in_other_log = tally.began_in_other_log;
      ended_in_own_log = tally.ended_in_own_log;
      ended_in_other_log = tally.ended_in_other_log;
      ran_others_at = tally.ran_others_at.items;
    } };
}

impl Tally {
    /// Creates the tally of a target without any report. It does not allocate.
    pub fn empty(alloc: Global) -> Tally
        ensures { result ≡ tally_of [] [] }
    {
        Tally {
            began_in_own_log: None,
            began_in_other_log: None,
            ended_in_own_log: None,
            ended_in_other_log: None,
            ran_others_at: Vec::new(alloc),
        }
    }

    // Adds that the target reached a stage at this time.
    fn add(&mut self, stage: Stage, time: u64) -> Result<(), AllocError>
        ensures { OnOk result (self.new ≡ with_time stage time self.old) }
    {
        match stage {
            Stage::BeganInOwnLog => {
                self.began_in_own_log = Some(earlier(time, self.began_in_own_log));
            }
            Stage::BeganInOtherLog => {
                self.began_in_other_log = Some(earlier(time, self.began_in_other_log));
            }
            Stage::EndedInOwnLog => {
                self.ended_in_own_log = Some(later(time, self.ended_in_own_log));
            }
            Stage::EndedInOtherLog => {
                self.ended_in_other_log = Some(later(time, self.ended_in_other_log));
            }
            Stage::RunsOther => self.ran_others_at.push(time)?,
        }
        Ok(())
    }

    /// Returns when the target began and ended, and whether it ran others.
    pub fn times(&self) -> Times
        ensures { result ≡ times_from self.now }
    {
        let began = self.began_in_own_log.or(self.began_in_other_log);
        let others = unless_begun(self.began_in_own_log, self.ended_in_other_log);
        let ended = self.ended_in_own_log.or(others);
        Times {
            began: before_end(began, ended),
            ended,
            ran_others: is_any_within(began, ended, &self.ran_others_at),
        }
    }
}

// Whether one of these times is after a beginning, and not after an end.
fn is_any_within(began: Option<u64>, ended: Option<u64>, times: &[u64]) -> bool
    ensures { result ≡ list_any (spec.is_within began ended) times.now }
{
    times.iter().any(|time| is_within(began, ended, *time))
}

fn is_within(began: Option<u64>, ended: Option<u64>, time: u64) -> bool
    ensures { result ≡ spec.is_within began ended time }
{
    match (began, ended) {
        (Some(began), Some(ended)) => began < time && time <= ended,
        _ => false,
    }
}

fn unless_begun(began: Option<u64>, ended: Option<u64>) -> Option<u64>
    ensures { result ≡ spec.unless_begun began ended }
{
    match began {
        None => ended,
        Some(_) => None,
    }
}

fn earlier(time: u64, other: Option<u64>) -> u64
    ensures { result ≡ spec.earlier time other }
{
    match other {
        None => time,
        Some(other) => time.min(other),
    }
}

fn later(time: u64, other: Option<u64>) -> u64
    ensures { result ≡ spec.later time other }
{
    match other {
        None => time,
        Some(other) => time.max(other),
    }
}

fn before_end(began: Option<u64>, ended: Option<u64>) -> Option<u64>
    ensures { result ≡ spec.before_end began ended }
{
    match (began, ended) {
        (Some(first), Some(last)) if first > last => None,
        _ => began,
    }
}

/// The log that is read: its target, and the position of the target in the index.
#[derive(Clone, Copy)]
pub struct Log<'a> {
    pub target: &'a TargetName,
    pub position: u32,
}

/// Adds what a report in a log says of the target that it names, and of the log's own target. A target that the index doesn't list has no
/// tally.
pub fn add_report(
    index: &Index,
    tallies: &mut [Tally],
    log: Log<'_>,
    report: Report,
) -> Result<(), AllocError>
    requires index { IsIndex index.now }
    requires count { length tallies.old ≡ length index.now }
    requires log { slice_get (listed_targets index.now) log.position ≡ Some log.target.now }
    ensures { (reports : List Report) → AreTallies (listed_targets index.now) reports tallies.old
        → OnOk result (AreTallies (listed_targets index.now) (reports ++ with_owner log.entry.target.now report) tallies.new) }
{
    add_named(index, tallies, &report)?;
    add_owner(tallies, log, report.stage, report.time)
}

// Adds what a report says of the target that it names.
fn add_named(index: &Index, tallies: &mut [Tally], report: &Report) -> Result<(), AllocError>
    requires index { IsIndex index.now }
    requires count { length tallies.old ≡ length index.now }
    ensures { (reports : List Report) → AreTallies (listed_targets index.now) reports tallies.old
        → OnOk result (AreTallies (listed_targets index.now) (reports ++ named_reports report.now report.now.stage) tallies.new) }
{
    if let Stage::RunsOther = report.stage {
        return Ok(());
    }
    add_stage(index, tallies, &report.target, report.stage, report.time)
}

// Adds what a report of this stage says of the log's own target. Its position is known, so that no record needs a second look-up.
fn add_owner(tallies: &mut [Tally], log: Log<'_>, stage: Stage, time: u64) -> Result<(), AllocError>
    requires position { log.position < length tallies.old }
    ensures { (targets : List (List ℕ)) (reports : List Report) → IsDistinct (pointwise nat_eq) targets
        → slice_get targets log.entry.position ≡ Some log.entry.target.now → AreTallies targets reports tallies.old
        → OnOk result (AreTallies targets (reports ++ owner_reports log.entry.target.now time stage) tallies.new) }
{
    match stage {
        Stage::BeganInOwnLog | Stage::EndedInOwnLog => Ok(()),
        Stage::BeganInOtherLog | Stage::EndedInOtherLog | Stage::RunsOther => {
            tallies[log.position as usize].add(Stage::RunsOther, time)
        }
    }
}

// Adds that a target reached a stage at this time, if the index lists the target.
fn add_stage(
    index: &Index,
    tallies: &mut [Tally],
    target: &TargetName,
    stage: Stage,
    time: u64,
) -> Result<(), AllocError>
    requires index { IsIndex index.now }
    requires count { length tallies.old ≡ length index.now }
    ensures { (reports : List Report) → AreTallies (listed_targets index.now) reports tallies.old
        → OnOk result (AreTallies (listed_targets index.now) (reports ++ report_at time (stage, target.now) ∷ []) tallies.new) }
{
    if let Some(i) = index.find(target) {
        tallies[i as usize].add(stage, time)?;
    }
    Ok(())
}
