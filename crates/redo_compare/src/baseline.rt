//! What changed in the targets of a build since an earlier one.
ghost use Rattle.std.specs.Prelude.{◌≡◌, ◌∷◌, ◌++◌, [], true, IfOk, None, OnOk};
ghost use Rattle.std.specs.List.{list_all};
ghost use Rattle.redo_logs.specs.Logs.{has_ended, targets_of};
ghost use Rattle.redo_view.specs.View.{find_unknown};
ghost use Rattle.redo_compare.specs.Baseline.{baseline_of, baseline_targets, known_targets, target_changes};

use crate::log_changes::compare_log;
use crate::outcome::{is_fixed, newly_fails, outcome_in, outcome_of};
use redo_line::{HashKeys, TargetName};
use redo_logs::LogTable;
use redo_outline::{Node, Outline};
use redo_view::Options;
use std::alloc::{AllocError, Global};
use std::marker::Model;

/// An earlier build, with which another one is compared: its logs, and how its targets ended.
#[derive(Drop)]
pub struct Baseline<'a> {
    table: &'a LogTable,
    outline: Outline,
    keys: HashKeys,
}

impl<'a> Model for Baseline<'a> {
    ghost use Rattle.redo_compare.specs.Baseline.{BaselineValue};

    ghost Value = { BaselineValue };

    ghost view = { λ baseline. record { logs = baseline.table.now; nodes = baseline.outline } };
}

impl<'a> Baseline<'a> {
    /// Makes the baseline of a build that shows these requested targets with these options. All logs of the earlier build must have ended.
    ///
    /// Its outline shows the requested targets that the earlier build has, and then all of its targets. Diagnostics are hashed with `keys`,
    /// as in [`compare_log`]. The only error is that an allocation failed.
    pub fn new(
        alloc: Global,
        keys: HashKeys,
        earlier: &'a LogTable,
        options: &Options,
        requested: &[TargetName],
    ) -> Result<Baseline<'a>, AllocError>
        requires ended { list_all has_ended earlier.now ≡ true }
        ensures { IfOk result (λ baseline. baseline ≡ baseline_of earlier.entry.now options.now requested.now) }
    {
        let targets = baseline_targets(alloc, earlier, requested)?;
        let outline = Outline::new(alloc, earlier, options, &targets)?;
        Ok(Baseline {
            table: earlier,
            outline,
            keys,
        })
    }

    /// Returns what changed in the target of a node of this build's outline. `table` has the logs of this build.
    ///
    /// This takes the time of [`compare_log`]. The only error is that an allocation failed.
    pub fn changes(
        &self,
        alloc: Global,
        table: &LogTable,
        node: &Node,
    ) -> Result<TargetChanges, AllocError>
        ensures { IfOk result (λ changes. changes ≡ target_changes self.now table.now node.now) }
    {
        let changes = compare_log(alloc, self.keys, self.table, table, node.number)?;
        let before = outcome_in(&self.outline, changes.earlier);
        let now = Some(outcome_of(node));
        Ok(TargetChanges {
            was_built: changes.earlier.is_some(),
            new: changes.new,
            gone: changes.gone,
            newly_fails: newly_fails(before, now),
            is_fixed: is_fixed(before, now),
        })
    }
}

/// What changed in a target since the baseline.
#[derive(Drop)]
pub struct TargetChanges {
    was_built: bool,
    new: Vec<bool>,
    gone: usize,
    newly_fails: bool,
    is_fixed: bool,
}

impl Model for TargetChanges {
    ghost use Rattle.redo_compare.specs.Baseline.{ChangesValue};

    ghost Value = { ChangesValue };

    ghost view = { λ changes. record {
      was_built = changes.was_built;
      new = changes.new.items;
      gone = changes.gone;
      newly_fails = changes.newly_fails;
      is_fixed = changes.is_fixed;
    } };
}

impl TargetChanges {
    /// Returns whether the baseline has a log of the target.
    pub fn was_built(&self) -> bool
        ensures { result ≡ self.now.was_built }
    {
        self.was_built
    }

    /// Returns, for each diagnostic of the target's log, in order, whether it is new.
    pub fn new(&self) -> &[bool]
        ensures { result.now ≡ self.now.new }
    {
        self.new.as_slice()
    }

    /// Returns how many diagnostics of the target's earlier log are gone.
    pub fn gone(&self) -> usize
        ensures { result ≡ self.now.gone }
    {
        self.gone
    }

    /// Returns whether the target newly fails ([`newly_fails`](crate::newly_fails)).
    pub fn newly_fails(&self) -> bool
        ensures { result ≡ self.now.newly_fails }
    {
        self.newly_fails
    }

    /// Returns whether the target is fixed ([`is_fixed`](crate::is_fixed)).
    pub fn is_fixed(&self) -> bool
        ensures { result ≡ self.now.is_fixed }
    {
        self.is_fixed
    }
}

// Returns the requested targets that an earlier build has, and then all of its targets. A target may occur twice.
fn baseline_targets(
    alloc: Global,
    earlier: &LogTable,
    requested: &[TargetName],
) -> Result<Vec<TargetName>, AllocError>
    ensures names { IfOk result (λ names. names.items ≡ baseline_targets earlier.now requested.now) }
    ensures known { find_unknown earlier.now (baseline_targets earlier.now requested.now) ≡ None }
{
    let mut names = Vec::new(alloc);
    push_known(alloc, earlier, requested, &mut names)?;
    push_targets(alloc, earlier, &mut names)?;
    Ok(names)
}

// Appends the names of which a build has logs.
fn push_known(
    alloc: Global,
    table: &LogTable,
    more: &[TargetName],
    names: &mut Vec<TargetName>,
) -> Result<(), AllocError>
    ensures { OnOk result (names.new.items ≡ names.old.items ++ known_targets table.now more.now) }
{
    for name in more {
        push_if_known(alloc, table, name, names)?;
    }
    Ok(())
}

// Appends the targets of all logs.
fn push_targets(
    alloc: Global,
    table: &LogTable,
    names: &mut Vec<TargetName>,
) -> Result<(), AllocError>
    ensures { OnOk result (names.new.items ≡ names.old.items ++ known_targets table.now (targets_of table.now)) }
{
    for number in 0..table.len() {
        push_if_known(alloc, table, table.name(number), names)?;
    }
    Ok(())
}

// Appends a name if a log has it.
fn push_if_known(
    alloc: Global,
    table: &LogTable,
    name: &TargetName,
    names: &mut Vec<TargetName>,
) -> Result<(), AllocError>
    ensures { OnOk result (names.new.items ≡ names.old.items ++ known_targets table.now (name.now ∷ [])) }
{
    if table.find(name).is_some() {
        names.push(name.copy(alloc)?)?;
    }
    Ok(())
}
