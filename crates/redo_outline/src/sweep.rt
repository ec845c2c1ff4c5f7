//! From brackets to nodes: adds brackets from the last one to the first, so that the contents of a log are known before its
//! opening.
//!
//! When the opening is added, the node is complete. The time is linear, however logs are nested. The number of nodes bounds
//! each count that isn't saturated (`AreCounted`), so no sum overflows.
ghost use Rattle.std.specs.Prelude.{◌≡◌, ◌+◌, ◌<◌, ◌^◌, None, OnOk, reverse, slice_index_or};
ghost use Rattle.redo_outline.specs.Facts.{is_failure};
ghost use Rattle.redo_outline.specs.Private.Sweeping.{bracket_added, end_added, node_from, nothing_left, opening_added};
ghost use Rattle.redo_outline.specs.Private.Sweeping.{last_or_nothing, others_added, others_of, split_last, sweep_begun, with_log, with_others_if};

use crate::collector::{Bracket, OpenedLog};
use crate::facts::{LogFacts, log_facts};
use crate::node::Node;
use redo_logs::LogTable;
use std::alloc::{AllocError, Global};
use std::marker::Model;

/// The summary of a log from some event in it on.
#[derive(Clone, Copy)]
pub struct Summary {
    /// The number of logs that are opened there, at any depth.
    pub below: usize,
    /// The number of logs that are opened there directly.
    pub children: usize,
    /// Whether anything but logs is visible there directly.
    pub others: bool,
    /// The number of warnings of the logs that are opened there.
    pub warnings: u64,
    /// Whether a target failed whose log is opened there.
    pub fails: bool,
    /// Whether only silent logs are visible there.
    pub silent: bool,
    /// The number of silent logs with which it begins.
    pub silent_logs: usize,
}

impl Summary {
    // Returns the summary of a log in which nothing follows.
    fn nothing() -> Summary
        ensures { result ≡ nothing_left }
    {
        Summary {
            below: 0,
            children: 0,
            others: false,
            warnings: 0,
            fails: false,
            silent: true,
            silent_logs: 0,
        }
    }

    // Adds something else than logs before it, if it is visible.
    fn add_others(&mut self, visible: bool)
        ensures { self.new ≡ with_others_if visible self.old }
    {
        if visible {
            self.others = true;
            self.silent = false;
            self.silent_logs = 0;
        }
    }

    // Returns the summary from the opening of a log on, from its node and its contents. `self` is the summary after its
    // end.
    fn with_log(self, node: &Node, inside: Summary) -> Summary
        requires below { inside.below + self.below + 1 < 2 ^ 64 }
        requires children { self.children + 1 < 2 ^ 64 }
        ensures { result ≡ with_log node.now inside self }
    {
        let failed = is_failure(node.status);
        Summary {
            below: inside.below + self.below + 1,
            children: self.children + 1,
            others: self.others,
            warnings: node
                .warnings
                .saturating_add(inside.warnings.saturating_add(self.warnings)),
            fails: failed || inside.fails || self.fails,
            silent: !failed && inside.silent && self.silent,
            silent_logs: node.silent,
        }
    }
}

// Returns whether a target with this status failed.
fn is_failure(status: Option<i32>) -> bool
    ensures { result ≡ is_failure status }
{
    match status {
        Some(status) => status != 0,
        None => false,
    }
}

// Returns the node of a log, from its facts, its target's status, and the summaries of its contents and of the rest
// after it.
fn node_from(
    log: OpenedLog,
    facts: &LogFacts,
    status: Option<i32>,
    inside: Summary,
    rest: Summary,
) -> Node
    requires { rest.silent_logs + 1 < 2 ^ 64 }
    ensures { result ≡ node_from log facts.now status inside rest }
{
    let is_silent = !is_failure(status) && inside.silent;
    Node {
        number: log.number,
        parent: log.parent,
        status,
        lines: facts.lines,
        bytes: facts.bytes,
        warnings: facts.warnings,
        below: inside.below,
        children: inside.children,
        others: inside.others,
        warnings_below: inside.warnings,
        fails_below: inside.fails,
        silent: if is_silent { rest.silent_logs + 1 } else { 0 },
        took: None,
        ended: None,
    }
}

/// A sweep from the last bracket to the first.
#[derive(Drop)]
pub struct Sweep<'a> {
    table: &'a LogTable,
    // Whether warnings are counted.
    with_warnings: bool,
    // The status of each target that other logs have, by the number of the target's log.
    statuses: &'a [Option<i32>],
    // The logs that are opened before.
    opened: Vec<OpenedLog>,
    // The rest of the innermost log, and of the logs around it.
    inner: Summary,
    outer: Vec<Summary>,
    // The nodes of the logs that were opened, in reverse.
    nodes: Vec<Node>,
}

impl<'a> Model for Sweep<'a> {
    ghost use Rattle.redo_outline.specs.Private.Sweeping.{AreCounted, Swept};

    ghost Value = { Swept };

    ghost view = { λ sweep. record {
      logs = sweep.table.now;
      with_warnings = sweep.with_warnings;
      statuses = sweep.statuses.now;
      opened = sweep.opened.items;
      inner = sweep.inner;
      outer = sweep.outer.items;
      nodes = sweep.nodes.items;
    } };

    ghost invariant = { λ sweep. AreCounted sweep.inner sweep.outer.items sweep.nodes.items };
}

impl<'a> Sweep<'a> {
    /// Begins a sweep after the last bracket.
    pub fn new(
        alloc: Global,
        table: &'a LogTable,
        statuses: &'a [Option<i32>],
        opened: Vec<OpenedLog>,
        after_others: bool,
        with_warnings: bool,
    ) -> Sweep<'a>
        ensures { result ≡ sweep_begun table.now statuses.now opened.items after_others with_warnings }
    {
        let mut inner = Summary::nothing();
        inner.add_others(after_others);
        Sweep {
            table,
            with_warnings,
            statuses,
            opened,
            inner,
            outer: Vec::new(alloc),
            nodes: Vec::new(alloc),
        }
    }

    /// Adds the bracket before those that were added.
    pub fn add(&mut self, bracket: Bracket) -> Result<(), AllocError>
        ensures { OnOk result (self.new ≡ bracket_added bracket self.old) }
    {
        if bracket.opens {
            self.add_opening()?;
        } else {
            self.add_end()?;
        }
        self.add_others(bracket.after_others);
        Ok(())
    }

    /// Returns the nodes in the order in which their logs are opened.
    pub fn into_nodes(self) -> Vec<Node>
        ensures { result.items ≡ reverse self.entry.nodes }
    {
        let mut nodes = self.nodes;
        nodes.reverse();
        nodes
    }

    fn add_others(&mut self, visible: bool)
        ensures { self.new ≡ others_added visible self.old }
    {
        self.inner.add_others(visible);
    }

    fn add_end(&mut self) -> Result<(), AllocError>
        ensures { OnOk result (self.new ≡ end_added self.old) }
    {
        self.outer.push(self.inner)?;
        self.inner = Summary::nothing();
        Ok(())
    }

    fn add_opening(&mut self) -> Result<(), AllocError>
        ensures { OnOk result (self.new ≡ opening_added self.old) }
    {
        let Some(log) = self.opened.pop() else {
            return Ok(());
        };
        let facts = log_facts(self.table, log.number, self.with_warnings);
        let status = facts.status.or(status_at(self.statuses, log.number));
        let rest = pop_or_nothing(&mut self.outer);
        let node = node_from(log, &facts, status, self.inner, rest);
        self.nodes.push(node)?;
        self.inner = rest.with_log(&node, self.inner);
        Ok(())
    }
}

// Removes the last one, and returns it; if there is none, nothing is left in the log.
fn pop_or_nothing(outer: &mut Vec<Summary>) -> Summary
    ensures rest { result ≡ last_or_nothing (split_last outer.old.items) }
    ensures outer { outer.new.items ≡ others_of (split_last outer.old.items) }
{
    match outer.pop() {
        Some(rest) => rest,
        None => Summary::nothing(),
    }
}

// Returns the status of the target whose log has this number.
fn status_at(statuses: &[Option<i32>], number: u32) -> Option<i32>
    ensures { result ≡ slice_index_or statuses.now number None }
{
    match statuses.get(number as usize) {
        Some(status) => *status,
        None => None,
    }
}
