//! The outline of the shown logs.
ghost use Rattle.std.specs.Prelude.{◌≡◌, ◌==◌, true, None, IfOk, map, position};
ghost use Rattle.std.specs.List.{list_all};
ghost use Rattle.redo_logs.specs.Logs.{has_ended};
ghost use Rattle.redo_view.specs.Expansion.{shown_events};
ghost use Rattle.redo_view.specs.View.{find_unknown};
ghost use Rattle.redo_outline.specs.Outline.{outline_of, times_at, with_times, without_warnings};
ghost use Rattle.redo_outline.specs.Private.Sweeping.{without_warnings_unless};

use crate::collector::Collector;
use crate::laws::events_are_in_contents;
use crate::node::{Node, RunTimes};
use crate::positions::node_positions;
use redo_line::{Broken, Sink, TargetName};
use redo_logs::LogTable;
use redo_view::{Options, ViewFault, view_as};
use std::alloc::{AllocError, Global};
use std::marker::Model;

/// The nodes of all logs that are opened, in the order in which they are opened.
#[derive(Drop)]
pub struct Outline {
    nodes: Vec<Node>,
    // The position of each log, by its number. A log past the end isn't opened.
    positions: Vec<Option<usize>>,
}

impl Model for Outline {
    ghost use Rattle.std.specs.Prelude.{List};
    ghost use Rattle.redo_outline.specs.declared.node.Node as spec;

    ghost Value = { List spec.Node };

    ghost use Rattle.redo_outline.specs.Private.Positions.{AreNodePositions};

    ghost view = { λ outline. outline.nodes.items };

    ghost invariant = { λ outline. AreNodePositions outline.nodes.items outline.positions.items };
}

impl Outline {
    /// Makes the outline of the logs that the requested targets open. Each of these targets must have a log. All logs must
    /// have ended.
    pub fn new(
        alloc: Global,
        table: &LogTable,
        options: &Options,
        requested: &[TargetName],
    ) -> Result<Outline, AllocError>
        requires ended { list_all has_ended table.now ≡ true }
        requires known { find_unknown table.now requested.now ≡ None }
        ensures { IfOk result (λ outline. outline ≡ outline_of table.now (shown_events table.now options.now requested.now)) }
    {
        Outline::make(alloc, table, options, requested, true)
    }

    /// Makes the outline for callers that show no numbers of warnings: both of each node are 0. No text line is searched for warnings.
    /// Each of the requested targets must have a log. All logs must have ended.
    pub fn without_warnings(
        alloc: Global,
        table: &LogTable,
        options: &Options,
        requested: &[TargetName],
    ) -> Result<Outline, AllocError>
        requires ended { list_all has_ended table.now ≡ true }
        requires known { find_unknown table.now requested.now ≡ None }
        ensures { IfOk result
            (λ outline. outline ≡ map without_warnings (outline_of table.now (shown_events table.now options.now requested.now))) }
    {
        Outline::make(alloc, table, options, requested, false)
    }

    // Makes the outline, with the numbers of warnings or without.
    fn make(
        alloc: Global,
        table: &LogTable,
        options: &Options,
        requested: &[TargetName],
        with_warnings: bool,
    ) -> Result<Outline, AllocError>
        requires ended { list_all has_ended table.now ≡ true }
        requires known { find_unknown table.now requested.now ≡ None }
        ensures { IfOk result (λ outline. outline
            ≡ map (without_warnings_unless with_warnings) (outline_of table.now (shown_events table.now options.now requested.now))) }
    {
        let mut collector = Collector::new(alloc, table)?;
        let mut out = Nowhere;
        match view_as(alloc, table, options, &mut collector, requested, &mut out) {
            Ok(()) => {}
            Err(ViewFault::OutOfMemory) => return Err(AllocError),
            Err(ViewFault::Unknown { .. }) => unreachable!(),
            Err(ViewFault::Write) => unreachable!(),
        }
        events_are_in_contents();
        let nodes = collector.into_nodes(alloc, with_warnings)?;
        let positions = node_positions(alloc, &nodes)?;
        Ok(Outline { nodes, positions })
    }

    /// Sets how long the targets took, and when they ended. `times` has this by the numbers of logs; nothing is known of a log past its
    /// end.
    pub fn set_times(&mut self, times: &[RunTimes])
        ensures { self.new ≡ map (with_times times.now) self.old }
    {
        set_times(self.nodes.as_mut_slice(), times);
    }

    /// Returns the nodes.
    pub fn nodes(&self) -> &[Node]
        ensures { result.now ≡ self.now }
    {
        self.nodes.as_slice()
    }

    /// Returns the position of the log with this number, if it is opened.
    pub fn position_of(&self, number: u32) -> Option<usize>
        ensures { result ≡ position (λ node. node.number == number) self.now }
    {
        match self.positions.get(number as usize) {
            Some(position) => *position,
            None => None,
        }
    }
}

fn set_times(nodes: &mut [Node], times: &[RunTimes])
    ensures { nodes.new ≡ map (with_times times.now) nodes.old }
{
    for position in 0..nodes.len() {
        nodes[position] = with_times(times, nodes[position]);
    }
}

// Returns a node, with the times of the target of its log.
fn with_times(times: &[RunTimes], node: Node) -> Node
    ensures { result ≡ with_times times.now node }
{
    let RunTimes { took, ended } = times_of(times, node.number);
    Node {
        took,
        ended,
        ..node
    }
}

// Returns the times of the target of the log with this number.
fn times_of(times: &[RunTimes], number: u32) -> RunTimes
    ensures { result ≡ times_at times.now number }
{
    match times.get(number as usize) {
        Some(times) => *times,
        None => UNKNOWN_TIMES,
    }
}

const UNKNOWN_TIMES: RunTimes = RunTimes {
    took: None,
    ended: None,
};

// A writer to which nothing is written.
#[derive(Drop)]
struct Nowhere;

impl Sink for Nowhere {
    ghost written = { λ _. None };

    fn push(&mut self, bytes: &[u8]) -> Result<usize, Broken> {
        Ok(bytes.len())
    }
}
