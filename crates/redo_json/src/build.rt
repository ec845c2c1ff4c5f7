//! The JSON of a build.
ghost use Rattle.std.specs.Prelude.{◌≡◌, true, None, IfOk, map, option_copied, option_map, slice_index_or};
ghost use Rattle.std.specs.List.{flat_map, list_all};
ghost use Rattle.redo_facts.specs.Facts.{nothing};
ghost use Rattle.redo_facts.specs.declared.statement.Usage as spec;
ghost use Rattle.redo_line.specs.Lines.{with_line_feed};
ghost use Rattle.redo_logs.specs.Logs.{has_ended};
ghost use Rattle.redo_outline.specs.Facts.{target_at};
ghost use Rattle.redo_view.specs.Form.{FormWrites};
ghost use Rattle.redo_view.specs.View.{find_unknown};
ghost use Rattle.redo_json.specs.Build.{build_json, changes_in, cpu_time, json_options, object_text, request_of, unknown_times, whole_commands};
ghost use Rattle.redo_json.specs.Private.Values.{IsRecipeOf, node_values, parent_name};

use crate::needs::needs_of;
use crate::object::{LogObject, write_object};
use redo_compare::{Baseline, TargetChanges};
use redo_device::Sink;
use redo_diagnostics::KeyCounts;
use redo_facts::{Command, Facts, Usage};
use redo_line::{HashKeys, TargetName};
use redo_logs::LogTable;
use redo_outline::{Node, Outline, target_at};
use redo_times::Times;
use redo_view::{FormFault, Options, Render};
use std::alloc::{AllocError, Global};

/// What the JSON of a build is asked.
#[derive(Clone, Copy)]
pub struct BuildRequest<'a> {
    /// Whether targets that needed no rebuild have objects too.
    pub unchanged: bool,
    /// When each target began and ended, by the number of its log. Nothing is known of a target past the end.
    pub times: &'a [Times],
    /// The facts of each target's recipe, by the number of its log. Nothing is known of a target past the end.
    pub facts: &'a [Facts],
    /// The earlier build with which this one is compared, if there is one.
    pub baseline: Option<&'a Baseline<'a>>,
    /// The keys with which names and diagnostics are hashed. The text doesn't depend on them.
    pub keys: HashKeys,
}

impl Render for BuildRequest<'_> {
    ghost text = { λ request. build_json (request_of request) };

    fn render<W: Sink>(
        &self,
        alloc: Global,
        table: &LogTable,
        requested: &[TargetName],
        out: &mut W,
    ) -> Result<(), FormFault> {
        write_build(alloc, table, self, requested, out)
    }
}

/// Writes the object of each log that is opened for the requested targets, in this order, each with a line feed after it. Each requested
/// target must have a log. All logs must have ended.
///
/// A write that fails or takes no byte ends the call, and nothing is written after it. `out` isn't flushed. No object is held in memory,
/// but the commands and the needs of one log are. A map has the keys of its diagnostics. A buffer holds some 32 KiB of diagnostics, or up to
/// 64 KiB of lines with their escapes, which take at most six times as much.
/// If there is a baseline, its diagnostics are in memory too, and the earlier log's diagnostics.
pub fn write_build<W: Sink>(
    alloc: Global,
    table: &LogTable,
    request: &BuildRequest<'_>,
    requested: &[TargetName],
    out: &mut W,
) -> Result<(), FormFault>
    requires ended { list_all has_ended table.now ≡ true }
    requires known { find_unknown table.now requested.now ≡ None }
    ensures { FormWrites (W.written out.old) (W.written out.new) (build_json (request_of request.now) table.now requested.now) result }
{
    let outline = Outline::without_warnings(
        alloc,
        table,
        &json_options(request.unchanged),
        requested,
    )?;
    write_logs(alloc, table, request, outline.nodes(), out)
}

/// Returns the options with which the logs are shown. `unchanged` says whether logs of targets that needed no rebuild are opened. A
/// baseline is made with the same options.
pub fn json_options(unchanged: bool) -> Options
    ensures { result ≡ json_options unchanged }
{
    Options {
        recursive: true,
        unchanged,
        details: true,
        debug_locks: false,
        debug_pids: false,
    }
}

// Writes the objects of these nodes.
fn write_logs<W: Sink>(
    alloc: Global,
    table: &LogTable,
    request: &BuildRequest<'_>,
    nodes: &[Node],
    out: &mut W,
) -> Result<(), FormFault>
    ensures { FormWrites (W.written out.old) (W.written out.new)
        (flat_map (λ node. with_line_feed (object_text (node_values (request_of request.now) table.now nodes.now node))) nodes.now) result }
{
    let mut buffer = Vec::new(alloc);
    let mut counts = KeyCounts::new(alloc, request.keys);
    for node in nodes {
        write_log(
            alloc,
            table,
            request,
            nodes,
            node,
            &mut buffer,
            &mut counts,
            out,
        )?;
    }
    Ok(())
}

// Writes the object of one of these nodes. `buffer` is overwritten, and what `counts` had is lost.
fn write_log<'t, W: Sink>(
    alloc: Global,
    table: &'t LogTable,
    request: &BuildRequest<'_>,
    nodes: &[Node],
    node: &Node,
    buffer: &mut Vec<u8>,
    counts: &mut KeyCounts<'t>,
    out: &mut W,
) -> Result<(), FormFault>
    ensures { FormWrites (W.written out.old) (W.written out.new)
        (with_line_feed (object_text (node_values (request_of request.now) table.now nodes.now node.now))) result }
{
    let times = times_at(request.times, node.number);
    let recipe = recipe_at(request.facts, node.number);
    let commands = whole_commands(alloc, recipe.commands)?;
    let needs = needs_of(alloc, request.keys, table, node.number)?;
    let changes = changes_in(alloc, request.baseline, table, node)?;
    let command_texts = commands.as_slice();
    let names = needs.as_slice();
    let log = LogObject {
        target: target_at(table, node.number),
        parent: parent_of(table, nodes, node),
        status: node.status,
        start_ms: times.began,
        end_ms: times.ended,
        cpu_ms: recipe.cpu_ms,
        peak_kb: recipe.peak_kb,
        directory: recipe.directory,
        commands: command_texts,
        needs: names,
        table,
        number: node.number,
        changes: changes.as_ref(),
    };
    write_object(alloc, &log, buffer, counts, out)
}

// Returns what changed in the target of a node since the baseline, if there is one.
fn changes_in(
    alloc: Global,
    baseline: Option<&Baseline<'_>>,
    table: &LogTable,
    node: &Node,
) -> Result<Option<TargetChanges>, AllocError>
    ensures { IfOk result (λ changes. changes ≡ changes_in (option_copied baseline.entry) table.now node.now) }
{
    match baseline {
        None => Ok(None),
        Some(baseline) => Ok(Some(baseline.changes(alloc, table, node)?)),
    }
}

// Returns the target in whose log a node's log is opened.
fn parent_of<'a>(table: &'a LogTable, nodes: &[Node], node: &Node) -> Option<&'a [u8]>
    ensures { option_copied result ≡ parent_name table.now nodes.now node.now.parent }
{
    match node.parent {
        Some(position) => match nodes.get(position) {
            Some(parent) => Some(target_at(table, parent.number)),
            None => None,
        },
        None => None,
    }
}

// Returns the times of the target of the log with this number.
fn times_at(times: &[Times], number: u32) -> Times
    ensures { result ≡ slice_index_or times.now number unknown_times }
{
    match times.get(number as usize) {
        Some(times) => *times,
        None => Times {
            began: None,
            ended: None,
            ran_others: false,
        },
    }
}

// What is known of a recipe.
#[derive(Clone, Copy)]
pub struct Recipe<'a> {
    pub cpu_ms: Option<u64>,
    pub peak_kb: Option<u64>,
    pub directory: Option<&'a [u8]>,
    pub commands: &'a [Command],
}

// Returns what is known of the recipe of the target of the log with this number.
fn recipe_at(facts: &[Facts], number: u32) -> Recipe<'_>
    ensures { IsRecipeOf (slice_index_or facts.now number nothing) result }
{
    match facts.get(number as usize) {
        Some(facts) => Recipe {
            cpu_ms: cpu_ms(facts.usage()),
            peak_kb: peak_kb(facts.usage()),
            directory: facts.directory(),
            commands: facts.commands(),
        },
        None => Recipe {
            cpu_ms: None,
            peak_kb: None,
            directory: None,
            commands: &[],
        },
    }
}

fn cpu_ms(usage: Option<Usage>) -> Option<u64>
    ensures { result ≡ option_map cpu_time usage }
{
    match usage {
        Some(usage) => Some(usage.user_ms.saturating_add(usage.system_ms)),
        None => None,
    }
}

fn peak_kb(usage: Option<Usage>) -> Option<u64>
    ensures { result ≡ option_map (λ (usage : spec.Usage). usage.peak_kb) usage }
{
    match usage {
        Some(usage) => Some(usage.peak_kb),
        None => None,
    }
}

// Returns the commands that are known whole.
fn whole_commands<'a>(alloc: Global, commands: &'a [Command]) -> Result<Vec<&'a [u8]>, AllocError>
    ensures { IfOk result (λ texts. map (λ text. text.now) texts.items ≡ whole_commands commands.now) }
{
    let mut texts = Vec::with_capacity(alloc, commands.len())?;
    for command in commands {
        if command.is_whole() {
            texts.push(command.text())?;
        }
    }
    Ok(texts)
}
