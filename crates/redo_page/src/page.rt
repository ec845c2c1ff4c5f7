//! The page of a build.
//!
//! The events are walked twice, for the outline and for the tree. Everything above the tree (heading, failures, causes, excerpts, summary,
//! timeline) depends on the outline, the times and the stored lines.
//!
//! The times reach the page in two ways. `Outline::set_times` sets how long each target took and when it ended: for the tree, for articles
//! and for the order of failures. `Summary::new` computes all the rest. The tree needs no list of times. What recipes used reaches only
//! the summary.
ghost use Rattle.std.specs.Prelude.{◌≡◌, ◌++◌, true, None, IfOk, length, map};
ghost use Rattle.std.specs.List.{flat_map, list_all};
ghost use Rattle.redo_device.specs.Sink.{Writes};
ghost use Rattle.redo_html.specs.Parts.{part_html};
ghost use Rattle.redo_logs.specs.Logs.{has_ended};
ghost use Rattle.redo_view.specs.Form.{FormWrites};
ghost use Rattle.redo_view.specs.View.{find_unknown};
ghost use Rattle.redo_outline.specs.Contents.{contents_of};
ghost use Rattle.redo_outline.specs.Outline.{log_count};
ghost use Rattle.redo_view.specs.Expansion.{shown_events};
ghost use Rattle.redo_page.specs.Frame.{footer_parts};
ghost use Rattle.redo_page.specs.Tree.{articles, root_failures};
ghost use Rattle.redo_page.specs.Page.{options_of, page_html, page_options, page_outline, request_of, run_times, top_parts};
ghost use Rattle.redo_summary.specs.Targets.{time_between};
ghost use Rattle.redo_page.specs.Private.PageTexts.{AreFailures, AreTexts};
ghost use Rattle.redo_page.specs.Private.Streaming.{streamed_body};
ghost use Rattle.redo_page.specs.Private.Viewing.{view_of};
ghost use Rattle.redo_page.specs.Private.Writing.{WroteParts};

use crate::command::command;
use crate::failed::{FAILURES, Failures, find_failures};
use crate::frame::{FOOTER, HEAD, HEADER};
use crate::news::{NEWS, News};
use crate::nodes::NO_NODE;
use crate::scope::{Listed, Scope};
use crate::summary::SECTION;
use crate::template::{Block, write_template};
use crate::timeline::write_timeline;
use crate::tree::write_tree;
use crate::verdict::{Verdict, title_text};
use crate::writer::PageWriter;
use redo_compare::Baseline;
use redo_device::{Broken, Sink};
use redo_facts::Facts;
use redo_line::TargetName;
use redo_logs::LogTable;
use redo_outline::{Node, Outline, RunTimes};
use redo_summary::{Rank, Summary, UsageSummary};
use redo_times::Times;
use redo_view::{FormFault, Options, Render};
use std::alloc::{AllocError, Global};

/// The parameters of a page.
#[derive(Clone, Copy)]
pub struct PageRequest<'a> {
    /// A title, or nothing. The page has it at its top, and the browser in its tab.
    pub title: &'a [u8],
    /// The capture directory, as it was given.
    pub dir: &'a [u8],
    /// Whether targets that needed no rebuild are shown too.
    pub unchanged: bool,
    /// Whether every mention is shown, with what was done about the target's lock.
    pub debug_locks: bool,
    /// The number of bytes of text lines that the page may show; 0 if it shows all.
    pub max_bytes: u64,
    /// When each target began and ended, by the number of its log. Nothing is known of a target past the end.
    pub times: &'a [Times],
    /// The facts of each target's recipe, by the number of its log. Nothing is known of a target past the end.
    pub recipes: &'a [Facts],
    /// An earlier build, if the page says what is new since then. It is made with the page's options ([`page_options`]) and requested targets.
    pub baseline: Option<&'a Baseline<'a>>,
}

/// Writes the page of the requested targets. Each of them must have a log. All logs must have ended.
///
/// Writing begins once everything above the tree is computed. A write that fails or takes no byte ends the call, and nothing is written
/// after it. `out` isn't flushed. Nested logs take memory, but no stack.
pub fn write_page<W: Sink>(
    alloc: Global,
    table: &LogTable,
    request: &PageRequest<'_>,
    requested: &[TargetName],
    out: &mut W,
) -> Result<(), FormFault>
    requires ended { list_all has_ended table.now ≡ true }
    requires known { find_unknown table.now requested.now ≡ None }
    ensures { FormWrites (W.written out.old) (W.written out.new) (page_html (request_of request.now) table.now requested.now) result }
{
    let options = page_options(request.unchanged, request.debug_locks);
    let outline = outline_of(alloc, table, request, &options, requested)?;
    write_outlined(alloc, table, request, &options, requested, &outline, out)
}

impl Render for PageRequest<'_> {
    ghost text = { λ request. page_html (request_of request) };

    fn render<W: Sink>(
        &self,
        alloc: Global,
        table: &LogTable,
        requested: &[TargetName],
        out: &mut W,
    ) -> Result<(), FormFault> {
        write_page(alloc, table, self, requested, out)
    }
}

// Makes the outline of the shown logs, with how long each target took, and when it ended.
fn outline_of(
    alloc: Global,
    table: &LogTable,
    request: &PageRequest<'_>,
    options: &Options,
    requested: &[TargetName],
) -> Result<Outline, AllocError>
    requires ended { list_all has_ended table.now ≡ true }
    requires known { find_unknown table.now requested.now ≡ None }
    requires options { options.now ≡ options_of (request_of request.now) }
    ensures { IfOk result (λ outline. outline ≡ page_outline (request_of request.now) table.now requested.now) }
{
    let times = all_run_times(alloc, request.times)?;
    let mut outline = Outline::new(alloc, table, options, requested)?;
    outline.set_times(&times);
    Ok(outline)
}

// Returns how long each target took, and when it ended, by the number of its log.
fn all_run_times(alloc: Global, times: &[Times]) -> Result<Vec<RunTimes>, AllocError>
    ensures { IfOk result (λ all. all.items ≡ map run_times times.now) }
{
    times.iter().map(|times| run_times(times)).collect(alloc)
}

fn run_times(times: &Times) -> RunTimes
    ensures { result ≡ run_times times.now }
{
    RunTimes {
        took: time_between(times),
        ended: times.ended,
    }
}

fn time_between(times: &Times) -> Option<u64>
    ensures { result ≡ time_between times.now.began times.now.ended }
{
    match (times.began, times.ended) {
        (Some(began), Some(ended)) => Some(ended.saturating_sub(began)),
        _ => None,
    }
}

// Writes the page with this outline.
fn write_outlined<W: Sink>(
    alloc: Global,
    table: &LogTable,
    request: &PageRequest<'_>,
    options: &Options,
    requested: &[TargetName],
    outline: &Outline,
    out: &mut W,
) -> Result<(), FormFault>
    requires ended { list_all has_ended table.now ≡ true }
    requires known { find_unknown table.now requested.now ≡ None }
    requires options { options.now ≡ options_of (request_of request.now) }
    requires outline { outline.now ≡ page_outline (request_of request.now) table.now requested.now }
    ensures { FormWrites (W.written out.old) (W.written out.new) (page_html (request_of request.now) table.now requested.now) result }
{
    let nodes = outline.nodes();
    let failures = find_failures(alloc, nodes)?;
    let texts = Texts::new(alloc, request, options, requested, nodes, &failures)?;
    let summary = Summary::new(alloc, nodes, request.times)?;
    let usage = UsageSummary::new(alloc, nodes, request.recipes, summary.recipes())?;
    let roots = failures.roots.as_slice();
    let dependents = failures.dependents.as_slice();
    let unclosed = failures.unclosed.as_slice();
    let news = News::find(alloc, table, nodes, request.baseline)?;
    let scope = Scope {
        request,
        texts: &texts,
        table,
        nodes,
        facts: &summary,
        usage: &usage,
        roots,
        dependents,
        unclosed,
        news: &news,
        rank: Rank {
            value: 0,
            position: 0,
        },
        largest: 0,
        node: NO_NODE,
    };
    write_stages(alloc, &scope, options, requested, outline, out)
}

// Writes a page up to the timeline, then the timeline and the tree, and then the rest.
fn write_stages<W: Sink>(
    alloc: Global,
    scope: &Scope<'_>,
    options: &Options,
    requested: &[TargetName],
    outline: &Outline,
    out: &mut W,
) -> Result<(), FormFault>
    requires ended { list_all has_ended scope.now.table.now ≡ true }
    requires known { find_unknown scope.now.table.now requested.now ≡ None }
    requires nodes { scope.now.nodes.now ≡ outline.now }
    requires count { length outline.now ≡ log_count (contents_of (shown_events scope.now.table.now options.now requested.now)) }
    requires roots { scope.now.roots.now ≡ root_failures outline.now }
    ensures { FormWrites (W.written out.old) (W.written out.new)
        (flat_map part_html (top_parts (view_of scope.now)
        ++ (streamed_body (view_of scope.now) options.now scope.now.request.now.max_bytes requested.now
        ++ footer_parts (view_of scope.now)))) result }
{
    write_top(scope, out)?;
    let articles = scope.positions(Listed::Articles);
    write_body(alloc, scope, options, requested, outline, articles, out)?;
    write_template(&FOOTER, scope, out)?;
    Ok(())
}

// Writes the timeline and the tree.
fn write_body<W: Sink>(
    alloc: Global,
    scope: &Scope<'_>,
    options: &Options,
    requested: &[TargetName],
    outline: &Outline,
    positions: &[usize],
    out: &mut W,
) -> Result<(), FormFault>
    requires ended { list_all has_ended scope.now.table.now ≡ true }
    requires known { find_unknown scope.now.table.now requested.now ≡ None }
    requires nodes { scope.now.nodes.now ≡ outline.now }
    requires count { length outline.now ≡ log_count (contents_of (shown_events scope.now.table.now options.now requested.now)) }
    requires articles { positions.now ≡ articles outline.now }
    ensures { FormWrites (W.written out.old) (W.written out.new)
        (flat_map part_html (streamed_body (view_of scope.now) options.now scope.now.request.now.max_bytes requested.now)) result }
{
    write_timeline(alloc, scope, out)?;
    write_tree(
        alloc,
        scope.table,
        options,
        requested,
        outline,
        positions,
        scope.request.max_bytes,
        out,
    )
}

// The texts of a page that aren't in its logs.
#[derive(Drop)]
pub struct Texts {
    pub verdict: Verdict,
    pub heading: Vec<u8>,
    pub title: Vec<u8>,
    pub command: Vec<u8>,
}

impl Texts {
    fn new(
        alloc: Global,
        request: &PageRequest<'_>,
        options: &Options,
        requested: &[TargetName],
        nodes: &[Node],
        failures: &Failures,
    ) -> Result<Texts, AllocError>
        requires { AreFailures nodes.now failures.now }
        ensures { IfOk result (AreTexts (request_of request.now) options.now requested.now nodes.now) }
    {
        let failures = failures.roots.len();
        let verdict = Verdict::of(nodes, failures);
        let heading = verdict.text(alloc, nodes, failures)?;
        let title = title_text(alloc, request.title, verdict, &heading)?;
        let command = command(alloc, request.dir, options, requested)?;
        Ok(Texts {
            verdict,
            heading,
            title,
            command,
        })
    }
}

/// Returns the options with which a page shows logs: all of them, and whether it shows targets that needed no rebuild, and what was done
/// about locks. The baseline of a page is made with these options.
pub fn page_options(unchanged: bool, debug_locks: bool) -> Options
    ensures { result ≡ page_options unchanged debug_locks }
{
    Options {
        recursive: true,
        unchanged,
        details: true,
        debug_locks,
        debug_pids: false,
    }
}

// Writes everything before the timeline.
fn write_top<W: Sink>(scope: &Scope<'_>, out: &mut W) -> Result<(), Broken>
    ensures { Writes (W.written out.old) (W.written out.new) (flat_map part_html (top_parts (view_of scope.now))) result }
{
    let mut page = PageWriter::new(out);
    write_top_parts(scope, &mut page);
    page.result()
}

fn write_top_parts<W: Sink>(scope: &Scope<'_>, page: &mut PageWriter<'_, W>)
    ensures { WroteParts W.written page.old page.new (top_parts (view_of scope.now)) }
{
    HEAD.write(scope, page);
    HEADER.write(scope, page);
    FAILURES.write(scope, page);
    NEWS.write(scope, page);
    SECTION.write(scope, page);
}
