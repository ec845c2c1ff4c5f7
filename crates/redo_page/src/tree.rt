//! The tree of a page, in one pass over the events.
//!
//! `TreeForm` is the form that writes the tree. Its state is the logs that are open, the position of the next log, and the open group or
//! block of text (`Pending`). `Trimmed` of `redo_trim` owns it and leaves out the middle of long logs; a `TreeForm` knows of no limits.
//! `tree_parts` defines the tree by items. `streamed_tree` has the same parts, in the order in which this file writes them. The code has no
//! recursion.
ghost use Rattle.std.specs.Prelude.{◌≡◌, ◌++◌, true, None, [], OnOk, length, reverse};
ghost use Rattle.std.specs.List.{flat_map, list_all};
ghost use Rattle.redo_device.specs.Sink.{Writes};
ghost use Rattle.redo_html.specs.Parts.{part_html};
ghost use Rattle.redo_line.specs.Lines.{ended, rest};
ghost use Rattle.redo_logs.specs.Logs.{has_ended};
ghost use Rattle.redo_outline.specs.Contents.{contents_of};
ghost use Rattle.redo_outline.specs.Outline.{log_count};
ghost use Rattle.redo_view.specs.Expansion.{shown_events};
ghost use Rattle.redo_view.specs.Form.{FormWrites, bytes_of, state_after};
ghost use Rattle.redo_view.specs.View.{find_unknown};
ghost use Rattle.redo_view.specs.EventRef.{IsWrittenAlone, event_value};
ghost use Rattle.redo_page.specs.Private.Referring.{build_value};
ghost use Rattle.redo_page.specs.Private.Walking.{after_ending, after_event, after_opening, after_texts, ending_parts, level_in, next_position, opened_log, start_of, texts_parts, tree_bytes, tree_text, walk_parts};
ghost use Rattle.redo_page.specs.Limits.{tree_limits};
ghost use Rattle.redo_trim.specs.Trim.{trim, trimmed};
ghost use Rattle.redo_page.specs.Private.Writing.{WroteParts};
ghost use Rattle.redo_page.specs.Tree.{articles, section_end, section_start};
ghost use Rattle.redo_page.specs.Private.Streaming.{after_shown, end_parts, log_start, shown_parts, streamed_tree};

use crate::block::Pending;
use crate::build::BuildRef;
use crate::items::{after_shown, write_end, write_shown};
use crate::labels::{ALL_LOGS, TREE_IS};
use crate::level::{Level, OpenLog};
use crate::limits::{cap_for, limits_of};
use crate::logs::{after_log, group_left, write_log_end, write_log_start};
use crate::step::{Step, step_of};
use crate::texts::write_lines;
use crate::writer::PageWriter;
use redo_device::{Broken, Sink};
use redo_html::{Markup, Piece, write_pieces};
use redo_line::TargetName;
use redo_logs::LogTable;
use redo_outline::{Node, Outline, events_are_in_contents};
use redo_trim::{Limit, Trimmed, trimmed_events_are_in_tree, trimmed_form_writes};
use redo_view::{EventRef, Form, FormFault, Options, ViewFault, view_as};
use std::alloc::{AllocError, Global};
use std::marker::Model;

/// The form in which the tree is written.
#[derive(Drop)]
pub struct TreeForm<'a> {
    build: BuildRef<'a>,
    // The logs that are open, the outermost first.
    logs: Vec<OpenLog>,
    // The position of the next log.
    next: usize,
    pending: Pending,
}

impl<'a> Model for TreeForm<'a> {
    ghost use Rattle.std.specs.Prelude.{reverse};
    ghost use Rattle.redo_page.specs.Private.Referring.{build_value};
    ghost use Rattle.redo_page.specs.Private.Walking.{Walk};

    ghost Value = { Walk };

    ghost view = { λ form. record {
      build = build_value form.build;
      logs = reverse form.logs.items;
      next = form.next;
      before = form.pending;
    } };
}

const TOP_LEVEL: Level = Level {
    position: None,
    expanded: true,
    depth: 0,
};

// Returns the level in the last of these logs.
fn level_in(logs: &[OpenLog]) -> Level
    ensures { result ≡ level_in (reverse logs.now) }
{
    match logs.last() {
        Some(log) => Level {
            position: Some(log.position),
            expanded: log.expanded,
            depth: logs.len(),
        },
        None => TOP_LEVEL,
    }
}

// Returns the position after a position.
fn next_position(nodes: &[Node], position: usize) -> usize
    ensures { result ≡ next_position nodes.now position }
{
    if position < nodes.len() {
        position + 1
    } else {
        position
    }
}

fn opened_log(build: &BuildRef<'_>, level: Level, position: usize, pending: Pending) -> OpenLog
    ensures { result ≡ opened_log (build_value build.now) level position pending }
{
    OpenLog {
        position,
        expanded: build.is_expanded(level, &build.node(position)),
        left: group_left(build, level, position, pending),
    }
}

impl<'a> TreeForm<'a> {
    // Creates the form before all events.
    fn new(alloc: Global, build: BuildRef<'a>) -> TreeForm<'a>
        ensures { result ≡ start_of (build_value build.entry) }
    {
        TreeForm {
            build,
            logs: Vec::new(alloc),
            next: 0,
            pending: Pending::Nothing,
        }
    }

    // Writes a log up to its contents. The event opens the log.
    fn open_log<W: Sink>(
        &mut self,
        event: EventRef<'_>,
        page: &mut PageWriter<'_, W>,
    ) -> Result<(), AllocError>
        ensures wrote { WroteParts W.written page.old page.new
            (log_start self.old.build (level_in self.old.logs) self.old.next self.old.before (event_value event.entry)) }
        ensures state { OnOk result (self.new ≡ after_opening self.old) }
    {
        let level = level_in(&self.logs);
        write_log_start(&self.build, level, self.next, self.pending, event, page);
        self.logs
            .push(opened_log(&self.build, level, self.next, self.pending))?;
        self.next = next_position(self.build.outline.nodes(), self.next);
        self.pending = Pending::Nothing;
        Ok(())
    }

    // Writes the end of the log that was opened last, if one is open.
    fn end_log<W: Sink>(&mut self, page: &mut PageWriter<'_, W>)
        ensures wrote { WroteParts W.written page.old page.new (ending_parts self.old.build self.old.before self.old.logs) }
        ensures state { self.new ≡ after_ending self.old self.old.logs }
    {
        if let Some(log) = self.logs.pop() {
            write_end(self.pending, page);
            write_log_end(
                &self.build,
                level_in(&self.logs),
                log.position,
                log.left,
                page,
            );
            self.pending = after_log(log.left);
        }
    }

    // Writes an event that opens no log and ends none.
    fn show<W: Sink>(&mut self, event: EventRef<'_>, page: &mut PageWriter<'_, W>)
        requires { IsWrittenAlone event }
        ensures wrote { WroteParts W.written page.old page.new
            (shown_parts self.old.build (level_in self.old.logs) self.old.before (event_value event.entry)) }
        ensures state { self.new ≡ record self.old {
          before =
              after_shown self.old.build (level_in self.old.logs) self.old.before (event_value event.entry);
        } }
    {
        let level = level_in(&self.logs);
        write_shown(&self.build, level, self.pending, event, page);
        self.pending = after_shown(&self.build, level, self.pending, event);
    }

    // Writes an event that is no text line.
    fn put<W: Sink>(
        &mut self,
        event: EventRef<'_>,
        page: &mut PageWriter<'_, W>,
    ) -> Result<(), AllocError>
        requires { IsWrittenAlone event }
        ensures wrote { WroteParts W.written page.old page.new (walk_parts self.old (event_value event.entry)) }
        ensures state { OnOk result (self.new ≡ after_event self.old (event_value event.entry)) }
    {
        match step_of(event) {
            Step::Opens => self.open_log(event, page)?,
            Step::Ends => self.end_log(page),
            Step::Shows => self.show(event, page),
        }
        Ok(())
    }

    // Writes an event that is no text line. Returns whether the writer failed, and whether memory ran out.
    fn write_event<W: Sink>(
        &mut self,
        event: EventRef<'_>,
        out: &mut W,
    ) -> (Result<(), Broken>, Result<(), AllocError>)
        requires { IsWrittenAlone event }
        ensures wrote { Writes (W.written out.old) (W.written out.new)
            (flat_map part_html (walk_parts self.old (event_value event.entry))) result.0 }
        ensures state { OnOk result.1 (self.new ≡ after_event self.old (event_value event.entry)) }
    {
        let mut page = PageWriter::new(out);
        let done = self.put(event, &mut page);
        (page.result(), done)
    }

    // Writes the end of the section, after all events.
    fn end<W: Sink>(&self, out: &mut W) -> Result<(), FormFault>
        ensures { FormWrites (W.written out.old) (W.written out.new)
            (flat_map part_html (end_parts self.now.before ++ section_end)) result }
    {
        write_section_end(self.pending, out)?;
        Ok(())
    }

    // Writes text lines, unless they are in an article.
    fn put_texts<W: Sink>(&mut self, lines: &[u8], out: &mut W) -> Result<(), Broken>
        requires { rest lines.now ≡ [] }
        ensures wrote { Writes (W.written out.old) (W.written out.new)
            (flat_map part_html (texts_parts self.old (ended lines.now))) result }
        ensures state { OnOk result (self.new ≡ after_texts self.old (ended lines.now)) }
    {
        if self.build.is_moved_if(level_in(&self.logs).position) {
            return Ok(());
        }
        write_lines(&mut self.pending, lines, out)
    }
}

impl<'a> Form for TreeForm<'a> {
    ghost bytes = { λ form event. flat_map part_html (walk_parts form event) };

    ghost after = { λ form event. after_event form event };

    fn write<W: Sink>(&mut self, event: EventRef<'_>, out: &mut W) -> Result<(), FormFault> {
        let (wrote, done) = self.write_event(event, out);
        wrote?;
        done?;
        Ok(())
    }

    fn write_texts<W: Sink>(
        &mut self,
        _depth: usize,
        lines: &[u8],
        out: &mut W,
    ) -> Result<(), FormFault> {
        self.put_texts(lines, out)?;
        Ok(())
    }
}

fn write_section_start<W: Sink>(out: &mut W) -> Result<(), Broken>
    ensures { Writes (W.written out.old) (W.written out.new) (flat_map part_html section_start) result }
{
    write_pieces(
        &[
            Piece::Markup(Markup::TreeSection),
            Piece::Markup(Markup::TreeHeading),
            Piece::Text(ALL_LOGS),
            Piece::Markup(Markup::EndHeading),
            Piece::Markup(Markup::QuietParagraph),
            Piece::Text(TREE_IS),
            Piece::Markup(Markup::EndParagraph),
            Piece::Markup(Markup::Tree),
        ],
        out,
    )
}

fn put_section_end<W: Sink>(pending: Pending, page: &mut PageWriter<'_, W>)
    ensures { WroteParts W.written page.old page.new (end_parts pending ++ section_end) }
{
    write_end(pending, page);
    page.put(&[
        Piece::Markup(Markup::EndUnordered),
        Piece::Markup(Markup::EndSection),
    ])
}

// Writes the end of the open group or block, and of the section.
fn write_section_end<W: Sink>(pending: Pending, out: &mut W) -> Result<(), Broken>
    ensures { Writes (W.written out.old) (W.written out.new) (flat_map part_html (end_parts pending ++ section_end)) result }
{
    let mut page = PageWriter::new(out);
    put_section_end(pending, &mut page);
    page.result()
}

// Writes all events, without the middle of long logs.
fn write_events<'a, W: Sink>(
    alloc: Global,
    build: BuildRef<'a>,
    requested: &[TargetName],
    form: &mut Trimmed<'_, TreeForm<'a>>,
    out: &mut W,
) -> Result<(), FormFault>
    requires ended { list_all has_ended build.table.now ≡ true }
    requires known { find_unknown build.table.now requested.now ≡ None }
    requires start { form.old.gauges ≡ [] }
    ensures wrote { FormWrites (W.written out.old) (W.written out.new)
        (bytes_of tree_bytes after_event form.old.form (trimmed form.old.limits.now []
        (shown_events build.entry.table.now build.entry.options.now requested.now))) result }
    ensures state { OnOk result (form.new.form ≡ state_after after_event form.old.form (trimmed form.old.limits.now []
        (shown_events build.entry.table.now build.entry.options.now requested.now))) }
{
    trimmed_form_writes::<TreeForm<'a>>();
    match view_as(alloc, build.table, build.options, form, requested, out) {
        Ok(()) => Ok(()),
        Err(ViewFault::Write) => Err(FormFault::Write),
        Err(ViewFault::OutOfMemory) => Err(FormFault::OutOfMemory),
        Err(ViewFault::Unknown { .. }) => unreachable!(),
    }
}

// Writes all events, and the end of the section.
fn write_all<W: Sink>(
    alloc: Global,
    build: BuildRef<'_>,
    limits: &[Limit],
    requested: &[TargetName],
    out: &mut W,
) -> Result<(), FormFault>
    requires ended { list_all has_ended build.table.now ≡ true }
    requires known { find_unknown build.table.now requested.now ≡ None }
    ensures { FormWrites (W.written out.old) (W.written out.new) (tree_text (build_value build.entry)
        (trimmed limits.now [] (shown_events build.entry.table.now build.entry.options.now requested.now))) result }
{
    let form = TreeForm::new(alloc, build);
    let mut trimmed = Trimmed::new(alloc, form, limits);
    write_events(alloc, build, requested, &mut trimmed, out)?;
    trimmed.into_form().end(out)
}

/// Writes the tree of everything that is shown. Each requested target must have a log, all logs must have ended, the outline must
/// have a node for each log that is opened, and `positions` must be the positions of the targets that have an article. Long logs are cut, so
/// that the tree has about `budget` bytes of text lines; 0 doesn't limit them.
pub fn write_tree<W: Sink>(
    alloc: Global,
    table: &LogTable,
    options: &Options,
    requested: &[TargetName],
    outline: &Outline,
    positions: &[usize],
    budget: u64,
    out: &mut W,
) -> Result<(), FormFault>
    requires ended { list_all has_ended table.now ≡ true }
    requires known { find_unknown table.now requested.now ≡ None }
    requires outline { length outline.now ≡ log_count (contents_of (shown_events table.now options.now requested.now)) }
    requires articles { positions.now ≡ articles outline.now }
    ensures { FormWrites (W.written out.old) (W.written out.new) (flat_map part_html
        (streamed_tree table.now options.now outline.now (trim (tree_limits table.now outline.now budget) []
        (contents_of (shown_events table.now options.now requested.now))))) result }
{
    events_are_in_contents();
    trimmed_events_are_in_tree();
    let build = BuildRef {
        table,
        options,
        outline,
        articles: positions,
    };
    let limits = limits_of(alloc, &build, cap_for(outline.nodes(), budget))?;
    write_section_start(out)?;
    write_all(alloc, build, &limits, requested, out)
}
