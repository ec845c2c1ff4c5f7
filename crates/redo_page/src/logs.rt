//! The start and the end of a log in the tree.
ghost use Rattle.std.specs.Prelude.{◌≡◌};
ghost use Rattle.redo_view.specs.EventRef.{event_value};
ghost use Rattle.redo_html.specs.Parts.{Part};
ghost use Rattle.redo_page.specs.Private.Referring.{build_value};
ghost use Rattle.redo_page.specs.Private.Writing.{WroteParts};
ghost use Rattle.redo_page.specs.Tree.{closing_parts, depth_parts, details_markup, empty_start, flat_end, flat_start, heading_parts, max_depth, min_group, moved_parts, nested_start, opening_parts};
ghost use Rattle.redo_page.specs.Private.Streaming.{after_log, group_end, group_left, group_parts, group_size, group_start, log_end, log_start};

use crate::block::Pending;
use crate::build::{BuildRef, is_empty, is_silent};
use crate::items::write_end;
use crate::labels::{END_OF, FACT_DOT, LEVEL, SHOWN_ABOVE, SILENT_TARGETS};
use crate::level::Level;
use crate::targets::{write_facts, write_how, write_name};
use crate::writer::PageWriter;
use redo_device::Sink;
use redo_html::{Markup, Piece};
use redo_view::EventRef;

const MAX_DEPTH: usize = 60;

const MIN_GROUP: usize = 5;

// Writes the name of a target whose log an event opens, with the facts about it.
fn write_heading<W: Sink>(
    build: &BuildRef<'_>,
    event: EventRef<'_>,
    position: usize,
    page: &mut PageWriter<'_, W>,
)
    ensures { WroteParts W.written page.old page.new (heading_parts (build_value build.now) (event_value event.entry) position) }
{
    match event {
        EventRef::Requested { name, .. } => {
            write_name(name.bytes(), page);
            write_facts(&build.node(position), page)
        }
        EventRef::Mentioned { how, name, .. } => {
            write_name(name.bytes(), page);
            write_how(build.options.debug_locks, how, page);
            write_facts(&build.node(position), page)
        }
        EventRef::EntryShown { .. } | EventRef::LogEnds { .. } => {}
    }
}

// Writes the link to the output of a target, if it is in an article.
fn write_moved<W: Sink>(build: &BuildRef<'_>, position: usize, page: &mut PageWriter<'_, W>)
    ensures { WroteParts W.written page.old page.new (moved_parts (build_value build.now) position) }
{
    if !build.is_moved(position) {
        return;
    }
    page.put(&[
        Piece::Markup(Markup::NoteItem),
        Piece::Markup(Markup::OutputLink(position as u64)),
        Piece::Text(SHOWN_ABOVE),
        Piece::Markup(Markup::EndLink),
        Piece::Markup(Markup::EndItem),
    ])
}

fn write_empty_start<W: Sink>(
    build: &BuildRef<'_>,
    position: usize,
    event: EventRef<'_>,
    page: &mut PageWriter<'_, W>,
)
    ensures { WroteParts W.written page.old page.new
        (empty_start position (heading_parts (build_value build.now) (event_value event.entry) position)) }
{
    page.put(&[Piece::Markup(Markup::TargetItem(position as u64))]);
    write_heading(build, event, position, page)
}

fn write_depth<W: Sink>(depth: usize, page: &mut PageWriter<'_, W>)
    ensures { WroteParts W.written page.old page.new (depth_parts depth) }
{
    page.put(&[
        Piece::Text(b" "),
        Piece::Markup(Markup::Small),
        Piece::Text(FACT_DOT),
        Piece::Text(LEVEL),
        Piece::Number(depth as u64),
        Piece::Markup(Markup::EndSmall),
        Piece::Markup(Markup::EndItem),
    ])
}

fn write_flat_start<W: Sink>(
    build: &BuildRef<'_>,
    position: usize,
    depth: usize,
    event: EventRef<'_>,
    page: &mut PageWriter<'_, W>,
)
    ensures { WroteParts W.written page.old page.new
        (flat_start (build_value build.now) position depth (heading_parts (build_value build.now) (event_value event.entry) position)) }
{
    page.put(&[Piece::Markup(Markup::TargetItem(position as u64))]);
    write_heading(build, event, position, page);
    write_depth(depth, page);
    write_moved(build, position, page)
}

fn write_flat_end<W: Sink>(build: &BuildRef<'_>, position: usize, page: &mut PageWriter<'_, W>)
    ensures { WroteParts W.written page.old page.new (flat_end (build_value build.now) position) }
{
    page.put(&[Piece::Markup(Markup::NoteItem), Piece::Text(END_OF)]);
    write_name(build.target(build.node(position).number), page);
    page.put(&[Piece::Markup(Markup::EndItem)])
}

fn details_markup(expanded: bool, position: usize) -> Markup
    ensures { result ≡ details_markup expanded position }
{
    if expanded {
        Markup::OpenDetails(position as u64)
    } else {
        Markup::Details(position as u64)
    }
}

fn write_nested_start<W: Sink>(
    build: &BuildRef<'_>,
    expanded: bool,
    position: usize,
    event: EventRef<'_>,
    page: &mut PageWriter<'_, W>,
)
    ensures { WroteParts W.written page.old page.new
        (nested_start (build_value build.now) expanded position
        (heading_parts (build_value build.now) (event_value event.entry) position)) }
{
    page.put(&[
        Piece::Markup(Markup::Item),
        Piece::Markup(details_markup(expanded, position)),
        Piece::Markup(Markup::Summary),
    ]);
    write_heading(build, event, position, page);
    page.put(&[
        Piece::Markup(Markup::EndSummary),
        Piece::Markup(Markup::Unordered),
    ]);
    write_moved(build, position, page)
}

fn write_opening<W: Sink>(
    build: &BuildRef<'_>,
    level: Level,
    position: usize,
    event: EventRef<'_>,
    page: &mut PageWriter<'_, W>,
)
    ensures { WroteParts W.written page.old page.new
        (opening_parts (build_value build.now) level position (heading_parts (build_value build.now) (event_value event.entry) position)) }
{
    let node = build.node(position);
    if is_empty(&node) {
        write_empty_start(build, position, event, page)
    } else if level.depth >= MAX_DEPTH {
        write_flat_start(build, position, level.depth, event, page)
    } else {
        write_nested_start(
            build,
            build.is_expanded(level, &node),
            position,
            event,
            page,
        )
    }
}

fn write_closing<W: Sink>(
    build: &BuildRef<'_>,
    level: Level,
    position: usize,
    page: &mut PageWriter<'_, W>,
)
    ensures { WroteParts W.written page.old page.new (closing_parts (build_value build.now) level position) }
{
    if is_empty(&build.node(position)) {
        page.put(&[Piece::Markup(Markup::EndItem)])
    } else if level.depth >= MAX_DEPTH {
        write_flat_end(build, position, page)
    } else {
        write_end(Pending::Group(0), page)
    }
}

// Returns the number of logs of the group that begins with a log, or 0.
fn group_size(build: &BuildRef<'_>, level: Level, position: usize) -> usize
    ensures { result ≡ group_size (build_value build.now) level position }
{
    let silent = build.node(position).silent;
    if silent >= MIN_GROUP && !is_silent(build.node_if(level.position)) {
        silent
    } else {
        0
    }
}

/// Returns the number of logs that are left of a group before a log, with this log, or 0 if it is in no group.
pub fn group_left(build: &BuildRef<'_>, level: Level, position: usize, pending: Pending) -> usize
    ensures { result ≡ group_left (build_value build.now) level position pending }
{
    match pending {
        Pending::Group(left) => left,
        _ => group_size(build, level, position),
    }
}

fn write_group<W: Sink>(size: usize, page: &mut PageWriter<'_, W>)
    ensures { WroteParts W.written page.old page.new (group_parts size) }
{
    if size == 0 {
        return;
    }
    page.put(&[
        Piece::Markup(Markup::Item),
        Piece::Markup(Markup::QuietDetails),
        Piece::Markup(Markup::Summary),
        Piece::Number(size as u64),
        Piece::Text(SILENT_TARGETS),
        Piece::Markup(Markup::EndSummary),
        Piece::Markup(Markup::Unordered),
    ])
}

fn write_group_start<W: Sink>(
    build: &BuildRef<'_>,
    level: Level,
    position: usize,
    pending: Pending,
    page: &mut PageWriter<'_, W>,
)
    ensures { WroteParts W.written page.old page.new (group_start (build_value build.now) level position pending) }
{
    match pending {
        Pending::Group(_) => {}
        Pending::Nothing => write_group(group_size(build, level, position), page),
        Pending::Text(_) => {
            write_end(pending, page);
            write_group(group_size(build, level, position), page)
        }
    }
}

// Writes the end of a group after a log, if it is the last one of the group.
fn write_group_end<W: Sink>(left: usize, page: &mut PageWriter<'_, W>)
    ensures { WroteParts W.written page.old page.new (group_end left) }
{
    if left == 1 {
        write_end(Pending::Group(0), page)
    }
}

/// Returns the open group or block after a log. `left` is the number of logs that were left of its group, with this log.
pub fn after_log(left: usize) -> Pending
    ensures { result ≡ after_log left }
{
    if left > 1 {
        Pending::Group(left - 1)
    } else {
        Pending::Nothing
    }
}

/// Writes a log up to its contents. The event opens the log.
pub fn write_log_start<W: Sink>(
    build: &BuildRef<'_>,
    level: Level,
    position: usize,
    pending: Pending,
    event: EventRef<'_>,
    page: &mut PageWriter<'_, W>,
)
    ensures { WroteParts W.written page.old page.new (log_start (build_value build.now) level position pending (event_value event.entry)) }
{
    write_group_start(build, level, position, pending, page);
    write_opening(build, level, position, event, page)
}

/// Writes the end of a log, and the end of its group if it is the last one of the group.
pub fn write_log_end<W: Sink>(
    build: &BuildRef<'_>,
    level: Level,
    position: usize,
    left: usize,
    page: &mut PageWriter<'_, W>,
)
    ensures { WroteParts W.written page.old page.new (log_end (build_value build.now) level position left) }
{
    write_closing(build, level, position, page);
    write_group_end(left, page)
}
