//! The items of events that open no log.
ghost use Rattle.std.specs.Prelude.{◌≡◌};
ghost use Rattle.redo_logs.specs.EntryRef.{entry_value};
ghost use Rattle.redo_view.specs.EventRef.{IsWrittenAlone, event_value};
ghost use Rattle.redo_page.specs.Private.Referring.{build_value};
ghost use Rattle.redo_page.specs.Private.Writing.{WroteParts};
ghost use Rattle.redo_page.specs.Tree.{done_parts, entry_parts, is_seen, is_seen_done, is_seen_entry, mention_parts, note_parts, note_prefix, request_parts, seen_parts};
ghost use Rattle.redo_page.specs.Private.Streaming.{after_shown, end_parts, item_parts, shown_parts};

use crate::block::Pending;
use crate::build::BuildRef;
use crate::labels::NEEDS;
use crate::level::Level;
use crate::targets::{write_exit, write_how, write_linked, write_name};
use crate::writer::PageWriter;
use redo_device::Sink;
use redo_html::{Markup, Piece};
use redo_line::{How, TargetName};
use redo_logs::EntryRef;
use redo_view::{EventRef, Opening};

/// Writes the end of the open group or block.
pub fn write_end<W: Sink>(pending: Pending, page: &mut PageWriter<'_, W>)
    ensures { WroteParts W.written page.old page.new (end_parts pending) }
{
    match pending {
        Pending::Nothing => {}
        Pending::Group(_) => page.put(&[
            Piece::Markup(Markup::EndUnordered),
            Piece::Markup(Markup::EndDetails),
            Piece::Markup(Markup::EndItem),
        ]),
        Pending::Text(_) => page.put(&[
            Piece::Markup(Markup::EndPre),
            Piece::Markup(Markup::EndItem),
        ]),
    }
}

fn write_request<W: Sink>(name: &[u8], page: &mut PageWriter<'_, W>)
    ensures { WroteParts W.written page.old page.new (request_parts name.now) }
{
    page.put(&[Piece::Markup(Markup::Item)]);
    write_name(name, page);
    page.put(&[Piece::Markup(Markup::EndItem)])
}

fn write_mention<W: Sink>(
    build: &BuildRef<'_>,
    how: How,
    name: &[u8],
    opening: Opening,
    page: &mut PageWriter<'_, W>,
)
    ensures { WroteParts W.written page.old page.new (mention_parts (build_value build.now) how name.now opening) }
{
    page.put(&[Piece::Markup(Markup::Item)]);
    write_linked(build.opening_position(opening), name, page);
    write_how(build.options.debug_locks, how, page);
    page.put(&[Piece::Markup(Markup::EndItem)])
}

fn write_done<W: Sink>(
    build: &BuildRef<'_>,
    status: i32,
    name: &TargetName,
    page: &mut PageWriter<'_, W>,
)
    ensures { WroteParts W.written page.old page.new (done_parts (build_value build.now) status name.now) }
{
    page.put(&[Piece::Markup(Markup::NoteItem), Piece::Text(NEEDS)]);
    write_linked(build.position_of_name(name), name.bytes(), page);
    write_exit(status, page);
    page.put(&[Piece::Markup(Markup::EndItem)])
}

// Returns the bytes before the text of a note of this kind.
fn note_prefix(kind: &[u8]) -> &'static [u8]
    ensures { result.now ≡ note_prefix kind.now }
{
    if kind.is_empty() { b"" } else { b"redo: " }
}

fn write_note<W: Sink>(kind: &[u8], text: &[u8], page: &mut PageWriter<'_, W>)
    ensures { WroteParts W.written page.old page.new (note_parts kind.now text.now) }
{
    if kind == b"check".as_slice() {
        page.put(&[
            Piece::Markup(Markup::NoteItem),
            Piece::Text(b"("),
            Piece::Text(text),
            Piece::Text(b")"),
            Piece::Markup(Markup::EndItem),
        ])
    } else {
        page.put(&[
            Piece::Markup(Markup::NoteItem),
            Piece::Text(note_prefix(kind)),
            Piece::Text(text),
            Piece::Markup(Markup::EndItem),
        ])
    }
}

// Returns whether it is seen at this level that another target is done.
fn is_seen_done(build: &BuildRef<'_>, level: Level, status: i32, name: &TargetName) -> bool
    ensures { result ≡ is_seen_done (build_value build.now) level status name.now }
{
    status != 0 && !build.is_in_level(level, build.position_of_name(name))
}

fn is_seen_entry(build: &BuildRef<'_>, level: Level, entry: EntryRef<'_>) -> bool
    ensures { result ≡ is_seen_entry (build_value build.now) level (entry_value entry.entry) }
{
    match entry {
        EntryRef::Done { status, name, .. } => is_seen_done(build, level, status, name),
        EntryRef::Note { .. } => true,
        _ => false,
    }
}

// Returns whether anything is seen of an event that opens no log and is no text line.
fn is_seen(build: &BuildRef<'_>, level: Level, event: EventRef<'_>) -> bool
    ensures { result ≡ is_seen (build_value build.now) level (event_value event.entry) }
{
    match event {
        EventRef::Requested { .. } | EventRef::Mentioned { .. } => true,
        EventRef::EntryShown { entry, .. } => is_seen_entry(build, level, entry),
        EventRef::LogEnds { .. } => false,
    }
}

fn write_entry<W: Sink>(build: &BuildRef<'_>, entry: EntryRef<'_>, page: &mut PageWriter<'_, W>)
    ensures { WroteParts W.written page.old page.new (entry_parts (build_value build.now) (entry_value entry.entry)) }
{
    match entry {
        EntryRef::Done { status, name, .. } => write_done(build, status, name, page),
        EntryRef::Note { kind, text, .. } => write_note(kind, text, page),
        _ => {}
    }
}

fn write_seen<W: Sink>(build: &BuildRef<'_>, event: EventRef<'_>, page: &mut PageWriter<'_, W>)
    ensures { WroteParts W.written page.old page.new (seen_parts (build_value build.now) (event_value event.entry)) }
{
    match event {
        EventRef::Requested { name, .. } => write_request(name.bytes(), page),
        EventRef::Mentioned {
            how,
            name,
            opening,
            ..
        } => { write_mention(build, how, name.bytes(), opening, page) }
        EventRef::EntryShown { entry, .. } => write_entry(build, entry, page),
        EventRef::LogEnds { .. } => {}
    }
}

fn write_item<W: Sink>(
    build: &BuildRef<'_>,
    level: Level,
    pending: Pending,
    event: EventRef<'_>,
    page: &mut PageWriter<'_, W>,
)
    ensures { WroteParts W.written page.old page.new
        (item_parts pending (is_seen (build_value build.now) level (event_value event.entry))
        (seen_parts (build_value build.now) (event_value event.entry))) }
{
    if is_seen(build, level, event) {
        write_end(pending, page);
        write_seen(build, event, page)
    }
}

/// Writes an event that opens no log.
pub fn write_shown<W: Sink>(
    build: &BuildRef<'_>,
    level: Level,
    pending: Pending,
    event: EventRef<'_>,
    page: &mut PageWriter<'_, W>,
)
    requires { IsWrittenAlone event }
    ensures { WroteParts W.written page.old page.new (shown_parts (build_value build.now) level pending (event_value event.entry)) }
{
    write_item(build, level, pending, event, page)
}

/// Returns the open group or block after such an event.
pub fn after_shown(
    build: &BuildRef<'_>,
    level: Level,
    pending: Pending,
    event: EventRef<'_>,
) -> Pending
    requires { IsWrittenAlone event }
    ensures { result ≡ after_shown (build_value build.now) level pending (event_value event.entry) }
{
    if is_seen(build, level, event) {
        Pending::Nothing
    } else {
        pending
    }
}
