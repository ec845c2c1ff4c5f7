//! The adapter.
//!
//! The marker is a note of an empty kind. No log has one, because the kind of a record has at least one byte. The marker
//! needs no new event, and each form can show it. Lines that are stored together are passed on together as soon as none is
//! left out any more. Before that they are passed one by one.
ghost use Rattle.std.specs.Prelude.{◌≡◌, ◌<◌, ◌^◌, true, [], length, OnOk};
ghost use Rattle.redo_line.specs.Lines.{ended, rest};
ghost use Rattle.redo_view.specs.EventRef.{IsWrittenAlone, event_value};
ghost use Rattle.redo_view.specs.Form.{FormWrites, bytes_of, state_after, text_events};
ghost use Rattle.redo_trim.specs.Trim.{marker};
ghost use Rattle.redo_trim.specs.TrimmedForm.{form_after, form_bytes};
ghost use Rattle.redo_trim.specs.Private.Writing.{IsFirstLine, IsOneLine, TailFits, keeps_all, lines_shown};

use crate::gauges::Gauges;
use crate::limit::{Limit, Showing};
use memchr::memchr;
use redo_line::Sink;
use redo_logs::EntryRef;
use redo_view::{EventRef, Form, FormFault};
use std::alloc::Global;

const MARKER_TEXT: &[u8] =
    b"Lines are left out here. The command at the end of this page shows all of them.";

/// A form that passes events on to another form, without the middle of long logs.
///
/// The limit of a log is at the log's number. A log whose number is past the end is shown whole.
///
/// Each log that is open takes the memory of a [`Gauge`](crate::Gauge). If that memory can't be allocated, the event that opens the
/// log was already passed on. Lines that are passed together are passed on together from the tail on, and one by one before it.
#[derive(Drop)]
pub struct Trimmed<'a, F> {
    form: F,
    gauges: Gauges,
    limits: &'a [Limit],
}

impl<'a, F: Form> Trimmed<'a, F> {
    /// Creates the adapter before all events: no log is open. It allocates nothing yet.
    pub fn new(alloc: Global, form: F, limits: &'a [Limit]) -> Trimmed<'a, F>
        ensures form { result.form ≡ form }
        ensures gauges { result.gauges ≡ [] }
        ensures limits { result.limits.now ≡ limits.now }
    {
        Trimmed {
            form,
            gauges: Gauges::new(alloc),
            limits,
        }
    }

    /// Returns the form that events were passed on to.
    pub fn into_form(self) -> F
        ensures { result ≡ self.entry.form }
    {
        let Trimmed {
            form,
            gauges: _,
            limits: _,
        } = self;
        form
    }

    // Passes on text lines, at least one. None is left out.
    fn pass_on<W: Sink>(&mut self, depth: usize, lines: &[u8], out: &mut W) -> Result<(), FormFault>
        requires depth { depth < 2 ^ 60 }
        requires complete { rest lines.now ≡ [] }
        requires some { 0 < length lines.now }
        requires all { keeps_all self.old.gauges ≡ true }
        requires fits { TailFits self.old.gauges }
        ensures wrote { FormWrites (W.written out.old) (W.written out.new)
            (bytes_of (form_bytes F.bytes F.after) (form_after F.after) self.old (text_events depth (ended lines.now))) result }
        ensures state { OnOk result
            (self.new ≡ state_after (form_after F.after) self.old (text_events depth (ended lines.now))) }
    {
        self.form.write_texts(depth, lines, out)?;
        self.gauges.add_text(lines.len() as u64);
        Ok(())
    }

    // Passes on a text line, or the events that replace it. It is passed with its line feed.
    fn write_line<W: Sink>(
        &mut self,
        depth: usize,
        line: &[u8],
        out: &mut W,
    ) -> Result<(), FormFault>
        requires depth { depth < 2 ^ 60 }
        requires line { IsOneLine line.now }
        ensures wrote { FormWrites (W.written out.old) (W.written out.new)
            (bytes_of (form_bytes F.bytes F.after) (form_after F.after) self.old (text_events depth (ended line.now))) result }
        ensures state { OnOk result
            (self.new ≡ state_after (form_after F.after) self.old (text_events depth (ended line.now))) }
    {
        let size = line.len() as u64;
        let showing = self.gauges.showing(size);
        write_shown(&mut self.form, showing, depth, line, out)?;
        self.gauges.add_text(size);
        Ok(())
    }
}

// Writes the events of text lines that are all shown in the same way.
fn write_shown<F: Form, W: Sink>(
    form: &mut F,
    showing: Showing,
    depth: usize,
    lines: &[u8],
    out: &mut W,
) -> Result<(), FormFault>
    requires depth { depth < 2 ^ 60 }
    requires complete { rest lines.now ≡ [] }
    ensures wrote { FormWrites (W.written out.old) (W.written out.new)
        (bytes_of F.bytes F.after form.old (lines_shown showing depth (ended lines.now))) result }
    ensures state { OnOk result (form.new ≡ state_after F.after form.old (lines_shown showing depth (ended lines.now))) }
{
    match showing {
        Showing::Whole => form.write_texts(depth, lines, out),
        Showing::Marker => form.write(marker(depth), out),
        Showing::Nothing => Ok(()),
    }
}

impl<F: Form> Form for Trimmed<'_, F> {
    ghost bytes = { form_bytes F.bytes F.after };

    ghost after = { form_after F.after };

    fn write<W: Sink>(&mut self, event: EventRef<'_>, out: &mut W) -> Result<(), FormFault> {
        self.form.write(event, out)?;
        self.gauges.follow(self.limits, event)?;
        Ok(())
    }

    fn write_texts<W: Sink>(
        &mut self,
        depth: usize,
        lines: &[u8],
        out: &mut W,
    ) -> Result<(), FormFault> {
        let mut done = 0;
        'lines: while done < lines.len() {
            let left = &lines[done..];
            if self.gauges.keeps_all() {
                return self.pass_on(depth, left, out);
            }
            let size = first_line(left);
            self.write_line(depth, &left[..size], out)?;
            done += size;
        }
        Ok(())
    }
}

// Returns the size of the first line.
fn first_line(lines: &[u8]) -> usize
    requires some { 0 < length lines.now }
    requires complete { rest lines.now ≡ [] }
    ensures { IsFirstLine lines.now result }
{
    match memchr(b'\n', lines) {
        Some(at) => at + 1,
        None => lines.len(),
    }
}

// Returns the event that takes the place of the first line that is left out.
fn marker(depth: usize) -> EventRef<'static>
    ensures is { event_value result ≡ marker depth }
    ensures alone { depth < 2 ^ 60 → IsWrittenAlone result }
{
    EventRef::EntryShown {
        depth,
        entry: EntryRef::Note {
            pid: 0,
            kind: b"",
            text: MARKER_TEXT,
        },
    }
}
