//! The form in which events are written.
//!
//! Its ghost members `bytes` and `after` give the bytes of an event and the state after it, so a form can count, or collect
//! facts and write nothing. Text lines that are stored together are one call of `write_texts`, with all their bytes, so
//! nothing is allocated or copied per line. By definition each is an event (`text_events`). `AreLinesAt` states that these
//! lines are the log's texts.
ghost use Rattle.std.specs.Prelude.{◌≡◌, ◌<◌, ◌^◌, ℕ, List, [], OnOk};
ghost use Rattle.redo_line.specs.Lines.{ended, rest};
ghost use Rattle.redo_view.specs.declared.form.FormFault.TheVariants.{Write, OutOfMemory};
ghost use Rattle.redo_view.specs.Event.{Event};
ghost use Rattle.redo_view.specs.EventRef.{IsWrittenAlone, event_value};
ghost use Rattle.redo_view.specs.Form.{FormWrites, bytes_of, state_after, text_events};

use crate::event::EventRef;
use redo_line::{Broken, Sink};
use std::alloc::{AllocError, AllocFailed};

/// Why events weren't written, or not completely.
#[derive(Clone, Copy, Debug, PartialEq, Eq)]
pub enum FormFault {
    /// A write failed. A prefix of the bytes was written, possibly nothing.
    Write,
    /// An allocation failed. A prefix of the bytes was written, possibly nothing.
    OutOfMemory,
}

impl From<Broken> for FormFault {
    ghost from_gives = { λ _ fault. fault ≡ Write };

    fn from(_: Broken) -> FormFault {
        FormFault::Write
    }
}

impl From<AllocError> for FormFault {
    ghost from_gives = { λ _ fault. fault ≡ OutOfMemory };

    fn from(_: AllocError) -> FormFault {
        FormFault::OutOfMemory
    }
}

impl<T: Drop> From<AllocFailed<T>> for FormFault {
    ghost from_gives = { λ _ fault. fault ≡ OutOfMemory };

    fn from(_: AllocFailed<T>) -> FormFault {
        FormFault::OutOfMemory
    }
}

/// A form in which events are written, such as plain text. It may have a state, which events change: the bytes of an
/// event can depend on the events before it.
pub trait Form {
    /// The bytes that an event has, from the state before it.
    ghost bytes: { Self → Event → List ℕ };

    /// The state after an event, from the state before it.
    ghost after: { Self → Event → Self };

    /// Writes an event that is no text line. After a fault, nothing is known of the state.
    fn write<W: Sink>(&mut self, event: EventRef<'_>, out: &mut W) -> Result<(), FormFault>
        requires { IsWrittenAlone event }
        ensures wrote { FormWrites (W.written out.old) (W.written out.new) (bytes self.old (event_value event.entry)) result }
        ensures state { OnOk result (self.new ≡ after self.old (event_value event.entry)) };

    /// Writes text lines at this depth. `lines` has them with their line feeds. The result is as if each line were
    /// written by itself. After a fault, nothing is known of the state.
    fn write_texts<W: Sink>(
        &mut self,
        depth: usize,
        lines: &[u8],
        out: &mut W,
    ) -> Result<(), FormFault>
        requires depth { depth < 2 ^ 60 }
        requires complete { rest lines.now ≡ [] }
        ensures wrote { FormWrites (W.written out.old) (W.written out.new)
            (bytes_of bytes after self.old (text_events depth (ended lines.now))) result }
        ensures state { OnOk result (self.new ≡ state_after after self.old (text_events depth (ended lines.now))) };
}
