//! Plain text.
ghost use Rattle.std.specs.Prelude.{◌≡◌};
ghost use Rattle.redo_device.specs.Sink.{Writes};
ghost use Rattle.redo_view.specs.EventRef.{IsWrittenAlone, event_value};
ghost use Rattle.redo_view.specs.Expansion.{expansion};
ghost use Rattle.redo_view.specs.Text.{event_text};

use crate::event::EventRef;
use crate::form::{Form, FormFault};
use crate::render::Render;
use crate::texts::{write_entry, write_lines, write_mention, write_target};
use crate::viewer::{ViewFault, view};
use redo_line::{Broken, Sink, TargetName};
use redo_logs::LogTable;
use redo_options::Options;
use std::alloc::Global;

/// Plain text, with these options. It has no state.
#[derive(Clone, Copy)]
pub struct PlainText {
    pub options: Options,
}

impl Form for PlainText {
    ghost bytes = { λ form event. event_text form.options event };

    ghost after = { λ form event. form };

    fn write<W: Sink>(&mut self, event: EventRef<'_>, out: &mut W) -> Result<(), FormFault> {
        write_event(&self.options, event, out)?;
        Ok(())
    }

    fn write_texts<W: Sink>(
        &mut self,
        _depth: usize,
        lines: &[u8],
        out: &mut W,
    ) -> Result<(), FormFault> {
        write_lines(&self.options, lines, out)?;
        Ok(())
    }
}

impl Render for PlainText {
    ghost text = { λ form logs requested. expansion logs form.options requested };

    fn render<W: Sink>(
        &self,
        alloc: Global,
        table: &LogTable,
        requested: &[TargetName],
        out: &mut W,
    ) -> Result<(), FormFault> {
        match view(alloc, table, &self.options, requested, out) {
            Ok(()) => Ok(()),
            Err(ViewFault::Unknown { .. }) => unreachable!(),
            Err(ViewFault::Write) => Err(FormFault::Write),
            Err(ViewFault::OutOfMemory) => Err(FormFault::OutOfMemory),
        }
    }
}

fn write_event<W: Sink>(options: &Options, event: EventRef<'_>, out: &mut W) -> Result<(), Broken>
    requires { IsWrittenAlone event }
    ensures { Writes (W.written out.old) (W.written out.new) (event_text options.now (event_value event.entry)) result }
{
    match event {
        EventRef::Requested { name, .. } => write_target(options, 0, None, name, out),
        EventRef::Mentioned {
            depth,
            pid,
            how,
            name,
            ..
        } => {
            if options.debug_locks {
                write_mention(options, depth, pid, how, name, out)
            } else {
                write_target(options, depth, Some(pid), name, out)
            }
        }
        EventRef::EntryShown { depth, entry } => write_entry(options, depth, entry, out),
        EventRef::LogEnds { .. } => Ok(()),
    }
}
