//! Shows a whole log, with the logs that it mentions.
//!
//! `show_log` doesn't recurse. A frame is the number of a log and its next entry. The current frame is a local variable, the
//! enclosing ones are in a vector, and the depth is their number plus one:
//!
//!     log 0: A, mention of 1, B           outer: (0, 2)    current: (1, 1)     remaining: D at depth 2, then B at depth 1
//!     log 1: C, mention of 0, D
//!
//! The invariant is that the shown events and the rest of the frames give the whole (`Walking`: `finished`). There are never
//! more frames than logs. A frame takes 16 bytes of heap and no stack.
ghost use Rattle.std.specs.Prelude.{◌≡◌, ◌<◌, ◌^◌, [], ◌∷◌, false, length};
ghost use Rattle.redo_line.specs.Lines.{ended, rest};
ghost use Rattle.redo_view.specs.Event.Event.{LogEnds};
ghost use Rattle.redo_view.specs.EventRef.{IsWrittenAlone, event_value};
ghost use Rattle.redo_view.specs.Form.{text_events};
ghost use Rattle.redo_view.specs.Private.EntryEffect.{Fits, is_set};
ghost use Rattle.redo_view.specs.Private.Viewing.{KeepsContext, ShowedLogOrFailed, WroteEvents};

use crate::event::EventRef;
use crate::form::Form;
use crate::viewer::{ViewFault, Viewer};
use redo_line::Sink;

// A log that is being shown, and the number of its next entry.
#[derive(Clone, Copy)]
pub struct Frame {
    log: u32,
    next_entry: usize,
}

impl<F: Form, W: Sink> Viewer<'_, '_, F, W> {
    /// Opens log `number`, and shows it with the logs that are opened from it, each one level deeper than the log
    /// that mentions it.
    pub fn show_log(&mut self, number: u32) -> Result<(), ViewFault>
        requires log_in_range { number < length self.old.logs.now.logs }
        requires unopened { is_set self.old.visited.now.opened.items number ≡ false }
        requires fits { Fits self.old.logs.now self.old.visited.now }
        ensures { ShowedLogOrFailed F.bytes F.after W.written number self.old self.new result }
    {
        self.visited.begin_log(self.logs, number);
        let mut outer = Vec::new(self.alloc);
        let mut frame = Frame {
            log: number,
            next_entry: 0,
        };
        'entries: loop {
            let depth = outer.len() + 1;
            let (lines, count) = self.logs.lines(frame.log, frame.next_entry);
            if count > 0 {
                self.show_lines(depth, lines)?;
                frame.next_entry += count;
            } else if let Some(entry) = self.logs.entry(frame.log, frame.next_entry) {
                frame.next_entry += 1;
                if let Some(inner) = self.show_entry(depth, entry)? {
                    self.visited.begin_log(self.logs, inner);
                    outer.push(frame)?;
                    frame = Frame {
                        log: inner,
                        next_entry: 0,
                    };
                }
            } else {
                self.show_event(EventRef::LogEnds { depth })?;
                match outer.pop() {
                    Some(back) => frame = back,
                    None => return Ok(()),
                }
            }
        }
    }

    /// Shows an event that is no text line.
    pub fn show_event(&mut self, event: EventRef<'_>) -> Result<(), ViewFault>
        requires { IsWrittenAlone event }
        ensures context { KeepsContext self.old self.new }
        ensures visited { self.new.visited.now ≡ self.old.visited.now }
        ensures event { WroteEvents F.bytes F.after W.written self.old self.new (event_value event.entry ∷ []) result }
    {
        self.form.write(event, self.out)?;
        Ok(())
    }

    // Shows text lines at this depth, which are passed with their line feeds.
    fn show_lines(&mut self, depth: usize, lines: &[u8]) -> Result<(), ViewFault>
        requires depth { depth < 2 ^ 60 }
        requires complete { rest lines.now ≡ [] }
        ensures context { KeepsContext self.old self.new }
        ensures visited { self.new.visited.now ≡ self.old.visited.now }
        ensures lines { WroteEvents F.bytes F.after W.written self.old self.new (text_events depth (ended lines.now)) result }
    {
        self.form.write_texts(depth, lines, self.out)?;
        Ok(())
    }
}
