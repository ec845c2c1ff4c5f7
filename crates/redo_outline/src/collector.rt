//! Collects the facts for an outline from events.
//!
//! It is a form that writes nothing. Each of its steps is total, so its state can be defined for any list of events. It
//! stores the opened logs with their parents, the first status of each target, and *brackets*: the beginnings and ends of
//! logs, and whether anything else is visible between them.
ghost use Rattle.std.specs.Prelude.{◌≡◌, ℕ, [], IfOk, OnOk};
ghost use Rattle.redo_outline.specs.Private.Collecting.{after_event, entry_shown, initial, line_shown, log_begun, log_ended, parent_of, with_status};
ghost use Rattle.redo_outline.specs.Private.Sweeping.{collected_nodes};
ghost use Rattle.redo_logs.specs.EntryRef.{entry_value};
ghost use Rattle.redo_view.specs.Event.{Event};

use crate::node::Node;
use crate::sweep::Sweep;
use redo_line::Sink;
use redo_logs::{EntryRef, LogTable};
use redo_view::{EventRef, Form, FormFault, Opening};
use std::alloc::{AllocError, Global};
use std::marker::Model;

/// A log that is opened, and the position of the log that contains it.
#[derive(Clone, Copy)]
pub struct OpenedLog {
    pub number: u32,
    pub parent: Option<usize>,
}

/// The beginning or the end of a log.
#[derive(Clone, Copy)]
pub struct Bracket {
    pub opens: bool,
    /// Whether anything but logs is visible between the bracket before it and this one.
    pub after_others: bool,
}

/// A form that writes nothing, and collects which logs are opened, how they are nested, whether anything else is visible
/// between them, and which statuses other logs have for their targets.
#[derive(Drop)]
pub struct Collector<'a> {
    table: &'a LogTable,
    opened: Vec<OpenedLog>,
    // The position of the log that was opened last of those that are open.
    innermost: Option<usize>,
    brackets: Vec<Bracket>,
    // Whether anything but logs is visible after the last bracket.
    after_others: bool,
    // The first status of each target that another log has, by the number of the target's log.
    statuses: Vec<Option<i32>>,
}

impl<'a> Model for Collector<'a> {
    ghost use Rattle.redo_outline.specs.Private.Collecting.{Collected};

    ghost Value = { Collected };

    ghost view = { λ collector. record {
      logs = collector.table.now;
      opened = collector.opened.items;
      innermost = collector.innermost;
      brackets = collector.brackets.items;
      after_others = collector.after_others;
      statuses = collector.statuses.items;
    } };
}

impl<'a> Collector<'a> {
    /// Creates the collector of events that show logs of this table.
    pub fn new(alloc: Global, table: &'a LogTable) -> Result<Collector<'a>, AllocError>
        ensures { IfOk result (λ collector. collector ≡ initial table.now) }
    {
        Ok(Collector {
            table,
            opened: Vec::new(alloc),
            innermost: None,
            brackets: Vec::new(alloc),
            after_others: false,
            statuses: vec![in alloc; None; table.len() as usize]?,
        })
    }

    /// Returns the nodes of all logs that were opened. Without warnings, their numbers are 0.
    pub fn into_nodes(self, alloc: Global, with_warnings: bool) -> Result<Vec<Node>, AllocError>
        ensures { IfOk result (λ nodes. nodes.items ≡ collected_nodes with_warnings self.entry) }
    {
        let Collector {
            table,
            opened,
            innermost: _,
            mut brackets,
            after_others,
            statuses,
        } = self;
        let mut sweep = Sweep::new(alloc, table, &statuses, opened, after_others, with_warnings);
        'brackets: while let Some(bracket) = brackets.pop() {
            sweep.add(bracket)?;
        }
        Ok(sweep.into_nodes())
    }

    // Shows a line about a target.
    fn show_line(&mut self, opening: Opening) -> Result<(), AllocError>
        ensures { OnOk result (self.new ≡ line_shown opening self.old) }
    {
        match opening {
            Opening::OpensHere(number) => self.begin_log(number),
            _ => {
                self.after_others = true;
                Ok(())
            }
        }
    }

    fn begin_log(&mut self, number: u32) -> Result<(), AllocError>
        ensures { OnOk result (self.new ≡ log_begun number self.old) }
    {
        let position = self.opened.len();
        self.opened.push(OpenedLog {
            number,
            parent: self.innermost,
        })?;
        self.brackets.push(Bracket {
            opens: true,
            after_others: self.after_others,
        })?;
        self.innermost = Some(position);
        self.after_others = false;
        Ok(())
    }

    // Ends the log that was opened last.
    fn end_log(&mut self) -> Result<(), AllocError>
        ensures { OnOk result (self.new ≡ log_ended self.old) }
    {
        self.brackets.push(Bracket {
            opens: false,
            after_others: self.after_others,
        })?;
        self.innermost = parent_of(&self.opened, self.innermost);
        self.after_others = false;
        Ok(())
    }

    // Shows an entry that is no mention.
    fn show_entry(&mut self, entry: EntryRef<'_>)
        ensures { self.new ≡ entry_shown (entry_value entry.entry) self.old }
    {
        match entry {
            EntryRef::Closing { .. } => {}
            EntryRef::Done { status, name, .. } => {
                if status != 0 {
                    self.after_others = true;
                }
                if let Some(number) = self.table.find(name) {
                    set_status(&mut self.statuses, number, status);
                }
            }
            _ => self.after_others = true,
        }
    }
}

// Returns the position of the log that contains the log at this position.
fn parent_of(opened: &[OpenedLog], position: Option<usize>) -> Option<usize>
    ensures { result ≡ parent_of opened.now position }
{
    opened.get(position?)?.parent
}

// Sets the status of a target, by the number of its log, unless it has one.
fn set_status(statuses: &mut [Option<i32>], number: u32, status: i32)
    ensures { statuses.new ≡ with_status number status statuses.old }
{
    let number = number as usize;
    if number < statuses.len() && statuses[number].is_none() {
        statuses[number] = Some(status);
    }
}

impl<'a> Form for Collector<'a> {
    ghost bytes = { λ collector event. [] };

    ghost after = { λ collector event. after_event event collector };

    fn write<W: Sink>(&mut self, event: EventRef<'_>, _out: &mut W) -> Result<(), FormFault> {
        match event {
            EventRef::Requested { opening, .. } => self.show_line(opening)?,
            EventRef::Mentioned { opening, .. } => self.show_line(opening)?,
            EventRef::EntryShown { entry, .. } => self.show_entry(entry),
            EventRef::LogEnds { .. } => self.end_log()?,
        }
        Ok(())
    }

    fn write_texts<W: Sink>(
        &mut self,
        _depth: usize,
        lines: &[u8],
        _out: &mut W,
    ) -> Result<(), FormFault> {
        if !lines.is_empty() {
            self.after_others = true;
        }
        Ok(())
    }
}
