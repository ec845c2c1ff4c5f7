//! Shows one entry of a log: its own line, and which log it opens.
//!
//! It marks the target that the entry mentions, and returns the log to open. Apart from the form, it neither hashes nor
//! allocates.
ghost use Rattle.std.specs.Prelude.{◌≡◌, ◌<◌, ◌^◌, Some, false, length, IfOk, OnOk};
ghost use Rattle.redo_logs.specs.declared.numbered.NumberedEntry.TheVariants.{Mention};
ghost use Rattle.redo_view.specs.Expansion.{is_mention};
ghost use Rattle.redo_view.specs.Private.Progress.{BeginsLog, MatchesFlags, initial_state};
ghost use Rattle.redo_view.specs.Private.EntryEffect.{Fits, IsNumberedRecord, is_set, log_to_open, set_flag};
ghost use Rattle.redo_view.specs.Private.Viewing.{KeepsContext, WroteEvents, own_events, mention_line, mention_opening, named_after, nested_log};

use crate::event::{EventRef, Opening};
use crate::form::Form;
use crate::viewer::{ViewFault, Viewer};
use redo_line::{How, Sink};
use redo_logs::{Numbered, NumberedEntry};
use redo_options::Options;
use std::alloc::{AllocError, Global};

/// The targets named and the logs opened so far, as visited flags.
#[derive(Drop)]
pub struct Visited {
    // Whether each name was named, by the name's number.
    pub named: Vec<bool>,
    // Whether each log was opened, by the log's number.
    pub opened: Vec<bool>,
}

impl Visited {
    /// Creates the state in which nothing was shown.
    pub fn new(alloc: Global, logs: &Numbered<'_>) -> Result<Visited, AllocError>
        ensures fits { IfOk result (Fits logs.now) }
        ensures initial { IfOk result (λ visited. MatchesFlags logs.now visited initial_state) }
    {
        Ok(Visited {
            named: vec![in alloc; false; logs.names()]?,
            opened: vec![in alloc; false; logs.len() as usize]?,
        })
    }

    /// Begins log `number`: marks its target as named and the log as opened.
    pub fn begin_log(&mut self, logs: &Numbered<'_>, number: u32)
        requires log_in_range { number < length logs.now.logs }
        requires unopened { is_set self.old.opened.items number ≡ false }
        requires fits { Fits logs.now self.old }
        ensures opened { self.new.opened.items ≡ set_flag self.old.opened.items number }
        ensures fits { Fits logs.now self.new }
        ensures begins { BeginsLog logs.now number self.old self.new }
    {
        self.named[logs.target(number)] = true;
        self.opened[number as usize] = true;
    }
}

impl<F: Form, W: Sink> Viewer<'_, '_, F, W> {
    /// Shows an entry that is no text line, and marks the target that it mentions as named. Returns the number of the
    /// log to open next, if the entry opens one.
    pub fn show_entry(
        &mut self,
        depth: usize,
        entry: NumberedEntry<'_>,
    ) -> Result<Option<u32>, ViewFault>
        requires depth { depth < 2 ^ 60 }
        requires entry { IsNumberedRecord self.old.logs.now.names entry }
        requires fits { Fits self.old.logs.now self.old.visited.now }
        ensures context { KeepsContext self.old self.new }
        ensures own_events { WroteEvents F.bytes F.after W.written self.old self.new (own_events self.old depth entry.entry) result }
        ensures named { OnOk result (self.new.visited.now.named.items ≡ named_after self.old entry.entry) }
        ensures opened { self.new.visited.now.opened.items ≡ self.old.visited.now.opened.items }
        ensures nested_log { IfOk result (λ inner. inner ≡ nested_log self.old entry.entry) }
    {
        match entry {
            NumberedEntry::Mention { pid, how, name } => self.show_mention(depth, pid, how, name),
            NumberedEntry::Other(other) => {
                self.show_event(EventRef::EntryShown {
                    depth,
                    entry: other,
                })?;
                Ok(None)
            }
        }
    }

    fn show_mention(
        &mut self,
        depth: usize,
        pid: u32,
        how: How,
        name: usize,
    ) -> Result<Option<u32>, ViewFault>
        requires depth { depth < 2 ^ 60 }
        requires name_in_range { name < length self.old.logs.now.names }
        requires fits { Fits self.old.logs.now self.old.visited.now }
        ensures context { KeepsContext self.old self.new }
        ensures own_events { WroteEvents F.bytes F.after W.written self.old self.new
            (own_events self.old depth (Mention pid how name)) result }
        ensures named { OnOk result (self.new.visited.now.named.items ≡ named_after self.old (Mention pid how name)) }
        ensures opened { self.new.visited.now.opened.items ≡ self.old.visited.now.opened.items }
        ensures nested_log { IfOk result (λ inner. inner ≡ nested_log self.old (Mention pid how name)) }
    {
        if !is_mention(&self.options, how) {
            return Ok(None);
        }
        let opening = self.mention_opening(name);
        self.show_mention_line(depth, pid, how, name, opening)?;
        self.visited.named[name] = true;
        Ok(log_to_open(opening))
    }

    // Shows a mention's line. Without `debug_locks` there is one only if the target wasn't named before.
    fn show_mention_line(
        &mut self,
        depth: usize,
        pid: u32,
        how: How,
        name: usize,
        opening: Opening,
    ) -> Result<(), ViewFault>
        requires depth { depth < 2 ^ 60 }
        requires name_in_range { name < length self.old.logs.now.names }
        requires fits { Fits self.old.logs.now self.old.visited.now }
        ensures context { KeepsContext self.old self.new }
        ensures visited { self.new.visited.now ≡ self.old.visited.now }
        ensures line { WroteEvents F.bytes F.after W.written self.old self.new (mention_line self.old depth pid how name opening) result }
    {
        if !self.options.debug_locks && self.visited.named[name] {
            return Ok(());
        }
        let name = self.logs.name(name);
        self.show_event(EventRef::Mentioned {
            depth,
            pid,
            how,
            name,
            opening,
        })
    }

    // Returns whether a mention opens its target's log.
    fn mention_opening(&self, name: usize) -> Opening
        requires name_in_range { name < length self.now.logs.now.names }
        requires fits { length self.now.visited.now.opened.items ≡ length self.now.logs.now.logs }
        ensures { result ≡ mention_opening self.now name }
    {
        let Some(number) = self.logs.log_of(name) else {
            return Opening::NotOpened;
        };
        if self.visited.opened[number as usize] {
            Opening::OpenedBefore(number)
        } else if self.options.recursive {
            Opening::OpensHere(number)
        } else {
            Opening::NotOpened
        }
    }
}

// Returns the number of the log that is opened, if one is.
fn log_to_open(opening: Opening) -> Option<u32>
    ensures { result ≡ log_to_open opening }
{
    match opening {
        Opening::OpensHere(number) => Some(number),
        _ => None,
    }
}

fn is_mention(options: &Options, how: How) -> bool
    ensures { result ≡ is_mention options.now how }
{
    match how {
        How::Unchanged => options.unchanged,
        _ => true,
    }
}
