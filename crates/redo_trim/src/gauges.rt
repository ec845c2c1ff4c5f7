//! The gauges of the logs that are open.
//!
//! A line that begins at the end of the head or before it, and isn't kept, is the first one that is left out. No gauge
//! has to store whether a marker was shown.
ghost use Rattle.std.specs.Prelude.{◌≡◌, ◌<◌, ◌∷◌, [], OnOk};
ghost use Rattle.redo_view.specs.EventRef.{IsWrittenAlone, event_value};
ghost use Rattle.redo_trim.specs.Trim.{after_end, gauge_of, gauges_after, innermost, showing_in, with_opened, with_text};
ghost use Rattle.redo_trim.specs.Private.Writing.{TailFits, keeps_all};
ghost use Rattle.redo_outline.specs.Contents.{number_of_opening};

use crate::limit::{Gauge, Limit, Showing, showing_of};
use redo_view::{EventRef, Opening};
use std::alloc::{AllocError, Global};
use std::marker::Model;

/// The gauges of the logs that are open. Contracts see them with the innermost log first.
#[derive(Drop)]
pub struct Gauges {
    // The innermost log last.
    logs: Vec<Gauge>,
}

impl Model for Gauges {
    ghost use Rattle.std.specs.Prelude.{List, reverse};
    ghost use Rattle.redo_trim.specs.declared.limit.Gauge as spec;

    ghost Value = { List spec.Gauge };

    ghost view = { λ gauges. reverse gauges.logs.items };
}

impl Gauges {
    /// Creates the gauges where no log is open.
    pub fn new(alloc: Global) -> Gauges
        ensures { result ≡ [] }
    {
        Gauges {
            logs: Vec::new(alloc),
        }
    }

    /// Returns the gauge of the innermost log.
    pub fn innermost(&self) -> Option<Gauge>
        ensures { result ≡ innermost self.now }
    {
        match self.logs.last() {
            Some(gauge) => Some(*gauge),
            None => None,
        }
    }

    /// Returns whether no line is left out any more in the innermost log.
    pub fn keeps_all(&self) -> bool
        ensures keeps { result ≡ keeps_all self.now }
        ensures fits { TailFits self.now }
    {
        match self.innermost() {
            Some(gauge) => gauge.limit.tail <= gauge.seen,
            None => true,
        }
    }

    /// Returns how the next text line is shown. `size` is its number of bytes with the line feed.
    pub fn showing(&self, size: u64) -> Showing
        requires { 0 < size }
        ensures { result ≡ showing_in (innermost self.now) size }
    {
        match self.innermost() {
            Some(gauge) => showing_of(gauge, size),
            None => Showing::Whole,
        }
    }

    /// Adds text lines of the innermost log. `size` is their number of bytes with their line feeds.
    pub fn add_text(&mut self, size: u64)
        ensures { self.new ≡ with_text size self.old }
    {
        let count = self.logs.len();
        if count > 0 {
            let gauge = &mut self.logs[count - 1];
            gauge.seen = gauge.seen.saturating_add(size);
        }
    }

    /// Follows an event that is no text line.
    pub fn follow(&mut self, limits: &[Limit], event: EventRef<'_>) -> Result<(), AllocError>
        requires { IsWrittenAlone event }
        ensures { OnOk result (self.new ≡ gauges_after limits.now self.old (event_value event.entry)) }
    {
        match event {
            EventRef::Requested { opening, .. } => self.open(limits, opening),
            EventRef::Mentioned { opening, .. } => self.open(limits, opening),
            EventRef::EntryShown { .. } => Ok(()),
            EventRef::LogEnds { .. } => {
                self.end();
                Ok(())
            }
        }
    }

    // Begins a gauge if a log is opened.
    fn open(&mut self, limits: &[Limit], opening: Opening) -> Result<(), AllocError>
        ensures { OnOk result (self.new ≡ with_opened limits.now (number_of_opening opening) self.old) }
    {
        if let Opening::OpensHere(number) = opening {
            self.logs.push(gauge_of(limits, number))?;
        }
        Ok(())
    }

    // Ends the gauge of the innermost log.
    fn end(&mut self)
        ensures { self.new ≡ after_end self.old }
    {
        let _ = self.logs.pop();
    }
}

// Returns the gauge of a log that begins.
fn gauge_of(limits: &[Limit], number: u32) -> Gauge
    ensures { result ≡ gauge_of limits.now number }
{
    let limit = match limits.get(number as usize) {
        Some(limit) => *limit,
        None => Limit { head: 0, tail: 0 },
    };
    Gauge { limit, seen: 0 }
}
