//! A read-only view of a table's logs, with a number for each name.
//!
//! It is modelled as the list of logs together with the list of names. The table's contract doesn't fix the numbers of names,
//! because they depend on the order of arrival. `name` and `log_of` map a number to the name and its log, without hashing.
//! `lines` returns the text lines of a `PackedEntries` as one slice, so a large log is written in few large writes.
ghost use Rattle.std.specs.Prelude.{◌≡◌, ◌+◌, ◌<◌, ◌^◌, length, nat_eq, slice_get, slice_index_or, Some, None, OnSome, IfSome};
ghost use Rattle.std.specs.Cmp.Lexicographic.{pointwise};
ghost use Rattle.std.specs.List.{IsDistinct};
ghost use Rattle.std.specs.Option.{option_map};
ghost use Rattle.redo_logs.specs.Logs.{IsTable, targets_of, log_number, entry_at};
ghost use Rattle.redo_logs.specs.Numbering.{AreLinesAt, HasText, IsNumbered, name_at, numbered_value};
ghost use Rattle.redo_logs.specs.Private.Stored.{IsStored, numbering_of};

use crate::entry_ref::EntryRef;
use crate::log_table::Log;
use crate::store::Store;
use redo_line::{How, TargetName};
use std::marker::Model;

/// An entry of a log, in which a mention has the number of its target's name.
#[derive(Clone, Copy)]
pub enum NumberedEntry<'a> {
    /// A mention of another target, or of the log's own.
    Mention { pid: u32, how: How, name: usize },
    /// An entry that is no mention.
    Other(EntryRef<'a>),
}

/// A read-only view of a table's logs. Each name, whether it names a log's own target or occurs in an entry, has a
/// number, counted from 0. Callers can iterate over entries without looking up names by hash.
#[derive(Drop)]
pub struct Numbered<'a> {
    store: &'a Store,
    logs: &'a [Log],
    // The number of the log of each name's target, by the name's number. A name past the end has no log.
    log_of_name: &'a [Option<u32>],
}

impl<'a> Model for Numbered<'a> {
    ghost use Rattle.redo_logs.specs.Numbering.{Numbering};

    ghost Value = { Numbering };

    ghost use Rattle.redo_logs.specs.Private.Stored.{IsStored, numbering_of};

    ghost view = { λ numbered. numbering_of numbered.store.now numbered.logs.now };

    ghost invariant = { λ numbered. IsStored numbered.store.now numbered.logs.now numbered.log_of_name.now };
}

impl<'a> Numbered<'a> {
    pub(crate) fn new(
        store: &'a Store,
        logs: &'a [Log],
        log_of_name: &'a [Option<u32>],
    ) -> Numbered<'a>
        requires { IsStored store.now logs.now log_of_name.now }
        ensures { result ≡ numbering_of store.now logs.now }
    {
        Numbered {
            store,
            logs,
            log_of_name,
        }
    }

    /// Returns the number of logs.
    pub fn len(&self) -> u32
        ensures len { result ≡ length self.now.logs }
        ensures table { IsTable self.now.logs }
    {
        self.logs.len() as u32
    }

    /// Returns the number of names. No two are the same.
    pub fn names(&self) -> usize
        ensures len { result ≡ length self.now.names }
        ensures differ { IsDistinct (pointwise nat_eq) self.now.names }
    {
        self.store.len()
    }

    /// Returns the number of a target's log, if it has one. The look-up is by hash.
    pub fn find(&self, target: &TargetName) -> Option<u32>
        ensures { result ≡ log_number target.now self.now.logs }
    {
        let name = self.store.find(target)?;
        self.log_of(name)
    }

    /// Returns the name with this number, which must exist.
    pub fn name(&self, number: usize) -> &'a TargetName
        requires { number < length self.now.names }
        ensures { name_at self.now.names number ≡ result.now }
    {
        self.store.name(number)
    }

    /// Returns the number of the log of the target whose name has this number, if there is such a log. The name must
    /// exist.
    pub fn log_of(&self, name: usize) -> Option<u32>
        requires { name < length self.now.names }
        ensures { result ≡ log_number (name_at self.now.names name) self.now.logs }
    {
        match self.log_of_name.get(name) {
            Some(place) => *place,
            None => None,
        }
    }

    /// Returns the number of the name of log `i`'s target. The log must exist.
    pub fn target(&self, i: u32) -> usize
        requires { i < length self.now.logs }
        ensures below { result < length self.now.names }
        ensures is { slice_get (targets_of self.now.logs) i ≡ Some (name_at self.now.names result) }
    {
        self.logs[i as usize].name
    }

    /// Returns entry `k` of log `i`, if there is one. Logs and entries are counted from 0.
    pub fn entry(&self, i: u32, k: usize) -> Option<NumberedEntry<'a>>
        ensures entry { option_map (numbered_value self.now.names) result ≡ entry_at i k self.now.logs }
        // A mention has the number of its name, and other entries have none.
        ensures numbered { IfSome result (IsNumbered self.now.names) }
        ensures no_overflow { OnSome result (k < 2 ^ 63) }
    {
        let log = self.logs.get(i as usize)?;
        let (one, place) = log.records.find(k)?;
        Some(self.store.load_numbered(one, place))
    }

    /// Returns the text lines of log `i` from entry `k` on, each with its line feed, as far as they are stored
    /// together, and their number. There is at least one if entry `k` is a text line.
    pub fn lines(&self, i: u32, k: usize) -> (&'a [u8], usize)
        ensures lines { AreLinesAt self.now.logs i k result.0.now result.1 }
        ensures nonempty { HasText self.now.logs i k → 0 < result.1 }
        ensures no_overflow { k + result.1 < 2 ^ 64 }
    {
        let Some(log) = self.logs.get(i as usize) else {
            return (&[], 0);
        };
        match log.records.find(k) {
            Some((one, place)) => self.store.lines(one, place),
            None => (&[], 0),
        }
    }
}
