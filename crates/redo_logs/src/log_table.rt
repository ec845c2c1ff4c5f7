//! A log is the number of its target's name, its `PackedEntries`, and its state. If `add` fails, it may leave bytes, a block
//! or a name to which no `PackedEntries` refers. Adding never changes the entries of an existing one (`Extends`, `Keeping`),
//! and every call is proved from that.
//!
//! `enter` looks a target up and then inserts it. An insertion alone would allocate before `Twice` could be returned.
ghost use Rattle.std.specs.Prelude.{◌≡◌, ◌↔◌, ◌<◌, ◌≤◌, ◌^◌, ℕ, [], ◌∷◌, ◌++◌, length, slice_get, slice_index_or};
ghost use Rattle.std.specs.Prelude.{None, Some, Err, IfOk, OnOk, OnErr, OnSome, IsSome};
ghost use Rattle.std.specs.List.{list_all};
ghost use Rattle.std.specs.Option.{option_map};
ghost use Rattle.redo_logs.specs.declared.log_state.LogState.TheVariants.{Running, Ended, Failed};
ghost use Rattle.redo_logs.specs.EntryRef.{entry_value};
ghost use Rattle.redo_logs.specs.Logs.{IsTable, max_logs, new_log, with_entries, with_entry, with_state, update_log};
ghost use Rattle.redo_logs.specs.Logs.{targets_of, states_of, log_number, entry_at, first_failed, has_ended};

use crate::entry_ref::EntryRef;
use crate::log_state::LogState;
use crate::numbered::Numbered;
use crate::packed_log::PackedLog;
use crate::store::Store;
use crate::table_fault::TableFault;
use redo_line::{Entries, Entry, HashKeys, StreamFault, TargetName};
use std::alloc::{AllocError, Global};
use std::marker::Model;

// The maximum number of logs in a table.
const MAX_LOGS: usize = 1_048_575;

#[derive(Drop)]
pub struct Log {
    // The number of its target's name.
    pub name: usize,
    pub records: PackedLog,
    pub state: LogState,
}

/// The logs of a run, numbered from 0 in the order in which they were added. No target has two logs, and there are at
/// most 1,048,575.
pub struct LogTable {
    alloc: Global,
    store: Store,
    logs: Vec<Log>,
    // The number of the log of each name's target, by the name's number. A name past the end has no log.
    log_of_name: Vec<Option<u32>>,
}

// This is written by hand: a derived `drop` would be expanded, and proved, wherever a table is dropped.
impl Drop for LogTable {
    fn drop(self) {
        let LogTable {
            alloc: _,
            store: _kept,
            logs: _logs,
            log_of_name: _places,
        } = self;
    }
}

impl Model for LogTable {
    ghost use Rattle.std.specs.Prelude.{List};
    ghost use Rattle.redo_logs.specs.Logs.{Log};

    ghost Value = { List Log };

    ghost use Rattle.redo_logs.specs.Private.Stored.{IsStored, logs_of};

    ghost view = { λ table. logs_of table.store table.logs.items };

    ghost invariant = { λ table. IsStored table.store table.logs.items table.log_of_name.items };
}

impl LogTable {
    /// Creates an empty table. This does not allocate; later calls allocate from `alloc`. The names in logs can be
    /// chosen to collide, which makes look-ups slow: use [`LogTable::with_keys`] if somebody else may choose them.
    pub fn new(alloc: Global) -> LogTable
        ensures { result ≡ [] }
    {
        LogTable::with_keys(alloc, HashKeys::fixed())
    }

    /// Like [`LogTable::new`], but hashes names with these keys. The results of calls don't depend on the keys.
    pub fn with_keys(alloc: Global, keys: HashKeys) -> LogTable
        ensures { result ≡ [] }
    {
        LogTable {
            alloc,
            store: Store::new(alloc, keys),
            logs: Vec::new(alloc),
            log_of_name: Vec::new(alloc),
        }
    }

    /// Adds an empty, running log for a target, and returns its number. If this fails, nothing changes.
    pub fn enter(&mut self, target: TargetName) -> Result<u32, TableFault>
        ensures number { IfOk result (λ number. number ≡ length self.old) }
        ensures entered { OnOk result (self.new ≡ self.old ++ new_log target ∷ []) }
        ensures room { OnOk result (length self.old < max_logs) }
        // `Twice` is returned exactly if the target has a log, otherwise `Full` exactly if the table has 1,048,575 logs.
        ensures duplicate { (result ≡ Err TableFault.Twice) ↔ IsSome (log_number target self.old) }
        ensures full { (result ≡ Err TableFault.Full) ↔ ((log_number target self.old ≡ None) × (length self.old ≡ max_logs)) }
        ensures unchanged_on_err { OnErr result (self.new ≡ self.old) }
    {
        if self.find(&target).is_some() {
            return Err(TableFault::Twice);
        }
        if self.logs.len() == MAX_LOGS {
            return Err(TableFault::Full);
        }
        Ok(self.enter_new(target)?)
    }

    // Like `enter`, for a target that has no log. The table must not be full.
    fn enter_new(&mut self, target: TargetName) -> Result<u32, AllocError>
        requires absent { log_number target self.old ≡ None }
        requires room { length self.old < max_logs }
        ensures number { IfOk result (λ number. number ≡ length self.old) }
        ensures entered { OnOk result (self.new ≡ self.old ++ new_log target ∷ []) }
        ensures unchanged_on_err { OnErr result (self.new ≡ self.old) }
    {
        let number = self.logs.len() as u32;
        let name = self.store.intern(target)?;
        grow_to(&mut self.log_of_name, self.store.len())?;
        self.logs.push(Log {
            name,
            records: PackedLog::new(self.alloc),
            state: LogState::Running,
        })?;
        self.log_of_name[name] = Some(number);
        Ok(number)
    }

    /// Adds an entry to a log, which must be running. If this fails, nothing changes.
    pub fn add(&mut self, stream: u32, entry: Entry) -> Result<(), AllocError>
        requires running { slice_get (states_of self.old) stream ≡ Some Running }
        // The entries are appended to this log, and nothing else changes.
        ensures added { OnOk result (self.new ≡ update_log stream (with_entry entry) self.old) }
        ensures unchanged_on_err { OnErr result (self.new ≡ self.old) }
    {
        let record = self.store.store(entry)?;
        self.logs[stream as usize].records.push(record)?;
        Ok(())
    }

    /// Adds entries to a log, which must be running. If this fails, nothing changes. Large texts that fill their
    /// buffer well aren't copied: the table takes ownership of the buffer.
    pub fn add_all(&mut self, stream: u32, entries: Entries) -> Result<(), AllocError>
        requires running { slice_get (states_of self.old) stream ≡ Some Running }
        // The entries are appended to this log, and nothing else changes.
        ensures added { OnOk result (self.new ≡ update_log stream (with_entries entries) self.old) }
        ensures unchanged_on_err { OnErr result (self.new ≡ self.old) }
    {
        let records = self.store.store_all(self.alloc, entries)?;
        self.logs[stream as usize].records.append(&records)?;
        Ok(())
    }

    /// Ends a log, which must be running. It is complete then.
    pub fn end(&mut self, stream: u32)
        requires running { slice_get (states_of self.old) stream ≡ Some Running }
        // The log keeps its entries, and nothing else changes.
        ensures { self.new ≡ update_log stream (with_state Ended) self.old }
    {
        self.logs[stream as usize].state = LogState::Ended;
    }

    /// Sets the state of a log, which must be running, to failed with this fault. Its entries stay.
    pub fn fail(&mut self, stream: u32, fault: StreamFault)
        requires running { slice_get (states_of self.old) stream ≡ Some Running }
        // The log keeps its entries, and nothing else changes.
        ensures { self.new ≡ update_log stream (with_state (Failed fault)) self.old }
    {
        self.logs[stream as usize].state = LogState::Failed(fault);
    }

    /// Returns the number of logs.
    pub fn len(&self) -> u32
        ensures len { result ≡ length self.now }
        // The targets of the logs differ, and there are at most 1,048,575.
        ensures table { IsTable self.now }
    {
        self.logs.len() as u32
    }

    /// Returns the number of a target's log, if it has one. The look-up is by hash.
    pub fn find(&self, target: &TargetName) -> Option<u32>
        ensures { result ≡ log_number target.now self.now }
    {
        self.numbered().find(target)
    }

    /// Returns the target of log `i`, which must exist.
    pub fn name(&self, i: u32) -> &TargetName
        requires { i < length self.now }
        ensures { slice_get (targets_of self.now) i ≡ Some result.now }
    {
        self.store.name(self.logs[i as usize].name)
    }

    /// Returns the state of log `i`, which must exist.
    pub fn state(&self, i: u32) -> LogState
        requires { i < length self.now }
        ensures { slice_get (states_of self.now) i ≡ Some result }
    {
        self.logs[i as usize].state
    }

    /// Returns entry `k` of log `i`, if there is one. Logs and entries are counted from 0.
    pub fn entry(&self, i: u32, k: usize) -> Option<EntryRef<'_>>
        // An entry has the pid with which it was added.
        ensures entry { option_map entry_value result ≡ entry_at i k self.now }
        // Entries are numbered below 2^63.
        ensures no_overflow { OnSome result (k < 2 ^ 63) }
    {
        let log = self.logs.get(i as usize)?;
        let (one, place) = log.records.find(k)?;
        Some(self.store.load(one, place))
    }

    /// Returns the lowest number of a failed log, and its fault, if a log failed.
    pub fn first_fault(&self) -> Option<(u32, StreamFault)>
        ensures { result ≡ first_failed self.now }
    {
        let mut number = 0;
        for log in &self.logs {
            if let LogState::Failed(fault) = log.state {
                return Some((number, fault));
            }
            number += 1;
        }
        None
    }

    /// Borrows the logs, with a number for each name. It does not allocate.
    pub fn numbered(&self) -> Numbered<'_>
        ensures { result.logs ≡ self.now }
    {
        Numbered::new(&self.store, &self.logs, &self.log_of_name)
    }

    /// Returns whether every log has ended; true for an empty table.
    pub fn all_ended(&self) -> bool
        ensures { result ≡ list_all has_ended self.now }
    {
        self.logs
            .iter()
            .all(|log| matches!(log.state, LogState::Ended))
    }
}

// Grows `places` to at least `count` items. New items are `None`.
fn grow_to(places: &mut Vec<Option<u32>>, count: usize) -> Result<(), AllocError>
    ensures room { OnOk result (count ≤ length places.new.items) }
    ensures within { length places.old.items ≤ count → length places.new.items ≤ count }
    ensures same { (number : ℕ) → slice_index_or places.new.items number None ≡ slice_index_or places.old.items number None }
{
    if places.len() < count {
        places.resize(count, None)?;
    }
    Ok(())
}
