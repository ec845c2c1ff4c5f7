//! The `PackedEntries` values of one log. A `PackedEntries` may hold several entries.
//!
//! It takes 24 bytes, and is several consecutive text lines or one other entry: its pid, status and name number, or for a
//! note an index into a vector (`NoteSpan`).
//!
//! For every eighth one, `checkpoints` has the number of entries before it. A search starts at a checkpoint at or before the
//! entry and counts from there. If each one before that checkpoint is a single entry, its position is known; otherwise binary
//! search finds it. The contract says only that checkpoints are correct. Which one is chosen needs no proof: a checkpoint
//! past the entry is never used.
ghost use Rattle.std.specs.Prelude.{◌≡◌, ◌≤◌, ◌<◌, ◌*◌, ◌^◌, ◌⊎◌, ◌++◌, [], ◌∷◌, length, take, IfSome, IfNone, OnOk, OnErr, OnSome};
ghost use Rattle.redo_logs.specs.Private.PackedLog.{AddsCheckpoint, IsBefore, IsLocated, count_of};

use crate::store::PackedEntries;
use std::alloc::{AllocError, Global};
use std::marker::Model;

// The number of `PackedEntries` values per checkpoint.
const CHECKPOINT_INTERVAL: usize = 8;

// The maximum number of entries in a log, 2^62: more than memory can hold, and small enough that counts don't
// overflow.
const MAX_ENTRIES: usize = 4_611_686_018_427_387_904;

/// The `PackedEntries` values of one log, modelled as their list.
#[derive(Drop)]
pub struct PackedLog {
    items: Vec<PackedEntries>,
    // Checkpoints: the numbers of entries before `PackedEntries` values 0, 8, 16 and so on.
    checkpoints: Vec<usize>,
    // The number of entries.
    entries: usize,
}

impl Model for PackedLog {
    ghost use Rattle.std.specs.Prelude.{List};
    ghost use Rattle.redo_logs.specs.declared.store.PackedEntries as spec;
    ghost use Rattle.redo_logs.specs.Private.PackedLog.{AreNumbered};

    ghost Value = { List spec.PackedEntries };

    ghost view = { λ records. records.items.items };

    ghost invariant = { λ records. AreNumbered records.items.items records.checkpoints.items records.entries };
}

impl PackedLog {
    /// Creates an empty list. It does not allocate.
    pub fn new(alloc: Global) -> PackedLog
        ensures { result ≡ [] }
    {
        PackedLog {
            items: Vec::new(alloc),
            checkpoints: Vec::new(alloc),
            entries: 0,
        }
    }

    /// Appends a `PackedEntries`. If this fails, nothing changes.
    pub fn push(&mut self, one: PackedEntries) -> Result<(), AllocError>
        ensures pushed { OnOk result (self.new ≡ self.old ++ one ∷ []) }
        ensures unchanged_on_err { OnErr result (self.new ≡ self.old) }
    {
        let count = one.count();
        if MAX_ENTRIES - self.entries < count {
            return Err(AllocError);
        }
        add_checkpoint(&mut self.checkpoints, self.items.len(), self.entries)?;
        self.items.push(one)?;
        self.entries += count;
        Ok(())
    }

    /// Appends `PackedEntries` values. If this fails, nothing changes.
    pub fn append(&mut self, records: &[PackedEntries]) -> Result<(), AllocError>
        ensures appended { OnOk result (self.new ≡ self.old ++ records.now) }
        ensures unchanged_on_err { OnErr result (self.new ≡ self.old) }
    {
        let count = self.items.len();
        let entries = self.entries;
        for one in records {
            match self.push(*one) {
                Ok(()) => {}
                Err(fault) => {
                    self.cut(count, entries);
                    return Err(fault);
                }
            }
        }
        Ok(())
    }

    // Keeps the first `count` `PackedEntries` values, which hold `entries` entries.
    fn cut(&mut self, count: usize, entries: usize)
        requires before { IsBefore self.old count entries }
        requires at_most { entries ≤ 2 ^ 62 }
        ensures { self.new ≡ take count self.old }
    {
        self.items.truncate(count);
        self.checkpoints.truncate(count / CHECKPOINT_INTERVAL + 1);
        self.entries = entries;
    }

    /// Returns the `PackedEntries` that holds entry `number`, counted from 0, and the entry's position in it.
    pub fn find(&self, number: usize) -> Option<(PackedEntries, usize)>
        ensures found { IfSome result (λ found. IsLocated self.now number found.0 found.1) }
        ensures none { IfNone result (count_of self.now ≤ number) }
        ensures no_overflow { OnSome result (number < 2 ^ 62) }
    {
        let (at, before) = self.search_start(number);
        find_from(&self.items, at, before, number)
    }

    // Returns the position of a `PackedEntries` that isn't past entry `number`, and the number of entries before this
    // `PackedEntries`.
    fn search_start(&self, number: usize) -> (usize, usize)
        ensures before { IsBefore self.now result.0 result.1 }
        ensures not_after { result.1 ≤ number }
    {
        let checkpoint = self.checkpoint(number);
        match self.checkpoints.get(checkpoint) {
            Some(before) if *before <= number => (checkpoint * CHECKPOINT_INTERVAL, *before),
            _ => (0, 0),
        }
    }

    // Returns the number of the checkpoint to start at. It is known at once if each `PackedEntries` before it holds one
    // entry. Otherwise a binary search finds the last checkpoint that isn't past the entry.
    fn checkpoint(&self, number: usize) -> usize {
        let guess = number / CHECKPOINT_INTERVAL;
        match self.checkpoints.get(guess) {
            Some(before) if *before == guess * CHECKPOINT_INTERVAL => guess,
            _ => last_at_most(&self.checkpoints, number),
        }
    }
}

// Appends a checkpoint if the next `PackedEntries` needs one. `records` and `entries` are the numbers before this `PackedEntries`.
fn add_checkpoint(
    checkpoints: &mut Vec<usize>,
    records: usize,
    entries: usize,
) -> Result<(), AllocError>
    ensures { AddsCheckpoint checkpoints.old.items checkpoints.new.items records entries }
{
    if records / CHECKPOINT_INTERVAL == checkpoints.len() && records % CHECKPOINT_INTERVAL == 0 {
        checkpoints.push(entries)?;
    }
    Ok(())
}

// Returns the last position whose number isn't greater than `number`; 0 if there is none. `numbers` are ascending.
fn last_at_most(numbers: &[usize], number: usize) -> usize {
    let mut low = 0;
    let mut high = numbers.len();
    while high - low > 1 {
        let middle = low + (high - low) / 2;
        if numbers[middle] <= number {
            low = middle;
        } else {
            high = middle;
        }
    }
    low
}

// Like `find`, but starts at the `PackedEntries` at position `at`, before which there are `before` entries.
fn find_from(
    records: &[PackedEntries],
    at: usize,
    before: usize,
    number: usize,
) -> Option<(PackedEntries, usize)>
    requires before { IsBefore records.now at before }
    requires not_after { before ≤ number }
    requires at_most { count_of records.now ≤ 2 ^ 62 }
    ensures found { IfSome result (λ found. IsLocated records.now number found.0 found.1) }
    ensures none { IfNone result (count_of records.now ≤ number) }
    ensures no_overflow { OnSome result (number < 2 ^ 62) }
{
    let mut at = at;
    let mut before = before;
    'records: while let Some(one) = records.get(at) {
        let count = one.count();
        if number - before < count {
            return Some((*one, number - before));
        }
        before += count;
        at += 1;
    }
    None
}
