//! The collector adds the entries to the log of the item's stream, and ends or fails it (`store_item`). Once memory has run
//! out, it goes on taking and stores nothing. The table is specified only if memory never ran out (`StoresAllTaken`), so a
//! batch that was cut short needs no undoing.
//!
//! The collector skips an item that doesn't fit its log. Such items never occur, but this can be proved only at the end, so
//! no fault is defined for them.
ghost use Rattle.std.specs.Prelude.{◌≡◌, ◌≢◌, ℕ, ◌≤◌, ◌^◌, List, [], ◌∷◌, ◌++◌, Option, false, Ok, IfOk};
ghost use Rattle.std.specs.Result.{result_and};
ghost use Rattle.redo_line.specs.declared.stream_fault.StreamFault.TheVariants.{OutOfMemory};
ghost use Rattle.redo_wire.specs.declared.item.Item.{Item};
ghost use Rattle.redo_wire.specs.Mailbox.{AreAllMet, AreEndsOf, AreFromSenders, AreMetFullyTaken, IsOpened, after_meet};
ghost use Rattle.redo_gather.specs.GatherFault.{IfStreamFault};
ghost use Rattle.redo_gather.specs.Gathered.{IsGathered};
ghost use Rattle.redo_gather.specs.Private.Collecting.{AllExpected, AllTaken, StoresAllTaken};
ghost use Rattle.redo_gather.specs.Streams.{KnownInput};

use crate::gate::Gate;
use crate::gather_fault::GatherFault;
use crate::storing::store_item;
use redo_logs::LogTable;
use redo_wire::{Item, PostEnd, TakeEnd, What, open};
use std::alloc::{AllocError, Global};
use std::sync::Wait;

/// Takes the items that senders post, and stores them in a table. After an allocation has failed, or an item has
/// reported that one did, it goes on taking items and stores nothing more.
#[derive(Drop)]
pub struct LogCollector {
    pub take_end: TakeEnd,
    pub table: LogTable,
    pub out_of_memory: bool,
    // For each stream, how many of its entries were taken.
    counts: Vec<u64>,
}

impl LogCollector {
    // Creates a collector that stores items in a table.
    fn new(alloc: Global, take_end: TakeEnd, table: LogTable) -> Result<LogCollector, AllocError>
        ensures { IfOk result (λ collector.
            (collector.take_end ≡ take_end) × (collector.table ≡ table) × (collector.out_of_memory ≡ false)) }
    {
        let counts = vec![in alloc; 0u64; table.len() as usize]?;
        Ok(LogCollector {
            take_end,
            table,
            out_of_memory: false,
            counts,
        })
    }

    /// Creates a collector for a table with a new mailbox of this capacity. Returns it with the post ends of
    /// the senders.
    pub fn open(
        alloc: Global,
        table: LogTable,
        capacity: u32,
        senders: u32,
    ) -> Result<(LogCollector, Vec<PostEnd>), AllocError>
        requires capacity { (1 ≤ capacity) × (capacity ≤ 2 ^ 16) }
        requires senders { (1 ≤ senders) × (senders ≤ 64) }
        ensures take_end { IfOk result (λ opened. IsOpened capacity senders opened.0.take_end) }
        ensures post_ends { IfOk result (λ opened. AreEndsOf opened.0.take_end.mailbox opened.1.items) }
        ensures begins { IfOk result (λ opened. (opened.0.table ≡ table) × (opened.0.out_of_memory ≡ false)) }
    {
        let (take_end, ends) = open(alloc, capacity, senders)?;
        let collector = LogCollector::new(alloc, take_end, table)?;
        Ok((collector, ends))
    }

    /// Takes items until `stream_count` streams are over, or nothing more comes.
    pub fn take<T: Wait, G: Gate>(&mut self, rt: &T, gate: &G, stream_count: usize)
        ensures unchanged { (self.new.take_end.mailbox ≡ self.old.take_end.mailbox) × (self.new.take_end.met ≡ self.old.take_end.met) }
        ensures holds { (names : List (List ℕ)) → StoresAllTaken names self.old.take_end.taken self.old.table self.old.out_of_memory →
            StoresAllTaken names self.new.take_end.taken self.new.table self.new.out_of_memory }
    {
        let mut remaining = stream_count;
        for _ in rt.forever() {
            if remaining == 0 {
                return;
            }
            let Some(item) = self.take_end.take(rt) else {
                return;
            };
            if is_final(&item.what) {
                remaining -= 1;
            }
            self.store_and_notify(rt, gate, item);
        }
        unreachable!()
    }

    /// Meets a post end, which posts nothing more.
    pub fn meet<T: Wait>(&mut self, rt: &T, end: PostEnd)
        requires { end.mailbox ≡ self.old.take_end.mailbox }
        ensures met { self.new.take_end ≡ after_meet end self.old.take_end }
        ensures unchanged { (self.new.table ≡ self.old.table) × (self.new.out_of_memory ≡ self.old.out_of_memory) }
    {
        self.take_end.meet(rt, end);
    }

    /// Takes the remaining items after the ends of all senders were met. Returns the table, or the fault of the lowest-numbered
    /// stream that has one. If an end wasn't met or an allocation failed, it returns `OutOfMemory`.
    pub fn finish<T: Wait, G: Gate>(mut self, rt: &T, gate: &G) -> Result<LogTable, GatherFault>
        ensures gathered { (max_bytes : ℕ) (names : List (List ℕ)) (known : List KnownInput) → AllExpected max_bytes names known self →
            IsGathered max_bytes names known result }
        ensures never_out_of_memory { IfStreamFault result (λ number fault. fault ≢ OutOfMemory) }
    {
        self.finish_table(rt, gate).and(Ok(self.table))
    }

    // Takes the remaining items. Returns `OutOfMemory` or the first fault in the table, if there is one.
    fn finish_table<T: Wait, G: Gate>(&mut self, rt: &T, gate: &G) -> Result<(), GatherFault>
        ensures gathered { (max_bytes : ℕ) (names : List (List ℕ)) (known : List KnownInput) → AllExpected max_bytes names known self.old →
            IsGathered max_bytes names known (result_and result (Ok self.new.table)) }
        ensures never_out_of_memory { IfStreamFault result (λ number fault. fault ≢ OutOfMemory) }
    {
        if !self.take_end.all_met() {
            return Err(GatherFault::OutOfMemory);
        }
        self.drain(rt, gate);
        self.final_result()
    }

    // Takes the remaining items after all ends were met.
    fn drain<T: Wait, G: Gate>(&mut self, rt: &T, gate: &G)
        requires { AreAllMet self.old.take_end }
        ensures met { AreAllMet self.new.take_end }
        ensures unchanged { (self.new.take_end.mailbox ≡ self.old.take_end.mailbox) × (self.new.take_end.met ≡ self.old.take_end.met) }
        ensures holds { (names : List (List ℕ)) → StoresAllTaken names self.old.take_end.taken self.old.table self.old.out_of_memory →
            StoresAllTaken names self.new.take_end.taken self.new.table self.new.out_of_memory }
        ensures all_taken { AreMetFullyTaken self.new.take_end }
        ensures only_senders { AreFromSenders self.new.take_end }
    {
        for _ in rt.forever() {
            let Some(item) = self.take_end.rest(rt) else {
                return;
            };
            self.store_and_notify(rt, gate, item);
        }
        unreachable!()
    }

    // Returns `OutOfMemory` if an allocation failed, otherwise the first fault in the table, if there is one.
    fn final_result(&self) -> Result<(), GatherFault>
        ensures gathered { (max_bytes : ℕ) (names : List (List ℕ)) (known : List KnownInput) → AllTaken max_bytes names known self.now →
            IsGathered max_bytes names known (result_and result (Ok self.now.table)) }
        ensures never_out_of_memory { IfStreamFault result (λ number fault. fault ≢ OutOfMemory) }
    {
        if self.out_of_memory {
            return Err(GatherFault::OutOfMemory);
        }
        match self.table.first_fault() {
            None => Ok(()),
            Some((number, fault)) => Err(GatherFault::of(number, fault)),
        }
    }

    /// Stores an item that was taken, and notifies the gate.
    fn store_and_notify<T: Wait, G: Gate>(&mut self, rt: &T, gate: &G, item: Item)
        ensures unchanged { self.new.take_end ≡ self.old.take_end }
        ensures holds { (names : List (List ℕ)) (before : List Item) → StoresAllTaken names before self.old.table self.old.out_of_memory →
            StoresAllTaken names (before ++ item ∷ []) self.new.table self.new.out_of_memory }
    {
        let stream = item.stream;
        let added = entry_count(&item.what);
        let ends_stream = is_final(&item.what);
        self.store(item);
        self.notify_gate(rt, gate, stream, added);
        if ends_stream {
            gate.over(rt, stream);
        }
    }

    // Stores an item, unless an allocation failed before.
    fn store(&mut self, item: Item)
        ensures unchanged { self.new.take_end ≡ self.old.take_end }
        ensures holds { (names : List (List ℕ)) (before : List Item) → StoresAllTaken names before self.old.table self.old.out_of_memory →
            StoresAllTaken names (before ++ item ∷ []) self.new.table self.new.out_of_memory }
    {
        if self.out_of_memory {
            drop(item);
            return;
        }
        let Ok(()) = store_item(&mut self.table, item) else {
            self.out_of_memory = true;
            return;
        };
    }

    // Notifies the gate of `added` further entries.
    fn notify_gate<T: Wait, G: Gate>(&mut self, rt: &T, gate: &G, stream: u32, added: usize)
        ensures { (self.new.take_end ≡ self.old.take_end) × (self.new.table ≡ self.old.table)
            × (self.new.out_of_memory ≡ self.old.out_of_memory) }
    {
        if let Some(count) = self.counts.get_mut(stream as usize) {
            notify_gate_each(rt, gate, stream, count, added);
        }
    }
}

// Counts `added` further entries of a stream, and notifies the gate of each of them.
fn notify_gate_each<T: Wait, G: Gate>(
    rt: &T,
    gate: &G,
    stream: u32,
    count: &mut u64,
    added: usize,
) {
    for _ in 0..added {
        *count = count.wrapping_add(1);
        gate.taken(rt, stream, *count);
    }
}

// Returns the number of entries of an item.
fn entry_count(what: &What) -> usize {
    match what {
        What::Line(_) => 1,
        What::Lines(entries) => entries.len(),
        What::End | What::Fail(_) => 0,
    }
}

// Whether this is the last item of its stream.
fn is_final(what: &What) -> bool {
    match what {
        What::Line(_) | What::Lines(_) => false,
        What::End | What::Fail(_) => true,
    }
}
