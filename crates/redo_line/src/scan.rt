//! The scan of a stream. The log and the fault of a stream are defined over its whole list of bytes (`Log`). A scan is
//! modelled as the bytes that it consumed (a ghost), with its target, size limit, must-close flag and fault, and not as the
//! state that it stores. Its clauses read as sentences, and loops mention no chunks or counters.
//!
//! A step first checks whether the next byte is invalid because of its position. Then it passes the bytes within the limit to
//! `PartialLine`, and appends the entry of the line found. Only these bytes are searched for a line feed: a line that ends
//! past the limit isn't found, and the fault is `TooLong`. A byte that is invalid because of its position is reported without
//! allocating only if a step begins there; otherwise the line before it is copied first.
//!
//! No step can check the must-close flag: it concerns the last line, and every other fault comes first. It comes from the
//! index, not from a reader, and so has a separate layer (`Source`).
ghost use Rattle.std.specs.Prelude.{◌≡◌, ◌≢◌, ◌<◌, ◌≤◌, ◌^◌, ◌++◌, [], None, Some, Ok, Err, IfOk, IfErr, IfSome, IfNone, length, drop, slice_range, option_to_list};
ghost use Rattle.redo_line.specs.Lines.{rest, unended};
ghost use Rattle.redo_line.specs.Source.{source_fault, source_log};
ghost use Rattle.redo_line.specs.Scan.{FindsEntries, ConsumesAll, Steps, IsFaultFree, MayFailWith, FirstByteIsPastEnd, entries_in, fail_with, source_in, unended_entry};
ghost use Rattle.redo_line.specs.declared.stream_fault.StreamFault.{StreamFault};
ghost use Rattle.redo_line.specs.declared.stream_fault.StreamFault.TheVariants.{NotClosed, Read};

use crate::entries::Entries;
use crate::entry::Entry;
use crate::history::History;
use crate::progress::Progress;
use crate::stream_fault::StreamFault;
use redo_name::TargetName;
use std::alloc::Global;
use std::marker::Model;

/// The result of a scan for a chunk.
#[derive(Drop)]
pub enum Step {
    /// The entry of a line, and the offset in the chunk after its line feed.
    Found { entry: Entry, upto: usize },
    /// No line ends in the rest of the chunk, and all of it was consumed.
    More,
}

/// Reads the log of a target from a stream that arrives in chunks, up to the stream's fault. It is
/// modelled as the bytes that it consumed, with the target, the limit, whether the log must be closed,
/// and the fault that it returned, if any.
#[derive(Drop)]
pub struct Scan {
    alloc: Global,
    progress: Progress,
    must_close: bool,
    history: History,
    failed_with: Option<StreamFault>,
}

impl Model for Scan {
    ghost use Rattle.redo_line.specs.Scan.{Scanned};
    ghost use Rattle.redo_line.specs.Private.Progress.{IsScan};

    ghost Value = { Scanned };

    ghost view = { λ scan. record {
      target = scan.progress.target;
      max_bytes = scan.progress.max_bytes;
      must_close = scan.must_close;
      bytes = scan.history.bytes;
      failed_with = scan.failed_with;
    } };

    ghost invariant = { λ scan. IsScan scan.progress scan.history.bytes scan.failed_with };
}

impl Scan {
    /// Creates a scan of the log of a target. The log may have at most `max_bytes` bytes, a number from 1
    /// to 1,099,511,627,776. If `must_close` is set, the stream must end with the closing record. This
    /// doesn't allocate; later calls allocate from `alloc`.
    pub fn new(alloc: Global, target: TargetName, max_bytes: u64, must_close: bool) -> Scan
        requires at_least { 1 ≤ max_bytes }
        requires at_most { max_bytes ≤ 2 ^ 40 }
        ensures scan { result ≡
            record { target = target; max_bytes = max_bytes; must_close = must_close; bytes = []; failed_with = None } }
        // It has consumed, rejected and found nothing.
        ensures fault_free { IsFaultFree result }
        ensures none_found { entries_in result ≡ [] }
    {
        Scan {
            alloc,
            progress: Progress::new(alloc, target, max_bytes),
            must_close,
            history: History::empty(),
            failed_with: None,
        }
    }

    /// Consumes the bytes of `chunk` from the offset `from` up to the end of the first line. Call it
    /// again with the returned offset until it returns `More`, and then with the next chunk.
    ///
    /// Fails at the first invalid line, or at the first byte past the limit; docs/format.md has the rule.
    /// It never returns `Read` or `NotClosed`. Once it has returned a fault, including `OutOfMemory`,
    /// every later call returns the same fault.
    pub fn step(&mut self, chunk: &[u8], from: usize) -> Result<Step, StreamFault>
        requires { from ≤ length chunk.now }

        // A line ends and its entry is returned, or the rest of the chunk is consumed, or a fault is returned.
        ensures step { Steps self.old self.new chunk.now from result }

        // If the first byte is after the closing record or past the limit, that fault is returned, without allocating.
        ensures immediate { (fault : StreamFault) → FirstByteIsPastEnd self.old (drop from chunk.now) fault → result ≡ Err fault }

        // A fault that was returned is returned by every later call.
        ensures sticky { (fault : StreamFault) → self.old.failed_with ≡ Some fault → result ≡ Err fault }
    {
        let before = History::extended(&self.history, &[]);
        let mut read = Entries::new(self.alloc);
        let Some(upto) = self.step_into(chunk, from, 1, &mut read)? else {
            return Ok(Step::More);
        };
        match read.into_entry(self.alloc) {
            Ok(entry) => Ok(Step::Found { entry, upto }),
            Err(_) => {
                self.history = before;
                self.failed_with = Some(StreamFault::OutOfMemory);
                Err(StreamFault::OutOfMemory)
            }
        }
    }

    /// Does the same as [`Scan::step`], but may consume several lines at once, at most `max_lines`. Appends their entries to
    /// `entries` and returns the offset after their line feeds, or `None` if no line ends. If it fails, `entries` are
    /// unchanged.
    pub fn step_into(
        &mut self,
        chunk: &[u8],
        from: usize,
        max_lines: u16,
        entries: &mut Entries,
    ) -> Result<Option<usize>, StreamFault>
        requires from { from ≤ length chunk.now }
        requires max_lines { 1 ≤ max_lines }

        // The bytes up to the offset end further lines without a fault, and their entries are appended.
        ensures range { IfOk result (λ found. IfSome found (λ end_offset. (from < end_offset) × (end_offset ≤ length chunk.now))) }
        ensures found { IfOk result (λ found. IfSome found (λ end_offset.
            FindsEntries self.old self.new (slice_range chunk.now from end_offset) max_lines entries.old entries.new)) }

        // Otherwise the rest of the chunk is consumed. It ends no further line and has no fault.
        ensures rest_consumed { IfOk result (λ found. IfNone found (ConsumesAll self.old self.new (drop from chunk.now))) }
        // If no line ends, the entries are unchanged.
        ensures entries_unchanged { IfOk result (λ found. IfNone found (entries.new ≡ entries.old)) }

        // The fault is `OutOfMemory` or the fault of the bytes, with no further entry before it.
        ensures fault { self.old.failed_with ≡ None → IfErr result (MayFailWith self.old (drop from chunk.now)) }
        ensures unchanged_on_err { IfErr result (λ _. entries.new ≡ entries.old) }

        // If the first byte is after the closing record or past the limit, that fault is returned, without allocating.
        ensures immediate { (fault : StreamFault) → FirstByteIsPastEnd self.old (drop from chunk.now) fault → result ≡ Err fault }

        // A fault is stored, and returned by every later call.
        ensures fault_stored { IfErr result (λ fault. self.new ≡ fail_with fault self.old) }
        ensures sticky { (fault : StreamFault) → self.old.failed_with ≡ Some fault → result ≡ Err fault }
        ensures never_read_fault { IfErr result (λ fault. fault ≢ Read) }
        ensures never_not_closed { IfErr result (λ fault. fault ≢ NotClosed) }
    {
        if let Some(fault) = self.failed_with {
            return Err(fault);
        }
        match self.progress.advance(chunk, from, max_lines, entries) {
            Ok(Some(end_offset)) => {
                self.history = History::extended(&self.history, &chunk[from..end_offset]);
                Ok(Some(end_offset))
            }
            Ok(None) => {
                self.history = History::extended(&self.history, &chunk[from..]);
                Ok(None)
            }
            Err(fault) => {
                self.failed_with = Some(fault);
                Err(fault)
            }
        }
    }

    /// Returns the unended line of all bytes consumed, as text, or `None` if there is none. Fails with `NotClosed` if
    /// the log must be closed and isn't. If the scan failed before, it returns the same fault again.
    pub fn finish(self) -> Result<Option<Entry>, StreamFault>
        ensures rest { self.failed_with ≡ None → IfOk result (λ last. last ≡ unended_entry (unended (rest self.bytes))) }
        // With the unended line, the entries found are the log.
        ensures log { self.failed_with ≡ None →
            IfOk result (λ last. source_log self.max_bytes (source_in self) ≡ Some (entries_in self ++ option_to_list last)) }
        // `NotClosed` is the fault of all bytes consumed.
        ensures not_closed { self.failed_with ≡ None →
            IfErr result (λ fault. (fault ≡ NotClosed) × (source_fault self.max_bytes (source_in self) ≡ Some NotClosed)) }
        ensures sticky { (fault : StreamFault) → self.failed_with ≡ Some fault → result ≡ Err fault }
        ensures never_read_fault { IfErr result (λ fault. fault ≢ Read) }
    {
        if let Some(refused) = self.failed_with {
            return Err(refused);
        }
        if let Some(fault) = self.closing_fault() {
            return Err(fault);
        }
        match self.progress.finish() {
            Some(line) => Ok(Some(Entry::Text(line))),
            None => Ok(None),
        }
    }

    // Returns the stream's fault if the input ends after the bytes consumed.
    fn closing_fault(&self) -> Option<StreamFault>
        requires { self.now.failed_with ≡ None }
        ensures left { result ≡ source_fault self.now.max_bytes (source_in self.now) }
        ensures not_closed { IfSome result (λ fault. fault ≡ NotClosed) }
    {
        if !self.must_close {
            None
        } else if self.progress.is_closed() {
            None
        } else {
            Some(StreamFault::NotClosed)
        }
    }
}
