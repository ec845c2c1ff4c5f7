//! Laws, which are theorems about the definitions alone: each contract is a theorem, and the bodies are empty.
ghost use Rattle.std.specs.Prelude.{◌≡◌, ℕ, Bool, true, false, List, ◌++◌, None, Some, IfSome, IsSome};
ghost use Rattle.redo_device.specs.Feed.{Stream};
ghost use Rattle.redo_line.specs.declared.stream_fault.StreamFault.{StreamFault};
ghost use Rattle.redo_line.specs.Entry.{IsEntry, entry_of};
ghost use Rattle.redo_line.specs.Laws.{IsUnique, IsUniqueSplit, HasOneEntryPerLine, ClosesAtEnd, EarlyFaultIsFinal, EntriesBeforeItAreFinal, FailedReadIsFault, FailedReadKeepsEntries, EntriesPrefixPart, EntriesPrefixLog};
ghost use Rattle.redo_line.specs.Lines.{AreLines, ended, rest};
ghost use Rattle.redo_line.specs.Log.{IsFineLine, IsFirstFault, fault_of, line_fault, log_of};
ghost use Rattle.redo_line.specs.Source.{Source, source_fault, source_log, source};
ghost use Rattle.redo_line.specs.Record.{Fields, IsRecord};

/// Bytes are split into lines and a rest in exactly one way.
pub fn splitting_is_unique()
    ensures exists { (bytes : List ℕ) → AreLines bytes (ended bytes) (rest bytes) }
    ensures only { (bytes : List ℕ) → IsUniqueSplit bytes (ended bytes) (rest bytes) }
{}

/// How bytes are split depends only on the rest of the bytes before them.
pub fn splitting_is_incremental()
    ensures lines { (before after : List ℕ) → ended (before ++ after) ≡ ended before ++ ended (rest before ++ after) }
    ensures last { (before after : List ℕ) → rest (before ++ after) ≡ rest (rest before ++ after) }
{}

/// A record can be read in only one way: it has one kind, pid, time and text.
pub fn record_has_one_parse()
    ensures { (line : List ℕ) (fields others : Fields) → IsRecord line fields → IsRecord line others → fields ≡ others }
{}

/// A line has the entry that is computed and no other one. If none is computed, it has none. Every record has an entry.
pub fn entry_is_sound_and_complete()
    ensures is { (target line : List ℕ) (ended : Bool) → IfSome (entry_of target line ended) (IsEntry target line ended) }
    ensures only { (target line : List ℕ) (ended : Bool) → IsUnique (IsEntry target line ended) (entry_of target line ended) }
    ensures record { (target line : List ℕ) (fields : Fields) → IsRecord line fields → IsSome (entry_of target line true) }
{}

/// The fault of the lines of some bytes is the fault of the first invalid line: the first one that follows a closing
/// record or is a bad record. If there is none, there is no fault.
pub fn first_faulty_line()
    ensures some { (target bytes : List ℕ) (fault : StreamFault) → line_fault target bytes ≡ Some fault → IsFirstFault target bytes fault }
    ensures only { (target bytes : List ℕ) (fault : StreamFault) → IsFirstFault target bytes fault → line_fault target bytes ≡ Some fault }
    ensures none { (target bytes : List ℕ) → line_fault target bytes ≡ None → (line : ℕ) → IsFineLine target bytes line }
{}

/// A bad record, a line after the closing record, and too many bytes are known before the end of the stream. Such a fault
/// is the fault of the whole stream, with the same entries before it.
pub fn early_fault_is_final()
    ensures fault { (target : List ℕ) (max_bytes : ℕ) (must_close : Bool) → EarlyFaultIsFinal target max_bytes must_close }
    ensures part { (target : List ℕ) (max_bytes : ℕ) (must_close : Bool) → EntriesBeforeItAreFinal target max_bytes must_close }
{}

/// If a read fails after bytes that have no fault, the failed read is the fault, and no entry is lost.
pub fn failed_read_is_the_fault()
    ensures fault { (target : List ℕ) (max_bytes : ℕ) (must_close : Bool) → FailedReadIsFault target max_bytes must_close }
    ensures part { (target : List ℕ) (max_bytes : ℕ) (must_close : Bool) → FailedReadKeepsEntries target max_bytes must_close }
{}

/// If bytes have no fault, their entries are a prefix of the entries of every stream that begins with these bytes: of the
/// entries before its fault if it has a fault, and of its log if it has a log.
pub fn entries_are_final()
    ensures part { (target : List ℕ) (max_bytes : ℕ) (must_close : Bool) → EntriesPrefixPart target max_bytes must_close }
    ensures log { (target : List ℕ) (max_bytes : ℕ) (must_close : Bool) → EntriesPrefixLog target max_bytes must_close }
{}

/// If a log need not be closed, the log and its fault are the log and the fault of the stream alone.
pub fn unflagged_log_may_end_anywhere()
    ensures fault { (target : List ℕ) (max_bytes : ℕ) (stream : Stream) →
        source_fault max_bytes (source target false stream) ≡ fault_of target max_bytes stream }
    ensures log { (target : List ℕ) (max_bytes : ℕ) (stream : Stream) →
        source_log max_bytes (source target false stream) ≡ log_of target max_bytes stream }
{}

/// A log has one entry for each line of its stream, in order.
pub fn one_entry_per_line()
    ensures { (max_bytes : ℕ) (given : Source Stream) → IfSome (source_log max_bytes given) (HasOneEntryPerLine given.target given.stream) }
{}

/// In a log nothing follows the closing record.
pub fn closing_record_is_last()
    ensures { (max_bytes : ℕ) (given : Source Stream) → IfSome (source_log max_bytes given) ClosesAtEnd }
{}
