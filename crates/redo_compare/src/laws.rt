//! Laws, which are theorems about the definitions alone: each contract is a theorem, and the bodies are empty.
ghost use Rattle.std.specs.Prelude.{◌≡◌, ◌-◌, ◌≤◌, ℕ, List, [], Option, None, Some};
ghost use Rattle.redo_logs.specs.Logs.{IsTable, Log};
ghost use Rattle.redo_outline.specs.Facts.{entries_at, texts_of};
ghost use Rattle.redo_compare.specs.Changes.{gone_in_target, new_in_target};
ghost use Rattle.redo_compare.specs.Laws.{IsPart, key_count, kind_count};
ghost use Rattle.redo_compare.specs.LogChanges.{are_new, diagnostics_in, earlier_number, gone_in_log, new_in_log};
ghost use Rattle.redo_compare.specs.Occurrences.{OccurrenceValue};
ghost use Rattle.redo_compare.specs.Rounds.{new_since, picked};

/// Of each key, as many diagnostics are new as there are more than before. So neither the order of diagnostics nor code that moves within
/// its file changes this number.
pub fn new_are_counted()
    ensures { (earlier now : List OccurrenceValue) (key : List ℕ) →
        key_count key (new_since earlier now) ≡ key_count key now - key_count key earlier }
{}

/// The new diagnostics are some of the diagnostics now, in order.
pub fn new_are_in_order()
    ensures { (earlier now : List OccurrenceValue) → IsPart (new_since earlier now) now }
{}

/// Nothing is new exactly if no key occurs more often than before.
pub fn when_nothing_is_new()
    ensures none { (earlier now : List OccurrenceValue) → ((key : List ℕ) → key_count key now ≤ key_count key earlier) →
        new_since earlier now ≡ [] }
    ensures only { (earlier now : List OccurrenceValue) → new_since earlier now ≡ [] → (key : List ℕ) →
        key_count key now ≤ key_count key earlier }
{}

/// Nothing is new since the same log.
pub fn same_log_has_nothing_new()
    ensures { (now : List OccurrenceValue) → new_since now now ≡ [] }
{}

/// If there are no more diagnostics with a key and a source line than before, none of them is new.
pub fn known_source_lines_are_not_new()
    ensures { (earlier now : List OccurrenceValue) (key source : List ℕ) → kind_count key source now ≤ kind_count key source earlier →
        kind_count key source (new_since earlier now) ≡ 0 }
{}

/// If the baseline has no log of a target, all its diagnostics now are new. If there is no log of it now, none is gone.
pub fn targets_of_one_build()
    ensures only_now { (now : List OccurrenceValue) → new_in_target None (Some now) ≡ now }
    ensures only_before { (before : Option (List OccurrenceValue)) → gone_in_target before None ≡ [] }
{}

/// The flags of a log pick its new diagnostics, in order.
pub fn flags_pick_new()
    ensures { (earlier logs : List Log) (number : ℕ) →
        picked (are_new earlier logs number) (diagnostics_in logs number) ≡ new_in_log earlier logs number }
{}

/// If the earlier build has no log of the same target, all diagnostics of a log are new, and none is gone.
pub fn log_of_new_target()
    ensures new { (earlier logs : List Log) (number : ℕ) → earlier_number earlier logs number ≡ None →
        new_in_log earlier logs number ≡ diagnostics_in logs number }
    ensures gone { (earlier logs : List Log) (number : ℕ) → earlier_number earlier logs number ≡ None →
        gone_in_log earlier logs number ≡ [] }
{}

/// If the earlier log of the same target has the same text lines, no diagnostic of a log is new, and none is gone.
pub fn log_with_same_lines()
    ensures new { (earlier logs : List Log) (number other : ℕ) → earlier_number earlier logs number ≡ Some other →
        texts_of (entries_at other earlier) ≡ texts_of (entries_at number logs) → new_in_log earlier logs number ≡ [] }
    ensures gone { (earlier logs : List Log) (number other : ℕ) → earlier_number earlier logs number ≡ Some other →
        texts_of (entries_at other earlier) ≡ texts_of (entries_at number logs) → gone_in_log earlier logs number ≡ [] }
{}

/// Nothing is new in a log since the same build, and nothing is gone.
pub fn same_build_has_nothing_new()
    ensures new { (logs : List Log) (number : ℕ) → IsTable logs → new_in_log logs logs number ≡ [] }
    ensures gone { (logs : List Log) (number : ℕ) → IsTable logs → gone_in_log logs logs number ≡ [] }
{}
