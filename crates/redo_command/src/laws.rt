//! Laws about the definitions alone: their contracts are theorems, and their bodies are empty.
ghost use Rattle.std.specs.Prelude.{◌≡◌, ◌≤◌, ℕ, List, Option, Some, Result, Err, length};
ghost use Rattle.std.specs.List.{All, Contains};
ghost use Rattle.redo_device.specs.Feed.{Stream};
ghost use Rattle.redo_device.specs.Sink.{Output};
ghost use Rattle.redo_index.specs.declared.index_entry.IndexEntry.{IndexEntry};
ghost use Rattle.redo_logs.specs.Logs.{Log};
ghost use Rattle.redo_command.specs.declared.baseline_fault.BaselineFault.{BaselineFault};
ghost use Rattle.redo_command.specs.Explanation.{EndsWith, suggestions};
ghost use Rattle.redo_command.specs.Laws.{FailsByBaseline, HasTextAndWroteNothing};

/// Each target that is suggested for a name is listed, and ends with the name. At most five are suggested.
pub fn suggestions_are_listed_targets()
    ensures listed { (name : List ℕ) (targets : List (List ℕ)) → All (Contains targets) (suggestions name targets) }
    ensures ending { (name : List ℕ) (targets : List (List ℕ)) → All (EndsWith name) (suggestions name targets) }
    ensures count { (name : List ℕ) (targets : List (List ℕ)) → length (suggestions name targets) ≤ 5 }
{}

/// A job fails by a fault of its baseline only if the baseline has this fault, and its own logs have a text: any fault of these would be
/// the failure instead. Then nothing was written.
pub fn baseline_fails_last()
    ensures fault { (baseline : Option (Result (List Log) BaselineFault)) (known : ℕ → Option Stream) (index : List IndexEntry)
        (arguments : List (List ℕ)) (before after : Option Output) (fault : BaselineFault) →
        FailsByBaseline baseline known index arguments before after fault → baseline ≡ Some (Err fault) }
    ensures own { (baseline : Option (Result (List Log) BaselineFault)) (known : ℕ → Option Stream) (index : List IndexEntry)
        (arguments : List (List ℕ)) (before after : Option Output) (fault : BaselineFault) →
        FailsByBaseline baseline known index arguments before after fault →
        HasTextAndWroteNothing known index arguments before after }
{}
