//! Laws about the definitions alone: their contracts are theorems, and their bodies are empty.
//!
//! The list of opened logs grows without a test, so that it is a theorem that no log is opened twice. Other laws are about
//! the events, because a definition that shows a log again without recording it would satisfy this theorem. `named_once` says
//! which targets are named, not which bytes are written: a text line may look like a redo line. That logs are nested needs an
//! invariant: with `recursive`, a named target's log was opened, if it has one (`Settled`). Otherwise a mention without a
//! line could open a log.
ghost use Rattle.std.specs.Prelude.{◌≡◌, ℕ, false, List, [], nat_eq};
ghost use Rattle.std.specs.Cmp.Lexicographic.{pointwise};
ghost use Rattle.std.specs.List.{IsDistinct};
ghost use Rattle.redo_line.specs.declared.entry.Entry.{Entry};
ghost use Rattle.redo_line.specs.declared.entry.How.{How};
ghost use Rattle.redo_logs.specs.Logs.{Log, targets_of};
ghost use Rattle.redo_options.specs.declared.options.Options.{Options};
ghost use Rattle.redo_view.specs.Expansion.{ShowLog, is_among, entries_of_target, show_log};
ghost use Rattle.redo_view.specs.Laws.{SatisfiesEquation, IsUniqueSolution, LastEntryIsShownLast, PartsAreShownInOrder, AreOpenedByEvents, IsAppendOnly, TextIsAppendOnly, HasNoDuplicates, OnlyReachable, AllReachable};
ghost use Rattle.redo_view.specs.Laws.{MentionedFirst, MentionedAgain, MentionedUnopened, RequestedFirst, RequestedAgain};
ghost use Rattle.redo_view.specs.Laws.{HaveTheirEntries, NamedFirst, NamedAgain, NamedByEntries, NamedByLog, NamedFinally};
ghost use Rattle.redo_view.specs.LogLines.{LogsShowTheirLines};
ghost use Rattle.redo_view.specs.Nesting.{AreNested};

/// If no two logs have the same target, as in a table, a target's entries are the entries of its log. Without a log
/// it has none.
pub fn entries_match_log()
    ensures with_log { (logs : List Log) → IsDistinct (pointwise nat_eq) (targets_of logs) → HaveTheirEntries logs }
    ensures without_log { (logs : List Log) (target : List ℕ) → is_among target (targets_of logs) ≡ false →
        entries_of_target target logs ≡ [] }
{}

/// Opening a target's log marks the target as named and the log as opened, shows the entries in order, and ends the
/// log. The logs that they mention are opened in the same way, one level deeper. No other function does this.
pub fn show_log_equation()
    ensures holds { (logs : List Log) (options : Options) → SatisfiesEquation logs options (show_log logs options) }
    ensures unique { (logs : List Log) (options : Options) → IsUniqueSolution logs options (show_log logs options) }
{}

/// Entries are shown in order, each once.
pub fn entries_in_order()
    ensures last_entry { (logs : List Log) (options : Options) (show : ShowLog) → LastEntryIsShownLast logs options show }
    ensures concatenation { (logs : List Log) (options : Options) (show : ShowLog) → PartsAreShownInOrder logs options show }
{}

/// The events that a log adds follow all events shown before it, and don't depend on them. The text that it adds
/// doesn't depend on them either.
pub fn text_is_append_only()
    ensures events { (logs : List Log) (options : Options) → IsAppendOnly logs options (show_log logs options) }
    ensures text { (logs : List Log) (options : Options) → TextIsAppendOnly logs options (show_log logs options) }
{}

/// No log is opened twice. Events open the logs, in order, if each requested target has a log. The opened logs are the
/// logs of the requested targets and, with `recursive`, the logs to which a chain of mentions leads from one of these,
/// and no others.
pub fn each_log_once()
    ensures no_duplicates { (logs : List Log) (options : Options) (requested : List (List ℕ)) → HasNoDuplicates logs options requested }
    ensures events { (logs : List Log) (options : Options) (requested : List (List ℕ)) → AreOpenedByEvents logs options requested }
    ensures only_reachable { (logs : List Log) (options : Options) (requested : List (List ℕ)) → OnlyReachable logs options requested }
    ensures all_reachable { (logs : List Log) (options : Options) (requested : List (List ℕ)) → AllReachable logs options requested }
{}

/// A log is shown right after the first line that mentions or requests its target, and no part of it is shown again.
/// A mention shows a log only with `recursive`, and only if there is such a log.
pub fn at_first_mention()
    ensures mentioned { (logs : List Log) (options : Options) (how : How) (name : List ℕ) → MentionedFirst logs options how name }
    ensures mentioned_again { (logs : List Log) (options : Options) (how : How) (name : List ℕ) → MentionedAgain logs options how name }
    // If no log is to be opened, the mention's line comes alone.
    ensures mentioned_unopened { (logs : List Log) (options : Options) (how : How) (name : List ℕ) →
        MentionedUnopened logs options how name }
    ensures requested { (logs : List Log) (options : Options) (requested : List (List ℕ)) → RequestedFirst logs options requested }
    ensures requested_again { (logs : List Log) (options : Options) (requested : List (List ℕ)) → RequestedAgain logs options requested }
{}

/// Without `debug_locks`, a mention shows its line exactly if its target isn't named yet. At any time, the named
/// targets are the targets whose logs were opened and the mentioned targets, and no others. Only the first mention of a
/// target can show a line, and it shows none if the target's log was opened before.
pub fn named_once()
    ensures first { (options : Options) (how : How) (name : List ℕ) → NamedFirst options how name }
    ensures already_named { (options : Options) (how : How) (name : List ℕ) → NamedAgain options how name }
    ensures entries { (logs : List Log) (options : Options) (entries : List Entry) → NamedByEntries logs options entries }
    ensures log { (logs : List Log) (options : Options) (target : List ℕ) → NamedByLog logs options target }
    ensures final_state { (logs : List Log) (options : Options) (requested : List (List ℕ)) → NamedFinally logs options requested }
{}

/// Logs are nested. The depth of each event is the number of open logs, each log that is opened ends, and no other log
/// ends.
pub fn logs_nest()
    ensures { (logs : List Log) (options : Options) (requested : List (List ℕ)) → AreNested logs options requested }
{}

/// Each log that is opened shows its text lines, in order, each once, before it ends, and no others.
pub fn logs_show_their_lines()
    ensures { (logs : List Log) (options : Options) (requested : List (List ℕ)) → LogsShowTheirLines logs options requested }
{}
