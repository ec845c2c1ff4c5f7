//! Laws, which are theorems about the definitions alone: each contract is a theorem, and the bodies are empty.
ghost use Rattle.std.specs.Prelude.{◌≡◌, ◌≢◌, true, ℕ, Bool, List, [], None, Some, IsUtf8, filter_map, length, map, min, nat_eq, option_map, slice_get};
ghost use Rattle.std.specs.Cmp.Lexicographic.{pointwise};
ghost use Rattle.std.specs.List.{AllByRecursion, IsDistinct};
ghost use Rattle.base64.specs.GeneralPurpose.{IsBytes};
ghost use Rattle.json.specs.Print.{print, quoted};
ghost use Rattle.json.specs.Tree.{json_tokens};
ghost use Rattle.redo_compare.specs.LogChanges.{are_new, new_in_log};
ghost use Rattle.redo_diagnostics.specs.Counts.{numbered_keys, times_of};
ghost use Rattle.redo_diagnostics.specs.Diagnostic.{diagnostic_of};
ghost use Rattle.redo_line.specs.declared.entry.Entry.{Entry};
ghost use Rattle.redo_logs.specs.Logs.{Log, targets_of};
ghost use Rattle.redo_outline.specs.Facts.{entries_at, texts_of};
ghost use Rattle.redo_view.specs.Expansion.{is_among};
ghost use Rattle.redo_view.specs.Laws.{opened_for};
ghost use Rattle.redo_view.specs.View.{find_unknown};
ghost use Rattle.redo_json.specs.Build.{Request, build_events, build_json, build_values, mentions_in, needs_of, options_of};
ghost use Rattle.redo_json.specs.Diagnostics.{LogDiagnostic, diagnostics_of, flagged};
ghost use Rattle.redo_json.specs.Every.{every_target};
ghost use Rattle.redo_json.specs.Laws.{AllFollowing, AreReadBack, HasExactInputs, HasExactNumbers, HasLastParent, IsNeededByParent, IsOfLine, IsOfLog, IsReadBack, IsRequestedIfAlone, flagged_by_line, found_values, ids_in, keys_in, targets_in, unflagged};
ghost use Rattle.redo_json.specs.Object.{LogValues, object_of};
ghost use Rattle.redo_json.specs.Text.{base64_of, bytes_from, exact_of, text_of};

use redo_outline::events_are_in_contents;

/// The text of any bytes determines them, together with the exact bytes in Base64 if these are written.
pub fn bytes_are_recovered()
    ensures { (bytes : List ℕ) → IsBytes bytes → bytes_from (text_of bytes) (exact_of bytes) ≡ Some bytes }
{}

/// The strings of any bytes are valid UTF-8.
pub fn strings_are_utf8()
    ensures text { (bytes : List ℕ) → IsUtf8 (quoted (text_of bytes)) }
    ensures base64 { (bytes : List ℕ) → IsUtf8 (quoted (base64_of bytes)) }
{}

/// The object of a log is valid UTF-8, for all values, and so is the JSON of a build.
pub fn json_is_utf8()
    ensures object { (values : LogValues) → IsUtf8 (print (json_tokens (object_of values))) }
    ensures build { (request : Request) (logs : List Log) (requested : List (List ℕ)) → IsUtf8 (build_json request logs requested) }
{}

/// A reader of JSON reads the object of a log as what it is, if its numbers are below 2^53. The JSON of a build, split at line feeds, is
/// the objects of the logs that are opened. So no object has a line feed.
pub fn objects_are_read()
    ensures object { (values : LogValues) → HasExactNumbers values → IsReadBack (object_of values) }
    ensures build { (request : Request) (logs : List Log) (requested : List (List ℕ)) →
        AllByRecursion HasExactNumbers (build_values request logs requested) →
        AreReadBack (build_json request logs requested) (build_values request logs requested) }
{}

/// The numbers of a build's objects are below 2^53 if its times are in their range, its facts and the statuses in its logs have as many
/// digits as lines and records may have, no log has more than 2^53 entries, and no log of the baseline has that many.
pub fn numbers_are_exact()
    ensures { (request : Request) (logs : List Log) (requested : List (List ℕ)) → HasExactInputs request logs →
        AllByRecursion HasExactNumbers (build_values request logs requested) }
{}

/// There is an object for each log that is opened for the requested targets, in this order, if each of these targets has a log. No two
/// objects have the same target. Each target that has a log has an object if all targets are requested
/// ([`every_target`](crate::every_target)).
pub fn each_log_has_one_object()
    ensures opened { (request : Request) (logs : List Log) (requested : List (List ℕ)) → find_unknown logs requested ≡ None →
        targets_in (build_values request logs requested) ≡ opened_for logs (options_of request) requested }
    ensures once { (request : Request) (logs : List Log) (requested : List (List ℕ)) → find_unknown logs requested ≡ None →
        IsDistinct (pointwise nat_eq) (targets_in (build_values request logs requested)) }
    ensures every { (request : Request) (logs : List Log) (requested : List (List ℕ)) (target : List ℕ) →
        find_unknown logs requested ≡ None → is_among target (targets_of logs) ≡ true →
        is_among target (targets_in (build_values request logs (every_target logs requested))) ≡ true }
{
    events_are_in_contents();
    redo_view::each_log_once();
}

/// Each object has the values of one log: what this log says of its target, what is known of this target, and what changed in it since the
/// baseline's log of the same target.
pub fn objects_are_of_logs()
    ensures { (request : Request) (logs : List Log) (requested : List (List ℕ)) →
        AllByRecursion (IsOfLog request logs (build_events request logs requested)) (build_values request logs requested) }
{}

/// The parent of an object is the last one of the objects before it whose log mentions its target; there is none if no log of these does.
/// So the object of the parent precedes it, and needs its target. The target of an object without a parent is a requested one.
pub fn parents_mention_their_targets()
    ensures last { (request : Request) (logs : List Log) (requested : List (List ℕ)) →
        AllFollowing (HasLastParent request logs) [] (build_values request logs requested) }
    ensures needed { (request : Request) (logs : List Log) (requested : List (List ℕ)) →
        AllFollowing IsNeededByParent [] (build_values request logs requested) }
    ensures requested { (request : Request) (logs : List Log) (requested : List (List ℕ)) →
        AllByRecursion (IsRequestedIfAlone requested) (build_values request logs requested) }
{
    redo_view::entries_match_log();
    redo_view::named_once();
    redo_view::show_log_equation();
}

/// A log needs another target once if its entries mention this target, and otherwise not. It never needs its own target.
pub fn needs_are_mentioned()
    ensures others { (target : List ℕ) (entries : List Entry) (name : List ℕ) → name ≢ target →
        times_of name (needs_of target entries) ≡ min (times_of name (mentions_in entries)) 1 }
    ensures own { (target : List ℕ) (entries : List Entry) → times_of target (needs_of target entries) ≡ 0 }
{}

/// An object has the diagnostics of all lines, in order, each with the position of a line that is it. The law `ids_are_distinct` of
/// `redo_diagnostics` is about their keys and numbers.
pub fn diagnostics_are_of_lines()
    ensures all { (lines : List (List ℕ)) → found_values (diagnostics_of lines) ≡ filter_map diagnostic_of lines }
    ensures positions { (lines : List (List ℕ)) → AllByRecursion (IsOfLine lines) (diagnostics_of lines) }
    ensures ids { (lines : List (List ℕ)) → ids_in (diagnostics_of lines) ≡ numbered_keys (keys_in (diagnostics_of lines)) }
{}

/// A log has a flag for each diagnostic. A diagnostic is new exactly if one of the diagnostics that are new in this log is in its line.
pub fn new_are_in_new_lines()
    ensures flags { (earlier logs : List Log) (number : ℕ) →
        length (are_new earlier logs number) ≡ length (diagnostics_of (texts_of (entries_at number logs))) }
    ensures each { (flags : List Bool) (diagnostics : List LogDiagnostic) (position : ℕ) →
        slice_get (flagged (Some flags) diagnostics) position
        ≡ option_map (λ one. (one, slice_get flags position)) (slice_get diagnostics position) }
    ensures lines { (earlier logs : List Log) (number : ℕ) →
        flagged (Some (are_new earlier logs number)) (diagnostics_of (texts_of (entries_at number logs)))
        ≡ map (flagged_by_line (new_in_log earlier logs number)) (diagnostics_of (texts_of (entries_at number logs))) }
{}

/// Without a baseline, no object says what changed, or which diagnostics are new.
pub fn nothing_is_compared_without_baseline()
    ensures changes { (request : Request) (logs : List Log) (requested : List (List ℕ)) → request.baseline ≡ None →
        AllByRecursion (λ (values : LogValues). values.changes ≡ None) (build_values request logs requested) }
    ensures diagnostics { (diagnostics : List LogDiagnostic) → flagged None diagnostics ≡ map unflagged diagnostics }
{}
