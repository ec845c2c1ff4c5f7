//! Laws about the definitions alone: their contracts are theorems, and their bodies are empty.
//!
//! The tree of the shown events is defined twice: as the tree of the trimmed events, and as the trimmed tree (`trim`). A
//! law says that both are the same, so all that is proved of trees holds for the shown events.
ghost use Rattle.std.specs.Prelude.{◌≡◌, ◌≤◌, ◌+◌, ◌-◌, ◌++◌, ◌∷◌, [], ℕ, List};
ghost use Rattle.redo_view.specs.Event.{Event};
ghost use Rattle.redo_view.specs.Form.{bytes_of, state_after, text_events};
ghost use Rattle.redo_outline.specs.Contents.{Contents};
ghost use Rattle.redo_outline.specs.Facts.{text_size};
ghost use Rattle.redo_trim.specs.declared.limit.Gauge.{Gauge};
ghost use Rattle.redo_trim.specs.declared.limit.Limit.{Limit};
ghost use Rattle.redo_trim.specs.declared.trimmed.Trimmed.{Trimmed};
ghost use Rattle.redo_trim.specs.Laws.{AreNoLimits, FitsInto64Bits, IsInNoLog, KeepsLogs, StayInTree, TreeIsTrimmed};
ghost use Rattle.redo_trim.specs.Laws.{head_and_tail, head_lines, left_out, lines_in, marked_lines, other_events, tail_lines};
ghost use Rattle.redo_trim.specs.Trim.{gauge_of, limit_of, marker, trim, trimmed};
ghost use Rattle.redo_trim.specs.TrimmedForm.{form_after, form_bytes};

use redo_view::Form;

/// If events make a tree, so do the events that are shown of them, and it is the tree of all events, trimmed. It has the same logs.
pub fn trimmed_events_are_in_tree()
    ensures in_tree { (limits : List Limit) (events : List Event) → StayInTree limits events }
    ensures tree { (limits : List Limit) (events : List Event) → TreeIsTrimmed limits events }
    ensures logs { (limits : List Limit) (contents : Contents) → KeepsLogs limits contents }
{}

/// Everything that is no text line is shown, unchanged and in order.
pub fn only_text_is_left_out()
    ensures { (limits : List Limit) (gauges : List Gauge) (events : List Event) →
        other_events (trimmed limits gauges events) ≡ other_events events }
{}

/// No log has the marker, because no line is read as a note of an empty kind.
pub fn no_log_has_markers()
    ensures { (depth : ℕ) → IsInNoLog (marker depth) }
{}

/// Without limits nothing is left out: a limit whose tail begins at once is none.
pub fn unlimited_logs_are_whole()
    ensures { (limits : List Limit) (events : List Event) → AreNoLimits limits → trimmed limits [] events ≡ events }
{}

/// Only lines in the middle of a log are left out: its head and its tail are kept, unchanged and in order. One marker is shown between
/// them, if any line is left out. At most as many bytes are kept as the head may have, and as there are at the limit's `tail` and after
/// it. The two numbers of the limit must fit into 64 bits.
pub fn head_and_tail_are_kept()
    ensures parts { (limit : Limit) (lines : List (List ℕ)) →
        lines ≡ head_lines limit.head lines ++ (left_out limit lines ++ tail_lines limit lines) }
    ensures shown { (limits : List Limit) (number : ℕ) (lines : List (List ℕ)) (depth : ℕ) (outer : List Gauge) →
        FitsInto64Bits (limit_of limits number) →
        trimmed limits (gauge_of limits number ∷ outer) (text_events depth lines) ≡ marked_lines depth (limit_of limits number) lines }
    ensures kept { (limits : List Limit) (number : ℕ) (contents : Contents) (outer : List Gauge) → FitsInto64Bits (limit_of limits number) →
        lines_in (trim limits (gauge_of limits number ∷ outer) contents) ≡ head_and_tail (limit_of limits number) (lines_in contents) }
    ensures bounded { (limit : Limit) (lines : List (List ℕ)) →
        text_size (head_and_tail limit lines) ≤ limit.head + (text_size lines - limit.tail) }
{}

/// For events, the adapter writes the bytes that its form writes for the events that are left. Its form has the state after
/// these events.
pub fn trimmed_form_writes<F: Form>()
    ensures bytes { (form : Trimmed F) (events : List Event) →
        bytes_of (form_bytes F.bytes F.after) (form_after F.after) form events
        ≡ bytes_of F.bytes F.after form.form (trimmed form.limits.now form.gauges events) }
    ensures state { (form : Trimmed F) (events : List Event) →
        (state_after (form_after F.after) form events).form ≡ state_after F.after form.form (trimmed form.limits.now form.gauges events) }
{}
