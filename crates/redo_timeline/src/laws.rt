//! Laws about the definitions alone: their contracts are theorems, and their bodies are empty.
ghost use Rattle.std.specs.Prelude.{◌≡◌, ℕ, ◌-◌, ◌≤◌, List, ◌∷◌, ◌++◌};
ghost use Rattle.std.specs.List.{count_by, sum};
ghost use Rattle.std.specs.List.Sorted.{IsPermutation};
ghost use Rattle.redo_timeline.specs.declared.span.Span.{Span};
ghost use Rattle.redo_timeline.specs.declared.span.Window.{Window};
ghost use Rattle.redo_timeline.specs.Alone.{alone, time_running, times_alone};
ghost use Rattle.redo_timeline.specs.Laws.{AreInTurn, AreInWindow, AreOrdered, EachBar, IsAloneIfFailed, IsInLanes, IsReached, IsSlimIfJoined, spans_of, times_running};
ghost use Rattle.redo_timeline.specs.Order.{in_order};
ghost use Rattle.redo_timeline.specs.Parallelism.{most_of, runs_at};
ghost use Rattle.redo_timeline.specs.Timeline.{bars_of, timeline_of};

/// Each span is in exactly one bar.
pub fn spans_are_drawn_once()
    ensures { (window : Window) (max_lanes : ℕ) (spans : List Span) → IsPermutation spans (spans_of (bars_of window max_lanes spans)) }
{}

/// Bars are drawn lane by lane. In each lane but the last one that is allowed, no bar begins before the bar before it has ended.
pub fn bars_do_not_overlap()
    ensures { (window : Window) (max_lanes : ℕ) (spans : List Span) → AreInTurn max_lanes ((timeline_of window max_lanes spans).bars) }
{}

/// A span that failed is a bar of its own.
pub fn failed_spans_are_alone()
    ensures { (window : Window) (max_lanes : ℕ) (spans : List Span) → EachBar IsAloneIfFailed (bars_of window max_lanes spans) }
{}

/// A bar of several spans is narrower than 50 units by its times, and none of its spans failed.
pub fn joined_bars_are_narrow()
    ensures { (window : Window) (max_lanes : ℕ) (spans : List Span) → EachBar (IsSlimIfJoined window) (bars_of window max_lanes spans) }
{}

/// If any lane is allowed, no more lanes are taken than are allowed, and each bar is in one of them.
pub fn bars_are_in_lanes()
    ensures { (window : Window) (max_lanes : ℕ) (spans : List Span) → IsInLanes max_lanes (timeline_of window max_lanes spans) }
{}

/// No more lanes are taken than spans run at one time.
pub fn lanes_are_needed()
    ensures { (window : Window) (max_lanes : ℕ) (spans : List Span) → (timeline_of window max_lanes spans).lane_count ≤ most_of spans }
{}

/// Spans take lanes in the order in which they began.
pub fn spans_are_ordered()
    ensures { (spans : List Span) → AreOrdered spans (in_order spans) }
{}

/// No more spans run at any time.
pub fn no_more_spans_run()
    ensures { (spans : List Span) (time : ℕ) → count_by (runs_at time) spans ≤ most_of spans }
{}

/// As many spans run when one of them begins.
pub fn most_spans_run()
    ensures { (spans : List Span) → IsReached spans }
{}

/// The times in a window at which exactly k spans run add up to its width, over all k from 0 to the number of spans.
pub fn times_add_up()
    ensures { (window : Window) (spans : List Span) → sum (times_running window spans) ≡ window.width }
{}

/// The times that the spans run alone add up to the time at which exactly one span runs, in a window with all spans.
pub fn times_alone_add_up()
    ensures { (window : Window) (spans : List Span) → AreInWindow window spans
        → sum (times_alone spans) ≡ time_running spans 1 window.began window.width }
{}

/// A span runs alone for as long as it runs and none of the other spans does.
pub fn no_other_span_runs()
    ensures { (before after : List Span) (span : Span)
        → alone (before ++ span ∷ after) span ≡ time_running (before ++ after) 0 span.began (span.ended - span.began) }
{}

/// A span runs alone for no longer than it runs.
pub fn times_alone_are_bounded()
    ensures { (spans : List Span) (span : Span) → alone spans span ≤ span.ended - span.began }
{}
