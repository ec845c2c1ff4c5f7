//! Laws, which are theorems about the definitions alone: each contract is a theorem, and the bodies are empty.
//!
//! `SaysOf` states what a bar says of its spans: the target to which it leads, its beginning, width, colour, tooltip and label. The law
//! about a group (`DrawsAll`) states that there are bars that say so of all its spans. It doesn't depend on the layout, which decides which
//! spans share a bar.
ghost use Rattle.std.specs.Prelude.{◌≡◌, ◌++◌, ◌∷◌, ℕ, true, nat_lt, List, []};
ghost use Rattle.std.specs.List.{AllByRecursion, list_all};
ghost use Rattle.redo_html.specs.declared.chart.GroupKind.TheVariants.{Axis, Callers, Recipes, Untimed};
ghost use Rattle.redo_html.specs.Chart.{drawing_links};
ghost use Rattle.redo_logs.specs.Logs.{Log};
ghost use Rattle.redo_outline.specs.declared.node.Node.{Node};
ghost use Rattle.redo_timeline.specs.declared.span.Span.{Span};
ghost use Rattle.redo_timeline.specs.declared.span.Window.{Window};
ghost use Rattle.redo_chart.specs.Laws.{AreRows, DrawsAll, IsNoBar, are_below, chart_bars, chart_lanes, kinds_of, rows_of, shapes_of};
ghost use Rattle.redo_chart.specs.Timeline.{timeline_drawing};

/// The bars lead to shown targets only: if the positions of all spans are below a number, those to which the bars lead are, too.
pub fn bars_lead_to_positions()
    ensures { (logs : List Log) (nodes : List Node) (window : Window) (callers recipes marks : List Span) (count : ℕ) →
        are_below count (callers ++ (recipes ++ marks)) ≡ true
        → list_all (λ link. nat_lt link count) (drawing_links (timeline_drawing logs nodes window callers recipes marks)) ≡ true }
{}

/// Each span is in exactly one bar, and the bar says where it is: it leads to the target of its first span, begins when this one began,
/// is as wide as the time until its last span ended, but at least 0.1 %, and includes the times of all its spans. Its tooltip says this in
/// words. It is red exactly if a span failed, and then at least 0.3 % wide. Its label, if it has one, is the last part of the name of this
/// target; it has one if it is wide and high enough. Several spans have one bar only if none of them failed, and if they take less than
/// 0.5 % of the chart together.
pub fn bars_say_when_targets_ran()
    ensures callers { (logs : List Log) (nodes : List Node) (window : Window) (callers recipes marks : List Span) →
        DrawsAll logs nodes window Callers callers
        (shapes_of Callers (timeline_drawing logs nodes window callers recipes marks)) }
    ensures recipes { (logs : List Log) (nodes : List Node) (window : Window) (callers recipes marks : List Span) →
        DrawsAll logs nodes window Recipes recipes
        (shapes_of Recipes (timeline_drawing logs nodes window callers recipes marks)) }
    ensures marks { (logs : List Log) (nodes : List Node) (window : Window) (callers recipes marks : List Span) →
        DrawsAll logs nodes window Untimed marks
        (shapes_of Untimed (timeline_drawing logs nodes window callers recipes marks)) }
{}

/// A chart has four layers: its axis, the callers, the recipes, and the marks. The axis has no bars.
pub fn axis_has_no_bars()
    ensures layers { (logs : List Log) (nodes : List Node) (window : Window) (callers recipes marks : List Span) →
        kinds_of (timeline_drawing logs nodes window callers recipes marks) ≡ Axis ∷ Callers ∷ Recipes ∷ Untimed ∷ [] }
    ensures axis { (logs : List Log) (nodes : List Node) (window : Window) (callers recipes marks : List Span) →
        AllByRecursion IsNoBar (shapes_of Axis (timeline_drawing logs nodes window callers recipes marks)) }
{}

/// Each lane has a row of the chart for itself. All its bars begin at the top of the row and end at its bottom, so no bar is over one of
/// another lane. From the top, these are the rows of the callers, of the recipes, and of the marks, below each other. All are between the
/// ticks of the axis and the end of the chart.
pub fn bars_are_in_rows()
    ensures { (logs : List Log) (nodes : List Node) (window : Window) (callers recipes marks : List Span) →
        let drawing = timeline_drawing logs nodes window callers recipes marks in
        AreRows 15 drawing.height (rows_of (chart_lanes window callers recipes marks) (chart_bars drawing)) }
{}
