//! Laws, which are theorems about the definitions alone: each contract is a theorem, and the bodies are empty or only call other laws.
ghost use Rattle.std.specs.Prelude.{◌≡◌, ℕ, nat_eq, Bool, List, [], ◌∷◌, Some, codes, filter, map, slice_get};
ghost use Rattle.std.specs.List.{flat_map, list_any, starts_with};
ghost use Rattle.redo_line.specs.Lines.{with_line_feed};
ghost use Rattle.redo_logs.specs.Logs.{IsTable, Log};
ghost use Rattle.redo_outline.specs.Facts.{target_at};
ghost use Rattle.redo_outline.specs.declared.node.Node.{Node};
ghost use Rattle.redo_compare.specs.Baseline.{BaselineValue};
ghost use Rattle.redo_compare.specs.LogChanges.{new_in_log};
ghost use Rattle.redo_new.specs.Laws.{EndAsBefore, beginning_with, has_news, line_of};
ghost use Rattle.redo_new.specs.News.{failing_line, fixed_line, is_fixed, new_line, new_lines, newly_fails, news_of};

use redo_compare::{flags_pick_new, same_build_has_nothing_new};

/// Each new diagnostic of a log has exactly one line, which is its own, and the lines are in order.
pub fn each_new_diagnostic_has_its_line()
    ensures { (earlier logs : List Log) (number : ℕ) →
        new_lines earlier logs number ≡ map (line_of logs number) (new_in_log earlier logs number) }
{
    flags_pick_new();
}

/// A line's beginning says of which kind it is. So the lines that begin with `newly failing: ` name exactly the targets that newly fail,
/// and likewise for new diagnostics and fixed targets.
pub fn lines_are_told_apart()
    ensures failing { (baseline : BaselineValue) (logs : List Log) (nodes : List Node) →
        beginning_with (codes "newly failing: ") (news_of baseline logs nodes)
        ≡ map (λ (node : Node). failing_line (target_at logs node.number) node.status) (filter (newly_fails baseline logs) nodes) }
    ensures new { (baseline : BaselineValue) (logs : List Log) (nodes : List Node) →
        beginning_with (codes "new: ") (news_of baseline logs nodes)
        ≡ flat_map (λ (node : Node). map (new_line (target_at logs node.number)) (new_lines baseline.logs logs node.number)) nodes }
    ensures fixed { (baseline : BaselineValue) (logs : List Log) (nodes : List Node) →
        beginning_with (codes "fixed: ") (news_of baseline logs nodes)
        ≡ map (λ (node : Node). fixed_line (target_at logs node.number)) (filter (is_fixed baseline logs) nodes) }
{}

/// A text begins with `new` exactly if a target newly fails or has a new diagnostic. Its first byte says the same.
pub fn text_begins_with_new()
    ensures word { (baseline : BaselineValue) (logs : List Log) (nodes : List Node) →
        starts_with nat_eq (flat_map with_line_feed (news_of baseline logs nodes)) (codes "new") ≡ list_any (has_news baseline logs) nodes }
    ensures byte { (baseline : BaselineValue) (logs : List Log) (nodes : List Node) →
        starts_with nat_eq (flat_map with_line_feed (news_of baseline logs nodes)) (codes "n") ≡ list_any (has_news baseline logs) nodes }
{
    each_new_diagnostic_has_its_line();
}

/// Nothing is new since the same build, if each target ended in it as it does now.
pub fn same_build_has_no_news()
    ensures { (baseline : BaselineValue) (logs : List Log) (nodes : List Node) → IsTable logs → baseline.logs ≡ logs →
        EndAsBefore baseline logs nodes → news_of baseline logs nodes ≡ [] }
{
    each_new_diagnostic_has_its_line();
    same_build_has_nothing_new();
}
