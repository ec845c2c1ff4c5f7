//! Laws about the definitions alone: their contracts are theorems, and their bodies are empty.
ghost use Rattle.std.specs.Prelude.{◌≡◌, ℕ, List};
ghost use Rattle.std.specs.List.{AllByRecursion};
ghost use Rattle.redo_logs.specs.Logs.{Log};
ghost use Rattle.redo_options.specs.declared.options.Options.{Options};
ghost use Rattle.redo_outline.specs.Contents.{Contents, contents_of};
ghost use Rattle.redo_outline.specs.Laws.{AllCountChildren, AllSumUp, AreInContents, CountsLog, HaveTree, IsTreeOf};
ghost use Rattle.redo_outline.specs.Outline.{outline_of};
ghost use Rattle.redo_view.specs.Event.{Event};

use redo_view::logs_nest;

/// The tree has exactly the events that are shown, in order, if each requested target has a log.
pub fn events_are_in_contents()
    ensures { (logs : List Log) (options : Options) (requested : List (List ℕ)) → AreInContents logs options requested }
{
    logs_nest();
}

/// Shown events have a tree, if each requested target has a log. Any events have at most this one.
pub fn tree_is_unique()
    ensures exists { (logs : List Log) (options : Options) (requested : List (List ℕ)) → HaveTree logs options requested }
    ensures only { (events : List Event) (contents : Contents) → IsTreeOf events contents → contents ≡ contents_of events }
{
    events_are_in_contents();
}

/// Each node says how many logs are below it, whether a target failed there, and how many warnings are there. If a target failed there,
/// then one failed that has no failure below it.
pub fn nodes_sum_up_logs_below()
    ensures { (logs : List Log) (events : List Event) → AllSumUp (outline_of logs events) }
{}

/// The numbers of lines, bytes and warnings of a node are sums over all entries of the log that has its number.
pub fn nodes_count_logs()
    ensures { (logs : List Log) (events : List Event) → AllByRecursion (CountsLog logs) (outline_of logs events) }
{}

/// A node has as many children as there are nodes that have it as their parent. They follow it.
pub fn nodes_count_children()
    ensures { (logs : List Log) (events : List Event) → AllCountChildren 0 (outline_of logs events) }
{}
