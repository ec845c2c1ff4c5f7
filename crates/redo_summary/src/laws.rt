//! Laws about the definitions alone: their contracts are theorems, and their bodies are empty.
ghost use Rattle.std.specs.Prelude.{◌≡◌, ℕ, List, length, map, None, Some};
ghost use Rattle.std.specs.List.{AllByRecursion};
ghost use Rattle.redo_facts.specs.Facts.{RecipeFacts};
ghost use Rattle.redo_outline.specs.declared.node.Node.{Node};
ghost use Rattle.redo_times.specs.declared.times.Times.{Times};
ghost use Rattle.redo_summary.specs.Laws.{AreInOrderOfPosition, AreOfNodes, AreRanksBelow, AreSplit, AreTotals, HasDuration, HasFirstTen, HasMemory, HasTimeAlone, HasWarnings, IsKnown, IsMarkOf, IsOfTarget, IsOverTimes, IsProcessorTime, IsSpanOf, IsTable, RanNone, RanOthers, warning_ranks};
ghost use Rattle.redo_summary.specs.Ranks.{alone_ranks, rank_of};
ghost use Rattle.redo_summary.specs.Summary.{summary_of};
ghost use Rattle.redo_summary.specs.Usage.{known_usages, memory_ranks, usage_of};
ghost use Rattle.redo_timeline.specs.declared.span.Span.{Span};
ghost use Rattle.redo_timeline.specs.declared.span.Window.{Window};

/// Each position is the position of a node.
pub fn positions_are_of_nodes()
    ensures times { (nodes : List Node) (times : List Times) → AreOfNodes nodes (summary_of nodes times) }
    ensures memory { (nodes : List Node) (facts : List RecipeFacts) (recipes : List Span) →
        AreRanksBelow (length nodes) (usage_of nodes facts recipes).memory }
{}

/// Callers, recipes and marks are in order of position. No position occurs twice in one of these lists.
pub fn spans_are_in_order_of_position()
    ensures { (nodes : List Node) (times : List Times) → AreInOrderOfPosition (summary_of nodes times) }
{}

/// The span of each shown target whose times are known is in exactly one of the lists of callers and recipes.
pub fn spans_are_callers_or_recipes()
    ensures { (nodes : List Node) (times : List Times) → AreSplit nodes times (summary_of nodes times) }
{}

/// Each caller and each recipe has both times of the target at its position, and each mark has one of them. They say whether this target
/// failed.
pub fn spans_are_of_targets()
    ensures callers { (nodes : List Node) (times : List Times) →
        AllByRecursion (IsOfTarget IsSpanOf nodes times) (summary_of nodes times).callers }
    ensures recipes { (nodes : List Node) (times : List Times) →
        AllByRecursion (IsOfTarget IsSpanOf nodes times) (summary_of nodes times).recipes }
    ensures marks { (nodes : List Node) (times : List Times) →
        AllByRecursion (IsOfTarget IsMarkOf nodes times) (summary_of nodes times).marks }
{}

/// The totals are over all recipes, and over all shown targets. The processor time is the sum of the user and system times of the recipes
/// whose usage is known, and there is none if no usage is known. Sums are at most 2^64 - 1.
pub fn totals_are_over_all()
    ensures times { (nodes : List Node) (times : List Times) → AreTotals nodes (summary_of nodes times) }
    ensures processor { (nodes : List Node) (facts : List RecipeFacts) (recipes : List Span) →
        IsProcessorTime (known_usages nodes facts recipes) (usage_of nodes facts recipes).processor }
{}

/// The window runs from the first known time of a shown target to the last one, and is at least one millisecond wide. There is none only if
/// no time is known.
pub fn window_is_over_known_times()
    ensures window { (nodes : List Node) (times : List Times) (window : Window) →
        (summary_of nodes times).window ≡ Some window →
        IsOverTimes nodes times (summary_of nodes times).took window }
    ensures none { (nodes : List Node) (times : List Times) (time : ℕ) → (summary_of nodes times).window ≡ None →
        IsKnown nodes times time → ⊥ }
{}

/// The target of each caller ran others, and the target of each recipe ran none, as its times say.
pub fn callers_ran_others()
    ensures callers { (nodes : List Node) (times : List Times) →
        AllByRecursion (IsOfTarget RanOthers nodes times) (summary_of nodes times).callers }
    ensures recipes { (nodes : List Node) (times : List Times) →
        AllByRecursion (IsOfTarget RanNone nodes times) (summary_of nodes times).recipes }
{}

/// A table has at most ten ranks. Their values fall, and ranks with equal values are in order of position.
pub fn ranks_are_in_order()
    ensures longest { (nodes : List Node) (times : List Times) → IsTable (summary_of nodes times).longest }
    ensures alone { (nodes : List Node) (times : List Times) → IsTable (summary_of nodes times).alone }
    ensures warned { (nodes : List Node) (times : List Times) → IsTable (summary_of nodes times).warned }
    ensures memory { (nodes : List Node) (facts : List RecipeFacts) (recipes : List Span) →
        IsTable (usage_of nodes facts recipes).memory }
{}

/// The tables have the ten recipes that took longest, those that ran alone for the longest time, the ten targets with the most warnings,
/// and the ten recipes with the most memory. If there are fewer than ten, a table has all of them. A value of 0 is only in the first one.
pub fn tables_have_first_ranks()
    ensures longest { (nodes : List Node) (times : List Times) →
        HasFirstTen (map rank_of (summary_of nodes times).recipes) (summary_of nodes times).longest }
    ensures alone { (nodes : List Node) (times : List Times) →
        HasFirstTen (alone_ranks (summary_of nodes times).recipes) (summary_of nodes times).alone }
    ensures warned { (nodes : List Node) (times : List Times) →
        HasFirstTen (warning_ranks nodes) (summary_of nodes times).warned }
    ensures memory { (nodes : List Node) (facts : List RecipeFacts) (recipes : List Span) →
        HasFirstTen (memory_ranks nodes facts recipes) (usage_of nodes facts recipes).memory }
{}

/// The value of each rank is one of the target at its position: how long it took, how long it ran alone, its number of warnings, or how
/// much memory its recipe had.
pub fn ranks_have_values_of_targets()
    ensures longest { (nodes : List Node) (times : List Times) →
        AllByRecursion (HasDuration nodes times) (summary_of nodes times).longest }
    ensures alone { (nodes : List Node) (times : List Times) →
        AllByRecursion (HasTimeAlone (summary_of nodes times).recipes) (summary_of nodes times).alone }
    ensures warned { (nodes : List Node) (times : List Times) →
        AllByRecursion (HasWarnings nodes) (summary_of nodes times).warned }
    ensures memory { (nodes : List Node) (facts : List RecipeFacts) (recipes : List Span) →
        AllByRecursion (HasMemory nodes facts) (usage_of nodes facts recipes).memory }
{}
