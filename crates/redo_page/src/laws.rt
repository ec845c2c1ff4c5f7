//! Laws about the definitions alone: their contracts are theorems, and their bodies are empty or cite laws of other crates.
ghost use Rattle.std.specs.Prelude.{is_some, ◌==◌, ◌≡◌, ℕ, true, [], ◌∷◌, ◌++◌, List, None, Some, length, map, nat_eq, ◌<◌, ◌≤◌, false, ◌^◌};
ghost use Rattle.std.specs.List.{All, AllByRecursion, AllPairs, IsDistinct, flat_map, list_all, list_any, range_with_len, slice_get};
ghost use Rattle.std.specs.List.Sorted.{IsPermutation};
ghost use Rattle.redo_compare.specs.Baseline.{BaselineValue};
ghost use Rattle.redo_html.specs.Html.{nests_in, read, tags_of, text_of};
ghost use Rattle.redo_html.specs.declared.markup.Markup.{Markup};
ghost use Rattle.redo_html.specs.declared.markup.Markup.TheVariants.{DescriptionList, Title1};
ghost use Rattle.redo_html.specs.declared.text_kind.TextKind.TheVariants.{Monochrome};
ghost use Rattle.redo_html.specs.Laws.{is_byte};
ghost use Rattle.redo_html.specs.Parts.{Part, part_text, part_tokens};
ghost use Rattle.redo_html.specs.Parts.Part.{MarkupPart};
ghost use Rattle.redo_html.specs.Shown.{shown_text};
ghost use Rattle.redo_line.specs.Lines.{with_line_feed};
ghost use Rattle.redo_logs.specs.Logs.{Log};
ghost use Rattle.redo_options.specs.declared.options.Options.{Options};
ghost use Rattle.redo_view.specs.View.{find_unknown};
ghost use Rattle.redo_outline.specs.declared.node.Node.{Node};
ghost use Rattle.redo_page.specs.Laws.{AreBeginnings, AreNewLines, HasNewSection, ListsNews, news_shown, IsListedBefore, ContainRoots, ListsFailures, ShowsRecipe, HasSameShape, IsArticle, IsLog, IsOfTarget, IsOwnTag, IsRead, IsTree, IsRed, AreCountable, budget_of_tree, TellsItsTarget, article_id, article_link, event_lines, is_moved_at, kept_lines, kept_within, lines_at, log_text, markup_of, page_lines, positioned_bytes, section_id, section_link, target_id, target_link, texts_of, unmoved_lines, part_chart, ChartsDraw, HasTimeline, end_shown, heading_shown, heading_tag, requested_shown, summary_shown, took_shown, page_limit, page_processor, page_targets, says_failed, title_in};
ghost use Rattle.redo_page.specs.Command.{command};
ghost use Rattle.redo_page.specs.Failed.{is_dependent_failure};
ghost use Rattle.redo_page.specs.Limits.{bytes_shown, highest_cap};
ghost use Rattle.redo_page.specs.NewSection.{new_lines};
ghost use Rattle.redo_page.specs.Page.{Request, page_events, page_html, page_outline, page_parts};
ghost use Rattle.redo_page.specs.Article.{printed_by};
ghost use Rattle.redo_page.specs.Recipe.{recipe_at};
ghost use Rattle.redo_page.specs.Tree.{articles, root_failures, has_failed, node_at, positions_where, is_among};
ghost use Rattle.redo_html.specs.declared.chart.GroupKind.TheVariants.{Callers, Recipes, Untimed};
ghost use Rattle.redo_trim.specs.Laws.{head_and_tail};
ghost use Rattle.redo_summary.specs.Spans.{callers_of, marks_of, recipes_of, spans_of};
ghost use Rattle.redo_summary.specs.Laws.{IsOverTimes};
ghost use Rattle.redo_summary.specs.Window.{known_times, time_over};
ghost use Rattle.redo_timeline.specs.declared.span.Window.{Window};

use redo_chart::{bars_lead_to_positions, bars_say_when_targets_ran};
use redo_html::{
    charts_have_no_text_in_tags, only_markup_decides_nesting, parts_are_read,
    parts_show_their_text, passages_are_read_as_shown, printable_names_are_unchanged,
};
use redo_outline::{events_are_in_contents, nodes_sum_up_logs_below};
use redo_summary::{
    positions_are_of_nodes, ranks_have_values_of_targets, spans_are_callers_or_recipes,
    window_is_over_known_times,
};
use redo_trim::{head_and_tail_are_kept, trimmed_events_are_in_tree, unlimited_logs_are_whole};
use redo_view::{each_log_once, logs_show_their_lines};

/// A browser reads a page as its parts: each tag as itself, and everything else as text, in order.
pub fn page_is_read()
    ensures parts { (request : Request) (logs : List Log) (requested : List (List ℕ)) →
        read (page_html request logs requested) ≡ flat_map part_tokens (page_parts request logs requested) }
    ensures text { (request : Request) (logs : List Log) (requested : List (List ℕ)) →
        text_of (read (page_html request logs requested)) ≡ flat_map part_text (page_parts request logs requested) }
{
    parts_are_read();
    parts_show_their_text();
}

/// On a page, each element ends in the element around it: each end tag ends the element that was begun last, and none is left open.
pub fn tags_nest()
    ensures { (request : Request) (logs : List Log) (requested : List (List ℕ)) →
        nests_in [] (tags_of (read (page_html request logs requested))) ≡ true }
{
    page_is_read();
    only_markup_decides_nesting();
}

/// Each target that is opened, and each article, has an id of its own, and each link leads to an id. The links in an article lead to the
/// log of its target. There is one link to each section.
pub fn links_lead_to_ids()
    ensures targets { (request : Request) (logs : List Log) (requested : List (List ℕ)) →
        flat_map target_id (page_parts request logs requested) ≡ range_with_len 0 (length (page_outline request logs requested)) }
    ensures articles { (request : Request) (logs : List Log) (requested : List (List ℕ)) →
        flat_map article_id (page_parts request logs requested) ≡ articles (page_outline request logs requested) }
    ensures articles_once { (request : Request) (logs : List Log) (requested : List (List ℕ)) →
        IsDistinct nat_eq (flat_map article_id (page_parts request logs requested)) }
    ensures target_links { (request : Request) (logs : List Log) (requested : List (List ℕ)) →
        list_all (is_among (flat_map target_id (page_parts request logs requested)))
        (flat_map target_link (page_parts request logs requested)) ≡ true }
    ensures own_links { (request : Request) (logs : List Log) (requested : List (List ℕ)) (position : ℕ) (inside : List Part) →
        IsArticle request logs requested position inside →
        list_all (λ number. number == position) (flat_map target_link inside) ≡ true }
    ensures article_links { (request : Request) (logs : List Log) (requested : List (List ℕ)) →
        list_all (is_among (flat_map article_id (page_parts request logs requested)))
        (flat_map article_link (page_parts request logs requested)) ≡ true }
    ensures section_links { (request : Request) (logs : List Log) (requested : List (List ℕ)) →
        flat_map section_link (page_parts request logs requested) ≡ flat_map section_id (page_parts request logs requested) }
{
    positions_are_of_nodes();
    bars_lead_to_positions();
    trimmed_events_are_in_tree();
}

/// Each link to a log or to an article has the name of its target as text, or one of the page's own texts. Each log in the tree, and each
/// article, begins with the name of its target, its status and how long it took. Each item of a list has the name of a target and its
/// status. So has each row of a table, with one value: how long the target took, how long it ran alone, its number of warnings, or its
/// memory. Names, statuses and values are as the logs and the facts say. The page names the requested targets, with their statuses.
pub fn targets_have_their_names()
    ensures names { (request : Request) (logs : List Log) (requested : List (List ℕ)) →
        (before : List Part) (tag : Markup) (after : List Part) → before ++ (MarkupPart tag ∷ after) ≡ page_parts request logs requested →
        TellsItsTarget logs (page_outline request logs requested) request.recipes (recipes_of (page_targets request logs requested))
        tag after }
    ensures targets { (request : Request) (logs : List Log) (requested : List (List ℕ)) →
        AllByRecursion (IsOfTarget logs (page_events request logs requested) request.times) (page_outline request logs requested) }
    ensures requested { (request : Request) (logs : List Log) (requested : List (List ℕ)) →
        IsRead (flat_map (requested_shown logs) (page_outline request logs requested)) request logs requested }
{
    page_is_read();
    ranks_have_values_of_targets();
}

/// The heading of a page says how many targets failed; else how many are unfinished, if a requested one is; else how many were made.
/// The summary has the numbers of targets, of failures and of lines with warnings, the size of all text lines, and times and processor
/// time, if they are known. A page has one heading and one such list. It says when the build began and how long it took, if any time is
/// known. Its last line has the number of logs, the capture directory, and the command that prints the same logs as text.
pub fn numbers_are_shown()
    ensures heading { (request : Request) (logs : List Log) (requested : List (List ℕ)) →
        IsRead (heading_shown (page_outline request logs requested)) request logs requested }
    ensures summary { (request : Request) (logs : List Log) (requested : List (List ℕ)) →
        IsRead (summary_shown (page_outline request logs requested) (page_targets request logs requested)
        (page_processor request logs requested)) request logs requested }
    ensures took { (request : Request) (logs : List Log) (requested : List (List ℕ)) →
        IsRead (took_shown (known_times (page_targets request logs requested))) request logs requested }
    ensures command { (request : Request) (logs : List Log) (requested : List (List ℕ)) →
        IsRead (end_shown request requested (page_outline request logs requested)) request logs requested }
    ensures once { (request : Request) (logs : List Log) (requested : List (List ℕ)) →
        flat_map heading_tag (page_parts request logs requested) ≡ Title1 ∷ DescriptionList ∷ [] }
{
    page_is_read();
    positions_are_of_nodes();
    bars_lead_to_positions();
    trimmed_events_are_in_tree();
}

/// The body of a page has the colours of a failed build, and its title the sign of one, exactly if a target that the page shows failed.
pub fn failed_builds_are_red()
    ensures red { (request : Request) (logs : List Log) (requested : List (List ℕ)) →
        list_any has_failed (page_outline request logs requested) ≡ true → IsRed (page_parts request logs requested) }
    ensures only { (request : Request) (logs : List Log) (requested : List (List ℕ)) →
        list_any has_failed (page_outline request logs requested) ≡ false → IsRed (page_parts request logs requested) → ⊥ }
    ensures title { (request : Request) (logs : List Log) (requested : List (List ℕ)) →
        says_failed (slice_get (flat_map title_in (page_parts request logs requested)) 0)
        ≡ list_any has_failed (page_outline request logs requested) }
{
    nodes_sum_up_logs_below();
}

/// Each target that failed is exactly once among the root failures or among the dependent ones. The root failures are in the order in
/// which the targets ended. Targets with an unknown end follow all others. Equal ends, and unknown ones, are in the order of the tree.
/// Each dependent failure contains a root failure. If a target failed, the page lists them, and the targets at the ends of paths that
/// have no record of how they ended. A list names at most 200 targets.
pub fn failures_are_listed()
    ensures listed { (nodes : List Node) →
        IsPermutation (positions_where has_failed 0 nodes) (root_failures nodes ++ positions_where is_dependent_failure 0 nodes) }
    ensures in_order { (nodes : List Node) → AllPairs (IsListedBefore nodes) (root_failures nodes) }
    ensures found { (request : Request) (logs : List Log) (requested : List (List ℕ)) →
        ContainRoots (page_outline request logs requested) }
    ensures named { (request : Request) (logs : List Log) (requested : List (List ℕ)) →
        0 < length (root_failures (page_outline request logs requested)) →
        ListsFailures logs (page_outline request logs requested) (page_parts request logs requested) }
{
    nodes_sum_up_logs_below();
}

/// A page with a baseline says what is new since then. It has the numbers of lines with new warnings and errors, of warnings and errors
/// that are gone, of targets that newly fail, and of fixed ones. The page lists these lines and targets, at most 200 of each. Each line is
/// one of the log that its link leads to, is a warning or an error, and is new; and each new one of a shown target is among them, in
/// order. The section, and the link to it, are all that a baseline changes.
pub fn news_are_shown()
    ensures numbers { (request : Request) (logs : List Log) (requested : List (List ℕ)) (baseline : BaselineValue) →
        request.baseline ≡ Some baseline →
        IsRead (news_shown baseline logs (page_outline request logs requested)) request logs requested }
    ensures listed { (request : Request) (logs : List Log) (requested : List (List ℕ)) (baseline : BaselineValue) →
        request.baseline ≡ Some baseline →
        ListsNews baseline logs (page_outline request logs requested) (page_parts request logs requested) }
    ensures lines { (baseline : BaselineValue) (logs : List Log) (nodes : List Node) →
        AreNewLines baseline logs nodes (new_lines baseline logs 0 nodes) }
    ensures otherwise { (request : Request) (logs : List Log) (requested : List (List ℕ)) → is_some request.baseline ≡ true →
        HasNewSection (page_parts request logs requested) (page_parts (record request { baseline = None }) logs requested) }
{
    page_is_read();
    positions_are_of_nodes();
    bars_lead_to_positions();
    trimmed_events_are_in_tree();
}

/// The contents of a page have the text lines of the events, each once and in order, if each requested target has a log. The tree shows
/// those that are left of long logs, in order, except the lines of logs whose output is in an article. Such an article shows exactly the
/// lines of its log. Any article shows only beginnings of lines of its log, in order. Nothing is left out if the number of bytes isn't
/// limited, or if all logs together don't have more bytes. Otherwise, the head and the tail of each log are left, as the limit of this log
/// says. Between the tags of a log's element are exactly the lines of this log and of the logs below it. The tree shows at most as many
/// bytes as was asked for, or 4,096 of each log.
pub fn lines_are_shown()
    ensures complete { (request : Request) (logs : List Log) (requested : List (List ℕ)) → find_unknown logs requested ≡ None →
        texts_of (page_lines request logs requested) ≡ flat_map event_lines (page_events request logs requested) }
    ensures tree { (request : Request) (logs : List Log) (requested : List (List ℕ)) (inside : List Part) →
        IsTree request logs requested inside → flat_map log_text inside
        ≡ positioned_bytes (unmoved_lines (page_outline request logs requested) (kept_lines request logs requested)) }
    ensures whole { (request : Request) (logs : List Log) (requested : List (List ℕ)) → request.max_bytes ≡ 0 →
        find_unknown logs requested ≡ None → kept_lines request logs requested ≡ page_lines request logs requested }
    ensures fitting { (request : Request) (logs : List Log) (requested : List (List ℕ)) →
        bytes_shown None (page_outline request logs requested) ≤ request.max_bytes → find_unknown logs requested ≡ None →
        kept_lines request logs requested ≡ page_lines request logs requested }
    ensures cut { (request : Request) (logs : List Log) (requested : List (List ℕ)) → request.max_bytes < 2 ^ 64 →
        find_unknown logs requested ≡ None → (position : ℕ) → position < length (page_outline request logs requested) →
        texts_of (lines_at position (kept_lines request logs requested))
        ≡ head_and_tail (page_limit request logs requested position) (texts_of (lines_at position (page_lines request logs requested))) }
    ensures bounded { (request : Request) (logs : List Log) (requested : List (List ℕ)) → 0 < request.max_bytes →
        request.max_bytes < 2 ^ 64 → AreCountable logs → find_unknown logs requested ≡ None →
        (inside : List Part) → IsTree request logs requested inside →
        length (flat_map log_text inside) ≤ budget_of_tree request logs requested }
    ensures has_tree { (request : Request) (logs : List Log) (requested : List (List ℕ)) →
        (inside : List Part) × IsTree request logs requested inside }
    ensures inside { (request : Request) (logs : List Log) (requested : List (List ℕ)) (position : ℕ) (inside : List Part) →
        IsLog request logs requested position inside → flat_map log_text inside
        ≡ positioned_bytes (unmoved_lines (page_outline request logs requested) (kept_within request logs requested position)) }
    ensures articles { (request : Request) (logs : List Log) (requested : List (List ℕ)) → find_unknown logs requested ≡ None →
        (position : ℕ) → is_moved_at (page_outline request logs requested) (Some position) ≡ true →
        (inside : List Part) → IsArticle request logs requested position inside →
        flat_map log_text inside ≡ positioned_bytes (lines_at position (page_lines request logs requested)) }
    ensures excerpts { (request : Request) (logs : List Log) (requested : List (List ℕ)) (position : ℕ) (inside : List Part) →
        IsArticle request logs requested position inside →
        AreBeginnings (flat_map log_text inside)
        (map with_line_feed (printed_by logs (node_at (page_outline request logs requested) position))) }
    ensures has_articles { (request : Request) (logs : List Log) (requested : List (List ℕ)) →
        (position : ℕ) → is_moved_at (page_outline request logs requested) (Some position) ≡ true →
        (inside : List Part) × IsArticle request logs requested position inside }
{
    positions_are_of_nodes();
    bars_lead_to_positions();
    events_are_in_contents();
    logs_show_their_lines();
    each_log_once();
    trimmed_events_are_in_tree();
    unlimited_logs_are_whole();
    head_and_tail_are_kept();
}

/// The page shows the command in its last line unchanged, so a reader can copy it, whatever bytes the names have.
pub fn command_is_shown_unchanged()
    ensures { (dir : List ℕ) (options : Options) (requested : List (List ℕ)) → list_all is_byte dir ≡ true →
        list_all (λ name. list_all is_byte name) requested ≡ true →
        shown_text Monochrome (command dir options requested) ≡ command dir options requested }
{
    printable_names_are_unchanged();
}

/// Each article is on the page. It shows the directory of its target's recipe, if this is known, and of the last ten known commands each
/// one that has at most 40,000 bytes.
pub fn recipes_are_shown()
    ensures articles { (request : Request) (logs : List Log) (requested : List (List ℕ)) (position : ℕ) →
        is_among (articles (page_outline request logs requested)) position ≡ true →
        (inside : List Part) × IsArticle request logs requested position inside }
    ensures recipes { (request : Request) (logs : List Log) (requested : List (List ℕ)) (position : ℕ) (inside : List Part) →
        IsArticle request logs requested position inside →
        ShowsRecipe (recipe_at request.recipes (node_at (page_outline request logs requested) position).number) inside }
{
    positions_are_of_nodes();
    bars_lead_to_positions();
    trimmed_events_are_in_tree();
}

/// Logs that have too many bytes together are cut at the highest cap at which they show at most `budget` bytes, or at 4,096 if that cap
/// is lower. These clauses are about the cap before it is raised.
pub fn cap_is_highest()
    ensures fits { (budget : ℕ) (nodes : List Node) → bytes_shown (Some (highest_cap budget nodes)) nodes ≤ budget }
    ensures highest { (budget cap : ℕ) (nodes : List Node) → highest_cap budget nodes < cap → cap ≤ budget →
        budget < bytes_shown (Some cap) nodes }
{}

/// Each tag of a page is one of a page's own tags. The tags of the tree depend only on the outline, on which kind each event is, on numbers
/// and on the lengths of text lines: they stay the same if targets are renamed, and notes and the bytes of text lines are replaced. That no
/// tag comes from a log or a name follows from `page_is_read` and `passages_are_read_as_shown`.
pub fn tags_are_its_own()
    ensures tags { (request : Request) (logs : List Log) (requested : List (List ℕ)) →
        All IsOwnTag (tags_of (read (page_html request logs requested))) }
    ensures tree { (request other : Request) (logs others : List Log) (requested other_requested : List (List ℕ)) →
        (rename : List ℕ → List ℕ) → HasSameShape request logs requested rename other others other_requested →
        (inside other_inside : List Part) → IsTree request logs requested inside → IsTree other others other_requested other_inside →
        flat_map markup_of other_inside ≡ flat_map markup_of inside }
{
    positions_are_of_nodes();
    bars_lead_to_positions();
    trimmed_events_are_in_tree();
    page_is_read();
    passages_are_read_as_shown();
    charts_have_no_text_in_tags();
}

/// If a page has a timeline, it has one chart, and otherwise none. Its window runs from the first known time of a shown target to the last
/// one. The chart shows when each target ran: the span of each shown target whose times are known is in exactly one bar. This bar begins
/// when the first of its spans began, and leads to the target of that one. It is as wide as the time until the last of them ended, but at
/// least 0.1 % of the chart. The text of its tooltip is `title_for` of its spans. The chart shows marks in the same way.
pub fn times_are_shown()
    ensures chart { (request : Request) (logs : List Log) (requested : List (List ℕ)) (window : Window) →
        HasTimeline request logs requested window → length (flat_map part_chart (page_parts request logs requested)) ≡ 1 }
    ensures no_chart { (request : Request) (logs : List Log) (requested : List (List ℕ)) →
        ((window : Window) → HasTimeline request logs requested window → ⊥) →
        flat_map part_chart (page_parts request logs requested) ≡ [] }
    ensures window { (request : Request) (logs : List Log) (requested : List (List ℕ)) (window : Window) →
        HasTimeline request logs requested window →
        IsOverTimes (page_outline request logs requested) request.times
        (time_over (known_times (page_targets request logs requested))) window }
    ensures spans { (request : Request) (logs : List Log) (requested : List (List ℕ)) →
        IsPermutation (spans_of (page_targets request logs requested))
        (callers_of (page_targets request logs requested) ++ recipes_of (page_targets request logs requested)) }
    ensures callers { (request : Request) (logs : List Log) (requested : List (List ℕ)) (window : Window) →
        HasTimeline request logs requested window →
        ChartsDraw request logs requested window Callers (callers_of (page_targets request logs requested)) }
    ensures recipes { (request : Request) (logs : List Log) (requested : List (List ℕ)) (window : Window) →
        HasTimeline request logs requested window →
        ChartsDraw request logs requested window Recipes (recipes_of (page_targets request logs requested)) }
    ensures marks { (request : Request) (logs : List Log) (requested : List (List ℕ)) (window : Window) →
        HasTimeline request logs requested window →
        ChartsDraw request logs requested window Untimed (marks_of (page_targets request logs requested)) }
{
    window_is_over_known_times();
    spans_are_callers_or_recipes();
    bars_say_when_targets_ran();
    positions_are_of_nodes();
    bars_lead_to_positions();
    trimmed_events_are_in_tree();
}
