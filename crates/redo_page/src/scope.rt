//! The values of a build for templates.
ghost use Rattle.std.specs.Prelude.{◌≡◌, take};
ghost use Rattle.redo_page.specs.Private.Viewing.{view_of};
ghost use Rattle.redo_page.specs.Private.Writing.{WroteParts};
ghost use Rattle.redo_page.specs.Scope.{began_parts, count_of, date_parts, holds, largest_of, max_rows, measure_words, share_of_largest, known_count, phrase_text, position_view, positions_of, row_name, row_view, rows_of, shown_alone, shown_longest, target_view};
ghost use Rattle.redo_page.specs.Words.{words_parts};
ghost use Rattle.redo_units.specs.Dates.{date_text_of};

use crate::failed::{MAX_ARTICLES, MAX_ROWS, first_of, others_of};
use crate::labels::{LOG_IN, LOGS_IN, MIDDLE_DOT};
use crate::news::News;
use crate::nodes::node_at;
use crate::page::{PageRequest, Texts};
use crate::targets::plural;
use crate::words::write_words;
use crate::writer::PageWriter;
use redo_device::Sink;
use redo_html::Piece;
use redo_logs::LogTable;
use redo_outline::{Node, target_at};
use redo_summary::{Rank, Summary, UsageSummary};
use redo_units::{date, duration, size, tenths};

/// A number in a template.
#[derive(Clone, Copy)]
pub enum Count {
    /// All targets.
    Targets,
    /// Failed targets without a failure below them.
    Roots,
    /// Failed targets above these.
    Dependents,
    /// Lines with `warning:`.
    Warnings,
    /// The most recipes that ran at once.
    Most,
    /// Targets with one unknown time.
    Unknown,
    /// Targets with at least one known time.
    Known,
    /// The row's value.
    Value,
    /// All of these targets.
    All(Listed),
    /// The targets of a list that it doesn't name.
    Unlisted(Listed),
    /// New warnings and errors.
    New,
    /// New warnings and errors that aren't listed.
    UnlistedNew,
    /// Warnings and errors that are gone.
    Gone,
}

/// A number with a unit in a template.
#[derive(Clone, Copy)]
pub enum Measure {
    /// The size of the logs.
    Size,
    /// How long the build took.
    Took,
    /// The sum of the times of recipes.
    Sum,
    /// How many recipes ran at once on average.
    AtOnce,
    /// The processor time of recipes.
    Processor,
    /// The row's value as a duration.
    Duration,
    /// The row's value, in kilobytes of 1,024 bytes, as a size.
    Memory,
}

/// A text in a template that depends on the build.
#[derive(Clone, Copy)]
pub enum Phrase {
    /// The title that the page was asked to have.
    Title,
    /// The sign before the heading.
    VerdictSign,
    /// The heading, which states the verdict.
    Heading,
    /// The words between the number of logs and the capture directory.
    LogsIn,
    /// The capture directory.
    Directory,
    /// The command that writes the same as one text.
    Command,
}

/// A condition in a template.
#[derive(Clone, Copy)]
pub enum Test {
    /// The page was asked to have a title.
    HasTitle,
    /// The row's target was requested.
    IsRequested,
    /// A target failed.
    HasFailed,
    /// A target failed with another one.
    HasDependents,
    /// The time that the build took is known.
    HasWindow,
    /// Most times are known.
    IsTimed,
    /// A time is known.
    HasKnown,
    /// One time of a target is unknown.
    HasMarks,
    /// A recipe ran others.
    HasCallers,
    /// The processor time of a recipe is known.
    HasProcessor,
    /// There is a table.
    HasTables,
    /// A target is among those that took longest.
    HasLongest,
    /// A recipe is among those that ran alone for the longest time.
    HasAlone,
    /// The memory of a recipe is known.
    HasMemory,
    /// A target has warnings.
    HasWarned,
    /// There is one of these targets.
    HasAny(Listed),
    /// There is more than one of them.
    HasSeveral(Listed),
    /// Their list doesn't name all of them.
    HasUnlisted(Listed),
    /// The build is compared with an earlier one.
    HasBaseline,
    /// A warning or an error is new.
    HasNew,
    /// More of them are new than are listed.
    HasUnlistedNew,
    /// A warning or an error is new, or a target newly fails.
    HasNews,
}

/// The rows of a table, or of a list of lines.
#[derive(Clone, Copy)]
pub enum Rows {
    /// The targets that took longest.
    Longest,
    /// The recipes that ran alone for the longest time.
    LongestAlone,
    /// The recipes with the most memory.
    MostMemory,
    /// The targets with most warnings.
    Warned,
    /// The new warnings and errors that are listed. The value is the position of the line in the target's log.
    New,
}

/// Targets that are in one list.
#[derive(Clone, Copy)]
pub enum Listed {
    /// Failed targets without a failure below them, as far as they have articles.
    Articles,
    /// The other failed targets without a failure below them.
    Others,
    /// Failed targets above these.
    Dependents,
    /// The unfinished targets to be listed.
    Unclosed,
    /// Targets that newly fail.
    NewlyFailing,
    /// Targets that are fixed.
    Fixed,
}

/// The values for a template: the parameters of the page, the targets of a build, the facts about them, and a row of a table.
#[derive(Clone, Copy)]
pub struct Scope<'a> {
    pub request: &'a PageRequest<'a>,
    pub texts: &'a Texts,
    pub table: &'a LogTable,
    pub nodes: &'a [Node],
    pub facts: &'a Summary,
    pub usage: &'a UsageSummary,
    /// The positions of failed targets without a failure below them, of those above them, and of unfinished ones.
    pub roots: &'a [usize],
    pub dependents: &'a [usize],
    pub unclosed: &'a [usize],
    pub news: &'a News,
    /// The row, the largest value in its table, and its target.
    pub rank: Rank,
    pub largest: u64,
    pub node: Node,
}

impl<'a> Scope<'a> {
    /// Returns a number.
    pub fn count(&self, count: Count) -> u64
        ensures { result ≡ count_of (view_of self.now) count }
    {
        match count {
            Count::Targets => self.nodes.len() as u64,
            Count::Roots => self.roots.len() as u64,
            Count::Dependents => self.dependents.len() as u64,
            Count::Warnings => self.facts.warnings(),
            Count::Most => self.facts.most() as u64,
            Count::Unknown => self.facts.marks().len() as u64,
            Count::Known => known_count(self.facts),
            Count::Value => self.rank.value,
            Count::All(listed) => self.positions(listed).len() as u64,
            Count::Unlisted(listed) => {
                self.positions(listed).len().saturating_sub(MAX_ROWS) as u64
            }
            Count::New => self.news.lines().len() as u64,
            Count::UnlistedNew => self.news.lines().len().saturating_sub(MAX_ROWS) as u64,
            Count::Gone => self.news.gone(),
        }
    }

    /// Writes a number with a unit.
    pub fn write_measure<W: Sink>(&self, measure: Measure, page: &mut PageWriter<'_, W>)
        ensures { WroteParts W.written page.old page.new (words_parts (measure_words (view_of self.now) measure)) }
    {
        match measure {
            Measure::Size => write_words(&size(self.facts.bytes()), page),
            Measure::Took => write_words(&duration(self.facts.took()), page),
            Measure::Sum => write_words(&duration(self.facts.sum()), page),
            Measure::AtOnce => write_words(&tenths(self.facts.sum(), self.facts.took()), page),
            Measure::Processor => {
                write_words(&duration(self.usage.processor().unwrap_or(0)), page)
            }
            Measure::Duration => write_words(&duration(self.rank.value), page),
            Measure::Memory => write_words(&size(self.rank.value.saturating_mul(1024)), page),
        }
    }

    /// Returns a text that depends on the build.
    pub fn phrase(&self, phrase: Phrase) -> &'a [u8]
        ensures { result.now ≡ phrase_text (view_of self.now) phrase }
    {
        match phrase {
            Phrase::Title => self.request.title,
            Phrase::VerdictSign => self.texts.verdict.sign(),
            Phrase::Heading => &self.texts.heading,
            Phrase::LogsIn => plural(self.nodes.len() as u64, LOG_IN, LOGS_IN),
            Phrase::Directory => self.request.dir,
            Phrase::Command => &self.texts.command,
        }
    }

    /// Returns the title that a browser shows in its tab.
    pub fn tab(&self) -> &'a [u8]
        ensures { result.now ≡ (view_of self.now).tab }
    {
        &self.texts.title
    }

    /// Writes when the build began, if this has a date, and a middle dot.
    pub fn write_date<W: Sink>(&self, page: &mut PageWriter<'_, W>)
        ensures { WroteParts W.written page.old page.new (began_parts self.now.facts.now.window) }
    {
        if let Some(window) = self.facts.window() {
            write_date(window.began / 1000, page);
        }
    }

    /// Returns whether a test holds.
    pub fn holds(&self, test: Test) -> bool
        ensures { result ≡ holds (view_of self.now) test }
    {
        match test {
            Test::HasTitle => !self.request.title.is_empty(),
            Test::IsRequested => self.node.parent.is_none(),
            Test::HasFailed => self.roots.len() > 0,
            Test::HasDependents => !self.dependents.is_empty(),
            Test::HasWindow => self.facts.window().is_some(),
            Test::IsTimed => self.facts.is_timed(),
            Test::HasKnown => known_count(self.facts) != 0,
            Test::HasMarks => !self.facts.marks().is_empty(),
            Test::HasCallers => !self.facts.callers().is_empty(),
            Test::HasProcessor => self.usage.processor().is_some(),
            Test::HasTables => {
                !shown_longest(self.facts).is_empty()
                    || !self.usage.memory().is_empty()
                    || !self.facts.warned().is_empty()
            }
            Test::HasLongest => !shown_longest(self.facts).is_empty(),
            Test::HasAlone => !shown_alone(self.facts).is_empty(),
            Test::HasMemory => !self.usage.memory().is_empty(),
            Test::HasWarned => !self.facts.warned().is_empty(),
            Test::HasAny(listed) => !self.positions(listed).is_empty(),
            Test::HasSeveral(listed) => self.positions(listed).len() > 1,
            Test::HasUnlisted(listed) => self.positions(listed).len() > MAX_ROWS,
            Test::HasBaseline => self.news.is_compared(),
            Test::HasNew => !self.news.lines().is_empty(),
            Test::HasUnlistedNew => self.news.lines().len() > MAX_ROWS,
            Test::HasNews => !self.news.lines().is_empty() || !self.news.failing().is_empty(),
        }
    }

    /// Returns the rows of a table.
    pub fn rows(&self, rows: Rows) -> &'a [Rank]
        ensures { result.now ≡ rows_of (view_of self.now) rows }
    {
        match rows {
            Rows::Longest => shown_longest(self.facts),
            Rows::LongestAlone => shown_alone(self.facts),
            Rows::MostMemory => self.usage.memory(),
            Rows::Warned => self.facts.warned(),
            Rows::New => first_ranks(MAX_ROWS, self.news.lines()),
        }
    }

    /// Returns the scope of one of these rows.
    pub fn at_row(&self, ranks: &[Rank], rank: Rank) -> Scope<'a>
        ensures { view_of result ≡ row_view (view_of self.now) ranks.now rank }
    {
        Scope {
            rank,
            largest: largest_of(ranks),
            node: node_at(self.nodes, rank.position),
            ..*self
        }
    }

    /// Returns the scope of one of the targets.
    pub fn at_target(&self, node: Node) -> Scope<'a>
        ensures { view_of result ≡ target_view (view_of self.now) node }
    {
        Scope { node, ..*self }
    }

    /// Returns the positions of these targets.
    pub fn positions(&self, listed: Listed) -> &'a [usize]
        ensures { result.now ≡ positions_of (view_of self.now) listed }
    {
        match listed {
            Listed::Articles => first_of(MAX_ARTICLES, self.roots),
            Listed::Others => others_of(MAX_ARTICLES, self.roots),
            Listed::Dependents => self.dependents,
            Listed::Unclosed => self.unclosed,
            Listed::NewlyFailing => self.news.failing(),
            Listed::Fixed => self.news.fixed(),
        }
    }

    /// Returns the positions of those that their list names.
    pub fn listed(&self, listed: Listed) -> &'a [usize]
        ensures { result.now ≡ take max_rows (positions_of (view_of self.now) listed) }
    {
        first_of(MAX_ROWS, self.positions(listed))
    }

    /// Returns the scope of the target at a position.
    pub fn at_position(&self, position: usize) -> Scope<'a>
        ensures { view_of result ≡ position_view (view_of self.now) position }
    {
        Scope {
            rank: Rank { value: 0, position },
            node: node_at(self.nodes, position),
            ..*self
        }
    }

    /// Returns the name of the row's target.
    pub fn name(&self) -> &'a [u8]
        ensures { result.now ≡ row_name (view_of self.now) }
    {
        target_at(self.table, self.node.number)
    }

    /// Returns how much of the largest value the row's value is, in hundredths of a percent.
    pub fn share_of_largest(&self) -> u64
        ensures { result ≡ share_of_largest (view_of self.now) }
    {
        self.rank.value.saturating_mul(10000) / self.largest.max(1)
    }
}

// Returns the first ranks, at most `count` of them.
fn first_ranks(count: usize, ranks: &[Rank]) -> &[Rank]
    ensures { result.now ≡ take count ranks.now }
{
    if ranks.len() <= count {
        ranks
    } else {
        &ranks[..count]
    }
}

fn write_date<W: Sink>(secs: u64, page: &mut PageWriter<'_, W>)
    ensures { WroteParts W.written page.old page.new (date_parts (date_text_of secs)) }
{
    if let Some(text) = date(secs) {
        page.put(&[Piece::Text(&text), Piece::Text(MIDDLE_DOT)]);
    }
}

fn largest_of(ranks: &[Rank]) -> u64
    ensures { result ≡ largest_of ranks.now }
{
    match ranks {
        [] => 0,
        [rank, ..] => rank.value,
    }
}

// Returns the recipes that took longest, unless too little is known.
fn shown_longest(summary: &Summary) -> &[Rank]
    ensures { result.now ≡ shown_longest summary.now }
{
    if summary.is_timed() {
        summary.longest()
    } else {
        &[]
    }
}

// Returns the recipes that ran alone for the longest time, unless too little is known, or these are all recipes.
fn shown_alone(summary: &Summary) -> &[Rank]
    ensures { result.now ≡ shown_alone summary.now }
{
    if summary.is_timed() && summary.most() > 1 {
        summary.alone()
    } else {
        &[]
    }
}

/// Returns the number of targets with at least one known time.
pub fn known_count(summary: &Summary) -> u64
    ensures { result ≡ known_count summary.now }
{
    let callers = summary.callers().len() as u64;
    let recipes = summary.recipes().len() as u64;
    let marks = summary.marks().len() as u64;
    callers.saturating_add(recipes).saturating_add(marks)
}
