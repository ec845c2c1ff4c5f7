//! What is new since an earlier build, the baseline: the section after *What failed*.
//!
//! All numbers and positions are computed before anything is written. Of a line, only its position is stored, so that a build with very
//! many new warnings takes little memory. The section looks up the lines that it shows.
ghost use Rattle.std.specs.Prelude.{◌≡◌, ◌∷◌, ◌++◌, [], false, IfOk, OnOk, get_or, map, if◌then◌else◌};
ghost use Rattle.std.specs.Option.{option_copied};
ghost use Rattle.redo_compare.specs.LogChanges.{diagnostics_in};
ghost use Rattle.redo_compare.specs.Rounds.{picked};
ghost use Rattle.redo_page.specs.NewSection.{line_rank, news_of, news_since, no_news};

use crate::labels::{
    AND, FIXED, FIXED_COUNT, GONE, MORE_IN_LOGS, MORE_IN_TREE, NEW_LINES, NEW_SINCE, NEWLY_FAILING,
    NEWLY_FAILING_COUNT, NOTHING_NEW, SENTENCE_END,
};
use crate::scope::Count::{All, Gone, New, Unlisted, UnlistedNew};
use crate::scope::Listed::{Fixed, NewlyFailing};
use crate::scope::Rows;
use crate::scope::Test::{HasAny, HasBaseline, HasNew, HasNews, HasUnlisted, HasUnlistedNew};
use crate::template::Around::{Each, EachOf, If, Unless};
use crate::template::Item::{Badge, In, Line, Link, Number, Tag, Text};
use crate::template::{Block1, Block2, Block3, Template};
use redo_compare::{Baseline, LogDiagnostics, Occurrence};
use redo_html::Markup::{
    EndDetails, EndHeading, EndItem, EndOrdered, EndParagraph, EndSection, EndSummary, Item,
    MoreDetails, NewHeading, NewSection, Ordered, QuietParagraph, Summary,
};
use redo_logs::LogTable;
use redo_outline::Node;
use redo_summary::Rank;
use std::alloc::{AllocError, Global};
use std::marker::Model;

const LISTED: Block1 = &[Tag(Item), Link, Badge, Tag(EndItem)];

/// The new warnings and errors.
pub const LINES: Block2 = &[
    Tag(Ordered),
    In(
        Each(Rows::New),
        &[Tag(Item), Link, Badge, Line, Tag(EndItem)],
    ),
    Tag(EndOrdered),
    In(
        If(HasUnlistedNew),
        &[
            Tag(QuietParagraph),
            Text(AND),
            Number(UnlistedNew),
            Text(MORE_IN_LOGS),
            Tag(EndParagraph),
        ],
    ),
];

/// Targets that newly fail, closed.
pub const FAILING_NOW: Block2 = &[
    Tag(MoreDetails),
    Tag(Summary),
    Number(All(NewlyFailing)),
    Text(NEWLY_FAILING_COUNT),
    Tag(EndSummary),
    Tag(Ordered),
    In(EachOf(NewlyFailing), LISTED),
    Tag(EndOrdered),
    In(
        If(HasUnlisted(NewlyFailing)),
        &[
            Tag(QuietParagraph),
            Text(AND),
            Number(Unlisted(NewlyFailing)),
            Text(MORE_IN_TREE),
            Tag(EndParagraph),
        ],
    ),
    Tag(EndDetails),
];

/// Fixed targets, closed.
pub const FIXED_NOW: Block2 = &[
    Tag(MoreDetails),
    Tag(Summary),
    Number(All(Fixed)),
    Text(FIXED_COUNT),
    Tag(EndSummary),
    Tag(Ordered),
    In(EachOf(Fixed), LISTED),
    Tag(EndOrdered),
    In(
        If(HasUnlisted(Fixed)),
        &[
            Tag(QuietParagraph),
            Text(AND),
            Number(Unlisted(Fixed)),
            Text(MORE_IN_TREE),
            Tag(EndParagraph),
        ],
    ),
    Tag(EndDetails),
];

/// The items of the section, if there is a baseline.
pub const SECTION: Block3 = &[
    Tag(NewSection),
    Tag(NewHeading),
    Text(NEW_SINCE),
    Tag(EndHeading),
    Tag(QuietParagraph),
    In(Unless(HasNews), &[Text(NOTHING_NEW)]),
    Text(NEW_LINES),
    Number(New),
    Text(GONE),
    Number(Gone),
    Text(NEWLY_FAILING),
    Number(All(NewlyFailing)),
    Text(FIXED),
    Number(All(Fixed)),
    Text(SENTENCE_END),
    Tag(EndParagraph),
    In(If(HasNew), LINES),
    In(If(HasAny(NewlyFailing)), FAILING_NOW),
    In(If(HasAny(Fixed)), FIXED_NOW),
    Tag(EndSection),
];

/// The section, if there is a baseline.
pub const NEWS: Template = &[In(If(HasBaseline), SECTION)];

/// What is new since the baseline.
#[derive(Drop)]
pub struct News {
    is_compared: bool,
    lines: Vec<Rank>,
    gone: u64,
    failing: Vec<usize>,
    fixed: Vec<usize>,
}

impl Model for News {
    ghost use Rattle.redo_page.specs.News.{NewsValue};

    ghost Value = { NewsValue };

    ghost view = { λ news. record {
      is_compared = news.is_compared;
      lines = news.lines.items;
      gone = news.gone;
      failing = news.failing.items;
      fixed = news.fixed.items;
    } };
}

impl News {
    /// Compares a build with its baseline, if there is one. `nodes` is the outline of the build.
    ///
    /// For logs with n bytes, this takes O(n) time. The only error is that an allocation failed.
    pub fn find(
        alloc: Global,
        table: &LogTable,
        nodes: &[Node],
        baseline: Option<&Baseline<'_>>,
    ) -> Result<News, AllocError>
        ensures { IfOk result (λ news. news ≡ news_of (option_copied baseline.entry) table.now nodes.now) }
    {
        match baseline {
            Some(baseline) => compare(alloc, table, nodes, baseline),
            None => Ok(no_news(alloc)),
        }
    }

    /// Returns whether there is a baseline.
    pub fn is_compared(&self) -> bool
        ensures { result ≡ self.now.is_compared }
    {
        self.is_compared
    }

    /// Returns the lines with new warnings and errors, in the order of the tree: for each, the position of its target, and as value its
    /// position among the lines of the target's log.
    pub fn lines(&self) -> &[Rank]
        ensures { result.now ≡ self.now.lines }
    {
        self.lines.as_slice()
    }

    /// Returns how many warnings and errors are gone.
    pub fn gone(&self) -> u64
        ensures { result ≡ self.now.gone }
    {
        self.gone
    }

    /// Returns the positions of the targets that newly fail.
    pub fn failing(&self) -> &[usize]
        ensures { result.now ≡ self.now.failing }
    {
        self.failing.as_slice()
    }

    /// Returns the positions of the fixed targets.
    pub fn fixed(&self) -> &[usize]
        ensures { result.now ≡ self.now.fixed }
    {
        self.fixed.as_slice()
    }
}

fn no_news(alloc: Global) -> News
    ensures { result ≡ no_news }
{
    News {
        is_compared: false,
        lines: Vec::new(alloc),
        gone: 0,
        failing: Vec::new(alloc),
        fixed: Vec::new(alloc),
    }
}

fn compare(
    alloc: Global,
    table: &LogTable,
    nodes: &[Node],
    baseline: &Baseline<'_>,
) -> Result<News, AllocError>
    ensures { IfOk result (λ news. news ≡ news_since baseline.now table.now nodes.now) }
{
    let mut lines = Vec::new(alloc);
    let mut gone: u64 = 0;
    let mut failing = Vec::new(alloc);
    let mut fixed = Vec::new(alloc);
    for position in 0..nodes.len() {
        let node = nodes[position];
        let changes = baseline.changes(alloc, table, &node)?;
        push_new(
            alloc,
            table,
            node.number,
            position,
            changes.new(),
            &mut lines,
        )?;
        gone = gone.saturating_add(changes.gone() as u64);
        push_position_if(changes.newly_fails(), position, &mut failing)?;
        push_position_if(changes.is_fixed(), position, &mut fixed)?;
    }
    Ok(News {
        is_compared: true,
        lines,
        gone,
        failing,
        fixed,
    })
}

fn push_position_if(
    holds: bool,
    position: usize,
    positions: &mut Vec<usize>,
) -> Result<(), AllocError>
    ensures { OnOk result (positions.new.items ≡ positions.old.items ++ (if holds then position ∷ [] else [])) }
{
    if holds {
        positions.push(position)?;
    }
    Ok(())
}

// Appends the new diagnostics of the log with this number, whose target is at this position. `new` says which ones are new.
fn push_new(
    alloc: Global,
    table: &LogTable,
    number: u32,
    position: usize,
    new: &[bool],
    lines: &mut Vec<Rank>,
) -> Result<(), AllocError>
    ensures { OnOk result (lines.new.items
        ≡ lines.old.items ++ map (line_rank position) (picked new.now (diagnostics_in table.now number))) }
{
    let found = LogDiagnostics::of_log(alloc, table, number)?;
    push_picked(position, new, found.occurrences(), lines)
}

fn push_picked(
    position: usize,
    new: &[bool],
    occurrences: &[Occurrence],
    lines: &mut Vec<Rank>,
) -> Result<(), AllocError>
    ensures { OnOk result (lines.new.items ≡ lines.old.items ++ map (line_rank position) (picked new.now occurrences.now)) }
{
    for index in 0..occurrences.len() {
        let line = occurrences[index].line();
        push_line_if(is_set(new, index), position, line, lines)?;
    }
    Ok(())
}

// Returns whether a flag is set. There is none past the end.
fn is_set(flags: &[bool], index: usize) -> bool
    ensures { result ≡ get_or flags.now index false }
{
    match flags.get(index) {
        Some(flag) => *flag,
        None => false,
    }
}

fn push_line_if(
    holds: bool,
    position: usize,
    line: usize,
    lines: &mut Vec<Rank>,
) -> Result<(), AllocError>
    ensures { OnOk result (lines.new.items
        ≡ lines.old.items ++ (if holds then record { value = line; position = position } ∷ [] else [])) }
{
    if holds {
        lines.push(Rank {
            value: line as u64,
            position,
        })?;
    }
    Ok(())
}
