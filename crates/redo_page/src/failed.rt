//! What failed: the section at the top of a page.
ghost use Rattle.std.specs.Prelude.{◌≡◌, IfOk, drop, take};
ghost use Rattle.redo_page.specs.Private.PageTexts.{AreFailures};
ghost use Rattle.redo_page.specs.Tree.{end_cmp, failure_cmp};
ghost use Rattle.redo_timeline.specs.Order.{sort};

use crate::labels::{
    AND, COUNT_NOT_CLOSED, FAILED_WITH_THESE, MORE_FAILED, MORE_IN_TREE, WHAT_FAILED,
};
use crate::nodes::{has_failed, node_at};
use crate::scope::Count::{All, Unlisted};
use crate::scope::Listed;
use crate::scope::Listed::{Dependents, Others, Unclosed};
use crate::scope::Test::{HasAny, HasFailed, HasSeveral, HasUnlisted};
use crate::template::Around::{EachOf, If};
use crate::template::Item::{ArticleLink, Articles, Badge, Cause, In, Link, Number, Tag, Text};
use crate::template::{Block1, Block2, Block3, Template};
use redo_html::Markup::{
    EndDetails, EndHeading, EndItem, EndOrdered, EndParagraph, EndSection, EndSummary,
    FailedHeading, FailedSection, Item, MoreDetails, Ordered, OrderedFrom, QuietParagraph, Summary,
};
use redo_outline::Node;
use std::alloc::{AllocError, Global};
use std::cmp::Ordering;

/// The root failures that have articles, at most.
pub const MAX_ARTICLES: usize = 10;

/// The targets that a list names, at most.
pub const MAX_ROWS: usize = 200;

const LISTED: Block1 = &[Tag(Item), Link, Badge, Tag(EndItem)];

const LISTED_WITH_CAUSE: Block1 = &[Tag(Item), Link, Badge, Cause, Tag(EndItem)];

/// The articles in short.
pub const LIST: Block2 = &[
    Tag(Ordered),
    In(
        EachOf(Listed::Articles),
        &[Tag(Item), ArticleLink, Badge, Cause, Tag(EndItem)],
    ),
    Tag(EndOrdered),
];

/// More root failures, closed.
pub const OTHERS: Block2 = &[
    Tag(MoreDetails),
    Tag(Summary),
    Number(All(Others)),
    Text(MORE_FAILED),
    Tag(EndSummary),
    Tag(OrderedFrom(MAX_ARTICLES as u64 + 1)),
    In(EachOf(Others), LISTED_WITH_CAUSE),
    Tag(EndOrdered),
    In(
        If(HasUnlisted(Others)),
        &[
            Tag(QuietParagraph),
            Text(AND),
            Number(Unlisted(Others)),
            Text(MORE_IN_TREE),
            Tag(EndParagraph),
        ],
    ),
    Tag(EndDetails),
];

/// Targets that failed because of others, closed.
pub const DEPENDENTS: Block2 = &[
    Tag(MoreDetails),
    Tag(Summary),
    Number(All(Dependents)),
    Text(FAILED_WITH_THESE),
    Tag(EndSummary),
    Tag(Ordered),
    In(EachOf(Dependents), LISTED),
    Tag(EndOrdered),
    In(
        If(HasUnlisted(Dependents)),
        &[
            Tag(QuietParagraph),
            Text(AND),
            Number(Unlisted(Dependents)),
            Text(MORE_IN_TREE),
            Tag(EndParagraph),
        ],
    ),
    Tag(EndDetails),
];

/// Unfinished targets. Their list is collapsed.
pub const UNCLOSED: Block2 = &[
    Tag(MoreDetails),
    Tag(Summary),
    Number(All(Unclosed)),
    Text(COUNT_NOT_CLOSED),
    Tag(EndSummary),
    Tag(Ordered),
    In(EachOf(Unclosed), LISTED),
    Tag(EndOrdered),
    In(
        If(HasUnlisted(Unclosed)),
        &[
            Tag(QuietParagraph),
            Text(AND),
            Number(Unlisted(Unclosed)),
            Text(MORE_IN_TREE),
            Tag(EndParagraph),
        ],
    ),
    Tag(EndDetails),
];

/// The items of the section, if a target failed.
pub const SECTION: Block3 = &[
    Tag(FailedSection),
    Tag(FailedHeading),
    Text(WHAT_FAILED),
    Tag(EndHeading),
    In(If(HasSeveral(Listed::Articles)), LIST),
    Articles,
    In(If(HasAny(Others)), OTHERS),
    In(If(HasAny(Dependents)), DEPENDENTS),
    In(If(HasAny(Unclosed)), UNCLOSED),
    Tag(EndSection),
];

/// The section, if a target failed.
pub const FAILURES: Template = &[In(If(HasFailed), SECTION)];

/// The positions of the targets that the section names.
#[derive(Drop)]
pub struct Failures {
    /// Targets that failed without a failure below them, in the order in which they ended. The first ten have articles.
    pub roots: Vec<usize>,
    /// Targets that failed with a failure below them.
    pub dependents: Vec<usize>,
    /// The unfinished targets to be listed: `is_unclosed`.
    pub unclosed: Vec<usize>,
}

/// Finds the targets that failed.
pub fn find_failures(alloc: Global, nodes: &[Node]) -> Result<Failures, AllocError>
    ensures { IfOk result (AreFailures nodes.now) }
{
    let mut roots = Vec::new(alloc);
    let mut dependents = Vec::new(alloc);
    let mut unclosed = Vec::new(alloc);
    for position in 0..nodes.len() {
        let node = nodes[position];
        if has_failed(&node) && !node.fails_below {
            roots.push(position)?;
        }
        if has_failed(&node) && node.fails_below {
            dependents.push(position)?;
        }
        if node.status.is_none() && node.below == 0 && node.parent.is_some() {
            unclosed.push(position)?;
        }
    }
    sort_by_end(nodes, &mut roots);
    Ok(Failures {
        roots,
        dependents,
        unclosed,
    })
}

// Sorts positions of targets by when the targets ended.
fn sort_by_end(nodes: &[Node], positions: &mut Vec<usize>)
    ensures { positions.new.items ≡ sort (failure_cmp nodes.now) positions.old.items }
{
    positions.sort_unstable_by(|position, other| failure_cmp(nodes, *position, *other));
}

fn failure_cmp(nodes: &[Node], position: usize, other: usize) -> Ordering
    ensures { result ≡ failure_cmp nodes.now position other }
{
    let by_end = end_cmp(node_at(nodes, position).ended, node_at(nodes, other).ended);
    by_end.then(position.cmp(&other))
}

fn end_cmp(ended: Option<u64>, other: Option<u64>) -> Ordering
    ensures { result ≡ end_cmp ended other }
{
    match (ended, other) {
        (Some(ended), Some(other)) => ended.cmp(&other),
        (Some(_), None) => Ordering::Less,
        (None, Some(_)) => Ordering::Greater,
        (None, None) => Ordering::Equal,
    }
}

/// Returns the first positions, at most `count` of them.
pub fn first_of(count: usize, positions: &[usize]) -> &[usize]
    ensures { result.now ≡ take count positions.now }
{
    if positions.len() <= count {
        positions
    } else {
        &positions[..count]
    }
}

/// Returns the positions after the first `count` ones.
pub fn others_of(count: usize, positions: &[usize]) -> &[usize]
    ensures { result.now ≡ drop count positions.now }
{
    if positions.len() <= count {
        &[]
    } else {
        &positions[count..]
    }
}
