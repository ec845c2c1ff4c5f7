//! The verdict on a build, and the heading and the title that state it.
ghost use Rattle.std.specs.Prelude.{◌≡◌, ◌++◌, IfOk, length};
ghost use Rattle.std.specs.List.{list_any};
ghost use Rattle.redo_page.specs.Verdict.{body_markup, counted_text, is_unfinished, share_text, sign_text, title_text, titled, unfinished_count, verdict_of, verdict_text};
ghost use Rattle.redo_page.specs.Tree.{root_failures};

use crate::labels::{
    FAILED_SIGN, MADE_SIGN, MIDDLE_DOT, OF, TARGET_FAILED, TARGET_MADE, TARGET_UNFINISHED,
    TARGETS_FAILED, TARGETS_MADE, TARGETS_UNFINISHED, UNFINISHED_SIGN,
};
use crate::targets::plural;
use itoa::Buffer;
use redo_html::Markup;
use redo_outline::Node;
use std::alloc::{AllocError, Global};

/// The verdict on a build. The page shows it at its top, with a sign.
#[derive(Clone, Copy, Debug, PartialEq, Eq)]
pub enum Verdict {
    /// A target failed.
    Failed,
    /// No target failed so far, and a requested target is unfinished.
    Unfinished,
    /// Every target was made.
    Made,
}

impl Verdict {
    /// Returns the verdict on a build. `failures` is the number of targets that failed without a failure below them.
    pub fn of(nodes: &[Node], failures: usize) -> Verdict
        requires { failures ≡ length (root_failures nodes.now) }
        ensures { result ≡ verdict_of nodes.now }
    {
        if failures > 0 {
            Verdict::Failed
        } else if any_unfinished(nodes) {
            Verdict::Unfinished
        } else {
            Verdict::Made
        }
    }

    /// Returns the sign before the heading.
    pub fn sign(self) -> &'static [u8]
        ensures { result.now ≡ sign_text self }
    {
        match self {
            Verdict::Failed => FAILED_SIGN,
            Verdict::Unfinished => UNFINISHED_SIGN,
            Verdict::Made => MADE_SIGN,
        }
    }

    /// Returns the start tag of the body.
    pub fn body(self) -> Markup
        ensures { result ≡ body_markup self }
    {
        match self {
            Verdict::Failed => Markup::BodyBad,
            Verdict::Unfinished => Markup::BodyOpen,
            Verdict::Made => Markup::BodyGood,
        }
    }

    /// Returns the heading of the page.
    pub fn text(self, alloc: Global, nodes: &[Node], failures: usize) -> Result<Vec<u8>, AllocError>
        requires { failures ≡ length (root_failures nodes.now) }
        ensures { IfOk result (λ text. text.items ≡ verdict_text self nodes.now) }
    {
        let targets = nodes.len() as u64;
        match self {
            Verdict::Failed => {
                share_text(
                    alloc,
                    failures as u64,
                    targets,
                    TARGET_FAILED,
                    TARGETS_FAILED,
                )
            }
            Verdict::Unfinished => {
                let unfinished = count_unfinished(nodes) as u64;
                share_text(
                    alloc,
                    unfinished,
                    targets,
                    TARGET_UNFINISHED,
                    TARGETS_UNFINISHED,
                )
            }
            Verdict::Made => counted_text(alloc, targets, TARGET_MADE, TARGETS_MADE),
        }
    }
}

fn any_unfinished(nodes: &[Node]) -> bool
    ensures { result ≡ list_any is_unfinished nodes.now }
{
    nodes
        .iter()
        .any(|node| node.parent.is_none() && node.status.is_none())
}

fn count_unfinished(nodes: &[Node]) -> usize
    ensures { result ≡ unfinished_count nodes.now }
{
    nodes.iter().filter(|node| node.status.is_none()).count()
}

// Returns how many targets of all, and words that depend on the number of all.
fn share_text(
    alloc: Global,
    part: u64,
    all: u64,
    one: &[u8],
    many: &[u8],
) -> Result<Vec<u8>, AllocError>
    ensures { IfOk result (λ text. text.items ≡ share_text part all one.now many.now) }
{
    let mut buffer = Buffer::new();
    let targets = counted_text(alloc, all, one, many)?;
    let of_targets = join(alloc, OF, &targets)?;
    join(alloc, buffer.format(part).as_bytes(), &of_targets)
}

// Returns a number, and words that depend on it.
fn counted_text(alloc: Global, number: u64, one: &[u8], many: &[u8]) -> Result<Vec<u8>, AllocError>
    ensures { IfOk result (λ text. text.items ≡ counted_text number one.now many.now) }
{
    let mut buffer = Buffer::new();
    join(
        alloc,
        buffer.format(number).as_bytes(),
        plural(number, one, many),
    )
}

/// Returns the text of the element `title`. `heading` is the heading of the page.
pub fn title_text(
    alloc: Global,
    title: &[u8],
    verdict: Verdict,
    heading: &[u8],
) -> Result<Vec<u8>, AllocError>
    ensures { IfOk result (λ text. text.items ≡ title_text title.now verdict heading.now) }
{
    let text = join(alloc, b" ", &titled(alloc, title, heading)?)?;
    join(alloc, verdict.sign(), &text)
}

fn titled(alloc: Global, title: &[u8], heading: &[u8]) -> Result<Vec<u8>, AllocError>
    ensures { IfOk result (λ text. text.items ≡ titled title.now heading.now) }
{
    if title.is_empty() {
        return heading.to_vec(alloc);
    }
    let rest = join(alloc, MIDDLE_DOT, heading)?;
    join(alloc, title, &rest)
}

fn join<'a>(alloc: Global, first: &'a [u8], second: &'a [u8]) -> Result<Vec<u8>, AllocError>
    ensures { IfOk result (λ text. text.items ≡ first.now ++ second.now) }
{
    [first, second].concat(alloc)
}
