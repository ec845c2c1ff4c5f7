//! How much of long logs a page shows.
//!
//! The outline has the length of each log, so the limits are known before the tree is written. The definition of the cap tries all caps.
//! The code finds the cap by binary search, so it iterates over the nodes some 64 times at most.
ghost use Rattle.std.specs.Prelude.{◌≡◌, IfOk, length};
ghost use Rattle.redo_page.specs.Limits.{at_most, fit_in, highest_cap, cap_for, limit_at, limit_if, limits_of, position_limit};
ghost use Rattle.redo_page.specs.Private.Referring.{build_value};

use crate::build::BuildRef;
use redo_outline::Node;
use redo_trim::Limit;
use std::alloc::{AllocError, Global};

/// The number of bytes of text lines that each log shows, at least.
const MIN_CAP: u64 = 4096;

/// A log with this limit is shown whole.
const NO_LIMIT: Limit = Limit { head: 0, tail: 0 };

// ---- the cap

fn at_most(cap: Option<u64>, bytes: u64) -> u64
    ensures { result ≡ at_most cap bytes }
{
    match cap {
        None => bytes,
        Some(cap) => bytes.min(cap),
    }
}

// Returns whether all logs together show at most `budget` bytes, if each one shows at most `cap` bytes, or all of them.
fn fit_in(nodes: &[Node], cap: Option<u64>, budget: u64) -> bool
    ensures { result ≡ fit_in cap budget nodes.now }
{
    let mut left = budget;
    for node in nodes {
        let bytes = at_most(cap, node.bytes);
        if bytes > left {
            return false;
        }
        left -= bytes;
    }
    true
}

// Returns the highest cap, up to `budget`, at which all logs together show at most `budget` bytes.
fn highest_cap(nodes: &[Node], budget: u64) -> u64
    ensures { result ≡ highest_cap budget nodes.now }
{
    let mut fitting = 0;
    let mut above = budget;
    'caps: while fitting < above {
        let cap = above - (above - fitting) / 2;
        if fit_in(nodes, Some(cap), budget) {
            fitting = cap;
        } else {
            above = cap - 1;
        }
    }
    fitting
}

/// Returns the number of bytes of text lines that a log may show: there is no limit if everything fits into the budget, or if the budget
/// is 0. For n nodes, this takes O(n log `budget`) time.
pub fn cap_for(nodes: &[Node], budget: u64) -> Option<u64>
    ensures { result ≡ cap_for budget nodes.now }
{
    if budget == 0 || fit_in(nodes, None, budget) {
        return None;
    }
    Some(highest_cap(nodes, budget).max(MIN_CAP))
}

// ---- limits

// Returns the limit of a log with this many bytes: a quarter of the bytes that it shows is its head, and the rest is
// its tail.
fn limit_at(cap: u64, bytes: u64) -> Limit
    ensures { result ≡ limit_at cap bytes }
{
    Limit {
        head: cap / 4,
        tail: bytes.saturating_sub(cap - cap / 4),
    }
}

fn position_limit(build: &BuildRef<'_>, cap: u64, position: usize) -> Limit
    ensures { result ≡ position_limit (build_value build.now).articles (build_value build.now).nodes cap position }
{
    let bytes = build.node(position).bytes;
    if cap < bytes && !build.is_moved(position) {
        limit_at(cap, bytes)
    } else {
        NO_LIMIT
    }
}

fn limit_if(build: &BuildRef<'_>, cap: u64, position: Option<usize>) -> Limit
    ensures { result ≡ limit_if (build_value build.now).articles (build_value build.now).nodes cap position }
{
    match position {
        None => NO_LIMIT,
        Some(position) => position_limit(build, cap, position),
    }
}

/// Returns the limits of all logs, by their numbers; none if no log has a limit.
pub fn limits_of(
    alloc: Global,
    build: &BuildRef<'_>,
    cap: Option<u64>,
) -> Result<Vec<Limit>, AllocError>
    ensures { IfOk result (λ limits. limits.items
        ≡ limits_of (build_value build.now).articles (build_value build.now).nodes cap (length build.now.table.now)) }
{
    let mut limits = Vec::new(alloc);
    let Some(cap) = cap else {
        return Ok(limits);
    };
    for number in 0..build.table.len() {
        limits.push(limit_if(build, cap, build.outline.position_of(number)))?;
    }
    Ok(limits)
}
