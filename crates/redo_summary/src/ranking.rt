//! The recipes that took longest, those that ran alone for the longest time, and the targets with the most warnings.
//!
//! A table has at most ten rows, so the code never sorts all targets. It iterates over them from the last one to the first,
//! as the definition of a sort by insertion does, and keeps the first ten so far: an insertion into a sorted list changes its
//! first ten items in the same way as an insertion into these ten alone.
ghost use Rattle.std.specs.Prelude.{◌≡◌, take, IfOk, OnOk};
ghost use Rattle.std.specs.Ordering.{is_gt};
ghost use Rattle.redo_timeline.specs.Alone.{times_alone};
ghost use Rattle.redo_timeline.specs.Order.{insert_sorted};
ghost use Rattle.redo_summary.specs.Ranks.{longest_alone, longest_of, most_warned, rank_cmp};

use crate::rank::Rank;
use crate::totals::duration;
use crate::window::cut;
use redo_outline::Node;
use redo_timeline::{Span, times_alone};
use std::alloc::{AllocError, Global};

// A table has at most this many ranks.
const MAX_RANKS: usize = 10;

/// Returns the recipes that took longest.
pub fn longest_of(alloc: Global, recipes: &[Span]) -> Result<Vec<Rank>, AllocError>
    ensures { IfOk result (λ ranks. ranks.items ≡ longest_of recipes.now) }
{
    let mut ranks = Vec::new(alloc);
    for i in (0..recipes.len()).rev() {
        let value = duration(&recipes[i]);
        let position = recipes[i].position;
        insert_rank(&mut ranks, Rank { value, position })?;
    }
    Ok(ranks)
}

/// Returns the recipes that ran alone for the longest time.
pub fn longest_alone(alloc: Global, recipes: &[Span]) -> Result<Vec<Rank>, AllocError>
    ensures { IfOk result (λ ranks. ranks.items ≡ longest_alone recipes.now) }
{
    let times = times_alone(alloc, recipes)?;
    first_by_times(alloc, recipes, &times)
}

// Returns the first of recipes by these times, without those whose time is 0.
fn first_by_times(alloc: Global, recipes: &[Span], times: &[u64]) -> Result<Vec<Rank>, AllocError>
    requires { times.now ≡ times_alone recipes.now }
    ensures { IfOk result (λ ranks. ranks.items ≡ longest_alone recipes.now) }
{
    let mut ranks = Vec::new(alloc);
    for i in (0..recipes.len()).rev() {
        let value = cut(times[i]);
        if value == 0 {
            continue;
        }
        let position = recipes[i].position;
        insert_rank(&mut ranks, Rank { value, position })?;
    }
    Ok(ranks)
}

/// Returns the targets with the most warnings.
pub fn most_warned(alloc: Global, nodes: &[Node]) -> Result<Vec<Rank>, AllocError>
    ensures { IfOk result (λ ranks. ranks.items ≡ most_warned nodes.now) }
{
    let mut ranks = Vec::new(alloc);
    for position in (0..nodes.len()).rev() {
        let value = nodes[position].warnings;
        if value == 0 {
            continue;
        }
        insert_rank(&mut ranks, Rank { value, position })?;
    }
    Ok(ranks)
}

/// Inserts a rank into a table in order. If the table is full, its last rank is removed.
pub fn insert_rank(ranks: &mut Vec<Rank>, rank: Rank) -> Result<(), AllocError>
    ensures { OnOk result (ranks.new.items ≡ take 10 (insert_sorted rank_cmp rank ranks.old.items)) }
{
    let mut position = 0;
    while position < ranks.len() && is_after(&rank, &ranks[position]) {
        position += 1;
    }
    ranks.insert(position, rank)?;
    ranks.truncate(MAX_RANKS);
    Ok(())
}

// Whether a rank is after another.
fn is_after(rank: &Rank, other: &Rank) -> bool
    ensures { result ≡ is_gt (rank_cmp rank.now other.now) }
{
    rank.value < other.value || rank.value == other.value && rank.position > other.position
}
