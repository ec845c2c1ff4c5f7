//! What the recipes of a build used.
//!
//! The usage of a recipe that ran others has theirs in it, so a sum over both would count them twice. [`Summary::recipes`] has only
//! recipes that ran no others, as far as times are known.
//!
//! [`Summary::recipes`]: crate::Summary::recipes
ghost use Rattle.std.specs.Prelude.{◌≡◌, IfOk};
ghost use Rattle.redo_summary.specs.Private.Sums.{plus};
ghost use Rattle.redo_summary.specs.Usage.{known_usages, most_memory, peak_of, processor_of, usage_at, usage_of, used_by};

use crate::rank::Rank;
use crate::ranking::insert_rank;
use redo_facts::{Facts, Usage};
use redo_outline::Node;
use redo_timeline::Span;
use std::alloc::{AllocError, Global};
use std::marker::Model;

/// What some recipes used.
#[derive(Drop)]
pub struct UsageSummary {
    processor: Option<u64>,
    memory: Vec<Rank>,
}

impl Model for UsageSummary {
    ghost use Rattle.redo_summary.specs.Usage.{UsageFacts};

    ghost Value = { UsageFacts };

    ghost view = { λ summary. record { processor = summary.processor; memory = summary.memory.items } };
}

impl UsageSummary {
    /// Summarizes what some recipes used. The recipe of a span is the one of the node at its position, and the facts about it are at the
    /// position that is the number of its log. Nothing is known of a recipe past the end of the list. The only error is out of memory.
    ///
    /// For n recipes, this takes O(n) time.
    pub fn new(
        alloc: Global,
        nodes: &[Node],
        facts: &[Facts],
        recipes: &[Span],
    ) -> Result<UsageSummary, AllocError>
        ensures { IfOk result (λ summary. summary ≡ usage_of nodes.now facts.now recipes.now) }
    {
        let memory = most_memory(alloc, nodes, facts, recipes)?;
        Ok(UsageSummary {
            processor: processor_of(nodes, facts, recipes),
            memory,
        })
    }

    /// Returns the processor time that the recipes used whose usage is known, inside and outside of the kernel, in milliseconds: at
    /// most 2^64 - 1. It is `None` if the usage of none of them is known.
    pub fn processor(&self) -> Option<u64>
        ensures { result ≡ self.now.processor }
    {
        self.processor
    }

    /// Returns the ten recipes with the most memory, the one with the most first, and only those with any. A value is the most memory
    /// that one process had, in kilobytes of 1,024 bytes. If recipes had equally much, the one with the lowest position is first.
    pub fn memory(&self) -> &[Rank]
        ensures { result.now ≡ self.now.memory }
    {
        self.memory.as_slice()
    }
}

// Returns the processor time that recipes used, if any of it is known.
fn processor_of(nodes: &[Node], facts: &[Facts], recipes: &[Span]) -> Option<u64>
    ensures { result ≡ processor_of (known_usages nodes.now facts.now recipes.now) }
{
    let mut sum = None;
    for recipe in recipes {
        sum = plus(sum, used_by(nodes, facts, recipe));
    }
    sum
}

// Returns a sum of processor times, with the time of one more recipe.
fn plus(sum: Option<u64>, usage: Option<Usage>) -> Option<u64>
    ensures { result ≡ plus sum usage }
{
    match usage {
        Some(usage) => Some(
            sum.unwrap_or(0)
                .saturating_add(usage.user_ms)
                .saturating_add(usage.system_ms),
        ),
        None => sum,
    }
}

// Returns the recipes with the most memory.
fn most_memory(
    alloc: Global,
    nodes: &[Node],
    facts: &[Facts],
    recipes: &[Span],
) -> Result<Vec<Rank>, AllocError>
    ensures { IfOk result (λ ranks. ranks.items ≡ most_memory nodes.now facts.now recipes.now) }
{
    let mut ranks = Vec::new(alloc);
    for i in (0..recipes.len()).rev() {
        let value = peak_of(used_by(nodes, facts, &recipes[i]));
        if value == 0 {
            continue;
        }
        let position = recipes[i].position;
        insert_rank(&mut ranks, Rank { value, position })?;
    }
    Ok(ranks)
}

// Returns the most memory that one process of a recipe had, or 0 if it is unknown.
fn peak_of(usage: Option<Usage>) -> u64
    ensures { result ≡ peak_of usage }
{
    match usage {
        Some(usage) => usage.peak_kb,
        None => 0,
    }
}

// Returns what the recipe of a span used, if it is known.
fn used_by(nodes: &[Node], facts: &[Facts], recipe: &Span) -> Option<Usage>
    ensures { result ≡ used_by nodes.now facts.now recipe.now }
{
    match nodes.get(recipe.position) {
        Some(node) => usage_at(facts, node.number),
        None => None,
    }
}

// Returns what the recipe of the log with this number used, if it is known.
fn usage_at(facts: &[Facts], number: u32) -> Option<Usage>
    ensures { result ≡ usage_at facts.now number }
{
    match facts.get(number as usize) {
        Some(facts) => facts.usage(),
        None => None,
    }
}
