//! Which occurrences are new. The head of `lib.rt` says what a round is.
ghost use Rattle.std.specs.Prelude.{◌≡◌, List, length, IfOk, OnOk};
ghost use Rattle.redo_compare.specs.Occurrences.{OccurrenceValue};
ghost use Rattle.redo_compare.specs.Rounds.{left_after, new_since, picked, same_key, same_source, unknown_in};
ghost use Rattle.redo_compare.specs.Private.Remaining.{CountByKey, CountBySource};

use crate::found::Occurrence;
use crate::remaining::Remaining;
use redo_line::HashKeys;
use std::alloc::{AllocError, Global};

/// Returns for each occurrence whether it is new since the earlier ones. Keys and source lines are hashed with `keys`.
pub fn find_new<'a>(
    alloc: Global,
    keys: HashKeys,
    earlier: &'a [Occurrence],
    now: &'a [Occurrence],
) -> Result<Vec<bool>, AllocError>
    ensures count { IfOk result (λ flags. length flags.items ≡ length now.now) }
    ensures new { IfOk result (λ flags. picked flags.items now.now ≡ new_since earlier.now now.now) }
{
    let mut by_source = Remaining::by_source(alloc, keys, earlier)?;
    let mut by_key = Remaining::by_key(alloc, keys, earlier)?;
    let unknown = first_round(alloc, &mut by_source, &mut by_key, now)?;
    second_round(alloc, &mut by_key, now, &unknown)
}

// The first round. Returns for each occurrence whether it is unknown, and removes the others from both counts.
fn first_round<'a>(
    alloc: Global,
    by_source: &mut Remaining<'a>,
    by_key: &mut Remaining<'a>,
    now: &'a [Occurrence],
) -> Result<Vec<bool>, AllocError>
    ensures count { IfOk result (λ flags. length flags.items ≡ length now.now) }
    ensures unknown { (earlier : List OccurrenceValue) → CountBySource by_source.old earlier → IfOk result (λ flags.
        picked flags.items now.now ≡ unknown_in same_source earlier now.now) }
    ensures left { (earlier : List OccurrenceValue) → CountBySource by_source.old earlier → CountByKey by_key.old earlier
        → OnOk result (CountByKey by_key.new (left_after same_source earlier now.now)) }
{
    let mut unknown = Vec::with_capacity(alloc, now.len())?;
    for one in now {
        let is_known = by_source.take(one.key(), one.source());
        if is_known {
            by_key.take(one.key(), b"");
        }
        unknown.push(!is_known)?;
    }
    Ok(unknown)
}

// The second round. Returns for each occurrence whether it was unknown and still is.
fn second_round<'a>(
    alloc: Global,
    by_key: &mut Remaining<'a>,
    now: &'a [Occurrence],
    unknown: &[bool],
) -> Result<Vec<bool>, AllocError>
    requires count { length unknown.now ≡ length now.now }
    ensures count { IfOk result (λ flags. length flags.items ≡ length now.now) }
    ensures new { (left : List OccurrenceValue) → CountByKey by_key.old left → IfOk result (λ flags.
        picked flags.items now.now ≡ unknown_in same_key left (picked unknown.now now.now)) }
{
    let mut new = Vec::with_capacity(alloc, now.len())?;
    for i in 0..now.len() {
        let is_known = !unknown[i] || by_key.take(now[i].key(), b"");
        new.push(!is_known)?;
    }
    Ok(new)
}
