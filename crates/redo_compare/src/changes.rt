//! What changed in the diagnostics of a target.
ghost use Rattle.std.specs.Prelude.{◌≡◌, length, IfOk, option_copied};
ghost use Rattle.redo_compare.specs.Changes.{all_or_none, gone_in_target, new_in_target};
ghost use Rattle.redo_compare.specs.Rounds.{picked};

use crate::found::Occurrence;
use crate::rounds::find_new;
use redo_line::HashKeys;
use std::alloc::{AllocError, Global};

/// What changed in the diagnostics of a target.
#[derive(Drop)]
pub struct Changes {
    /// For each occurrence now, in order: whether it is new.
    pub new: Vec<bool>,
    /// For each occurrence before, in order: whether it is gone.
    pub gone: Vec<bool>,
}

/// Compares the diagnostics of a target in two builds. A build that has no log of the target has none, and then nothing is gone.
///
/// Keys and source lines are hashed with `keys`. If these are random, nobody can choose diagnostics that collide, except a key and a source
/// line which are equal to others when joined. Each text can be split into as many such pairs as it has bytes. For n occurrences this
/// takes O(n) look-ups. It allocates up to some 250 bytes for each occurrence, and copies no key. The only error is that an allocation
/// failed.
pub fn compare<'a>(
    alloc: Global,
    keys: HashKeys,
    before: Option<&'a [Occurrence]>,
    now: Option<&'a [Occurrence]>,
) -> Result<Changes, AllocError>
    ensures new_count { IfOk result (λ changes. length changes.new.items ≡ length (all_or_none (option_copied now.entry))) }
    ensures gone_count { IfOk result (λ changes. length changes.gone.items ≡ length (all_or_none (option_copied before.entry))) }
    ensures new { IfOk result (λ changes. picked changes.new.items (all_or_none (option_copied now.entry))
        ≡ new_in_target (option_copied before.entry) (option_copied now.entry)) }
    ensures gone { IfOk result (λ changes. picked changes.gone.items (all_or_none (option_copied before.entry))
        ≡ gone_in_target (option_copied before.entry) (option_copied now.entry)) }
{
    let earlier = before.unwrap_or(&[]);
    let Some(now) = now else {
        return Ok(Changes {
            new: Vec::new(alloc),
            gone: vec![in alloc; false; earlier.len()]?,
        });
    };
    Ok(Changes {
        new: find_new(alloc, keys, earlier, now)?,
        gone: find_new(alloc, keys, now, earlier)?,
    })
}
