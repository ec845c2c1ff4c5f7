ghost use Rattle.std.specs.Prelude.{◌≡◌, ◌∷◌, ◌++◌, ℕ, List, [], IfErr, IfOk, OnOk};
ghost use Rattle.redo_diagnostics.specs.Counts.{AreCounts, stored, times_of};

use crate::key::Key;
use indexmap::IndexMap;
use redo_line::HashKeys;
use std::alloc::{AllocError, Global};
use std::marker::Model;

/// How often each key occurred in a log so far.
#[derive(Drop)]
pub struct KeyCounts<'a> {
    counts: IndexMap<Key<'a>, u64, HashKeys>,
}

impl<'a> Model for KeyCounts<'a> {
    ghost use Rattle.std.specs.Prelude.{ℕ, List};

    ghost Value = { List (List ℕ × ℕ) };

    ghost view = { λ counts. counts.counts.entries };
}

impl<'a> KeyCounts<'a> {
    /// Creates counts of no keys, which are hashed with these hash keys. It does not allocate.
    pub fn new(alloc: Global, keys: HashKeys) -> KeyCounts<'a>
        ensures { AreCounts result [] }
    {
        KeyCounts {
            counts: IndexMap::with_hasher(alloc, keys),
        }
    }

    /// Forgets all keys. It keeps its memory.
    pub fn clear(&mut self)
        ensures { AreCounts self.new [] }
    {
        self.counts.clear();
    }

    /// Counts a key, and returns how often it occurred before. The key is hashed once, and stored if it is new. The only error is that an
    /// allocation failed; then nothing changes.
    pub fn add(&mut self, key: Key<'a>) -> Result<u64, AllocError>
        ensures before { (keys : List (List ℕ)) → AreCounts self.old keys → IfOk result (λ before.
            before ≡ stored (times_of key.entry keys)) }
        ensures counted { (keys : List (List ℕ)) → AreCounts self.old keys → OnOk result (AreCounts self.new (keys ++ key.entry ∷ [])) }
        ensures unchanged { IfErr result (λ error. self.new ≡ self.old) }
    {
        let entry = self.counts.entry(key)?;
        let count = entry.or_insert(0);
        let before = *count;
        *count = before.saturating_add(1);
        Ok(before)
    }
}
