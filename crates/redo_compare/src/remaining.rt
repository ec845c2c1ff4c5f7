//! How many occurrences of each kind are left of an earlier log.
ghost use Rattle.std.specs.Prelude.{◌≡◌, ◌∷◌, ◌+◌, ◌-◌, ◌<◌, ◌^◌, ℕ, List, [], IfOk, OnOk, nat_lt};
ghost use Rattle.std.proofs.Common.{rules};
ghost use Rattle.std.specs.Cmp.{and_equiv, on_equiv, partial_equiv_from_equiv};
ghost use Rattle.std.specs.Cmp.Lexicographic.{nat_list_eq_equiv};
ghost use Rattle.std.specs.Cmp.Rules.{hashing};
ghost use Rattle.redo_compare.specs.Private.Remaining.{CountByKey, CountBySource, count_in, one_if, same_kind};

use crate::found::Occurrence;
use indexmap::IndexMap;
use redo_line::HashKeys;
use std::alloc::{AllocError, Global};
use std::hash::{Hash, Hasher};
use std::marker::Model;

// What occurrences are counted by.
#[derive(Drop)]
struct Kind<'a> {
    key: &'a [u8],
    source: &'a [u8],
}

impl<'a> Model for Kind<'a> {
    ghost use Rattle.std.specs.Prelude.{ℕ, List};

    ghost Value = { List ℕ × List ℕ };

    ghost view = { λ kind. (kind.key.now, kind.source.now) };
}

impl<'a> PartialEq for Kind<'a> {
    ghost eq = { same_kind };

    ghost laws = { partial_equiv_from_equiv (and_equiv (on_equiv (λ t. t.0) nat_list_eq_equiv) (on_equiv (λ t. t.1) nat_list_eq_equiv)) };

    fn eq(&self, other: &Kind<'a>) -> bool {
        self.key == other.key && self.source == other.source
    }
}

impl<'a> Eq for Kind<'a> {
    ghost laws = { and_equiv (on_equiv (λ t. t.0) nat_list_eq_equiv) (on_equiv (λ t. t.1) nat_list_eq_equiv) };
}

impl<'a> Hash for Kind<'a> {
    ghost hash_input = { λ kind. kind.0 ∷ kind.1 ∷ [] };

    ghost respects_eq = { Prim.search (hashing, rules) };

    fn hash<H: Hasher>(&self, state: &mut H) {
        state.write(self.key);
        state.write(self.source);
    }
}

/// How many occurrences are left of each kind. The keys and source lines are borrowed.
#[derive(Drop)]
pub struct Remaining<'a> {
    counts: IndexMap<Kind<'a>, usize, HashKeys>,
}

impl<'a> Model for Remaining<'a> {
    ghost use Rattle.std.specs.Prelude.{ℕ, List};

    ghost Value = { List ((List ℕ × List ℕ) × ℕ) };

    ghost view = { λ remaining. remaining.counts.entries };
}

impl<'a> Remaining<'a> {
    /// Counts occurrences by key and source line. Both are hashed with `keys`.
    pub fn by_source(
        alloc: Global,
        keys: HashKeys,
        occurrences: &'a [Occurrence],
    ) -> Result<Remaining<'a>, AllocError>
        ensures { IfOk result (λ remaining. CountBySource remaining occurrences.now) }
    {
        let mut remaining = Remaining::none(alloc, keys);
        for one in occurrences {
            remaining.add(one.key(), one.source())?;
        }
        Ok(remaining)
    }

    /// Counts occurrences by key. Keys are hashed with `keys`.
    pub fn by_key(
        alloc: Global,
        keys: HashKeys,
        occurrences: &'a [Occurrence],
    ) -> Result<Remaining<'a>, AllocError>
        ensures { IfOk result (λ remaining. CountByKey remaining occurrences.now) }
    {
        let mut remaining = Remaining::none(alloc, keys);
        for one in occurrences {
            remaining.add(one.key(), b"")?;
        }
        Ok(remaining)
    }

    fn none(alloc: Global, keys: HashKeys) -> Remaining<'a>
        ensures { result ≡ [] }
    {
        Remaining {
            counts: IndexMap::with_hasher(alloc, keys),
        }
    }

    fn add(&mut self, key: &'a [u8], source: &'a [u8]) -> Result<(), AllocError>
        requires few { count_in (key.now, source.now) self.old + 1 < 2 ^ 64 }
        ensures { OnOk result ((kind : List ℕ × List ℕ) →
            count_in kind self.new ≡ count_in kind self.old + one_if (same_kind (key.now, source.now) kind)) }
    {
        let kind = Kind { key, source };
        let before = self.counts.get(&kind).copied().unwrap_or(0);
        self.counts.insert(kind, before + 1)?;
        Ok(())
    }

    /// Takes an occurrence with this key and source line away, if one is left. Returns whether one was.
    pub fn take(&mut self, key: &'a [u8], source: &'a [u8]) -> bool
        ensures taken { result ≡ nat_lt 0 (count_in (key.now, source.now) self.old) }
        ensures left { (kind : List ℕ × List ℕ) →
            count_in kind self.new ≡ count_in kind self.old - one_if (same_kind (key.now, source.now) kind) }
    {
        match self.counts.get_mut(&Kind { key, source }) {
            Some(count) if *count > 0 => {
                *count -= 1;
                true
            }
            _ => false,
        }
    }
}
