//! Names that were mentioned before.
ghost use Rattle.std.specs.Prelude.{◌≡◌, ◌++◌, ◌∷◌, ℕ, List, [], IfOk, OnOk, if◌then◌else◌, nat_eq};
ghost use Rattle.std.proofs.Common.{rules};
ghost use Rattle.std.specs.Cmp.{partial_equiv_from_equiv};
ghost use Rattle.std.specs.Cmp.Lexicographic.{nat_list_eq_equiv, pointwise};
ghost use Rattle.std.specs.Cmp.Rules.{hashing};
ghost use Rattle.redo_json.specs.Build.{name_if_new};
ghost use Rattle.redo_json.specs.Private.Needing.{AreKnownNames};

use indexmap::IndexSet;
use redo_line::HashKeys;
use std::alloc::{AllocError, Global};
use std::hash::{Hash, Hasher};
use std::marker::Model;

/// Names, each once. They are borrowed.
#[derive(Drop)]
pub struct NameSet<'a> {
    names: IndexSet<Name<'a>, HashKeys>,
}

impl<'a> Model for NameSet<'a> {
    ghost use Rattle.std.specs.Prelude.{ℕ, List};

    ghost Value = { List (List ℕ) };

    ghost view = { λ set. set.names.keys };
}

impl<'a> NameSet<'a> {
    /// Creates a set of no names, which are hashed with these keys. It does not allocate.
    pub fn new(alloc: Global, keys: HashKeys) -> NameSet<'a>
        ensures { AreKnownNames result [] }
    {
        NameSet {
            names: IndexSet::with_hasher(alloc, keys),
        }
    }

    /// Adds a name. Returns whether it is new. The only error is that an allocation failed.
    pub fn add(&mut self, name: &'a [u8]) -> Result<bool, AllocError>
        ensures new { (before : List (List ℕ)) → AreKnownNames self.old before → IfOk result (λ is_new.
            name_if_new name.now before ≡ (if is_new then name.now ∷ [] else [])) }
        ensures known { (before : List (List ℕ)) → AreKnownNames self.old before → OnOk result (
            AreKnownNames self.new (before ++ name.now ∷ [])) }
    {
        Ok(self.names.insert(Name { bytes: name })?)
    }
}

// A name in a set.
#[derive(Drop)]
struct Name<'a> {
    bytes: &'a [u8],
}

impl<'a> Model for Name<'a> {
    ghost use Rattle.std.specs.Prelude.{ℕ, List};

    ghost Value = { List ℕ };

    ghost view = { λ name. name.bytes.now };
}

impl<'a> PartialEq for Name<'a> {
    ghost eq = { λ a b. pointwise nat_eq a b };

    ghost laws = { partial_equiv_from_equiv nat_list_eq_equiv };

    fn eq(&self, other: &Name<'a>) -> bool {
        self.bytes == other.bytes
    }
}

impl<'a> Eq for Name<'a> {
    ghost laws = { nat_list_eq_equiv };
}

impl<'a> Hash for Name<'a> {
    ghost hash_input = { λ name. name ∷ [] };

    ghost respects_eq = { Prim.search (hashing, rules) };

    fn hash<H: Hasher>(&self, state: &mut H) {
        state.write(self.bytes);
    }
}
