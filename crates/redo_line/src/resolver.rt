//! Resolves the names in records to normal forms.
ghost use Rattle.std.specs.Prelude.{◌≡◌, ◌≢◌, ◌↔◌, [], Some, Err, IsTrue, OnOk};
ghost use Rattle.redo_name.specs.Names.{IsNormal, normal};
ghost use Rattle.redo_name.specs.declared.name.NameFault.TheVariants.{Empty};

use redo_name::{NameFault, TargetName, resolve_to};
use std::alloc::Global;
use std::marker::Model;
use std::snapshot::Snapshot;

/// Resolves the names in the records of a target's log. It is modelled as the target, which exists in contracts alone,
/// and the normal form that it computed last.
#[derive(Drop)]
pub struct Resolver {
    // `path` is the normal form of this name, unless the name is empty. Consecutive records often have the same name.
    name: Vec<u8>,
    path: Vec<u8>,
    target: Snapshot<TargetName>,
}

impl Model for Resolver {
    ghost use Rattle.redo_line.specs.Private.Resolver as spec;

    ghost Value = { spec.Resolver };

    ghost view = { λ r. record { target = r.target.value; path = r.path.items } };

    ghost invariant = { λ r. spec.IsOfLast r.target.value r.name.items r.path.items };
}

impl Resolver {
    /// Creates a resolver for the log of a target.
    pub fn new(alloc: Global, target: &TargetName) -> Resolver
        ensures { result.target ≡ target.now }
    {
        Resolver {
            name: Vec::new(alloc),
            path: Vec::new(alloc),
            target: Snapshot::of(target),
        }
    }

    /// Returns the normal form that was computed last.
    pub fn path(&self) -> &[u8]
        ensures { result.now ≡ self.now.path }
    {
        &self.path
    }

    /// Computes the normal form of a name in the log of `target`, which must be the same in every call. Fails with `Empty`
    /// exactly if the name is empty. After an error the last normal form is unspecified.
    pub fn resolve(&mut self, target: &TargetName, name: &[u8]) -> Result<(), NameFault>
        requires { self.old.target ≡ target.now }
        ensures ok { OnOk result (normal (Some target.now) name.now ≡ Some self.new.path) }
        ensures is_normal { OnOk result (IsNormal self.new.path) }
        ensures empty { (result ≡ Err Empty) ↔ (name.now ≡ []) }
        ensures target_unchanged { self.new.target ≡ self.old.target }
    {
        if self.is_last(name) {
            return Ok(());
        }
        self.name.clear();
        resolve_to(&mut self.path, Some(target), name)?;
        self.name.extend_from_slice(name)?;
        Ok(())
    }

    // Returns true only if `path` is the normal form of this name.
    fn is_last(&self, name: &[u8]) -> bool
        ensures nonempty { IsTrue result → name.now ≢ [] }
        ensures is { IsTrue result → normal (Some self.now.target) name.now ≡ Some self.now.path }
        ensures is_normal { IsTrue result → IsNormal self.now.path }
    {
        !name.is_empty() && self.name.as_slice() == name
    }
}
