ghost use Rattle.std.specs.Prelude.{◌≡◌, ◌<◌, ◌↔◌, [], ◌∷◌, Some, Err, IsTrue, IfOk, OnOk, length, option_copied, if◌then◌else◌};
ghost use Rattle.std.proofs.Common.{rules};
ghost use Rattle.std.specs.Cmp.Rules.{hashing};
ghost use Rattle.std.specs.Cmp.Lexicographic.{nat_list_eq_equiv, pointwise};
ghost use Rattle.std.specs.Cmp.{partial_equiv_from_equiv};
ghost use Rattle.std.specs.Prelude.{nat_eq};
ghost use Rattle.redo_name.specs.Names.{normal, segments, is_absolute, directory_of, IsNormal};
ghost use Rattle.redo_name.specs.Private.Path.{LeavesSame};
ghost use Rattle.redo_name.specs.declared.name.NameFault.TheVariants.{OutOfMemory};

use crate::normal_form::{add_segments, last_segment};
use std::alloc::{AllocError, AllocFailed, Global};
use std::hash::{Hash, Hasher};
use std::marker::Model;

/// Why a name can't be resolved.
#[derive(Clone, Copy, Debug, PartialEq, Eq)]
pub enum NameFault {
    /// The name is empty.
    Empty,
    /// An allocation failed.
    OutOfMemory,
}

impl From<AllocError> for NameFault {
    ghost from_gives = { λ _ fault. fault ≡ OutOfMemory };

    fn from(_: AllocError) -> NameFault {
        NameFault::OutOfMemory
    }
}

/// The name of a target, in normal form. It is modelled as its bytes.
#[derive(Debug, Drop)]
pub struct TargetName {
    bytes: Vec<u8>,
}

impl Model for TargetName {
    ghost use Rattle.std.specs.Prelude.{ℕ, List};
    ghost use Rattle.redo_name.specs.Names.{IsNormal};

    ghost Value = { List ℕ };

    ghost view = { λ name. name.bytes.items };

    ghost invariant = { λ name. IsNormal name.bytes.items };
}

impl TargetName {
    /// Returns the normal form of a name. If `of` is given, the name is from the log of that target
    /// and relative to the target's directory; otherwise it is relative to the base directory. An
    /// absolute name doesn't depend on `of`. The normal form is lexical; docs/format.md has the rule.
    ///
    /// Fails with `Empty` exactly if the name is empty.
    pub fn resolve(
        alloc: Global,
        target: Option<&TargetName>,
        name: &[u8],
    ) -> Result<TargetName, NameFault>
        ensures ok { IfOk result (λ resolved. normal (option_copied target.entry) name.now ≡ Some resolved) }
        ensures empty { (result ≡ Err NameFault.Empty) ↔ (name.now ≡ []) }
    {
        let mut bytes = Vec::new(alloc);
        resolve_to(&mut bytes, target, name)?;
        Ok(TargetName { bytes })
    }

    /// Returns the name with these bytes, which must be a normal form.
    pub fn of_normal(alloc: Global, bytes: &[u8]) -> Result<TargetName, AllocError>
        requires { IsNormal bytes.now }
        ensures { IfOk result (λ name. name ≡ bytes.now) }
    {
        Ok(TargetName {
            bytes: bytes.to_vec(alloc)?,
        })
    }

    /// Returns the bytes of the name, which are a normal form.
    pub fn bytes(&self) -> &[u8]
        ensures bytes { result.now ≡ self.now }
        ensures normal { IsNormal self.now }
    {
        &self.bytes
    }

    /// Returns whether both names are equal byte for byte, and so name the same target.
    pub fn same(&self, other: &TargetName) -> bool
        ensures { IsTrue result ↔ (self.now ≡ other.now) }
    {
        self == other
    }

    /// Returns an owned copy of the name.
    pub fn copy(&self, alloc: Global) -> Result<TargetName, AllocError>
        ensures { IfOk result (λ copy. copy ≡ self.now) }
    {
        TargetName::of_normal(alloc, self.bytes())
    }
}

/// Replaces the contents of `path` by the normal form of a name, by the rule of [`TargetName::resolve`].
/// [`TargetName::of_normal`] makes a name from these bytes.
///
/// Fails with `Empty` exactly if the name is empty. After an error the contents of `path` are
/// unspecified, and it may be used again.
pub fn resolve_to(
    path: &mut Vec<u8>,
    target: Option<&TargetName>,
    name: &[u8],
) -> Result<(), NameFault>
    ensures ok { OnOk result (normal (option_copied target.entry) name.now ≡ Some path.new.items) }
    ensures is_normal { OnOk result (IsNormal path.new.items) }
    ensures empty { (result ≡ Err NameFault.Empty) ↔ (name.now ≡ []) }
{
    if name.is_empty() {
        return Err(NameFault::Empty);
    }
    normal_form(path, target, name)?;
    Ok(())
}

fn normal_form(
    path: &mut Vec<u8>,
    target: Option<&TargetName>,
    name: &[u8],
) -> Result<(), AllocError>
    requires nonempty { 0 < length name.now }
    ensures { OnOk result (normal (option_copied target.entry) name.now ≡ Some path.new.items) }
{
    let (absolute, directory) = directory(target, name);
    let room = directory.len().saturating_add(name.len()).saturating_add(1);
    path.clear();
    path.reserve(room)?;
    add_segments(path, absolute, directory)?;
    add_segments(path, absolute, name)?;
    if path.is_empty() {
        path.push(root_or_dot(absolute))?;
    }
    Ok(())
}

// Returns the single byte of a normal form without segments: `/` for the root, `.` for the base directory.
fn root_or_dot(absolute: bool) -> u8
    ensures { result ≡ (if absolute then 47 else 46) }
{
    if absolute { b'/' } else { b'.' }
}

// Returns the directory that a name is relative to: whether it is absolute, and its name.
fn directory<'a>(target: Option<&'a TargetName>, name: &[u8]) -> (bool, &'a [u8])
    ensures absolute { result.0 ≡ (directory_of (is_absolute name.now) (option_copied target.entry)).0 }
    ensures segments { LeavesSame (segments result.1.now) (directory_of (is_absolute name.now) (option_copied target.entry)).1 }
{
    if begins_with_slash(name) {
        return (true, b"");
    }
    match target {
        None => (false, b""),
        Some(target) => {
            let bytes = target.bytes();
            let (above, _) = last_segment(bytes);
            (begins_with_slash(bytes), &bytes[..above])
        }
    }
}

fn begins_with_slash(name: &[u8]) -> bool
    ensures { result ≡ is_absolute name.now }
{
    !name.is_empty() && name[0] == b'/'
}

// Names are compared and hashed by their bytes.
impl PartialEq for TargetName {
    ghost eq = { λ a b. pointwise nat_eq a b };

    ghost laws = { partial_equiv_from_equiv nat_list_eq_equiv };

    fn eq(&self, other: &TargetName) -> bool {
        self.bytes() == other.bytes()
    }
}

impl Eq for TargetName {
    ghost laws = { nat_list_eq_equiv };
}

impl Hash for TargetName {
    ghost hash_input = { λ name. name ∷ [] };

    ghost respects_eq = { Prim.search (hashing, rules) };

    fn hash<H: Hasher>(&self, state: &mut H) {
        state.write(self.bytes());
    }
}
