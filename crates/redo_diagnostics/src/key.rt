//! The key of a diagnostic.
ghost use Rattle.std.specs.Prelude.{◌≡◌, ◌≢◌, false, ◌++◌, IfOk, codes, nat_eq};
ghost use Rattle.std.specs.Char.{is_ascii_alphanumeric};
ghost use Rattle.std.specs.Cow.{cow_slice_items};
ghost use Rattle.std.specs.Cmp.{partial_equiv_from_equiv};
ghost use Rattle.std.specs.Cmp.Lexicographic.{nat_list_eq_equiv, pointwise};
ghost use Rattle.std.specs.Cmp.Rules.{hashing};
ghost use Rattle.std.specs.List.{AllByRecursion, list_all};
ghost use Rattle.std.proofs.Common.{rules};
ghost use Rattle.redo_line.specs.Record.{colon};
ghost use Rattle.redo_diagnostics.specs.Keys.{hash_parts};
ghost use Rattle.redo_diagnostics.specs.Diagnostic as spec;

use crate::split::split_text;
use std::alloc::{AllocError, Global};
use std::borrow::CowSlice;
use std::hash::{Hash, Hasher};
use std::marker::Model;

/// The key of a diagnostic. It borrows from the line, except where names of temporary files are replaced in it.
#[derive(Drop)]
pub struct Key<'a> {
    // The file or program. It has no colon.
    origin: CowSlice<'a, u8>,
    // The bytes from the word on.
    tail: CowSlice<'a, u8>,
}

impl<'a> Model for Key<'a> {
    ghost use Rattle.std.specs.Prelude.{◌≢◌, ◌++◌, ℕ, List, codes};
    ghost use Rattle.std.specs.Cow.{cow_slice_items};
    ghost use Rattle.std.specs.List.{AllByRecursion};
    ghost use Rattle.redo_line.specs.Record.{colon};

    ghost Value = { List ℕ };

    ghost view = { λ key. cow_slice_items key.origin ++ codes ": " ++ cow_slice_items key.tail };

    ghost invariant = { λ key. AllByRecursion (λ byte. byte ≢ colon) (cow_slice_items key.origin) };
}

impl<'a> Key<'a> {
    /// Returns the file or program, and what follows the colon and the space after it.
    pub fn parts(&self) -> (&[u8], &[u8])
        ensures { self.now ≡ result.0.now ++ codes ": " ++ result.1.now }
    {
        (self.origin.as_slice(), self.tail.as_slice())
    }

    /// Returns a copy of its bytes.
    pub fn to_vec(&self, alloc: Global) -> Result<Vec<u8>, AllocError>
        ensures { IfOk result (λ bytes. bytes.items ≡ self.now) }
    {
        let (origin, tail) = self.parts();
        let size = origin.len().saturating_add(tail.len()).saturating_add(2);
        let mut bytes = Vec::with_capacity(alloc, size)?;
        bytes.extend_from_slice(origin)?;
        bytes.extend_from_slice(b": ")?;
        bytes.extend_from_slice(tail)?;
        Ok(bytes)
    }

    /// Returns a key with the same bytes that borrows nothing.
    pub fn to_owned<'b>(&self, alloc: Global) -> Result<Key<'b>, AllocError>
        ensures { IfOk result (λ key. key ≡ self.now) }
    {
        Ok(Key {
            origin: CowSlice::Owned(self.origin.as_slice().to_vec(alloc)?),
            tail: CowSlice::Owned(self.tail.as_slice().to_vec(alloc)?),
        })
    }
}

impl<'a> PartialEq for Key<'a> {
    ghost eq = { λ a b. pointwise nat_eq a b };

    ghost laws = { partial_equiv_from_equiv nat_list_eq_equiv };

    fn eq(&self, other: &Key<'a>) -> bool {
        self.tail.as_slice() == other.tail.as_slice()
            && self.origin.as_slice() == other.origin.as_slice()
    }
}

impl<'a> Eq for Key<'a> {
    ghost laws = { nat_list_eq_equiv };
}

impl<'a> Hash for Key<'a> {
    ghost hash_input = { hash_parts };

    ghost respects_eq = { Prim.search (hashing, rules) };

    fn hash<H: Hasher>(&self, state: &mut H) {
        state.write(self.tail.as_slice());
        state.write(self.origin.as_slice());
    }
}

/// Returns the key of a diagnostic, from the file or program that it names, and the bytes from its word on. It allocates only if it
/// replaces a name.
pub fn key_of<'a>(alloc: Global, origin: &'a [u8], tail: &'a [u8]) -> Result<Key<'a>, AllocError>
    requires { AllByRecursion (λ byte. byte ≢ colon) origin.now }
    ensures { IfOk result (λ key. key ≡ spec.masked (origin.now ++ codes ": " ++ tail.now)) }
{
    Ok(Key {
        origin: without_temporaries(alloc, origin)?,
        tail: without_temporaries(alloc, tail)?,
    })
}

/// Does the same for parts that have no name of a temporary file.
pub fn simple_key<'a>(origin: &'a [u8], tail: &'a [u8]) -> Key<'a>
    requires free { AllByRecursion (λ byte. byte ≢ colon) origin.now }
    requires origin { spec.masked origin.now ≡ origin.now }
    requires tail { spec.masked tail.now ≡ tail.now }
    ensures { result ≡ spec.masked (origin.now ++ codes ": " ++ tail.now) }
{
    Key {
        origin: CowSlice::Borrowed(origin),
        tail: CowSlice::Borrowed(tail),
    }
}

// Returns a text in which the names of temporary files are replaced.
fn without_temporaries(alloc: Global, text: &[u8]) -> Result<CowSlice<'_, u8>, AllocError>
    ensures { IfOk result (λ bytes. cow_slice_items bytes ≡ spec.masked text.now) }
{
    if has_temporary(text) {
        Ok(CowSlice::Owned(masked(alloc, text)?))
    } else {
        Ok(CowSlice::Borrowed(text))
    }
}

// Returns true unless no name of a temporary file is in a text, which then has nothing to replace.
fn has_temporary(text: &[u8]) -> bool
    ensures { result ≡ false → spec.masked text.now ≡ text.now }
{
    let mut left = text;
    'slashes: while let Some((_, behind)) = split_text(b'/', left) {
        if begins_temporary(behind) {
            return true;
        }
        left = behind;
    }
    false
}

// Returns a text in which the random part of each temporary file's name is `*`.
fn masked(alloc: Global, text: &[u8]) -> Result<Vec<u8>, AllocError>
    ensures { IfOk result (λ key. key.items ≡ spec.masked text.now) }
{
    let mut key = Vec::with_capacity(alloc, text.len())?;
    let mut left = text;
    'slashes: while let Some((front, behind)) = split_text(b'/', left) {
        key.extend_from_slice(front)?;
        if begins_temporary(behind) {
            key.extend_from_slice(b"/cc*")?;
            left = &behind[8..];
        } else {
            key.push(b'/')?;
            left = behind;
        }
    }
    key.extend_from_slice(left)?;
    Ok(key)
}

// Returns whether these bytes, after a slash, begin with `cc`, six letters or digits, and a period.
fn begins_temporary(bytes: &[u8]) -> bool
    ensures { result ≡ spec.begins_temporary bytes.now }
{
    if bytes.len() < 9 {
        return false;
    }
    &bytes[..2] == b"cc".as_slice() && are_alphanumeric(&bytes[2..8]) && bytes[8] == b'.'
}

fn are_alphanumeric(bytes: &[u8]) -> bool
    ensures { result ≡ list_all is_ascii_alphanumeric bytes.now }
{
    bytes.iter().all(|&byte| byte.is_ascii_alphanumeric())
}
