//! Builds a normal form from the front. A path holds the segments kept so far, each after a slash;
//! a relative path has no slash before its first segment.
//!
//! The definition `normal` is a recursion that in effect works from the last segment. This code works from the first one: it
//! appends a segment after a slash, and removes one by truncating at the last slash. `Path` relates the two: for all
//! segments that follow, the path and the segments so far give the same normal form.
//!
//! The path reserves capacity for directory and name first, so a name allocates once. For `..`, a list of segment offsets
//! would need a second allocation. Names are split by `find_byte` of `bstr`. Its search for substrings starts from scratch
//! for each name, which took a fifth of the time for many records.
ghost use Rattle.std.specs.Prelude.{◌≡◌, ℕ, ◌↔◌, ◌<◌, ◌≤◌, List, [], ◌∷◌, ◌++◌, IsTrue, IfNone, IfSome, OnOk, length, take};
ghost use Rattle.redo_name.specs.Names.{slash, segment_kind, Skipped, Upward, segments, HasNoSlash};
ghost use Rattle.redo_name.specs.Private.Path.{Adds, CanPop, with_separator};

use bstr::ByteSlice;
use memchr::memrchr;
use std::alloc::AllocError;

/// Adds the segments of a name to a path.
pub fn add_segments(path: &mut Vec<u8>, absolute: bool, name: &[u8]) -> Result<(), AllocError>
    ensures { OnOk result (Adds absolute path.old.items (segments name.now) path.new.items) }
{
    let mut left = name;
    'segments: while let Some((segment, behind)) = first_segment(left) {
        add_segment(path, absolute, segment)?;
        left = behind;
    }
    add_segment(path, absolute, left)?;
    Ok(())
}

// Returns the bytes before and after the first slash, if there is one.
fn first_segment(name: &[u8]) -> Option<(&[u8], &[u8])>
    ensures first { IfSome result (λ parts. segments name.now ≡ parts.0.now ∷ segments parts.1.now) }
    ensures free { IfSome result (λ parts. HasNoSlash parts.0.now) }
    ensures less { IfSome result (λ parts. length parts.1.now < length name.now) }
    ensures none { IfNone result (HasNoSlash name.now) }
{
    match name.find_byte(b'/') {
        Some(at) => Some((&name[..at], &name[at + 1..])),
        None => None,
    }
}

fn add_segment(path: &mut Vec<u8>, absolute: bool, segment: &[u8]) -> Result<(), AllocError>
    ensures { OnOk result (Adds absolute path.old.items (segment.now ∷ []) path.new.items) }
{
    if is_skipped(segment) {
        return Ok(());
    }
    if is_upward(segment) {
        return apply_upward(path, absolute, segment);
    }
    push_segment(path, absolute, segment)
}

// Adds `..`, which removes the last segment if there is one other than `..`. Without such a segment an absolute path
// stays unchanged, because the root has no parent directory, and `..` is appended to a relative path.
fn apply_upward(path: &mut Vec<u8>, absolute: bool, segment: &[u8]) -> Result<(), AllocError>
    ensures { OnOk result (segment_kind segment.now ≡ Upward → Adds absolute path.old.items (segment.now ∷ []) path.new.items) }
{
    match parent_len(path) {
        Some(above) => {
            path.truncate(above);
            Ok(())
        }
        None if absolute => Ok(()),
        None => push_segment(path, absolute, segment),
    }
}

// Returns the length of a path without its last segment and the slash before it; `None` if `..` can't remove a segment.
fn parent_len(path: &[u8]) -> Option<usize>
    ensures { CanPop path.now result }
{
    let (above, last) = last_segment(path);
    if path.is_empty() || is_upward(last) {
        return None;
    }
    Some(above)
}

fn push_segment(path: &mut Vec<u8>, absolute: bool, segment: &[u8]) -> Result<(), AllocError>
    ensures { OnOk result (path.new.items ≡ with_separator absolute path.old.items ++ segment.now) }
{
    if absolute || !path.is_empty() {
        path.push(b'/')?;
    }
    path.extend_from_slice(segment)
}

fn is_skipped(segment: &[u8]) -> bool
    ensures { IsTrue result ↔ (segment_kind segment.now ≡ Skipped) }
{
    segment.is_empty() || segment == b".".as_slice()
}

fn is_upward(segment: &[u8]) -> bool
    ensures { IsTrue result ↔ (segment_kind segment.now ≡ Upward) }
{
    segment == b"..".as_slice()
}

/// Returns the number of bytes before the last slash, and the bytes after it. Without a slash
/// these are 0 and the whole name.
pub fn last_segment(name: &[u8]) -> (usize, &[u8])
    ensures slash { (front last : List ℕ) → HasNoSlash last → name.now ≡ front ++ slash ∷ last →
        (result.0 ≡ length front) × (result.1.now ≡ last) }
    ensures none { HasNoSlash name.now → (result.0 ≡ 0) × (result.1.now ≡ name.now) }
    ensures bound { result.0 ≤ length name.now }
{
    match memrchr(b'/', name) {
        Some(at) => (at, &name[at + 1..]),
        None => (0, name),
    }
}
