//! An index is one `indexmap` from names to log number and flag, in the order of the lines. `read_index` adds each line to
//! this map, and its number to a set that it drops at the end. A line is added before it is known to be valid, which saves a
//! look-up in set and map. A rejected index is dropped whole. The definition knows no maps: `fault_at` says why a line is
//! rejected after the lines before it. The invariant `Hold` relates the two. `Index::len` also states the invariant, because
//! callers can't see it.
ghost use Rattle.std.specs.Prelude.{◌≡◌, ◌<◌, ◌≤◌, ◌⊎◌, List, [], ◌∷◌, Some, None, nat_eq, length, position, slice_get, IfOk, IfErr, if◌then◌else◌};
ghost use Rattle.std.specs.Cmp.Lexicographic.{pointwise};
ghost use Rattle.std.specs.List.{IsDistinct};
ghost use Rattle.redo_line.specs.Lines.{all_lines};
ghost use Rattle.redo_index.specs.declared.index_fault.IndexFault.TheVariants.{OutOfMemory};
ghost use Rattle.redo_index.specs.declared.index_entry.IndexEntry.{IndexEntry};
ghost use Rattle.redo_index.specs.Index.{max_targets, numbers_of, listed_targets, must_close_flags, parse_fields, parse_line, parse_number, IsIndex, IsIndexOf, IsRejected};
ghost use Rattle.redo_index.specs.Private.Entries.{Hold, HoldMore, IsFaultAfter};

use crate::index_entry::IndexEntry;
use crate::index_fault::IndexFault;
use indexmap::{IndexMap, IndexSet};
use memchr::memchr;
use redo_line::{HashKeys, NameFault, TargetName, read_number};
use std::alloc::{AllocError, Global};
use std::marker::Model;

// The maximum number of targets in an index.
const MAX_TARGETS: usize = 1_048_575;

/// The targets of a capture directory, in the order in which they are listed. Each has a number, a name and a
/// must-close flag. No two targets have the same number or the same name, and there are at most 1,048,575.
pub struct Index {
    // Each target's log file, by the target's name.
    targets: IndexMap<TargetName, TargetLog, HashKeys>,
}

// This is written by hand: a derived `drop` would be expanded, and proved, wherever an index is dropped.
impl Drop for Index {
    fn drop(self) {
        let Index { targets: _targets } = self;
    }
}

/// The file of a target's log: its number, and whether the log must end with its closing record.
#[derive(Clone, Copy)]
struct TargetLog {
    number: u32,
    must_close: bool,
}

impl Model for Index {
    ghost use Rattle.std.specs.Prelude.{List};
    ghost use Rattle.redo_index.specs.declared.index_entry.IndexEntry.{IndexEntry};
    ghost use Rattle.redo_index.specs.Index.{IsIndex};
    ghost use Rattle.redo_index.specs.Private.Entries.{entries_of_pairs};

    ghost Value = { List IndexEntry };

    ghost view = { λ index. entries_of_pairs index.targets.entries };

    ghost invariant = { λ index. IsIndex (entries_of_pairs index.targets.entries) };
}

impl Index {
    /// Creates an empty index. It does not allocate.
    pub fn new(alloc: Global) -> Index
        ensures { result ≡ [] }
    {
        Index {
            targets: IndexMap::with_hasher(alloc, HashKeys::fixed()),
        }
    }

    /// Returns the keys by which the index hashes names.
    pub fn keys(&self) -> HashKeys {
        *self.targets.hasher()
    }

    /// Returns the number of targets, which is at most 1,048,575. No two have the same number or the same name.
    pub fn len(&self) -> u32
        ensures len { result ≡ length self.now }
        ensures index { IsIndex self.now }
    {
        self.targets.len() as u32
    }

    /// Returns the number of the target at position `i`. Positions are counted from 0, and `i` must be less than
    /// [`Index::len`].
    pub fn fid(&self, i: u32) -> u32
        requires { i < length self.now }
        ensures { slice_get (numbers_of self.now) i ≡ Some result }
    {
        self.targets[i as usize].number
    }

    /// Returns whether the stream of the target at position `i` must end with the log's closing record. Positions are
    /// counted from 0, and `i` must be less than [`Index::len`].
    pub fn must_close(&self, i: u32) -> bool
        requires { i < length self.now }
        ensures { slice_get (must_close_flags self.now) i ≡ Some result }
    {
        self.targets[i as usize].must_close
    }

    /// Returns the name of the target at position `i`. Positions are counted from 0, and `i` must be less than
    /// [`Index::len`].
    pub fn name(&self, i: u32) -> &TargetName
        requires { i < length self.now }
        ensures { slice_get (listed_targets self.now) i ≡ Some result.now }
    {
        match self.targets.get_index(i as usize) {
            Some((name, _)) => name,
            None => unreachable!(),
        }
    }

    /// Returns owned copies of all targets' names. No two are the same, and there are at most 1,048,575.
    pub fn names(&self, alloc: Global) -> Result<Vec<TargetName>, AllocError>
        ensures names { IfOk result (λ names. names.items ≡ listed_targets self.now) }
        ensures distinct { IfOk result (λ names. IsDistinct (pointwise nat_eq) names.items) }
        ensures size { IfOk result (λ names. length names.items ≤ max_targets) }
    {
        let mut names = Vec::with_capacity(alloc, self.targets.len())?;
        for i in 0..self.len() {
            names.push(self.name(i).copy(alloc)?)?;
        }
        Ok(names)
    }

    /// Returns for each target whether its stream must end with the log's closing record.
    pub fn must_close_flags(&self, alloc: Global) -> Result<Vec<bool>, AllocError>
        ensures { IfOk result (λ flags. flags.items ≡ must_close_flags self.now) }
    {
        let mut flags = Vec::with_capacity(alloc, self.targets.len())?;
        for i in 0..self.len() {
            flags.push(self.must_close(i))?;
        }
        Ok(flags)
    }

    /// Returns the position of the target with this name, if it is listed. The look-up is by hash.
    pub fn find(&self, name: &TargetName) -> Option<u32>
        ensures { result ≡ position (pointwise nat_eq name.now) (listed_targets self.now) }
    {
        match self.targets.get_index_of(name) {
            Some(i) => Some(i as u32),
            None => None,
        }
    }
}

/// Reads an index. Each line is a number, a space and a target's name; the must-close flag `!` may precede the
/// number. docs/format.md has the rules. A fault names the first line that can't be listed, with the first of its
/// causes. Numbers and names can be chosen to collide, which makes this slow: use [`read_index_with_keys`] if
/// somebody else may choose them.
pub fn read_index(alloc: Global, bytes: &[u8]) -> Result<Index, IndexFault>
    // If no line is rejected, all are listed: their numbers, their names and their must-close flags.
    ensures index { IfOk result (λ index. IsIndexOf (all_lines bytes.now) index) }
    ensures fault { IfErr result (λ fault. (fault ≡ OutOfMemory) ⊎ IsRejected (all_lines bytes.now) fault) }
{
    read_index_with_keys(alloc, HashKeys::fixed(), bytes)
}

/// Like [`read_index`], but hashes numbers and names with these keys. The result doesn't depend on the keys. The
/// index stores them ([`Index::keys`]).
pub fn read_index_with_keys(
    alloc: Global,
    keys: HashKeys,
    bytes: &[u8],
) -> Result<Index, IndexFault>
    // If no line is rejected, all are listed: their numbers, their names and their must-close flags.
    ensures index { IfOk result (λ index. IsIndexOf (all_lines bytes.now) index) }
    ensures fault { IfErr result (λ fault. (fault ≡ OutOfMemory) ⊎ IsRejected (all_lines bytes.now) fault) }
{
    let mut numbers = IndexSet::with_hasher(alloc, keys);
    let mut targets = IndexMap::with_hasher(alloc, keys);
    let mut left = bytes;
    'lines: while !left.is_empty() {
        let (line, rest) = first_line(left);
        add(alloc, &mut numbers, &mut targets, line)?;
        left = rest;
    }
    Ok(Index { targets })
}

// Returns the first line without its line feed, and the bytes after it.
fn first_line(bytes: &[u8]) -> (&[u8], &[u8])
    requires nonempty { 0 < length bytes.now }
    ensures line { all_lines bytes.now ≡ result.0.now ∷ all_lines result.1.now }
    ensures less { length result.1.now < length bytes.now }
{
    match memchr(b'\n', bytes) {
        Some(at) => (&bytes[..at], &bytes[at + 1..]),
        None => (bytes, b""),
    }
}

// Adds one more line.
fn add(
    alloc: Global,
    numbers: &mut IndexSet<u32, HashKeys>,
    targets: &mut IndexMap<TargetName, TargetLog, HashKeys>,
    line: &[u8],
) -> Result<(), IndexFault>
    ensures holds { (index : List IndexEntry) → Hold numbers.old.keys targets.old.entries index →
        IfOk result (λ _. HoldMore index line.now numbers.new.keys targets.new.entries) }
    ensures fault { (index : List IndexEntry) → Hold numbers.old.keys targets.old.entries index →
        IfErr result (λ fault. IsFaultAfter index line.now fault) }
{
    let line_number = numbers.len() as u64 + 1;
    let Some(
        IndexEntry {
            number,
            target,
            must_close,
        },
    ) = parse_line(alloc, line)?
    else {
        return Err(IndexFault::BadLine { line: line_number });
    };
    let (_, differs) = numbers.insert_full(number)?;
    if !differs {
        return Err(IndexFault::FidTwice { line: line_number });
    }
    let file = TargetLog { number, must_close };
    if targets.insert(target, file)?.is_some() {
        return Err(IndexFault::NameTwice { line: line_number });
    }
    if targets.len() > MAX_TARGETS {
        return Err(IndexFault::TooMany);
    }
    Ok(())
}

// Parses a line. Returns `None` if it isn't of the form.
fn parse_line(alloc: Global, line: &[u8]) -> Result<Option<IndexEntry>, AllocError>
    ensures { IfOk result (λ entry. entry ≡ parse_line line.now) }
{
    if !line.is_empty() && line[0] == b'!' {
        parse_fields(alloc, true, &line[1..])
    } else {
        parse_fields(alloc, false, line)
    }
}

// Parses a line, or its bytes after the must-close flag. `must_close` is the flag.
fn parse_fields(
    alloc: Global,
    must_close: bool,
    line: &[u8],
) -> Result<Option<IndexEntry>, AllocError>
    ensures { IfOk result (λ entry. entry ≡ parse_fields must_close line.now) }
{
    let Some(at) = memchr(b' ', line) else {
        return Ok(None);
    };
    let Some(number) = parse_number(&line[..at]) else {
        return Ok(None);
    };
    match TargetName::resolve(alloc, None, &line[at + 1..]) {
        Ok(target) => Ok(Some(IndexEntry {
            number,
            target,
            must_close,
        })),
        Err(NameFault::Empty) => Ok(None),
        Err(NameFault::OutOfMemory) => Err(AllocError),
    }
}

fn parse_number(bytes: &[u8]) -> Option<u32>
    ensures { result ≡ parse_number bytes.now }
{
    if bytes.is_empty() || bytes[0] == b'0' {
        return None;
    }
    match read_number(9, bytes) {
        Some(number) => Some(number as u32),
        None => None,
    }
}
