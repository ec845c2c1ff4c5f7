//! Storage that the entries of all logs share: their texts, contiguous in blocks, and their names, each once.
//!
//! Texts are contiguous in one byte vector, block 0, each with a line feed, so consecutive lines are one slice. If the texts
//! of a batch have at least 1,024 bytes and fill half of their buffer, the table takes ownership of it as another block
//! (`taken`). This saves the collector the copying, and the senders are the first to touch the memory. Smaller texts are
//! copied: a block costs 24 bytes and may be half empty.
//!
//! Every name that a record mentions, and every log's own target, is in an `indexmap` set. A name's number is its position;
//! `places` maps it to the number of the target's log, if there is one. A name is first compared with the last one found,
//! which costs a tenth of a hash look-up and often succeeds. Offsets and numbers of names are as wide as an address, so
//! memory runs out before one overflows.
ghost use Rattle.std.specs.Prelude.{◌≡◌, ◌+◌, ◌<◌, ◌≤◌, ◌^◌, ◌++◌, [], ◌∷◌, Some, nat_eq, length, drop, position, slice_get, IfOk, IfSome};
ghost use Rattle.std.specs.List.{AllByRecursion, flat_map};
ghost use Rattle.std.specs.Cmp.Lexicographic.{pointwise};
ghost use Rattle.redo_line.specs.Entries.{IsWithin, entries_at_place};
ghost use Rattle.redo_line.specs.Lines.{HasNoLineFeed};
ghost use Rattle.redo_name.specs.Names.{IsNormal};
ghost use Rattle.redo_line.specs.declared.entry.Entry.TheVariants.{Note, Text};
ghost use Rattle.redo_logs.specs.EntryRef.{entry_value};
ghost use Rattle.redo_logs.specs.Numbering.{IsNumbered, numbered_value};
ghost use Rattle.redo_logs.specs.Private.Store.{AreLinesOf, Extends, HasNumber, IsNoteWithin, IsTexts, Within, block_of, count_in, no_parts, note_value, denotes};

use crate::entry_ref::EntryRef;
use crate::lines::{first_line, skip_lines};
use crate::numbered::NumberedEntry;
use indexmap::{Equivalent, IndexSet};
use redo_line::{Entries, Entry, EntryAt, HashKeys, How, TargetName};
use std::alloc::{AllocError, Global};
use std::hash::{Hash, Hasher};
use std::marker::Model;

/// Stored entries of a log: consecutive text lines, or one other entry. It refers to texts, names and notes in a
/// [`Store`].
#[derive(Clone, Copy)]
pub enum PackedEntries {
    /// The bytes `start..end` of a block: this number of text lines, each with its line feed.
    Texts {
        lines: u16,
        block: u32,
        start: usize,
        end: usize,
    },
    Mention {
        pid: u32,
        how: How,
        name: usize,
    },
    Done {
        pid: u32,
        status: i32,
        name: usize,
    },
    Closing {
        pid: u32,
        status: i32,
    },
    Note {
        note: usize,
    },
}

// The memory, besides the texts, for consecutive text lines of a batch, and for any other entry.
const _: () = prove!(std::mem::size_of::<PackedEntries>() == 24);

impl PackedEntries {
    /// Returns the number of entries.
    pub fn count(&self) -> usize
        ensures is { result ≡ count_in self.now }
        ensures at_most { result < 2 ^ 16 }
    {
        match self {
            PackedEntries::Texts { lines, .. } => *lines as usize,
            _ => 1,
        }
    }
}

/// A note: its pid, and where its kind (`start..middle`) and its text (`middle..end`) are in a block.
#[derive(Clone, Copy)]
pub struct NoteSpan {
    pid: u32,
    block: u32,
    start: usize,
    middle: usize,
    end: usize,
}

// The maximum number of blocks in `taken`: the number of a block is a `u32`.
const MAX_BLOCKS: usize = 4_294_967_295;

// The bytes of a name, to look it up without a `TargetName`.
#[derive(Clone, Copy, PartialEq, Eq)]
struct NameBytes<'a> {
    bytes: &'a [u8],
}

impl<'a> Hash for NameBytes<'a> {
    ghost use Rattle.std.proofs.Common.{rules};
    ghost use Rattle.std.specs.Cmp.Rules.{hashing};

    ghost hash_input = { λ query. query.bytes.now ∷ [] };

    ghost respects_eq = { Prim.search (hashing, rules) };

    // Hashes the same bytes as a `TargetName` does.
    fn hash<H: Hasher>(&self, state: &mut H) {
        state.write(self.bytes);
    }
}

impl<'a> Equivalent<TargetName> for NameBytes<'a> {
    ghost use Rattle.std.proofs.Common.{ap, sym};
    ghost use Rattle.std.specs.Cmp.Lexicographic.{nat_list_eq_equiv, same_text};

    ghost equivalent = { λ query name. pointwise nat_eq query.bytes.now name };

    ghost respects_hash = { λ query name is. ap (λ bytes. bytes ∷ []) (same_text query.bytes.now name (sym is)) };

    ghost respects_eq = { λ query one other. nat_list_eq_equiv.congr query.bytes.now one other };

    fn equivalent(&self, name: &TargetName) -> bool {
        self.bytes == name.bytes()
    }
}

/// The stored texts, notes and names. The texts, and the kinds and texts of notes, are in blocks, which are numbered
/// from 0.
#[derive(Drop)]
pub struct Store {
    // Block 0, to which texts are copied.
    bytes: Vec<u8>,
    // The other blocks: buffers with large texts, which the table took ownership of instead of copying them.
    taken: Vec<Vec<u8>>,
    notes: Vec<NoteSpan>,
    names: IndexSet<TargetName, HashKeys>,
    // The number of the name that was looked up last. Consecutive records often have the same name.
    last: usize,
}

impl Model for Store {
    ghost use Rattle.std.specs.Prelude.{map};
    ghost use Rattle.redo_logs.specs.Private.Store.{Parts};

    ghost Value = { Parts };

    ghost view = { λ store. record {
      bytes = store.bytes.items;
      taken = map (λ block. block.items) store.taken.items;
      notes = store.notes.items;
      names = store.names.keys;
    } };
}

impl Store {
    pub fn new(alloc: Global, keys: HashKeys) -> Store
        ensures { result ≡ no_parts }
    {
        Store {
            bytes: Vec::new(alloc),
            taken: Vec::new(alloc),
            notes: Vec::new(alloc),
            names: IndexSet::with_hasher(alloc, keys),
            last: 0,
        }
    }

    /// Stores an entry. Entries that were stored before stay the same. If this fails, parts of the entry may be stored,
    /// but no `PackedEntries` refers to them.
    pub fn store(&mut self, entry: Entry) -> Result<PackedEntries, AllocError>
        ensures extends { Extends self.old self.new }
        ensures within { IfOk result (Within self.new) }
        ensures denotes { IfOk result (λ packed. denotes self.new packed ≡ entry ∷ []) }
    {
        match entry {
            Entry::Text(line) => self.store_line(line.bytes()),
            Entry::Mention { pid, how, name } => {
                let name = self.intern(name)?;
                Ok(PackedEntries::Mention { pid, how, name })
            }
            Entry::Done { pid, status, name } => {
                let name = self.intern(name)?;
                Ok(PackedEntries::Done { pid, status, name })
            }
            Entry::Closing { pid, status } => Ok(PackedEntries::Closing { pid, status }),
            Entry::Note { pid, kind, text } => self.store_note(pid, kind.bytes(), text.bytes()),
        }
    }

    /// Stores entries. Entries that were stored before stay the same. If this fails, parts of the entries may be
    /// stored, but no `PackedEntries` refers to them.
    pub fn store_all(
        &mut self,
        alloc: Global,
        entries: Entries,
    ) -> Result<Vec<PackedEntries>, AllocError>
        ensures extends { Extends self.old self.new }
        ensures within { IfOk result (λ records. AllByRecursion (Within self.new) records.items) }
        ensures denotes { IfOk result (λ records. flat_map (denotes self.new) records.items ≡ entries) }
    {
        let (texts, names, places) = entries.into_pieces();
        let (block, shift) = self.store_texts(texts)?;
        let mut records = Vec::with_capacity(alloc, places.len())?;
        for place in &places {
            let record = self.store_at(alloc, &names, block, shift, *place)?;
            records.push(record)?;
        }
        Ok(records)
    }

    // Stores texts and kinds: takes ownership of their buffer, or else appends them to block 0. Returns the number of
    // their block, and the number of bytes before them in it.
    fn store_texts(&mut self, texts: Vec<u8>) -> Result<(u32, usize), AllocError>
        ensures extends { Extends self.old self.new }
        ensures block { IfOk result (λ at. at.0 ≤ length self.new.taken) }
        ensures offset { IfOk result (λ at. at.1 ≤ length (block_of self.new at.0)) }
        ensures texts { IfOk result (λ at. drop at.1 (block_of self.new at.0) ≡ texts.items) }
        ensures no_overflow { IfOk result (λ at. length (block_of self.new at.0) < 2 ^ 64) }
    {
        if is_worth_adopting(&texts) && self.taken.len() < MAX_BLOCKS {
            return Ok((self.adopt_block(texts)?, 0));
        }
        let (start, _) = self.put(&texts)?;
        Ok((0, start))
    }

    // Takes ownership of a buffer, and returns the number of its block.
    fn adopt_block(&mut self, texts: Vec<u8>) -> Result<u32, AllocError>
        requires { length self.old.taken < 4294967295 }
        ensures extends { Extends self.old self.new }
        ensures number { IfOk result (λ number. number ≡ length self.new.taken) }
        ensures texts { IfOk result (λ number. block_of self.new number ≡ texts.items) }
        ensures no_overflow { length texts.items < 2 ^ 64 }
    {
        self.taken.push(texts)?;
        Ok(self.taken.len() as u32)
    }

    // Stores one of several entries, or consecutive text lines. Positions in `place` refer to `names` for a name, and
    // otherwise to this block from byte `shift` on.
    fn store_at(
        &mut self,
        alloc: Global,
        names: &[u8],
        block: u32,
        shift: usize,
        place: EntryAt,
    ) -> Result<PackedEntries, AllocError>
        requires within { IsWithin (drop shift (block_of self.old block)) names.now place }
        requires block { block ≤ length self.old.taken }
        requires offset { shift ≤ length (block_of self.old block) }
        requires no_overflow { length (block_of self.old block) < 2 ^ 64 }
        ensures extends { Extends self.old self.new }
        ensures blocks { (self.new.bytes ≡ self.old.bytes) × (self.new.taken ≡ self.old.taken) }
        ensures within { IfOk result (Within self.new) }
        ensures denotes { IfOk result (λ packed. denotes self.new packed
            ≡ entries_at_place (drop shift (block_of self.old block)) names.now place) }
    {
        match place {
            EntryAt::Texts { lines, start, end } => Ok(PackedEntries::Texts {
                lines,
                block,
                start: shift + start,
                end: shift + end,
            }),
            EntryAt::Mention {
                pid,
                how,
                start,
                end,
            } => {
                let number = self.intern_bytes(alloc, &names[start..end])?;
                Ok(PackedEntries::Mention {
                    pid,
                    how,
                    name: number,
                })
            }
            EntryAt::Done {
                pid,
                status,
                start,
                end,
            } => {
                let number = self.intern_bytes(alloc, &names[start..end])?;
                Ok(PackedEntries::Done {
                    pid,
                    status,
                    name: number,
                })
            }
            EntryAt::Closing { pid, status } => Ok(PackedEntries::Closing { pid, status }),
            EntryAt::Note {
                pid,
                start,
                middle,
                end,
            } => self.note_at(NoteSpan {
                pid,
                block,
                start: shift + start,
                middle: shift + middle,
                end: shift + end,
            }),
        }
    }

    // Appends a text to block 0, and returns where it begins and ends.
    fn put(&mut self, text: &[u8]) -> Result<(usize, usize), AllocError>
        ensures extends { Extends self.old self.new }
        ensures start { IfOk result (λ span. span.0 ≡ length self.old.bytes) }
        ensures end { IfOk result (λ span. span.1 ≡ length self.old.bytes + length text.now) }
        ensures bytes { IfOk result (λ span. self.new.bytes ≡ self.old.bytes ++ text.now) }
        ensures no_overflow { IfOk result (λ _. length self.new.bytes < 2 ^ 64) }
    {
        let start = self.bytes.len();
        self.bytes.extend_from_slice(text)?;
        Ok((start, self.bytes.len()))
    }

    // Stores a line, followed by a line feed.
    fn store_line(&mut self, line: &[u8]) -> Result<PackedEntries, AllocError>
        requires { HasNoLineFeed line.now }
        ensures extends { Extends self.old self.new }
        ensures within { IfOk result (Within self.new) }
        ensures denotes { IfOk result (λ packed. denotes self.new packed ≡ Text line.now ∷ []) }
    {
        let (start, _) = self.put(line)?;
        let (_, end) = self.put(b"\n")?;
        Ok(PackedEntries::Texts {
            lines: 1,
            block: 0,
            start,
            end,
        })
    }

    fn store_note(
        &mut self,
        pid: u32,
        kind: &[u8],
        text: &[u8],
    ) -> Result<PackedEntries, AllocError>
        ensures extends { Extends self.old self.new }
        ensures within { IfOk result (Within self.new) }
        ensures denotes { IfOk result (λ packed. denotes self.new packed ≡ Note pid kind.now text.now ∷ []) }
    {
        let (start, middle) = self.put(kind)?;
        let (_, end) = self.put(text)?;
        self.note_at(NoteSpan {
            pid,
            block: 0,
            start,
            middle,
            end,
        })
    }

    // Stores a note whose kind and text are stored already.
    fn note_at(&mut self, at: NoteSpan) -> Result<PackedEntries, AllocError>
        requires { IsNoteWithin self.old (Some at) }
        ensures extends { Extends self.old self.new }
        ensures blocks { (self.new.bytes ≡ self.old.bytes) × (self.new.taken ≡ self.old.taken) }
        ensures within { IfOk result (Within self.new) }
        ensures denotes { IfOk result (λ packed. denotes self.new packed ≡ note_value self.old (Some at) ∷ []) }
    {
        let note = self.notes.len();
        self.notes.push(at)?;
        Ok(PackedEntries::Note { note })
    }

    /// Returns the number of a name, which is added if it is new.
    pub fn intern(&mut self, name: TargetName) -> Result<usize, AllocError>
        ensures extends { Extends self.old self.new }
        ensures blocks { (self.new.bytes ≡ self.old.bytes) × (self.new.taken ≡ self.old.taken) }
        ensures is { IfOk result (λ number. HasNumber self.new.names number name) }
    {
        let (number, _) = self.names.insert_full(name)?;
        self.last = number;
        Ok(number)
    }

    // Returns the number of a name in normal form. Like `intern`, but a name that is stored already isn't copied.
    fn intern_bytes(&mut self, alloc: Global, name: &[u8]) -> Result<usize, AllocError>
        requires { IsNormal name.now }
        ensures extends { Extends self.old self.new }
        ensures blocks { (self.new.bytes ≡ self.old.bytes) × (self.new.taken ≡ self.old.taken) }
        ensures is { IfOk result (λ number. HasNumber self.new.names number name.now) }
    {
        if let Some(number) = self.cached_number(name) {
            return Ok(number);
        }
        if let Some(number) = self.names.get_index_of(NameBytes { bytes: name }) {
            self.last = number;
            return Ok(number);
        }
        let name = TargetName::of_normal(alloc, name)?;
        self.intern(name)
    }

    // Returns the number of a name, if it is the name that was looked up last.
    fn cached_number(&self, name: &[u8]) -> Option<usize>
        ensures { IfSome result (λ number. HasNumber self.now.names number name.now) }
    {
        let last = self.names.get_index(self.last)?;
        if last.bytes() == name {
            Some(self.last)
        } else {
            None
        }
    }

    /// Returns the number of a name, if it is stored. The look-up is by hash.
    pub fn find(&self, name: &TargetName) -> Option<usize>
        ensures { result ≡ position (pointwise nat_eq name.now) self.now.names }
    {
        self.names.get_index_of(name)
    }

    /// Returns the number of names.
    pub fn len(&self) -> usize
        ensures { result ≡ length self.now.names }
    {
        self.names.len()
    }

    /// Returns the name with this number, which must exist.
    pub fn name(&self, number: usize) -> &TargetName
        requires { number < length self.now.names }
        ensures { HasNumber self.now.names number result.now }
    {
        &self.names.as_slice()[number]
    }

    // Returns the block with this number, which must exist.
    fn block(&self, number: u32) -> &[u8]
        requires { number ≤ length self.now.taken }
        ensures { result.now ≡ block_of self.now number }
    {
        if number == 0 {
            &self.bytes
        } else {
            &self.taken[number as usize - 1]
        }
    }

    /// Returns the entry at position `place` of a `PackedEntries`.
    pub fn load(&self, packed: PackedEntries, place: usize) -> EntryRef<'_>
        requires within { Within self.now packed }
        requires index { place < count_in packed }
        ensures { slice_get (denotes self.now packed) place ≡ Some (entry_value result) }
    {
        match packed {
            PackedEntries::Texts {
                block,
                start,
                end,
                ..
            } => {
                let lines = &self.block(block)[start..end];
                EntryRef::Text(first_line(skip_lines(lines, place)))
            }
            PackedEntries::Mention { pid, how, name } => EntryRef::Mention {
                pid,
                how,
                name: self.name(name),
            },
            PackedEntries::Done { pid, status, name } => EntryRef::Done {
                pid,
                status,
                name: self.name(name),
            },
            PackedEntries::Closing { pid, status } => EntryRef::Closing { pid, status },
            PackedEntries::Note { note } => {
                let NoteSpan {
                    pid,
                    block,
                    start,
                    middle,
                    end,
                } = self.notes[note];
                let bytes = self.block(block);
                EntryRef::Note {
                    pid,
                    kind: &bytes[start..middle],
                    text: &bytes[middle..end],
                }
            }
        }
    }

    /// Like [`Store::load`], but a mention has the number of its target's name.
    pub fn load_numbered(&self, packed: PackedEntries, place: usize) -> NumberedEntry<'_>
        requires within { Within self.now packed }
        requires index { place < count_in packed }
        ensures denotes { slice_get (denotes self.now packed) place ≡ Some (numbered_value self.now.names result) }
        ensures numbered { IsNumbered self.now.names result }
    {
        match packed {
            PackedEntries::Mention { pid, how, name } => NumberedEntry::Mention { pid, how, name },
            other => NumberedEntry::Other(self.load(other, place)),
        }
    }

    /// Returns the text lines of a `PackedEntries` from position `place` on, each with its line feed, and their number.
    pub fn lines(&self, packed: PackedEntries, place: usize) -> (&[u8], usize)
        requires within { Within self.now packed }
        requires index { place < count_in packed }
        ensures lines { AreLinesOf self.now packed place result.0.now result.1 }
        ensures nonempty { IsTexts packed → 0 < result.1 }
        ensures at_most { result.1 < 2 ^ 16 }
    {
        match packed {
            PackedEntries::Texts {
                lines,
                block,
                start,
                end,
            } => {
                let bytes = &self.block(block)[start..end];
                (skip_lines(bytes, place), lines as usize - place)
            }
            _ => (&[], 0),
        }
    }
}

// Whether the texts have at least 1,024 bytes and fill at least half of their buffer.
fn is_worth_adopting(texts: &Vec<u8>) -> bool {
    texts.len() >= 1024 && texts.len() >= texts.capacity() / 2
}
