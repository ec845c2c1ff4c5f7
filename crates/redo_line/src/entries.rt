//! Consecutive entries that share a few buffers.
//!
//! They are in three vectors, and modelled as their list:
//!
//!     bytes    o k \n b u i l t \n l i n k \n ...     names    a . o b . o ...
//!     places   Texts 1 0..3, Mention Made 0..3, Texts 2 3..14, Done 0 0..3, ...
//!
//! No line and no name gets its own allocation on its way to the table, or is freed by another thread. `read_line` and `step`
//! copy a single entry out. The first text of a batch reserves capacity for the rest of the chunk, but no more than the batch
//! before it consumed, so that buffers are well filled.
ghost use Rattle.std.specs.Prelude.{◌≡◌, ◌≤◌, ◌+◌, true, [], ◌∷◌, ◌++◌, length, map, drop, slice_range, IfOk, OnOk, OnErr};
ghost use Rattle.redo_line.specs.Entries.{AreStoredAt, IsLayout, IsWithin, entries_at_place};
ghost use Rattle.redo_line.specs.Lines.{AreCompleteLines, HasNoLineFeed, ended};
ghost use Rattle.redo_name.specs.Names.{IsNormal};
ghost use Rattle.redo_line.specs.Private.CutLine.{line_bytes};
ghost use Rattle.redo_line.specs.declared.entry.Entry.TheVariants.{Text, Mention, Done, Closing, Note};

use crate::entry::{Entry, How};
use crate::line_text::LineText;
use crate::partial_line::Line;
use redo_name::TargetName;
use std::alloc::{AllocError, Global};
use std::marker::Model;

/// One or more text lines, or one other entry: the offsets of its texts or its name in the buffers of a [`Layout`]. The
/// cases correspond to the cases of [`Entry`].
#[derive(Clone, Copy, Debug)]
pub enum EntryAt {
    /// The number of text lines, at least one, and the offsets of these lines, each with its line feed.
    Texts {
        lines: u16,
        start: usize,
        end: usize,
    },
    Mention {
        pid: u32,
        how: How,
        start: usize,
        end: usize,
    },
    Done {
        pid: u32,
        status: i32,
        start: usize,
        end: usize,
    },
    Closing {
        pid: u32,
        status: i32,
    },
    /// The kind is from `start` to `middle`, and the text from `middle` to `end`.
    Note {
        pid: u32,
        start: usize,
        middle: usize,
        end: usize,
    },
}

/// Consecutive entries of a log that share a few buffers. They are modelled as the list of these entries.
#[derive(Debug, Drop)]
pub struct Entries {
    // Text lines, and the kinds and texts of notes.
    bytes: Vec<u8>,
    names: Vec<u8>,
    places: Vec<EntryAt>,
    // The number of entries. An element of `places` may have several.
    count: usize,
    // The capacity that the first text reserves in `bytes`.
    initial_capacity: usize,
}

/// The buffers of consecutive entries.
#[derive(Clone, Copy)]
pub struct Layout<'a> {
    /// The text lines, and the kinds and texts of notes, concatenated.
    pub bytes: &'a [u8],
    /// The names, concatenated.
    pub names: &'a [u8],
    /// The entries in order, as the offsets of their texts or names. Consecutive text lines may share one element.
    pub places: &'a [EntryAt],
}

impl Model for Entries {
    ghost use Rattle.std.specs.Prelude.{List};
    ghost use Rattle.redo_line.specs.declared.entry.Entry as spec;
    ghost use Rattle.redo_line.specs.Entries.{entries_at};
    ghost use Rattle.redo_line.specs.Private.Entries.{AreCounted};

    ghost Value = { List spec.Entry };

    ghost view = { λ run. entries_at run.bytes.items run.names.items run.places.items };

    ghost invariant = { λ run. AreCounted run.bytes.items run.names.items run.places.items run.count };
}

impl Entries {
    /// Creates an empty list of entries. It doesn't allocate.
    pub fn new(alloc: Global) -> Entries
        ensures { result ≡ [] }
    {
        Entries {
            bytes: Vec::new(alloc),
            names: Vec::new(alloc),
            places: Vec::new(alloc),
            count: 0,
            initial_capacity: 0,
        }
    }

    /// Creates an empty list with capacity for `entries` entries. Its first text reserves capacity for `bytes` bytes.
    pub fn with_capacity(alloc: Global, entries: usize, bytes: usize) -> Result<Entries, AllocError>
        ensures { IfOk result (λ run. run ≡ []) }
    {
        Ok(Entries {
            bytes: Vec::new(alloc),
            names: Vec::new(alloc),
            places: Vec::with_capacity(alloc, entries)?,
            count: 0,
            initial_capacity: bytes,
        })
    }

    /// Returns the number of entries.
    pub fn len(&self) -> usize
        ensures { result ≡ length self.now }
    {
        self.count
    }

    /// Returns the buffers.
    pub fn layout(&self) -> Layout<'_>
        // Each entry is at its stated offsets in the bytes or names. Text lines are as many as stated, with their line
        // feeds. The texts of notes have none. Names are normal forms.
        ensures { IsLayout result self.now }
    {
        Layout {
            bytes: &self.bytes,
            names: &self.names,
            places: &self.places,
        }
    }

    /// Returns the buffers themselves: `bytes`, `names` and `places` of the [`Layout`].
    pub fn into_pieces(self) -> (Vec<u8>, Vec<u8>, Vec<EntryAt>)
        ensures { AreStoredAt result.0.items result.1.items result.2.items self }
    {
        (self.bytes, self.names, self.places)
    }

    /// Returns the only entry, with its own buffers. There must be exactly one.
    pub fn into_entry(self, alloc: Global) -> Result<Entry, AllocError>
        requires { length self ≡ 1 }
        ensures { IfOk result (λ entry. self ≡ entry ∷ []) }
    {
        let Entries {
            bytes,
            names,
            places,
            ..
        } = self;
        match places[0] {
            EntryAt::Texts { start, end, .. } => {
                let line = keep_range(bytes, start, end - 1);
                Ok(Entry::Text(LineText::from_vec(line)))
            }
            place => copy_at(alloc, &bytes, &names, place),
        }
    }

    /// Appends an entry. If it fails, nothing changes.
    pub fn push(&mut self, entry: Entry) -> Result<(), AllocError>
        ensures pushed { OnOk result (self.new ≡ self.old ++ entry ∷ []) }
        ensures unchanged_on_err { OnErr result (self.new ≡ self.old) }
    {
        match entry {
            Entry::Text(line) => self.push_joined(line.into_vec()),
            Entry::Mention { pid, how, name } => self.push_mention(pid, how, name.bytes()),
            Entry::Done { pid, status, name } => self.push_done(pid, status, name.bytes()),
            Entry::Closing { pid, status } => self.push_closing(pid, status),
            Entry::Note { pid, kind, text } => self.push_note(pid, kind.bytes(), text.bytes()),
        }
    }

    // Appends a text line. If it fails, nothing changes.
    pub(crate) fn push_line(&mut self, line: Line<'_>) -> Result<(), AllocError>
        requires { HasNoLineFeed (line_bytes line) }
        ensures pushed { OnOk result (self.new ≡ self.old ++ Text (line_bytes line.entry) ∷ []) }
        ensures unchanged_on_err { OnErr result (self.new ≡ self.old) }
    {
        match line {
            Line::Borrowed(bytes) => self.push_text(bytes),
            Line::Owned(bytes) => self.push_joined(bytes),
        }
    }

    // Appends `count` text lines, each with its line feed. If it fails, nothing changes.
    pub(crate) fn push_lines(&mut self, lines: &[u8], count: u16) -> Result<(), AllocError>
        requires { AreCompleteLines lines.now count }
        ensures pushed { OnOk result (self.new ≡ self.old ++ map Text (ended lines.now)) }
        ensures unchanged_on_err { OnErr result (self.new ≡ self.old) }
    {
        let (start, end) = put_with_capacity(&mut self.bytes, self.initial_capacity, lines)?;
        self.places.push(EntryAt::Texts {
            lines: count,
            start,
            end,
        })?;
        self.count += count as usize;
        Ok(())
    }

    fn push_text(&mut self, line: &[u8]) -> Result<(), AllocError>
        requires { HasNoLineFeed line.now }
        ensures pushed { OnOk result (self.new ≡ self.old ++ Text line.now ∷ []) }
        ensures unchanged_on_err { OnErr result (self.new ≡ self.old) }
    {
        let (start, _) = put_with_capacity(&mut self.bytes, self.initial_capacity, line)?;
        let (_, end) = put(&mut self.bytes, b"\n")?;
        self.places.push(EntryAt::Texts {
            lines: 1,
            start,
            end,
        })?;
        self.count += 1;
        Ok(())
    }

    // Appends a text line. If it is the first text and exceeds the initial capacity, its memory becomes the buffer,
    // without a copy.
    fn push_joined(&mut self, line: Vec<u8>) -> Result<(), AllocError>
        requires { HasNoLineFeed line.items }
        ensures pushed { OnOk result (self.new ≡ self.old ++ Text line.items ∷ []) }
        ensures unchanged_on_err { OnErr result (self.new ≡ self.old) }
    {
        if !exceeds_initial_capacity(&self.bytes, self.initial_capacity, line.len()) {
            return self.push_text(&line);
        }
        self.bytes = line;
        let (_, end) = put(&mut self.bytes, b"\n")?;
        self.places.push(EntryAt::Texts {
            lines: 1,
            start: 0,
            end,
        })?;
        self.count += 1;
        Ok(())
    }

    pub(crate) fn push_mention(&mut self, pid: u32, how: How, name: &[u8]) -> Result<(), AllocError>
        requires { IsNormal name.now }
        ensures pushed { OnOk result (self.new ≡ self.old ++ Mention pid how name.now ∷ []) }
        ensures unchanged_on_err { OnErr result (self.new ≡ self.old) }
    {
        let (start, end) = put(&mut self.names, name)?;
        self.places.push(EntryAt::Mention {
            pid,
            how,
            start,
            end,
        })?;
        self.count += 1;
        Ok(())
    }

    pub(crate) fn push_done(&mut self, pid: u32, status: i32, name: &[u8]) -> Result<(), AllocError>
        requires { IsNormal name.now }
        ensures pushed { OnOk result (self.new ≡ self.old ++ Done pid status name.now ∷ []) }
        ensures unchanged_on_err { OnErr result (self.new ≡ self.old) }
    {
        let (start, end) = put(&mut self.names, name)?;
        self.places.push(EntryAt::Done {
            pid,
            status,
            start,
            end,
        })?;
        self.count += 1;
        Ok(())
    }

    pub(crate) fn push_closing(&mut self, pid: u32, status: i32) -> Result<(), AllocError>
        ensures pushed { OnOk result (self.new ≡ self.old ++ Closing pid status ∷ []) }
        ensures unchanged_on_err { OnErr result (self.new ≡ self.old) }
    {
        self.places.push(EntryAt::Closing { pid, status })?;
        self.count += 1;
        Ok(())
    }

    pub(crate) fn push_note(&mut self, pid: u32, kind: &[u8], text: &[u8]) -> Result<(), AllocError>
        requires kind { HasNoLineFeed kind.now }
        requires text { HasNoLineFeed text.now }
        ensures pushed { OnOk result (self.new ≡ self.old ++ Note pid kind.now text.now ∷ []) }
        ensures unchanged_on_err { OnErr result (self.new ≡ self.old) }
    {
        let (start, middle) = put(&mut self.bytes, kind)?;
        let (_, end) = put(&mut self.bytes, text)?;
        self.places.push(EntryAt::Note {
            pid,
            start,
            middle,
            end,
        })?;
        self.count += 1;
        Ok(())
    }
}

// Returns the bytes from `start` to `end`, in the same buffer.
fn keep_range(mut bytes: Vec<u8>, start: usize, end: usize) -> Vec<u8>
    requires order { start ≤ end }
    requires end { end ≤ length bytes.items }
    ensures { result.items ≡ slice_range bytes.items start end }
{
    bytes.truncate(end);
    drop_prefix(bytes, start)
}

// Returns the bytes after the first `count`, in the same buffer.
fn drop_prefix(mut bytes: Vec<u8>, count: usize) -> Vec<u8>
    requires { count ≤ length bytes.items }
    ensures { result.items ≡ drop count bytes.items }
{
    bytes.drain(..count);
    bytes
}

// Returns a copy of the only entry at a place, with its own buffers.
fn copy_at(alloc: Global, bytes: &[u8], names: &[u8], place: EntryAt) -> Result<Entry, AllocError>
    requires within { IsWithin bytes.now names.now place }
    requires alone { length (entries_at_place bytes.now names.now place) ≡ 1 }
    ensures { IfOk result (λ entry. entries_at_place bytes.now names.now place ≡ entry ∷ []) }
{
    match place {
        EntryAt::Texts { start, end, .. } => {
            let text = LineText::copy_of(alloc, &bytes[start..end - 1])?;
            Ok(Entry::Text(text))
        }
        EntryAt::Mention {
            pid,
            how,
            start,
            end,
        } => {
            let name = TargetName::of_normal(alloc, &names[start..end])?;
            Ok(Entry::Mention { pid, how, name })
        }
        EntryAt::Done {
            pid,
            status,
            start,
            end,
        } => {
            let name = TargetName::of_normal(alloc, &names[start..end])?;
            Ok(Entry::Done { pid, status, name })
        }
        EntryAt::Closing { pid, status } => Ok(Entry::Closing { pid, status }),
        EntryAt::Note {
            pid,
            start,
            middle,
            end,
        } => {
            let kind = LineText::copy_of(alloc, &bytes[start..middle])?;
            let text = LineText::copy_of(alloc, &bytes[middle..end])?;
            Ok(Entry::Note { pid, kind, text })
        }
    }
}

// Returns whether there are no bytes yet, and `count` bytes with a line feed would exceed the initial capacity.
fn exceeds_initial_capacity(bytes: &Vec<u8>, capacity: usize, count: usize) -> bool
    ensures { result ≡ true → bytes.now.items ≡ [] }
{
    bytes.is_empty() && capacity <= count
}

// Appends bytes, and returns where they begin and end. The first bytes reserve capacity for `capacity` bytes.
fn put_with_capacity(
    bytes: &mut Vec<u8>,
    capacity: usize,
    more: &[u8],
) -> Result<(usize, usize), AllocError>
    ensures start { IfOk result (λ span. span.0 ≡ length bytes.old.items) }
    ensures end { IfOk result (λ span. span.1 ≡ length bytes.old.items + length more.now) }
    ensures put { OnOk result (bytes.new.items ≡ bytes.old.items ++ more.now) }
    ensures unchanged_on_err { OnErr result (bytes.new.items ≡ bytes.old.items) }
{
    if bytes.is_empty() {
        bytes.reserve(capacity)?;
    }
    put(bytes, more)
}

// Appends bytes, and returns where they begin and end.
fn put(bytes: &mut Vec<u8>, more: &[u8]) -> Result<(usize, usize), AllocError>
    ensures start { IfOk result (λ span. span.0 ≡ length bytes.old.items) }
    ensures end { IfOk result (λ span. span.1 ≡ length bytes.old.items + length more.now) }
    ensures put { OnOk result (bytes.new.items ≡ bytes.old.items ++ more.now) }
    ensures unchanged_on_err { OnErr result (bytes.new.items ≡ bytes.old.items) }
{
    let start = bytes.len();
    bytes.extend_from_slice(more)?;
    Ok((start, bytes.len()))
}
