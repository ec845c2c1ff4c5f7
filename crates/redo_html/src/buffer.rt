//! Bytes that are written together.
ghost use Rattle.std.specs.Prelude.{◌≡◌, ◌+◌, ◌≤◌, [], ◌++◌, take, drop, length, OnOk};
ghost use Rattle.redo_device.specs.Sink.{Writes};

use crate::symbol::LANES;
use redo_device::{Broken, Sink, push_all};
use std::simd::prelude::*;

// The number of bytes that a buffer holds at most.
const SIZE: usize = 2048;

/// Bytes that are to be written to a writer before all others.
#[derive(Drop)]
pub struct Buffer {
    bytes: [u8; SIZE],
    len: usize,
    ghost within: { len ≤ 2048 },
}

impl Buffer {
    ghost use Rattle.redo_html.specs.Private.Buffering.{held, Puts};

    /// Creates a buffer without bytes.
    pub fn new() -> Buffer
        ensures { held result ≡ [] }
    {
        Buffer {
            bytes: [0; SIZE],
            len: 0,
        }
    }

    /// Writes its bytes.
    #[cold]
    #[inline(never)]
    pub fn flush<W: Sink>(&mut self, out: &mut W) -> Result<(), Broken>
        ensures written { Writes (W.written out.old) (W.written out.new) (held self.old) result }
        ensures empty { OnOk result (held self.new ≡ []) }
        ensures len { OnOk result (self.new.len ≡ 0) }
    {
        push_all(out, &self.bytes[..self.len])?;
        self.len = 0;
        Ok(())
    }

    /// Adds `count` of the bytes from `at` on.
    #[inline(always)]
    pub fn put<W: Sink>(
        &mut self,
        bytes: &[u8],
        at: usize,
        count: usize,
        out: &mut W,
    ) -> Result<(), Broken>
        requires room { at + LANES ≤ length bytes.now }
        requires few { count ≤ LANES }
        ensures { Puts (W.written out.old) (W.written out.new) (held self.old) (take count (drop at bytes.now)) (held self.new) result }
    {
        self.make_room(out)?;
        self.add(bytes, at, count);
        Ok(())
    }

    // Writes its bytes if there is no room for as many as are tested at once.
    #[inline(always)]
    fn make_room<W: Sink>(&mut self, out: &mut W) -> Result<(), Broken>
        ensures written { Puts (W.written out.old) (W.written out.new) (held self.old) [] (held self.new) result }
        ensures room { OnOk result (self.new.len + LANES ≤ 2048) }
    {
        if self.len > SIZE - LANES {
            self.flush(out)
        } else {
            Ok(())
        }
    }

    #[inline(always)]
    fn add(&mut self, bytes: &[u8], at: usize, count: usize)
        requires own_room { self.old.len + LANES ≤ 2048 }
        requires room { at + LANES ≤ length bytes.now }
        requires few { count ≤ LANES }
        ensures { held self.new ≡ held self.old ++ take count (drop at bytes.now) }
    {
        let to = self.len;
        u8x16::from_slice(&bytes[at..]).copy_to_slice(&mut self.bytes[to..]);
        self.len = to + count;
    }
}
