//! A reader in memory. It also specifies each single call, for tests that cut a stream somewhere, and so does `Taker`.
ghost use Rattle.std.specs.Prelude.{◌≡◌, ◌<◌, ◌≤◌, Some, IfOk, map, length, slice_index_or, vec_len};
ghost use Rattle.redo_device.specs.Feed.{Pulls};
ghost use Rattle.redo_device.specs.Pieces.{Reads, stream_of, from_first_byte, ReadsNext};
ghost use Rattle.redo_device.specs.Private.Pieces.{unread_of};

use crate::feed::{Broken, Feed};
use std::marker::Model;

/// A reader in memory. All is known of it. It is modelled as the reads still to come.
#[derive(Drop)]
pub struct Pieces {
    reads: Vec<Vec<u8>>,
    // The index of the next read, and how many bytes of it were given.
    at: usize,
    from: usize,
    fails: bool,
}

impl Model for Pieces {
    ghost use Rattle.std.specs.Prelude.{◌≤◌, vec_len};
    ghost use Rattle.redo_device.specs.Pieces.{Reads};
    ghost use Rattle.redo_device.specs.Private.Pieces.{unread_of};

    ghost Value = { Reads };

    ghost view = { λ pieces. record { reads = unread_of pieces.reads.items pieces.at pieces.from; fails = pieces.fails } };

    ghost invariant = { λ pieces. pieces.at ≤ vec_len pieces.reads };
}

impl Pieces {
    /// Creates a reader that gives these reads in order, and then the end of input or, if `fails` is
    /// set, a failed read. It skips an empty read. A read longer than the buffer continues in the next
    /// call.
    pub fn new(reads: Vec<Vec<u8>>, fails: bool) -> Pieces
        ensures reads { result.reads ≡ map (λ read. read.items) reads.items }
        ensures fails { result.fails ≡ fails }
    {
        Pieces {
            reads,
            at: 0,
            from: 0,
            fails,
        }
    }

    // Does the work of `pull`. Its only clause is the clause `exact` of `pull`.
    fn give(&mut self, buf: &mut [u8]) -> Result<usize, Broken>
        ensures { ReadsNext (from_first_byte self.old.reads) self.old.fails self.new result buf.new }
    {
        (self.at, self.from) = next_byte(&self.reads, self.at, self.from);
        if self.at == self.reads.len() {
            return if self.fails { Err(Broken) } else { Ok(0) };
        }
        let read = &self.reads[self.at];
        let n = buf.len().min(read.len() - self.from);
        buf[..n].copy_from_slice(&read[self.from..self.from + n]);
        self.from += n;
        Ok(n)
    }
}

// Returns the position of the next byte to give: the index of a read, and how many of its bytes
// were given.
fn next_byte(reads: &[Vec<u8>], mut at: usize, mut from: usize) -> (usize, usize)
    requires { at ≤ length reads.now }
    ensures reads { unread_of reads.now result.0 result.1 ≡ from_first_byte (unread_of reads.now at from) }
    ensures at { result.0 ≤ length reads.now }
    ensures byte { (v : _) → result.0 < length reads.now → result.1 < vec_len (slice_index_or reads.now result.0 v) }
{
    while at < reads.len() {
        if from < reads[at].len() {
            return (at, from);
        }
        at += 1;
        from = 0;
    }
    (at, from)
}

impl Feed for Pieces {
    ghost contents = { λ to_come. Some (stream_of to_come) };

    fn pull(&mut self, buf: &mut [u8]) -> Result<usize, Broken>
        requires room { 0 < length buf.old }
        ensures bound { IfOk result (λ n. n ≤ length buf.new) }
        ensures gives { Pulls (Some (stream_of self.old)) (Some (stream_of self.new)) result buf.new }
        // Which bytes come in which call.
        ensures exact { ReadsNext (from_first_byte self.old.reads) self.old.fails self.new result buf.new }
    {
        self.give(buf)
    }
}
