ghost use Rattle.std.specs.Prelude.{◌≡◌, ◌<◌, ◌≤◌, [], Some, IfOk, length};
ghost use Rattle.redo_device.specs.Sink.{after_push};
ghost use Rattle.redo_device.specs.Taker.{output_of, answer_of};

use crate::failures::Failures;
use crate::feed::Broken;
use crate::sink::Sink;
use std::alloc::{AllocError, Global};
use std::marker::Model;

/// A writer in memory. All is known of it.
#[derive(Drop)]
pub struct Taker {
    held: Vec<u8>,
    room: usize,
    per_call: usize,
    failures: Failures,
}

impl Model for Taker {
    ghost use Rattle.std.specs.Prelude.{◌≤◌, vec_len, vec_capacity};
    ghost use Rattle.redo_device.specs.Taker.{TakerState};

    ghost Value = { TakerState };

    ghost view = { λ t. record { bytes = t.held.items; failures = t.failures.count; room = t.room; per_call = t.per_call } };

    ghost invariant = { λ taker. (vec_len taker.held ≤ taker.room) × (taker.room ≤ vec_capacity taker.held) };
}

impl Taker {
    /// Creates a writer that holds at most `room` bytes and takes at most `per_call` bytes in one call.
    /// Once it holds `room` bytes, every write fails.
    pub fn new(alloc: Global, room: usize, per_call: usize) -> Result<Taker, AllocError>
        ensures { IfOk result (λ taker. taker ≡ record { bytes = []; failures = 0; room = room; per_call = per_call }) }
    {
        Ok(Taker {
            held: Vec::with_capacity(alloc, room)?,
            room,
            per_call,
            failures: Failures::none(),
        })
    }

    /// Returns the bytes that it took.
    pub fn bytes(&self) -> &[u8]
        ensures { result.now ≡ self.now.bytes }
    {
        &self.held
    }
}

impl Sink for Taker {
    ghost written = { λ held. Some (output_of held) };

    fn push(&mut self, bytes: &[u8]) -> Result<usize, Broken>
        requires nonempty { 0 < length bytes.now }
        ensures bound { IfOk result (λ n. n ≤ length bytes.now) }
        ensures takes { Some (output_of self.new) ≡ after_push (Some (output_of self.old)) bytes.now result }
        // How many bytes one call takes.
        ensures answer { result ≡ answer_of self.old (length bytes.now) }
        ensures room { self.new.room ≡ self.old.room }
        ensures per_call { self.new.per_call ≡ self.old.per_call }
    {
        let left = self.room - self.held.len();
        if left == 0 {
            self.failures = Failures::one_more(&self.failures);
            return Err(Broken);
        }
        let n = bytes.len().min(self.per_call).min(left);
        if n == 0 {
            self.failures = Failures::one_more(&self.failures);
        }
        self.held.extend_from_slice(&bytes[..n]).unwrap();
        Ok(n)
    }
}
