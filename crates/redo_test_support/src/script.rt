//! A reader whose results a test specifies, and which counts its reads.
ghost use Rattle.std.specs.Prelude.{◌≡◌, None};
ghost use Rattle.redo_device.specs.Feed.{Pulls};

use redo_line::{Broken, Feed};
use std::sync::atomic::{AtomicU64, Ordering};

/// The result of one read.
#[derive(Clone, Copy)]
pub enum Answer {
    /// One byte, an `x`.
    Byte,
    End,
    Failure,
}

/// An opaque reader that returns these results in order, and then `last` every time. It counts its reads.
#[derive(Drop)]
pub struct Script<'a> {
    answers: &'a [Answer],
    last: Answer,
    given: usize,
    reads: &'a AtomicU64,
}

impl<'a> Script<'a> {
    pub fn new(answers: &'a [Answer], last: Answer, reads: &'a AtomicU64) -> Script<'a> {
        Script {
            answers,
            last,
            given: 0,
            reads,
        }
    }
}

impl<'a> Feed for Script<'a> {
    ghost contents = { λ script. None };

    fn pull(&mut self, buf: &mut [u8]) -> Result<usize, Broken> {
        self.reads.fetch_add(1, Ordering::SeqCst);
        let answer = self.answers.get(self.given).copied().unwrap_or(self.last);
        self.given = self.given.saturating_add(1);
        match answer {
            Answer::Byte => {
                buf[0] = b'x';
                Ok(1)
            }
            Answer::End => Ok(0),
            Answer::Failure => Err(Broken),
        }
    }
}
