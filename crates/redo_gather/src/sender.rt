ghost use Rattle.std.specs.Prelude.{◌≤◌, ◌^◌, map};
ghost use Rattle.redo_gather.specs.Sending.{HasSent, numbered_source};

use crate::gate::Gate;
use crate::sending::{Share, send};
use redo_line::Feed;
use redo_wire::PostEnd;
use std::alloc::Global;
use std::snapshot::Snapshot;
use std::sync::Wait;
use std::thread::Promise;

/// A sender: its post end, the streams of its share, and how many bytes each of them may have.
#[derive(Drop)]
pub struct Sender<R> {
    pub end: PostEnd,
    pub share: Share<R>,
    pub max_bytes: u64,
    ghost at_least: { 1 ≤ max_bytes },
    ghost at_most: { max_bytes ≤ 2 ^ 40 },
}

/// The promise of a sender: it returns its end, and all that is expected for its share was posted at it.
#[derive(Drop)]
pub struct SenderPromise<R>(pub Snapshot<Sender<R>>);

impl<R: Feed> Promise<PostEnd> for SenderPromise<R> {
    ghost kept_by = { λ owing end.
        HasSent owing.0.value.max_bytes (map (numbered_source R.contents) owing.0.value.share.items) owing.0.value.end end };
}

impl<R: Feed> Sender<R> {
    /// Sends its share, and returns its end.
    pub fn send<T: Wait, G: Gate>(self, rt: &T, alloc: Global, gate: &G) -> PostEnd
        ensures { HasSent self.max_bytes (map (numbered_source R.contents) self.share.items) self.end result }
    {
        let Sender {
            end,
            share,
            max_bytes,
        } = self;
        send(rt, alloc, end, share, max_bytes, gate)
    }
}
