//! The times at which spans begin and end, sorted and counted.
//!
//! A span that ended before it began counts as one without length.
ghost use Rattle.std.specs.Prelude.{◌≡◌, IfOk, leb};
ghost use Rattle.std.specs.List.{count_by};
ghost use Rattle.std.specs.List.Sorted.{IsNonDecreasing};
ghost use Rattle.redo_timeline.specs.Private.Counting.{AreSortedTimes, begins_of, end_of, ends_of_spans};

use crate::span::Span;
use std::alloc::{AllocError, Global};

/// Returns when the spans began.
pub fn begins(alloc: Global, spans: &[Span]) -> Result<Vec<u64>, AllocError>
    ensures { IfOk result (λ begins. begins.items ≡ begins_of spans.now) }
{
    spans.iter().map(|span| span.began).collect(alloc)
}

/// Returns when the spans ended.
pub fn ends(alloc: Global, spans: &[Span]) -> Result<Vec<u64>, AllocError>
    ensures { IfOk result (λ ends. ends.items ≡ ends_of_spans spans.now) }
{
    spans.iter().map(|span| end_of(span)).collect(alloc)
}

/// Returns when a span ended, or when it began if that is later.
pub fn end_of(span: &Span) -> u64
    ensures { result ≡ end_of span.now }
{
    if span.began < span.ended {
        span.ended
    } else {
        span.began
    }
}

/// Returns the times in order.
pub fn in_order(mut times: Vec<u64>) -> Vec<u64>
    ensures { AreSortedTimes times.items result.items }
{
    times.sort_unstable();
    times
}

/// Returns the number of times until this one. They must be in order.
pub fn count_until(times: &[u64], time: u64) -> usize
    requires { IsNonDecreasing times.now }
    ensures { result ≡ count_by (λ t. leb t time) times.now }
{
    times.partition_point(|t| *t <= time)
}
