//! How long each span runs alone.
//!
//! Spans begin and end at points in time, and between two consecutive points the same spans run. For each point, in order, the code
//! sums up how long exactly one span ran until then. While a span runs and exactly one runs, it runs alone. So it ran alone for the
//! difference of the sums at its end and at its beginning.
ghost use Rattle.std.specs.Prelude.{◌≡◌, ℕ, Contains, IfOk, length, map};
ghost use Rattle.std.specs.List.Sorted.{IsNonDecreasing};
ghost use Rattle.redo_timeline.specs.Alone.{times_alone};
ghost use Rattle.redo_timeline.specs.Private.Counting.{AreSortedTimes};
ghost use Rattle.redo_timeline.specs.Private.Summing.{alone_until, points_of};

use crate::counting::{begins, count_until, end_of, ends, in_order};
use crate::span::Span;
use std::alloc::{AllocError, Global};

/// Returns how long each span runs alone, that is, as the only one of the spans, in milliseconds. The only error is out of memory.
///
/// A span runs from when it begins until right before it ends. A span without length, or that ended before it began, never runs. Of
/// two equal spans, neither runs alone.
///
/// The times are in the order of the spans, which may be any order. For n spans, this takes O(n log n) time.
pub fn times_alone(alloc: Global, spans: &[Span]) -> Result<Vec<u64>, AllocError>
    ensures { IfOk result (λ times. times.items ≡ times_alone spans.now) }
{
    let points = points(alloc, spans)?;
    let sums = sums(alloc, spans, &points)?;
    let mut times = Vec::new(alloc);
    for span in spans {
        let until_end = sum_at(&points, &sums, end_of(span));
        let until_begin = sum_at(&points, &sums, span.began);
        times.push(until_end - until_begin)?;
    }
    Ok(times)
}

// Returns when spans begin or end, in order.
fn points(alloc: Global, spans: &[Span]) -> Result<Vec<u64>, AllocError>
    ensures { IfOk result (λ points. AreSortedTimes (points_of spans.now) points.items) }
{
    let mut points = begins(alloc, spans)?;
    let ends = ends(alloc, spans)?;
    points.extend_from_slice(&ends)?;
    Ok(in_order(points))
}

// Returns how long exactly one span runs until each point.
fn sums(alloc: Global, spans: &[Span], points: &[u64]) -> Result<Vec<u64>, AllocError>
    requires { AreSortedTimes (points_of spans.now) points.now }
    ensures { IfOk result (λ sums. sums.items ≡ map (alone_until spans.now) points.now) }
{
    let begins = in_order(begins(alloc, spans)?);
    let ends = in_order(ends(alloc, spans)?);
    let mut sums = Vec::new(alloc);
    let mut sum = 0;
    // The point before.
    let mut last = 0;
    for point in points {
        let running = count_until(&begins, last) - count_until(&ends, last);
        if running == 1 {
            sum += *point - last;
        }
        sums.push(sum)?;
        last = *point;
    }
    Ok(sums)
}

// Returns the sum at a point.
fn sum_at(points: &[u64], sums: &[u64], point: u64) -> u64
    requires sorted { IsNonDecreasing points.now }
    requires contained { Contains points.now point }
    requires sums { length sums.now ≡ length points.now }
    ensures { (f : ℕ → ℕ) → sums.now ≡ map f points.now → result ≡ f point }
{
    let position = points.partition_point(|p| *p < point);
    sums[position]
}
