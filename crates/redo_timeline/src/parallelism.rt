//! How many spans run at once.
//!
//! For each span, binary search in sorted times counts how many began and how many ended until it began.
ghost use Rattle.std.specs.Prelude.{◌≡◌, IfOk};
ghost use Rattle.redo_timeline.specs.Parallelism.{most_of};

use crate::counting::{begins, count_until, ends, in_order};
use crate::span::Span;
use std::alloc::{AllocError, Global};

/// Returns the greatest number of spans that run at one time. The only error is out of memory.
///
/// A span runs from when it begins until right before it ends. A span without length counts when it begins, too. If a span ended
/// before it began, it has no length.
///
/// For n spans, this takes O(n log n) time.
pub fn most_at_once(alloc: Global, spans: &[Span]) -> Result<usize, AllocError>
    ensures { IfOk result (λ most. most ≡ most_of spans.now) }
{
    let begins = in_order(begins(alloc, spans)?);
    let ends = in_order(ends(alloc, spans)?);
    let mut most = 0;
    for span in spans {
        let running = count_until(&begins, span.began) - count_until(&ends, span.began);
        let count = if span.began < span.ended {
            running
        } else {
            running + 1
        };
        if most < count {
            most = count;
        }
    }
    Ok(most)
}
