//! The order of spans.
//!
//! It is total: there is only one sorted list, and the sort may be an unstable one, which allocates nothing.
ghost use Rattle.std.specs.Prelude.{◌≡◌, IfOk};
ghost use Rattle.redo_timeline.specs.Order.{in_order};

use crate::span::Span;
use std::alloc::{AllocError, Global};

/// Returns the spans in order.
pub fn sorted(alloc: Global, spans: &[Span]) -> Result<Vec<Span>, AllocError>
    ensures { IfOk result (λ sorted. sorted.items ≡ in_order spans.now) }
{
    let mut sorted = Vec::from_slice(alloc, spans)?;
    sorted.sort_unstable();
    Ok(sorted)
}
