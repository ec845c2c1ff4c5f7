//! The spans and marks of targets.
ghost use Rattle.std.specs.Prelude.{◌≡◌, IfOk};
ghost use Rattle.redo_summary.specs.Spans.{callers_of, marks_of, recipes_of};

use crate::target::Target;
use redo_timeline::Span;
use std::alloc::{AllocError, Global};

/// Returns the spans of the targets that ran others.
pub fn list_callers(alloc: Global, targets: &[Target]) -> Result<Vec<Span>, AllocError>
    ensures { IfOk result (λ callers. callers.items ≡ callers_of targets.now) }
{
    targets
        .iter()
        .filter_map(|target| target.caller_span())
        .collect(alloc)
}

/// Returns the spans of the targets that ran no others.
pub fn list_recipes(alloc: Global, targets: &[Target]) -> Result<Vec<Span>, AllocError>
    ensures { IfOk result (λ recipes. recipes.items ≡ recipes_of targets.now) }
{
    targets
        .iter()
        .filter_map(|target| target.recipe_span())
        .collect(alloc)
}

/// Returns the marks of targets.
pub fn list_marks(alloc: Global, targets: &[Target]) -> Result<Vec<Span>, AllocError>
    ensures { IfOk result (λ marks. marks.items ≡ marks_of targets.now) }
{
    targets
        .iter()
        .filter_map(|target| target.mark())
        .collect(alloc)
}
