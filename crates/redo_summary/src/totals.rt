//! Sums over all shown targets. A sum that exceeds 2^64 - 1 is 2^64 - 1.
ghost use Rattle.std.specs.Prelude.{◌≡◌};
ghost use Rattle.redo_summary.specs.Ranks.{duration};
ghost use Rattle.redo_summary.specs.Summary.{bytes_of, sum_of, warnings_of};

use crate::window::cut;
use redo_outline::Node;
use redo_timeline::Span;

/// Returns how long a span is.
pub fn duration(span: &Span) -> u64
    ensures { result ≡ duration span.now }
{
    cut(span.ended.saturating_sub(span.began))
}

/// Returns how long some recipes took, one after another.
pub fn sum_of(recipes: &[Span]) -> u64
    ensures { result ≡ sum_of recipes.now }
{
    let mut sum: u64 = 0;
    for span in recipes {
        sum = sum.saturating_add(duration(span));
    }
    sum
}

/// Returns the number of warnings.
pub fn warnings_of(nodes: &[Node]) -> u64
    ensures { result ≡ warnings_of nodes.now }
{
    let mut warnings: u64 = 0;
    for node in nodes {
        warnings = warnings.saturating_add(node.warnings);
    }
    warnings
}

/// Returns the number of bytes of text.
pub fn bytes_of(nodes: &[Node]) -> u64
    ensures { result ≡ bytes_of nodes.now }
{
    let mut bytes: u64 = 0;
    for node in nodes {
        bytes = bytes.saturating_add(node.bytes);
    }
    bytes
}
