//! How a target ended.
ghost use Rattle.std.specs.Prelude.{◌≡◌};
ghost use Rattle.redo_outline.specs.Facts as facts;
ghost use Rattle.redo_compare.specs.Outcomes as spec;

use redo_outline::{Node, Outline};

/// How a target ended, as far as a capture says.
#[derive(Clone, Copy, Debug, PartialEq, Eq)]
pub struct Outcome {
    /// The status, if it is known.
    pub status: Option<i32>,
    /// Whether a target below it failed.
    pub fails_below: bool,
}

/// Returns whether a target failed now, without a failure below it, and didn't fail before. `None` means that the build has no log of
/// the target. A status that isn't known is no failure.
pub fn newly_fails(before: Option<Outcome>, now: Option<Outcome>) -> bool
    ensures { result ≡ spec.newly_fails before now }
{
    is_root_failure(now) && !has_failed(before)
}

/// Returns whether a target failed before, without a failure below it, and is known to have succeeded now.
pub fn is_fixed(before: Option<Outcome>, now: Option<Outcome>) -> bool
    ensures { result ≡ spec.is_fixed before now }
{
    is_root_failure(before) && has_succeeded(now)
}

/// Returns how the target of a log ended, as the outline of its build says. `None` means that there is no log, or none in the outline.
pub fn outcome_in(outline: &Outline, number: Option<u32>) -> Option<Outcome>
    ensures { result ≡ spec.outcome_in outline.now number }
{
    let position = outline.position_of(number?)?;
    let node = outline.nodes().get(position)?;
    Some(outcome_of(node))
}

/// Returns how the target of a node ended.
pub fn outcome_of(node: &Node) -> Outcome
    ensures { result ≡ spec.outcome_of node.now }
{
    Outcome {
        status: node.status,
        fails_below: node.fails_below,
    }
}

fn is_root_failure(outcome: Option<Outcome>) -> bool
    ensures { result ≡ spec.is_root_failure outcome }
{
    match outcome {
        Some(outcome) => is_failure(outcome.status) && !outcome.fails_below,
        None => false,
    }
}

fn has_failed(outcome: Option<Outcome>) -> bool
    ensures { result ≡ spec.has_failed outcome }
{
    match outcome {
        Some(outcome) => is_failure(outcome.status),
        None => false,
    }
}

fn has_succeeded(outcome: Option<Outcome>) -> bool
    ensures { result ≡ spec.has_succeeded outcome }
{
    match outcome {
        Some(outcome) => outcome.status == Some(0),
        None => false,
    }
}

fn is_failure(status: Option<i32>) -> bool
    ensures { result ≡ facts.is_failure status }
{
    match status {
        Some(status) => status != 0,
        None => false,
    }
}
