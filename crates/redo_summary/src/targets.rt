//! The shown targets, and their times.
ghost use Rattle.std.specs.Prelude.{◌≡◌, IfOk};
ghost use Rattle.redo_outline.specs.Facts.{is_failure};
ghost use Rattle.redo_summary.specs.Spans.{target_of, targets_of};
ghost use Rattle.redo_summary.specs.Targets.{duration_of, times_of};

use crate::target::Target;
use redo_outline::Node;
use redo_times::Times;
use std::alloc::{AllocError, Global};

/// Returns how long the target of the log with this number took, in milliseconds, if its times are known. Its times are at this
/// position. They are unknown past the end of the list.
pub fn duration_of(times: &[Times], number: u32) -> Option<u64>
    ensures { result ≡ duration_of times.now number }
{
    let times = times_of(times, number);
    match (times.began, times.ended) {
        (Some(began), Some(ended)) => Some(ended.saturating_sub(began)),
        _ => None,
    }
}

/// Returns the shown targets.
pub fn list_targets(
    alloc: Global,
    nodes: &[Node],
    times: &[Times],
) -> Result<Vec<Target>, AllocError>
    ensures { IfOk result (λ targets. targets.items ≡ targets_of nodes.now times.now) }
{
    let mut targets = Vec::new(alloc);
    for (position, node) in nodes.iter().enumerate() {
        targets.push(target_of(times, position, node))?;
    }
    Ok(targets)
}

// Returns the target of the node at this position.
fn target_of(times: &[Times], position: usize, node: &Node) -> Target
    ensures { result ≡ target_of times.now position node.now }
{
    Target {
        position,
        parent: node.parent,
        failed: is_failure(node.status),
        times: times_of(times, node.number),
    }
}

/// Returns the times of the target of the log with this number.
pub fn times_of(times: &[Times], number: u32) -> Times
    ensures { result ≡ times_of times.now number }
{
    match times.get(number as usize) {
        Some(times) => *times,
        None => Times {
            began: None,
            ended: None,
            ran_others: false,
        },
    }
}

// Whether a target failed.
fn is_failure(status: Option<i32>) -> bool
    ensures { result ≡ is_failure status }
{
    match status {
        Some(status) => status != 0,
        None => false,
    }
}
