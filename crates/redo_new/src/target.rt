//! What is new of a target.
ghost use Rattle.std.specs.Prelude.{◌≡◌, IfOk, map};
ghost use Rattle.redo_new.specs.Private.Sections.{news_at};

use redo_compare::{Baseline, TargetChanges};
use redo_logs::LogTable;
use redo_outline::Node;
use std::alloc::{AllocError, Global};

/// What is new of a target.
#[derive(Drop)]
pub struct TargetNews {
    /// The number of its log.
    pub number: u32,
    /// Its status, if it is known.
    pub status: Option<i32>,
    /// What changed.
    pub changes: TargetChanges,
}

/// Returns what is new of the targets of these nodes. The only error is that an allocation failed.
pub fn news_of(
    alloc: Global,
    baseline: &Baseline<'_>,
    table: &LogTable,
    nodes: &[Node],
) -> Result<Vec<TargetNews>, AllocError>
    ensures { IfOk result (λ news. news.items ≡ map (news_at baseline.now table.now) nodes.now) }
{
    let mut news = Vec::with_capacity(alloc, nodes.len())?;
    for node in nodes {
        let changes = baseline.changes(alloc, table, node)?;
        news.push(TargetNews {
            number: node.number,
            status: node.status,
            changes,
        })?;
    }
    Ok(news)
}
