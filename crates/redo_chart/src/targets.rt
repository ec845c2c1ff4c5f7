//! The facts about the shown target at a position.
ghost use Rattle.std.specs.Prelude.{◌≡◌, option_map};
ghost use Rattle.redo_chart.specs.Targets as spec;

use memchr::memrchr;
use redo_logs::LogTable;
use redo_outline::{Node, target_at};

/// Returns the name of the target at this position, or the empty name if there is no such target.
pub fn name_at<'a>(table: &'a LogTable, nodes: &[Node], position: usize) -> &'a [u8]
    ensures { result.now ≡ spec.name_at table.now nodes.now position }
{
    match nodes.get(position) {
        Some(node) => target_at(table, node.number),
        None => b"",
    }
}

/// Returns the status of the target at this position, if it is known.
pub fn status_at(nodes: &[Node], position: usize) -> Option<i32>
    ensures { result ≡ spec.status_at nodes.now position }
{
    match nodes.get(position) {
        Some(node) => node.status,
        None => None,
    }
}

/// Returns the part of a name after its last slash, if it isn't empty.
pub fn last_part(name: &[u8]) -> Option<&[u8]>
    ensures { option_map (λ part. part.now) result ≡ spec.last_part name.now }
{
    let part = after_last_slash(name);
    if part.is_empty() { None } else { Some(part) }
}

// Returns the part of a name after its last slash; the name, if it has none.
fn after_last_slash(name: &[u8]) -> &[u8]
    ensures { result.now ≡ spec.after_last_slash name.now }
{
    match memrchr(b'/', name) {
        Some(at) => &name[at + 1..],
        None => name,
    }
}
