//! The positions of nodes, by the numbers of their logs.
//!
//! The list is filled from the first node on, and grows to the largest number of an opened log.
ghost use Rattle.std.specs.Prelude.{◌≡◌, ◌<◌, ◌≤◌, ◌^◌, ℕ, None, IfOk, OnOk, length, slice_index_or};
ghost use Rattle.redo_outline.specs.Private.Positions.{AreNodePositions, IsPositionSet};

use crate::node::Node;
use std::alloc::{AllocError, Global};

/// Returns the position of the first node of each log, by the number of the log.
pub fn node_positions(alloc: Global, nodes: &[Node]) -> Result<Vec<Option<usize>>, AllocError>
    ensures { IfOk result (λ positions. AreNodePositions nodes.now positions.items) }
{
    let mut positions = Vec::new(alloc);
    for position in 0..nodes.len() {
        set_position(&mut positions, nodes[position].number as usize, position)?;
    }
    Ok(positions)
}

// Sets the position of the log with this number, unless it has one.
fn set_position(
    positions: &mut Vec<Option<usize>>,
    number: usize,
    position: usize,
) -> Result<(), AllocError>
    requires { number < 2 ^ 32 }
    ensures { OnOk result (IsPositionSet number position positions.old.items positions.new.items) }
{
    grow_to(positions, number + 1)?;
    if positions[number].is_none() {
        positions[number] = Some(position);
    }
    Ok(())
}

// Grows `positions` to at least `count` items. New items are `None`.
fn grow_to(positions: &mut Vec<Option<usize>>, count: usize) -> Result<(), AllocError>
    ensures room { OnOk result (count ≤ length positions.new.items) }
    ensures same { (number : ℕ) → slice_index_or positions.new.items number None ≡ slice_index_or positions.old.items number None }
{
    if positions.len() < count {
        positions.resize(count, None)?;
    }
    Ok(())
}
