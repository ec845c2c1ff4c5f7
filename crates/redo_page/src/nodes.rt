//! The facts about targets, by their positions.
ghost use Rattle.std.specs.Prelude.{◌≡◌};
ghost use Rattle.redo_page.specs.Tree.{has_failed, is_short, node_at};

use redo_outline::Node;

/// The node of a position past the end.
pub const NO_NODE: Node = Node {
    number: 0,
    parent: None,
    status: None,
    lines: 0,
    bytes: 0,
    warnings: 0,
    below: 0,
    children: 0,
    others: false,
    warnings_below: 0,
    fails_below: false,
    silent: 0,
    took: None,
    ended: None,
};

/// Returns the facts about the log at a position.
pub fn node_at(nodes: &[Node], position: usize) -> Node
    ensures { result ≡ node_at nodes.now position }
{
    match nodes.get(position) {
        Some(node) => *node,
        None => NO_NODE,
    }
}

/// Returns whether a target failed.
pub fn has_failed(node: &Node) -> bool
    ensures { result ≡ has_failed node.now }
{
    match node.status {
        None => false,
        Some(0) => false,
        Some(_) => true,
    }
}

/// Returns whether an article can show the whole output of a target.
pub fn is_short(node: &Node) -> bool
    ensures { result ≡ is_short node.now }
{
    node.lines != 0 && node.lines <= 300 && node.bytes <= 40000
}
