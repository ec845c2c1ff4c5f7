//! A build, as the tree of its page shows it.
ghost use Rattle.std.specs.Prelude.{◌≡◌};
ghost use Rattle.redo_page.specs.Private.Referring.{build_value};
ghost use Rattle.redo_outline.specs.Facts.{target_at};
ghost use Rattle.redo_page.specs.Tree.{has_one_child, is_among, is_empty, is_expanded, is_moved, is_moved_if, is_same_position, is_silent, node_at, node_if, opening_position, position_of_name, is_in_level};

use crate::level::Level;
use crate::nodes::{has_failed, is_short, node_at};
use redo_line::TargetName;
use redo_logs::LogTable;
use redo_outline::{Node, Outline, target_at};
use redo_view::{Opening, Options};

/// The values that the tree depends on.
#[derive(Clone, Copy)]
pub struct BuildRef<'a> {
    pub table: &'a LogTable,
    pub options: &'a Options,
    pub outline: &'a Outline,
    /// The positions of the targets that have an article.
    pub articles: &'a [usize],
}

impl<'a> BuildRef<'a> {
    /// Returns the facts about the log at a position.
    pub fn node(&self, position: usize) -> Node
        ensures { result ≡ node_at self.now.outline.now position }
    {
        node_at(self.outline.nodes(), position)
    }

    /// Returns the node at a position, if there is one.
    pub fn node_if(&self, position: Option<usize>) -> Option<Node>
        ensures { result ≡ node_if self.now.outline.now position }
    {
        match position {
            Some(position) => Some(self.node(position)),
            None => None,
        }
    }

    /// Returns the target of the log with this number.
    pub fn target(&self, number: u32) -> &'a [u8]
        ensures { result.now ≡ target_at self.now.table.now number }
    {
        target_at(self.table, number)
    }

    fn has_article(&self, position: usize) -> bool
        ensures { result ≡ is_among (build_value self.now).articles position }
    {
        self.articles.iter().any(|other| position == *other)
    }

    /// Returns whether the output of a target is in its article.
    pub fn is_moved(&self, position: usize) -> bool
        ensures { result ≡ is_moved (build_value self.now) position }
    {
        self.has_article(position) && is_short(&self.node(position))
    }

    pub fn is_moved_if(&self, position: Option<usize>) -> bool
        ensures { result ≡ is_moved_if (build_value self.now) position }
    {
        match position {
            Some(position) => self.is_moved(position),
            None => false,
        }
    }

    /// Returns whether a log at this level is expanded when the page is opened.
    pub fn is_expanded(&self, level: Level, node: &Node) -> bool
        ensures { result ≡ is_expanded (build_value self.now) level node.now }
    {
        has_failed(node)
            || (node.fails_below || (level.expanded && has_one_child(self.node_if(level.position))))
    }

    /// Returns the position of the log that an event opens, or that was opened before.
    pub fn opening_position(&self, opening: Opening) -> Option<usize>
        ensures { result ≡ opening_position (build_value self.now) opening }
    {
        match opening {
            Opening::NotOpened => None,
            Opening::OpenedBefore(number) => self.outline.position_of(number),
            Opening::OpensHere(number) => self.outline.position_of(number),
        }
    }

    /// Returns the position of the log of this target, if it is opened.
    pub fn position_of_name(&self, name: &TargetName) -> Option<usize>
        ensures { result ≡ position_of_name (build_value self.now) name.now }
    {
        match self.table.find(name) {
            Some(number) => self.outline.position_of(number),
            None => None,
        }
    }

    /// Returns whether the log at a position is directly in this level.
    pub fn is_in_level(&self, level: Level, position: Option<usize>) -> bool
        ensures { result ≡ is_in_level (build_value self.now) level position }
    {
        match position {
            Some(position) => is_same_position(self.node(position).parent, level.position),
            None => false,
        }
    }
}

fn is_same_position(one: Option<usize>, other: Option<usize>) -> bool
    ensures { result ≡ is_same_position one other }
{
    match (one, other) {
        (None, None) => true,
        (Some(one), Some(other)) => one == other,
        _ => false,
    }
}

fn has_one_child(node: Option<Node>) -> bool
    ensures { result ≡ has_one_child node }
{
    match node {
        Some(node) => node.children == 1 && !node.others,
        None => true,
    }
}

/// Returns whether a log is silent, if there is one.
pub fn is_silent(node: Option<Node>) -> bool
    ensures { result ≡ is_silent node }
{
    match node {
        Some(node) => node.silent != 0,
        None => false,
    }
}

/// Returns whether nothing in a log is visible.
pub fn is_empty(node: &Node) -> bool
    ensures { result ≡ is_empty node.now }
{
    node.children == 0 && !node.others
}
