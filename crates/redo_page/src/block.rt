//! Text lines in blocks.
use redo_html::Style;

/// An open block of text.
#[derive(Clone, Copy)]
pub struct Block {
    /// The number of its lines.
    pub lines: usize,
    /// The number of its bytes, with line feeds.
    pub bytes: usize,
    /// The style at its end.
    pub style: Style,
}

/// The open group or block in the contents of a log.
#[derive(Clone, Copy)]
pub enum Pending {
    Nothing,
    /// A group of silent logs, with the number of its logs that are left.
    Group(usize),
    Text(Block),
}
