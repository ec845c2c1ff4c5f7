//! The kinds of text that a page shows.

/// A kind of text, which decides how it is shown.
#[derive(Clone, Copy)]
pub enum TextKind {
    /// The text of a log: compilers set colours in it.
    Log,
    /// A name, or words of the program: without colours.
    Monochrome,
    /// The title of a page: without elements.
    Title,
}
