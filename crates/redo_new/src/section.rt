//! The sections of the text.

/// The lines of one kind.
#[derive(Clone, Copy, Debug, PartialEq, Eq)]
pub enum Section {
    /// The targets that newly fail.
    NewlyFailing,
    /// The new diagnostics.
    New,
    /// The targets that are fixed.
    Fixed,
}
