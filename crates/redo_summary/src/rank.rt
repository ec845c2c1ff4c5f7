//! Rows of tables.

/// A row of a table: a recipe with a time or with its memory, or a target with its number of warnings.
#[derive(Clone, Copy, Debug, PartialEq, Eq)]
pub struct Rank {
    /// How long it took, or ran alone, in milliseconds; its memory in kilobytes; or its number of warnings.
    pub value: u64,
    /// The position of its target.
    pub position: usize,
}
