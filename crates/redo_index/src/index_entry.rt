use redo_line::TargetName;

/// A target that an index lists.
#[derive(Drop)]
pub struct IndexEntry {
    pub number: u32,
    pub target: TargetName,
    /// Whether the target's stream must end with the log's closing record.
    pub must_close: bool,
}
