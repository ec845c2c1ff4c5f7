/// The options of a text: which entries it shows, and how.
#[derive(Clone, Copy, Debug, PartialEq, Eq)]
pub struct Options {
    /// Whether logs of mentioned targets are shown too, each at its target's first mention.
    pub recursive: bool,
    /// Whether an `unchanged` record counts as a mention.
    pub unchanged: bool,
    /// Whether text lines are shown.
    pub details: bool,
    /// Whether every mention gets a redo line, with what was done about the target's lock.
    pub debug_locks: bool,
    /// Whether a redo line begins with the pid of the record that it shows.
    pub debug_pids: bool,
}
