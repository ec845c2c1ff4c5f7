/// How severe a diagnostic is, by its word.
#[derive(Clone, Copy, Debug, PartialEq, Eq)]
pub enum Severity {
    /// The word is `warning:`.
    Warning,
    /// The word is `error:`.
    Error,
    /// The word is `fatal error:`.
    FatalError,
}
