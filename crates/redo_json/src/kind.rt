//! What is known of the lines of a log.
ghost use Rattle.std.specs.Prelude.{◌≡◌, ℕ, List, true};
ghost use Rattle.redo_outline.specs.Facts.{entries_at, texts_of};
ghost use Rattle.redo_json.specs.Private.LogLines.{AreOfKind, ArePlainLines, AreUtf8};

use crate::log_lines::{are_simple, are_text};
use redo_logs::LogTable;

/// What is known of all lines of a log.
#[derive(Clone, Copy)]
pub enum Kind {
    /// They are UTF-8, a string of JSON has their bytes as they are, and they have no names of temporary files.
    Simple,
    /// They are UTF-8.
    Text,
    /// They may have any bytes.
    Any,
}

impl Kind {
    /// Returns the kind of log `number`. A log that doesn't exist has no lines.
    pub fn of(table: &LogTable, number: u32) -> Kind
        ensures { AreOfKind result (texts_of (entries_at number table.now)) }
    {
        if are_simple(table, number) {
            return Kind::Simple;
        }
        if are_text(table, number) {
            return Kind::Text;
        }
        Kind::Any
    }

    /// Returns true only if all lines are UTF-8.
    pub fn is_text(self) -> bool
        ensures { result ≡ true → (lines : List (List ℕ)) → AreOfKind self lines → AreUtf8 lines }
    {
        match self {
            Kind::Simple | Kind::Text => true,
            Kind::Any => false,
        }
    }

    /// Returns true only if a string of JSON has the bytes of all lines as they are.
    pub fn is_plain(self) -> bool
        ensures { result ≡ true → (lines : List (List ℕ)) → AreOfKind self lines → ArePlainLines lines }
    {
        match self {
            Kind::Simple => true,
            Kind::Text | Kind::Any => false,
        }
    }
}
