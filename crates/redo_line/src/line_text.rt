ghost use Rattle.std.specs.Prelude.{◌≡◌, IfOk};
ghost use Rattle.redo_line.specs.Lines.{HasNoLineFeed};

use std::alloc::{AllocError, Global};
use std::marker::Model;

/// The bytes of a line or of a part of one. They contain no line feed, and need not be text in any encoding.
#[derive(Debug, Drop)]
pub struct LineText {
    bytes: Vec<u8>,
}

impl Model for LineText {
    ghost use Rattle.std.specs.Prelude.{ℕ, List};
    ghost use Rattle.redo_line.specs.Lines.{HasNoLineFeed};

    ghost Value = { List ℕ };

    ghost view = { λ text. text.bytes.items };

    ghost invariant = { λ text. HasNoLineFeed text.bytes.items };
}

impl LineText {
    pub(crate) fn from_vec(bytes: Vec<u8>) -> LineText
        requires { HasNoLineFeed bytes.items }
        ensures { result ≡ bytes.items }
    {
        LineText { bytes }
    }

    // Returns an owned copy of these bytes.
    pub(crate) fn copy_of(alloc: Global, bytes: &[u8]) -> Result<LineText, AllocError>
        requires { HasNoLineFeed bytes.now }
        ensures { IfOk result (λ text. text ≡ bytes.now) }
    {
        Ok(LineText {
            bytes: bytes.to_vec(alloc)?,
        })
    }

    pub(crate) fn into_vec(self) -> Vec<u8>
        ensures bytes { result.items ≡ self }
        ensures no_line_feed { HasNoLineFeed result.items }
    {
        self.bytes
    }

    /// Returns the bytes as they were read.
    pub fn bytes(&self) -> &[u8]
        ensures bytes { result.now ≡ self.now }
        ensures no_line_feed { HasNoLineFeed result.now }
    {
        &self.bytes
    }
}
