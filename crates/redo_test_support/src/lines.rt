//! Lines, for tests.
use redo_line::{Cut, Cutter, LineText};
use std::alloc::{AllocError, Global};

/// Returns the bytes as a line.
pub fn line(alloc: Global, bytes: &str) -> Result<Option<LineText>, AllocError> {
    let mut piece = bytes.as_bytes().to_vec(alloc)?;
    piece.push(b'\n')?;
    match Cutter::new(alloc).next(&piece, 0)? {
        Cut::Line { bytes, .. } => Ok(Some(bytes)),
        Cut::More => Ok(None),
    }
}
