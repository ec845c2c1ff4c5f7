//! Pairs each reader with its must-close flag, so that nothing can separate them later.
ghost use Rattle.std.specs.Prelude.{◌≡◌, IfOk, length, zip};

use redo_line::Feed;
use std::alloc::{AllocError, Global};

/// Pairs each reader with the must-close flag at the same index.
pub fn zip_flags<R: Feed>(
    alloc: Global,
    flags: Vec<bool>,
    readers: Vec<R>,
) -> Result<Vec<(bool, R)>, AllocError>
    requires { length readers.items ≡ length flags.items }
    ensures { IfOk result (λ pairs. pairs.items ≡ zip flags.items readers.items) }
{
    let mut pairs = Vec::with_capacity(alloc, readers.len())?;
    for reader in readers {
        let must_close = flags[pairs.len()];
        pairs.push((must_close, reader))?;
    }
    Ok(pairs)
}
