//! Lines without colours and links.
ghost use Rattle.std.specs.Prelude.{◌≡◌, ◌++◌, OnOk};
ghost use Rattle.redo_diagnostics.specs.Plain.{plain_line};

use redo_html::{ESCAPE, sequence_size};
use redo_line::split_at_first;
use std::alloc::AllocError;

/// Appends a line without colours and links to `plain`: the bytes that are in no sequence. The only error is that an allocation failed; a
/// part of the line may then have been appended.
pub fn push_plain(line: &[u8], plain: &mut Vec<u8>) -> Result<(), AllocError>
    ensures { OnOk result (plain.new.items ≡ plain.old.items ++ plain_line line.now) }
{
    let mut left = line;
    'escapes: while let Some((front, behind)) = split_at_first(ESCAPE, left) {
        plain.extend_from_slice(front)?;
        let length = sequence_size(&left[front.len()..]);
        if length > 0 {
            left = &behind[length - 1..];
        } else {
            plain.push(ESCAPE)?;
            left = behind;
        }
    }
    plain.extend_from_slice(left)?;
    Ok(())
}
