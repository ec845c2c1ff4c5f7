//! Texts that are put together from parts.
ghost use Rattle.std.specs.Prelude.{◌≡◌, ◌++◌, decimal, IfOk, OnOk};
ghost use Rattle.std.specs.List.{flat_map};
ghost use Rattle.redo_command.specs.Explanation.{file_word, quoted_byte};

use itoa::Buffer;
use std::alloc::{AllocError, Global};

/// Returns a text with these parts, concatenated.
pub(crate) fn concat(alloc: Global, parts: &[&[u8]]) -> Result<Vec<u8>, AllocError>
    ensures { IfOk result (λ text. text.items ≡ flat_map (λ part. part.now) parts.now) }
{
    parts.concat(alloc)
}

/// Appends a part.
pub(crate) fn push(text: &mut Vec<u8>, part: &[u8]) -> Result<(), AllocError>
    ensures { OnOk result (text.new.items ≡ text.old.items ++ part.now) }
{
    text.extend_from_slice(part)?;
    Ok(())
}

/// Appends a number.
pub(crate) fn push_number(text: &mut Vec<u8>, number: u32) -> Result<(), AllocError>
    ensures { OnOk result (text.new.items ≡ text.old.items ++ decimal number) }
{
    let mut buffer = Buffer::new();
    push(text, buffer.format(number).as_bytes())
}

/// Appends the text between the quotes of a word of a shell.
pub(crate) fn push_quoted(text: &mut Vec<u8>, word: &[u8]) -> Result<(), AllocError>
    ensures { OnOk result (text.new.items ≡ text.old.items ++ flat_map quoted_byte word.now) }
{
    for &byte in word {
        if byte == b'\'' {
            push(text, b"'\\''")?;
        } else {
            text.push(byte)?;
        }
    }
    Ok(())
}

/// Returns the path of a file of a capture directory as a word of a shell.
pub(crate) fn file_word(alloc: Global, dir: &str, file: &[u8]) -> Result<Vec<u8>, AllocError>
    ensures { IfOk result (λ word. word.items ≡ file_word dir.now file.now) }
{
    let dir = dir.as_bytes();
    let mut word = Vec::new(alloc);
    push(&mut word, b"'")?;
    if dir.starts_with(b"-") {
        push(&mut word, b"./")?;
    }
    push_quoted(&mut word, dir)?;
    push(&mut word, b"/")?;
    push(&mut word, file)?;
    push(&mut word, b"'")?;
    Ok(word)
}
