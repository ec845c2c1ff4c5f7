//! The command that writes the same logs as one text. A reader can copy it: the page shows it unchanged.
ghost use Rattle.std.specs.Prelude.{◌≡◌, ◌++◌, ◌&&◌, ◌||◌, ◌==◌, not, IfOk, OnOk};
ghost use Rattle.std.specs.List.{flat_map, list_all};
ghost use Rattle.redo_html.specs.Laws.{is_printable_ascii};
ghost use Rattle.redo_page.specs.Command.{argument, command, command_in, format_byte, text_if, in_quotes, is_safe, is_safe_word, octal, printed, quoted, quoted_byte};

use redo_html::is_printable;
use redo_line::TargetName;
use redo_view::Options;
use std::alloc::{AllocError, Global};

/// Returns the command that writes the same as one text.
pub fn command(
    alloc: Global,
    dir: &[u8],
    options: &Options,
    requested: &[TargetName],
) -> Result<Vec<u8>, AllocError>
    ensures { IfOk result (λ text. text.items ≡ command dir.now options.now requested.now) }
{
    let text = command_in(alloc, false, dir, options, requested)?;
    if is_printable(&text) {
        Ok(text)
    } else {
        command_in(alloc, true, dir, options, requested)
    }
}

// Returns the command, only in ASCII if `ascii` is set.
fn command_in(
    alloc: Global,
    ascii: bool,
    dir: &[u8],
    options: &Options,
    requested: &[TargetName],
) -> Result<Vec<u8>, AllocError>
    ensures { IfOk result (λ text. text.items ≡ command_in ascii dir.now options.now requested.now) }
{
    let mut command = b"redo-log -r".to_vec(alloc)?;
    push_if(&mut command, options.unchanged, b" -u")?;
    push_if(&mut command, options.debug_locks, b" --debug-locks")?;
    push_if(&mut command, true, b" --dir=")?;
    push_quoted(&mut command, ascii, dir)?;
    push_arguments(&mut command, ascii, requested)?;
    Ok(command)
}

fn push_if(command: &mut Vec<u8>, condition: bool, text: &[u8]) -> Result<(), AllocError>
    ensures { OnOk result (command.new.items ≡ command.old.items ++ text_if condition text.now) }
{
    if condition {
        command.extend_from_slice(text)?;
    }
    Ok(())
}

fn push_arguments(
    command: &mut Vec<u8>,
    ascii: bool,
    names: &[TargetName],
) -> Result<(), AllocError>
    ensures { OnOk result (command.new.items ≡ command.old.items ++ flat_map (argument ascii) names.now) }
{
    for name in names {
        push_argument(command, ascii, name.bytes())?;
    }
    Ok(())
}

// Appends the name of a target as an argument.
fn push_argument(command: &mut Vec<u8>, ascii: bool, name: &[u8]) -> Result<(), AllocError>
    ensures { OnOk result (command.new.items ≡ command.old.items ++ argument ascii name.now) }
{
    push_if(command, true, b" ")?;
    push_if(command, name.starts_with(b"-"), b"./")?;
    push_quoted(command, ascii, name)
}

// Appends a word, quoted if a shell would change it.
fn push_quoted(command: &mut Vec<u8>, ascii: bool, word: &[u8]) -> Result<(), AllocError>
    ensures { OnOk result (command.new.items ≡ command.old.items ++ quoted ascii word.now) }
{
    if is_safe_word(word) {
        command.extend_from_slice(word)?;
        Ok(())
    } else if ascii && !are_printable_ascii(word) {
        push_printed(command, word)
    } else {
        push_in_quotes(command, word)
    }
}

fn push_printed(command: &mut Vec<u8>, word: &[u8]) -> Result<(), AllocError>
    ensures { OnOk result (command.new.items ≡ command.old.items ++ printed word.now) }
{
    push_between(command, b"\"$(printf '", word, b"')\"")
}

// Appends a word in the format of `printf`, between two texts.
fn push_between(
    command: &mut Vec<u8>,
    start: &[u8],
    word: &[u8],
    end: &[u8],
) -> Result<(), AllocError>
    ensures { OnOk result (command.new.items ≡ command.old.items ++ (start.now ++ (flat_map format_byte word.now ++ end.now))) }
{
    command.extend_from_slice(start)?;
    push_format(command, word)?;
    command.extend_from_slice(end)?;
    Ok(())
}

fn push_format(command: &mut Vec<u8>, word: &[u8]) -> Result<(), AllocError>
    ensures { OnOk result (command.new.items ≡ command.old.items ++ flat_map format_byte word.now) }
{
    for byte in word {
        push_format_byte(command, *byte)?;
    }
    Ok(())
}

fn push_format_byte(command: &mut Vec<u8>, byte: u8) -> Result<(), AllocError>
    ensures { OnOk result (command.new.items ≡ command.old.items ++ format_byte byte) }
{
    if is_literal(byte) {
        command.push(byte)?;
    } else {
        command.extend_from_slice(&octal(byte))?;
    }
    Ok(())
}

// Returns whether `printf` and a shell read a byte as itself, also at the start of a format.
fn is_literal(byte: u8) -> bool
    ensures { result ≡ (is_safe byte && not (byte == 37 || byte == 45)) }
{
    is_safe(byte) && !(byte == b'%' || byte == b'-')
}

fn octal(byte: u8) -> [u8; 4]
    ensures { result ≡ octal byte }
{
    [
        b'\\',
        b'0' + byte / 64,
        b'0' + byte / 8 % 8,
        b'0' + byte % 8,
    ]
}

fn push_in_quotes(command: &mut Vec<u8>, word: &[u8]) -> Result<(), AllocError>
    ensures { OnOk result (command.new.items ≡ command.old.items ++ in_quotes word.now) }
{
    push_if(command, true, b"'")?;
    push_bytes(command, word)?;
    push_if(command, true, b"'")
}

fn push_bytes(command: &mut Vec<u8>, word: &[u8]) -> Result<(), AllocError>
    ensures { OnOk result (command.new.items ≡ command.old.items ++ flat_map quoted_byte word.now) }
{
    for byte in word {
        push_byte(command, *byte)?;
    }
    Ok(())
}

fn push_byte(command: &mut Vec<u8>, byte: u8) -> Result<(), AllocError>
    ensures { OnOk result (command.new.items ≡ command.old.items ++ quoted_byte byte) }
{
    if byte == b'\'' {
        command.extend_from_slice(b"'\\''")?;
    } else {
        command.push(byte)?;
    }
    Ok(())
}

fn is_safe_word(word: &[u8]) -> bool
    ensures { result ≡ is_safe_word word.now }
{
    !word.is_empty() && are_safe(word)
}

fn are_safe(word: &[u8]) -> bool
    ensures { result ≡ list_all is_safe word.now }
{
    word.iter().all(
        |byte: &u8| -> bool
            ensures { result ≡ is_safe byte.now }
        { is_safe(*byte) },
    )
}

// Returns whether a shell reads a byte as itself.
#[tactic(auto, unfolding(crate::specs::Command::is_safe))]
fn is_safe(byte: u8) -> bool
    ensures { result ≡ is_safe byte }
{
    matches!(byte, b'a'..=b'z' | b'@'..=b'Z' | b'+'..=b':' | b'%' | b'=' | b'_')
}

fn are_printable_ascii(word: &[u8]) -> bool
    ensures { result ≡ list_all is_printable_ascii word.now }
{
    word.iter().all(
        |byte: &u8| -> bool
            ensures { result ≡ is_printable_ascii byte.now }
        { is_printable_ascii(*byte) },
    )
}

fn is_printable_ascii(byte: u8) -> bool
    ensures { result ≡ is_printable_ascii byte }
{
    matches!(byte, b' '..=b'~')
}
