//! The words of numbers with units.
//!
//! A page writes words as its parts, without memory; `push_words` appends their text to a text. An array has the same number
//! of words for each number, so some are empty.
ghost use Rattle.std.specs.Prelude.{◌≡◌, ◌++◌, map, OnOk};
ghost use Rattle.redo_units.specs.Words.{decimal_text, word_of, word_text, words_text};

use itoa::Buffer;
use std::alloc::AllocError;

/// A part of a text. It is copied, and it has no memory of its own.
#[derive(Clone, Copy)]
pub enum Word {
    /// A number, in decimal.
    Number(u64),
    /// Text of the program.
    Text(&'static [u8]),
}

// The word at unused places of an array.
pub const NO_WORD: Word = Word::Text(b"");

/// Appends the text of words. The only error is that an allocation failed. The text may then end with a part of theirs.
pub fn push_words(words: &[Word], text: &mut Vec<u8>) -> Result<(), AllocError>
    ensures { OnOk result (text.new.items ≡ text.old.items ++ words_text (map word_of words.now)) }
{
    for &word in words {
        push_word(word, text)?;
    }
    Ok(())
}

fn push_word(word: Word, text: &mut Vec<u8>) -> Result<(), AllocError>
    ensures { OnOk result (text.new.items ≡ text.old.items ++ word_text (word_of word)) }
{
    match word {
        Word::Number(number) => push_number(number, text),
        Word::Text(bytes) => text.extend_from_slice(bytes),
    }
}

fn push_number(number: u64, text: &mut Vec<u8>) -> Result<(), AllocError>
    ensures { OnOk result (text.new.items ≡ text.old.items ++ decimal_text number) }
{
    let mut buffer = Buffer::new();
    text.extend_from_slice(buffer.format(number).as_bytes())
}
