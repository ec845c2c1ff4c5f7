//! Writes numbers with units.
ghost use Rattle.std.specs.Prelude.{◌≡◌, ◌∷◌, [], map};
ghost use Rattle.redo_html.specs.Parts.{part_of};
ghost use Rattle.redo_page.specs.Private.Writing.{WroteParts};
ghost use Rattle.redo_page.specs.Words.{word_part, words_parts};
ghost use Rattle.redo_units.specs.Words.{word_of};

use crate::writer::PageWriter;
use redo_device::Sink;
use redo_html::Piece;
use redo_units::Word;

fn piece_of(word: Word) -> Piece<'static>
    ensures { part_of result ∷ [] ≡ word_part (word_of word) }
{
    match word {
        Word::Number(number) => Piece::Number(number),
        Word::Text(text) => Piece::Text(text),
    }
}

fn write_word<W: Sink>(word: Word, page: &mut PageWriter<'_, W>)
    ensures { WroteParts W.written page.old page.new (word_part (word_of word)) }
{
    page.put(&[piece_of(word)]);
}

/// Writes words.
pub fn write_words<W: Sink>(words: &[Word], page: &mut PageWriter<'_, W>)
    ensures { WroteParts W.written page.old page.new (words_parts (map word_of words.now)) }
{
    for word in words {
        write_word(*word, page);
    }
}
