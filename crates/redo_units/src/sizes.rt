ghost use Rattle.std.specs.Prelude.{◌≡◌, map};
ghost use Rattle.redo_units.specs.Sizes.{size_words, tenths_words};
ghost use Rattle.redo_units.specs.Words.{word_of};

use crate::words::{NO_WORD, Word};

const KILOBYTE: u64 = 1000;

const MEGABYTE: u64 = 1000 * KILOBYTE;

const GIGABYTE: u64 = 1000 * MEGABYTE;

/// Returns how a number of bytes is written: `1 byte`, `999 bytes`, `46.0 kB`, `1.2 MB`, `3.4 GB`. A kB is 1,000 bytes. The
/// decimals after the first are cut off.
#[tactic(auto, unfolding(crate::specs::Sizes::size_words))]
pub fn size(bytes: u64) -> [Word; 4]
    ensures { map word_of result ≡ size_words bytes }
{
    if bytes == 1 {
        [Word::Number(1), Word::Text(b" byte"), NO_WORD, NO_WORD]
    } else if bytes < KILOBYTE {
        [Word::Number(bytes), Word::Text(b" bytes"), NO_WORD, NO_WORD]
    } else if bytes < MEGABYTE {
        [
            Word::Number(bytes / KILOBYTE),
            Word::Text(b"."),
            Word::Number(bytes / (KILOBYTE / 10) % 10),
            Word::Text(b" kB"),
        ]
    } else if bytes < GIGABYTE {
        [
            Word::Number(bytes / MEGABYTE),
            Word::Text(b"."),
            Word::Number(bytes / (MEGABYTE / 10) % 10),
            Word::Text(b" MB"),
        ]
    } else {
        [
            Word::Number(bytes / GIGABYTE),
            Word::Text(b"."),
            Word::Number(bytes / (GIGABYTE / 10) % 10),
            Word::Text(b" GB"),
        ]
    }
}

/// Returns a quotient with one decimal, such as `2.5`. The decimals after it are cut off. The divisor 0 counts as 1. Ten
/// times the amount saturates at `u64::MAX`.
#[tactic(auto, unfolding(crate::specs::Sizes::tenths_words))]
pub fn tenths(amount: u64, per: u64) -> [Word; 3]
    ensures { map word_of result ≡ tenths_words amount per }
{
    let tenths = amount.saturating_mul(10) / per.max(1);
    [
        Word::Number(tenths / 10),
        Word::Text(b"."),
        Word::Number(tenths % 10),
    ]
}
