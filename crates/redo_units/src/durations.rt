ghost use Rattle.std.specs.Prelude.{◌≡◌, map};
ghost use Rattle.redo_units.specs.Durations.{duration_words};
ghost use Rattle.redo_units.specs.Words.{word_of};

use crate::words::{NO_WORD, Word};

// A second in milliseconds. The next two are in milliseconds, too.
pub const SECOND: u64 = 1000;

pub const MINUTE: u64 = 60 * SECOND;

pub const HOUR: u64 = 60 * MINUTE;

/// Returns how a duration in milliseconds is written: `1.23 s`, `12.3 s`, `2 min 05 s`, `1 h 02 min`. The rest
/// is cut off.
#[tactic(auto, unfolding(crate::specs::Durations::duration_words))]
pub fn duration(ms: u64) -> [Word; 5]
    ensures { map word_of result ≡ duration_words ms }
{
    if ms < 10 * SECOND {
        [
            Word::Number(ms / SECOND),
            Word::Text(b"."),
            Word::Number(ms / 100 % 10),
            Word::Number(ms / 10 % 10),
            Word::Text(b" s"),
        ]
    } else if ms < MINUTE {
        [
            Word::Number(ms / SECOND),
            Word::Text(b"."),
            Word::Number(ms / 100 % 10),
            Word::Text(b" s"),
            NO_WORD,
        ]
    } else if ms < HOUR {
        [
            Word::Number(ms / MINUTE),
            Word::Text(b" min "),
            Word::Number(ms / SECOND % 60 / 10),
            Word::Number(ms / SECOND % 60 % 10),
            Word::Text(b" s"),
        ]
    } else {
        [
            Word::Number(ms / HOUR),
            Word::Text(b" h "),
            Word::Number(ms / MINUTE % 60 / 10),
            Word::Number(ms / MINUTE % 60 % 10),
            Word::Text(b" min"),
        ]
    }
}
