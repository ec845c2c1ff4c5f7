//! The times that an axis shows.
//!
//! A step is at least a tenth of an axis, so an axis has at most 11 ticks. Up to ten days it is a round time. The step
//! decides how many decimals of a second are written, so all ticks of an axis except 0 have the same number.
ghost use Rattle.std.specs.Prelude.{◌≡◌, ◌/◌, ◌<◌, ◌≤◌, map};
ghost use Rattle.redo_units.specs.Ticks as spec;
ghost use Rattle.redo_units.specs.Ticks.{tick_step_of, tick_words};
ghost use Rattle.redo_units.specs.Words.{word_of};

use crate::durations::{HOUR, MINUTE, SECOND};
use crate::words::{NO_WORD, Word};

// The steps of an axis.
const STEPS: [u64; 26] = [
    1,
    2,
    5,
    10,
    20,
    50,
    100,
    200,
    500,
    SECOND,
    2 * SECOND,
    5 * SECOND,
    10 * SECOND,
    15 * SECOND,
    30 * SECOND,
    MINUTE,
    2 * MINUTE,
    5 * MINUTE,
    10 * MINUTE,
    15 * MINUTE,
    30 * MINUTE,
    HOUR,
    2 * HOUR,
    4 * HOUR,
    12 * HOUR,
    24 * HOUR,
];

/// Returns how far the ticks of an axis are apart, in milliseconds: a round time, so that at most 10 steps fit in the width
/// of the axis. A width of more than 10 days is one step.
pub fn tick_step(width: u64) -> u64
    ensures step { result ≡ tick_step_of width }
    ensures positive { 0 < result }
    ensures at_most_10 { width / result ≤ 10 }
{
    for &step in &STEPS {
        if width <= step.saturating_mul(10) {
            return step;
        }
    }
    width
}

/// Returns how the time of a tick is written, in milliseconds since the axis begins: `0`, `0.05 s`, `12 s`, `2:05` for minutes
/// and seconds, `1:02 h` for hours and minutes. Seconds below a minute have the decimals that this step needs.
#[tactic(auto, unfolding(crate::specs::Ticks::tick_words))]
pub fn tick(ms: u64, step: u64) -> [Word; 6]
    ensures { map word_of result ≡ tick_words ms step }
{
    if ms == 0 {
        [Word::Number(0), NO_WORD, NO_WORD, NO_WORD, NO_WORD, NO_WORD]
    } else if ms < MINUTE {
        [
            Word::Number(ms / SECOND),
            point_if(step < 1000),
            decimal_if(step < 1000, ms / 100),
            decimal_if(step < 100, ms / 10),
            decimal_if(step < 10, ms),
            Word::Text(b" s"),
        ]
    } else if ms < HOUR {
        [
            Word::Number(ms / MINUTE),
            Word::Text(b":"),
            Word::Number(ms / SECOND % 60 / 10),
            Word::Number(ms / SECOND % 60 % 10),
            NO_WORD,
            NO_WORD,
        ]
    } else {
        [
            Word::Number(ms / HOUR),
            Word::Text(b":"),
            Word::Number(ms / MINUTE % 60 / 10),
            Word::Number(ms / MINUTE % 60 % 10),
            Word::Text(b" h"),
            NO_WORD,
        ]
    }
}

fn point_if(shown: bool) -> Word
    ensures { word_of result ≡ spec.point_if shown }
{
    if shown { Word::Text(b".") } else { NO_WORD }
}

// Returns the last digit of a number, or nothing.
fn decimal_if(shown: bool, number: u64) -> Word
    ensures { word_of result ≡ spec.decimal_if shown number }
{
    if shown {
        Word::Number(number % 10)
    } else {
        NO_WORD
    }
}
