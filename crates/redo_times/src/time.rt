//! The value of a record's time.
//!
//! Only seconds from 1,000,000,000 to 9,999,999,999 are a time, because a clock that is not set would stretch a timeline.
ghost use Rattle.std.specs.Prelude.{◌≡◌, ◌-◌, ◌<◌, ◌≤◌, IfSome, slice_index_or};
ghost use Rattle.redo_times.specs.Time as spec;

use redo_line::split_at_first;

// The seconds that count as a time, from 2001 to 2286.
const MIN_SECONDS: u64 = 1_000_000_000;

const MAX_SECONDS: u64 = 9_999_999_999;

/// Returns the value of a record's time in milliseconds since 1970, if it counts as a time. Decimals after the third are
/// dropped.
pub fn time_value(time: &[u8]) -> Option<u64>
    ensures { result ≡ spec.time_value time.now }
{
    match split_at_first(b'.', time) {
        Some((seconds, fraction)) => value_of_parts(seconds, fraction),
        None => value_of_parts(time, b""),
    }
}

fn value_of_parts(seconds: &[u8], fraction: &[u8]) -> Option<u64>
    ensures { result ≡ spec.value_of_parts (seconds.now, fraction.now) }
{
    match seconds_of(seconds) {
        Some(seconds) => Some(seconds * 1000 + milliseconds(fraction)),
        None => None,
    }
}

// Returns the value of seconds, if they count as a time.
fn seconds_of(digits: &[u8]) -> Option<u64>
    ensures value { result ≡ spec.seconds_of digits.now }
    ensures at_most { IfSome result (λ seconds. seconds ≤ spec.max_seconds) }
{
    let mut seconds = 0;
    for &digit in digits {
        seconds = seconds * 10 + value_of_digit(digit);
        if seconds > MAX_SECONDS {
            return None;
        }
    }
    if seconds < MIN_SECONDS {
        return None;
    }
    Some(seconds)
}

fn milliseconds(fraction: &[u8]) -> u64
    ensures value { result ≡ spec.milliseconds fraction.now }
    ensures below { result < 100000 }
{
    decimal(fraction, 0) * 100 + decimal(fraction, 1) * 10 + decimal(fraction, 2)
}

// Returns the value of the decimal at this position, or 0 if there is none.
fn decimal(fraction: &[u8], i: usize) -> u64
    ensures value { result ≡ slice_index_or fraction.now i 48 - 48 }
    ensures below { result < 256 }
{
    match fraction.get(i) {
        Some(digit) => value_of_digit(*digit),
        None => 0,
    }
}

fn value_of_digit(digit: u8) -> u64
    ensures value { result ≡ digit - 48 }
    ensures below { result < 256 }
{
    u64::from(digit.saturating_sub(b'0'))
}
