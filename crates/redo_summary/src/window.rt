//! The time that all shown targets took together.
//!
//! It is at least a millisecond wide, so that a timeline can divide by its width. `took` may be 0.
ghost use Rattle.std.specs.Prelude.{◌≡◌};
ghost use Rattle.redo_times.specs.Times.{first_time, last_time};
ghost use Rattle.redo_summary.specs.Window.{cut, known_times, time_over, window_over};
ghost use Rattle.redo_summary.specs.Private.Times.{first_of, last_of};

use crate::target::Target;
use redo_timeline::Window;

// The longest duration that is shown, in milliseconds.
const MAX_DURATION: u64 = (1 << 44) - 1;

/// Returns the window over all known times.
pub fn window_over(targets: &[Target]) -> Option<Window>
    ensures { result ≡ window_over (known_times targets.now) }
{
    let took = time_over(targets);
    match first_time(targets) {
        Some(began) => Some(Window {
            began,
            width: took.max(1),
        }),
        None => None,
    }
}

/// Returns how long it is from the first known time to the last.
pub fn time_over(targets: &[Target]) -> u64
    ensures { result ≡ time_over (known_times targets.now) }
{
    let first = first_time(targets).unwrap_or(0);
    let last = last_time(targets).unwrap_or(0);
    cut(last.saturating_sub(first))
}

/// Returns a duration as it is shown.
pub fn cut(duration: u64) -> u64
    ensures { result ≡ cut duration }
{
    duration.min(MAX_DURATION)
}

// Returns the first known time.
fn first_time(targets: &[Target]) -> Option<u64>
    ensures { result ≡ first_time (known_times targets.now) }
{
    let mut first = None;
    for target in targets {
        first = first_of(first, first_of(target.times.began, target.times.ended));
    }
    first
}

// Returns the last known time.
fn last_time(targets: &[Target]) -> Option<u64>
    ensures { result ≡ last_time (known_times targets.now) }
{
    let mut last = None;
    for target in targets {
        last = last_of(last, last_of(target.times.began, target.times.ended));
    }
    last
}

// Returns the first of two times.
fn first_of(time: Option<u64>, other: Option<u64>) -> Option<u64>
    ensures { result ≡ first_of time other }
{
    match (time, other) {
        (Some(time), Some(other)) => Some(time.min(other)),
        _ => time.or(other),
    }
}

// Returns the last of two times.
fn last_of(time: Option<u64>, other: Option<u64>) -> Option<u64>
    ensures { result ≡ last_of time other }
{
    match (time, other) {
        (Some(time), Some(other)) => Some(time.max(other)),
        _ => time.or(other),
    }
}
