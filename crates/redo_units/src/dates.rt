//! Dates. `httpdate` says only which second a date means. The definition finds the year and the month by their numbers of
//! days, and the proof shows that the date of a second is the only one.
ghost use Rattle.std.specs.Prelude.{◌≡◌};
ghost use Rattle.redo_units.specs.Dates.{date_text_of};

use httpdate::HttpDate;

/// Returns the date of a number of seconds since 1970, as HTTP writes it: `Sat, 28 Nov 2026 01:26:51 GMT`. There is none from
/// the year 10000 on.
pub fn date(secs: u64) -> Option<[u8; 29]>
    ensures { result ≡ date_text_of secs }
{
    match HttpDate::from_unix_secs(secs) {
        Ok(date) => Some(date.to_bytes()),
        Err(_) => None,
    }
}
