//! Laws, which are theorems about the definitions alone: each contract is a theorem, and the bodies are empty.
ghost use Rattle.std.specs.Prelude.{◌≡◌, ◌<◌, ◌≤◌, ℕ, codes};
ghost use Rattle.httpdate.specs.declared.parts.Parts.{Parts};
ghost use Rattle.redo_units.specs.Dates.{IsDateOf, date_parts};
ghost use Rattle.redo_units.specs.Durations.{AreTenths, AreUnits, duration_words};

/// Each second before the year 10000 has exactly one date.
pub fn each_second_has_its_date()
    ensures exists { (secs : ℕ) → secs < 253402300800 → IsDateOf secs (date_parts secs) }
    ensures only { (secs : ℕ) (parts : Parts) → IsDateOf secs parts → date_parts secs ≡ parts }
{}

/// A duration is shown in the units of its range, and cut to a multiple of the smaller one: hundredths of a second below 10 s, tenths below
/// a minute, seconds below an hour, and minutes from then on.
pub fn durations_are_in_units()
    ensures hundredths { (ms : ℕ) → ms < 10000 → AreUnits ms 1000 10 (codes ".") (codes " s") (duration_words ms) }
    ensures tenths { (ms : ℕ) → 10000 ≤ ms → ms < 60000 → AreTenths ms (duration_words ms) }
    ensures seconds { (ms : ℕ) → 60000 ≤ ms → ms < 3600000 →
        AreUnits ms 60000 1000 (codes " min ") (codes " s") (duration_words ms) }
    ensures minutes { (ms : ℕ) → 3600000 ≤ ms → AreUnits ms 3600000 60000 (codes " h ") (codes " min") (duration_words ms) }
{}
