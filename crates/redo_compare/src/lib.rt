//! What is new in a build since an earlier one, the *baseline*: new and gone diagnostics, and targets that newly fail or are fixed.
//!
//! [`compare_log`] compares a log of a table with the log of the same target in an earlier table. It says of each diagnostic whether it is
//! new, and how many are gone. [`newly_fails`] and [`is_fixed`] compare how a target ended, which [`outcome_in`] takes from an outline.
//!
//! [`LogDiagnostics`] has the diagnostics of a log, and [`compare`] compares two logs' diagnostics. Laws say how many diagnostics are new,
//! that none is if no key occurs more often than before, and that none is since the same build.
//!
//! # Terms
//!
//! - *Occurrence*: a diagnostic in a log, with its key and source line.
//! - *Source line*: the line of the program that the compiler shows in the next line of the log, such as `int x;` of `  12 |   int x;`.
//! - *Round*: in order, each occurrence takes a same one out of those that are left of the earlier log. It is known if there is one.
//!   Same are those with the same key and source line in the first round, and those with the same key in the second.
//!
//! # Design
//!
//! - Keys alone decide how many occurrences are new, and source lines decide which. A compiler reports many diagnostics with the same
//!   key; the source line tells most of them apart, and moves with the code.
//! - The definition removes occurrences from a list. The code counts them by hashing, because lists with the same key would take
//!   quadratic time. Keys and source lines are borrowed by the counts, and not copied.
#![tactic(auto)]

mod baseline;
mod changes;
mod found;
mod laws;
mod log;
mod log_changes;
mod outcome;
mod remaining;
mod rounds;
mod source;

pub use baseline::{Baseline, TargetChanges};
pub use changes::{Changes, compare};
pub use found::{LogDiagnostics, Occurrence};
pub use laws::{
    flags_pick_new, known_source_lines_are_not_new, log_of_new_target, log_with_same_lines,
    new_are_counted, new_are_in_order, same_build_has_nothing_new, same_log_has_nothing_new,
    targets_of_one_build, when_nothing_is_new,
};
pub use log::skip_others;
pub use log_changes::{LogChanges, compare_log};
pub use outcome::{Outcome, is_fixed, newly_fails, outcome_in, outcome_of};
