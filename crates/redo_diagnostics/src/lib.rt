//! The diagnostics of compilers and linkers in the lines of a log: warnings and errors.
//!
//! [`read_diagnostic`] returns the [`Diagnostic`] of a line. Its key is the same in another build, if only places and the names of
//! temporary files changed. [`KeyCounts`] counts the diagnostics of a log by key, so that key and number together are an id.
//!
//! # Design
//!
//! - Colours and links are the sequences that `redo_html` defines. So the bytes that count are those that a page shows. A link without
//!   an end is none, and counts.
//! - A word ends with its only colon, so the code looks for a word only before each colon. The definition tests each place.
//!   [`may_have_diagnostic`] rules out many lines at once.
//! - A diagnostic borrows from its line, or from the buffer that a line with colours or links is copied to without them. Its parts are
//!   read when they are asked for. So is its [`Key`], which is two parts of the line. Only a part with the name of a temporary file is
//!   copied. [`KeyCounts`] stores keys as they are, and keeps its memory from one log to the next.
//! - Two keys are the same if both parts are: what precedes the first colon, and what follows it and a space.
//! - A key always has a colon and a space after its origin, even if the origin is empty: `warning: x` has the key `: warning: x`.
//!   Otherwise `warning:y warning: z` and `warning: warning: z` would have the same key.
//! - What precedes the word doesn't count without a colon. It names no file and no program, and is often a number that changes: of a
//!   step (`[ 3%] warning: x`), or of a row that a compiler quotes.
//! - Pages use other definitions, by which people miss less. `redo_outline` counts each line with `warning:`, such as `x.c:3:warning: y`,
//!   and `redo_page` also takes lines of shells, tests and make for causes. Neither copies a line to remove its colours, so a word that
//!   has sequences inside isn't found.
#![tactic(auto)]

mod counts;
mod diagnostic;
mod flag;
mod key;
mod laws;
mod place;
mod plain;
mod severity;
mod split;
mod word;

pub use counts::KeyCounts;
pub use diagnostic::{
    Diagnostic, may_have_diagnostic, may_have_temporary, read_diagnostic, read_simple_diagnostic,
};
pub use key::Key;
pub use laws::{
    colours_and_links_say_nothing, ids_are_distinct, keys_ignore_places, keys_tell_apart,
};
pub use place::Place;
pub use plain::push_plain;
pub use severity::Severity;
