//! How durations, sizes, dates and the ticks of an axis are written.
//!
//! Most functions return words: numbers, and text of the program. A caller can write them as parts of a page, or append them
//! to a text by [`push_words`]. Other crates cite these definitions without unfolding them, so their goals stay short.
#![tactic(auto)]

mod dates;
mod durations;
mod laws;
mod sizes;
mod ticks;
mod words;

pub use dates::date;
pub use durations::duration;
pub use laws::{durations_are_in_units, each_second_has_its_date};
pub use sizes::{size, tenths};
pub use ticks::{tick, tick_step};
pub use words::{Word, push_words};
