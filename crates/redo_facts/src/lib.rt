//! The facts of recipes that the file `facts` of a capture has: directory, commands, and the resources that they took.
//!
//! [`read_facts`] reads the stream of the file, and returns the [`Facts`] of each target of an index. Nothing in the file is a fault:
//! facts that it doesn't state are unknown. Laws say which lines count, and that no other line changes anything.
#![tactic(auto)]

mod facts;
mod file;
mod laws;
mod lines;
mod statement;

pub use facts::{Command, Facts};
pub use file::read_facts;
pub use laws::{earlier_log_does_not_count, line_has_one_statement, other_lines_are_skipped};
pub use statement::Usage;
