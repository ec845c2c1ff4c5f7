//! The index of a capture directory: its targets, each with a log file's number and a must-close flag.
//!
//! [`read_index`] parses the bytes of the file `names` and returns an [`Index`].
#![tactic(auto)]

mod index;
mod index_entry;
mod index_fault;
mod laws;

pub use index::{Index, read_index, read_index_with_keys};
pub use index_fault::IndexFault;
pub use laws::{index_line_has_one_parse, index_result_is_unique};
