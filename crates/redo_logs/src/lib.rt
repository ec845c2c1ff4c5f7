//! The logs of a run: for each target the entries of its log, and whether more may follow.
//!
//! A [`LogTable`] is a list of logs, each with its target, its entries and its state. How it stores them is private.
//! Each call is an operation on that list, so the representation can be replaced. To visit many entries, borrow the table with
//! `numbered`.
//!
//! The table stores texts and names (`Store`), and for each log its entries (`PackedLog`):
//!
//!       bytes    c c   a \n l i n k \n ...     names    all  a.o  b.o
//!                ^------^                      places    0    1    2
//!       log 1: Texts 1 0..5                   log 0: Mention Made 1, Mention Made 2, Done 0 1, ...
#![tactic(auto)]

mod entry_ref;
mod laws;
mod lines;
mod log_state;
mod log_table;
mod numbered;
mod packed_log;
mod store;
mod table_fault;

pub use entry_ref::EntryRef;
pub use laws::lowest_fault_is_first;
pub use log_state::LogState;
pub use log_table::LogTable;
pub use numbered::{Numbered, NumberedEntry};
pub use table_fault::TableFault;
