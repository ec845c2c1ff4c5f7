//! A chain of 1,000,000 nested logs: each one mentions the target of the next.
use crate::table::{add, end, enter_number, numbered};
use crate::view::DEEP;
use redo_line::{Entry, How};
use redo_logs::LogTable;
use redo_test_support::Counter;
use redo_view::view;
use std::alloc::Global;
use std::io;

const LENGTH: u32 = 1_000_000;

/// Views the chain from its first log. Prints the result and the number of bytes written.
pub fn view_chain(rt: &impl Print, alloc: Global) -> io::Result<()> {
    let mut table = LogTable::new(alloc);
    match first_refused(alloc, &mut table) {
        Some(number) => println!(rt; "{number} was refused"),
        None => view_from_first(rt, alloc, &table),
    }
}

fn view_from_first(rt: &impl Print, alloc: Global, table: &LogTable) -> io::Result<()> {
    let Some(first) = numbered(alloc, 0) else {
        return println!(rt; "no memory for the target");
    };
    if !table.all_ended() {
        return println!(rt; "a log hasn't ended");
    }
    let mut out = Counter { bytes: 0 };
    let answer = view(alloc, table, &DEEP, &[first], &mut out);
    println!(rt; "view: {answer:?}")?;
    println!(rt; "bytes: {}", out.bytes)
}

/// Enters the logs of the chain. Returns the number of the first one that fails.
fn first_refused(alloc: Global, table: &mut LogTable) -> Option<u32> {
    for number in 0..LENGTH {
        if enter_link(alloc, table, number).is_none() {
            return Some(number);
        }
    }
    None
}

/// Enters a log that mentions the target with the next number, and ends it.
fn enter_link(alloc: Global, table: &mut LogTable, number: u32) -> Option<()> {
    let stream = enter_number(alloc, table, number).ok()?;
    let name = numbered(alloc, number.checked_add(1)?)?;
    let how = How::Made;
    let pid = number;
    add(table, stream, Entry::Mention { pid, how, name })?.ok()?;
    end(table, stream);
    Some(())
}
