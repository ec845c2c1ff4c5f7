//! Calls of a table of logs. A call whose allocation fails is made again. The contents of the table are
//! printed after each call.
use redo_line::{Cut, Cutter, Entry, StreamFault, TargetName, read_line};
use redo_logs::{LogState, LogTable, TableFault};
use std::alloc::Global;
use std::io;

// The maximum number of logs in a table.
const MOST: u32 = 1_048_575;

/// Fills a table with two logs. One gets an entry and ends, the other one fails.
pub fn table(rt: &impl Print, alloc: Global) -> io::Result<()> {
    let mut table = LogTable::new(alloc);
    fill_and_end(rt, alloc, &mut table)
}

fn fill_and_end(rt: &impl Print, alloc: Global, table: &mut LogTable) -> io::Result<()> {
    if fill(rt, alloc, table)? {
        end(table, 0);
        fail_second(table);
        tell(rt, table)?;
        tell_ends(rt, table)?;
    }
    Ok(())
}

/// Enters the targets and adds the text. Returns whether the names and the text could be allocated.
fn fill(rt: &impl Print, alloc: Global, table: &mut LogTable) -> io::Result<bool> {
    for name in ["a", "b", "a"] {
        if !enter(rt, alloc, table, name)? {
            return Ok(false);
        }
    }
    add_text(rt, alloc, table)
}

fn tell_ends(rt: &impl Print, table: &LogTable) -> io::Result<()> {
    println!(rt; "first_fault: {:?}", table.first_fault())?;
    println!(rt; "all_ended: {}", table.all_ended())
}

/// Fills a table up to the maximum. Then tries to enter one more target, and two that it holds.
pub fn full_table(rt: &impl Print, alloc: Global) -> io::Result<()> {
    let mut table = LogTable::new(alloc);
    match first_refused(alloc, &mut table) {
        Some(number) => println!(rt; "{number} was refused"),
        None => tell_full(rt, alloc, &mut table),
    }
}

fn tell_full(rt: &impl Print, alloc: Global, table: &mut LogTable) -> io::Result<()> {
    println!(rt; "len: {}", table.len())?;
    tell_refused(rt, alloc, table)?;
    println!(rt; "len: {}", table.len())
}

/// Enters targets up to the maximum. Returns the number of the first one that fails.
fn first_refused(alloc: Global, table: &mut LogTable) -> Option<u32> {
    for number in 0..MOST {
        if enter_number(alloc, table, number).is_err() {
            return Some(number);
        }
    }
    None
}

fn tell_refused(rt: &impl Print, alloc: Global, table: &mut LogTable) -> io::Result<()> {
    for number in [MOST, 0, MOST - 1] {
        let answer = enter_number(alloc, table, number);
        println!(rt; "enter {number}: {answer:?}")?;
    }
    Ok(())
}

/// Enters the target whose name is this number.
pub fn enter_number(alloc: Global, table: &mut LogTable, number: u32) -> Result<u32, TableFault> {
    match numbered(alloc, number) {
        Some(target) => table.enter(target),
        None => Err(TableFault::OutOfMemory),
    }
}

/// Returns the target whose name is this number, or `None` if an allocation fails.
pub fn numbered(alloc: Global, number: u32) -> Option<TargetName> {
    let name = format!(in alloc; "{number}").ok()?;
    TargetName::resolve(alloc, None, name.as_bytes()).ok()
}

/// Enters a target. Returns whether its name could be allocated.
fn enter(rt: &impl Print, alloc: Global, table: &mut LogTable, name: &str) -> io::Result<bool> {
    for _ in 0..2 {
        let Ok(target) = TargetName::resolve(alloc, None, name.as_bytes()) else {
            println!(rt; "resolve: no memory")?;
            return Ok(false);
        };
        let answer = table.enter(target);
        println!(rt; "enter {name}: {answer:?}")?;
        tell(rt, table)?;
        if answer != Err(TableFault::OutOfMemory) {
            break;
        }
    }
    Ok(true)
}

/// Adds a text to the first log. Returns whether the text could be allocated.
fn add_text(rt: &impl Print, alloc: Global, table: &mut LogTable) -> io::Result<bool> {
    for _ in 0..2 {
        let Some(entry) = text_entry(alloc, table) else {
            println!(rt; "entry: no memory")?;
            return Ok(false);
        };
        match add(table, 0, entry) {
            Some(answer) => println!(rt; "add: {answer:?}")?,
            None => println!(rt; "the log doesn't run")?,
        }
        tell(rt, table)?;
        if table.entry(0, 0).is_some() {
            break;
        }
    }
    Ok(true)
}

fn text_entry(alloc: Global, table: &LogTable) -> Option<Entry> {
    if table.len() == 0 {
        return None;
    }
    let Ok(Cut::Line { bytes, .. }) = Cutter::new(alloc).next(b"x\n", 0) else {
        return None;
    };
    read_line(alloc, table.name(0), bytes, true).ok()
}

/// Adds an entry to the log with this number. Returns `None` if that log isn't running.
pub fn add(table: &mut LogTable, stream: u32, entry: Entry) -> Option<Result<(), &'static str>> {
    if table.len() <= stream {
        return None;
    }
    match table.state(stream) {
        LogState::Running => Some(table.add(stream, entry).map_err(|_| "no memory")),
        _ => None,
    }
}

/// Ends the log with this number if it is running.
pub fn end(table: &mut LogTable, stream: u32) {
    if table.len() > stream
        && let LogState::Running = table.state(stream)
    {
        table.end(stream);
    }
}

/// Fails the second log if it is running.
fn fail_second(table: &mut LogTable) {
    if table.len() > 1
        && let LogState::Running = table.state(1)
    {
        table.fail(1, StreamFault::TooLong);
    }
}

/// Prints each log and its entries.
pub fn tell(rt: &impl Print, table: &LogTable) -> io::Result<()> {
    for i in 0..table.len() {
        let name = table.name(i);
        println!(rt;
            "log {i}: {:?} {:?}, found at {:?}",
            name.bytes(),
            table.state(i),
            table.find(name)
        )?;
        tell_entries(rt, table, i)?;
    }
    Ok(())
}

fn tell_entries(rt: &impl Print, table: &LogTable, i: u32) -> io::Result<()> {
    for k in 0..usize::MAX {
        let Some(entry) = table.entry(i, k) else {
            break;
        };
        println!(rt; "entry {k}: {entry:?}")?;
    }
    Ok(())
}
