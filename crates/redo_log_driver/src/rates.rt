//! Measures how many items a mailbox passes in a second. The items are made before the measurement, and those taken
//! are stored until it ends.
use redo_line::{Entries, Entry};
use redo_test_support::{Posts, exchange, line};
use redo_wire::What;
use std::alloc::Global;
use std::io;
use std::num::nearest_usize_to_f64;
use std::rt::Clock;
use std::sync::Wait;
use std::thread::Threads;
use std::time::{Duration, Instant};

/// The numbers of senders.
const SENDERS: [usize; 4] = [1, 2, 4, 8];

/// The numbers of lines in one item.
const AT_ONCE: [usize; 4] = [1, 16, 256, 1024];

const CAPACITIES: [u32; 3] = [1, 64, 1024];

/// The number of measurements; the shortest time counts.
const ROUNDS: u32 = 3;

/// The number of items taken, and the time it took.
#[derive(Clone, Copy)]
struct Passed {
    items: usize,
    time: Duration,
}

/// Prints a table of rates, in millions of items a second.
pub fn rates(rt: &(impl AllocGlobal + Clock + Print + Threads + Wait + Sync)) -> io::Result<()> {
    println!(rt; "| senders | lines an item | capacity 1 | 64 | 1,024 |\n|---|---|---|---|---|")?;
    for at_once in AT_ONCE {
        for senders in SENDERS {
            row(rt, senders, at_once)?;
        }
    }
    Ok(())
}

fn row<T: AllocGlobal + Clock + Print + Threads + Wait + Sync>(
    rt: &T,
    senders: usize,
    at_once: usize,
) -> io::Result<()> {
    print!(rt; "| {senders} | {at_once} |")?;
    for capacity in CAPACITIES {
        let rate = rate(rt, senders, capacity, at_once)?;
        print!(rt; " {rate:.2} |")?;
    }
    println!(rt)
}

/// Returns the best rate, in millions of items a second.
fn rate<T: AllocGlobal + Clock + Threads + Wait + Sync>(
    rt: &T,
    senders: usize,
    capacity: u32,
    at_once: usize,
) -> io::Result<f64> {
    let lines = if at_once == 1 { 400_000 } else { 2_000_000 };
    let mut best = pass(rt, senders, capacity, at_once, lines)?;
    for _ in 1..ROUNDS {
        let passed = pass(rt, senders, capacity, at_once, lines)?;
        if passed.time < best.time {
            best = passed;
        }
    }
    Ok(nearest_usize_to_f64(best.items) / best.time.as_secs_f64() / 1e6)
}

/// Passes this many lines in all, divided among the senders, through a mailbox.
fn pass<T: AllocGlobal + Clock + Threads + Wait + Sync>(
    rt: &T,
    senders: usize,
    capacity: u32,
    at_once: usize,
    lines: usize,
) -> io::Result<Passed> {
    let mut posts = Vec::new(rt.alloc());
    let mut most_items = 0usize;
    for _ in 0..senders {
        let items = posts_of(rt.alloc(), lines / senders.max(1), at_once)?;
        most_items = most_items.saturating_add(items.len());
        posts.push(items)?;
    }
    let start = Instant::now(rt)?;
    let taken = exchange(rt, capacity, posts, most_items).map_err(io::Error::other)?;
    let time = start.elapsed(rt)?;
    Ok(Passed {
        items: taken.len(),
        time,
    })
}

/// Returns the items of one sender: `lines` lines, `at_once` in each item, and then the end of the stream.
fn posts_of(alloc: Global, lines: usize, at_once: usize) -> io::Result<Posts> {
    let mut posts = Vec::new(alloc);
    for _ in 0..lines / at_once.max(1) {
        posts.push((0, what_of(alloc, at_once)?))?;
    }
    posts.push((0, What::End))?;
    Ok(posts)
}

fn what_of(alloc: Global, at_once: usize) -> io::Result<What> {
    if at_once == 1 {
        return Ok(What::Line(entry(alloc)?));
    }
    let mut entries = Entries::new(alloc);
    for _ in 0..at_once {
        entries.push(entry(alloc)?)?;
    }
    Ok(What::Lines(entries))
}

fn entry(alloc: Global) -> io::Result<Entry> {
    match line(
        alloc,
        "cc -O2 -Wall -Wextra -c -o build/lexer.o source/front/lex.c",
    )? {
        Some(line) => Ok(Entry::Text(line)),
        None => Err(io::Error::other("no line")),
    }
}
