//! Gates that count their notifications, or hold a thread until a given number of them came.
use redo_gather::Gate;
use redo_test_support::gate::comes_in_time;
use std::alloc::{AllocError, Global};
use std::sync::Wait;
use std::sync::atomic::{AtomicU64, Ordering};
use std::thread;

/// A gate that holds the first read of each stream until the first reads of `streams` streams are about to begin.
#[derive(Drop)]
pub struct Starting {
    streams: u64,
    there: AtomicU64,
    let_go: AtomicU64,
}

impl Starting {
    pub fn new(streams: u64) -> Starting {
        Starting {
            streams,
            there: AtomicU64::new(0),
            let_go: AtomicU64::new(0),
        }
    }

    /// Returns how many first reads went on because all of them had come.
    pub fn let_go(&self) -> u64 {
        self.let_go.load(Ordering::SeqCst)
    }
}

impl Gate for Starting {
    fn before_read<R: Wait>(&self, _rt: &R, _stream: u32, read_number: u64) {
        if read_number != 1 {
            return;
        }
        self.there.fetch_add(1, Ordering::SeqCst);
        if comes_in_time(&self.there, self.streams) {
            self.let_go.fetch_add(1, Ordering::SeqCst);
        }
    }

    fn taken<R: Wait>(&self, _rt: &R, _stream: u32, _entry_number: u64) {}

    fn over<R: Wait>(&self, _rt: &R, _stream: u32) {}
}

/// A gate for one stream. It holds the thread that takes the first entry until the stream was read `until` times,
/// and for a while longer, and then notes how often the stream was read.
#[derive(Drop)]
pub struct Filling {
    until: u64,
    reads: AtomicU64,
    noted: AtomicU64,
}

impl Filling {
    pub fn new(until: u64) -> Filling {
        Filling {
            until,
            reads: AtomicU64::new(0),
            noted: AtomicU64::new(0),
        }
    }

    pub fn noted(&self) -> u64 {
        self.noted.load(Ordering::SeqCst)
    }
}

impl Gate for Filling {
    fn before_read<R: Wait>(&self, _rt: &R, _stream: u32, read_number: u64) {
        self.reads.store(read_number, Ordering::SeqCst);
    }

    fn taken<R: Wait>(&self, _rt: &R, _stream: u32, entry_number: u64) {
        if entry_number != 1 || !comes_in_time(&self.reads, self.until) {
            return;
        }
        for _ in 0..10_000 {
            thread::yield_now();
        }
        self.noted
            .store(self.reads.load(Ordering::SeqCst), Ordering::SeqCst);
    }

    fn over<R: Wait>(&self, _rt: &R, _stream: u32) {}
}

/// How often a gate was notified of each kind of event in a stream.
#[derive(Drop)]
struct Told {
    reads: AtomicU64,
    entries: AtomicU64,
    ends: AtomicU64,
}

/// A gate that counts the notifications for each stream, and how many of them weren't the next one of their kind.
#[derive(Drop)]
pub struct Counting {
    told: Vec<Told>,
    wrong: AtomicU64,
}

impl Counting {
    pub fn new(alloc: Global, streams: usize) -> Result<Counting, AllocError> {
        let mut told = Vec::new(alloc);
        for _ in 0..streams {
            told.push(Told {
                reads: AtomicU64::new(0),
                entries: AtomicU64::new(0),
                ends: AtomicU64::new(0),
            })?;
        }
        Ok(Counting {
            told,
            wrong: AtomicU64::new(0),
        })
    }

    /// Returns how many reads, entries and ends of a stream the gate was notified of.
    pub fn told_of(&self, stream: usize) -> Option<(u64, u64, u64)> {
        let told = self.told.get(stream)?;
        Some((
            told.reads.load(Ordering::SeqCst),
            told.entries.load(Ordering::SeqCst),
            told.ends.load(Ordering::SeqCst),
        ))
    }

    /// Returns how many notifications weren't the next one of their kind.
    pub fn wrong(&self) -> u64 {
        self.wrong.load(Ordering::SeqCst)
    }

    fn expect(&self, is_right: bool) {
        if !is_right {
            self.wrong.fetch_add(1, Ordering::SeqCst);
        }
    }

    // Returns the counts of a stream that isn't over.
    fn running(&self, stream: u32) -> Option<&Told> {
        let told = self.told.get(stream as usize)?;
        (told.ends.load(Ordering::SeqCst) == 0).then_some(told)
    }
}

/// Increments a count, and returns whether it becomes this number.
fn is_next(count: &AtomicU64, number: u64) -> bool {
    count.fetch_add(1, Ordering::SeqCst).checked_add(1) == Some(number)
}

impl Gate for Counting {
    fn before_read<R: Wait>(&self, _rt: &R, stream: u32, read_number: u64) {
        match self.running(stream) {
            Some(told) => self.expect(is_next(&told.reads, read_number)),
            None => self.expect(false),
        }
    }

    fn taken<R: Wait>(&self, _rt: &R, stream: u32, entry_number: u64) {
        match self.running(stream) {
            Some(told) => self.expect(is_next(&told.entries, entry_number)),
            None => self.expect(false),
        }
    }

    fn over<R: Wait>(&self, _rt: &R, stream: u32) {
        match self.running(stream) {
            Some(told) => self.expect(is_next(&told.ends, 1)),
            None => self.expect(false),
        }
    }
}
