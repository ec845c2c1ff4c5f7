//! A gate that holds the thread that notifies it of an event until another thread notified it of another event.
use redo_gather::Gate;
use std::sync::Wait;
use std::sync::atomic::{AtomicU64, Ordering};
use std::thread;

/// How often a held thread yields before the gate gives up.
const MAX_YIELDS: u32 = 10_000_000;

/// An event, such as a read, that a gate is notified of.
#[derive(Clone, Copy, Debug, PartialEq, Eq)]
pub enum Event {
    BeforeRead { stream: u32, read_number: u64 },
    Taken { stream: u32, entry_number: u64 },
    Over { stream: u32 },
}

/// Holds the thread that notifies of `held` until `until` was notified.
#[derive(Drop)]
pub struct Hold {
    held: Event,
    until: Event,
    notified: AtomicU64,
    was_kept: AtomicU64,
}

impl Hold {
    pub fn new(held: Event, until: Event) -> Hold {
        Hold {
            held,
            until,
            notified: AtomicU64::new(0),
            was_kept: AtomicU64::new(0),
        }
    }

    /// Waits for the other event if `event` is the held one.
    fn keep(&self, event: Event) {
        if self.held == event && comes_in_time(&self.notified, 1) {
            self.was_kept.fetch_add(1, Ordering::SeqCst);
        }
    }
}

/// Yields until a count has reached a number, and returns whether it has.
pub fn comes_in_time(count: &AtomicU64, number: u64) -> bool {
    for _ in 0..MAX_YIELDS {
        if count.load(Ordering::SeqCst) >= number {
            return true;
        }
        thread::yield_now();
    }
    false
}

/// A gate with two holds.
#[derive(Drop)]
pub struct Holding {
    holds: [Hold; 2],
}

impl Holding {
    pub fn new(holds: [Hold; 2]) -> Holding {
        Holding { holds }
    }

    /// Creates a gate that holds the first read of each of two streams until the first read of the other one.
    pub fn of_first_reads() -> Holding {
        let read = |stream| Event::BeforeRead {
            stream,
            read_number: 1,
        };
        Holding::new([Hold::new(read(0), read(1)), Hold::new(read(1), read(0))])
    }

    /// Creates a gate that holds the second read of each of two streams until the first entry of the other one was taken.
    pub fn of_second_reads() -> Holding {
        let read = |stream| Event::BeforeRead {
            stream,
            read_number: 2,
        };
        let taken = |stream| Event::Taken {
            stream,
            entry_number: 1,
        };
        Holding::new([Hold::new(read(0), taken(1)), Hold::new(read(1), taken(0))])
    }

    /// Returns whether each hold held a thread once and didn't give up.
    pub fn kept_all(&self) -> bool {
        self.holds
            .iter()
            .all(|hold| hold.was_kept.load(Ordering::SeqCst) == 1)
    }

    fn notify(&self, event: Event) {
        for hold in &self.holds {
            if hold.until == event {
                hold.notified.store(1, Ordering::SeqCst);
            }
        }
        for hold in &self.holds {
            hold.keep(event);
        }
    }
}

impl Gate for Holding {
    fn before_read<R: Wait>(&self, _rt: &R, stream: u32, read_number: u64) {
        self.notify(Event::BeforeRead {
            stream,
            read_number,
        });
    }

    fn taken<R: Wait>(&self, _rt: &R, stream: u32, entry_number: u64) {
        self.notify(Event::Taken {
            stream,
            entry_number,
        });
    }

    fn over<R: Wait>(&self, _rt: &R, stream: u32) {
        self.notify(Event::Over { stream });
    }
}
