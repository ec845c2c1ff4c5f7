//! A gate holds a thread at an event until another event was notified, even by a concurrent thread.
use redo_gather::{Free, Gate};
use redo_test_support::gate::{Event, Hold, Holding};
use std::sync::Wait;
use std::thread::{Threads, join};

/// Runs two threads that each notify of the first read of their stream.
fn tell_first_reads<R: Threads + Wait + Sync, G: Gate>(rt: &R, gate: &G) {
    join(
        rt,
        || gate.before_read(rt, 0, 1),
        || gate.before_read(rt, 1, 1),
    );
}

#[test]
fn gate_holds_thread_until_event(rt: HostRuntime) {
    let gate = Holding::of_first_reads();
    tell_first_reads(&rt, &gate);
    assert!(rt; gate.kept_all());
}

#[test]
fn free_gate_never_blocks(rt: HostRuntime) {
    tell_first_reads(&rt, &Free);
    Free.taken(&rt, 0, 1);
    Free.over(&rt, 0);
}

#[test]
fn past_event_does_not_block(rt: HostRuntime) {
    let over = Event::Over { stream: 1 };
    let taken = Event::Taken {
        stream: 1,
        entry_number: 2,
    };
    let read = Event::BeforeRead {
        stream: 0,
        read_number: 2,
    };
    let gate = Holding::new([Hold::new(read, over), Hold::new(read, taken)]);
    gate.taken(&rt, 1, 2);
    gate.over(&rt, 1);
    gate.before_read(&rt, 0, 2);
    assert!(rt; gate.kept_all());
}
