//! Streams that are gathered on one thread or by senders: their logs, or the fault of the lowest-numbered
//! stream that has one.
//!
//! Counting readers and holds of a gate show what no clause of `gather` states. A counting gate is notified of each read,
//! entry and end of each stream, once, in order. The first reads of 1 to 64 streams begin together, each by a sender. Two
//! senders each read their second line only once the other's first one was taken. While the first line is being taken, a
//! sender gets to the read that is two more than the capacity, and no further. No hold may give up, and a gate that nobody
//! notifies fails.
use crate::counting::{Counting, Filling, Starting};
use crate::gathered::{WAYS, Way, gathered_by};
use redo_gather::{Free, Gate, GatherFault};
use redo_line::{Pieces, StreamFault, TargetName};
use redo_logs::LogTable;
use redo_test_support::gate::{Event, Hold, Holding};
use redo_test_support::{Answer, Cut, Given, Script, captured, cuts, entered, logs_text, reader};
use std::alloc::{AllocError, Global};
use std::process::Abort;
use std::sync::Wait;
use std::sync::atomic::{AtomicU64, Ordering};
use std::test::Fail;
use std::thread::Threads;

/// The text form of the logs of streams, or their fault.
type Want<'a> = Result<&'a str, GatherFault>;

fn expect_outcome(
    rt: &(impl Abort + AllocGlobal),
    outcome: &Result<LogTable, GatherFault>,
    want: Want<'_>,
    message: &str,
) -> Result<(), Fail> {
    match outcome {
        Ok(table) => expect_logs(rt, table, want, message),
        Err(fault) => {
            expect_same(rt, Err(*fault), want, message);
            Ok(())
        }
    }
}

fn expect_logs(
    rt: &(impl Abort + AllocGlobal),
    table: &LogTable,
    want: Want<'_>,
    message: &str,
) -> Result<(), Fail> {
    let text = logs_text(rt.alloc(), table)?;
    expect_same(rt, Ok(&text), want, message);
    Ok(())
}

fn expect_same(rt: &impl Abort, found: Want<'_>, want: Want<'_>, message: &str) {
    assert_eq!(rt; found, want, "{message}");
}

/// Checks the logs that are gathered from the streams, for all cuts into reads and all ways to read them.
fn expect(
    rt: &(impl Abort + AllocGlobal + Threads + Wait + Sync),
    given: &[Given<'_>],
    max_bytes: u64,
    want: Want<'_>,
) -> Result<(), Fail> {
    for cut in &cuts(rt.alloc(), given)? {
        for way in WAYS {
            expect_so(rt, given, *cut, max_bytes, *way, want)?;
        }
    }
    Ok(())
}

/// Does the same for one cut and one way.
fn expect_so(
    rt: &(impl Abort + AllocGlobal + Threads + Wait + Sync),
    given: &[Given<'_>],
    cut: Cut,
    max_bytes: u64,
    way: Way,
    want: Want<'_>,
) -> Result<(), Fail> {
    let outcome = gathered_so(rt, given, cut, max_bytes, way, &Free)?;
    expect_outcome_so(rt, &outcome, given, cut, way, want)
}

/// Does the same for a result. If it is another one, the message names the streams, the cut and the way.
fn expect_outcome_so(
    rt: &(impl Abort + AllocGlobal),
    outcome: &Result<LogTable, GatherFault>,
    given: &[Given<'_>],
    cut: Cut,
    way: Way,
    want: Want<'_>,
) -> Result<(), Fail> {
    let message = format!(in rt.alloc(); "{given:?} {cut:?} {way:?}")?;
    expect_outcome(rt, outcome, want, &message)
}

/// Gathers the streams, cut into reads.
fn gathered_so<G: Gate>(
    rt: &(impl AllocGlobal + Threads + Wait + Sync),
    given: &[Given<'_>],
    cut: Cut,
    max_bytes: u64,
    way: Way,
    gate: &G,
) -> Result<Result<LogTable, GatherFault>, Fail> {
    let (targets, readers) = captured(rt.alloc(), given, cut)?;
    gathered_by(rt, &targets, readers, max_bytes, way, gate)
}

/// Returns whether the streams are gathered without a fault.
fn is_gathered<G: Gate>(
    rt: &(impl AllocGlobal + Threads + Wait + Sync),
    given: &[Given<'_>],
    cut: Cut,
    way: Way,
    gate: &G,
) -> Result<bool, Fail> {
    Ok(gathered_so(rt, given, cut, 1000, way, gate)?.is_ok())
}

fn stream(number: u32, fault: StreamFault) -> GatherFault {
    GatherFault::Stream { number, fault }
}

const BAD: &str = "@@REDO:do:7\n";

const BAD_NINTH: &str = "ok\nok\nok\nok\nok\nok\nok\nok\n@@REDO:do:7\n";

const CLOSING: &str = "@@REDO:done:7:1.0000@@ 0 a\n";

const CLOSING_AND_MORE: &str = "@@REDO:done:7:1.0000@@ 0 a\nz";

/// A build in which `b.o` failed.
const BUILD: [Given<'static>; 3] = [
    (
        "all",
        "@@REDO:do:7:1.0000@@ a.o\n@@REDO:do:7:1.0000@@ b.o\n@@REDO:done:7:1.0000@@ 0 a.o\n\
         @@REDO:done:7:1.0000@@ 1 b.o\nlink\n",
        false,
    ),
    ("a.o", "cc a\n", false),
    ("b.o", "cc b\n", false),
];

/// Streams, and their logs.
static LOGS: &[(&[Given<'static>], &str)] = &[
    (&[], ""),
    (&[("all", "", false)], "all: Ended\n"),
    (&[("all", "x", false)], "all: Ended\ntext|x\n"),
    (&[("a", CLOSING, false)], "a: Ended\nclosing|7|0\n"),
    (
        &[("b", "b1\nb2", false), ("a", "", false), ("c", "\n", false)],
        "b: Ended\ntext|b1\ntext|b2\na: Ended\nc: Ended\ntext|\n",
    ),
    (
        &BUILD,
        "all: Ended\ndo|7|a.o\ndo|7|b.o\ndone|7|0|a.o\ndone|7|1|b.o\ntext|link\n\
         a.o: Ended\ntext|cc a\nb.o: Ended\ntext|cc b\n",
    ),
];

#[test]
fn gather_returns_logs(rt: HostRuntime) -> Result<(), Fail> {
    for (given, logs) in LOGS {
        expect(&rt, given, 1000, Ok(logs))?;
    }
    Ok(())
}

/// Two streams, and the number and the fault of the one that is reported.
static FAULTS: &[(&[Given<'static>], u32, StreamFault)] = &[
    (
        &[("all", "ok\n@@REDO:do:7\n", false), ("b", "", false)],
        0,
        StreamFault::BadRecord { line: 2 },
    ),
    (
        &[("a", CLOSING_AND_MORE, false), ("b", BAD, false)],
        0,
        StreamFault::AfterClose { line: 2 },
    ),
    (
        &[("a", BAD_NINTH, false), ("b", BAD, false)],
        0,
        StreamFault::BadRecord { line: 9 },
    ),
    (
        &[("a", "x\n", true), ("b", BAD, false)],
        0,
        StreamFault::Read,
    ),
    (
        &[("a", BAD, true), ("b", "", false)],
        0,
        StreamFault::BadRecord { line: 1 },
    ),
    (
        &[("a", "ok\n", false), ("b", BAD, false)],
        1,
        StreamFault::BadRecord { line: 1 },
    ),
    (&[("a", "", false), ("b", "", true)], 1, StreamFault::Read),
];

#[test]
fn gather_returns_fault_of_lowest_stream(rt: HostRuntime) -> Result<(), Fail> {
    for (given, number, fault) in FAULTS {
        expect(&rt, given, 1000, Err(stream(*number, *fault)))?;
    }
    Ok(())
}

/// A target, its stream, a limit, and the log or the fault within this limit.
static LIMITED: &[(&str, &str, u64, Result<&str, StreamFault>)] = &[
    ("all", "abc\n", 4, Ok("all: Ended\ntext|abc\n")),
    ("all", "abc\nd", 4, Err(StreamFault::TooLong)),
    ("a", CLOSING, 27, Ok("a: Ended\nclosing|7|0\n")),
    (
        "a",
        CLOSING_AND_MORE,
        28,
        Err(StreamFault::AfterClose { line: 2 }),
    ),
    ("a", CLOSING_AND_MORE, 27, Err(StreamFault::TooLong)),
    ("a", CLOSING_AND_MORE, 26, Err(StreamFault::TooLong)),
];

#[test]
fn gather_limits_stream_bytes(rt: HostRuntime) -> Result<(), Fail> {
    for (name, bytes, max_bytes, want) in LIMITED {
        let want = want.map_err(|fault| stream(0, fault));
        expect(&rt, &[(*name, *bytes, false)], *max_bytes, want)?;
    }
    Ok(())
}

/// Returns a table with an empty log for each of these names.
fn table_of(alloc: Global, names: &[&str]) -> Result<LogTable, Fail> {
    let mut resolved = Vec::new(alloc);
    for name in names {
        resolved.push(TargetName::resolve(alloc, None, name.as_bytes())?)?;
    }
    Ok(entered(alloc, resolved)?)
}

/// The results of a reader in order, its result from then on, the number of its reads, and the log or the
/// fault that is gathered.
static READS: &[(&[Answer], Answer, u64, Result<&str, StreamFault>)] = &[
    (&[], Answer::Byte, 1001, Err(StreamFault::TooLong)),
    (&[Answer::Failure], Answer::Byte, 1, Err(StreamFault::Read)),
    (
        &[Answer::Byte, Answer::Failure],
        Answer::End,
        2,
        Err(StreamFault::Read),
    ),
    (&[Answer::End], Answer::Byte, 1, Ok("all: Ended\n")),
    (
        &[Answer::Byte, Answer::End],
        Answer::Failure,
        2,
        Ok("all: Ended\ntext|x\n"),
    ),
];

/// Checks the log that is gathered from a reader with these results, and the number of reads.
fn expect_reads(
    rt: &(impl Abort + AllocGlobal + Threads + Wait + Sync),
    answers: &[Answer],
    last: Answer,
    reads: u64,
    way: Way,
    want: Want<'_>,
) -> Result<(), Fail> {
    let count = AtomicU64::new(0);
    expect_counted_reads(rt, answers, last, &count, way, want)?;
    expect_count(rt, &count, reads);
    Ok(())
}

/// Checks the log that is gathered from such a reader of the stream of `all`. The reads are counted in `count`.
fn expect_counted_reads(
    rt: &(impl Abort + AllocGlobal + Threads + Wait + Sync),
    answers: &[Answer],
    last: Answer,
    count: &AtomicU64,
    way: Way,
    want: Want<'_>,
) -> Result<(), Fail> {
    let outcome = gathered_of_answers(rt, &["all"], answers, last, &[count], way)?;
    expect_outcome(rt, &outcome, want, "so many reads")
}

fn expect_count(rt: &impl Abort, count: &AtomicU64, want: u64) {
    assert_eq!(rt; count.load(Ordering::SeqCst), want);
}

/// Gathers the streams of these targets from such readers. Their reads are counted in `counts`.
fn gathered_of_answers(
    rt: &(impl AllocGlobal + Threads + Wait + Sync),
    names: &[&str],
    answers: &[Answer],
    last: Answer,
    counts: &[&AtomicU64],
    way: Way,
) -> Result<Result<LogTable, GatherFault>, Fail> {
    let targets = table_of(rt.alloc(), names)?;
    gathered_of_scripts(rt, &targets, answers, last, counts, way)
}

fn gathered_of_scripts(
    rt: &(impl AllocGlobal + Threads + Wait + Sync),
    targets: &LogTable,
    answers: &[Answer],
    last: Answer,
    counts: &[&AtomicU64],
    way: Way,
) -> Result<Result<LogTable, GatherFault>, Fail> {
    let readers = scripts(rt.alloc(), answers, last, counts)?;
    gathered_by(rt, targets, readers, 1000, way, &Free)
}

/// Returns a reader with these results for each count.
fn scripts<'a>(
    alloc: Global,
    answers: &'a [Answer],
    last: Answer,
    counts: &[&'a AtomicU64],
) -> Result<Vec<Script<'a>>, AllocError> {
    let mut readers = Vec::new(alloc);
    for count in counts {
        readers.push(Script::new(answers, last, count))?;
    }
    Ok(readers)
}

// A stream is read at most once more than it may have bytes. A failed read isn't tried again, and nothing
// is read after the end.
#[test]
fn gather_stops_reading_at_end_or_fault(rt: HostRuntime) -> Result<(), Fail> {
    for (answers, last, reads, want) in READS {
        let want = want.map_err(|fault| stream(0, fault));
        for way in WAYS {
            expect_reads(&rt, answers, *last, *reads, *way, want)?;
        }
    }
    Ok(())
}

/// Checks how often the second of two readers is read if the first one fails.
fn expect_second_reads(
    rt: &(impl Abort + AllocGlobal + Threads + Wait + Sync),
    way: Way,
    want: u64,
) -> Result<(), Fail> {
    let (first, second) = (AtomicU64::new(0), AtomicU64::new(0));
    let fault = fault_of_failures(rt, &first, &second, way)?;
    assert_eq!(rt; fault, Some(stream(0, StreamFault::Read)));
    expect_count(rt, &first, 1);
    expect_count(rt, &second, want);
    Ok(())
}

/// Returns the fault of two streams whose reads all fail. The reads are counted in `first` and `second`.
fn fault_of_failures(
    rt: &(impl AllocGlobal + Threads + Wait + Sync),
    first: &AtomicU64,
    second: &AtomicU64,
    way: Way,
) -> Result<Option<GatherFault>, Fail> {
    let counts = [first, second];
    let outcome = gathered_of_answers(rt, &["a", "b"], &[], Answer::Failure, &counts, way)?;
    Ok(outcome.err())
}

#[test]
fn plain_stops_at_first_fault(rt: HostRuntime) -> Result<(), Fail> {
    expect_second_reads(&rt, Way::Plain, 0)
}

#[test]
fn sender_continues_after_fault(rt: HostRuntime) -> Result<(), Fail> {
    expect_second_reads(&rt, Way::Senders(1, 64), 1)?;
    expect_second_reads(&rt, Way::Senders(2, 64), 1)
}

#[test]
fn gather_handles_200_streams(rt: HostRuntime) -> Result<(), Fail> {
    let logs = many_logs(rt.alloc(), 200)?;
    for way in WAYS {
        expect_many(&rt, *way, &logs)?;
    }
    Ok(())
}

/// Checks the logs of 200 streams.
fn expect_many(
    rt: &(impl Abort + AllocGlobal + Threads + Wait + Sync),
    way: Way,
    logs: &str,
) -> Result<(), Fail> {
    let outcome = many_gathered(rt, 200, way, &Free)?;
    expect_outcome(rt, &outcome, Ok(logs), "200 streams")
}

/// Gathers `count` streams of one line each.
fn many_gathered<G: Gate>(
    rt: &(impl AllocGlobal + Threads + Wait + Sync),
    count: u32,
    way: Way,
    gate: &G,
) -> Result<Result<LogTable, GatherFault>, Fail> {
    let targets = many_targets(rt.alloc(), count)?;
    gathered_of_lines(rt, &targets, count, way, gate)
}

fn gathered_of_lines<G: Gate>(
    rt: &(impl AllocGlobal + Threads + Wait + Sync),
    targets: &LogTable,
    count: u32,
    way: Way,
    gate: &G,
) -> Result<Result<LogTable, GatherFault>, Fail> {
    let readers = many_readers(rt.alloc(), count)?;
    gathered_by(rt, targets, readers, 1000, way, gate)
}

fn many_targets(alloc: Global, count: u32) -> Result<LogTable, Fail> {
    let mut names = Vec::new(alloc);
    for i in 0..count {
        names.push(numbered(alloc, i)?)?;
    }
    Ok(entered(alloc, names)?)
}

fn numbered(alloc: Global, i: u32) -> Result<TargetName, Fail> {
    let name = format!(in alloc; "t{i}")?;
    Ok(TargetName::resolve(alloc, None, name.as_bytes())?)
}

fn many_readers(alloc: Global, count: u32) -> Result<Vec<Pieces>, AllocError> {
    let mut readers = Vec::new(alloc);
    for i in 0..count {
        readers.push(line_reader(alloc, i)?)?;
    }
    Ok(readers)
}

fn line_reader(alloc: Global, i: u32) -> Result<Pieces, AllocError> {
    let line = format!(in alloc; "line {i}\n")?;
    reader(alloc, &line, false, Cut::InReadsOf(3))
}

fn many_logs(alloc: Global, count: u32) -> Result<String, AllocError> {
    let mut logs = String::new(alloc);
    for i in 0..count {
        logs.push_str(&format!(in alloc; "t{i}: Ended\ntext|line {i}\n")?)?;
    }
    Ok(logs)
}

/// Two streams of two lines each.
const PAIR: [Given<'static>; 2] = [("p", "p1\np2\n", false), ("q", "q1\nq2\n", false)];

const PAIR_LOGS: &str = "p: Ended\ntext|p1\ntext|p2\nq: Ended\ntext|q1\ntext|q2\n";

/// Checks that two senders gather these streams, a line in each read, and that each hold of the gate is kept.
fn expect_held(
    rt: &(impl Abort + AllocGlobal + Threads + Wait + Sync),
    gate: &Holding,
) -> Result<(), Fail> {
    expect_under(rt, &PAIR, gate, Ok(PAIR_LOGS))?;
    assert!(rt; gate.kept_all());
    Ok(())
}

/// Checks the logs that two senders gather from the streams with this gate.
fn expect_under(
    rt: &(impl Abort + AllocGlobal + Threads + Wait + Sync),
    given: &[Given<'_>],
    gate: &Holding,
    want: Want<'_>,
) -> Result<(), Fail> {
    let outcome = gathered_so(rt, given, Cut::InReadsOf(3), 1000, Way::Senders(2, 1), gate)?;
    expect_outcome(rt, &outcome, want, "with holds")
}

#[test]
fn senders_read_concurrently(rt: HostRuntime) -> Result<(), Fail> {
    expect_held(&rt, &Holding::of_first_reads())
}

// Each sender reads its second line only after the other's first one was taken. Both post a line before they read again, and their
// items are taken meanwhile.
#[test]
fn collector_takes_lines_between_reads(rt: HostRuntime) -> Result<(), Fail> {
    expect_held(&rt, &Holding::of_second_reads())
}

#[test]
fn gate_sees_entries_before_end(rt: HostRuntime) -> Result<(), Fail> {
    let over = Event::Over { stream: 0 };
    let taken = |entry_number| Event::Taken {
        stream: 0,
        entry_number,
    };
    let gate = Holding::new([Hold::new(over, taken(2)), Hold::new(taken(2), taken(1))]);
    expect_held(&rt, &gate)
}

// The second stream is over before the first one is read.
#[test]
fn lowest_fault_wins_when_last(rt: HostRuntime) -> Result<(), Fail> {
    let read = Event::BeforeRead {
        stream: 0,
        read_number: 1,
    };
    let over = Event::Over { stream: 1 };
    let gate = Holding::new([Hold::new(read, over), Hold::new(read, over)]);
    let given = [("a", BAD_NINTH, false), ("b", BAD, false)];
    let want = Err(stream(0, StreamFault::BadRecord { line: 9 }));
    expect_under(&rt, &given, &gate, want)?;
    assert!(rt; gate.kept_all());
    Ok(())
}

/// Checks that `senders` streams of one line each have a sender each.
fn expect_started(
    rt: &(impl Abort + AllocGlobal + Threads + Wait + Sync),
    senders: u32,
) -> Result<(), Fail> {
    let gate = Starting::new(u64::from(senders));
    assert!(rt; are_gathered(rt, senders, &gate)?);
    assert_eq!(rt; gate.let_go(), u64::from(senders));
    Ok(())
}

/// Returns whether as many streams as senders are gathered.
fn are_gathered(
    rt: &(impl AllocGlobal + Threads + Wait + Sync),
    senders: u32,
    gate: &Starting,
) -> Result<bool, Fail> {
    Ok(many_gathered(rt, senders, Way::Senders(senders, 1), gate)?.is_ok())
}

#[test]
fn gather_starts_planned_senders(rt: HostRuntime) -> Result<(), Fail> {
    for senders in [1, 2, 3, 8, 64] {
        expect_started(&rt, senders)?;
    }
    Ok(())
}

// While the thread that takes is held at the first line, the mailbox takes as many further lines as its capacity. One
// more line is read, and waits to be posted.
#[test]
fn mailbox_holds_planned_capacity(rt: HostRuntime) -> Result<(), Fail> {
    let mut lines = String::new(rt.alloc());
    for _ in 0..200 {
        lines.push_str("x\n")?;
    }
    for capacity in [1, 2, 3, 64] {
        expect_waiting(&rt, &lines, capacity)?;
    }
    Ok(())
}

/// Checks how many of these lines are read while the first one is held.
fn expect_waiting(
    rt: &(impl Abort + AllocGlobal + Threads + Wait + Sync),
    lines: &str,
    capacity: u32,
) -> Result<(), Fail> {
    let until = u64::from(capacity).saturating_add(2);
    let gate = Filling::new(until);
    let way = Way::Senders(1, capacity);
    let given = [("a", lines, false)];
    assert!(rt; is_gathered(rt, &given, Cut::InReadsOf(2), way, &gate)?);
    assert_eq!(rt; gate.noted(), until);
    Ok(())
}

/// Streams, the number of reads of 7 bytes up to their end, and the number of their entries.
static COUNTED: &[(Given<'static>, u64, u64)] = &[
    (("a", "1\n2\n3\n4\n5\n6\n7\n", false), 3, 7),
    (("b", "", false), 1, 0),
    (("c", "one\ntwo\nthree", false), 3, 3),
    (("d", "a long line\n\n\n\n", false), 4, 4),
    (("e", "1\n2\n3", false), 2, 3),
    (("f", "\n\n\n\n\n\n\n\n\n\n", false), 3, 10),
];

// Several streams for each sender, and several lines in each read.
#[test]
fn gate_sees_every_event_of_stream(rt: HostRuntime) -> Result<(), Fail> {
    let given = counted_streams(rt.alloc())?;
    expect_counted(&rt, &given, Way::Senders(2, 1))?;
    expect_counted(&rt, &given, Way::Senders(4, 64))
}

fn counted_streams(alloc: Global) -> Result<Vec<Given<'static>>, AllocError> {
    let mut given = Vec::new(alloc);
    for (stream, _, _) in COUNTED {
        given.push(*stream)?;
    }
    Ok(given)
}

/// Checks the events that the gate is notified of when the streams are read in this way.
fn expect_counted(
    rt: &(impl Abort + AllocGlobal + Threads + Wait + Sync),
    given: &[Given<'_>],
    way: Way,
) -> Result<(), Fail> {
    let gate = Counting::new(rt.alloc(), given.len())?;
    assert!(rt; is_gathered(rt, given, Cut::InReadsOf(7), way, &gate)?);
    expect_told(rt, &gate);
    Ok(())
}

fn expect_told(rt: &impl Abort, gate: &Counting) {
    assert_eq!(rt; gate.wrong(), 0);
    for (number, (_, reads, entries)) in COUNTED.iter().enumerate() {
        expect_told_of(rt, number, gate.told_of(number), (*reads, *entries, 1));
    }
}

/// Checks how many reads, entries and ends of a stream the gate was notified of.
fn expect_told_of(
    rt: &impl Abort,
    number: usize,
    told: Option<(u64, u64, u64)>,
    want: (u64, u64, u64),
) {
    assert_eq!(rt; told, Some(want), "stream {number}");
}
