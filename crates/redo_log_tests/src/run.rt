//! Tests of runs: from the streams of all targets of an index, and the arguments, to the text or the fault.
ghost use Rattle.std.specs.Prelude.{◌≡◌, ◌<◌, IfOk, length};
ghost use Rattle.redo_run.specs.RunFault.{IfStreamFault, IfUnknown};

use crate::captures::{index_of, readers_for};
use crate::expect::expect_eq;
use redo_gather::{Free, Gate, Plan};
use redo_line::{Feed, Pieces, Sink, StreamFault, Taker};
use redo_log_cli::{Failure, Index, RunFault, fault_line, read_index, run, status};
use redo_test_support::cases::{
    ASKED, BY_PIDS, CHOSEN, Case, LOGS, MAX_BYTES, MENTIONS, PLAIN, STATUSES,
};
use redo_test_support::gate::Holding;
use redo_test_support::{Answer, Cut, Given, Script, cuts, whole};
use redo_view::Options;
use std::alloc::{AllocError, Global};
use std::process::Abort;
use std::sync::Wait;
use std::sync::atomic::{AtomicU64, Ordering};
use std::test::Fail;
use std::thread::Threads;

/// The result of a run, and the error message and exit status that the program would end with.
#[derive(Drop)]
pub struct Outcome {
    pub answer: Result<(), RunFault>,
    pub line: Vec<u8>,
    pub status: u8,
}

/// The parameters of a run.
#[derive(Clone, Copy)]
struct Request<'a> {
    plan: &'a Plan,
    options: &'a Options,
    words: &'a [Vec<u8>],
}

/// Runs over these streams, cut into reads in this way.
pub fn ran(
    rt: &(impl AllocGlobal + Threads + Wait + Sync),
    given: &[Given<'_>],
    cut: Cut,
    plan: &Plan,
    options: &Options,
    asked: &[&str],
    out: &mut impl Sink,
) -> Result<Outcome, Fail> {
    let words = words(rt.alloc(), asked)?;
    let request = Request {
        plan,
        options,
        words: &words,
    };
    ran_as_requested(rt, given, cut, request, out)
}

fn ran_as_requested(
    rt: &(impl AllocGlobal + Threads + Wait + Sync),
    given: &[Given<'_>],
    cut: Cut,
    request: Request<'_>,
    out: &mut impl Sink,
) -> Result<Outcome, Fail> {
    let index = index_of(rt.alloc(), given)?;
    ran_over(rt, &index, given, cut, request, out)
}

/// Runs over these streams with this index.
fn ran_over(
    rt: &(impl AllocGlobal + Threads + Wait + Sync),
    index: &Index,
    given: &[Given<'_>],
    cut: Cut,
    request: Request<'_>,
    out: &mut impl Sink,
) -> Result<Outcome, Fail> {
    let readers = readers_for(rt.alloc(), index, given, cut)?;
    Ok(ran_with(rt, index, readers, request, out)?)
}

fn ran_with(
    rt: &(impl AllocGlobal + Threads + Wait + Sync),
    index: &Index,
    readers: Vec<Pieces>,
    request: Request<'_>,
    out: &mut impl Sink,
) -> Result<Outcome, AllocError>
    requires { length readers.items ≡ length index.now }
{
    let answer = answer_with(rt, index, readers, request, &Free, out);
    outcome_of_run(rt.alloc(), answer, index, request.words)
}

/// Runs with this gate. Of the contract of `run`, it keeps what tests need.
fn answer_with<T: AllocGlobal + Threads + Wait + Sync, R: Feed + Send, W: Sink, G: Gate>(
    rt: &T,
    index: &Index,
    readers: Vec<R>,
    request: Request<'_>,
    gate: &G,
    out: &mut W,
) -> Result<(), RunFault>
    requires { length readers.items ≡ length index.now }
    ensures stream_in_range { IfStreamFault result (λ number _. number < length index.now) }
    ensures argument_in_range { IfUnknown result (λ place. place < length request.entry.words.now) }
{
    let (plan, options, words) = (request.plan, request.options, request.words);
    run(
        rt,
        rt.alloc(),
        index,
        readers,
        plan,
        options,
        words,
        gate,
        out,
    )
}

/// Returns the result of a run with these arguments, with its error message and status.
fn outcome_of_run(
    alloc: Global,
    answer: Result<(), RunFault>,
    index: &Index,
    words: &[Vec<u8>],
) -> Result<Outcome, AllocError>
    requires stream_in_range { IfStreamFault answer (λ number _. number < length index.now) }
    requires argument_in_range { IfUnknown answer (λ place. place < length words.now) }
{
    let (line, status) = match answer {
        Ok(()) => (Vec::new(alloc), 0),
        Err(fault) => {
            let failure = Failure::Run(fault);
            (fault_line(alloc, &failure, index, words)?, status(&failure))
        }
    };
    Ok(Outcome {
        answer,
        line,
        status,
    })
}

fn words(alloc: Global, asked: &[&str]) -> Result<Vec<Vec<u8>>, AllocError> {
    let mut words = Vec::new(alloc);
    for word in asked {
        words.push(bytes_of(alloc, word)?)?;
    }
    Ok(words)
}

fn bytes_of(alloc: Global, word: &str) -> Result<Vec<u8>, AllocError> {
    word.as_bytes().to_vec(alloc)
}

/// The text of a run, or its fault with the error message and the status.
pub type Want<'a> = Result<&'a str, (RunFault, &'a str, u8)>;

/// Numbers of senders, and capacities.
static PLANS: &[(u32, u32)] = &[(1, 1), (1, 64), (2, 1), (2, 64), (64, 1), (64, 64)];

/// Checks the result of a run, and that it writes the text or nothing, however the streams are cut into
/// reads, and for several numbers of senders and capacities.
fn expect_run(
    rt: &(impl Abort + AllocGlobal + Threads + Wait + Sync),
    given: &[Given<'_>],
    max_bytes: u64,
    options: &Options,
    asked: &[&str],
    want: Want<'_>,
) -> Result<(), Fail> {
    expect_cut(rt, given, max_bytes, options, asked, want)?;
    for (senders, capacity) in PLANS {
        let plan = Plan::new(*senders, *capacity, max_bytes)?;
        expect_planned(rt, given, Cut::InReadsOf(3), &plan, options, asked, want)?;
    }
    Ok(())
}

/// Checks the result of a run, however the streams are cut into reads.
fn expect_cut(
    rt: &(impl Abort + AllocGlobal + Threads + Wait + Sync),
    given: &[Given<'_>],
    max_bytes: u64,
    options: &Options,
    asked: &[&str],
    want: Want<'_>,
) -> Result<(), Fail> {
    let plan = Plan::new(4, 64, max_bytes)?;
    for cut in &cuts(rt.alloc(), given)? {
        expect_planned(rt, given, *cut, &plan, options, asked, want)?;
    }
    Ok(())
}

pub fn expect_planned(
    rt: &(impl Abort + AllocGlobal + Threads + Wait + Sync),
    given: &[Given<'_>],
    cut: Cut,
    plan: &Plan,
    options: &Options,
    asked: &[&str],
    want: Want<'_>,
) -> Result<(), Fail> {
    let mut out = Taker::new(rt.alloc(), 1000, 1000)?;
    let ran = ran(rt, given, cut, plan, options, asked, &mut out)?;
    expect_written(rt, &ran, out.bytes(), want);
    Ok(())
}

/// Checks the outcome of a run, and what it wrote.
fn expect_written(rt: &impl Abort, ran: &Outcome, written: &[u8], want: Want<'_>) {
    expect_outcome(rt, ran, want);
    let text = match want {
        Ok(text) => text.as_bytes(),
        Err(_) => b"",
    };
    expect_eq(rt, written, text, "text");
}

/// Checks the outcome of a run.
pub fn expect_outcome(rt: &impl Abort, ran: &Outcome, want: Want<'_>) {
    let (answer, line, status) = match want {
        Ok(_) => (Ok(()), "", 0),
        Err((fault, line, status)) => (Err(fault), line, status),
    };
    expect_eq(rt, ran.answer, answer, "answer");
    let found = (ran.line.as_slice(), ran.status);
    expect_eq(rt, found, (line.as_bytes(), status), "line and status");
}

/// Checks that a run writes the text of each case.
fn expect_texts(
    rt: &(impl Abort + AllocGlobal + Threads + Wait + Sync),
    cases: &[Case],
) -> Result<(), Fail> {
    for case in cases {
        expect_text(rt, case)?;
    }
    Ok(())
}

fn expect_text(
    rt: &(impl Abort + AllocGlobal + Threads + Wait + Sync),
    case: &Case,
) -> Result<(), Fail> {
    let (given, options, asked, text) = case;
    let given = whole(rt.alloc(), given)?;
    expect_run(rt, &given, MAX_BYTES, options, asked, Ok(text))
}

// The tables that tests iterate over are statics, because a constant is expanded wherever it is named.
static OF_LOGS: &[Case] = &LOGS;

static OF_MENTIONS: &[Case] = &MENTIONS;

static OF_ASKING: &[Case] = &ASKED;

static OF_OPTIONS: &[Case] = &CHOSEN;

static OF_STATUSES: &[Case] = &STATUSES;

static OF_PIDS: &[Case] = &BY_PIDS;

#[test]
fn run_writes_text_of_logs(rt: HostRuntime) -> Result<(), Fail> {
    expect_texts(&rt, OF_LOGS)?;
    expect_texts(&rt, OF_MENTIONS)?;
    expect_texts(&rt, OF_ASKING)?;
    expect_texts(&rt, OF_OPTIONS)?;
    expect_texts(&rt, OF_STATUSES)?;
    expect_texts(&rt, OF_PIDS)
}

const BAD: &str = "@@REDO:do:7\n";

const BAD_NINTH: &str = "ok\nok\nok\nok\nok\nok\nok\nok\n@@REDO:do:7\n";

const CLOSING: &str = "@@REDO:done:7:1.0000@@ 0 a\n";

const CLOSING_AND_MORE: &str = "@@REDO:done:7:1.0000@@ 0 a\nz";

pub fn stream<'a>(number: u32, fault: StreamFault, line: &'a str, status: u8) -> Want<'a> {
    Err((RunFault::Stream { number, fault }, line, status))
}

fn unknown<'a>(place: usize, line: &'a str) -> Want<'a> {
    Err((RunFault::Unknown { place }, line, 24))
}

/// Two streams, the number of the one whose fault is reported, the fault, the error message and the status.
type AtFault = (
    &'static [Given<'static>],
    u32,
    StreamFault,
    &'static str,
    u8,
);

static AT_FAULT: &[AtFault] = &[
    (
        &[("all", "ok\n@@REDO:do:7\n", false), ("b", "", false)],
        0,
        StreamFault::BadRecord { line: 2 },
        "redo-log: all: line 2: bad record\n",
        4,
    ),
    (
        &[("a", CLOSING_AND_MORE, false), ("all", "", false)],
        0,
        StreamFault::AfterClose { line: 2 },
        "redo-log: a: line 2: after the closing record\n",
        4,
    ),
    (
        &[("a", BAD_NINTH, false), ("all", BAD, false)],
        0,
        StreamFault::BadRecord { line: 9 },
        "redo-log: a: line 9: bad record\n",
        4,
    ),
    (
        &[("a", "x\n", true), ("all", BAD, false)],
        0,
        StreamFault::Read,
        "redo-log: a: cannot be read\n",
        5,
    ),
    (
        &[("a", BAD, true), ("all", "", false)],
        0,
        StreamFault::BadRecord { line: 1 },
        "redo-log: a: line 1: bad record\n",
        4,
    ),
    (
        &[("all", "@@REDO:do:7\nok\n", false), ("b", "", false)],
        0,
        StreamFault::BadRecord { line: 1 },
        "redo-log: all: line 1: bad record\n",
        4,
    ),
    (
        &[("all", "x\n", false), ("d//b", BAD, false)],
        1,
        StreamFault::BadRecord { line: 1 },
        "redo-log: d/b: line 1: bad record\n",
        4,
    ),
];

#[test]
fn run_reports_stream_fault(rt: HostRuntime) -> Result<(), Fail> {
    for (given, number, fault, line, status) in AT_FAULT {
        let want = stream(*number, *fault, line, *status);
        expect_run(&rt, given, 1000, &PLAIN, &["all"], want)?;
    }
    Ok(())
}

const TOO_LONG: Want<'static> = Err((
    RunFault::Stream {
        number: 0,
        fault: StreamFault::TooLong,
    },
    "redo-log: a: too long\n",
    4,
));

const AFTER_CLOSE: Want<'static> = Err((
    RunFault::Stream {
        number: 0,
        fault: StreamFault::AfterClose { line: 2 },
    },
    "redo-log: a: line 2: after the closing record\n",
    4,
));

/// The stream of `a`, the maximum number of bytes, and the result of a run.
static LIMITED: &[(&str, u64, Want<'static>)] = &[
    ("abc\n", 4, Ok("redo  a\nabc\n")),
    ("abc\nd", 4, TOO_LONG),
    (CLOSING, 27, Ok("redo  a\n")),
    (CLOSING_AND_MORE, 28, AFTER_CLOSE),
    (CLOSING_AND_MORE, 27, TOO_LONG),
    (CLOSING_AND_MORE, 26, TOO_LONG),
];

#[test]
fn run_limits_stream_bytes(rt: HostRuntime) -> Result<(), Fail> {
    for (text, max_bytes, want) in LIMITED {
        let given = [("a", *text, false)];
        expect_run(&rt, &given, *max_bytes, &PLAIN, &["a"], *want)?;
    }
    Ok(())
}

/// The arguments of a run whose log has a fault, the position of the unknown argument, and the error message.
static UNKNOWN: &[(&[&str], usize, &str)] = &[
    (&["all", "nope"], 1, "redo-log: nope: not known\n"),
    (&["nope", "none"], 0, "redo-log: nope: not known\n"),
    (&[""], 0, "redo-log: : not known\n"),
    (&["./all//x", "all"], 0, "redo-log: ./all//x: not known\n"),
    (
        &["all", "./all", "all/../x"],
        2,
        "redo-log: all/../x: not known\n",
    ),
];

#[test]
fn unknown_target_precedes_stream_fault(rt: HostRuntime) -> Result<(), Fail> {
    for (asked, place, line) in UNKNOWN {
        let want = unknown(*place, line);
        expect_run(&rt, &[("all", BAD, false)], 1000, &PLAIN, asked, want)?;
    }
    let want = unknown(0, "redo-log: a: not known\n");
    expect_run(&rt, &[], 1000, &PLAIN, &["a"], want)
}

#[test]
fn run_reads_nothing_for_unknown_target(rt: HostRuntime) -> Result<(), Fail> {
    expect_no_reads(&rt, &AtomicU64::new(0))
}

fn expect_no_reads(
    rt: &(impl Abort + AllocGlobal + Threads + Wait + Sync),
    reads: &AtomicU64,
) -> Result<(), Fail> {
    let answer = answer_of_counted(rt, reads)?;
    expect_eq(rt, answer, Err(RunFault::Unknown { place: 0 }), "answer");
    expect_eq(rt, reads.load(Ordering::SeqCst), 0, "reads");
    Ok(())
}

/// Returns the result of a run that requests `nope`. It counts the reads of the only stream.
fn answer_of_counted(
    rt: &(impl AllocGlobal + Threads + Wait + Sync),
    reads: &AtomicU64,
) -> Result<Result<(), RunFault>, Fail> {
    let words = words(rt.alloc(), &["nope"])?;
    answer_to(rt, &words, reads)
}

fn answer_to(
    rt: &(impl AllocGlobal + Threads + Wait + Sync),
    words: &[Vec<u8>],
    reads: &AtomicU64,
) -> Result<Result<(), RunFault>, Fail> {
    let index = read_index(rt.alloc(), b"1 all\n".as_slice())?;
    answer_over(rt, &index, words, reads)
}

fn answer_over(
    rt: &(impl AllocGlobal + Threads + Wait + Sync),
    index: &Index,
    words: &[Vec<u8>],
    reads: &AtomicU64,
) -> Result<Result<(), RunFault>, Fail> {
    let mut out = Taker::new(rt.alloc(), 1000, 1000)?;
    answer_into(rt, index, words, reads, &mut out)
}

fn answer_into(
    rt: &(impl AllocGlobal + Threads + Wait + Sync),
    index: &Index,
    words: &[Vec<u8>],
    reads: &AtomicU64,
    out: &mut Taker,
) -> Result<Result<(), RunFault>, Fail> {
    let plan = Plan::new(4, 64, 1000)?;
    let readers = counted_readers(rt.alloc(), index, reads)?;
    let request = Request {
        plan: &plan,
        options: &PLAIN,
        words,
    };
    Ok(answer_with(rt, index, readers, request, &Free, out))
}

fn counted_readers<'a>(
    alloc: Global,
    index: &Index,
    reads: &'a AtomicU64,
) -> Result<Vec<Script<'a>>, Fail>
    ensures { IfOk result (λ readers. length readers.items ≡ length index.now) }
{
    let mut readers = Vec::new(alloc);
    readers.push(Script::new(&[], Answer::End, reads))?;
    if readers.len() != index.len() as usize {
        return Err("not a reader for each name".into());
    }
    Ok(readers)
}

/// Arguments, and the text of two logs.
static RELATIVE: &[(&[&str], &str)] = &[
    (&["d/./a"], "redo  d/a\nA\n"),
    (&["x/..//d/a", "/e", "d/a"], "redo  d/a\nA\nredo  /e\nE\n"),
    (&[], ""),
];

#[test]
fn run_resolves_targets_from_base(rt: HostRuntime) -> Result<(), Fail> {
    let given = [("d/a", "A\n", false), ("/e", "E\n", false)];
    for (asked, text) in RELATIVE {
        expect_run(&rt, &given, 1000, &PLAIN, asked, Ok(text))?;
    }
    Ok(())
}

// Each stream's second line is read only after the first line of the other stream was taken.
#[test]
fn run_reads_streams_concurrently(rt: HostRuntime) -> Result<(), Fail> {
    let gate = Holding::of_second_reads();
    expect_pair_shown(&rt, &gate)?;
    assert!(rt; gate.kept_all());
    Ok(())
}

/// Two streams of two lines.
const PAIR: [Given<'static>; 2] = [("p", "p1\np2\n", false), ("q", "q1\nq2\n", false)];

const PAIR_TEXT: &[u8] = b"redo  p\np1\np2\nredo  q\nq1\nq2\n";

/// Checks that a run with this gate writes the logs of the two streams.
fn expect_pair_shown(
    rt: &(impl Abort + AllocGlobal + Threads + Wait + Sync),
    gate: &Holding,
) -> Result<(), Fail> {
    let mut out = Taker::new(rt.alloc(), 1000, 1000)?;
    let answer = answer_to_pair(rt, gate, &mut out)?;
    expect_eq(rt, answer, Ok(()), "answer");
    expect_eq(rt, out.bytes(), PAIR_TEXT, "text");
    Ok(())
}

fn answer_to_pair(
    rt: &(impl AllocGlobal + Threads + Wait + Sync),
    gate: &Holding,
    out: &mut Taker,
) -> Result<Result<(), RunFault>, Fail> {
    let words = words(rt.alloc(), &["p", "q"])?;
    let index = index_of(rt.alloc(), &PAIR)?;
    answer_side_by_side(rt, gate, &index, &words, out)
}

/// Returns the result of a run over the two streams by two senders, which read one line at a time.
fn answer_side_by_side(
    rt: &(impl AllocGlobal + Threads + Wait + Sync),
    gate: &Holding,
    index: &Index,
    words: &[Vec<u8>],
    out: &mut Taker,
) -> Result<Result<(), RunFault>, Fail> {
    let plan = Plan::new(2, 1, 1000)?;
    let readers = readers_for(rt.alloc(), index, &PAIR, Cut::InReadsOf(3))?;
    let request = Request {
        plan: &plan,
        options: &PLAIN,
        words,
    };
    Ok(answer_with(rt, index, readers, request, gate, out))
}

const CLOSING_UNENDED: &str = "@@REDO:done:7:1.0000@@ 0 a";

const CLOSING_ANOTHER: &str = "@@REDO:done:7:1.0000@@ 0 b\n";

const A_IS_OPEN: Want<'static> = Err((
    RunFault::Stream {
        number: 0,
        fault: StreamFault::NotClosed,
    },
    "redo-log: a: not closed\n",
    4,
));

/// An index, the streams of `a` and `b`, the maximum number of bytes of each, and the result of a run that requests `a`.
type FlaggedCase = (&'static str, &'static [Given<'static>], u64, Want<'static>);

static FLAGGED: &[FlaggedCase] = &[
    (
        "!1 a\n2 b\n",
        &[("a", CLOSING, false), ("b", "", false)],
        1000,
        Ok("redo  a\n"),
    ),
    (
        "!1 a\n2 b\n",
        &[("a", "x\n", false), ("b", "", false)],
        1000,
        A_IS_OPEN,
    ),
    (
        "!1 a\n2 b\n",
        &[("a", "", false), ("b", "", false)],
        1000,
        A_IS_OPEN,
    ),
    (
        "!1 a\n2 b\n",
        &[("a", CLOSING_UNENDED, false), ("b", "", false)],
        1000,
        A_IS_OPEN,
    ),
    (
        "!1 a\n2 b\n",
        &[("a", CLOSING_ANOTHER, false), ("b", "", false)],
        1000,
        A_IS_OPEN,
    ),
    (
        "!1 a\n2 b\n",
        &[("a", "x\n", false), ("b", BAD, false)],
        1000,
        A_IS_OPEN,
    ),
    (
        "!1 a\n2 b\n",
        &[("a", CLOSING_AND_MORE, false), ("b", "", false)],
        1000,
        AFTER_CLOSE,
    ),
    (
        "!1 a\n2 b\n",
        &[("a", CLOSING, true), ("b", "", false)],
        1000,
        Err((
            RunFault::Stream {
                number: 0,
                fault: StreamFault::Read,
            },
            "redo-log: a: cannot be read\n",
            5,
        )),
    ),
    (
        "!1 a\n2 b\n",
        &[("a", "abc\nd", false), ("b", "", false)],
        4,
        TOO_LONG,
    ),
    (
        "1 a\n!2 b\n",
        &[("a", "x\n", false), ("b", "", false)],
        1000,
        Err((
            RunFault::Stream {
                number: 1,
                fault: StreamFault::NotClosed,
            },
            "redo-log: b: not closed\n",
            4,
        )),
    ),
    (
        "1 a\n2 b\n",
        &[("a", "x\n", false), ("b", "", false)],
        1000,
        Ok("redo  a\nx\n"),
    ),
];

/// Numbers of senders.
static SENDERS: [u32; 3] = [1, 2, 64];

#[test]
fn run_reports_open_flagged_log(rt: HostRuntime) -> Result<(), Fail> {
    for case in FLAGGED {
        expect_flagged(&rt, case)?;
    }
    Ok(())
}

fn expect_flagged(
    rt: &(impl Abort + AllocGlobal + Threads + Wait + Sync),
    case: &FlaggedCase,
) -> Result<(), Fail> {
    let index = read_index(rt.alloc(), case.0.as_bytes())?;
    for senders in &SENDERS {
        expect_flagged_by(rt, &index, case, *senders)?;
    }
    Ok(())
}

fn expect_flagged_by(
    rt: &(impl Abort + AllocGlobal + Threads + Wait + Sync),
    index: &Index,
    case: &FlaggedCase,
    senders: u32,
) -> Result<(), Fail> {
    let plan = Plan::new(senders, 1, case.2)?;
    let mut out = Taker::new(rt.alloc(), 1000, 1000)?;
    let ran = answer_of_a(rt, index, case.1, &plan, &mut out)?;
    expect_written(rt, &ran, out.bytes(), case.3);
    Ok(())
}

fn answer_of_a(
    rt: &(impl AllocGlobal + Threads + Wait + Sync),
    index: &Index,
    given: &[Given<'_>],
    plan: &Plan,
    out: &mut Taker,
) -> Result<Outcome, Fail> {
    let words = words(rt.alloc(), &["a"])?;
    let request = Request {
        plan,
        options: &PLAIN,
        words: &words,
    };
    ran_over(rt, index, given, Cut::InReadsOf(3), request, out)
}
