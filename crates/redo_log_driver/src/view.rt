//! Shows logs that were gathered before, and runs streams.
ghost use Rattle.std.specs.Prelude.{◌≡◌, true, length};
ghost use Rattle.std.specs.List.{list_all};
ghost use Rattle.redo_logs.specs.Logs.{has_ended};

use crate::gather::{
    BAD, LOCKS, MAX_BYTES, OPEN, Streams, WHOLE, captured, gathered, tell_missing,
};
use redo_gather::{Free, Plan};
use redo_line::{Pieces, Taker, TargetName};
use redo_log_cli::{Index, run};
use redo_logs::LogTable;
use redo_view::{Options, view};
use std::alloc::{AllocError, Global};
use std::io;
use std::sync::Wait;
use std::thread::Threads;

/// Streams, the requested target, and the options.
pub struct Case {
    given: Streams,
    asked: &'static [u8],
    options: Options,
}

/// The options that show the logs of mentioned targets, and text lines.
pub const DEEP: Options = Options {
    recursive: true,
    unchanged: false,
    details: true,
    debug_locks: false,
    debug_pids: false,
};

/// A log that opens two other ones.
pub const OPENED: Case = Case {
    given: WHOLE,
    asked: b"all",
    options: DEEP,
};

/// A log that opens a second one, which opens a third one, with messages about locks.
pub const LOCKED: Case = Case {
    given: LOCKS,
    asked: b"all",
    options: Options {
        debug_locks: true,
        ..DEEP
    },
};

/// A stream with a bad record.
pub const AT_FAULT: Case = Case {
    given: BAD,
    asked: b"all",
    options: DEEP,
};

/// A closed stream with the must-close flag, and another one without a closing record.
pub const NOT_CLOSED: Case = Case {
    given: OPEN,
    asked: b"a",
    options: DEEP,
};

/// A target that isn't listed.
pub const UNKNOWN: Case = Case {
    given: WHOLE,
    asked: b"nope",
    options: DEEP,
};

/// Gathers the streams and views their logs. Prints the result and the bytes written.
pub fn view_logs(rt: &impl Print, alloc: Global, case: &Case) -> io::Result<()> {
    match gathered(alloc, &case.given) {
        Ok(table) => view_table(rt, alloc, &table, case),
        Err(why) => tell_missing(rt, why),
    }
}

fn view_table(rt: &impl Print, alloc: Global, table: &LogTable, case: &Case) -> io::Result<()>
    requires { list_all has_ended table.now ≡ true }
{
    let (Ok(asked), Ok(mut out)) = (TargetName::resolve(alloc, None, case.asked), writer(alloc))
    else {
        return println!(rt; "no memory for the target and the writer");
    };
    let answer = view(alloc, table, &case.options, &[asked], &mut out);
    println!(rt; "view: {answer:?}")?;
    tell_bytes(rt, &out)
}

/// Runs the streams with the plan, or with four senders. Prints the result and the bytes written.
pub fn run_streams(
    rt: &(impl Print + AllocGlobal + Threads + Wait + Sync),
    case: &Case,
    plan: Option<Plan>,
) -> io::Result<()> {
    let plan = plan.unwrap_or(Plan::new(4, 64, MAX_BYTES).unwrap());
    match captured(rt.alloc(), &case.given) {
        Ok((index, readers)) => run_readers(rt, &index, readers, case, &plan),
        Err(why) => tell_missing(rt, why),
    }
}

fn run_readers(
    rt: &(impl Print + AllocGlobal + Threads + Wait + Sync),
    index: &Index,
    readers: Vec<Pieces>,
    case: &Case,
    plan: &Plan,
) -> io::Result<()>
    requires { length readers.items ≡ length index.now }
{
    let alloc = rt.alloc();
    let (Ok(asked), Ok(mut out)) = (case.asked.to_vec(alloc), writer(alloc)) else {
        return println!(rt; "no memory for the word and the writer");
    };
    let answer = run(
        rt,
        alloc,
        index,
        readers,
        plan,
        &case.options,
        &[asked],
        &Free,
        &mut out,
    );
    println!(rt; "run: {answer:?}")?;
    tell_bytes(rt, &out)
}

/// Returns a writer with room for every text.
fn writer(alloc: Global) -> Result<Taker, AllocError> {
    Taker::new(alloc, 1000, 1000)
}

fn tell_bytes(rt: &impl Print, out: &Taker) -> io::Result<()> {
    println!(rt; "bytes: {:?}", out.bytes())
}
