//! Makes single calls, and prints each result and the state after the call. Its only argument names the calls. If
//! they gather streams, a space and a number of senders may follow the name. The scripts of `tests` run it; one of
//! them makes each of its allocations fail in turn. With `rates` it measures the mailbox.
#![tactic(auto)]

ghost use Rattle.std.specs.Prelude.{◌≤◌, ◌<◌, ◌^◌, length, IfSome};

mod chain;
mod command;
mod gather;
mod mailbox;
mod rates;
mod send;
mod table;
mod view;

use crate::gather::MAX_BYTES;
use memchr::memchr;
use redo_gather::Plan;
use redo_line::{
    Cut, Cutter, LineText, Scan, Sink, Step, Taker, TargetName, read_line, read_number,
};
use redo_log_cli::{Index, read_index};
use std::alloc::Global;
use std::io::{BufRead, BufReader, Read};
use std::process::ExitCode;
use std::sync::Wait;
use std::thread::Threads;
use std::{env, io, str};

fn main(rt: HostRuntime) -> io::Result<ExitCode> {
    let Some(calls) = argument(&rt) else {
        println!(rt; "no argument")?;
        return Ok(ExitCode::from(7));
    };
    match calls.as_str() {
        "command_unflushed" => command::command_unflushed(&rt)?,
        "rates" => rates::rates(&rt)?,
        calls => make(&rt, calls)?,
    }
    Ok(ExitCode::SUCCESS)
}

/// Makes the calls of this name.
fn make(
    rt: &(impl Input + Print + AllocGlobal + Threads + Wait + Sync),
    calls: &str,
) -> io::Result<()> {
    match calls {
        "cutter" => cutter(rt, rt.alloc(), b"ab", b"c\nd", 2),
        "long_cutter" => cutter(rt, rt.alloc(), &[b'a'; 20], b"cccccccccccc\nd", 13),
        "index" => index(rt, rt.alloc()),
        "index_of_input" => index_of_input(rt),
        "names" => names(rt, rt.alloc()),
        "read_line" => read_lines(rt, rt.alloc()),
        "resolve" => resolve_lines(rt),
        "scan_of_input" => scan_of_input(rt),
        "step" => step(rt, rt.alloc()),
        "taker" => taker(rt, rt.alloc()),
        _ => make_for_command(rt, calls),
    }
}

/// Makes the calls of this name, if they are part of the command.
fn make_for_command(
    rt: &(impl Print + AllocGlobal + Threads + Wait + Sync),
    calls: &str,
) -> io::Result<()> {
    match calls {
        "fault_line" => command::fault_lines(rt, rt.alloc()),
        "help_text" => command::help(rt, rt.alloc()),
        "read_names" => command::names(rt, rt.alloc()),
        "read_words" => command::words(rt, rt.alloc()),
        _ => make_with_logs(rt, calls),
    }
}

/// Splits the argument into a name of calls and, if a number of senders follows, a plan.
fn with_plan(calls: &str) -> (&str, Option<Plan>) {
    match calls.split_once(' ') {
        Some((name, senders)) => (name, plan_of(senders)),
        None => (calls, None),
    }
}

fn plan_of(senders: &str) -> Option<Plan> {
    let senders = read_number(2, senders.as_bytes())?;
    Plan::new(senders as u32, 1, MAX_BYTES).ok()
}

/// Makes the calls of this name, if they need a table of logs.
fn make_with_logs(
    rt: &(impl Print + AllocGlobal + Threads + Wait + Sync),
    calls: &str,
) -> io::Result<()> {
    let (name, plan) = with_plan(calls);
    match name {
        "full_table" => table::full_table(rt, rt.alloc()),
        "gather_whole" => gather::gather(rt, &gather::WHOLE, plan),
        "gather_bad" => gather::gather(rt, &gather::BAD, plan),
        "gather_both_bad" => gather::gather(rt, &gather::BOTH_BAD, plan),
        "gather_open" => gather::gather(rt, &gather::OPEN, plan),
        "mailbox" => mailbox::mailbox(rt),
        "send" => send::send_shares(rt, plan),
        "table" => table::table(rt, rt.alloc()),
        _ => make_with_texts(rt, name, plan),
    }
}

/// Makes the calls of this name, if they show logs as a text.
fn make_with_texts(
    rt: &(impl Print + AllocGlobal + Threads + Wait + Sync),
    calls: &str,
    plan: Option<Plan>,
) -> io::Result<()> {
    match calls {
        "chain" => chain::view_chain(rt, rt.alloc()),
        "run_bad" => view::run_streams(rt, &view::AT_FAULT, plan),
        "run_open" => view::run_streams(rt, &view::NOT_CLOSED, plan),
        "run_locks" => view::run_streams(rt, &view::LOCKED, plan),
        "run_unknown" => view::run_streams(rt, &view::UNKNOWN, plan),
        "run_whole" => view::run_streams(rt, &view::OPENED, plan),
        "view_locks" => view::view_logs(rt, rt.alloc(), &view::LOCKED),
        "view_whole" => view::view_logs(rt, rt.alloc(), &view::OPENED),
        _ => println!(rt; "unknown calls: {calls}"),
    }
}

/// Returns the argument, or `None` if there is none or an allocation fails.
fn argument(rt: &HostRuntime) -> Option<String> {
    env::args(rt).ok()?.nth(1)
}

/// Cuts two chunks. The second one has a line feed before index `from`. A call whose allocation fails is
/// made again.
fn cutter(
    rt: &impl Print,
    alloc: Global,
    first: &[u8],
    second: &[u8],
    from: usize,
) -> io::Result<()>
    requires { from ≤ length second.now }
{
    let mut cutter = Cutter::new(alloc);
    next(rt, &mut cutter, first, 0)?;
    next(rt, &mut cutter, second, 0)?;
    next(rt, &mut cutter, second, from)?;
    match cutter.finish() {
        Some(last) => println!(rt; "finish: {:?}", last.bytes()),
        None => println!(rt; "finish: nothing"),
    }
}

fn next(rt: &impl Print, cutter: &mut Cutter, chunk: &[u8], from: usize) -> io::Result<()>
    requires { from ≤ length chunk.now }
{
    for _ in 0..2 {
        match cutter.next(chunk, from) {
            Ok(Cut::Line { bytes, upto }) => {
                return println!(rt; "next from {from}: {:?} to {upto}", bytes.bytes());
            }
            Ok(Cut::More) => return println!(rt; "next from {from}: more"),
            Err(_) => println!(rt; "next from {from}: no memory")?,
        }
    }
    Ok(())
}

/// Reads an index, and prints the position of each target.
fn index(rt: &impl Print, alloc: Global) -> io::Result<()> {
    tell_index_of(rt, alloc, b"7 d/./a\n!1  b\n12 c")
}

/// Reads standard input as an index. Prints the number of its targets and each of them, or its fault.
fn index_of_input(rt: &(impl Input + Print + AllocGlobal)) -> io::Result<()> {
    tell_index_of(rt, rt.alloc(), &all_input(rt)?)
}

/// Reads all bytes of standard input.
fn all_input(rt: &(impl Input + AllocGlobal)) -> io::Result<Vec<u8>> {
    let mut bytes = Vec::new(rt.alloc());
    rt.reader().read_to_end(&mut bytes)?;
    Ok(bytes)
}

fn tell_index_of(rt: &impl Print, alloc: Global, bytes: &[u8]) -> io::Result<()> {
    match read_index(alloc, bytes) {
        Ok(index) => tell_index(rt, &index),
        Err(fault) => println!(rt; "read_index: {fault:?}"),
    }
}

fn tell_index(rt: &impl Print, index: &Index) -> io::Result<()> {
    println!(rt; "read_index: {}", index.len())?;
    for i in 0..index.len() {
        let name = index.name(i);
        println!(rt;
            "{}{} {:?} at {:?}",
            if index.must_close(i) { "!" } else { "" },
            index.fid(i),
            name.bytes(),
            index.find(name)
        )?;
    }
    Ok(())
}

/// Prints the normal forms of a target's name and of a name in its log, and a copy of the target's name.
fn names(rt: &impl Print, alloc: Global) -> io::Result<()> {
    let Ok(target) = TargetName::resolve(alloc, None, b"d/./a") else {
        return println!(rt; "resolve: no memory");
    };
    println!(rt; "resolve: {:?}", target.bytes())?;
    tell_relative(rt, alloc, &target)?;
    tell_copy(rt, alloc, &target)
}

fn tell_relative(rt: &impl Print, alloc: Global, target: &TargetName) -> io::Result<()> {
    match TargetName::resolve(alloc, Some(target), b"../e//x") {
        Ok(name) => println!(rt; "resolve of it: {:?}", name.bytes()),
        Err(fault) => println!(rt; "resolve of it: {fault:?}"),
    }
}

fn tell_copy(rt: &impl Print, alloc: Global, target: &TargetName) -> io::Result<()> {
    match target.copy(alloc) {
        Ok(copy) => println!(rt; "copy: {:?}", copy.bytes()),
        Err(_) => println!(rt; "copy: no memory"),
    }
}

/// Prints the normal form of each name in standard input. A line is a target, a tab, and a name in the
/// target's log. If the target is empty, the name is one outside any log.
fn resolve_lines(rt: &(impl Input + Print + AllocGlobal)) -> io::Result<()> {
    for line in BufReader::new(rt.alloc(), rt.reader())?.lines(rt.alloc()) {
        resolve_line(rt, rt.alloc(), &line?)?;
    }
    Ok(())
}

fn resolve_line(rt: &impl Print, alloc: Global, line: &str) -> io::Result<()> {
    let Some((of, name)) = line.split_once('\t') else {
        return println!(rt; "no tab");
    };
    let target = TargetName::resolve(alloc, None, of.as_bytes()).ok();
    match TargetName::resolve(alloc, target.as_ref(), name.as_bytes()) {
        Ok(name) => println!(rt; "{}", str::from_utf8(name.bytes()).unwrap_or("no text")),
        Err(fault) => println!(rt; "{fault:?}"),
    }
}

/// Prints the entry of a line of each kind. A cutter makes the lines from bytes.
fn read_lines(rt: &impl Print, alloc: Global) -> io::Result<()> {
    let Ok(target) = TargetName::resolve(alloc, None, b"d/a") else {
        return println!(rt; "resolve: no memory");
    };
    for bytes in [
        b"hello\n".as_slice(),
        b"@@REDO:do:7:1@@ b\n".as_slice(),
        b"@@REDO:done:7:1@@ -2 b\n".as_slice(),
        b"@@REDO:done:7:1@@ 0 a\n".as_slice(),
        b"@@REDO:check:7:1@@ b\n".as_slice(),
        b"@@REDO:do:7\n".as_slice(),
    ] {
        tell_entry(rt, alloc, &target, bytes)?;
    }
    Ok(())
}

fn tell_entry(rt: &impl Print, alloc: Global, target: &TargetName, bytes: &[u8]) -> io::Result<()> {
    match Cutter::new(alloc).next(bytes, 0) {
        Ok(Cut::Line { bytes, .. }) => tell_entry_of(rt, alloc, target, bytes),
        Ok(Cut::More) => println!(rt; "next: no line"),
        Err(_) => println!(rt; "next: no memory"),
    }
}

fn tell_entry_of(
    rt: &impl Print,
    alloc: Global,
    target: &TargetName,
    line: LineText,
) -> io::Result<()> {
    match read_line(alloc, target, line, true) {
        Ok(entry) => println!(rt; "read_line: {entry:?}"),
        Err(fault) => println!(rt; "read_line: {fault:?}"),
    }
}

/// Scans two chunks, and goes on after a call whose allocation failed.
fn step(rt: &impl Print, alloc: Global) -> io::Result<()> {
    let Ok(target) = TargetName::resolve(alloc, None, b"d/a") else {
        return println!(rt; "resolve: no memory");
    };
    let mut scan = Scan::new(alloc, target, 1000, false);
    tell_pieces(rt, &mut scan)?;
    tell_finish(rt, scan)
}

fn tell_pieces(rt: &impl Print, scan: &mut Scan) -> io::Result<()> {
    for chunk in [b"@@REDO:do:7:".as_slice(), b"1@@ b\nhello\nrest".as_slice()] {
        tell_steps(rt, scan, chunk)?;
    }
    Ok(())
}

fn tell_finish(rt: &impl Print, scan: Scan) -> io::Result<()> {
    match scan.finish() {
        Ok(last) => println!(rt; "finish: {last:?}"),
        Err(fault) => println!(rt; "finish: {fault:?}"),
    }
}

fn tell_steps(rt: &impl Print, scan: &mut Scan, chunk: &[u8]) -> io::Result<()> {
    let mut from = 0;
    for _ in 0..4 {
        if from > chunk.len() {
            return println!(rt; "a place past the chunk");
        }
        match tell_step(rt, scan, chunk, from)? {
            Some(upto) => from = upto,
            None => return Ok(()),
        }
    }
    println!(rt; "more entries than lines")
}

/// Prints the result of a step. Returns the end of the entry if the step found one.
fn tell_step(
    rt: &impl Print,
    scan: &mut Scan,
    chunk: &[u8],
    from: usize,
) -> io::Result<Option<usize>>
    requires { from ≤ length chunk.now }
{
    match scan.step(chunk, from) {
        Ok(Step::Found { entry, upto }) => {
            println!(rt; "step from {from}: {entry:?} to {upto}")?;
            return Ok(Some(upto));
        }
        Ok(Step::More) => println!(rt; "step from {from}: more")?,
        Err(fault) => println!(rt; "step from {from}: {fault:?}")?,
    }
    Ok(None)
}

/// Scans standard input after its first line. That line has the must-close flag if the stream must
/// close, the maximum number of bytes, a space, the size of a chunk, a space, and the target.
fn scan_of_input(rt: &(impl Input + Print + AllocGlobal)) -> io::Result<()> {
    let bytes = all_input(rt)?;
    let mark = mark_of(&bytes);
    let Some((max_bytes, size, target, stream)) = read_job(&bytes[mark..]) else {
        return println!(rt; "a bad first line");
    };
    match TargetName::resolve(rt.alloc(), None, target) {
        Ok(target) => scan_stream(
            rt,
            Scan::new(rt.alloc(), target, max_bytes, mark > 0),
            stream,
            size,
        ),
        Err(_) => println!(rt; "a bad target"),
    }
}

/// Returns the length of the must-close flag at the start: 1, or 0 if there is none.
fn mark_of(bytes: &[u8]) -> usize
    ensures { result ≤ length bytes.now }
{
    if !bytes.is_empty() && bytes[0] == b'!' {
        1
    } else {
        0
    }
}

/// Prints the entries of a stream that is scanned in chunks of this size, and the result of the scan's end.
fn scan_stream(rt: &impl Print, mut scan: Scan, stream: &[u8], size: usize) -> io::Result<()>
    requires { 0 < size }
{
    scan_pieces(rt, &mut scan, stream, size)?;
    match scan.finish() {
        Ok(last) => println!(rt; "{last:?}"),
        Err(fault) => println!(rt; "{fault:?}"),
    }
}

fn scan_pieces(rt: &impl Print, scan: &mut Scan, stream: &[u8], size: usize) -> io::Result<()>
    requires { 0 < size }
{
    for chunk in stream.chunks(size) {
        if !scan_piece(rt, scan, chunk)? {
            break;
        }
    }
    Ok(())
}

/// Returns the maximum number of bytes, the size of a chunk, the target and the stream.
fn read_job(bytes: &[u8]) -> Option<(u64, usize, &[u8], &[u8])>
    ensures { IfSome result (λ job. ((1 ≤ job.0) × (job.0 ≤ 2 ^ 40)) × (0 < job.1)) }
{
    let end = memchr(b'\n', bytes)?;
    let (first, stream) = (&bytes[..end], &bytes[end + 1..]);
    let at = memchr(b' ', first)?;
    let (max_bytes, rest) = (read_number(12, &first[..at])?, &first[at + 1..]);
    let at = memchr(b' ', rest)?;
    let (size, target) = (read_number(6, &rest[..at])?, &rest[at + 1..]);
    if max_bytes < 1 || max_bytes > 1 << 40 || size < 1 {
        return None;
    }
    Some((max_bytes, size as usize, target, stream))
}

/// Prints the entries that end in a chunk. Returns whether the scan may go on: it found no fault.
fn scan_piece(rt: &impl Print, scan: &mut Scan, chunk: &[u8]) -> io::Result<bool> {
    let mut from = 0;
    for _ in 0..chunk.len() + 1 {
        if from > chunk.len() {
            break;
        }
        match scan.step(chunk, from) {
            Ok(Step::Found { entry, upto }) => {
                println!(rt; "{entry:?}")?;
                from = upto;
            }
            Ok(Step::More) => return Ok(true),
            Err(_) => return Ok(false),
        }
    }
    println!(rt; "a place past the chunk")?;
    Ok(false)
}

/// Writes to a writer in memory until it is full.
fn taker(rt: &impl Print, alloc: Global) -> io::Result<()> {
    let Ok(mut taker) = Taker::new(alloc, 5, 3) else {
        return println!(rt; "new: no memory");
    };
    for _ in 0..3 {
        println!(rt; "push: {:?}", taker.push(b"abcd"))?;
    }
    println!(rt; "bytes: {:?}", taker.bytes())
}
