//! The calls that make up the command, and the command with a writer whose flush fails.
use redo_line::{Pieces, StreamFault};
use redo_log_cli::{
    Failure, Index, RunFault, command, fault_line, help_text, read_index, read_names, read_words,
};
use std::alloc::{AllocError, Global};
use std::io;
use std::io::Write;
use std::random::RandomSource;
use std::rt::Files;
use std::sync::Wait;
use std::thread::Threads;

/// Parses command-line arguments.
pub fn words(rt: &impl Print, alloc: Global) -> io::Result<()> {
    let Ok(words) = strings(alloc, &["--dir", "d", "-r", "--senders", "2", "all", "x"]) else {
        return println!(rt; "no memory for the words");
    };
    match read_words(alloc, words) {
        Ok(job) => println!(rt; "read_words: {} {:?}", job.dir(), job.targets()),
        Err(fault) => println!(rt; "read_words: {fault:?}"),
    }
}

fn strings(alloc: Global, words: &[&str]) -> Result<Vec<String>, AllocError> {
    let mut strings = Vec::new(alloc);
    for word in words {
        strings.push(format!(in alloc; "{word}")?)?;
    }
    Ok(strings)
}

/// Prints the help text.
pub fn help(rt: &impl Print, alloc: Global) -> io::Result<()> {
    match help_text(alloc) {
        Ok(text) => print!(rt; "{text}"),
        Err(_) => println!(rt; "help_text: no memory"),
    }
}

/// Reads the file `names` in two reads.
pub fn names(rt: &impl Print, alloc: Global) -> io::Result<()> {
    let Ok(mut reader) = two_reads(alloc) else {
        return println!(rt; "no memory for the reads");
    };
    match read_names(alloc, &mut reader) {
        Ok(bytes) => println!(rt; "read_names: {bytes:?}"),
        Err(failure) => println!(rt; "read_names: {failure:?}"),
    }
}

fn two_reads(alloc: Global) -> Result<Pieces, AllocError> {
    let mut reads = Vec::new(alloc);
    for read in [b"1 a".as_slice(), b"ll\n".as_slice()] {
        reads.push(read.to_vec(alloc)?)?;
    }
    Ok(Pieces::new(reads, false))
}

/// Prints the error messages for a stream's fault and for an unknown argument.
pub fn fault_lines(rt: &impl Print, alloc: Global) -> io::Result<()> {
    match index_and_word(alloc) {
        Some((index, word)) => {
            print_stream_fault(rt, alloc, &index)?;
            print_unknown_target(rt, alloc, &index, word)
        }
        None => println!(rt; "no memory for the index and the word"),
    }
}

fn index_and_word(alloc: Global) -> Option<(Index, Vec<u8>)> {
    let index = read_index(alloc, b"7 d/a\n1 b\n".as_slice()).ok()?;
    Some((index, b"nope".to_vec(alloc).ok()?))
}

fn print_stream_fault(rt: &impl Print, alloc: Global, index: &Index) -> io::Result<()> {
    if index.len() < 2 {
        return println!(rt; "a short index");
    }
    let fault = StreamFault::BadRecord { line: 20 };
    let failure = Failure::Run(RunFault::Stream { number: 1, fault });
    print_message(rt, fault_line(alloc, &failure, index, &[]))
}

fn print_unknown_target(
    rt: &impl Print,
    alloc: Global,
    index: &Index,
    word: Vec<u8>,
) -> io::Result<()> {
    let failure = Failure::Run(RunFault::Unknown { place: 0 });
    print_message(rt, fault_line(alloc, &failure, index, &[word]))
}

fn print_message(rt: &impl Print, line: Result<Vec<u8>, AllocError>) -> io::Result<()> {
    match line {
        Ok(line) => println!(rt; "fault_line: {line:?}"),
        Err(_) => println!(rt; "fault_line: no memory"),
    }
}

/// A writer that takes all bytes but fails to flush them.
#[derive(Drop)]
struct Unflushed {
    bytes: Vec<u8>,
}

impl Write for Unflushed {
    fn write(&mut self, buf: &[u8]) -> io::Result<usize> {
        self.bytes.extend_from_slice(buf)?;
        Ok(buf.len())
    }

    fn flush(&mut self) -> io::Result<()> {
        Err(io::Error::from(io::ErrorKind::Other))
    }
}

/// Runs the command for the targets `x` and `all` in the current directory, with writers whose flush
/// fails.
pub fn command_unflushed(
    rt: &(impl Print + Files<File: Send> + RandomSource + Threads + Wait + Sync + AllocGlobal),
) -> io::Result<()> {
    let alloc = rt.alloc();
    let Ok(words) = strings(alloc, &["x", "all"]) else {
        return println!(rt; "no memory for the words");
    };
    let mut out = Unflushed {
        bytes: Vec::new(alloc),
    };
    let mut err = Unflushed {
        bytes: Vec::new(alloc),
    };
    let status = command(rt, words, &mut out, &mut err);
    println!(rt; "command: {status}")?;
    println!(rt; "bytes: {:?}", out.bytes)?;
    println!(rt; "line: {:?}", err.bytes)
}
