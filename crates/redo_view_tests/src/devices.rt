//! Tests of the readers and writers in memory, and of the wrappers of std's readers and writers.
ghost use Rattle.std.specs.Prelude.{◌<◌, length};

use crate::expect::expect_eq;
use redo_line::{Broken, Feed, Pieces, Reading, Sink, Taker, Writing};
use std::alloc::{AllocError, Global};
use std::io;
use std::io::{Read, Write};
use std::process::Abort;
use std::test::Fail;

static READS: [&[u8]; 4] = [b"", b"abcde", b"", b"f"];

/// Creates a reader that gives `READS`. Two of them are not empty.
fn two_reads(alloc: Global, fails: bool) -> Result<Pieces, AllocError> {
    let mut reads = Vec::new(alloc);
    for read in &READS {
        reads.push(read.to_vec(alloc)?)?;
    }
    Ok(Pieces::new(reads, fails))
}

fn expect_read(rt: &impl Abort, reader: &mut impl Feed, want: &[u8]) {
    let mut buf = [0u8; 3];
    let pulled = reader.pull(&mut buf);
    expect_eq(rt, pulled, Ok(want.len()), want);
    assert!(rt; buf.starts_with(want), "{want:?}");
}

#[test]
fn pieces_gives_reads_then_end(rt: HostRuntime) -> Result<(), Fail> {
    let mut reader = two_reads(rt.alloc(), false)?;
    expect_two_reads(&rt, &mut reader);
    expect_read(&rt, &mut reader, b"");
    expect_read(&rt, &mut reader, b"");
    Ok(())
}

#[test]
fn pieces_gives_reads_then_failure(rt: HostRuntime) -> Result<(), Fail> {
    let mut reader = two_reads(rt.alloc(), true)?;
    expect_two_reads(&rt, &mut reader);
    expect_pulled(&rt, &mut reader, Err(Broken));
    expect_pulled(&rt, &mut reader, Err(Broken));
    Ok(())
}

fn expect_two_reads(rt: &impl Abort, reader: &mut impl Feed) {
    expect_read(rt, reader, b"abc");
    expect_read(rt, reader, b"de");
    expect_read(rt, reader, b"f");
}

fn expect_pulled(rt: &impl Abort, reader: &mut impl Feed, want: Result<usize, Broken>) {
    let mut buf = [0u8; 3];
    expect_eq(rt, reader.pull(&mut buf), want, "a read");
}

#[test]
fn taker_accepts_bytes_up_to_room(rt: HostRuntime) -> Result<(), Fail> {
    let mut writer = Taker::new(rt.alloc(), 5, 3)?;
    expect_pushed(&rt, &mut writer, b"abcd", Ok(3));
    expect_pushed(&rt, &mut writer, b"abcd", Ok(2));
    expect_pushed(&rt, &mut writer, b"abcd", Err(Broken));
    expect_eq(&rt, writer.bytes(), b"abcab".as_slice(), "taken");
    Ok(())
}

fn expect_pushed(rt: &impl Abort, writer: &mut impl Sink, bytes: &[u8], want: Result<usize, Broken>)
    requires { 0 < length bytes.now }
{
    expect_eq(rt, writer.push(bytes), want, bytes);
}

#[test]
fn taker_may_accept_nothing(rt: HostRuntime) -> Result<(), Fail> {
    let mut writer = Taker::new(rt.alloc(), 5, 0)?;
    expect_pushed(&rt, &mut writer, b"a", Ok(0));
    expect_eq(&rt, writer.bytes(), b"".as_slice(), "taken");
    Ok(())
}

/// A reader and writer of std that gives or takes one byte in each call; only its second call is interrupted.
#[derive(Drop)]
struct Interrupted {
    calls: u32,
}

impl Interrupted {
    fn turn(&mut self) -> io::Result<usize> {
        self.calls = self.calls.saturating_add(1);
        if self.calls == 2 {
            return Err(io::Error::from(io::ErrorKind::Interrupted));
        }
        Ok(1)
    }
}

impl Read for Interrupted {
    fn read(&mut self, buf: &mut [u8]) -> io::Result<usize> {
        Ok(self.turn()?.min(buf.len()))
    }
}

impl Write for Interrupted {
    fn write(&mut self, buf: &[u8]) -> io::Result<usize> {
        Ok(self.turn()?.min(buf.len()))
    }

    fn flush(&mut self) -> io::Result<()> {
        Ok(())
    }
}

#[test]
fn interrupted_read_fails(rt: HostRuntime) {
    let mut reader = Reading(Interrupted { calls: 0 });
    expect_pulled(&rt, &mut reader, Ok(1));
    expect_pulled(&rt, &mut reader, Err(Broken));
    expect_pulled(&rt, &mut reader, Ok(1));
}

#[test]
fn interrupted_write_fails(rt: HostRuntime) {
    let mut writer = Writing(Interrupted { calls: 0 });
    expect_pushed(&rt, &mut writer, b"abc", Ok(1));
    expect_pushed(&rt, &mut writer, b"bc", Err(Broken));
    expect_pushed(&rt, &mut writer, b"bc", Ok(1));
}
