//! Tests of reading the file `names`.
use crate::expect::expect_eq;
use redo_line::Pieces;
use redo_log_cli::{Failure, read_names};
use redo_test_support::{Cut, reader};
use std::alloc::{AllocError, Global};
use std::process::Abort;
use std::test::Fail;

/// Bytes, and the size of a read.
static COMPLETE: &[(&str, usize)] = &[("1 all\n", 1), ("1 all\n", 2), ("1 all\n", 1000), ("", 1)];

#[test]
fn read_names_returns_all_bytes(rt: HostRuntime) -> Result<(), Fail> {
    for (bytes, size) in COMPLETE {
        expect_read(&rt, bytes, *size)?;
    }
    Ok(())
}

/// Checks that all of these bytes are read, in reads of this size.
fn expect_read(rt: &(impl Abort + AllocGlobal), bytes: &str, size: usize) -> Result<(), Fail> {
    let names = names_of(rt.alloc(), bytes, size)?;
    expect_eq(rt, names.as_slice(), bytes.as_bytes(), size);
    Ok(())
}

fn names_of(alloc: Global, bytes: &str, size: usize) -> Result<Vec<u8>, Fail> {
    Ok(read(alloc, bytes, false, size)??)
}

/// Reads these bytes as the file `names`, in reads of this size.
fn read(
    alloc: Global,
    bytes: &str,
    fails: bool,
    size: usize,
) -> Result<Result<Vec<u8>, Failure>, AllocError> {
    let mut names = reader(alloc, bytes, fails, Cut::InReadsOf(size))?;
    Ok(read_from(alloc, &mut names))
}

fn read_from(alloc: Global, names: &mut Pieces) -> Result<Vec<u8>, Failure> {
    read_names(alloc, names)
}

/// The bytes before a failed read, and the size of a read.
static TRUNCATED: &[(&str, usize)] = &[("", 1), ("1 all\n", 1), ("1 all\n", 1000)];

#[test]
fn read_names_reports_failed_read(rt: HostRuntime) -> Result<(), Fail> {
    for (bytes, size) in TRUNCATED {
        let fault = fault_after(rt.alloc(), bytes, *size)?;
        expect_eq(&rt, fault, Some(Failure::NamesRead), bytes);
    }
    Ok(())
}

/// Returns the failure if a read fails after these bytes.
fn fault_after(alloc: Global, bytes: &str, size: usize) -> Result<Option<Failure>, AllocError> {
    Ok(read(alloc, bytes, true, size)?.err())
}
