//! Tests of indexes: their entries, and which line is rejected.
use crate::expect::expect_eq;
use redo_index::{Index, IndexFault, read_index};
use redo_line::TargetName;
use std::alloc::Global;
use std::process::Abort;
use std::test::Fail;

/// An index, and the numbers and the names that it lists.
static LISTED: &[(&str, &[(u32, &str)])] = &[
    ("", &[]),
    ("1 all\n", &[(1, "all")]),
    ("7 d/./a\n999999999 b", &[(7, "d/a"), (999999999, "b")]),
    ("1  a\n", &[(1, " a")]),
    ("!1 a\n2 b\n", &[(1, "a"), (2, "b")]),
    ("1 !a\n", &[(1, "!a")]),
];

/// An index, and the must-close flag of each line.
static FLAGGED: &[(&str, &[bool])] = &[
    ("!1 a\n2 b\n", &[true, false]),
    ("1 a\n!2 b", &[false, true]),
    ("1 !a\n", &[false]),
];

/// An index, and its fault.
static REJECTED: &[(&str, IndexFault)] = &[
    ("1 a\n2 ./a\n", IndexFault::NameTwice { line: 2 }),
    ("1 a\n1 b\n", IndexFault::FidTwice { line: 2 }),
    ("1 a\n1 a\n", IndexFault::FidTwice { line: 2 }),
    ("1 a\nx\n1 b\n", IndexFault::BadLine { line: 2 }),
    ("01 a\n", IndexFault::BadLine { line: 1 }),
    ("0 a\n", IndexFault::BadLine { line: 1 }),
    ("1234567890 a\n", IndexFault::BadLine { line: 1 }),
    ("1\n", IndexFault::BadLine { line: 1 }),
    ("1 \n", IndexFault::BadLine { line: 1 }),
    ("\n", IndexFault::BadLine { line: 1 }),
    ("!\n", IndexFault::BadLine { line: 1 }),
    ("! 1 a\n", IndexFault::BadLine { line: 1 }),
    ("!!1 a\n", IndexFault::BadLine { line: 1 }),
    ("!1 a\n1 b\n", IndexFault::FidTwice { line: 2 }),
];

#[test]
fn index_lists_targets(rt: HostRuntime) -> Result<(), Fail> {
    for (bytes, entries) in LISTED {
        expect_listed(&rt, bytes, entries)?;
    }
    Ok(())
}

#[test]
fn flag_sets_must_close(rt: HostRuntime) -> Result<(), Fail> {
    for (bytes, flags) in FLAGGED {
        expect_flags(&rt, bytes, flags)?;
    }
    Ok(())
}

fn expect_flags(rt: &(impl Abort + AllocGlobal), bytes: &str, flags: &[bool]) -> Result<(), Fail> {
    let index = read_index(rt.alloc(), bytes.as_bytes())?;
    let found = index.must_close_flags(rt.alloc())?;
    expect_eq(rt, found.as_slice(), flags, bytes);
    Ok(())
}

/// Checks that the index in these bytes lists these numbers and names.
fn expect_listed(
    rt: &(impl Abort + AllocGlobal),
    bytes: &str,
    entries: &[(u32, &str)],
) -> Result<(), Fail> {
    let index = read_index(rt.alloc(), bytes.as_bytes())?;
    expect_entries(rt, &index, bytes, entries)
}

fn expect_entries(
    rt: &(impl Abort + AllocGlobal),
    index: &Index,
    bytes: &str,
    entries: &[(u32, &str)],
) -> Result<(), Fail> {
    assert_eq!(rt; index.len() as usize, entries.len(), "{bytes:?}");
    for (i, &(number, name)) in entries.iter().enumerate() {
        expect_entry(rt, index, i as u32, number, name);
        expect_found(rt, index, i as u32, name)?;
    }
    Ok(())
}

/// Checks the entry of the index at this position.
fn expect_entry(rt: &impl Abort, index: &Index, i: u32, number: u32, name: &str) {
    assert!(rt; i < index.len(), "{name:?}");
    let found = (index.fid(i), index.name(i).bytes());
    expect_eq(rt, found, (number, name.as_bytes()), name);
}

/// Checks that the index finds the target with this name at this position.
fn expect_found(
    rt: &(impl Abort + AllocGlobal),
    index: &Index,
    i: u32,
    name: &str,
) -> Result<(), Fail> {
    let target = TargetName::resolve(rt.alloc(), None, name.as_bytes())?;
    expect_eq(rt, index.find(&target), Some(i), name);
    Ok(())
}

#[test]
fn read_index_reports_first_fault(rt: HostRuntime) -> Result<(), Fail> {
    for (bytes, fault) in REJECTED {
        expect_eq(&rt, fault_of(rt.alloc(), bytes), Some(*fault), bytes);
    }
    Ok(())
}

fn fault_of(alloc: Global, bytes: &str) -> Option<IndexFault> {
    read_index(alloc, bytes.as_bytes()).err()
}

#[test]
fn find_returns_none_for_unlisted_target(rt: HostRuntime) -> Result<(), Fail> {
    let other = TargetName::resolve(rt.alloc(), None, b"b")?;
    expect_not_listed(&rt, "1 a\n2 b/c\n", 2, &other)?;
    expect_nothing_listed(&rt, &other);
    Ok(())
}

/// Checks that the index in these bytes lists `len` targets, and not this one.
fn expect_not_listed(
    rt: &(impl Abort + AllocGlobal),
    bytes: &str,
    len: u32,
    other: &TargetName,
) -> Result<(), Fail> {
    let index = read_index(rt.alloc(), bytes.as_bytes())?;
    expect_not_found(rt, &index, len, other);
    Ok(())
}

/// Checks that a new index lists no target, and so not this one.
fn expect_nothing_listed(rt: &(impl Abort + AllocGlobal), other: &TargetName) {
    expect_not_found(rt, &Index::new(rt.alloc()), 0, other);
}

/// Checks that the index lists `len` targets, and not this one.
fn expect_not_found(rt: &impl Abort, index: &Index, len: u32, other: &TargetName) {
    expect_eq(
        rt,
        (index.len(), index.find(other)),
        (len, None),
        "not listed",
    );
}
