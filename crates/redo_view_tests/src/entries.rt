//! Tests of the lines of a log and their entries.
use crate::expect::expect_eq;
use redo_line::{LineFault, LineText, TargetName, read_line};
use redo_logs::EntryRef;
use redo_test_support::{entry_text, line};
use std::alloc::{AllocError, Global};
use std::process::Abort;
use std::test::Fail;

/// A line in the log of `all`, and its entry.
static ENTRIES: [(&str, &str); 21] = [
    ("hello", "text|hello"),
    ("", "text|"),
    ("x @@REDO:do:7:1@@ a", "text|x @@REDO:do:7:1@@ a"),
    ("@@REDO", "text|@@REDO"),
    ("@@REDO:do:7:1.0000@@ a", "do|7|a"),
    ("@@REDO:do:007:1@@ ./a b", "do|7|a b"),
    ("@@REDO:do:0:1@@ a", "do|0|a"),
    ("@@REDO:do:4294967295:1@@ a", "do|4294967295|a"),
    ("@@REDO:waiting:7:1@@ d/x", "waiting|7|d/x"),
    ("@@REDO:locked:7:1@@ x", "locked|7|x"),
    ("@@REDO:unlocked:7:1@@ x", "unlocked|7|x"),
    ("@@REDO:unchanged:7:1@@ x", "unchanged|7|x"),
    ("@@REDO:done:7:1@@ 2 b", "done|7|2|b"),
    ("@@REDO:done:7:1@@ -11 b", "done|7|-11|b"),
    ("@@REDO:done:7:1@@ -0 b", "done|7|0|b"),
    ("@@REDO:done:7:1@@ 007  b", "done|7|7| b"),
    ("@@REDO:done:0000001230:1@@ 1 b", "done|1230|1|b"),
    ("@@REDO:done:7:1@@ 0 ./all", "closing|7|0"),
    ("@@REDO:done:0000001234:1@@ 0 all", "closing|1234|0"),
    (
        "@@REDO:x-y_z:4294967295:1.123456789@@ ",
        "note|4294967295|x-y_z|",
    ),
    ("@@REDO:check:7:12345678901234567890@@ b", "note|7|check|b"),
];

/// Candidates that are not records.
static BAD: [&str; 16] = [
    "@@REDO:",
    "@@REDO:do:7",
    "@@REDO::7:1@@ a",
    "@@REDO:Do:7:1@@ a",
    "@@REDO:do:4294967296:1@@ a",
    "@@REDO:do:00000000007:1@@ a",
    "@@REDO:do:7:@@ a",
    "@@REDO:do:7:123456789012345678901@@ a",
    "@@REDO:do:7:1.@@ a",
    "@@REDO:do:7:1.1234567890@@ a",
    "@@REDO:do:7:1@@a",
    "@@REDO:do:7:1@@ ",
    "@@REDO:done:7:1@@ 0",
    "@@REDO:done:7:1@@ 0 ",
    "@@REDO:done:7:1@@ - b",
    "@@REDO:done:7:1@@ 1234567890 b",
];

/// Returns the entry of a line in the log of a target, as tests write it, or its fault.
fn read(
    alloc: Global,
    target: &str,
    bytes: &str,
    ended: bool,
) -> Result<Result<String, LineFault>, Fail> {
    let target = TargetName::resolve(alloc, None, target.as_bytes())?;
    read_in(alloc, &target, bytes, ended)
}

fn read_in(
    alloc: Global,
    target: &TargetName,
    bytes: &str,
    ended: bool,
) -> Result<Result<String, LineFault>, Fail> {
    let line = line(alloc, bytes)?.ok_or("no line")?;
    Ok(read_text(alloc, target, line, ended)?)
}

fn read_text(
    alloc: Global,
    target: &TargetName,
    line: LineText,
    ended: bool,
) -> Result<Result<String, LineFault>, AllocError> {
    match read_line(alloc, target, line, ended) {
        Ok(entry) => Ok(Ok(entry_text(alloc, EntryRef::of(&entry))?)),
        Err(fault) => Ok(Err(fault)),
    }
}

/// Expects these entries of lines in the log of a target.
fn expect(
    rt: &(impl Abort + AllocGlobal),
    target: &str,
    ended: bool,
    entries: &[(&str, &str)],
) -> Result<(), Fail> {
    for (bytes, want) in entries {
        let entry = read(rt.alloc(), target, bytes, ended)??;
        expect_eq(rt, entry.as_str(), *want, bytes);
    }
    Ok(())
}

#[test]
fn read_line_returns_entry(rt: HostRuntime) -> Result<(), Fail> {
    expect(&rt, "all", true, &ENTRIES)
}

#[test]
fn read_line_rejects_bad_record(rt: HostRuntime) -> Result<(), Fail> {
    for bytes in &BAD {
        let fault = read(rt.alloc(), "all", bytes, true)?.err();
        expect_eq(&rt, fault, Some(LineFault::BadRecord), bytes);
    }
    Ok(())
}

/// A line without a line feed in the log of `all`, and its entry.
static UNENDED: [(&str, &str); 3] = [
    ("@@REDO:do:7:1.0000@@ a", "text|@@REDO:do:7:1.0000@@ a"),
    ("@@REDO:do:7", "text|@@REDO:do:7"),
    ("x", "text|x"),
];

#[test]
fn unended_line_is_text(rt: HostRuntime) -> Result<(), Fail> {
    expect(&rt, "all", false, &UNENDED)
}

/// A line in the log of `d/a`, and its entry.
static OF_D_A: [(&str, &str); 6] = [
    ("@@REDO:do:7:1@@ ../e//x", "do|7|e/x"),
    ("@@REDO:do:7:1@@ b", "do|7|d/b"),
    ("@@REDO:done:7:1@@ 3 a", "closing|7|3"),
    ("@@REDO:done:7:1@@ 3 ../d/a", "closing|7|3"),
    ("@@REDO:done:7:1@@ 3 d/a", "done|7|3|d/d/a"),
    ("@@REDO:note:7:1@@ d/a", "note|7|note|d/a"),
];

#[test]
fn names_resolve_in_target_directory(rt: HostRuntime) -> Result<(), Fail> {
    expect(&rt, "d/./a", true, &OF_D_A)
}
