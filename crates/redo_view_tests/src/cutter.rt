//! Tests of a cutter over chunks, call by call.
use crate::expect::expect_eq;
use redo_line::{Cut, Cutter, LineText};
use std::process::Abort;
use std::test::Fail;

/// A chunk, an offset in it, and the line found from there and the offset after it, or none.
type Call = (&'static str, usize, Option<(&'static str, usize)>);

/// What is tested, the calls of a cutter, and the bytes left at the end.
type Case = (&'static str, &'static [Call], Option<&'static str>);

static CASES: &[Case] = &[
    (
        "cutter joins line across chunks",
        &[
            ("ab", 0, None),
            ("c\nd", 0, Some(("abc", 2))),
            ("c\nd", 2, None),
        ],
        Some("d"),
    ),
    ("new cutter is empty", &[], None),
    ("empty chunk has no line", &[("", 0, None)], None),
    (
        "cutter returns empty lines",
        &[
            ("\n\n", 0, Some(("", 1))),
            ("\n\n", 1, Some(("", 2))),
            ("\n\n", 2, None),
        ],
        None,
    ),
    (
        "cutter keeps trailing whitespace",
        &[(" a \t\r\n", 0, Some((" a \t\r", 6)))],
        None,
    ),
];

#[test]
fn cutter_returns_lines(rt: HostRuntime) -> Result<(), Fail> {
    for (case, calls, left) in CASES {
        expect_left(&rt, expect_calls(&rt, case, calls)?, *left, case);
    }
    Ok(())
}

fn expect_calls(
    rt: &(impl Abort + AllocGlobal),
    case: &str,
    calls: &[Call],
) -> Result<Option<LineText>, Fail> {
    let mut cutter = Cutter::new(rt.alloc());
    for (chunk, from, want) in calls {
        expect_cut(rt, cut(&mut cutter, chunk.as_bytes(), *from)?, *want, case);
    }
    Ok(cutter.finish())
}

fn cut(cutter: &mut Cutter, chunk: &[u8], from: usize) -> Result<Cut, Fail> {
    if from > chunk.len() {
        return Err("a place past the chunk".into());
    }
    Ok(cutter.next(chunk, from)?)
}

fn expect_cut(rt: &impl Abort, cut: Cut, want: Option<(&str, usize)>, case: &str) {
    match (&cut, want) {
        (Cut::Line { bytes, upto }, Some((line, place))) => {
            expect_eq(rt, (bytes.bytes(), *upto), (line.as_bytes(), place), case);
        }
        (Cut::Line { .. }, None) => panic!(rt; "{case}: a line was found"),
        (Cut::More, None) => {}
        (Cut::More, Some(_)) => panic!(rt; "{case}: no line was found"),
    }
}

fn expect_left(rt: &impl Abort, left: Option<LineText>, want: Option<&str>, case: &str) {
    let left = left.as_ref().map(|line| line.bytes());
    expect_eq(rt, left, want.map(|line| line.as_bytes()), case);
}
