//! Tests of normal forms of names, and of names as keys of a map.
use crate::expect::expect_eq;
use indexmap::IndexMap;
use redo_line::{NameFault, TargetName};
use std::alloc::Global;
use std::process::Abort;
use std::test::Fail;

/// The target in whose log a name is, or none; the name; and its normal form.
static NAMES: [(Option<&str>, &str, &str); 20] = [
    (None, "a//b/./c", "a/b/c"),
    (None, "a/", "a"),
    (None, "a/..", "."),
    (None, "./", "."),
    (None, "../../x", "../../x"),
    (None, "x/../../y", "../y"),
    (None, "/", "/"),
    (None, "/..//a/", "/a"),
    (None, "a b", "a b"),
    (None, "...", "..."),
    (Some("all"), "a.o", "a.o"),
    (Some("d/a"), "../e//x", "e/x"),
    (Some("d/a"), "b", "d/b"),
    (Some("d/e/a"), "../../../x", "../x"),
    (Some("d/a"), "/z", "/z"),
    (Some("/a"), "../x", "/x"),
    (Some("/p/a"), "b/../c", "/p/c"),
    (Some("../a"), "b", "../b"),
    (Some("."), "b", "b"),
    (Some(".."), "b", "b"),
];

fn resolved(alloc: Global, of: Option<&str>, name: &str) -> Result<TargetName, NameFault> {
    match of {
        None => TargetName::resolve(alloc, None, name.as_bytes()),
        Some(of) => {
            let target = TargetName::resolve(alloc, None, of.as_bytes())?;
            TargetName::resolve(alloc, Some(&target), name.as_bytes())
        }
    }
}

fn expect_form(
    rt: &(impl Abort + AllocGlobal),
    of: Option<&str>,
    name: &str,
    normal: &str,
) -> Result<(), Fail> {
    let target = resolved(rt.alloc(), of, name)?;
    expect_eq(rt, target.bytes(), normal.as_bytes(), name);
    expect_copy(rt, &target)
}

fn expect_copy(rt: &(impl Abort + AllocGlobal), target: &TargetName) -> Result<(), Fail> {
    let copy = target.copy(rt.alloc())?;
    expect_eq(
        rt,
        (copy.same(target), copy.bytes()),
        (true, target.bytes()),
        "copy",
    );
    Ok(())
}

#[test]
fn resolve_normalizes_name(rt: HostRuntime) -> Result<(), Fail> {
    for (of, name, normal) in &NAMES {
        expect_form(&rt, *of, name, normal)?;
    }
    Ok(())
}

/// Targets in whose logs an empty name is rejected.
static OF_EMPTY: [Option<&str>; 2] = [None, Some("a")];

#[test]
fn resolve_rejects_empty_name(rt: HostRuntime) {
    for of in &OF_EMPTY {
        let fault = resolved(rt.alloc(), *of, "").err();
        expect_eq(&rt, fault, Some(NameFault::Empty), *of);
    }
}

#[test]
fn resolve_keeps_non_utf8_bytes(rt: HostRuntime) -> Result<(), Fail> {
    let target = TargetName::resolve(rt.alloc(), None, b"\xff/./\n\x00".as_slice())?;
    expect_eq(&rt, target.bytes(), b"\xff/\n\x00".as_slice(), "non-UTF-8");
    Ok(())
}

#[test]
fn relative_and_absolute_names_differ(rt: HostRuntime) -> Result<(), Fail> {
    let relative = resolved(rt.alloc(), None, "a")?;
    let absolute = resolved(rt.alloc(), None, "/a")?;
    assert!(rt; !relative.same(&absolute));
    Ok(())
}

/// A name, the target in whose log it is, or none, and the place and the value of its normal form in the map.
static FOUND: [(Option<&str>, &str, Option<usize>, Option<u32>); 2] = [
    (Some("d/x"), "./q/../a", Some(0), Some(1)),
    (None, "d", None, None),
];

#[test]
fn map_finds_name_by_normal_form(rt: HostRuntime) -> Result<(), Fail> {
    expect_map(&rt, &mut IndexMap::new(rt.alloc()))
}

/// Fills an empty map with `d/a` and `e`, and looks names up.
fn expect_map(
    rt: &(impl Abort + AllocGlobal),
    map: &mut IndexMap<TargetName, u32>,
) -> Result<(), Fail> {
    insert(rt.alloc(), map, "d/a", 1)?;
    insert(rt.alloc(), map, "e", 2)?;
    for (of, name, place, value) in &FOUND {
        let target = resolved(rt.alloc(), *of, name)?;
        expect_eq(rt, found(map, &target), (*place, *value), name);
    }
    Ok(())
}

/// Returns the place and the value of a name in the map.
fn found(map: &IndexMap<TargetName, u32>, name: &TargetName) -> (Option<usize>, Option<u32>) {
    (map.get_index_of(name), map.get(name).copied())
}

fn insert(
    alloc: Global,
    map: &mut IndexMap<TargetName, u32>,
    name: &str,
    value: u32,
) -> Result<(), Fail> {
    map.insert(resolved(alloc, None, name)?, value)?;
    Ok(())
}
