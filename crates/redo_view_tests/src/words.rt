//! Tests of the command-line arguments: the jobs that they describe, and which ones are rejected.
use crate::expect::expect_eq;
use redo_args::{Job, WordsFault, help_text, read_words};
use redo_view::Options;
use std::process::Abort;
use std::test::Fail;

/// The parts of a job, with its targets as text.
#[derive(Clone, Copy)]
struct Want<'a> {
    options: Options,
    dir: &'a str,
    senders: u32,
    capacity: u32,
    targets: &'a [&'a str],
}

const PLAIN: Options = Options {
    recursive: false,
    unchanged: false,
    details: true,
    debug_locks: false,
    debug_pids: false,
};

const ALL_SET: Options = Options {
    recursive: true,
    unchanged: true,
    details: false,
    debug_locks: true,
    debug_pids: true,
};

const ALL_BUT_PIDS: Options = Options {
    debug_pids: false,
    ..ALL_SET
};

const PIDS: Options = Options {
    debug_pids: true,
    ..PLAIN
};

const RECURSIVE: Options = Options {
    recursive: true,
    unchanged: false,
    details: true,
    debug_locks: false,
    debug_pids: false,
};

const BOTH_LETTERS: Options = Options {
    recursive: true,
    unchanged: true,
    details: true,
    debug_locks: false,
    debug_pids: false,
};

/// A job without options. Its targets are still missing.
const PLAIN_JOB: Want<'static> = Want {
    options: PLAIN,
    dir: ".",
    senders: 4,
    capacity: 64,
    targets: &[],
};

fn plain<'a>(targets: &'a [&'a str]) -> Want<'a> {
    Want {
        targets,
        ..PLAIN_JOB
    }
}

fn read(rt: &impl AllocGlobal, words: &[&str]) -> Result<Result<Job, WordsFault>, Fail> {
    let alloc = rt.alloc();
    let mut own = Vec::new(alloc);
    for word in words {
        own.push(String::from_str(alloc, word)?)?;
    }
    Ok(read_words(alloc, own))
}

fn expect_job(
    rt: &(impl Abort + AllocGlobal),
    words: &[&str],
    want: &Want<'_>,
) -> Result<(), Fail> {
    let job = read(rt, words)??;
    expect_settings(rt, &job, want, words);
    expect_targets(rt, job.targets(), want.targets);
    Ok(())
}

/// Checks that the arguments fail with this fault.
fn expect_fault(
    rt: &(impl Abort + AllocGlobal),
    words: &[&str],
    fault: WordsFault,
) -> Result<(), Fail> {
    expect_eq(rt, fault_of(rt, words)?, Some(fault), words);
    Ok(())
}

fn fault_of(rt: &impl AllocGlobal, words: &[&str]) -> Result<Option<WordsFault>, Fail> {
    Ok(read(rt, words)?.err())
}

/// Checks everything but the targets.
fn expect_settings(rt: &impl Abort, job: &Job, want: &Want<'_>, words: &[&str]) {
    expect_eq(
        rt,
        (*job.options(), job.dir()),
        (want.options, want.dir),
        words,
    );
    let numbers = (job.senders(), job.capacity());
    expect_eq(rt, numbers, (want.senders, want.capacity), words);
}

fn expect_targets(rt: &impl Abort, targets: &[Vec<u8>], names: &[&str]) {
    expect_eq(rt, targets.len(), names.len(), names);
    for (target, name) in targets.iter().zip(names) {
        expect_eq(rt, target.as_slice(), name.as_bytes(), names);
    }
}

/// Arguments, and the targets among them.
static TARGETS: &[(&[&str], &[&str])] = &[
    (&["all"], &["all"]),
    (&["b", "a", "b"], &["b", "a", "b"]),
    (&[""], &[""]),
    (&["-"], &["-"]),
    (&["a", "-", ""], &["a", "-", ""]),
    (&["help"], &["help"]),
    (&["--", "--"], &["--"]),
    (&["--", "-r", "--help"], &["-r", "--help"]),
    (&["a", "--", "b", "--dir"], &["a", "b", "--dir"]),
];

#[test]
fn other_arguments_are_targets(rt: HostRuntime) -> Result<(), Fail> {
    for (words, targets) in TARGETS {
        expect_job(&rt, words, &plain(targets))?;
    }
    Ok(())
}

/// A job with each option set.
const EACH_SET: Want<'static> = Want {
    options: ALL_SET,
    dir: "d",
    senders: 2,
    capacity: 1,
    targets: &["-x"],
};

const EACH_BUT_PIDS: Want<'static> = Want {
    options: ALL_BUT_PIDS,
    ..EACH_SET
};

const WITH_PIDS: Want<'static> = Want {
    options: PIDS,
    targets: &["all"],
    ..PLAIN_JOB
};

const GREATEST: Want<'static> = Want {
    senders: 64,
    capacity: 65_536,
    targets: &["a"],
    ..PLAIN_JOB
};

/// Arguments, and the job that they describe.
static JOBS: &[(&[&str], Want<'static>)] = &[
    (
        &[
            "-r",
            "-u",
            "--no-details",
            "--debug-locks",
            "--dir",
            "d",
            "--senders",
            "2",
            "--capacity",
            "1",
            "--",
            "-x",
        ],
        EACH_BUT_PIDS,
    ),
    (
        &[
            "--capacity=1",
            "--recursive",
            "--dir=d",
            "--debug-pids",
            "--debug-locks",
            "--unchanged",
            "--senders=2",
            "--no-details",
            "--",
            "-x",
        ],
        EACH_SET,
    ),
    (&["--debug-pids", "all"], WITH_PIDS),
    (&["a", "--senders", "64", "--capacity", "65536"], GREATEST),
    (&["a", "--senders=+064", "--capacity=65536"], GREATEST),
];

#[test]
fn options_set_job(rt: HostRuntime) -> Result<(), Fail> {
    for (words, want) in JOBS {
        expect_job(&rt, words, want)?;
    }
    Ok(())
}

const ONE_OPTION: Want<'static> = Want {
    options: RECURSIVE,
    targets: &["a", "b"],
    ..PLAIN_JOB
};

const THREE_OPTIONS: Want<'static> = Want {
    options: BOTH_LETTERS,
    dir: "d",
    targets: &["a", "b"],
    ..PLAIN_JOB
};

/// Arguments, and the job that they describe.
static AMONG_TARGETS: &[(&[&str], Want<'static>)] = &[
    (&["-r", "a", "b"], ONE_OPTION),
    (&["a", "-r", "b"], ONE_OPTION),
    (&["a", "b", "-r"], ONE_OPTION),
    (&["-ru", "--dir=d", "a", "b"], THREE_OPTIONS),
    (&["a", "-ur", "--dir=d", "b"], THREE_OPTIONS),
    (&["a", "b", "--dir=d", "-ru"], THREE_OPTIONS),
];

#[test]
fn options_may_follow_targets(rt: HostRuntime) -> Result<(), Fail> {
    for (words, want) in AMONG_TARGETS {
        expect_job(&rt, words, want)?;
    }
    Ok(())
}

/// Arguments, and the directory that they name.
static DIRECTORIES: &[(&[&str], &str)] = &[
    (&["--dir=", "a"], ""),
    (&["--dir", "", "a"], ""),
    (&["--dir=-x", "a"], "-x"),
    (&["--dir==", "a"], "="),
    (&["--dir", "/a b/\u{e9}", "a"], "/a b/\u{e9}"),
];

#[test]
fn dir_is_not_normalized(rt: HostRuntime) -> Result<(), Fail> {
    for (words, dir) in DIRECTORIES {
        let want = Want {
            dir,
            ..plain(&["a"])
        };
        expect_job(&rt, words, &want)?;
    }
    Ok(())
}

static REJECTED: &[&[&str]] = &[
    &[],
    &["--"],
    &["-r"],
    &["-f", "all"],
    &["--force", "all"],
    &["--recur", "all"],
    &["-V", "all"],
    &["--version"],
    &["--senders", "0", "all"],
    &["--senders", "65", "all"],
    &["--senders", "-1", "all"],
    &["--senders=-1", "all"],
    &["--senders=", "all"],
    &["--senders", "four", "all"],
    &["--senders", "1.0", "all"],
    &["--senders", "18446744073709551617", "all"],
    &["--capacity", "0", "all"],
    &["--capacity", "65537", "all"],
    &["--dir", "d"],
    &["all", "--dir"],
    &["--dir", "-r", "all"],
    &["--dir", "a", "--dir", "b", "all"],
    &["--senders", "2", "--senders", "2", "all"],
    &["-r", "-r", "all"],
    &["-rr", "all"],
    &["-ur", "--recursive", "all"],
    &["--debug-pids", "--debug-pids", "all"],
    &["--debug-pid", "all"],
    &["--debug-pids=7", "all"],
    &["--recursive=true", "all"],
    &["-rf", "all"],
];

#[test]
fn bad_arguments_are_rejected(rt: HostRuntime) -> Result<(), Fail> {
    for words in REJECTED {
        expect_fault(&rt, words, WordsFault::Refused)?;
    }
    Ok(())
}

static HELP: &[&[&str]] = &[
    &["--help"],
    &["-h"],
    &["all", "--help"],
    &["-rh", "all"],
    &["--help", "--force"],
];

#[test]
fn help_is_recognized(rt: HostRuntime) -> Result<(), Fail> {
    for words in HELP {
        expect_fault(&rt, words, WordsFault::Help)?;
    }
    // The first fault counts.
    expect_fault(&rt, &["--force", "--help"], WordsFault::Refused)?;
    // After `--` it is a target.
    expect_job(&rt, &["--", "--help"], &plain(&["--help"]))
}

/// Parts of the help text.
static HELP_PARTS: &[&str] = &[
    "Usage: redo-log [OPTIONS] <TARGET>...\n",
    "-r, --recursive",
    "-u, --unchanged",
    "--no-details",
    "--debug-locks",
    "--debug-pids",
    "--dir <DIR>",
    "--senders <N>",
    "--capacity <N>",
    "-h, --help",
    "\n   0  ",
    "\n   2  ",
    "\n   3  ",
    "\n   4  ",
    "\n   5  ",
    "\n   6  ",
    "\n   7  ",
    "\n  24  ",
];

#[test]
fn help_text_lists_options_and_statuses(rt: HostRuntime) -> Result<(), Fail> {
    let text = help_text(rt.alloc())?;
    expect_parts(&rt, &text);
    assert!(rt; text.ends_with("not listed\n"));
    Ok(())
}

fn expect_parts(rt: &impl Abort, text: &str) {
    for part in HELP_PARTS {
        assert!(rt; text.contains(part), "{part}");
    }
}
