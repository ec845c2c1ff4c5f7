//! Cases of logs, and of their text at requested targets.
use redo_view::Options;

/// A target and the bytes of its stream.
pub type Given = (&'static str, &'static str);

/// Streams, the options, the requested targets, and the complete text.
pub type Case = (
    &'static [Given],
    Options,
    &'static [&'static str],
    &'static str,
);

/// How many bytes a stream may have.
pub const MAX_BYTES: u64 = 10_000;

/// No option is set, and text lines are shown.
pub const PLAIN: Options = Options {
    recursive: false,
    unchanged: false,
    details: true,
    debug_locks: false,
    debug_pids: false,
};

/// Logs are opened at their mentions.
pub const DEEP: Options = Options {
    recursive: true,
    ..PLAIN
};

const LOCKS: Options = Options {
    debug_locks: true,
    ..PLAIN
};

const DEEP_LOCKS: Options = Options {
    debug_locks: true,
    ..DEEP
};

const TERSE: Options = Options {
    details: false,
    ..PLAIN
};

const QUIET: Options = Options {
    details: false,
    ..DEEP
};

const UNCHANGED: Options = Options {
    unchanged: true,
    ..QUIET
};

const ALL: Options = Options {
    details: true,
    ..UNCHANGED
};

const ALL_LOCKS: Options = Options {
    debug_locks: true,
    ..ALL
};

const PIDS: Options = Options {
    debug_pids: true,
    ..PLAIN
};

const DEEP_PIDS: Options = Options {
    debug_pids: true,
    ..DEEP
};

const LOCKS_PIDS: Options = Options {
    debug_pids: true,
    ..LOCKS
};

/// The logs `all`, `a.o` and `b.o` of a build in which `b.o` failed.
pub const BUILD: [Given; 3] = [
    (
        "all",
        "@@REDO:do:7:1.0000@@ a.o\n@@REDO:do:7:1.0000@@ b.o\n@@REDO:done:7:1.0000@@ 0 a.o\n\
         @@REDO:done:7:1.0000@@ 1 b.o\nlink\n",
    ),
    ("a.o", "cc a\n"),
    ("b.o", "cc b\n"),
];

/// Their text, with each log opened.
pub const BUILD_TEXT: &str =
    "redo  all\nredo    a.o\ncc a\nredo    b.o\ncc b\nredo    b.o (exit 1)\nlink\n";

/// A log is shown below the line of its target.
pub const LOGS: [Case; 6] = [
    (&[("all", "hello\n")], PLAIN, &["all"], "redo  all\nhello\n"),
    (&[("all", "")], PLAIN, &["all"], "redo  all\n"),
    (&[("all", "x")], PLAIN, &["all"], "redo  all\nx\n"),
    (
        &[("all", "@@REDO:do:7")],
        PLAIN,
        &["all"],
        "redo  all\n@@REDO:do:7\n",
    ),
    (
        &[("a", "@@REDO:done:7:1.0000@@ 0 a\n")],
        PLAIN,
        &["a"],
        "redo  a\n",
    ),
    (
        &[("all", "a \t\n \n")],
        PLAIN,
        &["all"],
        "redo  all\na \t\n \n",
    ),
];

/// A log that mentions its own target.
const OF_ITSELF: [Given; 1] = [("a", "@@REDO:do:7:1.0000@@ a\nt\n")];

/// Mentions are shown, and they open logs if `recursive` is set.
pub const MENTIONS: [Case; 7] = [
    (&BUILD, DEEP, &["all"], BUILD_TEXT),
    (
        &BUILD,
        PLAIN,
        &["all"],
        "redo  all\nredo    a.o\nredo    b.o\nredo    b.o (exit 1)\nlink\n",
    ),
    (
        &[
            ("a", "@@REDO:do:7:1.0000@@ b\n"),
            ("b", "@@REDO:do:7:1.0000@@ a\nt\n"),
        ],
        DEEP,
        &["a"],
        "redo  a\nredo    b\nt\n",
    ),
    (&OF_ITSELF, DEEP, &["a"], "redo  a\nt\n"),
    (&OF_ITSELF, DEEP_LOCKS, &["a"], "redo  a\nredo    a\nt\n"),
    (
        &[("d/a", "@@REDO:do:7:1.0000@@ ../e//x\n"), ("e/x", "q\n")],
        DEEP,
        &["d/./a"],
        "redo  d/a\nredo    e/x\nq\n",
    ),
    (
        &[
            (
                "all",
                "@@REDO:do:7:1.0000@@ a\n@@REDO:waiting:7:1.0000@@ x\nend\n",
            ),
            ("a", "@@REDO:do:7:1.0000@@ x\n"),
            ("x", "X\n"),
        ],
        DEEP_LOCKS,
        &["all"],
        "redo  all\nredo    a\nredo      x\nX\nredo    x (WAITING)\nend\n",
    ),
];

const ONE_MENTION: [Given; 2] = [("a", "@@REDO:do:7:1.0000@@ b\n"), ("b", "B\n")];

/// A mention names its target, and a request opens its log.
pub const ASKED: [Case; 2] = [
    (
        &ONE_MENTION,
        PLAIN,
        &["a", "b", "a"],
        "redo  a\nredo    b\nredo  b\nB\n",
    ),
    (
        &ONE_MENTION,
        DEEP,
        &["a", "b", "a"],
        "redo  a\nredo    b\nB\n",
    ),
];

const CHECKED: [Given; 2] = [
    (
        "a",
        "@@REDO:unchanged:7:1.0000@@ b\n@@REDO:check:7:1.0000@@ b\nt\n",
    ),
    ("b", "B\n"),
];

const LOCKED: [Given; 1] = [(
    "all",
    "@@REDO:locked:7:1.0000@@ x\n@@REDO:unlocked:7:1.0000@@ x\n@@REDO:do:7:1.0000@@ x\n",
)];

/// Options choose the shown entries.
pub const CHOSEN: [Case; 7] = [
    (&CHECKED, QUIET, &["a"], "redo  a\nredo    (b)\n"),
    (
        &CHECKED,
        UNCHANGED,
        &["a"],
        "redo  a\nredo    b\nredo    (b)\n",
    ),
    (
        &CHECKED,
        ALL,
        &["a"],
        "redo  a\nredo    b\nB\nredo    (b)\nt\n",
    ),
    (
        &CHECKED,
        ALL_LOCKS,
        &["a"],
        "redo  a\nredo    b (unchanged)\nB\nredo    (b)\nt\n",
    ),
    (
        &[(
            "all",
            "@@REDO:resumed:7:1.0000@@ x\n@@REDO:warning:7:1.0000@@ disk is slow\n\
             @@REDO:check:7:1@@ \n",
        )],
        TERSE,
        &["all"],
        "redo  all\nredo: x\nredo: disk is slow\nredo    ()\n",
    ),
    (&LOCKED, PLAIN, &["all"], "redo  all\nredo    x\n"),
    (
        &LOCKED,
        LOCKS,
        &["all"],
        "redo  all\nredo    x (locked...)\nredo    x (...unlocked!)\nredo    x\n",
    ),
];

/// A status other than 0 is shown.
pub const STATUSES: [Case; 1] = [(
    &[(
        "all",
        "@@REDO:done:7:1.0000@@ -0 b\n@@REDO:done:7:1.0000@@ -11 c\n@@REDO:done:7:1.0000@@ 007 d\n",
    )],
    PLAIN,
    &["all"],
    "redo  all\nredo    c (exit -11)\nredo    d (exit 7)\n",
)];

/// Records of several processes: two of them mention `x`, and the record of a third one says that it is done.
const BY_OTHERS: [Given; 2] = [
    (
        "all",
        "@@REDO:waiting:123456:1@@ x\n@@REDO:do:1234567:1@@ x\n@@REDO:done:0:1@@ -2 x\n\
         @@REDO:done:9:1@@ 0 all\n",
    ),
    ("x", "@@REDO:do:41:1@@ all\n@@REDO:do:0000000042:1@@ b\nX\n"),
];

/// A redo line begins with the pid of the record that it shows; the line of a requested target begins with a minus.
pub const BY_PIDS: [Case; 5] = [
    (
        &[(
            "all",
            "@@REDO:do:007:1@@ a\n@@REDO:check:4294967295:1@@ a\n@@REDO:warning:12:1@@ w\nt\n",
        )],
        PIDS,
        &["all"],
        "-      redo  all\n7      redo    a\n4294967295 redo    (a)\nredo: w\nt\n",
    ),
    (
        &BUILD,
        DEEP_PIDS,
        &["all"],
        "-      redo  all\n7      redo    a.o\ncc a\n7      redo    b.o\ncc b\n\
         7      redo    b.o (exit 1)\nlink\n",
    ),
    (
        &BY_OTHERS,
        DEEP_PIDS,
        &["all", "x"],
        "-      redo  all\n123456 redo    x\n42     redo      b\nX\n0      redo    x (exit -2)\n",
    ),
    (
        &BY_OTHERS,
        PIDS,
        &["all", "x"],
        "-      redo  all\n123456 redo    x\n0      redo    x (exit -2)\n\
         -      redo  x\n42     redo    b\nX\n",
    ),
    (
        &BY_OTHERS,
        LOCKS_PIDS,
        &["all"],
        "-      redo  all\n123456 redo    x (WAITING)\n1234567 redo    x\n0      redo    x (exit -2)\n",
    ),
];
