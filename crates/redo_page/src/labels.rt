//! The texts of a page that only people read. Code, definitions and proofs cite them, so each one is written once. No proof rejects a
//! wrong one, so rows spell out each label, and the model of `tests/page` has texts of its own.
//!
//! What programs read is spelled out where it is defined: the command for a shell, prefixes of notes, words of errors.

// The sections: their headings, and the links to them.
pub const WHAT_FAILED: &[u8] = b"What failed";

pub const NEW_SINCE: &[u8] = b"New since the baseline";

pub const SUMMARY: &[u8] = b"Summary";

pub const TIMELINE: &[u8] = b"Timeline";

pub const ALL_LOGS: &[u8] = b"All logs";

// Words of several sections.
pub const OF: &[u8] = b" of ";

pub const MIDDLE_DOT: &[u8] = b" \xc2\xb7 ";

// The heading.
pub const TARGET_FAILED: &[u8] = b" target failed";

pub const TARGETS_FAILED: &[u8] = b" targets failed";

pub const TARGET_UNFINISHED: &[u8] = b" target unfinished";

pub const TARGETS_UNFINISHED: &[u8] = b" targets unfinished";

pub const TARGET_MADE: &[u8] = b" target made, none failed";

pub const TARGETS_MADE: &[u8] = b" targets made, none failed";

pub const FAILED_SIGN: &[u8] = b"\xe2\x9c\x97";

pub const UNFINISHED_SIGN: &[u8] = b"\xe2\x80\xa6";

pub const MADE_SIGN: &[u8] = b"\xe2\x9c\x93";

pub const BUILD_TOOK: &[u8] = b"took ";

// The end.
pub const MADE_BY: &[u8] = b"Made by ";

pub const PROGRAM: &[u8] = b"redo-log-html";

pub const LOG_IN: &[u8] = b" log in ";

pub const LOGS_IN: &[u8] = b" logs in ";

pub const AS_ONE_TEXT: &[u8] = b". As one text: ";

// Targets.
pub const FACT_DOT: &[u8] = b"\xc2\xb7 ";

pub const EXIT: &[u8] = b"exit ";

pub const NOT_CLOSED: &[u8] = b"unfinished";

pub const LINE: &[u8] = b" line";

pub const LINES: &[u8] = b" lines";

pub const WARNING: &[u8] = b" warning";

pub const WARNINGS: &[u8] = b" warnings";

pub const BELOW: &[u8] = b" below";

pub const WARNING_BELOW: &[u8] = b" warning below";

pub const WARNINGS_BELOW: &[u8] = b" warnings below";

pub const MADE: &[u8] = b"made";

pub const WAITING: &[u8] = b"waiting";

pub const LOCKED: &[u8] = b"locked";

pub const UNLOCKED: &[u8] = b"unlocked";

pub const UNCHANGED: &[u8] = b"unchanged";

// The section *What failed*.
pub const NOTHING_CAPTURED: &[u8] = b"It printed nothing that was captured.";

pub const NO_FAILURE_BELOW: &[u8] =
    b" No target below it failed: make or redo reported the cause on the terminal.";

pub const PATH_SEPARATOR: &[u8] = b" \xe2\x80\xba ";

pub const MORE_ABOVE: &[u8] = b"\xe2\x80\xa6 \xe2\x80\xba ";

pub const PLACE_IN_TREE: &[u8] = b"its place in the tree";

pub const DIRECTORY: &[u8] = b"Directory: ";

pub const MORE_BEFORE_THESE: &[u8] = b" more before these";

pub const REST_LEFT_OUT: &[u8] = b"The rest of this command is left out.";

pub const MORE_LINE: &[u8] = b" more line: ";

pub const MORE_LINES: &[u8] = b" more lines: ";

pub const IN_ITS_LOG: &[u8] = b"in its log";

pub const MORE_FAILED: &[u8] = b" more that failed";

pub const FAILED_WITH_THESE: &[u8] = b" failed because of these";

pub const COUNT_NOT_CLOSED: &[u8] = b" unfinished";

pub const AND: &[u8] = b"and ";

pub const MORE_IN_TREE: &[u8] = b" more, in the tree";

// The section *New since the baseline*.
pub const NOTHING_NEW: &[u8] = b"No warning or error is new, and no target newly fails. ";

pub const NEW_LINES: &[u8] = b"New warnings and errors: ";

pub const GONE: &[u8] = b". Gone: ";

pub const NEWLY_FAILING: &[u8] = b". Targets that newly fail: ";

pub const FIXED: &[u8] = b". Fixed: ";

pub const SENTENCE_END: &[u8] = b".";

pub const MORE_IN_LOGS: &[u8] = b" more, in the logs";

pub const NEWLY_FAILING_COUNT: &[u8] = b" newly failing";

pub const FIXED_COUNT: &[u8] = b" fixed";

// Summary.
pub const TARGETS: &[u8] = b"Targets";

pub const FAILED: &[u8] = b"Failed";

pub const AND_COUNT: &[u8] = b", and ";

pub const DEPENDENT: &[u8] = b" dependent";

pub const WARNED_LINES: &[u8] = b"Lines with warning:";

pub const LOGS: &[u8] = b"Logs";

pub const TOOK: &[u8] = b"Took";

pub const SUM_OF_TIMES: &[u8] = b"Sum of times";

pub const AT_ONCE: &[u8] = b"At once";

pub const AT_MOST: &[u8] = b", at most ";

pub const PROCESSOR_TIME: &[u8] = b"Processor time";

pub const LONGEST: &[u8] = b"Longest";

pub const LONGEST_ALONE: &[u8] = b"Longest alone";

pub const MOST_MEMORY: &[u8] = b"Most memory";

pub const MOST_WARNINGS: &[u8] = b"Most warnings";

pub const NO_TIMES: &[u8] = b"There is no timeline: the logs do not say when the targets ran.";

pub const FEW_TIMES_OF: &[u8] = b"There is no timeline: the logs of ";

pub const TIMES_UNKNOWN: &[u8] = b" targets do not say when they began, or when they ended.";

// Timeline.
pub const MARKS_OF: &[u8] = b"The logs of ";

pub const MARKS_UNKNOWN: &[u8] =
    b" targets do not say when they began, or when they ended. These are marks in the last row.";

pub const BARS_LEAD: &[u8] = b"A bar leads to its log.";

pub const PALE_BARS: &[u8] =
    b" Pale bars are recipes that ran others. They don't count in the sum of times.";

// All logs.
pub const TREE_IS: &[u8] =
    b"Each log is shown where its target is first mentioned. Logs of targets that failed are open.";

pub const SILENT_TARGETS: &[u8] = b" targets that printed nothing";

pub const LEVEL: &[u8] = b"level ";

pub const END_OF: &[u8] = b"end of ";

pub const SHOWN_ABOVE: &[u8] = b"What it printed is shown above";

pub const NEEDS: &[u8] = b"needs ";
