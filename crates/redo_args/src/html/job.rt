ghost use Rattle.std.specs.Prelude.{◌≡◌, ◌<◌, IfOk, length, option_map};
ghost use Rattle.std.specs.String.{string_bytes};
ghost use Rattle.clap.specs.Matches.{found_of};
ghost use Rattle.clap.specs.Walk.{rows_of};
ghost use Rattle.redo_options.specs.Limits.{IsSenderCount};
ghost use Rattle.redo_options.specs.Arguments.{argument_bytes};
ghost use Rattle.redo_args.specs.HtmlJob.{html_parts_of};
ghost use Rattle.redo_args.specs.Private.HtmlMatches.{AreSound};

use crate::arguments::{bytes_of, copy_of};
use clap::ArgMatches;
use std::alloc::{AllocError, Global};
use std::marker::Model;

// The values of options that are not given, and the target that is requested if none is named.
const DEFAULT_DIR: &str = ".";

const DEFAULT_MAX_BYTES: u64 = 16_000_000;

const DEFAULT_SENDERS: u32 = 4;

const DEFAULT_TARGETS: &[&str] = &["all"];

/// What the command-line arguments ask for. The number of senders is in range, and there is at least one target.
#[derive(Drop)]
pub struct PageJob {
    dir: String,
    baseline: Option<String>,
    output: Option<String>,
    title: Option<String>,
    unchanged: bool,
    debug_locks: bool,
    max_bytes: u64,
    senders: u32,
    targets: Vec<Vec<u8>>,
}

impl Model for PageJob {
    ghost use Rattle.std.specs.Prelude.{option_map};
    ghost use Rattle.std.specs.String.{string_bytes};
    ghost use Rattle.redo_args.specs.HtmlJob.{PageParts};
    ghost use Rattle.redo_args.specs.Private.HtmlMatches.{IsPageJob, parts_with};

    ghost Value = { PageParts };

    ghost view = { λ job. parts_with (string_bytes job.dir) (option_map string_bytes job.baseline) (option_map string_bytes job.output)
        (option_map string_bytes job.title) job.unchanged job.debug_locks job.max_bytes job.senders job.targets.items };

    ghost invariant = { λ job. IsPageJob (parts_with (string_bytes job.dir) (option_map string_bytes job.baseline)
        (option_map string_bytes job.output) (option_map string_bytes job.title) job.unchanged job.debug_locks job.max_bytes job.senders
        job.targets.items) };
}

impl PageJob {
    /// Returns the capture directory as it was given: relative to the current directory, unless it begins
    /// with a slash. It may be empty, and need not exist.
    pub fn dir(&self) -> &str
        ensures { result.now ≡ self.now.dir }
    {
        self.dir.as_str()
    }

    /// Returns the capture directory of an earlier build, with which this one is compared, as it was given, if it was. The rest is as
    /// for [`PageJob::dir`].
    pub fn baseline(&self) -> Option<&str>
        ensures { option_map (λ text. text.now) result ≡ self.now.baseline }
    {
        self.baseline.as_deref()
    }

    /// Returns the path of the file that the page is written to, as it was given. Without it, the page goes to standard
    /// output.
    pub fn output(&self) -> Option<&str>
        ensures { option_map (λ text. text.now) result ≡ self.now.output }
    {
        self.output.as_deref()
    }

    /// Returns the title of the page, if it was given.
    pub fn title(&self) -> Option<&str>
        ensures { option_map (λ text. text.now) result ≡ self.now.title }
    {
        self.title.as_deref()
    }

    /// Returns whether targets that needed no rebuild are shown too.
    pub fn unchanged(&self) -> bool
        ensures { result ≡ self.now.unchanged }
    {
        self.unchanged
    }

    /// Returns whether messages about waiting and locking are shown.
    pub fn debug_locks(&self) -> bool
        ensures { result ≡ self.now.debug_locks }
    {
        self.debug_locks
    }

    /// Returns the number of bytes of text lines that the page may show; 0 if it shows all.
    pub fn max_bytes(&self) -> u64
        ensures { result ≡ self.now.max_bytes }
    {
        self.max_bytes
    }

    /// Returns the number of senders: 1 to 64.
    pub fn senders(&self) -> u32
        ensures value { result ≡ self.now.senders }
        ensures limits { IsSenderCount result }
    {
        self.senders
    }

    /// Returns the arguments that name the requested targets, in order, as bytes: `all`, if none was given. There is at
    /// least one. An argument may be empty, may occur twice, and need not name a target that exists.
    pub fn targets(&self) -> &[Vec<u8>]
        ensures value { argument_bytes result.now ≡ self.now.targets }
        ensures nonempty { 0 < length result.now }
    {
        self.targets.as_slice()
    }
}

/// Builds the job from the values that `clap` found.
pub(crate) fn job_from_matches(
    alloc: Global,
    matches: &ArgMatches<'_>,
) -> Result<PageJob, AllocError>
    requires { AreSound (rows_of (found_of matches.now)) }
    ensures { IfOk result (λ job. job ≡ html_parts_of (rows_of (found_of matches.now))) }
{
    let dir = matches.get_str("dir").unwrap_or(DEFAULT_DIR);
    let baseline = matches.get_str("baseline");
    let output = matches.get_str("output");
    let title = matches.get_str("title");
    let unchanged = matches.get_flag("unchanged");
    let debug_locks = matches.get_flag("debug_locks");
    let max_bytes = matches.get_one("max-bytes").unwrap_or(DEFAULT_MAX_BYTES);
    let senders = matches.get_one("senders").unwrap_or(DEFAULT_SENDERS);
    let targets = matches.get_strs("target").unwrap_or(DEFAULT_TARGETS);
    Ok(PageJob {
        dir: String::from_str(alloc, dir)?,
        baseline: copy_of(alloc, baseline)?,
        output: copy_of(alloc, output)?,
        title: copy_of(alloc, title)?,
        unchanged,
        debug_locks,
        max_bytes,
        senders,
        targets: bytes_of(alloc, targets)?,
    })
}
