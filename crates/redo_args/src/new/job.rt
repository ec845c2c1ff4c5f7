ghost use Rattle.std.specs.Prelude.{◌≡◌, ◌<◌, IfOk, length, option_map};
ghost use Rattle.clap.specs.Matches.{found_of};
ghost use Rattle.clap.specs.Walk.{rows_of};
ghost use Rattle.redo_options.specs.Limits.{IsSenderCount};
ghost use Rattle.redo_options.specs.Arguments.{argument_bytes};
ghost use Rattle.redo_args.specs.NewJob.{new_parts_of};
ghost use Rattle.redo_args.specs.Private.NewMatches.{AreSound};

use crate::arguments::{bytes_of, copy_of};
use clap::ArgMatches;
use std::alloc::{AllocError, Global};
use std::marker::Model;

// The values of options that are not given, and the target that is requested if none is named.
const DEFAULT_DIR: &str = ".";

const DEFAULT_SENDERS: u32 = 4;

const DEFAULT_TARGETS: &[&str] = &["all"];

/// What the command-line arguments ask for. The number of senders is in range, and there is at least one target.
#[derive(Drop)]
pub struct NewJob {
    baseline: String,
    dir: String,
    output: Option<String>,
    unchanged: bool,
    every: bool,
    senders: u32,
    targets: Vec<Vec<u8>>,
}

impl Model for NewJob {
    ghost use Rattle.std.specs.Prelude.{option_map};
    ghost use Rattle.std.specs.String.{string_bytes};
    ghost use Rattle.redo_args.specs.NewJob.{NewParts};
    ghost use Rattle.redo_args.specs.Private.NewMatches.{IsNewJob, parts_with};

    ghost Value = { NewParts };

    ghost view = { λ job. parts_with (string_bytes job.baseline) (string_bytes job.dir) (option_map string_bytes job.output)
        job.unchanged job.every job.senders job.targets.items };

    ghost invariant = { λ job. IsNewJob (parts_with (string_bytes job.baseline) (string_bytes job.dir)
        (option_map string_bytes job.output) job.unchanged job.every job.senders job.targets.items) };
}

impl NewJob {
    /// Returns the capture directory of the earlier build, as it was given: relative to the current directory, unless it begins
    /// with a slash. It may be empty, and need not exist.
    pub fn baseline(&self) -> &str
        ensures { result.now ≡ self.now.baseline }
    {
        self.baseline.as_str()
    }

    /// Returns the capture directory of the build that is compared with it. The rest is as for [`NewJob::baseline`].
    pub fn dir(&self) -> &str
        ensures { result.now ≡ self.now.dir }
    {
        self.dir.as_str()
    }

    /// Returns the path of the file that the text is written to, as it was given. Without it, the text goes to standard
    /// output.
    pub fn output(&self) -> Option<&str>
        ensures { option_map (λ text. text.now) result ≡ self.now.output }
    {
        self.output.as_deref()
    }

    /// Returns whether targets that needed no rebuild are included.
    pub fn unchanged(&self) -> bool
        ensures { result ≡ self.now.unchanged }
    {
        self.unchanged
    }

    /// Returns whether all other listed targets follow the requested ones, in the order of the index.
    pub fn every(&self) -> bool
        ensures { result ≡ self.now.every }
    {
        self.every
    }

    /// Returns the number of senders: 1 to 64.
    pub fn senders(&self) -> u32
        ensures value { result ≡ self.now.senders }
        ensures limits { IsSenderCount result }
    {
        self.senders
    }

    /// Returns the arguments that name the requested targets, in order, as bytes: `all`, if none was given. There is at
    /// least one. An argument may be empty, may occur twice, and need not name a target that exists.
    pub fn targets(&self) -> &[Vec<u8>]
        ensures value { argument_bytes result.now ≡ self.now.targets }
        ensures nonempty { 0 < length result.now }
    {
        self.targets.as_slice()
    }
}

/// Builds the job from the values that `clap` found.
pub(crate) fn job_from_matches(
    alloc: Global,
    matches: &ArgMatches<'_>,
) -> Result<NewJob, AllocError>
    requires { AreSound (rows_of (found_of matches.now)) }
    ensures { IfOk result (λ job. job ≡ new_parts_of (rows_of (found_of matches.now))) }
{
    // The command line requires a baseline.
    let baseline = matches.get_str("baseline").unwrap_or("");
    let dir = matches.get_str("dir").unwrap_or(DEFAULT_DIR);
    let output = matches.get_str("output");
    let unchanged = matches.get_flag("unchanged");
    let every = matches.get_flag("every");
    let senders = matches.get_one("senders").unwrap_or(DEFAULT_SENDERS);
    let targets = matches.get_strs("target").unwrap_or(DEFAULT_TARGETS);
    Ok(NewJob {
        baseline: String::from_str(alloc, baseline)?,
        dir: String::from_str(alloc, dir)?,
        output: copy_of(alloc, output)?,
        unchanged,
        every,
        senders,
        targets: bytes_of(alloc, targets)?,
    })
}
