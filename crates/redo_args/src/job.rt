ghost use Rattle.std.specs.Prelude.{◌≡◌, ◌<◌, IfOk, length};
ghost use Rattle.clap.specs.Matches.{found_of};
ghost use Rattle.clap.specs.Walk.{rows_of};
ghost use Rattle.redo_options.specs.Limits.{IsSenderCount, IsCapacity};
ghost use Rattle.redo_options.specs.Arguments.{argument_bytes};
ghost use Rattle.redo_args.specs.Job.{options_of, parts_of};
ghost use Rattle.redo_args.specs.Private.Matches.{AreSound};

use crate::arguments::bytes_of;
use clap::ArgMatches;
use redo_options::Options;
use std::alloc::{AllocError, Global};
use std::marker::Model;

// The values of options that are not given.
const DEFAULT_DIR: &str = ".";

const DEFAULT_SENDERS: u32 = 4;

const DEFAULT_CAPACITY: u32 = 64;

/// What the command-line arguments ask for. Its numbers are in range, and it has at least one target.
#[derive(Drop)]
pub struct Job {
    options: Options,
    dir: String,
    senders: u32,
    capacity: u32,
    targets: Vec<Vec<u8>>,
}

impl Model for Job {
    ghost use Rattle.std.specs.String.{string_bytes};
    ghost use Rattle.redo_args.specs.Job.{JobParts};
    ghost use Rattle.redo_args.specs.Private.Matches.{IsJob, parts_with};

    ghost Value = { JobParts };

    ghost view = { λ job. parts_with job.options (string_bytes job.dir) job.senders job.capacity job.targets.items };

    ghost invariant = { λ job. IsJob (parts_with job.options (string_bytes job.dir) job.senders job.capacity job.targets.items) };
}

impl Job {
    /// Returns the options of the text.
    pub fn options(&self) -> &Options
        ensures { result.now ≡ self.now.options }
    {
        &self.options
    }

    /// Returns the capture directory as it was given: relative to the current directory, unless it begins
    /// with a slash. It may be empty, and need not exist.
    pub fn dir(&self) -> &str
        ensures { result.now ≡ self.now.dir }
    {
        self.dir.as_str()
    }

    /// Returns the number of senders: 1 to 64.
    pub fn senders(&self) -> u32
        ensures value { result ≡ self.now.senders }
        ensures limits { IsSenderCount result }
    {
        self.senders
    }

    /// Returns the capacity of the mailbox in items: 1 to 65,536.
    pub fn capacity(&self) -> u32
        ensures value { result ≡ self.now.capacity }
        ensures limits { IsCapacity result }
    {
        self.capacity
    }

    /// Returns the arguments that name the requested targets, in order, as bytes. There is at least one. An
    /// argument may be empty, may occur twice, and need not name a target that exists.
    pub fn targets(&self) -> &[Vec<u8>]
        ensures value { argument_bytes result.now ≡ self.now.targets }
        ensures nonempty { 0 < length result.now }
    {
        self.targets.as_slice()
    }
}

/// Builds the job from the values that `clap` found.
pub(crate) fn job_from_matches(alloc: Global, matches: &ArgMatches<'_>) -> Result<Job, AllocError>
    requires { AreSound (rows_of (found_of matches.now)) }
    ensures { IfOk result (λ job. job ≡ parts_of (rows_of (found_of matches.now))) }
{
    let options = options_of(matches);
    let senders = matches.get_one("senders").unwrap_or(DEFAULT_SENDERS);
    let capacity = matches.get_one("capacity").unwrap_or(DEFAULT_CAPACITY);
    let dir = matches.get_str("dir").unwrap_or(DEFAULT_DIR);
    let targets = matches.get_strs("target").unwrap_or(&[]);
    Ok(Job {
        options,
        dir: String::from_str(alloc, dir)?,
        senders,
        capacity,
        targets: bytes_of(alloc, targets)?,
    })
}

fn options_of(matches: &ArgMatches<'_>) -> Options
    requires { AreSound (rows_of (found_of matches.now)) }
    ensures { result ≡ options_of (rows_of (found_of matches.now)) }
{
    Options {
        recursive: matches.get_flag("recursive"),
        unchanged: matches.get_flag("unchanged"),
        details: matches.get_flag("details"),
        debug_locks: matches.get_flag("debug_locks"),
        debug_pids: matches.get_flag("debug_pids"),
    }
}
