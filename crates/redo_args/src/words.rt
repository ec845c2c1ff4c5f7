ghost use Rattle.std.specs.Prelude.{◌≡◌, ◌⊎◌, ◌++◌, None, Some, codes, false, IfOk, IfErr, map};
ghost use Rattle.std.specs.String.{string_bytes};
ghost use Rattle.clap.specs.Walk.{rule_of};
ghost use Rattle.redo_args.specs.declared.words_fault.WordsFault.TheVariants.{OutOfMemory};
ghost use Rattle.redo_args.specs.CommandLine.{flags, redo_log, values, words_rule};
ghost use Rattle.redo_args.specs.Private.Arguments.{AreArguments};
ghost use Rattle.redo_args.specs.Words.{fault_of_words, parse_parts};

use crate::arguments::{
    command_line, debug_locks, dir, flag, help_of, letter_flag, number, senders, unchanged,
};
use crate::job::{Job, job_from_matches};
use crate::parsing::parse;
use crate::rejection::CommandLine;
use crate::words_fault::WordsFault;
use clap::{Arg, ArgAction, Command};
use std::alloc::{AllocError, Global};

const ABOUT: &str =
    "Shows the logs of a parallel build as one text, as if nothing had run in parallel.";

const AFTER_HELP: &str = "Example:
  redo-log                          as installed, shows the same as redo-log -r all
  redo-log -r --dir captures all    shows the log of `all`, with the logs of the targets that it mentions

Exit status:
   0  the text, this help or the version was written
   2  the command line is invalid
   3  `names` has a bad line, a duplicate number or name, or too many lines
   4  a log has a bad record, has data after its closing record, is not closed, or is too long
   5  a log or `names` can't be read
   6  the text can't be written
   7  out of memory, or no thread can be started
  24  a requested target is not listed";

/// Parses the command-line arguments, without the name of the program:
///
/// `[-r|--recursive] [-u|--unchanged] [--no-details] [--debug-locks] [--debug-pids] [--dir DIR]
/// [--senders N] [--capacity N] TARGET..`
///
/// By default, the directory is `.`, the number of senders is 4, and the capacity is 64. Options and
/// targets may be in any order. Every argument after `--` is a target. A value may be given in the
/// argument of its option, after `=`; it must be if it begins with `-`, unless it is `-` itself. An
/// option that is given twice is rejected. If one argument is rejected and another one requests help,
/// the first of them counts. docs/redo-log.1 has all rules.
pub fn read_words(alloc: Global, words: Vec<String>) -> Result<Job, WordsFault>
    // The arguments are valid, and the job is the one that they describe.
    ensures no_fault { IfOk result (λ _. fault_of_words (map string_bytes words.items) ≡ None) }
    ensures job { IfOk result (λ job. job ≡ parse_parts (map string_bytes words.items)) }

    // They request help or are rejected; the fault says which. Or memory ran out.
    ensures fault { IfErr result (λ fault. (fault ≡ OutOfMemory) ⊎ (fault_of_words (map string_bytes words.items) ≡ Some fault)) }
{
    read_arguments(alloc, words.as_slice())
}

/// Parses the command-line arguments as [`read_words`] does, and leaves them to the caller.
pub fn read_arguments(alloc: Global, words: &[String]) -> Result<Job, WordsFault>
    ensures no_fault { IfOk result (λ _. fault_of_words (map string_bytes words.now) ≡ None) }
    ensures job { IfOk result (λ job. job ≡ parse_parts (map string_bytes words.now)) }
    ensures fault { IfErr result (λ fault. (fault ≡ OutOfMemory) ⊎ (fault_of_words (map string_bytes words.now) ≡ Some fault)) }
{
    let matches = parse(alloc, &RedoLog, words)?;
    job_from_matches(alloc, &matches).map_err(WordsFault::from)
}

/// The command line of `redo-log`, whose arguments [`read_words`] parses.
pub struct RedoLog;

impl CommandLine for RedoLog {
    ghost app = { λ _. redo_log };

    fn command<'a>(&self, alloc: Global) -> Result<Command<'a>, AllocError> {
        command_line(alloc, "redo-log", ABOUT, AFTER_HELP, arguments(alloc)?)
    }

    fn is_exact(&self) {}
}

/// Returns the help text: the arguments and options, an example, and the exit statuses. It ends with a
/// line feed. It also lists `--version`, which `read_words` rejects: the program handles it if it is the
/// only argument.
pub fn help_text(alloc: Global) -> Result<String, AllocError> {
    help_of(RedoLog.command(alloc)?)
}

// All arguments and options, in the order of the help text.
fn arguments<'a>(alloc: Global) -> Result<Vec<Arg<'a>>, AllocError>
    ensures { IfOk result (λ arguments. AreArguments (flags ++ values) arguments.items) }
{
    vec![in alloc;
        letter_flag(
            alloc,
            "recursive",
            'r',
            "Show the logs of mentioned targets too, each at its first mention",
        ),
        unchanged(alloc),
        flag(
            alloc,
            "details",
            "no-details",
            ArgAction::SetFalse,
            "Omit the text lines of logs",
        ),
        debug_locks(alloc),
        flag(
            alloc,
            "debug_pids",
            "debug-pids",
            ArgAction::SetTrue,
            "Begin each redo line with the pid of its record",
        ),
        dir(alloc),
        senders(alloc),
        number(
            alloc,
            "capacity",
            65_536,
            "The capacity of the mailbox, 1 to 65536 items of up to 1024 lines each [default: 64]",
        ),
        targets(alloc),
    ]
    .map_err(AllocError::from)
}

// The arguments that are not options.
fn targets<'a>(alloc: Global) -> Arg<'a>
    ensures rule { rule_of result ≡ words_rule (codes "target") }
    ensures local { result.global ≡ false }
{
    Arg::new(alloc, "target")
        .value_name("TARGET")
        .action(ArgAction::Append)
        .required(true)
        .help("A target to show: its name in `names`, in any spelling")
}
