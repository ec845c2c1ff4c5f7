ghost use Rattle.std.specs.Prelude.{◌≡◌, ◌⊎◌, None, Some, IfOk, IfErr, false, map};
ghost use Rattle.std.specs.String.{string_bytes};
ghost use Rattle.clap.specs.Walk.{rule_of};
ghost use Rattle.redo_args.specs.declared.words_fault.WordsFault.TheVariants.{OutOfMemory};
ghost use Rattle.redo_args.specs.Private.Arguments.{AreArguments};
ghost use Rattle.redo_args.specs.NewCommandLine.{baseline_rule, redo_log_new, new_rules};
ghost use Rattle.redo_args.specs.NewWords.{new_fault_of_words, parse_new_parts};

use crate::arguments::{
    baseline, command_line, dir, flag, help_of, optional_targets, senders, text_option, unchanged,
};
use crate::new::job::{NewJob, job_from_matches};
use crate::parsing::parse;
use crate::{CommandLine, WordsFault};
use clap::{Arg, ArgAction, Command};
use std::alloc::{AllocError, Global};

const ABOUT: &str =
    "Prints what is new in a parallel build since an earlier one: new warnings and errors, and targets that newly fail.";

const AFTER_HELP: &str = "Example:
  redo-log-new --baseline main --dir capture    compares the build in capture with the one in main

Exit status:
   0  nothing is new and no target newly fails, or this help or the version was written
   1  something is new, or a target newly fails
   2  the command line is invalid
   3  `names` has a bad line, a duplicate number or name, or too many lines
   4  a log has a bad record, has data after its closing record, is not closed, or is too long
   5  a log or `names` can't be read
   6  the text can't be written
   7  out of memory, or no thread can be started
  24  a requested target is not listed";

/// Parses the command-line arguments, without the name of the program:
///
/// `--baseline DIR [--dir DIR] [-u|--unchanged] [--every] [--output FILE] [--senders N] [TARGET..]`
///
/// By default, the directory is `.`, the number of senders is 4, and the target is `all`. The rules are the same as for
/// `redo-log` ([`crate::read_words`]), except that no target need be named, and a baseline must be.
pub fn read_arguments(alloc: Global, words: &[String]) -> Result<NewJob, WordsFault>
    // The arguments are valid, and the job is the one that they describe.
    ensures no_fault { IfOk result (λ _. new_fault_of_words (map string_bytes words.now) ≡ None) }
    ensures job { IfOk result (λ job. job ≡ parse_new_parts (map string_bytes words.now)) }

    // They request help or are rejected; the fault says which. Or memory ran out.
    ensures fault { IfErr result (λ fault. (fault ≡ OutOfMemory) ⊎ (new_fault_of_words (map string_bytes words.now) ≡ Some fault)) }
{
    let matches = parse(alloc, &RedoLogNew, words)?;
    job_from_matches(alloc, &matches).map_err(WordsFault::from)
}

/// The command line of `redo-log-new`, whose arguments [`read_arguments`] parses.
pub struct RedoLogNew;

impl CommandLine for RedoLogNew {
    ghost app = { λ _. redo_log_new };

    fn command<'a>(&self, alloc: Global) -> Result<Command<'a>, AllocError> {
        command_line(alloc, "redo-log-new", ABOUT, AFTER_HELP, arguments(alloc)?)
    }

    fn is_exact(&self) {}
}

/// Returns the help text: the arguments and options, an example, and the exit statuses. It ends with a
/// line feed. It also lists `--version`, which `read_arguments` rejects: the program handles it if it is the
/// only argument.
pub fn help_text(alloc: Global) -> Result<String, AllocError> {
    help_of(RedoLogNew.command(alloc)?)
}

// All arguments and options, in the order of the help text.
fn arguments<'a>(alloc: Global) -> Result<Vec<Arg<'a>>, AllocError>
    ensures { IfOk result (λ arguments. AreArguments new_rules arguments.items) }
{
    vec![in alloc;
        required_baseline(alloc),
        dir(alloc),
        unchanged(alloc),
        flag(
            alloc,
            "every",
            "every",
            ArgAction::SetTrue,
            "Compare all other listed targets, too",
        ),
        text_option(
            alloc,
            "output",
            "FILE",
            "Write the text to FILE, which it replaces once it is complete [default: standard output]",
        ),
        senders(alloc),
        optional_targets(alloc),
    ]
    .map_err(AllocError::from)
}

// `--baseline DIR`, without which a command line is rejected.
fn required_baseline<'a>(alloc: Global) -> Arg<'a>
    ensures rule { rule_of result ≡ baseline_rule }
    ensures local { result.global ≡ false }
{
    baseline(alloc).required(true)
}
