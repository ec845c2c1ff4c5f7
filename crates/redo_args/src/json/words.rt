ghost use Rattle.std.specs.Prelude.{◌≡◌, ◌⊎◌, None, Some, IfOk, IfErr, map};
ghost use Rattle.std.specs.String.{string_bytes};
ghost use Rattle.redo_args.specs.declared.words_fault.WordsFault.TheVariants.{OutOfMemory};
ghost use Rattle.redo_args.specs.Private.Arguments.{AreArguments};
ghost use Rattle.redo_args.specs.JsonCommandLine.{redo_log_json, json_rules};
ghost use Rattle.redo_args.specs.JsonWords.{json_fault_of_words, parse_json_parts};

use crate::arguments::{
    baseline, command_line, dir, flag, help_of, optional_targets, senders, text_option, unchanged,
};
use crate::json::job::{JsonJob, job_from_matches};
use crate::parsing::parse;
use crate::{CommandLine, WordsFault};
use clap::{Arg, ArgAction, Command};
use std::alloc::{AllocError, Global};

const ABOUT: &str =
    "Writes the logs of a parallel build as data: one JSON object per log, each on a line of its own.";

const AFTER_HELP: &str = "Example:
  redo-log-json --dir captures --every --output build.jsonl    writes all logs of a capture

Exit status:
   0  the objects, this help or the version was written
   2  the command line is invalid
   3  `names` has a bad line, a duplicate number or name, or too many lines
   4  a log has a bad record, has data after its closing record, is not closed, or is too long
   5  a log or `names` can't be read
   6  the objects can't be written
   7  out of memory, or no thread can be started
  24  a requested target is not listed";

/// Parses the command-line arguments, without the name of the program:
///
/// `[--dir DIR] [--baseline DIR] [-u|--unchanged] [--every] [--output FILE] [--senders N] [TARGET..]`
///
/// By default, the directory is `.`, the number of senders is 4, and the target is `all`. The rules are the same as for
/// `redo-log` ([`crate::read_words`]), except that no target need be named.
pub fn read_arguments(alloc: Global, words: &[String]) -> Result<JsonJob, WordsFault>
    // The arguments are valid, and the job is the one that they describe.
    ensures no_fault { IfOk result (λ _. json_fault_of_words (map string_bytes words.now) ≡ None) }
    ensures job { IfOk result (λ job. job ≡ parse_json_parts (map string_bytes words.now)) }

    // They request help or are rejected; the fault says which. Or memory ran out.
    ensures fault { IfErr result (λ fault. (fault ≡ OutOfMemory) ⊎ (json_fault_of_words (map string_bytes words.now) ≡ Some fault)) }
{
    let matches = parse(alloc, &RedoLogJson, words)?;
    job_from_matches(alloc, &matches).map_err(WordsFault::from)
}

/// The command line of `redo-log-json`, whose arguments [`read_arguments`] parses.
pub struct RedoLogJson;

impl CommandLine for RedoLogJson {
    ghost app = { λ _. redo_log_json };

    fn command<'a>(&self, alloc: Global) -> Result<Command<'a>, AllocError> {
        command_line(alloc, "redo-log-json", ABOUT, AFTER_HELP, arguments(alloc)?)
    }

    fn is_exact(&self) {}
}

/// Returns the help text: the arguments and options, an example, and the exit statuses. It ends with a
/// line feed. It also lists `--version`, which `read_arguments` rejects: the program handles it if it is the
/// only argument.
pub fn help_text(alloc: Global) -> Result<String, AllocError> {
    help_of(RedoLogJson.command(alloc)?)
}

// All arguments and options, in the order of the help text.
fn arguments<'a>(alloc: Global) -> Result<Vec<Arg<'a>>, AllocError>
    ensures { IfOk result (λ arguments. AreArguments json_rules arguments.items) }
{
    vec![in alloc;
        dir(alloc),
        baseline(alloc),
        unchanged(alloc),
        flag(
            alloc,
            "every",
            "every",
            ArgAction::SetTrue,
            "Also write the logs of all other listed targets",
        ),
        text_option(
            alloc,
            "output",
            "FILE",
            "Write the objects to FILE, which they replace once they are complete [default: standard output]",
        ),
        senders(alloc),
        optional_targets(alloc),
    ]
    .map_err(AllocError::from)
}
