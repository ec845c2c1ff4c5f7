ghost use Rattle.std.specs.Prelude.{◌≡◌, ◌⊎◌, None, Some, false, IfOk, IfErr, map};
ghost use Rattle.std.specs.String.{string_bytes};
ghost use Rattle.clap.specs.Walk.{rule_of};
ghost use Rattle.redo_args.specs.declared.words_fault.WordsFault.TheVariants.{OutOfMemory};
ghost use Rattle.redo_args.specs.Private.Arguments.{AreArguments};
ghost use Rattle.redo_args.specs.HtmlCommandLine.{redo_log_html, html_rules, unsigned_rule};
ghost use Rattle.redo_args.specs.HtmlWords.{html_fault_of_words, parse_html_parts};

use crate::arguments::{
    baseline, command_line, debug_locks, dir, help_of, optional_targets, senders, text_option,
    unchanged,
};
use crate::html::job::{PageJob, job_from_matches};
use crate::parsing::parse;
use crate::{CommandLine, WordsFault};
use clap::{Arg, Command, value_parser};
use std::alloc::{AllocError, Global};

const ABOUT: &str =
    "Shows the logs of a parallel build as one HTML page, as if nothing had run in parallel.";

const AFTER_HELP: &str = "Example:
  redo-log-html --dir captures --output build.html    writes a page of the whole build

Exit status:
   0  the page, this help or the version was written
   2  the command line is invalid
   3  `names` has a bad line, a duplicate number or name, or too many lines
   4  a log has a bad record, has data after its closing record, is not closed, or is too long
   5  a log or `names` can't be read
   6  the page can't be written
   7  out of memory, or no thread can be started
  24  a requested target is not listed";

/// Parses the command-line arguments, without the name of the program:
///
/// `[--dir DIR] [--baseline DIR] [--output FILE] [--title TEXT] [-u|--unchanged] [--debug-locks] [--max-bytes N] [--senders N]
/// [TARGET..]`
///
/// By default, the directory is `.`, the number of bytes is 16,000,000, the number of senders is 4, and the target is
/// `all`. A number of bytes is at most 18,446,744,073,709,551,615. The rules are the same as for `redo-log`
/// ([`crate::read_words`]), except that no target need be named.
pub fn read_arguments(alloc: Global, words: &[String]) -> Result<PageJob, WordsFault>
    // The arguments are valid, and the job is the one that they describe.
    ensures no_fault { IfOk result (λ _. html_fault_of_words (map string_bytes words.now) ≡ None) }
    ensures job { IfOk result (λ job. job ≡ parse_html_parts (map string_bytes words.now)) }

    // They request help or are rejected; the fault says which. Or memory ran out.
    ensures fault { IfErr result (λ fault. (fault ≡ OutOfMemory) ⊎ (html_fault_of_words (map string_bytes words.now) ≡ Some fault)) }
{
    let matches = parse(alloc, &RedoLogHtml, words)?;
    job_from_matches(alloc, &matches).map_err(WordsFault::from)
}

/// The command line of `redo-log-html`, whose arguments [`read_arguments`] parses.
pub struct RedoLogHtml;

impl CommandLine for RedoLogHtml {
    ghost app = { λ _. redo_log_html };

    fn command<'a>(&self, alloc: Global) -> Result<Command<'a>, AllocError> {
        command_line(alloc, "redo-log-html", ABOUT, AFTER_HELP, arguments(alloc)?)
    }

    fn is_exact(&self) {}
}

/// Returns the help text: the arguments and options, an example, and the exit statuses. It ends with a
/// line feed. It also lists `--version`, which [`read_arguments`] rejects: the program handles it if it is the
/// only argument.
pub fn help_text(alloc: Global) -> Result<String, AllocError> {
    help_of(RedoLogHtml.command(alloc)?)
}

// All arguments and options, in the order of the help text.
fn arguments<'a>(alloc: Global) -> Result<Vec<Arg<'a>>, AllocError>
    ensures { IfOk result (λ arguments. AreArguments html_rules arguments.items) }
{
    vec![in alloc;
        dir(alloc),
        baseline(alloc),
        text_option(
            alloc,
            "output",
            "FILE",
            "Write the page to FILE, which it replaces once it is complete [default: standard output]",
        ),
        text_option(alloc, "title", "TEXT", "The title of the page"),
        unchanged(alloc),
        debug_locks(alloc),
        unsigned(
            alloc,
            "max-bytes",
            "Shorten the longest logs if all together have more than N bytes of text; 0 shows everything [default: 16000000]",
        ),
        senders(alloc),
        optional_targets(alloc),
    ]
    .map_err(AllocError::from)
}

// An option with a number that `u64` can hold.
fn unsigned<'a>(alloc: Global, id: &'a str, help: &'a str) -> Arg<'a>
    ensures rule { rule_of result ≡ unsigned_rule id.entry.now }
    ensures local { result.global ≡ false }
{
    text_option(alloc, id, "N", help).value_parser(value_parser!(u64))
}
