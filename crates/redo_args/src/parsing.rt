//! Parses command-line arguments: the values that `clap` finds in them, or why it rejects them.
ghost use Rattle.std.specs.Prelude.{◌≡◌, ◌⊎◌, None, Some, true, false, IfErr, IfOk, map};
ghost use Rattle.std.specs.String.{string_bytes};
ghost use Rattle.clap.specs.Built.{BuildsTo};
ghost use Rattle.clap.specs.Facts.{IsParsed};
ghost use Rattle.clap.specs.Faults.{fault_of};
ghost use Rattle.clap.specs.Matches.{found_of, has_subcommand};
ghost use Rattle.clap.specs.Simple.{app_of, built, is_buildable, matches_of};
ghost use Rattle.clap.specs.Walk.{rows_of};
ghost use Rattle.clap.specs.declared.builder.command.Command.{Command};
ghost use Rattle.clap.specs.declared.builder.command.Command.TheViews.{out-Command};
ghost use Rattle.redo_args.specs.declared.words_fault.WordsFault.TheVariants.{OutOfMemory};
ghost use Rattle.redo_args.specs.Words.{fault_of_first};

use crate::rejection::CommandLine;
use crate::words_fault::WordsFault;
use clap::ArgMatches;
use std::alloc::Global;

/// Parses the arguments of a command line, without the name of the program.
pub fn parse<'a, C: CommandLine>(
    alloc: Global,
    command_line: &C,
    words: &'a [String],
) -> Result<ArgMatches<'a>, WordsFault>
    // The arguments are valid. The values are those that `clap` finds.
    ensures no_fault { IfOk result (λ _. fault_of_first (fault_of (C.app command_line.entry.now) (map string_bytes words.entry.now))
        ≡ None) }
    ensures entries { IfOk result (λ matches. rows_of (found_of matches) ≡ matches_of (C.app command_line.entry.now)
        (map string_bytes words.entry.now)) }

    // A command with these rules parsed them. `clap` may have built it.
    ensures parsed { IfOk result (λ matches. (old : Command) × (new : Command) × (app_of old ≡ C.app command_line.entry.now)
        × BuildsTo old new × ((app_of new ≡ app_of old) ⊎ (is_buildable (app_of old) ≡ true → app_of new ≡ built (app_of old)))
        × ((out-Command new).has_globals ≡ false → IsParsed new (found_of matches) (has_subcommand matches))) }

    // They request help or are rejected; the fault says which. Or memory ran out.
    ensures fault { IfErr result (λ fault. (fault ≡ OutOfMemory)
        ⊎ (fault_of_first (fault_of (C.app command_line.entry.now) (map string_bytes words.entry.now)) ≡ Some fault)) }
{
    command_line.is_exact();
    let mut command = command_line.command(alloc)?;
    let found = command.try_get_matches_from_mut(words);
    drop(command);
    found.map_err(WordsFault::from)
}
