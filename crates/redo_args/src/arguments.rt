//! Options of a command line for `clap`, which the programs share.
//!
//! This module, `parse`, and the proofs `ParseLemmas`, `OneKind` and `Getters` are for any command without subcommands. `clap` checks
//! the range of numbers, so a number out of range is rejected like any bad argument.
ghost use Rattle.std.specs.Prelude.{◌≡◌, codes, false, IfOk, map, option_map};
ghost use Rattle.std.specs.List.{AllByRecursion};
ghost use Rattle.std.specs.String.{string_bytes};
ghost use Rattle.clap.specs.Simple.{app_of};
ghost use Rattle.clap.specs.Walk.{rule_of};
ghost use Rattle.clap.specs.declared.builder.action.ArgAction.TheVariants.{SetTrue};
ghost use Rattle.redo_options.specs.Arguments.{argument_bytes};
ghost use Rattle.redo_args.specs.CommandLine.{flag_rule, letter_rule, number_rule, optional_words_rule, plain, text_rule, with_rules};

use clap::{Arg, ArgAction, Command, value_parser};
use std::alloc::{AllocError, Global};

/// An option without a value, with a letter, that is true if it is given.
pub fn letter_flag<'a>(alloc: Global, id: &'a str, letter: char, help: &'a str) -> Arg<'a>
    ensures rule { rule_of result ≡ letter_rule id.entry.now letter }
    ensures local { result.global ≡ false }
{
    flag(alloc, id, id, ArgAction::SetTrue, help).short(letter)
}

/// An option without a value.
pub fn flag<'a>(
    alloc: Global,
    id: &'a str,
    long: &'a str,
    action: ArgAction,
    help: &'a str,
) -> Arg<'a>
    ensures rule { rule_of result ≡ flag_rule id.entry.now long.entry.now action }
    ensures local { result.global ≡ false }
{
    Arg::new(alloc, id)
        .long(long)
        .action(action)
        .value_parser(value_parser!(bool))
        .help(help)
}

/// An option with a value, which the help text calls `value_name`.
pub fn text_option<'a>(alloc: Global, id: &'a str, value_name: &'a str, help: &'a str) -> Arg<'a>
    ensures rule { rule_of result ≡ text_rule id.entry.now }
    ensures local { result.global ≡ false }
{
    Arg::new(alloc, id)
        .long(id)
        .value_name(value_name)
        .help(help)
}

/// An option with a number from 1 to `max`.
pub fn number<'a>(alloc: Global, id: &'a str, max: u32, help: &'a str) -> Arg<'a>
    ensures rule { rule_of result ≡ number_rule id.entry.now max }
    ensures local { result.global ≡ false }
{
    let parser = value_parser!(u32).range(1..=i64::from(max));
    text_option(alloc, id, "N", help).value_parser(parser)
}

/// `--dir DIR`: the capture directory.
pub fn dir<'a>(alloc: Global) -> Arg<'a>
    ensures rule { rule_of result ≡ text_rule (codes "dir") }
    ensures local { result.global ≡ false }
{
    text_option(
        alloc,
        "dir",
        "DIR",
        "The capture directory: `names`, and a `log.NUMBER` for each line of it [default: ., .redo-log or capture]",
    )
}

/// `--baseline DIR`: the capture directory of an earlier build, with which this one is compared.
pub fn baseline<'a>(alloc: Global) -> Arg<'a>
    ensures rule { rule_of result ≡ text_rule (codes "baseline") }
    ensures local { result.global ≡ false }
{
    text_option(
        alloc,
        "baseline",
        "DIR",
        "Compare with an earlier build: DIR is its capture directory",
    )
}

/// `-u` and `--unchanged`: whether targets are shown that needed no rebuild.
pub fn unchanged<'a>(alloc: Global) -> Arg<'a>
    ensures rule { rule_of result ≡ letter_rule (codes "unchanged") 117 }
    ensures local { result.global ≡ false }
{
    letter_flag(
        alloc,
        "unchanged",
        'u',
        "Show targets that needed no rebuild too",
    )
}

/// `--debug-locks`: whether messages about locks are shown.
pub fn debug_locks<'a>(alloc: Global) -> Arg<'a>
    ensures rule { rule_of result ≡ flag_rule (codes "debug_locks") (codes "debug-locks") SetTrue }
    ensures local { result.global ≡ false }
{
    flag(
        alloc,
        "debug_locks",
        "debug-locks",
        ArgAction::SetTrue,
        "Show messages about waiting and locking",
    )
}

/// `--senders N`: the number of senders.
pub fn senders<'a>(alloc: Global) -> Arg<'a>
    ensures rule { rule_of result ≡ number_rule (codes "senders") 64 }
    ensures local { result.global ≡ false }
{
    number(
        alloc,
        "senders",
        64,
        "The number of threads that read logs, 1 to 64 [default: 4]",
    )
}

/// `[TARGET..]`: the requested targets; `all`, if none is named.
pub fn optional_targets<'a>(alloc: Global) -> Arg<'a>
    ensures rule { rule_of result ≡ optional_words_rule (codes "target") }
    ensures local { result.global ≡ false }
{
    Arg::new(alloc, "target")
        .value_name("TARGET")
        .action(ArgAction::Append)
        .help("A target to show: its name in `names`, in any spelling [default: all]")
}

/// A command line with these arguments. The name of the program is not part of what it parses.
pub fn command_line<'a>(
    alloc: Global,
    name: &'a str,
    about: &'a str,
    after_help: &'a str,
    arguments: Vec<Arg<'a>>,
) -> Result<Command<'a>, AllocError>
    requires local { AllByRecursion (λ argument. argument.global ≡ false) arguments.items }
    ensures { IfOk result (λ command. app_of command ≡ with_rules (map rule_of arguments.entry.items) (plain name.entry.now)) }
{
    Command::new(alloc, name)
        .about(about)
        .after_help(after_help)
        .no_binary_name(true)
        .args(arguments)
}

/// Returns the help text of a command line, which ends with a line feed. It also lists `--version`, which isn't parsed.
pub fn help_of(command: Command<'_>) -> Result<String, AllocError> {
    let mut command = command.version("");
    let text = command.render_help();
    drop(command);
    text
}

/// Copies arguments as bytes.
pub fn bytes_of(alloc: Global, words: &[&str]) -> Result<Vec<Vec<u8>>, AllocError>
    ensures { IfOk result (λ copies. argument_bytes copies.items ≡ map (λ word. word.now) words.now) }
{
    let mut copies = Vec::with_capacity(alloc, words.len())?;
    for word in words {
        copies.push(word.as_bytes().to_vec(alloc)?)?;
    }
    Ok(copies)
}

/// Copies the text of an option, if it is given.
pub fn copy_of(alloc: Global, text: Option<&str>) -> Result<Option<String>, AllocError>
    ensures { IfOk result (λ copy. option_map string_bytes copy ≡ option_map (λ text. text.now) text.entry) }
{
    match text {
        Some(text) => Ok(Some(String::from_str(alloc, text)?)),
        None => Ok(None),
    }
}
