//! Says why command-line arguments are rejected.
//!
//! `clap` states only the kind of an error, and nothing about its text, which is therefore not shown. To find the rejected one, the
//! arguments are parsed again, without the last one, the last two, and so on, until the kind changes.
ghost use Rattle.std.specs.Prelude.{◌≡◌, ◌≢◌, ◌≤◌, ◌<◌, ◌-◌, ◌++◌, ◌∷◌, [], true, codes, flat_map, get_or, length, map, IfOk, List};
ghost use Rattle.std.specs.Str.{bytes_eq};
ghost use Rattle.std.specs.String.{string_bytes};
ghost use Rattle.clap.specs.Faults.{fault_of, is_simple_and_free};
ghost use Rattle.clap.specs.Kinds.{Kinds};
ghost use Rattle.clap.specs.Simple.{App, app_of};
ghost use Rattle.clap.specs.Walk.{Text};
ghost use Rattle.clap.specs.declared.error.kind.ErrorKind.TheVariants as kind_of;
ghost use Rattle.redo_args.specs.Rejection.{argument_at, is_option, kind_name, kinds_of, missing, mistake, out_of_range, reason, rejected_count, rejection};

use clap::Command;
use clap::error::ErrorKind;
use std::alloc::{AllocError, Global};

/// A command line that `clap` parses.
pub trait CommandLine {
    /// Its definition for `clap`.
    ghost app: { Self → App };

    /// Returns the command for `clap`. The only error is that an allocation failed.
    fn command<'a>(&self, alloc: Global) -> Result<Command<'a>, AllocError>
        ensures { IfOk result (λ command. app_of command ≡ app self.now) };

    /// The contract of `clap` states exactly what this command line finds, and why it rejects arguments: for at most one reason.
    /// The body is empty.
    fn is_exact(&self)
        ensures exact { is_simple_and_free (app self.now) ≡ true }
        ensures one_kind { (words : List Text) → length (fault_of (app self.now) words) ≤ 1 };
}

/// Returns why arguments are rejected: which one, and the reason. The rejected argument is the last one that changes the kind of
/// the fault. The text names it, with the option before it if it is a value. It is one line, without its line feed, unless an
/// argument has one.
pub fn explain_rejection<C: CommandLine>(
    alloc: Global,
    command_line: &C,
    words: &[String],
) -> Result<Vec<u8>, AllocError>
    ensures { IfOk result (λ text. text.items ≡ rejection (C.app command_line.now) (map string_bytes words.now)) }
{
    let kind = fault_in(alloc, command_line, words)?;
    let count = rejected_count(alloc, command_line, words, kind)?;
    let argument = argument_at(alloc, words, count)?;
    reason(alloc, command_line, kind, &argument)
}

/// Returns the kind of the fault that arguments have; `None` if they describe a job. The only error is that an allocation
/// failed.
pub fn fault_in<C: CommandLine>(
    alloc: Global,
    command_line: &C,
    words: &[String],
) -> Result<Option<ErrorKind>, AllocError>
    ensures { IfOk result (λ kind. kinds_of kind ≡ fault_of (C.app command_line.now) (map string_bytes words.now)) }
{
    command_line.is_exact();
    fault_by(command_line.command(alloc)?, words)
}

// Returns the same for a command.
fn fault_by<'a>(command: Command<'a>, words: &'a [String]) -> Result<Option<ErrorKind>, AllocError>
    requires exact { is_simple_and_free (app_of command) ≡ true }
    requires one_kind { length (fault_of (app_of command) (map string_bytes words.now)) ≤ 1 }
    ensures { IfOk result (λ kind. kinds_of kind ≡ fault_of (app_of command.entry) (map string_bytes words.entry.now)) }
{
    let mut command = command;
    let found = command.try_get_matches_from_mut(words);
    drop(command);
    match found {
        Ok(_) => Ok(None),
        Err(error) => match error.kind() {
            ErrorKind::OutOfMemory => Err(AllocError),
            kind => Ok(Some(kind)),
        },
    }
}

// Returns how many arguments there are up to the rejected one. `kind` is the kind of the fault of all.
fn rejected_count<C: CommandLine>(
    alloc: Global,
    command_line: &C,
    words: &[String],
    kind: Option<ErrorKind>,
) -> Result<usize, AllocError>
    requires { kinds_of kind ≡ fault_of (C.app command_line.now) (map string_bytes words.now) }
    ensures count { IfOk result (λ count. count ≡ rejected_count (C.app command_line.now) (map string_bytes words.now)) }
    ensures in_range { IfOk result (λ count. count ≤ length words.now) }
{
    let mut count = words.len();
    while count > 0 {
        let earlier = &words[..count - 1];
        let before = fault_in(alloc, command_line, earlier)?;
        if !is_same_kind(before, kind) {
            return Ok(count);
        }
        count -= 1;
    }
    Ok(0)
}

// Returns whether two faults, or none, have the same kind.
fn is_same_kind(kind: Option<ErrorKind>, other: Option<ErrorKind>) -> bool
    ensures { result ≡ bytes_eq (kind_name (kinds_of kind)) (kind_name (kinds_of other)) }
{
    kind_name(kind) == kind_name(other)
}

// Returns a text for the kind of a fault; it is empty if there is none.
fn kind_name(kind: Option<ErrorKind>) -> &'static str
    ensures { result.now ≡ kind_name (kinds_of kind) }
{
    match kind {
        None => "",
        Some(kind) => kind.as_str().unwrap_or(""),
    }
}

// Returns the last one of the first `count` arguments, after its option if it is a value.
fn argument_at(alloc: Global, words: &[String], count: usize) -> Result<Vec<u8>, AllocError>
    requires { count ≤ length words.now }
    ensures { IfOk result (λ argument. argument.items ≡ argument_at (map string_bytes words.now) count) }
{
    if count == 0 {
        return Ok(Vec::new(alloc));
    }
    let last = word_at(words, count - 1);
    if count == 1 || is_option(last) {
        return concat(alloc, &[last]);
    }
    let option = word_at(words, count - 2);
    concat(alloc, &[option, b" ", last])
}

// Returns the argument at a position.
fn word_at(words: &[String], place: usize) -> &[u8]
    requires { place < length words.now }
    ensures { result.now ≡ get_or (map string_bytes words.now) place [] }
{
    words[place].as_bytes()
}

// Returns whether an argument is read as an option, and not as a value.
fn is_option(word: &[u8]) -> bool
    ensures { result ≡ is_option word.now }
{
    word.starts_with(b"-") && word.len() != 1
}

// Returns the reason for a rejection.
fn reason<C: CommandLine>(
    alloc: Global,
    command_line: &C,
    kind: Option<ErrorKind>,
    argument: &[u8],
) -> Result<Vec<u8>, AllocError>
    ensures { IfOk result (λ text.
        text.items ≡ reason (fault_of (C.app command_line.now) (codes "all" ∷ [])) (kinds_of kind) argument.now) }
{
    match kind {
        None => Ok(Vec::new(alloc)),
        Some(ErrorKind::MissingRequiredArgument) => missing(alloc, command_line),
        Some(kind) => reason_of_kind(alloc, kind, argument),
    }
}

// Returns what arguments lack.
fn missing<C: CommandLine>(alloc: Global, command_line: &C) -> Result<Vec<u8>, AllocError>
    ensures { IfOk result (λ text. text.items ≡ missing (fault_of (C.app command_line.now) (codes "all" ∷ []))) }
{
    let target = String::from_str(alloc, "all")?;
    match fault_in(alloc, command_line, &[target])? {
        None => concat(alloc, &[b"no target"]),
        Some(_) => concat(alloc, &[b"no --baseline DIR"]),
    }
}

// Returns the reason for a rejection, unless a required argument is missing.
fn reason_of_kind(alloc: Global, kind: ErrorKind, argument: &[u8]) -> Result<Vec<u8>, AllocError>
    requires { kind ≢ kind_of.MissingRequiredArgument }
    ensures { (alone : Kinds) → IfOk result (λ text. text.items ≡ reason alone (kind ∷ []) argument.now) }
{
    match kind {
        ErrorKind::UnknownArgument => concat(alloc, &[b"unknown option '", argument, b"'"]),
        ErrorKind::ValueValidation => with_end(alloc, argument, out_of_range(argument)),
        _ => with_end(alloc, argument, mistake(kind)),
    }
}

// Returns the mistake in a known option, except for its number.
fn mistake(kind: ErrorKind) -> &'static str
    ensures { result.now ≡ mistake kind }
{
    match kind {
        ErrorKind::InvalidValue => ": a value is missing",
        ErrorKind::TooManyValues => ": this option takes no value",
        ErrorKind::ArgumentConflict => ": this option is given twice",
        _ => ": rejected",
    }
}

// Returns which numbers an option takes, from an argument that begins with the option's name.
fn out_of_range(argument: &[u8]) -> &'static str
    ensures { result.now ≡ out_of_range argument.now }
{
    if argument.starts_with(b"--senders") {
        ": not in 1 to 64"
    } else if argument.starts_with(b"--capacity") {
        ": not in 1 to 65536"
    } else {
        ": not in 0 to 18446744073709551615"
    }
}

fn with_end(alloc: Global, text: &[u8], end: &str) -> Result<Vec<u8>, AllocError>
    ensures { IfOk result (λ whole. whole.items ≡ text.now ++ end.now) }
{
    let mut whole = Vec::new(alloc);
    whole.extend_from_slice(text)?;
    whole.extend_from_slice(end.as_bytes())?;
    Ok(whole)
}

// Returns a text with these parts, concatenated.
fn concat(alloc: Global, parts: &[&[u8]]) -> Result<Vec<u8>, AllocError>
    ensures { IfOk result (λ text. text.items ≡ flat_map (λ part. part.now) parts.now) }
{
    parts.concat(alloc)
}
