//! The command-line arguments of the process.
ghost use Rattle.std.specs.Prelude.{◌≡◌, ◌||◌, codes, map, IfErr};
ghost use Rattle.std.specs.Str.{bytes_eq};
ghost use Rattle.std.specs.String.{string_bytes};
ghost use Rattle.redo_command.specs.Process.{command_arguments, requests_explanations, requests_version};
ghost use Rattle.redo_command.specs.Failure.{IsBeforeRun};

use crate::failure::Failure;
use redo_args::WordsFault;
use std::env;
use std::io::ErrorKind;
use std::rt::Env;

/// Returns the command-line arguments of the process, without the program's name. Arguments that aren't UTF-8 are
/// rejected.
pub fn process_arguments<R: Env + AllocGlobal>(rt: &R) -> Result<Vec<String>, Failure>
    ensures { IfErr result IsBeforeRun }
{
    let mut arguments = match env::args(rt) {
        Ok(arguments) => arguments,
        Err(error) => {
            return Err(match error.kind() {
                ErrorKind::OutOfMemory => Failure::Memory,
                _ => Failure::Words(WordsFault::Refused),
            });
        }
    };
    let _ = arguments.next();
    let mut rest = Vec::new(rt.alloc());
    for argument in arguments {
        rest.push(argument)?;
    }
    Ok(rest)
}

/// Returns whether the arguments request explanations: whether the first one is `--explain`.
pub fn explains(arguments: &[String]) -> bool
    ensures { result ≡ requests_explanations (map string_bytes arguments.now) }
{
    match arguments {
        [first, ..] => first.as_str() == "--explain",
        [] => false,
    }
}

/// Returns the arguments that a command line parses: all but a first one that requests explanations.
pub fn command_arguments(arguments: &[String]) -> &[String]
    ensures { map string_bytes result.now ≡ command_arguments (map string_bytes arguments.now) }
{
    if explains(arguments) {
        &arguments[1..]
    } else {
        arguments
    }
}

/// Returns whether the arguments request the version: `--version` or `-V` as the only argument, or after `--explain`.
pub fn requests_version(arguments: &[String]) -> bool
    ensures { result ≡ requests_version (map string_bytes arguments.now) }
{
    match command_arguments(arguments) {
        [argument] => is_version(argument),
        _ => false,
    }
}

fn is_version(argument: &str) -> bool
    ensures { result ≡ (bytes_eq argument.now (codes "--version") || bytes_eq argument.now (codes "-V")) }
{
    argument == "--version" || argument == "-V"
}
