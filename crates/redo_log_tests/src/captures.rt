//! The index of a test's targets, and a reader for each target.
ghost use Rattle.std.specs.Prelude.{◌≡◌, IfOk, length};

use redo_line::Pieces;
use redo_log_cli::{Index, read_index};
use redo_test_support::{Cut, Given, reader};
use std::alloc::{AllocError, Global};
use std::test::Fail;

/// Returns an index of the targets.
pub fn index_of(alloc: Global, given: &[Given<'_>]) -> Result<Index, Fail> {
    let names = names_text(alloc, given)?;
    Ok(read_index(alloc, names.as_bytes())?)
}

fn names_text(alloc: Global, given: &[Given<'_>]) -> Result<String, AllocError> {
    let mut names = String::new(alloc);
    for (i, (name, _, _)) in given.iter().enumerate() {
        add_name(alloc, &mut names, i + 1, name)?;
    }
    Ok(names)
}

fn add_name(
    alloc: Global,
    names: &mut String,
    number: usize,
    name: &str,
) -> Result<(), AllocError> {
    names.push_str(&line_of(alloc, number, name)?)
}

fn line_of(alloc: Global, number: usize, name: &str) -> Result<String, AllocError> {
    format!(in alloc; "{number} {name}\n")
}

/// Returns a reader for each target of the index.
pub fn readers_for(
    alloc: Global,
    index: &Index,
    given: &[Given<'_>],
    cut: Cut,
) -> Result<Vec<Pieces>, Fail>
    ensures { IfOk result (λ readers. length readers.items ≡ length index.now) }
{
    let readers = readers_of(alloc, given, cut)?;
    if readers.len() != index.len() as usize {
        return Err("not a reader for each name".into());
    }
    Ok(readers)
}

fn readers_of(alloc: Global, given: &[Given<'_>], cut: Cut) -> Result<Vec<Pieces>, AllocError> {
    let mut readers = Vec::new(alloc);
    for (_, stream, fails) in given {
        readers.push(reader(alloc, stream, *fails, cut)?)?;
    }
    Ok(readers)
}
