//! The facts of all targets, by the lines of a file.
//!
//! The definition collects the statements with a target's number, and takes those after the last `log` line. The code reads the
//! lines once, and changes the facts of one target for each. Numbers are looked up in a set with the keys of the index, so nobody
//! can choose numbers that make this slow.
ghost use Rattle.std.specs.Prelude.{◌≡◌, ◌<◌, ◌∷◌, ◌++◌, [], List, IfNone, IfOk, IfSome, OnOk, length};
ghost use Rattle.redo_index.specs.Index.{numbers_of, IsIndex};
ghost use Rattle.redo_line.specs.Lines.{ended};
ghost use Rattle.redo_facts.specs.Facts.{statements_of};
ghost use Rattle.redo_facts.specs.Private.Adding.{AreFacts};
ghost use Rattle.redo_facts.specs.Reading.{facts_of_all};
ghost use Rattle.redo_facts.specs.Statement.{Statement};

use crate::facts::Facts;
use crate::statement::read_statement;
use indexmap::IndexSet;
use memchr::memchr;
use redo_index::Index;
use redo_line::HashKeys;
use std::alloc::{AllocError, Global};

/// Returns the facts of each target, by the ended lines of these bytes.
pub fn facts_of_bytes(alloc: Global, index: &Index, bytes: &[u8]) -> Result<Vec<Facts>, AllocError>
    ensures { IfOk result (λ facts. facts.items ≡ facts_of_all index.now (ended bytes.now)) }
{
    let numbers = numbers_of(alloc, index)?;
    let mut facts = no_facts(alloc, index)?;
    add_lines(alloc, index, &numbers, facts.as_mut_slice(), bytes)?;
    Ok(facts)
}

// Returns the numbers of the targets, in order.
fn numbers_of(alloc: Global, index: &Index) -> Result<IndexSet<u32, HashKeys>, AllocError>
    ensures { IfOk result (λ numbers. numbers.keys ≡ numbers_of index.now) }
{
    let mut numbers = IndexSet::with_hasher(alloc, index.keys());
    for i in 0..index.len() {
        numbers.insert(index.fid(i))?;
    }
    Ok(numbers)
}

/// Returns for each target that nothing is known.
pub fn no_facts(alloc: Global, index: &Index) -> Result<Vec<Facts>, AllocError>
    ensures facts { IfOk result (λ facts. AreFacts index.now [] facts.items) }
    ensures index { IsIndex index.now }
{
    let mut facts = Vec::with_capacity(alloc, index.len() as usize)?;
    for _ in 0..index.len() {
        facts.push(Facts::nothing(alloc))?;
    }
    Ok(facts)
}

// Adds the statements of the ended lines of these bytes.
fn add_lines(
    alloc: Global,
    index: &Index,
    numbers: &IndexSet<u32, HashKeys>,
    facts: &mut [Facts],
    bytes: &[u8],
) -> Result<(), AllocError>
    requires index { IsIndex index.now }
    requires numbers { numbers.now.keys ≡ numbers_of index.now }
    requires facts { AreFacts index.now [] facts.old }
    ensures { OnOk result (AreFacts index.now (statements_of (ended bytes.now)) facts.new) }
{
    let mut left = bytes;
    'lines: while let Some((line, others)) = first_line(left) {
        add_line(alloc, index, numbers, facts, line)?;
        left = others;
    }
    Ok(())
}

// Returns the first ended line without its line feed, and the bytes after it.
fn first_line(bytes: &[u8]) -> Option<(&[u8], &[u8])>
    ensures some { IfSome result (λ parts. ended bytes.now ≡ parts.0.now ∷ ended parts.1.now) }
    ensures none { IfNone result (ended bytes.now ≡ []) }
    ensures less { IfSome result (λ parts. length parts.1.now < length bytes.now) }
{
    match memchr(b'\n', bytes) {
        Some(at) => Some((&bytes[..at], &bytes[at + 1..])),
        None => None,
    }
}

// Adds the statement of an ended line.
fn add_line(
    alloc: Global,
    index: &Index,
    numbers: &IndexSet<u32, HashKeys>,
    facts: &mut [Facts],
    line: &[u8],
) -> Result<(), AllocError>
    requires index { IsIndex index.now }
    requires numbers { numbers.now.keys ≡ numbers_of index.now }
    requires count { length facts.old ≡ length index.now }
    ensures { (statements : List Statement) → AreFacts index.now statements facts.old
        → OnOk result (AreFacts index.now (statements ++ statements_of (line.now ∷ [])) facts.new) }
{
    let Some(stated) = read_statement(line) else {
        return Ok(());
    };
    let Some(i) = numbers.get_index_of(&stated.number) else {
        return Ok(());
    };
    let target = index.name(i as u32);
    facts[i].add(alloc, target, stated.form, stated.text)?;
    Ok(())
}
