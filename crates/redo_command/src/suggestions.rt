//! The targets that an unknown name may mean.
ghost use Rattle.std.specs.Prelude.{◌≡◌, ◌++◌, ◌∷◌, [], codes, take, IfOk, OnOk};
ghost use Rattle.std.specs.List.{flat_map};
ghost use Rattle.redo_command.specs.Explanation.{ending_with, listed, suggestions};
ghost use Rattle.redo_command.specs.Private.Suggested.{after_comma};
ghost use Rattle.redo_index.specs.Index.{listed_targets};
ghost use Rattle.redo_options.specs.Arguments.{argument_bytes};

use crate::text::{concat, push};
use redo_index::Index;
use std::alloc::{AllocError, Global};

/// The maximum number of targets that are suggested for an unknown one.
const MAX_SUGGESTIONS: usize = 5;

/// Returns up to five targets that a name may mean.
pub(crate) fn suggestions(
    alloc: Global,
    name: &[u8],
    index: &Index,
) -> Result<Vec<Vec<u8>>, AllocError>
    ensures { IfOk result (λ names. argument_bytes names.items ≡ suggestions name.now (listed_targets index.now)) }
{
    let segments = after_slash(alloc, name)?;
    let names = ending_with(alloc, &segments, index)?;
    if names.is_empty() {
        ending_with(alloc, name, index)
    } else {
        Ok(names)
    }
}

fn after_slash(alloc: Global, name: &[u8]) -> Result<Vec<u8>, AllocError>
    ensures { IfOk result (λ segments. segments.items ≡ codes "/" ++ name.now) }
{
    concat(alloc, &[b"/", name])
}

// Returns the first five targets that end with a name.
fn ending_with(alloc: Global, name: &[u8], index: &Index) -> Result<Vec<Vec<u8>>, AllocError>
    ensures { IfOk result (λ names. argument_bytes names.items ≡ take 5 (ending_with name.now (listed_targets index.now))) }
{
    let mut names = Vec::new(alloc);
    for i in 0..index.len() {
        if names.len() == MAX_SUGGESTIONS {
            return Ok(names);
        }
        let target = index.name(i).bytes();
        push_if_ending(alloc, &mut names, target, name)?;
    }
    Ok(names)
}

// Appends a copy of a target if it ends with a name.
fn push_if_ending(
    alloc: Global,
    names: &mut Vec<Vec<u8>>,
    target: &[u8],
    name: &[u8],
) -> Result<(), AllocError>
    ensures { OnOk result (argument_bytes names.new.items ≡ argument_bytes names.old.items ++ ending_with name.now (target.now ∷ [])) }
{
    if !target.ends_with(name) {
        return Ok(());
    }
    let copy = target.to_vec(alloc)?;
    names.push(copy)?;
    Ok(())
}

/// Appends names, each but the first after a comma.
pub(crate) fn push_listed(text: &mut Vec<u8>, names: &[Vec<u8>]) -> Result<(), AllocError>
    ensures { OnOk result (text.new.items ≡ text.old.items ++ listed (argument_bytes names.now)) }
{
    match names {
        [] => Ok(()),
        [first, others @ ..] => {
            push(text, first)?;
            push_after_commas(text, others)
        }
    }
}

// Appends names, each after a comma.
fn push_after_commas(text: &mut Vec<u8>, names: &[Vec<u8>]) -> Result<(), AllocError>
    ensures { OnOk result (text.new.items ≡ text.old.items ++ flat_map after_comma names.now) }
{
    for name in names {
        push(text, b", ")?;
        push(text, name)?;
    }
    Ok(())
}
