//! The targets that a log needs.
ghost use Rattle.std.specs.Prelude.{◌≡◌, ◌∷◌, ◌++◌, ℕ, List, [], IfOk, OnOk, map, option_to_list};
ghost use Rattle.redo_logs.specs.EntryRef.{entry_value};
ghost use Rattle.redo_outline.specs.Facts.{entries_at, target_at};
ghost use Rattle.redo_json.specs.Build.{mentioned_name, name_if_new, needs_of};
ghost use Rattle.redo_json.specs.Private.Needing.{AreKnownNames, names_if_new};

use crate::names::NameSet;
use redo_line::HashKeys;
use redo_logs::{EntryRef, LogTable};
use redo_outline::target_at;
use std::alloc::{AllocError, Global};

/// Returns the other targets that the entries of a log mention, each once, in the order in which they are mentioned first. Their names are
/// hashed with `keys`.
pub fn needs_of<'a>(
    alloc: Global,
    keys: HashKeys,
    table: &'a LogTable,
    number: u32,
) -> Result<Vec<&'a [u8]>, AllocError>
    ensures { IfOk result (λ needs.
        map (λ name. name.now) needs.items ≡ needs_of (target_at table.now number) (entries_at number table.now)) }
{
    let logs = table.numbered();
    let mut names = NameSet::new(alloc, keys);
    names.add(target_at(table, number))?;
    let mut needs = Vec::new(alloc);
    let mut at = 0;
    'entries: loop {
        let (_, count) = logs.lines(number, at);
        if count > 0 {
            at += count;
        } else if let Some(entry) = table.entry(number, at) {
            add_entry(&mut names, &mut needs, entry)?;
            at += 1;
        } else {
            return Ok(needs);
        }
    }
}

// Adds the target that an entry mentions, if it is a new one. `names` has those that were mentioned before.
fn add_entry<'a>(
    names: &mut NameSet<'a>,
    needs: &mut Vec<&'a [u8]>,
    entry: EntryRef<'a>,
) -> Result<(), AllocError>
    ensures known { (before : List (List ℕ)) → AreKnownNames names.old before → OnOk result (
        AreKnownNames names.new (before ++ option_to_list (mentioned_name (entry_value entry.entry)))) }
    ensures added { (before : List (List ℕ)) → AreKnownNames names.old before → OnOk result (
        map (λ name. name.now) needs.new.items
        ≡ map (λ name. name.now) needs.old.items ++ names_if_new (mentioned_name (entry_value entry.entry)) before) }
{
    match entry {
        EntryRef::Mention { name, .. } => add_name(names, needs, name.bytes()),
        _ => Ok(()),
    }
}

fn add_name<'a>(
    names: &mut NameSet<'a>,
    needs: &mut Vec<&'a [u8]>,
    name: &'a [u8],
) -> Result<(), AllocError>
    ensures known { (before : List (List ℕ)) → AreKnownNames names.old before → OnOk result (
        AreKnownNames names.new (before ++ name.now ∷ [])) }
    ensures added { (before : List (List ℕ)) → AreKnownNames names.old before → OnOk result (
        map (λ name. name.now) needs.new.items ≡ map (λ name. name.now) needs.old.items ++ name_if_new name.now before) }
{
    if names.add(name)? {
        needs.push(name)?;
    }
    Ok(())
}
