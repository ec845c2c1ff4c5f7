//! The targets of a build, each of which has an object if all are requested.
ghost use Rattle.std.specs.Prelude.{◌≡◌, ◌++◌, None, IfOk, OnOk};
ghost use Rattle.redo_logs.specs.Logs.{targets_of};
ghost use Rattle.redo_view.specs.View.{find_unknown};
ghost use Rattle.redo_json.specs.Every.{every_target};

use redo_line::TargetName;
use redo_logs::LogTable;
use std::alloc::{AllocError, Global};

/// Returns the requested targets and then all targets that have logs, in the order of the logs. A target may occur twice.
///
/// Each target of the build has one object if these are requested ([`each_log_has_one_object`](crate::each_log_has_one_object)).
pub fn every_target(
    alloc: Global,
    table: &LogTable,
    requested: &[TargetName],
) -> Result<Vec<TargetName>, AllocError>
    ensures names { IfOk result (λ names. names.items ≡ every_target table.now requested.now) }
    ensures known { find_unknown table.now requested.now ≡ None →
        find_unknown table.now (every_target table.now requested.now) ≡ None }
{
    let mut names = Vec::new(alloc);
    push_names(alloc, requested, &mut names)?;
    push_targets(alloc, table, &mut names)?;
    Ok(names)
}

// Appends copies of some names.
fn push_names(
    alloc: Global,
    more: &[TargetName],
    names: &mut Vec<TargetName>,
) -> Result<(), AllocError>
    ensures { OnOk result (names.new.items ≡ names.old.items ++ more.now) }
{
    for name in more {
        names.push(name.copy(alloc)?)?;
    }
    Ok(())
}

// Appends the targets of all logs.
fn push_targets(
    alloc: Global,
    table: &LogTable,
    names: &mut Vec<TargetName>,
) -> Result<(), AllocError>
    ensures { OnOk result (names.new.items ≡ names.old.items ++ targets_of table.now) }
{
    for number in 0..table.len() {
        names.push(table.name(number).copy(alloc)?)?;
    }
    Ok(())
}
