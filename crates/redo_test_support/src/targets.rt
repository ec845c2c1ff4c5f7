ghost use Rattle.std.specs.Prelude.{◌≡◌, IfOk};
ghost use Rattle.redo_logs.specs.Logs.{IsTable, targets_of};

use redo_line::TargetName;
use redo_logs::{LogTable, TableFault};
use std::alloc::{AllocError, Global};

/// Returns a table with an empty log for each of these targets. Fails with `Twice` if a target is given twice.
pub fn entered(alloc: Global, names: Vec<TargetName>) -> Result<LogTable, TableFault> {
    let mut table = LogTable::new(alloc);
    for name in names {
        table.enter(name)?;
    }
    Ok(table)
}

/// Returns the names of a table's targets. No name occurs twice, because no target has two logs.
pub fn names_of(alloc: Global, table: &LogTable) -> Result<Vec<TargetName>, AllocError>
    ensures names { IfOk result (λ names. names.items ≡ targets_of table.now) }
    ensures table { IsTable table.now }
{
    let count = table.len();
    let mut names = Vec::with_capacity(alloc, count as usize)?;
    for number in 0..count {
        names.push(table.name(number).copy(alloc)?)?;
    }
    Ok(names)
}
