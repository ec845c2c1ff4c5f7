//! Laws about the definitions alone: their contracts are theorems, and their bodies are empty.
ghost use Rattle.std.specs.Prelude.{List, Option};
ghost use Rattle.redo_line.specs.declared.stream_fault.StreamFault.{StreamFault};
ghost use Rattle.redo_logs.specs.Laws.{NoneBefore, NoFaultMissed, IsAtIndex};

/// `lowest_fault_is_first` returns the lowest position that has a fault, and this fault. If it returns none, no position has a
/// fault.
pub fn lowest_fault_is_first()
    ensures some { (faults : List (Option StreamFault)) → IsAtIndex faults }
    ensures before { (faults : List (Option StreamFault)) → NoneBefore faults }
    ensures none { (faults : List (Option StreamFault)) → NoFaultMissed faults }
{}
