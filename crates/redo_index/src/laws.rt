//! Laws about the definitions alone: their contracts are theorems, and their bodies are empty.
ghost use Rattle.std.specs.Prelude.{◌≡◌, ℕ, List, IfSome};
ghost use Rattle.redo_line.specs.Laws.{IsUnique};
ghost use Rattle.redo_index.specs.declared.index_fault.IndexFault.{IndexFault};
ghost use Rattle.redo_index.specs.Index.{AreFaultFree, IsIndexLine, IsRejected, parse_line};

/// If `parse_line` computes a target from a line, the line lists this target. A line lists nothing else. It has an optional flag, a number
/// of one to nine digits that doesn't begin with 0, a space, and a name that isn't empty. `IsIndexLine` says this of the name, so that it
/// can be read without the definition of names.
pub fn index_line_has_one_parse()
    ensures is { (line : List ℕ) → IfSome (parse_line line) (IsIndexLine line) }
    ensures only { (line : List ℕ) → IsUnique (IsIndexLine line) (parse_line line) }
{}

/// Lines are not both an index and rejected, and they are rejected with one fault only.
pub fn index_result_is_unique()
    ensures either { (lines : List (List ℕ)) (fault : IndexFault) → AreFaultFree lines → IsRejected lines fault → ⊥ }
    ensures one { (lines : List (List ℕ)) (fault other : IndexFault) → IsRejected lines fault → IsRejected lines other → fault ≡ other }
{}
