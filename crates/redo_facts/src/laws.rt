//! Laws, which are theorems about the definitions alone: each contract is a theorem, and the bodies are empty.
ghost use Rattle.std.specs.Prelude.{◌≡◌, ℕ, List, ◌∷◌, ◌++◌, IfSome};
ghost use Rattle.redo_line.specs.Laws.{IsUnique};
ghost use Rattle.redo_facts.specs.Facts.{facts_of};
ghost use Rattle.redo_facts.specs.Laws.{BeginsLog, IsSkipped};
ghost use Rattle.redo_facts.specs.Statement.{IsStatement, statement_of};

/// `statement_of` computes the statement of a line, and a line has no other statement. A statement that is written in one of the
/// forms is read back.
pub fn line_has_one_statement()
    ensures is { (line : List ℕ) → IfSome (statement_of line) (IsStatement line) }
    ensures only { (line : List ℕ) → IsUnique (IsStatement line) (statement_of line) }
{}

/// A line that states nothing about a target's number changes none of its facts, wherever it is.
pub fn other_lines_are_skipped()
    ensures { (number : ℕ) (target line : List ℕ) (before after : List (List ℕ)) → IsSkipped number line →
        facts_of number target (before ++ line ∷ after) ≡ facts_of number target (before ++ after) }
{}

/// The lines before a `log` line don't count for the target with its number.
pub fn earlier_log_does_not_count()
    ensures { (number : ℕ) (target line : List ℕ) (before after : List (List ℕ)) → BeginsLog number line →
        facts_of number target (before ++ line ∷ after) ≡ facts_of number target (line ∷ after) }
{}
