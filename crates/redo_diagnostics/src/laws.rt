//! Laws, which are theorems about the definitions alone: each contract is a theorem, and the bodies are empty.
ghost use Rattle.std.specs.Prelude.{◌≡◌, ◌<◌, ◌≢◌, ℕ, List, Some, ◌∷◌, ◌++◌, option_map, slice_get, length, codes};
ghost use Rattle.std.specs.List.{AllByRecursion};
ghost use Rattle.redo_line.specs.Record.{space};
ghost use Rattle.redo_html.specs.Laws.{IsLink};
ghost use Rattle.redo_diagnostics.specs.declared.severity.Severity.{Severity};
ghost use Rattle.redo_diagnostics.specs.Counts.{numbered_keys};
ghost use Rattle.redo_diagnostics.specs.Diagnostic.{PartsValue, diagnostic_of, key_of, masked, parts_of, word_of};
ghost use Rattle.redo_diagnostics.specs.Laws.{IsAt, IsColour, SaySame};

/// The key of a line with a place has the file, the word and the message, but no row and no column. Lines that differ only in row,
/// column, colours and links have the same key.
pub fn keys_ignore_places()
    ensures { (file message line : List ℕ) (severity : Severity) → IsAt file severity message line →
        option_map key_of (parts_of line) ≡ Some (masked (file ++ codes ": " ++ word_of severity ++ space ∷ message)) }
{}

/// A line has the same diagnostic without the first colour or link in it, and so without all of them.
pub fn colours_and_links_say_nothing()
    ensures colours { (front colour more : List ℕ) → AllByRecursion (λ byte. byte ≢ 27) front → IsColour colour →
        diagnostic_of (front ++ colour ++ more) ≡ diagnostic_of (front ++ more) }
    ensures links { (front link more : List ℕ) → AllByRecursion (λ byte. byte ≢ 27) front → IsLink link →
        diagnostic_of (front ++ link ++ more) ≡ diagnostic_of (front ++ more) }
{}

/// Two lines with the same key name the same file or program, and have the same word and message, except the random parts of names.
pub fn keys_tell_apart()
    ensures { (line other : List ℕ) (one two : PartsValue) → parts_of line ≡ Some one → parts_of other ≡ Some two →
        key_of one ≡ key_of two → SaySame one two }
{}

/// In a log, no two diagnostics have the same key and the same number.
pub fn ids_are_distinct()
    ensures { (keys : List (List ℕ)) (i j : ℕ) → i < j → j < length keys →
        slice_get (numbered_keys keys) i ≢ slice_get (numbered_keys keys) j }
{}
