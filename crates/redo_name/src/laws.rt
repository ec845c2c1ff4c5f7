//! Laws, which are theorems about the definitions alone: each contract is a theorem, and the bodies are empty.
ghost use Rattle.std.specs.Prelude.{◌≡◌, ℕ, true, List, [], Option, None, Some};
ghost use Rattle.std.specs.List.{AllByRecursion};
ghost use Rattle.redo_name.specs.Laws.{IsDropped, IsCancelled, IsOrdinary, IsRelative, ResolvesIn, AreKept};
ghost use Rattle.redo_name.specs.Names.{dot, is_absolute, normal, HasNoSlash, IsNormal};

/// Every normal form is its own normal form.
pub fn normal_form_is_idempotent()
    ensures { (of : Option (List ℕ)) (name value : List ℕ) → normal of name ≡ Some value → IsNormal value }
{}

/// Which segments of a name its normal form keeps. An empty segment and `.` are removed. A `..` is removed together with
/// an ordinary segment directly before it. Segments `..` at the front and ordinary segments after them are all kept.
pub fn segment_rules()
    ensures empty { IsDropped [] }
    ensures dot { IsDropped dot }
    ensures upward { (segment : List ℕ) → IsOrdinary segment → IsCancelled segment }
    ensures left { (ups : ℕ) (kept : List (List ℕ)) → AllByRecursion IsOrdinary kept → AreKept ups kept }
{}

/// A relative name in the log of a target is relative to the target's directory. If the target's name has no slash, that
/// is the base directory; otherwise it is everything before its last slash. An absolute name doesn't depend on the target.
pub fn base_directory_rules()
    ensures beside { (target name : List ℕ) → HasNoSlash target → normal (Some target) name ≡ normal None name }
    ensures within { (front last name : List ℕ) → HasNoSlash last → IsRelative name → ResolvesIn front last name }
    ensures absolute { (of : Option (List ℕ)) (name : List ℕ) → is_absolute name ≡ true → normal of name ≡ normal None name }
{}
