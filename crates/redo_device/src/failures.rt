ghost use Rattle.std.specs.Prelude.{◌≡◌, ℕ, ◌+◌};
ghost use Rattle.std.specs.Borrow.{ftrue};

use std::marker::Model;

/// Counts how often a writer failed. The count is a ghost: it exists in contracts alone, takes no
/// bytes and has no maximum. Only the clauses of `none` and `one_more` fix its value.
#[derive(Drop)]
pub struct Failures {
    pub ghost count: { ℕ },
}

impl Model for Failures {
    ghost also_owns = { λ _. ftrue };
}

impl Failures {
    pub fn none() -> Failures
        ensures { result.count ≡ 0 }
    {
        Failures {}
    }

    pub fn one_more(_before: &Failures) -> Failures
        ensures { result.count ≡ _before.now.count + 1 }
    {
        Failures {}
    }
}
