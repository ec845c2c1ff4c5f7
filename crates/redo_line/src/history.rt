ghost use Rattle.std.specs.Prelude.{◌≡◌, ℕ, List, [], ◌++◌};
ghost use Rattle.std.specs.Borrow.{ftrue};

use std::marker::Model;

/// The bytes consumed so far. The list is a ghost: it exists in contracts alone and takes no
/// memory. Only the clauses of `empty` and `extended` fix its value.
#[derive(Drop)]
pub struct History {
    pub ghost bytes: { List ℕ },
}

impl Model for History {
    ghost also_owns = { λ _. ftrue };
}

impl History {
    pub fn empty() -> History
        ensures { result.bytes ≡ [] }
    {
        History {}
    }

    pub fn extended(_before: &History, _more: &[u8]) -> History
        ensures { result.bytes ≡ _before.now.bytes ++ _more.now }
    {
        History {}
    }
}
