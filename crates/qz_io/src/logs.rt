//! A list of readings that only proofs read.
ghost use Rattle.std.specs.Prelude.{◌≡◌, ℤ, List, [], ◌∷◌, ◌++◌};
ghost use Rattle.std.specs.Borrow.{ftrue};

use std::marker::Model;

/// The readings that a clock gave. It takes no memory, and its methods do nothing when the program runs.
#[derive(Drop)]
pub struct Log {
    pub ghost given: { List ℤ },
}

impl Model for Log {
    ghost also_owns = { λ _. ftrue };
}

impl Log {
    /// Nothing was given.
    pub(crate) fn new() -> Log
        ensures { result.given ≡ [] }
    {
        Log {}
    }

    /// One more reading was given.
    pub(crate) fn and(_before: &Log, _reading: &i64) -> Log
        ensures { result.given ≡ _before.now.given ++ _reading.now ∷ [] }
    {
        Log {}
    }
}
