//! Values that a board can show.
ghost use Rattle.std.specs.Prelude.{◌≡◌, ℕ, ◌+◌, List, length};
ghost use Rattle.qz_board.specs.declared.glance.Glance.{Glance};

use crate::glance::Glance;

/// What a board is about: the kind of the histories that it shows. Mostly a type without values, so that one board can
/// show values of several types, as a store and the value that holds it.
pub trait Subject {
    type Entry;

    /// What a history begins with, as plain data that no entry changes.
    type Ground;

    // How many entries came before those that a history lists.
    ghost before: { Self.Ground → ℕ };

    // What a history on this basis shows.
    ghost glance_of: { Self.Ground → List Self.Entry → Glance };

    // A glance has the number of all entries.
    ghost counted: { (b : Self.Ground) (es : List Self.Entry) → (glance_of b es).entries ≡ before b + length es };
}

/// A value that a board about `K` can show, as a store: it means a list of entries, its history, on a basis.
pub trait Shown<K: Subject> {
    ghost history: { Self → List K.Entry };

    ghost basis: { Self → K.Ground };

    /// The value at a glance. Takes no memory.
    fn glance(&self) -> Glance
        ensures { result ≡ K.glance_of (basis self.now) (history self.now) };
}
