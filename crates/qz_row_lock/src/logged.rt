//! Values that have a history.
ghost use Rattle.std.specs.Prelude.{◌≡◌, ℕ, List, Bool, length};

/// A value that can stand under a [`RowLock`](crate::RowLock), as a store does: it means a list of entries, its
/// history. Each entry bears the number of the seat that added it.
pub trait Logged {
    type Entry;

    /// Plain data that the value was made with, and that no entry changes.
    type Ground;

    ghost history: { Self → List Self.Entry };

    ghost number: { Self.Entry → ℕ };

    ghost is_shut: { Self → Bool };

    ghost basis: { Self → Self.Ground };

    /// How many entries the history has. Takes no memory.
    fn entries(&self) -> u64
        ensures { result ≡ length (history self.now) };

    /// Whether the value takes no entry any more, as a store after a fault of its disk. Takes no memory.
    fn shut(&self) -> bool
        ensures { result ≡ is_shut self.now };
}
