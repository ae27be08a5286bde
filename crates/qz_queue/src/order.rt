//! Keys that have an order, and what compares two of them.
ghost use Rattle.std.specs.Prelude.{◌≡◌, ℕ, Bool, nat_lt, ⊤};
ghost use Rattle.qz_queue.specs.Order.{IsStrictOrder, CountsOne, KeepsKnown};

use std::marker::Model;

/// A type of keys. Of any two different keys exactly one stands before the other; each implementation proves this. It
/// has no call: keys are compared by a [`Compare`] alone.
pub trait Ranked: Drop {
    ghost stands_before: { Self → Self → Bool };

    ghost order: { IsStrictOrder stands_before };
}

/// What compares two keys that it knows, and counts how often. A count that has reached 2^64 - 1 stays there, so a
/// comparer that doesn't count may say that its count stands there from the first. A key may be a number that stands for
/// something longer; then the comparer knows the keys for which it can look that up.
pub trait Compare<K: Ranked> {
    ghost count: { Self → ℕ };

    // it can compare this key
    ghost Knows: { Self → K → Type 0 };

    /// Whether the first key stands before the second. Takes no memory.
    fn before(&mut self, a: &K, b: &K) -> bool
        requires first { Knows self.old a.now }
        requires second { Knows self.old b.now }
        ensures answer { result ≡ K.stands_before a.now b.now }
        ensures counted { CountsOne (count self.old) (count self.new) }
        ensures known { KeepsKnown (Knows self.old) (Knows self.new) };
}

impl Ranked for u64 {
    ghost use Rattle.qz_queue.specs.Numbers.{nat_order};

    ghost stands_before = { nat_lt };

    ghost order = { nat_order };
}

/// Compares numbers by size, and counts its answers. Contracts see it as that count.
#[derive(Drop)]
pub struct Tally {
    count: u64,
}

impl Model for Tally {
    ghost Value = { ℕ };

    ghost view = { λ t. t.count };
}

impl Tally {
    /// A tally that has compared nothing.
    pub fn new() -> Tally
        ensures { result ≡ 0 }
    {
        Tally { count: 0 }
    }

    /// How many comparisons it has made; 2^64 - 1 also for more.
    pub fn compared(&self) -> u64
        ensures { result ≡ self.now }
    {
        self.count
    }
}

impl Compare<u64> for Tally {
    ghost count = { λ count. count };

    ghost Knows = { λ count key. ⊤ };

    fn before(&mut self, a: &u64, b: &u64) -> bool {
        self.count = self.count.saturating_add(1);
        *a < *b
    }
}
