//! Clocks that threads share.
ghost use Rattle.std.specs.Prelude.{◌≡◌};

use std::sync::Wait;

/// A clock that any thread reads.
pub trait SharedClock: Drop {
    ghost use Rattle.std.specs.Prelude.{ℤ};

    /// Whether the clock shows this reading.
    ghost shows: { Self → ℤ → Type 0 };

    /// A reading, in ms since 1970-01-01T00:00:00Z. A later one may be less.
    fn now(&self) -> i64
        ensures { shows self.now result };

    /// Rests for so many ms at most. It may return at once.
    fn rest<R: Wait>(&self, rt: &R, millis: u32);
}

/// A clock that stands still: it shows one reading, and returns from a rest at once.
#[derive(Drop)]
pub struct StillClock {
    at: i64,
}

impl StillClock {
    /// A clock that shows this reading, in ms since 1970-01-01T00:00:00Z.
    pub fn new(at: i64) -> StillClock
        ensures { result.at ≡ at }
    {
        StillClock { at }
    }
}

impl SharedClock for StillClock {
    ghost use Rattle.std.specs.Prelude.{◌≡◌};

    ghost shows = { λ c reading. reading ≡ c.at };

    fn now(&self) -> i64 {
        self.at
    }

    fn rest<R: Wait>(&self, _rt: &R, _millis: u32) {}
}
