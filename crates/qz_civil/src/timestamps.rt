//! Sets of timestamps.
ghost use Rattle.std.specs.Prelude.{negsuc, ◌≤ℤ◌};
ghost use Rattle.qz_civil.specs.Least.{IsNext};

use crate::limits::LAST;

/// A set of timestamps, as the schedule of a trigger.
pub trait Times {
    ghost use Rattle.std.specs.Prelude.{ℤ};

    ghost timestamps: { Self → ℤ → Type 0 };

    /// The least timestamp of the set that is later, up to `LAST`, in ms since 1970-01-01T00:00:00Z.
    fn next(&self, after: i64) -> Option<i64>
        requires low { negsuc 0 ≤ℤ after }
        requires high { after ≤ℤ LAST }
        ensures { IsNext LAST (timestamps self.now) after result };
}
