//! Sets of timestamps up to a horizon.
ghost use Rattle.std.specs.Prelude.{◌≡◌, ◌≤ℤ◌};
ghost use Rattle.qz_model.specs.Plan.{within};

use qz_civil::Times;

/// The timestamps of a set that don't come after the horizon, in ms since 1970-01-01T00:00:00Z.
#[derive(Clone, Copy)]
pub struct UpTo<T> {
    pub times: T,
    pub horizon: i64,
}

impl<T: Times> Times for UpTo<T> {
    ghost timestamps = { λ u t. T.timestamps u.times t × (t ≤ℤ u.horizon) };

    #[tactic(auto, using(crate::proofs::UpToHorizon::up_to))]
    fn next(&self, after: i64) -> Option<i64> {
        within(self.horizon, self.times.next(after))
    }
}

/// The time, unless it comes after the horizon.
pub fn within(horizon: i64, time: Option<i64>) -> Option<i64>
    ensures { result ≡ within horizon time }
{
    match time {
        Some(time) if time <= horizon => Some(time),
        _ => None,
    }
}
