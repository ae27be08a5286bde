//! The fire times of a trigger as a set.
ghost use Rattle.std.specs.Prelude.{◌≡◌, IsTrue};
ghost use Rattle.qz_civil.specs.Timings.{is_timing};

use crate::fire_times::after;
use qz_calendar::Chain;
use qz_civil::{Times, Timing, Zone};

/// The fire times of a trigger, in ms since 1970-01-01T00:00:00Z: a timing in the zone that its kind names, and the calendars
/// that exclude some of its schedule.
#[derive(Clone, Copy)]
pub struct FireTimes<'a, 'c> {
    timing: &'a Timing,
    zone: &'a Zone,
    chain: &'a Chain<'c>,
    ghost valid: { IsTrue (is_timing timing.now) },
}

impl<'a, 'c> FireTimes<'a, 'c> {
    /// Those of a valid timing.
    pub fn new(timing: &'a Timing, zone: &'a Zone, chain: &'a Chain<'c>) -> FireTimes<'a, 'c>
        requires { IsTrue (is_timing timing.now) }
        ensures timing { result.timing.now ≡ timing.now }
        ensures zone { result.zone.now ≡ zone.now }
        ensures chain { result.chain.now ≡ chain.now }
    {
        FireTimes {
            timing,
            zone,
            chain,
        }
    }
}

impl Times for FireTimes<'_, '_> {
    ghost use Rattle.qz_plan.specs.FireTimes.{IsFireTime};

    ghost timestamps = { λ f. IsFireTime f.timing.now f.zone.now f.chain.now };

    fn next(&self, t: i64) -> Option<i64> {
        after(self.timing, self.zone, self.chain, t)
    }
}
