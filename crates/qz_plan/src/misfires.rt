//! What a misfire makes of a trigger.
ghost use Rattle.std.specs.Prelude.{◌≡◌, ℤ, Option, pos, ◌≤ℤ◌, ◌<ℤ◌, ◌≤◌, ◌^◌, IsTrue};
ghost use Rattle.qz_civil.specs.Least.{IsNext};
ghost use Rattle.qz_civil.specs.Timings.{is_timing};
ghost use Rattle.qz_misfire.specs.Table.{moved};
ghost use Rattle.qz_plan.specs.FireTimes.{IsFireTime};
ghost use Rattle.qz_plan.specs.Plan.{fire_time_after};

use crate::times::FireTimes;
use qz_calendar::Chain;
use qz_civil::{LAST, Moved, Timing, Zone};
use qz_misfire::after_misfire;

/// What a misfire makes of a trigger, by the misfire table over the fire times that its calendars include. Its next fire
/// time was `next`, it has fired `times` times, and the misfire is handled at `now`: whether there is one, by the threshold
/// of the store, is for the caller to say. Timestamps are in ms since 1970-01-01T00:00:00Z.
pub fn misfired(
    timing: &Timing,
    zone: &Zone,
    chain: &Chain<'_>,
    next: i64,
    times: u64,
    now: i64,
) -> Moved
    requires timing { IsTrue (is_timing timing.now) }
    requires next { pos 0 ≤ℤ next }
    requires missed { next <ℤ now }
    requires now { now ≤ℤ LAST }
    requires times { times ≤ 2 ^ 63 }
    ensures least { (later : Option ℤ) → IsNext LAST (IsFireTime timing.now zone.now chain.now) now later → result ≡ moved timing.now later next times now }
    ensures value { result ≡ moved timing.now (fire_time_after timing.now zone.now chain.now now) next times now }
{
    let later = FireTimes::new(timing, zone, chain);
    after_misfire(timing, &later, next, times, now)
}
