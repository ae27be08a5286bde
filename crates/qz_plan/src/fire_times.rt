//! The fire times of a trigger: its schedule, less what its calendars exclude.
ghost use Rattle.std.specs.Prelude.{◌≡◌, ℤ, negsuc, ◌≤ℤ◌, IsTrue};
ghost use Rattle.qz_civil.specs.Least.{IsNext};
ghost use Rattle.qz_civil.specs.Timings.{is_timing};
ghost use Rattle.qz_plan.specs.FireTimes.{IsFireTime};
ghost use Rattle.qz_plan.specs.Plan.{fire_time_after};

use crate::schedules::scheduled_after;
use qz_calendar::{Chain, next_included};
use qz_civil::{LAST, Timing, Zone};

/// The first fire time of a trigger in the zone that its kind names, which its calendars include: in ms since
/// 1970-01-01T00:00:00Z, up to `LAST`, and `None` where there is none.
pub fn first(timing: &Timing, zone: &Zone, chain: &Chain<'_>) -> Option<i64>
    requires { IsTrue (is_timing timing.now) }
    ensures least { IsNext LAST (IsFireTime timing.now zone.now chain.now) (negsuc 0) result }
    ensures value { result ≡ fire_time_after timing.now zone.now chain.now (negsuc 0) }
{
    after(timing, zone, chain, -1)
}

/// The least such fire time after `t`, which is a timestamp or -1. Where the calendars exclude a time of the schedule,
/// the search goes on from the next timestamp that they include.
pub fn after(timing: &Timing, zone: &Zone, chain: &Chain<'_>, t: i64) -> Option<i64>
    requires timing { IsTrue (is_timing timing.now) }
    requires low { negsuc 0 ≤ℤ t }
    requires high { t ≤ℤ LAST }
    ensures least { IsNext LAST (IsFireTime timing.now zone.now chain.now) t result }
    ensures value { result ≡ fire_time_after timing.now zone.now chain.now t }
{
    let mut last = t;
    while let Some(time) = scheduled_after(timing, zone, last) {
        let next = next_included(chain, time)?;
        if next == time {
            return Some(time);
        }
        last = next - 1;
    }
    None
}
