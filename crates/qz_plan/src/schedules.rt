//! The schedule of a timing, whatever its calendars exclude.
ghost use Rattle.std.specs.Prelude.{◌≡◌, negsuc, ◌≤ℤ◌, IsTrue};
ghost use Rattle.qz_civil.specs.Least.{IsNext};
ghost use Rattle.qz_civil.specs.Timings.{is_timing};
ghost use Rattle.qz_plan.specs.Schedule.{IsScheduled};

use crate::crons::cron_after;
use qz_civil::{Kind, LAST, Timing, Zone};

/// The least timestamp of the schedule after `after`, up to `LAST`, in the zone that the kind names, and `None` where
/// there is none. Both are in ms since 1970-01-01T00:00:00Z, and `after` is a timestamp or -1.
pub(crate) fn scheduled_after(timing: &Timing, zone: &Zone, after: i64) -> Option<i64>
    requires timing { IsTrue (is_timing timing.now) }
    requires low { negsuc 0 ≤ℤ after }
    requires high { after ≤ℤ LAST }
    ensures { IsNext LAST (IsScheduled timing.now zone.now) after result }
{
    let (start, end) = (timing.start, timing.end);
    match &timing.kind {
        Kind::Simple { interval, count } => {
            qz_simple::next(start, end, *interval, *count, after)
        }
        Kind::Cron { fields, zone: _ } => cron_after(fields, zone, start, end, after),
        Kind::Interval {
            unit,
            every,
            zone: _,
            preserve,
            skip,
        } => qz_interval::next(start, end, *unit, *every, *preserve, *skip, zone, after),
        Kind::Daily {
            unit,
            every,
            from,
            to,
            days,
            zone: _,
        } => qz_daily::next(start, end, *unit, *every, *from, *to, *days, zone, after),
    }
}
