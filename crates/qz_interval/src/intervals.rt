//! The next fire time by the unit of the interval.
ghost use Rattle.std.specs.Prelude.{◌≡◌, ℕ, ◌*◌, ◌≤◌, ◌<◌, pos, negsuc, ◌≤ℤ◌, IsTrue};
ghost use Rattle.qz_civil.specs.Least.{IsNext};
ghost use Rattle.qz_civil.specs.Timings.{is_every, is_span};
ghost use Rattle.qz_interval.specs.Interval.{IsInterval};
ghost use Rattle.qz_simple.specs.Simple.{IsSimple};

use crate::dated::next_dated;
use crate::turns::Step;
use qz_civil::{LAST, Unit, Zone};

// Even steps of that many ms, whatever the local clock shows.
fn next_even(start: i64, end: Option<i64>, step: u64, after: i64) -> Option<i64>
    requires start { IsTrue (is_span start) }
    requires step { 1 ≤ step }
    requires step_limit { step ≤ 2147483647 * 3600000 }
    requires low { negsuc 0 ≤ℤ after }
    requires high { after ≤ℤ LAST }
    ensures { IsNext LAST (IsSimple start end (pos step) (negsuc 0)) after result }
{
    qz_simple::next(start, end, step as i64, -1, after)
}

/// The least fire time after `after`, up to `LAST`, and `None` where there is none. Moments are in ms since
/// 1970-01-01T00:00:00Z; `start` is 0 to `LONGEST`, `every` is 1 to 2147483647, and `after` is a timestamp or
/// -1. Fire times are `start` and those that follow, before `end`. In seconds, minutes and hours each comes `every` units
/// after the one before. In days, weeks, months and years they are counted from the local date and time of `start`, by
/// the calendar, and where a month has too few days the last one counts. For these four units the flags are those of
/// Quartz's `CalendarIntervalTrigger`. With `preserve` the zone's clock tells the times: of a local time in a fold the
/// earlier moment counts, and one in a gap is left out with `skip`, and else fires when the gap ends. Two in one gap
/// fire once. Without `preserve` a clock tells them that always has the zone's offset at `start`. No memory.
pub fn next(
    start: i64,
    end: Option<i64>,
    unit: Unit,
    every: u32,
    preserve: bool,
    skip: bool,
    zone: &Zone,
    after: i64,
) -> Option<i64>
    requires start { IsTrue (is_span start) }
    requires every { IsTrue (is_every every) }
    requires low { negsuc 0 ≤ℤ after }
    requires high { after ≤ℤ LAST }
    ensures { IsNext LAST (IsInterval start end unit every preserve skip zone.now) after result }
{
    let every = u64::from(every);
    match unit {
        Unit::Second => next_even(start, end, every * 1000, after),
        Unit::Minute => next_even(start, end, every * 60_000, after),
        Unit::Hour => next_even(start, end, every * 3_600_000, after),
        Unit::Day => next_dated(start, end, Step::ByDays(every), preserve, skip, zone, after),
        Unit::Week => next_dated(
            start,
            end,
            Step::ByDays(every * 7),
            preserve,
            skip,
            zone,
            after,
        ),
        Unit::Month => next_dated(
            start,
            end,
            Step::ByMonths(every),
            preserve,
            skip,
            zone,
            after,
        ),
        Unit::Year => next_dated(
            start,
            end,
            Step::ByMonths(every * 12),
            preserve,
            skip,
            zone,
            after,
        ),
    }
}
