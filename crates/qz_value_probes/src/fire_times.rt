//! Fire times of single kinds.
ghost use Rattle.std.specs.Prelude.{negsuc, ◌≤ℤ◌, IsTrue};
ghost use Rattle.qz_civil.specs.Least.{IsNext};
ghost use Rattle.qz_civil.specs.Timings.{is_every, is_simple, is_span};
ghost use Rattle.qz_cron.specs.Moments.{IsMatch};
ghost use Rattle.qz_daily.specs.Timestamps.{IsDaily, pattern};
ghost use Rattle.qz_interval.specs.Interval.{IsInterval};
ghost use Rattle.qz_simple.specs.Simple.{IsSimple};

use qz_civil::{CronFields, LAST, Unit, Zone};

/// The next moment of cron fields, as `qz_cron::next` gives it.
pub fn next_of_cron(fields: &CronFields, zone: &Zone, after: i64) -> Option<i64>
    requires low { negsuc 0 ≤ℤ after }
    requires high { after ≤ℤ LAST }
    ensures { IsNext LAST (IsMatch fields.now zone.now) after result }
{
    qz_cron::next(fields, zone, after)
}

/// The next moment of a daily trigger, as `qz_daily::next` gives it.
pub fn next_of_daily(
    start: i64,
    end: Option<i64>,
    unit: Unit,
    every: u32,
    from: u32,
    to: u32,
    days: u8,
    zone: &Zone,
    after: i64,
) -> Option<i64>
    requires low { negsuc 0 ≤ℤ after }
    requires high { after ≤ℤ LAST }
    ensures { IsNext LAST (IsDaily start end (pattern unit every from to days) zone.now) after result }
{
    qz_daily::next(start, end, unit, every, from, to, days, zone, after)
}

/// The next moment of an interval trigger, as `qz_interval::next` gives it.
pub fn next_of_interval(
    start: i64,
    end: Option<i64>,
    unit: Unit,
    every: u32,
    preserve: bool,
    skip: bool,
    zone: &Zone,
    after: i64,
) -> Option<i64>
    requires start { IsTrue (is_span start) }
    requires every { IsTrue (is_every every) }
    requires low { negsuc 0 ≤ℤ after }
    requires high { after ≤ℤ LAST }
    ensures { IsNext LAST (IsInterval start end unit every preserve skip zone.now) after result }
{
    qz_interval::next(start, end, unit, every, preserve, skip, zone, after)
}

/// The next moment of a simple trigger, as `qz_simple::next` gives it.
pub fn next_of_simple(
    start: i64,
    end: Option<i64>,
    interval: i64,
    count: i64,
    after: i64,
) -> Option<i64>
    requires start { IsTrue (is_span start) }
    requires repeats { IsTrue (is_simple interval count) }
    requires low { negsuc 0 ≤ℤ after }
    requires high { after ≤ℤ LAST }
    ensures { IsNext LAST (IsSimple start end interval count) after result }
{
    qz_simple::next(start, end, interval, count, after)
}
