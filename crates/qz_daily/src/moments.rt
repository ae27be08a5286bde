//! The next timestamp of a daily trigger.
ghost use Rattle.std.specs.Prelude.{◌≡◌, ℕ, ◌*◌, ◌<◌, ◌≤◌, ◌^◌, pos, negsuc, ◌≤ℤ◌, ◌<ℤ◌};
ghost use Rattle.qz_civil.specs.Least.{IsFirst, IsNext};
ghost use Rattle.qz_daily.specs.Search.{is_at};
ghost use Rattle.qz_daily.specs.Timestamps.{IsDaily, pattern};

use crate::patterns::Pattern;
use qz_civil::{LAST, SECONDS, Unit, Zone, before_end, second_from};

// The first second of the pattern from `from` on, span by span.
fn first_whole(pattern: &Pattern, zone: &Zone, floor: u64) -> Option<u64>
    requires step { pattern.now.step < 2 ^ 62 }
    requires from { pattern.now.from < 2 ^ 32 }
    requires to { pattern.now.to < 2 ^ 32 }
    ensures { IsFirst (is_at pattern.now zone.now) floor SECONDS result }
{
    let mut start = floor;
    while start < SECONDS {
        let span = zone.span_from(start);
        if let Some(second) = pattern.first_in(start, span) {
            return Some(second);
        }
        start = span.end;
    }
    None
}

// The first second that is later than `after` and not before `start`.
fn floor_of(start: i64, after: i64) -> u64
    requires low { negsuc 0 ≤ℤ after }
    requires high { after ≤ℤ LAST }
    ensures later { after <ℤ pos (result * 1000) }
    ensures started { start ≤ℤ pos (result * 1000) }
    ensures first { (s : ℕ) → start ≤ℤ pos (s * 1000) → after <ℤ pos (s * 1000) → result ≤ s }
{
    second_from((after + 1).max(start))
}

/// The least timestamp of a daily trigger after `after`, in ms since 1970-01-01T00:00:00Z, and `None` where there is none
/// up to `LAST`. It fires at whole seconds from `start` on, before `end`, on the chosen days (bit 0 is Sunday), at the
/// second `from` of the day and every `every` units after it, up to and at the second `to` of the day. Days and times
/// are the zone's: a time that a gap leaves out never comes, and one that a fold repeats comes twice. The unit is a
/// second, a minute or an hour; with a longer one or an `every` of 0 there is no time but `from`. `after` is a timestamp or
/// -1. The rules are those of Quartz's `DailyTimeIntervalTrigger`, whose `endTimeOfDay` is also inclusive. No memory.
pub fn next(
    start: i64,
    end: Option<i64>,
    unit: Unit,
    every: u32,
    from: u32,
    to: u32,
    days: u8,
    zone: &Zone,
    after: i64,
) -> Option<i64>
    requires low { negsuc 0 ≤ℤ after }
    requires high { after ≤ℤ LAST }
    ensures { IsNext LAST (IsDaily start end (pattern unit every from to days) zone.now) after result }
{
    let pattern = Pattern::new(unit, every, from, to, days);
    let second = first_whole(&pattern, zone, floor_of(start, after))?;
    before_end(second * 1000, end)
}
