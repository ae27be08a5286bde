//! Daily triggers as sets of timestamps.
use crate::moments::next;
use qz_civil::{Times, Unit, Zone};

/// A daily trigger, as `next` takes it.
#[derive(Clone, Copy)]
pub struct DailyTimes<'a> {
    /// In ms since 1970-01-01T00:00:00Z.
    pub start: i64,
    /// In ms since 1970-01-01T00:00:00Z.
    pub end: Option<i64>,
    pub unit: Unit,
    pub every: u32,
    /// A second of the day.
    pub from: u32,
    /// A second of the day, at which it still fires.
    pub to: u32,
    /// Bit 0 is Sunday.
    pub days: u8,
    pub zone: &'a Zone,
}

impl Times for DailyTimes<'_> {
    ghost use Rattle.qz_daily.specs.Timestamps.{IsDaily, pattern};

    ghost timestamps = { λ d. IsDaily d.start d.end (pattern d.unit d.every d.from d.to d.days) d.zone.now };

    fn next(&self, after: i64) -> Option<i64> {
        next(
            self.start, self.end, self.unit, self.every, self.from, self.to, self.days, self.zone,
            after,
        )
    }
}
