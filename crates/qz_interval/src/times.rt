//! The fire times of a calendar-interval trigger as a set.
ghost use Rattle.std.specs.Prelude.{◌≡◌, IsTrue};
ghost use Rattle.qz_civil.specs.Timings.{is_every, is_span};

use crate::intervals;
use qz_civil::{Times, Unit, Zone};

/// The fire times of a calendar-interval trigger in a zone, in ms since 1970-01-01T00:00:00Z.
#[derive(Clone, Copy)]
pub struct IntervalTimes<'a> {
    start: i64,
    end: Option<i64>,
    unit: Unit,
    every: u32,
    preserve: bool,
    skip: bool,
    zone: &'a Zone,
    ghost span: { IsTrue (is_span start) },
    ghost units: { IsTrue (is_every every) },
}

impl<'a> IntervalTimes<'a> {
    /// The fire times from `start` on, every so many units by the zone's clock and the flags, before `end`. `start` is 0 to `LONGEST`, and
    /// `every` is 1 to 2147483647.
    pub fn new(
        start: i64,
        end: Option<i64>,
        unit: Unit,
        every: u32,
        preserve: bool,
        skip: bool,
        zone: &'a Zone,
    ) -> IntervalTimes<'a>
        requires start { IsTrue (is_span start) }
        requires every { IsTrue (is_every every) }
        ensures start { result.start ≡ start }
        ensures end { result.end ≡ end }
        ensures unit { result.unit ≡ unit }
        ensures every { result.every ≡ every }
        ensures preserve { result.preserve ≡ preserve }
        ensures skip { result.skip ≡ skip }
        ensures zone { result.zone.now ≡ zone.now }
    {
        IntervalTimes {
            start,
            end,
            unit,
            every,
            preserve,
            skip,
            zone,
        }
    }
}

impl Times for IntervalTimes<'_> {
    ghost use Rattle.qz_interval.specs.Interval.{IsInterval};

    ghost timestamps = { λ s. IsInterval s.start s.end s.unit s.every s.preserve s.skip s.zone.now };

    fn next(&self, after: i64) -> Option<i64> {
        intervals::next(
            self.start,
            self.end,
            self.unit,
            self.every,
            self.preserve,
            self.skip,
            self.zone,
            after,
        )
    }
}
