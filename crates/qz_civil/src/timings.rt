//! When a trigger fires.
ghost use Rattle.std.specs.Prelude.{◌≡◌};
ghost use Rattle.qz_civil.specs.Timings as spec;

use crate::fields::CronFields;
use crate::limits::DAY_SECONDS;
use crate::texts::Text;
use std::alloc::AllocError;

/// What an interval is counted in, as Quartz's `DateBuilder.IntervalUnit`.
#[derive(Clone, Copy, PartialEq, Eq, Debug)]
pub enum Unit {
    Second,
    Minute,
    Hour,
    Day,
    Week,
    Month,
    Year,
}

impl Unit {
    /// How many seconds it has, where that is always the same number: of a second, a minute and an hour.
    #[tactic(auto, unfolding(crate::specs::Timings::seconds))]
    pub fn seconds(self) -> Option<u64>
        ensures { result ≡ spec.seconds self }
    {
        match self {
            Unit::Second => Some(1),
            Unit::Minute => Some(60),
            Unit::Hour => Some(3600),
            Unit::Day | Unit::Week | Unit::Month | Unit::Year => None,
        }
    }

    /// Whether so many of it may be the step of a daily trigger: seconds, minutes or hours, and in all a second to a day.
    #[tactic(auto, unfolding(crate::specs::Timings::is_step))]
    pub fn is_step(self, every: u32) -> bool
        ensures { result ≡ spec.is_step self every }
    {
        match self.seconds() {
            Some(length) => {
                let step = u64::from(every) * length;
                1 <= step && step <= DAY_SECONDS
            }
            None => false,
        }
    }
}

/// A trigger's kind, which gives its schedule. Zones are named, by 1 to `NAME_LIMIT` bytes: `UTC`, or a zone that is
/// stored.
#[derive(Debug, Drop)]
pub enum Kind {
    /// Fires at the start and then every `interval` ms, `count` times more; -1 is without end. `interval` is 1 to
    /// `LONGEST` and `count` is -1 to `COUNT_LIMIT`, or both are 0.
    Simple {
        interval: i64,
        count: i64,
    },
    /// Fires at the seconds whose local time meets the fields.
    Cron {
        fields: CronFields,
        zone: Text,
    },
    /// Fires at the start and then every so many units, 1 to `EVERY_LIMIT`, as the zone's calendar counts them. The two
    /// flags are those of Quartz's `CalendarIntervalTrigger`, for units of a day and longer.
    Interval {
        unit: Unit,
        every: u32,
        zone: Text,
        /// Whether the local time of day stays where the zone's offset changes (`preserveHourOfDayAcrossDaylightSavings`).
        preserve: bool,
        /// With `preserve`: whether a local time that a gap leaves out is skipped (`skipDayIfHourDoesNotExist`), and else
        /// fires when the gap ends.
        skip: bool,
    },
    /// Fires on the chosen days at `from` and then every so many seconds, minutes or hours up to `to`. The unit is one of
    /// these three, a step is 1 s to 24 h, and `from` is at most `to`.
    Daily {
        unit: Unit,
        every: u32,
        /// A second of the day, 0 to 86399.
        from: u32,
        /// A second of the day, 0 to 86399, at which it still fires.
        to: u32,
        /// At least one day. Bit 0 is Sunday.
        days: u8,
        zone: Text,
    },
}

/// A trigger's schedule with its bounds, and what is done about a firing that was missed.
#[derive(Debug, Drop)]
pub struct Timing {
    pub kind: Kind,
    /// The misfire instruction: -1 ignores misfires, 0 chooses by the kind, and the others are the kind's own: up to 5 for
    /// Simple, and up to 2 for the other kinds.
    pub misfire: i8,
    /// In ms since 1970-01-01T00:00:00Z, 0 to `LONGEST`.
    pub start: i64,
    /// In ms since 1970-01-01T00:00:00Z, 0 to `LONGEST`. A cron trigger still fires at it, the others don't.
    pub end: Option<i64>,
}

/// What a misfire makes of a trigger.
#[derive(Clone, Copy, PartialEq, Eq, Debug)]
pub struct Moved {
    /// Its start, in ms since 1970-01-01T00:00:00Z.
    pub start: i64,
    /// Its next fire time, in ms since 1970-01-01T00:00:00Z.
    pub next: Option<i64>,
    /// The count of a simple trigger, and 0 for the other kinds.
    pub count: i64,
    /// How often it has fired, up to 2 to the power of 63.
    pub times: u64,
}

impl Clone for Kind {
    ghost is_clone = { λ a b. b ≡ a };

    fn clone(&self) -> Result<Self, AllocError> {
        Ok(match self {
            Kind::Simple { interval, count } => Kind::Simple {
                interval: *interval,
                count: *count,
            },
            Kind::Cron { fields, zone } => Kind::Cron {
                fields: *fields,
                zone: zone.clone()?,
            },
            Kind::Interval {
                unit,
                every,
                zone,
                preserve,
                skip,
            } => Kind::Interval {
                unit: *unit,
                every: *every,
                zone: zone.clone()?,
                preserve: *preserve,
                skip: *skip,
            },
            Kind::Daily {
                unit,
                every,
                from,
                to,
                days,
                zone,
            } => Kind::Daily {
                unit: *unit,
                every: *every,
                from: *from,
                to: *to,
                days: *days,
                zone: zone.clone()?,
            },
        })
    }
}

impl Clone for Timing {
    ghost is_clone = { λ a b. b ≡ a };

    fn clone(&self) -> Result<Self, AllocError> {
        Ok(Timing {
            kind: self.kind.clone()?,
            misfire: self.misfire,
            start: self.start,
            end: self.end,
        })
    }
}
