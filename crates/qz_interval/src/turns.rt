//! Turns of a local clock.
ghost use Rattle.std.specs.Prelude.{◌<◌, ◌≤◌, ◌^◌};

/// A step of the calendar.
#[derive(Clone, Copy)]
pub enum Step {
    ByDays(u64),
    ByMonths(u64),
}

/// What turns are counted in.
#[derive(Clone, Copy)]
pub enum Count {
    /// Days, numbered from 1969-12-31 on.
    Days,
    /// Months, numbered from January of the year 0 on. The turn is on that day, or on the month's last one where it has
    /// fewer.
    Months { day: u8 },
}

/// Turns at even steps, each at the same time of day.
#[derive(Clone, Copy)]
pub struct Turns {
    pub count: Count,
    /// The number of the first turn's day or month.
    pub first: u64,
    /// How many days or months lie between turns.
    pub step: u64,
    /// In ms of the day.
    pub time: u64,
    ghost begins: { first < 2 ^ 32 },
    ghost steps: { 1 ≤ step },
    ghost step_limit: { step < 2 ^ 62 },
    ghost of_day: { time < 86400000 },
}
