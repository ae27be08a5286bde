//! The next second of a day that meets none of several cron texts.
ghost use Rattle.std.specs.Prelude.{◌≡◌, ℕ, ◌<◌, ◌≤◌, ◌/◌, ◌%◌, true, not, IfSome};
ghost use Rattle.qz_civil.specs.Fields as spec;
ghost use Rattle.qz_civil.specs.Least.{IsFirst};
ghost use Rattle.qz_calendar.specs.Search.{any_meets, any_meets_at, meets_at};

use crate::bits::next_lacking;
use qz_civil::{CronFields, has_bit};

/// The fields of a cron text on the time of day.
#[derive(Clone, Copy, Default)]
pub struct ClockFields {
    pub seconds: u64,
    pub minutes: u64,
    pub hours: u64,
}

impl ClockFields {
    /// Those of a cron text.
    pub fn of(fields: &CronFields) -> ClockFields
        ensures seconds { result.seconds ≡ fields.now.seconds }
        ensures minutes { result.minutes ≡ fields.now.minutes }
        ensures hours { result.hours ≡ fields.now.hours }
    {
        ClockFields {
            seconds: fields.seconds,
            minutes: fields.minutes,
            hours: u64::from(fields.hours),
        }
    }

    // The seconds that are met in a minute.
    #[tactic(auto, using(crate::proofs::ClockSets::clock_sets))]
    fn seconds_in(&self, hour: u64, minute: u64) -> u64
        requires hour { hour < 24 }
        requires minute { minute < 60 }
        ensures { (s : ℕ) → spec.has_bit result s ≡ meets_at self.now hour minute s }
    {
        if has_bit(self.hours, hour as u32) && has_bit(self.minutes, minute as u32) {
            self.seconds
        } else {
            0
        }
    }

    // The seconds that are met in each minute, where the fields ask for no hour and no minute.
    #[tactic(auto, using(crate::proofs::ClockSets::clock_sets))]
    fn seconds_always(&self) -> u64
        ensures { (h m s : ℕ) → h < 24 → m < 60 → spec.has_bit result s ≡ true → meets_at self.now h m s ≡ true }
    {
        if next_lacking(self.hours, 0, 24).is_none()
            && next_lacking(self.minutes, 0, 60).is_none()
        {
            self.seconds
        } else {
            0
        }
    }
}

// The seconds of a minute that meet some of the fields.
fn seconds_met(fields: &[ClockFields], hour: u64, minute: u64) -> u64
    requires hour { hour < 24 }
    requires minute { minute < 60 }
    ensures { (s : ℕ) → spec.has_bit result s ≡ any_meets_at fields.now hour minute s }
{
    let mut met = 0;
    for field in fields {
        met |= field.seconds_in(hour, minute);
    }
    met
}

// The first second of the minute from `from` on that meets none of the fields.
fn unmet_in_minute(fields: &[ClockFields], hour: u64, minute: u64, from: u64) -> Option<u64>
    requires hour { hour < 24 }
    requires minute { minute < 60 }
    requires from { from < 60 }
    ensures first { IsFirst (λ s. not (any_meets_at fields.now hour minute s)) from 60 result }
    ensures bound { IfSome result (λ s. s < 60) }
{
    next_lacking(seconds_met(fields, hour, minute), from, 60)
}

// Whether each second of the day meets some of the fields, by those that ask for no hour and no minute.
fn meet_whole_day(fields: &[ClockFields]) -> bool
    ensures { result ≡ true → (s : ℕ) → s < 86400 → any_meets fields.now s ≡ true }
{
    let mut met = 0;
    for field in fields {
        met |= field.seconds_always();
    }
    next_lacking(met, 0, 60).is_none()
}

/// The first second of the day from `from` on that meets none of the fields.
pub fn next_met_by_none(fields: &[ClockFields], from: u64) -> Option<u64>
    requires { from < 86400 }
    ensures first { IsFirst (λ s. not (any_meets fields.now s)) from 86400 result }
    ensures bound { IfSome result (λ s. s < 86400) }
{
    if meet_whole_day(fields) {
        return None;
    }
    let first = from / 60;
    for minute in first..1440 {
        let low = if minute == first { from % 60 } else { 0 };
        if let Some(second) = unmet_in_minute(fields, minute / 60, minute % 60, low) {
            return Some(minute * 60 + second);
        }
    }
    None
}
