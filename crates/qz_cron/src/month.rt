//! The days of one month that meet the day of the month and the day of the week.
ghost use Rattle.std.specs.Prelude.{◌≡◌, ◌+◌, ◌-◌, ◌^◌, ◌<◌, ◌≤◌, ◌==◌, Bool, true, IfSome, max};
ghost use Rattle.std.specs.Int.{IsInRange};
ghost use Rattle.qz_civil.specs.Dates.{date_of};
ghost use Rattle.qz_civil.specs.Fields.{has_bit as has_value, in_days, in_week, nearest};
ghost use Rattle.qz_civil.specs.Least.{IsFirst};
ghost use Rattle.qz_civil.specs.declared.limits.TheConstants.{END_DAY};
ghost use Rattle.qz_cron.specs.Search.{first_of, meets_in_month, month_days, weekday_in};

use crate::bits::next_bit;
use crate::months::{END_MONTH, FIRST_MONTH, month_start};
use qz_civil::{CronFields, DayField, END_DAY, WeekField, days_in_month, has_bit, nearest_weekday};

/// A month of the calendar. Its days are numbered from 1.
#[derive(Clone, Copy)]
pub struct Month {
    /// The number of its first day, counted from 1969-12-31.
    pub start: u64,
    /// How many days it has.
    pub length: u64,
    ghost within: { start + length ≤ END_DAY },
    ghost lasts: { IsInRange 28 31 length },
}

impl Month {
    /// The month of that number, counted from January of the year 0 on.
    pub fn numbered(number: u64) -> Month
        requires { IsInRange FIRST_MONTH (END_MONTH - 1) number }
        ensures start { date_of result.start ≡ first_of number }
        ensures length { result.length ≡ month_days number }
    {
        Month {
            start: month_start(number),
            length: u64::from(days_in_month((number / 12) as u32, (number % 12 + 1) as u8)),
        }
    }

    fn weekday(self, day: u64) -> u64
        requires { IsInRange 1 (2 ^ 32) day }
        ensures value { result ≡ weekday_in self.start day }
        ensures bound { IsInRange 1 7 result }
    {
        (self.start + day + 2) % 7 + 1
    }

    // The first day from `low` to `high`, within a week, that has the weekday.
    fn next_weekday(self, weekday: u8, low: u64, high: u64) -> Option<u64>
        requires low { IsInRange 1 (2 ^ 32) low }
        requires week { high < low + 7 }
        ensures { IsFirst (λ d. weekday_in self.start d == weekday) low (high + 1) result }
    {
        let weekday = u64::from(weekday);
        if high < low || weekday < 1 || 7 < weekday {
            return None;
        }
        let day = low + (weekday + 7 - self.weekday(low)) % 7;
        if day <= high { Some(day) } else { None }
    }

    // The first day from `low` on whose weekday is in the set.
    fn next_weekday_of(self, set: u8, low: u64) -> Option<u64>
        requires { IsInRange 1 (2 ^ 32) low }
        ensures { IsFirst (λ d. has_value set (weekday_in self.start d - 1)) low (self.length + 1) result }
    {
        for day in low..self.length + 1 {
            if has_bit(u64::from(set), (self.weekday(day) - 1) as u32) {
                return Some(day);
            }
        }
        None
    }

    // The first day from `low` on that meets the day of the week.
    fn next_by_week(self, field: WeekField, low: u64) -> Option<u64>
        requires { IsInRange 1 (2 ^ 32) low }
        ensures { IsFirst (λ d. in_week field self.length d (weekday_in self.start d)) low (self.length + 1) result }
    {
        match field {
            WeekField::Any => self.any_from(low),
            WeekField::Set(set) => self.next_weekday_of(set, low),
            WeekField::Last { day } => self.next_weekday(
                day,
                low.max(self.length - 6),
                self.length,
            ),
            WeekField::Nth { day, nth } => {
                let end = 7 * u64::from(nth);
                self.next_weekday(day, low.max(end.saturating_sub(6)), end.min(self.length))
            }
        }
    }

    fn any_from(self, low: u64) -> Option<u64>
        ensures { IsFirst (λ d. true) low (self.length + 1) result }
    {
        if low <= self.length { Some(low) } else { None }
    }

    // The day, where it is one of the month and isn't before `low`.
    fn only_from(self, day: u64, low: u64) -> Option<u64>
        ensures { IsFirst (λ d. d == day) low (self.length + 1) result }
    {
        if low <= day && day <= self.length {
            Some(day)
        } else {
            None
        }
    }

    // The day from Monday to Friday that is nearest to the day.
    fn nearest_to(self, day: u64) -> u64
        requires { IsInRange 1 self.length day }
        ensures { result ≡ nearest self.length day (weekday_in self.start day) }
    {
        let weekday = self.weekday(day) as u32;
        u64::from(nearest_weekday(self.length as u32, day as u32, weekday))
    }

    // The first day from `low` on that meets the day of the month.
    fn next_by_day(self, field: DayField, low: u64) -> Option<u64>
        requires { IsInRange 1 (2 ^ 32) low }
        ensures { IsFirst (λ d. in_days field self.length d (weekday_in self.start d)) low (self.length + 1) result }
    {
        match field {
            DayField::Any => self.any_from(low),
            DayField::Set(set) => {
                let bit = next_bit(u64::from(set), low - 1, self.length)?;
                Some(bit + 1)
            }
            DayField::Last { back } => self.only_from(
                self.length.saturating_sub(u64::from(back)),
                low,
            ),
            DayField::LastWeekday => self.only_from(self.nearest_to(self.length), low),
            DayField::Nearest { day } => {
                let day = u64::from(day);
                if day < 1 || self.length < day {
                    return None;
                }
                self.only_from(self.nearest_to(day), low)
            }
        }
    }

    /// The first day from `low` on that meets both.
    pub fn next_day(self, fields: &CronFields, low: u64) -> Option<u64>
        requires { IsInRange 1 (2 ^ 32) low }
        ensures { IsFirst (meets_in_month fields.now self.length self.start) low (self.length + 1) result }
    {
        let mut day = self.next_by_day(fields.day, low)?;
        while let Some(there) = self.next_by_week(fields.week, day) {
            if there == day {
                return Some(day);
            }
            day = self.next_by_day(fields.day, there)?;
            if day == there {
                return Some(there);
            }
        }
        None
    }

    /// The same among days that are counted from 1969-12-31 on.
    pub fn next_from(self, fields: &CronFields, from: u64) -> Option<u64>
        requires { from ≤ END_DAY }
        ensures { IsFirst (λ k. meets_in_month fields.now self.length self.start (k + 1 - self.start)) (max from self.start) (self.start + self.length) result }
    {
        let day = self.next_day(fields, from.max(self.start) + 1 - self.start)?;
        Some(self.start + day - 1)
    }
}
