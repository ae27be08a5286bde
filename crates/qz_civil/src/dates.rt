//! Dates and civil times of the Gregorian calendar.
ghost use Rattle.std.specs.Prelude.{◌≡◌, ◌≢◌, ◌↔◌, ℕ, ◌+◌, ◌*◌, ◌<◌, ◌≤◌, pos, negsuc, ◌+ℤ◌, ◌≤ℤ◌, IsTrue, IfNone, IfSome};
ghost use Rattle.std.specs.Int.{IsInRange};
ghost use Rattle.jiff_core.specs.Calendar.{IsBetween, IsEpochDay, days_from_civil};
ghost use Rattle.jiff_core.specs.Date.{epoch_day};
ghost use Rattle.qz_civil.specs.Dates as spec;

use crate::limits::{DAY_MS, DAY_SECONDS, LAST_DAY};
use jiff_core::civil;

/// A date from 1969-12-31 on, the first one that a timestamp shows in any zone.
#[derive(Clone, Copy, PartialEq, Eq, Debug)]
pub struct Date {
    pub year: u32,
    /// From 1 for January.
    pub month: u8,
    pub day: u8,
}

/// A local date and time of day.
#[derive(Clone, Copy, PartialEq, Eq, Debug)]
pub struct Civil {
    pub year: i32,
    /// From 1 for January.
    pub month: u8,
    pub day: u8,
    /// From 1 for Sunday, as in Quartz's cron texts.
    pub weekday: u8,
    /// The second of the day, from 0 to 86399.
    pub second: u32,
    pub milli: u16,
}

/// The number of the month's last day.
#[tactic(auto, unfolding(crate::specs::Dates::days_in_month))]
pub fn days_in_month(year: u32, month: u8) -> u8
    ensures value { result ≡ spec.days_in_month year month }
    ensures bound { IsInRange 28 31 result }
{
    match month {
        2 => if is_leap_year(year) { 29 } else { 28 },
        4 | 6 | 9 | 11 => 30,
        _ => 31,
    }
}

fn is_leap_year(year: u32) -> bool
    ensures { result ≡ spec.is_leap_year year }
{
    year % 4 == 0 && (year % 100 != 0 || year % 400 == 0)
}

/// The date that many days after 1969-12-31.
pub fn date_of(day: u32) -> Date
    requires { day ≤ LAST_DAY }
    ensures value { result ≡ spec.date_of day }
    ensures bound { result.year ≤ 9999 }
{
    let date = numbered_date(day);
    Date {
        year: date.year as u32,
        month: date.month,
        day: date.day,
    }
}

// The library's date of a day.
fn numbered_date(day: u32) -> civil::Date
    requires { day ≤ LAST_DAY }
    ensures day { epoch_day result +ℤ pos 1 ≡ pos day }
    ensures year { IsBetween (pos 0) (pos 9999) result.year }
{
    epoch_date(day)
}

fn epoch_date(day: u32) -> civil::Date
    requires { day ≤ LAST_DAY }
    ensures { epoch_day result +ℤ pos 1 ≡ pos day }
{
    civil::Date::from_unix_epoch_day(i64::from(day) - 1).unwrap()
}

/// The weekday of the date that many days after 1969-12-31, from 1 for Sunday.
pub fn weekday_of(day: u32) -> u8
    requires { day ≤ LAST_DAY }
    ensures { result ≡ spec.weekday_of day }
{
    ((day + 3) % 7 + 1) as u8
}

/// How many days after 1969-12-31 the date is. None where it is earlier, later than the year 9999, or no date of the
/// calendar.
pub fn day_of(date: Date) -> Option<u32>
    ensures found { IfSome result (λ day. spec.date_of day ≡ date) }
    ensures bound { IfSome result (λ day. day ≤ LAST_DAY) }
    ensures none { IfNone result ((day : ℕ) → day ≤ LAST_DAY → spec.date_of day ≢ date) }
{
    if !is_known(date) {
        return None;
    }
    let number = epoch_day_of(date);
    if number < -1 {
        return None;
    }
    Some(day_numbered(number))
}

// The day that has the library's number.
fn day_numbered(number: i32) -> u32
    requires low { negsuc 0 ≤ℤ number }
    requires high { IsEpochDay number }
    ensures value { pos result ≡ number +ℤ pos 1 }
    ensures bound { result ≤ LAST_DAY }
{
    (number + 1) as u32
}

// Whether the date is one of the library's.
fn is_known(date: Date) -> bool
    ensures { IsTrue result ↔ (spec.IsDate date × (date.year ≤ 9999)) }
{
    1 <= date.month
        && date.month <= 12
        && 1 <= date.day
        && date.day <= days_in_month(date.year, date.month)
        && date.year <= 9999
}

// The library's number of the date.
fn epoch_day_of(date: Date) -> i32
    requires date { spec.IsDate date }
    requires year { date.year ≤ 9999 }
    ensures value { result ≡ days_from_civil (pos date.year) date.month date.day }
    ensures bound { IsEpochDay result }
{
    civil::Date::constrain(date.year as i16, date.month, date.day).to_unix_epoch_day()
}

// The civil time that is that many ms after 1969-12-31T00:00:00.
pub(crate) fn civil_of(local: u64) -> Civil
    requires { local < DAY_MS * (LAST_DAY + 1) }
    ensures { result ≡ spec.civil_of local }
{
    let day = (local / DAY_MS) as u32;
    let date = date_of(day);
    Civil {
        year: date.year as i32,
        month: date.month,
        day: date.day,
        weekday: weekday_of(day),
        second: (local % DAY_MS / 1000) as u32,
        milli: (local % 1000) as u16,
    }
}

// How many ms after 1969-12-31T00:00:00 the civil time is. None where it isn't one of the calendar from then on.
pub(crate) fn local_of(civil: Civil) -> Option<u64>
    ensures found { IfSome result (λ local. spec.civil_of local ≡ civil) }
    ensures bound { IfSome result (λ local. local < DAY_MS * (LAST_DAY + 1)) }
    ensures none { IfNone result ((local : ℕ) → local < DAY_MS * (LAST_DAY + 1) → spec.civil_of local ≢ civil) }
{
    if !is_in_range(civil) {
        return None;
    }
    let day = day_of(date_part(civil))?;
    if civil.weekday != weekday_of(day) {
        return None;
    }
    Some(u64::from(day) * DAY_MS + u64::from(civil.second) * 1000 + u64::from(civil.milli))
}

// Whether the parts that no calendar is needed for are in their ranges.
fn is_in_range(civil: Civil) -> bool
    ensures { IsTrue result ↔ spec.IsInRanges civil }
{
    0 <= civil.year && u64::from(civil.second) < DAY_SECONDS && civil.milli < 1000
}

// The civil time's date.
pub(crate) fn date_part(civil: Civil) -> Date
    requires { pos 0 ≤ℤ civil.year }
    ensures { result ≡ spec.date_part civil }
{
    Date {
        year: civil.year as u32,
        month: civil.month,
        day: civil.day,
    }
}
