//! The days that a calendar lists.
ghost use Rattle.std.specs.Prelude.{◌≡◌, ◌+◌, ◌*◌, ◌≤◌, true, None};
ghost use Rattle.qz_civil.specs.Calendars as rule;
ghost use Rattle.qz_calendar.specs.Exclusions as spec;

use qz_civil::{ANNUAL_LIMIT, Date, HOLIDAY_LIMIT, List, is_annual_day, is_holiday};

fn is_above(before: Option<u32>, n: u32) -> bool
    ensures { result ≡ rule.is_above before n }
{
    match before {
        Some(before) => before < n,
        None => true,
    }
}

/// Whether an annual calendar may have this list: at most `ANNUAL_LIMIT` days of the year as `month * 100 + day`, ascending.
pub fn are_annual_days(days: &[u16]) -> bool
    ensures { result ≡ rule.is_list_of rule.is_annual_day ANNUAL_LIMIT days.now }
{
    if days.len() as u64 > ANNUAL_LIMIT {
        return false;
    }
    let mut before = None;
    for &day in days {
        if !is_annual_day(day) || !is_above(before, u32::from(day)) {
            return false;
        }
        before = Some(u32::from(day));
    }
    true
}

/// Whether a holiday calendar may have this list: at most `HOLIDAY_LIMIT` dates as `year * 10000 + month * 100 + day`,
/// ascending.
pub fn are_holidays(dates: &[u32]) -> bool
    ensures { result ≡ rule.is_list_of rule.is_holiday HOLIDAY_LIMIT dates.now }
{
    if dates.len() as u64 > HOLIDAY_LIMIT {
        return false;
    }
    let mut before = None;
    for &date in dates {
        if !is_holiday(date) || !is_above(before, date) {
            return false;
        }
        before = Some(date);
    }
    true
}

/// Whether the days of the year, as `month * 100 + day` and ascending, have the date's.
pub fn has_day(days: &List<u16>, date: Date) -> bool
    requires { rule.are_above rule.is_annual_day None days.now ≡ true }
    ensures { result ≡ spec.lists days.now (date.month * 100 + date.day) }
{
    let day = u16::from(date.month) * 100 + u16::from(date.day);
    days.as_slice().binary_search(&day).is_ok()
}

/// Whether the dates, as `year * 10000 + month * 100 + day` and ascending, have this one.
pub fn has_date(dates: &List<u32>, date: Date) -> bool
    requires ascending { rule.are_above rule.is_holiday None dates.now ≡ true }
    requires year { date.year ≤ 9999 }
    ensures { result ≡ spec.lists dates.now (date.year * 10000 + date.month * 100 + date.day) }
{
    let number = date.year * 10000 + u32::from(date.month) * 100 + u32::from(date.day);
    dates.as_slice().binary_search(&number).is_ok()
}
