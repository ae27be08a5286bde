//! The kinds of calendars: what each leaves out of a trigger's schedule.
ghost use Rattle.std.specs.Prelude.{◌≡◌, IfOk};
ghost use Rattle.qz_civil.specs.Calendars as spec;

use crate::dates::days_in_month;
use crate::fields::CronFields;
use crate::limits::LAST_YEAR;
use crate::lists::List;
use std::alloc::AllocError;

/// What a calendar excludes, as Quartz's calendars do. Local times are those of the calendar's zone.
#[derive(Debug, Drop)]
pub enum CalendarKind {
    /// Days of each year, at most `ANNUAL_LIMIT`, as `month * 100 + day`, ascending: Quartz's AnnualCalendar.
    Annual { days: List<u16> },
    /// Dates, at most `HOLIDAY_LIMIT`, as `year * 10000 + month * 100 + day`, ascending: Quartz's HolidayCalendar.
    Holiday { dates: List<u32> },
    /// Days of the week; bit 0 is Sunday: Quartz's WeeklyCalendar.
    Weekly { days: u8 },
    /// Days of the month; bit 0 is the 1st: Quartz's MonthlyCalendar.
    Monthly { days: u32 },
    /// The part of each day from `from` to `to`, both included and in ms of the day, or where it is inverted all but
    /// this part: Quartz's DailyCalendar. Both are 0 to 86399999, `from` at most `to`.
    Daily { from: u32, to: u32, inverted: bool },
    /// The seconds that meet a cron text: Quartz's CronCalendar.
    Cron { fields: CronFields },
}

// The same days again.
#[tactic(auto, using(crate::proofs::CloneLaws::same_items))]
fn copy_days(days: &List<u16>) -> Result<List<u16>, AllocError>
    ensures { IfOk result (λ copy. copy ≡ days.now) }
{
    days.clone()
}

// The same dates again.
#[tactic(auto, using(crate::proofs::CloneLaws::same_items))]
fn copy_dates(dates: &List<u32>) -> Result<List<u32>, AllocError>
    ensures { IfOk result (λ copy. copy ≡ dates.now) }
{
    dates.clone()
}

impl Clone for CalendarKind {
    ghost is_clone = { λ a b. b ≡ a };

    fn clone(&self) -> Result<Self, AllocError> {
        Ok(match self {
            CalendarKind::Annual { days } => CalendarKind::Annual {
                days: copy_days(days)?,
            },
            CalendarKind::Holiday { dates } => CalendarKind::Holiday {
                dates: copy_dates(dates)?,
            },
            CalendarKind::Weekly { days } => CalendarKind::Weekly { days: *days },
            CalendarKind::Monthly { days } => CalendarKind::Monthly { days: *days },
            CalendarKind::Daily { from, to, inverted } => CalendarKind::Daily {
                from: *from,
                to: *to,
                inverted: *inverted,
            },
            CalendarKind::Cron { fields } => CalendarKind::Cron { fields: *fields },
        })
    }
}

/// Whether it is a day of the year as `month * 100 + day`; the 31st of any month is one.
pub fn is_annual_day(n: u16) -> bool
    ensures { result ≡ spec.is_annual_day n }
{
    let (month, day) = (n / 100, n % 100);
    1 <= month && month <= 12 && 1 <= day && day <= 31
}

/// Whether it is a date as `year * 10000 + month * 100 + day`, from 1970 to `LAST_YEAR`.
pub fn is_holiday(n: u32) -> bool
    ensures { result ≡ spec.is_holiday n }
{
    let (year, month, day) = (n / 10000, n / 100 % 100, n % 100);
    if month < 1 || month > 12 {
        return false;
    }
    let last = u32::from(days_in_month(year, month as u8));
    1970 <= year && year <= LAST_YEAR && 1 <= day && day <= last
}
