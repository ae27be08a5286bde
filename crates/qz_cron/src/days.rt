//! The next day that meets years, months, days and weekdays.
ghost use Rattle.std.specs.Prelude.{◌≡◌, ◌+◌, ◌^◌, ◌<◌, ◌≤◌, IfSome};
ghost use Rattle.qz_civil.specs.Dates.{date_of as date_after};
ghost use Rattle.qz_civil.specs.Least.{IsFirst};
ghost use Rattle.qz_civil.specs.Months.{month_number};
ghost use Rattle.qz_cron.specs.Search.{meets_day as passes};

use crate::lengths::narrowed;
use crate::month::Month;
use crate::months::next_month;
use qz_civil::{CronFields, END_DAY, date_of, weekday_of};

// The number of the month in which the day lies.
#[tactic(auto, using(qz_civil::proofs::DateLemmas::date_facts))]
fn month_of(day: u64) -> u64
    requires { day ≤ END_DAY }
    ensures value { result ≡ month_number (date_after day) }
    ensures bound { result < 2 ^ 17 }
{
    let date = date_of(day as u32);
    u64::from(date.year) * 12 + u64::from(date.month) - 1
}

/// Whether the day meets the four fields.
#[tactic(auto, using(qz_civil::proofs::DateLemmas::date_facts))]
pub fn meets_day(fields: &CronFields, day: u64) -> bool
    requires { day ≤ END_DAY }
    ensures { result ≡ passes fields.now day }
{
    let date = date_of(day as u32);
    fields.meets_date(date, weekday_of(day as u32))
}

/// The first day from `from` on that meets the four fields. Days are counted from 1969-12-31 on.
pub fn next_day(fields: &CronFields, from: u64) -> Option<u64>
    requires { from ≤ END_DAY }
    ensures first { IsFirst (passes fields.now) from END_DAY result }
    ensures bound { IfSome result (λ v. v < END_DAY) }
{
    let listed = narrowed(fields);
    let mut number = month_of(from);
    while let Some(found) = next_month(&listed, number) {
        let month = Month::numbered(found);
        if let Some(day) = month.next_from(fields, from) {
            return Some(day);
        }
        number = found + 1;
    }
    None
}
