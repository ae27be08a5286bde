//! The days of turns, and the turns of days.
ghost use Rattle.std.specs.Prelude.{◌≡◌, ℕ, ◌+◌, ◌*◌, ◌<◌, ◌≤◌, ◌^◌, None, IfSome};
ghost use Rattle.qz_civil.specs.Dates as dates;
ghost use Rattle.qz_civil.specs.Months as months;
ghost use Rattle.qz_interval.specs.Turns as spec;

use crate::turns::Count;
use qz_civil::{Date, END_DAY, LAST_DAY, date_of, day_of, days_in_month, first_occurrence};

// February 2200.
const END_MONTH: u64 = 26401;

/// The number of the date's month, counted from January of the year 0 on.
pub fn month_number(date: Date) -> u64
    requires { 1 ≤ date.month }
    ensures { result ≡ months.month_number date }
{
    u64::from(date.year) * 12 + u64::from(date.month) - 1
}

// The number of the month in which the day lies.
#[tactic(auto, using(qz_civil::proofs::DateLemmas::date_facts))]
fn month_of(day: u64) -> u64
    requires { day ≤ END_DAY }
    ensures value { result ≡ months.month_number (dates.date_of day) }
    ensures bound { result < 2 ^ 32 }
{
    month_number(date_of(day as u32))
}

fn day_in_month(number: u64, day: u8) -> Date
    requires { number < 2 ^ 32 }
    ensures { result ≡ months.day_in_month number day }
{
    let (year, month) = ((number / 12) as u32, (number % 12 + 1) as u8);
    Date {
        year,
        month,
        day: day.min(days_in_month(year, month)),
    }
}

impl Count {
    /// The number of the day, or of the month in which it lies.
    pub fn number_of(self, day: u64) -> u64
        requires { day ≤ END_DAY }
        ensures value { result ≡ spec.number_of self day }
        ensures bound { result < 2 ^ 32 }
    {
        match self {
            Count::Days => day,
            Count::Months { .. } => month_of(day),
        }
    }

    /// A number behind those of all turns that a local clock shows at a timestamp.
    pub fn end(self) -> u64
        ensures late { (number day : ℕ) → result ≤ number → spec.HasNumber self number day → END_DAY ≤ day }
        ensures bound { result ≤ END_DAY }
    {
        match self {
            Count::Days => END_DAY,
            Count::Months { .. } => END_MONTH,
        }
    }

    /// The day with that number, where it isn't a late one.
    pub fn day_of(self, number: u64) -> Option<u64>
        requires { number < END_DAY }
        ensures some { IfSome result (λ day. spec.HasNumber self number day) }
        ensures bound { IfSome result (λ day. day ≤ LAST_DAY) }
        ensures none { result ≡ None → (day : ℕ) → spec.HasNumber self number day → END_DAY ≤ day }
    {
        match self {
            Count::Days => Some(number),
            Count::Months { day } => Some(u64::from(day_of(day_in_month(number, day))?)),
        }
    }
}

/// The first place whose turn isn't below the number.
pub fn place_from(first: u64, step: u64, number: u64) -> u64
    requires first { first < 2 ^ 32 }
    requires step { 1 ≤ step }
    requires step_limit { step < 2 ^ 62 }
    requires number { number < 2 ^ 32 }
    ensures before { (k : ℕ) → k < result → first + k * step < number }
    ensures after { (k : ℕ) → result ≤ k → number ≤ first + k * step }
{
    first_occurrence(first, step, number).unwrap().place
}
