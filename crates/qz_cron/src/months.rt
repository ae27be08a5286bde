//! The next month that meets months and years.
ghost use Rattle.std.specs.Prelude.{◌≡◌, ◌+◌, ◌-◌, ◌^◌, ◌<◌, ◌≤◌, IfSome};
ghost use Rattle.std.specs.Int.{IsInRange};
ghost use Rattle.qz_civil.specs.Dates.{date_of};
ghost use Rattle.qz_civil.specs.Fields.{has_word, in_years};
ghost use Rattle.qz_civil.specs.Least.{IsFirst};
ghost use Rattle.qz_cron.specs.Search.{first_of, meets_month, month_days};

use crate::bits::{next_bit, next_bit_if};
use qz_civil::{CronFields, Date, END_DAY, LAST_YEAR, day_of};

const FIRST_YEAR: u64 = 1970;

// The first year that no text names.
const END_YEAR: u64 = LAST_YEAR as u64 + 1;

const YEARS: u64 = END_YEAR - FIRST_YEAR;

/// January of the first year that a text can name. Months are counted from January of the year 0 on.
pub const FIRST_MONTH: u64 = 12 * FIRST_YEAR;

/// The first month behind those that a text can name.
pub const END_MONTH: u64 = 12 * END_YEAR;

// The first value from `from` on that the set of 256 has.
fn next_in_words(words: &[u64; 4], from: u64) -> Option<u64>
    ensures first { IsFirst (has_word words.now) from 256 result }
    ensures bound { IfSome result (λ v. v < 256) }
{
    let mut low = from;
    while low < 256 {
        let word = low / 64;
        if let Some(bit) = next_bit(words[word as usize], low % 64, 64) {
            return Some(word * 64 + bit);
        }
        low = word * 64 + 64;
    }
    None
}

// The first year from `from` on that is in the set.
fn next_year(fields: &CronFields, from: u64) -> Option<u64>
    ensures first { IsFirst (in_years fields.now) from END_YEAR result }
    ensures bound { IfSome result (λ v. v < END_YEAR) }
{
    let place = next_in_words(&fields.years, from.max(FIRST_YEAR) - FIRST_YEAR)?;
    if place < YEARS {
        Some(FIRST_YEAR + place)
    } else {
        None
    }
}

/// The first month from `from` on that is in the sets of months and years.
pub fn next_month(fields: &CronFields, from: u64) -> Option<u64>
    requires { from < 2 ^ 17 }
    ensures first { IsFirst (meets_month fields.now) from END_MONTH result }
    ensures bound { IfSome result (IsInRange FIRST_MONTH (END_MONTH - 1)) }
{
    let months = u64::from(fields.months);
    let (year, month) = (from / 12, from % 12);
    if let Some(low) = next_bit_if(fields.has_year(year as u32), months, month, 12) {
        return Some(year * 12 + low);
    }
    let high = next_year(fields, year + 1)?;
    let low = next_bit(months, 0, 12)?;
    Some(high * 12 + low)
}

/// The number of the month's first day.
pub fn month_start(number: u64) -> u64
    requires { IsInRange FIRST_MONTH (END_MONTH - 1) number }
    ensures value { date_of result ≡ first_of number }
    ensures bound { result + month_days number ≤ END_DAY }
{
    let first = Date {
        year: (number / 12) as u32,
        month: (number % 12 + 1) as u8,
        day: 1,
    };
    u64::from(day_of(first).unwrap())
}
