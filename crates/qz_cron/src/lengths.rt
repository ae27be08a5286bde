//! The months and years in which a month is long enough for the day of the month.
ghost use Rattle.std.specs.Prelude.{◌≡◌, ℕ, ◌+◌, ◌-◌, ◌<◌, ◌≤◌, ◌%◌, ◌&&◌, true, false};
ghost use Rattle.std.specs.Int.{IsInRange};
ghost use Rattle.qz_civil.specs.Dates.{days_in_month};
ghost use Rattle.qz_civil.specs.Fields.{has_bit, has_word, in_days};
ghost use Rattle.qz_cron.specs.Search.{IsBare, meets_month};

use crate::bits::next_bit;
use qz_civil::{CronFields, DayField, LAST_YEAR};

// Bit 0 is January.
const ALL_MONTHS: u16 = 0b1111_1111_1111;

const FEBRUARY: u16 = 0b0000_0000_0010;

const MONTHS_OF_31: u16 = 0b1010_1101_0101;

// Of the 64 years from 1970, 2034, 2098 or 2162 on, every fourth: all leap years are among them.
const LEAP_YEARS: u64 = 0x4444_4444_4444_4444;

// The fewest days that a month has where one of its days meets the field.
fn least_length(field: DayField) -> u64
    ensures { (length d w : ℕ) → IsInRange 1 length d → in_days field length d w ≡ true → result ≤ length }
{
    match field {
        DayField::Any | DayField::LastWeekday => 0,
        DayField::Set(set) => match next_bit(u64::from(set), 0, 32) {
            Some(bit) => bit + 1,
            None => 32,
        },
        DayField::Last { back } => u64::from(back) + 1,
        DayField::Nearest { day } => u64::from(day),
    }
}

// The months that may have so many days.
fn months_of(length: u64) -> u16
    ensures { (y m : ℕ) → m < 12 → length ≤ days_in_month y (m + 1) → has_bit result m ≡ true }
{
    if length <= 29 {
        ALL_MONTHS
    } else if length <= 30 {
        ALL_MONTHS - FEBRUARY
    } else if length <= 31 {
        MONTHS_OF_31
    } else {
        0
    }
}

fn leap_years(years: &[u64; 4]) -> [u64; 4]
    ensures { (i : ℕ) → i < 256 → has_word result i ≡ (has_word years.now i && has_bit LEAP_YEARS (i % 64)) }
{
    [
        years[0] & LEAP_YEARS,
        years[1] & LEAP_YEARS,
        years[2] & LEAP_YEARS,
        years[3] & LEAP_YEARS,
    ]
}

// Those of the years in which one of the months may have so many days.
fn years_of(years: &[u64; 4], months: u16, length: u64) -> [u64; 4]
    ensures kept { (i : ℕ) → i < 256 → has_word result i ≡ true → has_word years.now i ≡ true }
    ensures left { (y m : ℕ) → IsInRange 1970 LAST_YEAR y → m < 12 → has_bit months m ≡ true
        → length ≤ days_in_month y (m + 1) → has_word years.now (y - 1970) ≡ true
        → has_word result (y - 1970) ≡ true }
{
    if length == 29 && months == FEBRUARY {
        leap_years(years)
    } else {
        *years
    }
}

/// The fields with those of their months and years in which a day may meet the day of the month.
pub fn narrowed(fields: &CronFields) -> CronFields
    ensures kept { (number : ℕ) → meets_month result number ≡ true → meets_month fields.now number ≡ true }
    ensures left { (number : ℕ) → meets_month result number ≡ false → IsBare fields.now number }
{
    let length = least_length(fields.day);
    let months = fields.months & months_of(length);
    CronFields {
        months,
        years: years_of(&fields.years, months, length),
        ..*fields
    }
}
