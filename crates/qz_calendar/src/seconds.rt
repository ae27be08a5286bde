//! The next second of a day that doesn't meet the fields of a cron text.
ghost use Rattle.std.specs.Prelude.{◌≡◌, ℕ, ◌<◌, ◌≤◌, ◌&&◌, not, true, IfSome};
ghost use Rattle.qz_civil.specs.Fields as spec;
ghost use Rattle.qz_civil.specs.Least.{IsFirst};
ghost use Rattle.qz_calendar.specs.Search.{meets_in_hour};

use crate::bits::next_lacking;
use qz_civil::{CronFields, has_bit};

// The first second of the minute from `from` on that isn't met.
fn unmet_in_minute(fields: &CronFields, minute: u64, from: u64) -> Option<u64>
    requires minute { minute < 60 }
    requires from { from < 60 }
    ensures first { IsFirst (λ s. not (spec.has_bit fields.now.minutes minute && spec.has_bit fields.now.seconds s)) from 60 result }
    ensures bound { IfSome result (λ s. s < 60) }
{
    if has_bit(fields.minutes, minute as u32) {
        next_lacking(fields.seconds, from, 60)
    } else {
        Some(from)
    }
}

// Whether each second of each minute is met.
fn meets_whole_hour(fields: &CronFields) -> bool
    ensures { result ≡ true → (s : ℕ) → s < 3600 → meets_in_hour fields.now s ≡ true }
{
    next_lacking(fields.minutes, 0, 60).is_none() && next_lacking(fields.seconds, 0, 60).is_none()
}

// The first second of the hour from `from` on that minutes and seconds don't meet.
fn unmet_in_hour(fields: &CronFields, from: u64) -> Option<u64>
    requires { from < 3600 }
    ensures first { IsFirst (λ s. not (meets_in_hour fields.now s)) from 3600 result }
    ensures bound { IfSome result (λ s. s < 3600) }
{
    if meets_whole_hour(fields) {
        return None;
    }
    let first = from / 60;
    for minute in first..60 {
        let low = if minute == first { from % 60 } else { 0 };
        if let Some(second) = unmet_in_minute(fields, minute, low) {
            return Some(minute * 60 + second);
        }
    }
    None
}

// The same of an hour of the day.
fn unmet_in(fields: &CronFields, hour: u64, from: u64) -> Option<u64>
    requires hour { hour < 24 }
    requires from { from < 3600 }
    ensures first { IsFirst (λ s. not (spec.has_bit fields.now.hours hour && meets_in_hour fields.now s)) from 3600 result }
    ensures bound { IfSome result (λ s. s < 3600) }
{
    if has_bit(u64::from(fields.hours), hour as u32) {
        unmet_in_hour(fields, from)
    } else {
        Some(from)
    }
}

/// The first second of the day from `from` on that doesn't meet the three fields on it.
#[tactic(auto, unfolding(qz_civil::specs::Fields::meets_time))]
pub fn next_unmet(fields: &CronFields, from: u64) -> Option<u64>
    requires { from < 86400 }
    ensures first { IsFirst (λ s. not (spec.meets_time fields.now s)) from 86400 result }
    ensures bound { IfSome result (λ s. s < 86400) }
{
    let first = from / 3600;
    for hour in first..24 {
        let low = if hour == first { from % 3600 } else { 0 };
        if let Some(second) = unmet_in(fields, hour, low) {
            return Some(hour * 3600 + second);
        }
    }
    None
}
