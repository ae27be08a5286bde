//! The next time of the day that meets hours, minutes and seconds.
ghost use Rattle.std.specs.Prelude.{◌≡◌, ◌<◌, ◌≤◌, ◌&&◌, IfSome};
ghost use Rattle.qz_civil.specs.Fields as spec;
ghost use Rattle.qz_civil.specs.Least.{IsFirst};
ghost use Rattle.qz_cron.specs.Search.{meets_in_hour};

use crate::bits::{next_bit, next_bit_if};
use qz_civil::{CronFields, DAY_SECONDS, has_bit};

fn next_in_hour(fields: &CronFields, from: u64) -> Option<u64>
    requires { from < 3600 }
    ensures first { IsFirst (meets_in_hour fields.now) from 3600 result }
    ensures bound { IfSome result (λ v. v < 3600) }
{
    let (minute, second) = (from / 60, from % 60);
    if let Some(low) = next_bit_if(
        has_bit(fields.minutes, minute as u32),
        fields.seconds,
        second,
        60,
    ) {
        return Some(minute * 60 + low);
    }
    let high = next_bit(fields.minutes, minute + 1, 60)?;
    let low = next_bit(fields.seconds, 0, 60)?;
    Some(high * 60 + low)
}

// The same where the hour is in its set, and none where it isn't.
fn next_in_hour_if(passes: bool, fields: &CronFields, from: u64) -> Option<u64>
    requires { from < 3600 }
    ensures first { IsFirst (λ v. passes && meets_in_hour fields.now v) from 3600 result }
    ensures bound { IfSome result (λ v. v < 3600) }
{
    if passes {
        next_in_hour(fields, from)
    } else {
        None
    }
}

/// The first second of the day from `from` on that meets the three fields on it.
#[tactic(auto, unfolding(qz_civil::specs::Fields::meets_time))]
pub fn next_time(fields: &CronFields, from: u64) -> Option<u64>
    requires { from < DAY_SECONDS }
    ensures first { IsFirst (spec.meets_time fields.now) from DAY_SECONDS result }
    ensures bound { IfSome result (λ v. v < DAY_SECONDS) }
{
    let hours = u64::from(fields.hours);
    let (hour, second) = (from / 3600, from % 3600);
    if let Some(low) = next_in_hour_if(has_bit(hours, hour as u32), fields, second) {
        return Some(hour * 3600 + low);
    }
    let high = next_bit(hours, hour + 1, 24)?;
    let low = next_in_hour(fields, 0)?;
    Some(high * 3600 + low)
}
