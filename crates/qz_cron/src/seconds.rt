//! The next second of a local clock that meets the fields.
ghost use Rattle.std.specs.Prelude.{◌≡◌, ◌<◌, ◌≤◌, ◌&&◌, IfSome};
ghost use Rattle.qz_civil.specs.Fields.{meets_time};
ghost use Rattle.qz_civil.specs.Least.{IsFirst};
ghost use Rattle.qz_cron.specs.Search.{meets_day as passes, meets_second};

use crate::days::{meets_day, next_day};
use crate::times::next_time;
use qz_civil::{CronFields, DAY_SECONDS, END_DAY};

/// The first second of that day, which no timestamp shows.
pub const END_SECOND: u64 = DAY_SECONDS * END_DAY;

// The first second of that day from `second` on that meets the fields.
fn next_today(fields: &CronFields, day: u64, second: u64) -> Option<u64>
    requires day { day < END_DAY }
    requires second { second < DAY_SECONDS }
    ensures first { IsFirst (λ v. passes fields.now day && meets_time fields.now v) second DAY_SECONDS result }
    ensures bound { IfSome result (λ v. v < DAY_SECONDS) }
{
    let low = next_time(fields, second)?;
    if meets_day(fields, day) {
        Some(low)
    } else {
        None
    }
}

/// The first second from `from` on that meets the fields. Seconds are those of a local clock, counted from
/// 1969-12-31T00:00:00 on.
pub fn next_second(fields: &CronFields, from: u64) -> Option<u64>
    requires { from < END_SECOND }
    ensures first { IsFirst (meets_second fields.now) from END_SECOND result }
    ensures bound { IfSome result (λ v. v < END_SECOND) }
{
    let day = from / DAY_SECONDS;
    if let Some(low) = next_today(fields, day, from % DAY_SECONDS) {
        return Some(day * DAY_SECONDS + low);
    }
    let low = next_time(fields, 0)?;
    let high = next_day(fields, day + 1)?;
    Some(high * DAY_SECONDS + low)
}
