//! Quarters of an hour, at which the table of a rule may change.
ghost use Rattle.std.specs.Prelude.{◌≡◌, ◌<◌, ◌≤◌, ◌<ℤ◌, ℕ, pos};
ghost use Rattle.jiff_tz.specs.declared.timezone.TimeZone.TheVariants.{Posix};
ghost use Rattle.jiff_tz.specs.Year.{year_of_nanos};
ghost use Rattle.qz_zone_rule.specs.Tables as spec;

use jiff_core::Timestamp;
use jiff_core::civil::Date;
use jiff_tz::posix::TimeZone;
use qz_civil::{LAST, Stretch};

/// How long a quarter of an hour lasts, in ms.
pub const QUARTER: i64 = 900_000;

/// How many quarters of an hour begin at a timestamp that the scheduler knows.
pub const QUARTERS: u32 = (LAST / QUARTER) as u32 + 1;

const QUARTERS_OF_DAY: u32 = 96;

/// The instant at which a quarter begins.
fn instant(place: u32) -> Timestamp
    requires { place < QUARTERS }
    ensures { result.nanosecond ≡ spec.nanosecond place }
{
    Timestamp::from_nanosecond(i128::from(place) * i128::from(QUARTER) * 1_000_000).unwrap()
}

/// The stretch that begins with a quarter.
pub(crate) fn stretch_at(rule: &TimeZone, place: u32) -> Stretch
    requires { place < QUARTERS }
    ensures { result ≡ spec.stretch (spec.offset (Posix rule.now)) place }
{
    Stretch {
        from: i64::from(place) * QUARTER,
        offset: rule.to_offset(instant(place)).seconds,
    }
}

/// The quarter with which the next year begins, in UTC.
fn next_year(place: u32) -> u32
    requires { place < QUARTERS }
    ensures later { place < result }
    ensures same { (i : ℕ) → place ≤ i → i < result → year_of_nanos (spec.nanosecond i) ≡ year_of_nanos (spec.nanosecond place) }
{
    let date = Date::from_unix_epoch_day(i64::from(place / QUARTERS_OF_DAY)).unwrap();
    let last = Date::constrain(date.year, 12, 31);
    (last.to_unix_epoch_day().unsigned_abs() + 1) * QUARTERS_OF_DAY
}

/// The first quarter that begins at an instant or after it, up to `QUARTERS`.
fn first_from(instant: Timestamp) -> u32
    ensures bound { result ≤ QUARTERS }
    ensures before { (i : ℕ) → i < result → spec.nanosecond i <ℤ instant.nanosecond }
{
    let quarter = i128::from(QUARTER) * 1_000_000;
    let count = (instant.nanosecond + quarter - 1).div_euclid(quarter);
    if count <= 0 {
        0
    } else if count < i128::from(QUARTERS) {
        count as u32
    } else {
        QUARTERS
    }
}

/// The first quarter after one at which the rule's offset may be another, and `QUARTERS` where there is none.
pub(crate) fn may_change(rule: &TimeZone, place: u32) -> u32
    requires { place < QUARTERS }
    ensures later { place < result }
    ensures bound { result ≤ QUARTERS }
    ensures same { (i : ℕ) → place ≤ i → i < result → spec.offset (Posix rule.now) i ≡ spec.offset (Posix rule.now) place }
{
    let end = next_year(place).min(QUARTERS);
    match rule.next_transition(instant(place)) {
        // It is after this quarter, and so not before the next one.
        Some(transition) => end.min(first_from(transition.timestamp).max(place + 1)),
        None => end,
    }
}
