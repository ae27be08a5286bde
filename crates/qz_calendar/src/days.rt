//! The next local time that a calendar doesn't exclude, day by day.
ghost use Rattle.std.specs.Prelude.{◌≡◌, ◌+◌, ◌*◌, ◌/◌, ◌<◌, ◌≤◌, ◌&&◌, ℕ, Bool, true, not, if◌then◌else◌, IfSome};
ghost use Rattle.qz_civil.specs.Calendars.{is_calendar_kind, is_from_to};
ghost use Rattle.qz_civil.specs.Dates.{date_of as date_after, weekday_of as weekday_after};
ghost use Rattle.qz_civil.specs.Fields.{meets_date, meets_time};
ghost use Rattle.qz_civil.specs.Least.{IsFirst, IsLeastIn};
ghost use Rattle.qz_calendar.specs.Search.{is_free, is_free_on};

use crate::listed::{has_date, has_day};
use crate::seconds::next_unmet;
use qz_civil::{CalendarKind, CronFields, END_DAY, LAST_DAY, date_of, has_bit, weekday_of};

/// Milliseconds of a day.
pub const DAY: u64 = 86_400_000;

// The ms of the day from which on a day is free that is excluded as a whole, or not at all.
fn from_unless(excluded: bool, from: u64) -> Option<u64>
    requires { from < DAY }
    ensures first { IsFirst (λ milli. not excluded) from DAY result }
    ensures bound { IfSome result (λ milli. milli < DAY) }
{
    if excluded { None } else { Some(from) }
}

// The first ms of the day from `low` on that lies outside the part of the day.
fn next_outside(from: u64, to: u64, low: u64) -> Option<u64>
    requires { low < DAY }
    ensures first { IsFirst (λ milli. not (is_from_to from to milli)) low DAY result }
    ensures bound { IfSome result (λ milli. milli < DAY) }
{
    if low < from || to < low {
        Some(low)
    } else if to < DAY - 1 {
        Some(to + 1)
    } else {
        None
    }
}

// The first one that lies in it.
fn next_inside(from: u64, to: u64, low: u64) -> Option<u64>
    requires { low < DAY }
    ensures first { IsFirst (is_from_to from to) low DAY result }
    ensures bound { IfSome result (λ milli. milli < DAY) }
{
    let first = from.max(low);
    if first <= to && first < DAY {
        Some(first)
    } else {
        None
    }
}

// The first one that a daily calendar doesn't exclude.
fn next_in_daily(from: u32, to: u32, inverted: bool, low: u64) -> Option<u64>
    requires { low < DAY }
    ensures first { IsFirst (λ milli. not (if inverted then not (is_from_to from to milli) else is_from_to from to milli)) low DAY result }
    ensures bound { IfSome result (λ milli. milli < DAY) }
{
    if inverted {
        next_inside(u64::from(from), u64::from(to), low)
    } else {
        next_outside(u64::from(from), u64::from(to), low)
    }
}

// The first ms of the day from `low` on whose second doesn't meet the fields on the time of day.
fn next_in_unmet(fields: &CronFields, low: u64) -> Option<u64>
    requires { low < DAY }
    ensures first { IsFirst (λ milli. not (meets_time fields.now (milli / 1000))) low DAY result }
    ensures bound { IfSome result (λ milli. milli < DAY) }
{
    let second = next_unmet(fields, low / 1000)?;
    Some(low.max(second * 1000))
}

/// Whether the day, counted from 1969-12-31 on, meets the fields on the date.
#[tactic(auto, using(qz_civil::proofs::DateLemmas::date_facts))]
pub fn meets_day(fields: &CronFields, day: u64) -> bool
    requires { day ≤ LAST_DAY }
    ensures { result ≡ meets_date fields.now (date_after day) (weekday_after day) }
{
    fields.meets_date(date_of(day as u32), weekday_of(day as u32))
}

// The first one that a cron calendar doesn't exclude.
fn next_in_cron(fields: &CronFields, day: u64, low: u64) -> Option<u64>
    requires day { day ≤ LAST_DAY }
    requires low { low < DAY }
    ensures first { IsFirst (λ milli. not (meets_date fields.now (date_after day) (weekday_after day) && meets_time fields.now (milli / 1000))) low DAY result }
    ensures bound { IfSome result (λ milli. milli < DAY) }
{
    if meets_day(fields, day) {
        next_in_unmet(fields, low)
    } else {
        Some(low)
    }
}

// The first ms of the day from `low` on that the calendar doesn't exclude.
fn next_on(kind: &CalendarKind, day: u64, low: u64) -> Option<u64>
    requires kind { is_calendar_kind kind.now ≡ true }
    requires day { day ≤ LAST_DAY }
    requires low { low < DAY }
    ensures first { IsFirst (is_free_on kind.now day) low DAY result }
    ensures bound { IfSome result (λ milli. milli < DAY) }
{
    match kind {
        CalendarKind::Annual { days } => from_unless(has_day(days, date_of(day as u32)), low),
        CalendarKind::Holiday { dates } => from_unless(has_date(dates, date_of(day as u32)), low),
        CalendarKind::Weekly { days } => {
            let weekday = u32::from(weekday_of(day as u32));
            from_unless(has_bit(u64::from(*days), weekday - 1), low)
        }
        CalendarKind::Monthly { days } => {
            let date = date_of(day as u32);
            from_unless(has_bit(u64::from(*days), u32::from(date.day) - 1), low)
        }
        CalendarKind::Daily { from, to, inverted } => next_in_daily(*from, *to, *inverted, low),
        CalendarKind::Cron { fields } => next_in_cron(fields, day, low),
    }
}

/// The first ms of a local clock from `from` to before `to` that the calendar doesn't exclude, counted from
/// 1969-12-31T00:00:00 on.
pub fn next_free_local(kind: &CalendarKind, from: u64, to: u64) -> Option<u64>
    requires kind { is_calendar_kind kind.now ≡ true }
    requires from { from ≤ to }
    requires to { to ≤ DAY * END_DAY }
    ensures { IsFirst (is_free kind.now) from to result }
{
    let (mut day, mut low) = (from / DAY, from % DAY);
    while day * DAY < to {
        if let Some(milli) = next_on(kind, day, low) {
            return cut_at(day * DAY + milli, to);
        }
        (day, low) = (day + 1, 0);
    }
    None
}

/// Whether the calendar doesn't exclude that ms of a local clock.
pub fn is_free_local(kind: &CalendarKind, local: u64) -> bool
    requires kind { is_calendar_kind kind.now ≡ true }
    requires local { local < DAY * LAST_DAY }
    ensures { result ≡ is_free kind.now local }
{
    let low = local % DAY;
    next_on(kind, local / DAY, low) == Some(low)
}

// The number, where it lies before the end.
fn cut_at(n: u64, end: u64) -> Option<u64>
    ensures { (p : ℕ → Bool) (from : ℕ) → IsLeastIn p from (n + 1) n → IsFirst p from end result }
{
    if n < end { Some(n) } else { None }
}
