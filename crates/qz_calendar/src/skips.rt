//! How far the cron calendars of a chain exclude all timestamps together.
ghost use Rattle.std.specs.Prelude.{◌≡◌, ℕ, ◌+◌, ◌*◌, ◌/◌, ◌%◌, ◌<◌, ◌≤◌, true, false, [], ◌∷◌, IfSome};
ghost use Rattle.qz_civil.specs.Least.{NoneIn};
ghost use Rattle.qz_civil.specs.declared.calendars.CalendarKind.TheVariants.{Cron};
ghost use Rattle.qz_calendar.specs.Search.{any_meets, are_free_at, is_free_at};

use crate::calendars::Calendar;
use crate::clocks::{ClockFields, next_met_by_none};
use crate::days::{DAY, meets_day};
use crate::spans::{END, span_from};
use arrayvec::ArrayVec;
use qz_civil::{CalendarKind, CronFields};

/// Fields of cron calendars that hold on one local day: what meets some of them until `end` is excluded.
#[derive(Drop)]
struct OneDay {
    fields: ArrayVec<ClockFields, 8>,
    /// The first ms after it, counted from 1970-01-01T00:00:00Z.
    end: u64,
}

// The fields of a cron calendar.
fn cron_fields<'a>(calendar: &Calendar<'a>) -> Option<&'a CronFields>
    ensures { IfSome result (λ fields. calendar.now.kind ≡ Cron fields.now) }
{
    match calendar.kind {
        CalendarKind::Cron { fields } => Some(fields),
        _ => None,
    }
}

/// Whether at least two of the calendars are cron calendars.
pub fn has_several_crons(calendars: &[Calendar<'_>]) -> bool {
    let mut count = 0u32;
    for calendar in calendars {
        if cron_fields(calendar).is_some() {
            count = count.saturating_add(1);
        }
    }
    count >= 2
}

// How far the local clock of the first cron calendar is ahead, in ms.
fn first_shift(calendars: &[Calendar<'_>], from: u64) -> Option<u64>
    requires { from < END }
    ensures { IfSome result (λ shift. shift ≤ 151200000) }
{
    for calendar in calendars {
        if cron_fields(calendar).is_some() {
            return Some(span_from(calendar.zone, from).shift);
        }
    }
    None
}

// Until when a cron calendar excludes what meets its fields on the time of day: on the local day of this ms, at this shift.
fn met_until(calendar: &Calendar<'_>, from: u64, shift: u64) -> Option<(ClockFields, u64)>
    requires from { from < END }
    requires shift { shift ≤ 151200000 }
    ensures end { IfSome result (λ met. from < met.1) }
    ensures met { IfSome result (λ met. (t : ℕ) → from ≤ t → t < met.1 → (t + shift) / 86400000 ≡ (from + shift) / 86400000 → any_meets (met.0 ∷ []) ((t + shift) % 86400000 / 1000) ≡ true → is_free_at calendar.now t ≡ false) }
{
    let fields = cron_fields(calendar)?;
    let span = span_from(calendar.zone, from);
    if span.shift == shift && meets_day(fields, (from + shift) / DAY) {
        Some((ClockFields::of(fields), span.end))
    } else {
        None
    }
}

// The cron calendars that have one shift, on the local day of this ms.
fn gather(calendars: &[Calendar<'_>], from: u64, shift: u64) -> OneDay
    requires from { from < END }
    requires shift { shift ≤ 151200000 }
    ensures end { from < result.end }
    ensures within { result.end ≤ END }
    ensures day { (t : ℕ) → from ≤ t → t < result.end → (t + shift) / 86400000 ≡ (from + shift) / 86400000 }
    ensures met { (t : ℕ) → from ≤ t → t < result.end → any_meets result.fields.items ((t + shift) % 86400000 / 1000) ≡ true → are_free_at calendars.now t ≡ false }
{
    let mut fields = ArrayVec::new();
    let mut end = END.min(((from + shift) / DAY + 1) * DAY - shift);
    for calendar in calendars {
        if let Some((met, until)) = met_until(calendar, from, shift) {
            if fields.try_push(met).is_ok() {
                end = end.min(until);
            }
        }
    }
    OneDay { fields, end }
}

// All timestamps from `from` to before the result are excluded, by the first cron calendar and those of its shift.
fn skip_today(calendars: &[Calendar<'_>], from: u64) -> u64
    requires { from < END }
    ensures later { from ≤ result }
    ensures within { result ≤ END }
    ensures none { NoneIn (are_free_at calendars.now) from result }
{
    let Some(shift) = first_shift(calendars, from) else {
        return from;
    };
    let OneDay { fields, end } = gather(calendars, from, shift);
    let local = from + shift;
    match next_met_by_none(fields.as_slice(), local % DAY / 1000) {
        Some(second) => {
            let next = (local / DAY * DAY + second * 1000).saturating_sub(shift);
            from.max(next.min(end))
        }
        None => end,
    }
}

/// All timestamps from `from` to before the result are excluded: the cron calendars of one local clock are looked at
/// together, day by day, so that none waits for the others second by second.
pub fn skip(calendars: &[Calendar<'_>], from: u64) -> u64
    requires { from ≤ END }
    ensures later { from ≤ result }
    ensures within { result ≤ END }
    ensures none { NoneIn (are_free_at calendars.now) from result }
{
    let mut moment = from;
    while moment < END {
        let next = skip_today(calendars, moment);
        if next == moment {
            return moment;
        }
        moment = next;
    }
    moment
}
