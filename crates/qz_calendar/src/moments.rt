//! The next timestamp that calendars don't exclude.
ghost use Rattle.std.specs.Prelude.{◌≡◌, ℕ, ◌<◌, ◌≤◌, IfSome, IfNone, not, true, pos, ◌≤ℤ◌};
ghost use Rattle.qz_civil.specs.Calendars.{is_calendar_kind};
ghost use Rattle.qz_civil.specs.Least.{IsFirst, NoneIn};
ghost use Rattle.qz_calendar.specs.Chains.{excludes_at};
ghost use Rattle.qz_calendar.specs.Search.{are_free_at, is_free_at, is_free_in};

use crate::calendars::Calendar;
use crate::days::{is_free_local, next_free_local};
use crate::skips::{has_several_crons, skip};
use crate::spans::{END, Span, span_from};
use qz_civil::{CalendarKind, LAST, Zone};

/// Whether the calendar doesn't exclude the timestamp.
pub fn is_free(calendar: &Calendar<'_>, ms: i64) -> bool
    requires low { pos 0 ≤ℤ ms }
    requires high { ms ≤ℤ LAST }
    ensures { result ≡ not (excludes_at calendar.now ms) }
{
    is_free_local(calendar.kind, calendar.zone.local(ms))
}

// The first timestamp from `from` on that a calendar of that kind and zone doesn't exclude, span by span.
fn next_free_in(kind: &CalendarKind, zone: &Zone, from: u64) -> Option<u64>
    requires kind { is_calendar_kind kind.now ≡ true }
    requires from { from ≤ END }
    ensures { IsFirst (is_free_in kind.now zone.now) from END result }
{
    let mut start = from;
    while start < END {
        let Span { shift, end } = span_from(zone, start);
        if let Some(local) = next_free_local(kind, start + shift, end + shift) {
            return Some(local - shift);
        }
        start = end;
    }
    None
}

fn next_free(calendar: &Calendar<'_>, from: u64) -> Option<u64>
    requires { from ≤ END }
    ensures { IsFirst (is_free_at calendar.now) from END result }
{
    next_free_in(calendar.kind, calendar.zone, from)
}

// The first timestamp that no calendar excludes comes not before what each of them in turn makes of `from`.
fn after_each(calendars: &[Calendar<'_>], from: u64) -> Option<u64>
    requires { from < END }
    ensures low { IfSome result (λ t. from ≤ t) }
    ensures high { IfSome result (λ t. t < END) }
    ensures none { IfSome result (NoneIn (are_free_at calendars.now) from) }
    ensures same { IfSome result (λ t. t ≡ from → are_free_at calendars.now from ≡ true) }
    ensures over { IfNone result (NoneIn (are_free_at calendars.now) from END) }
{
    let mut moment = from;
    for calendar in calendars {
        moment = next_free(calendar, moment)?;
    }
    Some(moment)
}

/// The first timestamp from `from` on that no calendar excludes.
pub fn next_of_all(calendars: &[Calendar<'_>], from: u64) -> Option<u64>
    requires { from < END }
    ensures { IsFirst (are_free_at calendars.now) from END result }
{
    let has_several_crons = has_several_crons(calendars);
    let mut moment = from;
    while let Some(next) = after_each(calendars, moment) {
        if next == moment {
            return Some(moment);
        }
        moment = if has_several_crons {
            skip(calendars, next)
        } else {
            next
        };
        if moment >= END {
            return None;
        }
    }
    None
}
