//! The next moment at which a zone's local time meets the fields.
ghost use Rattle.std.specs.Prelude.{◌≡◌, ℕ, Bool, ◌+◌, ◌<◌, ◌≤◌, IfSome, true, negsuc, ◌≤ℤ◌};
ghost use Rattle.qz_civil.specs.Least.{IsFirst, IsNext, NoneIn};
ghost use Rattle.qz_cron.specs.Moments.{IsMatch};
ghost use Rattle.qz_cron.specs.Search.{IsShiftOf, meets_at, meets_second};

use crate::seconds::{END_SECOND, next_second};
use qz_civil::{
    CronFields, GREATEST_SHIFT_SECONDS, LAST, LEAST_SHIFT_SECONDS, SECONDS, Span, Zone, moment_of,
    second_from,
};

// Whether the match that was found from the second `sought` on is the next one from `from` on too.
fn is_ahead(sought: u64, found: Option<u64>, from: u64) -> bool
    ensures { result ≡ true → (p : ℕ → Bool) → IsFirst p sought END_SECOND found → IsFirst p from END_SECOND found }
{
    sought <= from
        && match found {
            Some(local) => from <= local,
            None => true,
        }
}

// The next match of the local clock from `from` on, where one was found from the second `sought` on.
fn next_local(fields: &CronFields, sought: u64, found: Option<u64>, from: u64) -> Option<u64>
    requires from { from < END_SECOND }
    requires found { IsFirst (meets_second fields.now) sought END_SECOND found }
    ensures { IsFirst (meets_second fields.now) from END_SECOND result }
{
    if is_ahead(sought, found, from) {
        found
    } else {
        next_second(fields, from)
    }
}

// The match in UTC, where it is before the end of the span.
fn cut_at(found: Option<u64>, shift: u64, end: u64) -> Option<u64>
    requires shift { shift ≤ GREATEST_SHIFT_SECONDS }
    requires end { end ≤ SECONDS }
    ensures { (p q : ℕ → Bool) (start : ℕ) → start ≤ end → ((s : ℕ) → start ≤ s → s < end → q s ≡ p (s + shift)) → IsFirst p (start + shift) END_SECOND found → IsFirst q start end result }
{
    match found {
        Some(local) if local < end + shift => Some(local.saturating_sub(shift)),
        _ => None,
    }
}

// Where the search goes on after a span without a match. No clock, whatever its stretches are, shows the next match
// until 42 hours before its number.
fn resume(found: Option<u64>, shift: u64, start: u64, end: u64) -> u64
    requires shift { shift ≤ GREATEST_SHIFT_SECONDS }
    requires start { start ≤ end }
    requires end { end ≤ SECONDS }
    ensures low { end ≤ result }
    ensures none { (p q : ℕ → Bool) → IsShiftOf p q → IsFirst p (start + shift) END_SECOND found → NoneIn q start end → NoneIn q start result }
{
    // A fold may show again local times that are earlier than those that were looked at.
    if end + LEAST_SHIFT_SECONDS < start + shift {
        return end;
    }
    match found {
        Some(local) => end.max(local.saturating_sub(GREATEST_SHIFT_SECONDS)),
        None => SECONDS,
    }
}

// The first second from `from` on whose local time meets the fields, stretch by stretch.
fn next_whole(fields: &CronFields, zone: &Zone, from: u64) -> Option<u64>
    requires { from ≤ SECONDS }
    ensures first { IsFirst (meets_at fields.now zone.now) from SECONDS result }
    ensures bound { IfSome result (λ v. v < SECONDS) }
{
    let (mut start, mut sought, mut found) = (from, END_SECOND, None);
    while start < SECONDS {
        let Span { shift, end } = zone.span_from(start);
        found = next_local(fields, sought, found, start + shift);
        sought = start + shift;
        if let Some(second) = cut_at(found, shift, end) {
            return Some(second);
        }
        start = resume(found, shift, start, end);
    }
    None
}

/// The least whole second after `after` whose local time meets the fields, in ms since 1970-01-01T00:00:00Z, and `None`
/// where there is none up to `LAST`. A local time that a gap of the zone leaves out never occurs, and one that a fold
/// repeats occurs twice. `after` is a timestamp or -1.
pub fn next(fields: &CronFields, zone: &Zone, after: i64) -> Option<i64>
    requires low { negsuc 0 ≤ℤ after }
    requires high { after ≤ℤ LAST }
    ensures { IsNext LAST (IsMatch fields.now zone.now) after result }
{
    let second = next_whole(fields, zone, second_from(after + 1))?;
    Some(moment_of(second))
}
