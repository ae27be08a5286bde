//! Days, and the local clocks of zones.
ghost use Rattle.std.specs.Prelude.{◌≡◌, ℕ, ℤ, ◌+◌, ◌*◌, ◌<◌, ◌≤◌, IfSome, None, pos, neg_ℤ, ◌≤ℤ◌, ◌<ℤ◌};
ghost use Rattle.qz_civil.specs.Dates as dates;
ghost use Rattle.qz_civil.specs.Earliest.{HasEarliest};
ghost use Rattle.qz_civil.specs.Instants.{IsShownAt};
ghost use Rattle.qz_civil.specs.Spans.{LastsUntilNext};
ghost use Rattle.qz_civil.specs.Zones as spec;

use qz_civil::{
    DAY_MS, Date, GREATEST_SHIFT_SECONDS, LAST, LAST_DAY, LEAST_SHIFT_SECONDS, OFFSET_LIMIT,
    SECONDS, Span, Zone,
};

/// The date of a day, as `qz_civil::date_of` gives it.
pub fn date_of(day: u32) -> Date
    requires { day ≤ LAST_DAY }
    ensures value { result ≡ dates.date_of day }
    ensures bound { result.year ≤ 9999 }
{
    qz_civil::date_of(day)
}

/// The first moment of a local time, as `Zone::earliest_at` gives it.
pub fn earliest_at(zone: &Zone, local: u64) -> Option<i64>
    requires { local < DAY_MS * (LAST_DAY + 1) }
    ensures { HasEarliest (IsShownAt zone.now local) result }
{
    zone.earliest_at(local)
}

/// The offset at a moment, and when the next one begins, as `Zone::offset_until` gives them.
pub fn offset_until(zone: &Zone, ms: i64) -> (i32, Option<i64>)
    ensures offset { result.0 ≡ spec.offset_at zone.now ms }
    ensures next { result.1 ≡ spec.next_start zone.now ms }
    ensures offset_low { neg_ℤ OFFSET_LIMIT ≤ℤ result.0 }
    ensures offset_high { result.0 ≤ℤ OFFSET_LIMIT }
    ensures later { IfSome result.1 (λ start. ms <ℤ start) }
    ensures high { IfSome result.1 (λ start. start ≤ℤ LAST) }
    ensures stays { (t : ℤ) → ms ≤ℤ t → IfSome result.1 (λ start. t <ℤ start) → spec.offset_at zone.now t ≡ spec.offset_at zone.now ms }
    ensures valid { spec.bad_zone zone.now ≡ None }
{
    zone.offset_until(ms)
}

/// The span of one offset from a second on, as `Zone::span_from` gives it.
pub fn span_from(zone: &Zone, second: u64) -> Span
    requires { second < SECONDS }
    ensures begins { second < result.end }
    ensures ends { result.end ≤ SECONDS }
    ensures lasts { LastsUntilNext zone.now second result.end }
    ensures least { LEAST_SHIFT_SECONDS ≤ result.shift }
    ensures greatest { result.shift ≤ GREATEST_SHIFT_SECONDS }
    ensures clock { (s : ℕ) → second ≤ s → s < result.end → spec.local zone.now (pos (s * 1000)) ≡ (s + result.shift) * 1000 }
    ensures valid { spec.bad_zone zone.now ≡ None }
{
    zone.span_from(second)
}
