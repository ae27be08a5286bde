//! How long a zone's local clock runs on evenly, in ms.
ghost use Rattle.std.specs.Prelude.{◌≡◌, ℕ, ◌+◌, ◌<◌, ◌≤◌, IfSome, pos, neg_ℤ, ◌≤ℤ◌, ◌<ℤ◌, ◌+ℤ◌, ◌*ℤ◌};
ghost use Rattle.std.specs.Option.{ForSome};
ghost use Rattle.qz_civil.specs.Zones.{local};

use qz_civil::{LAST, OFFSET_LIMIT, Zone, to_unsigned};

/// The first ms after the timestamps.
pub const END: u64 = LAST as u64 + 1;

/// Milliseconds in a row at which a zone keeps one offset.
#[derive(Clone, Copy)]
pub struct Span {
    /// How far the local clock is ahead of UTC, in ms.
    pub shift: u64,
    /// The first ms after them, counted from 1970-01-01T00:00:00Z on.
    pub end: u64,
}

/// The timestamp of that ms.
pub fn timestamp_at(ms: u64) -> i64
    requires { ms < END }
    ensures { result ≡ pos ms }
{
    ms as i64
}

fn shift_of(offset: i32) -> u64
    requires low { neg_ℤ OFFSET_LIMIT ≤ℤ offset }
    requires high { offset ≤ℤ OFFSET_LIMIT }
    ensures value { pos result ≡ pos 86400000 +ℤ offset *ℤ pos 1000 }
    ensures bound { result ≤ 151200000 }
{
    (86_400_000 + i64::from(offset) * 1000) as u64
}

// The first ms that isn't before the start of the next stretch.
fn end_of(next_start: Option<i64>) -> u64
    requires low { ForSome next_start (λ start. pos 0 ≤ℤ start) }
    requires high { ForSome next_start (λ start. start ≤ℤ LAST) }
    ensures before { (t : ℕ) → t < result → IfSome next_start (λ start. pos t <ℤ start) }
    ensures after { (t : ℕ) → t < END → IfSome next_start (λ start. pos t <ℤ start) → t < result }
    ensures bound { result ≤ END }
{
    match next_start {
        Some(start) => to_unsigned(start),
        None => END,
    }
}

/// The span that begins with this ms, counted from 1970-01-01T00:00:00Z on.
pub fn span_from(zone: &Zone, ms: u64) -> Span
    requires { ms < END }
    ensures begins { ms < result.end }
    ensures ends { result.end ≤ END }
    ensures bound { result.shift ≤ 151200000 }
    // Up to its end the local clock runs on evenly.
    ensures clock { (t : ℕ) → ms ≤ t → t < result.end → local zone.now (pos t) ≡ t + result.shift }
{
    let (offset, next_start) = zone.offset_until(timestamp_at(ms));
    Span {
        shift: shift_of(offset),
        end: end_of(next_start),
    }
}
