//! Whole seconds of a zone, and how long its local clock runs on evenly.
ghost use Rattle.std.specs.Prelude.{◌≡◌, ℕ, ◌+◌, ◌*◌, ◌<◌, ◌≤◌, ◌^◌, IfSome, None, pos, neg_ℤ, ◌≤ℤ◌, ◌<ℤ◌, ◌+ℤ◌};
ghost use Rattle.std.specs.Option.{ForSome};
ghost use Rattle.qz_civil.specs.Spans.{BeginsBefore, LastsUntilNext};
ghost use Rattle.qz_civil.specs.Zones.{bad_zone, local};

use crate::limits::{
    DAY_SECONDS, GREATEST_SHIFT_SECONDS, LAST, LEAST_SHIFT_SECONDS, OFFSET_LIMIT, SECONDS,
};
use crate::zones::Zone;

/// Seconds in a row at which a zone keeps one offset. Seconds are counted from 1970-01-01T00:00:00Z on.
#[derive(Clone, Copy, Debug)]
pub struct Span {
    /// How far the local clock is ahead of UTC, in seconds.
    pub shift: u64,
    /// The first second after them.
    pub end: u64,
}

/// The first second that doesn't begin before the moment, which is in ms since 1970-01-01T00:00:00Z.
#[tactic(auto, using(std::proofs::lemmas::Int::ints))]
pub fn second_from(ms: i64) -> u64
    requires { pos 0 ≤ℤ ms }
    ensures before { (s : ℕ) → s < result → pos (s * 1000) <ℤ ms }
    ensures after { ms ≤ℤ pos (result * 1000) }
    ensures near { pos (result * 1000) <ℤ (ms +ℤ pos 1000) }
{
    (ms as u64).div_ceil(1000)
}

/// When the second begins, in ms since 1970-01-01T00:00:00Z.
pub fn moment_of(second: u64) -> i64
    requires { second < SECONDS }
    ensures { result ≡ pos (second * 1000) }
{
    second as i64 * 1000
}

fn shift_of(offset: i32) -> u64
    requires low { neg_ℤ OFFSET_LIMIT ≤ℤ offset }
    requires high { offset ≤ℤ OFFSET_LIMIT }
    ensures value { pos result ≡ offset +ℤ pos DAY_SECONDS }
    ensures least { LEAST_SHIFT_SECONDS ≤ result }
    ensures greatest { result ≤ GREATEST_SHIFT_SECONDS }
{
    (i64::from(offset) + DAY_SECONDS as i64) as u64
}

// The first second that isn't before the start of the next stretch.
fn end_of(next_start: Option<i64>) -> u64
    requires low { ForSome next_start (λ start. pos 0 ≤ℤ start) }
    requires high { ForSome next_start (λ start. start ≤ℤ LAST) }
    ensures before { (s : ℕ) → s < result → BeginsBefore next_start s }
    ensures after { (s : ℕ) → s < SECONDS → BeginsBefore next_start s → s < result }
    ensures bound { result ≤ SECONDS }
{
    match next_start {
        Some(start) => second_from(start),
        None => SECONDS,
    }
}

impl Zone {
    /// The span that begins with this second.
    pub fn span_from(&self, second: u64) -> Span
        requires { second < SECONDS }
        ensures begins { second < result.end }
        ensures ends { result.end ≤ SECONDS }
        ensures lasts { LastsUntilNext self.now second result.end }
        ensures least { LEAST_SHIFT_SECONDS ≤ result.shift }
        ensures greatest { result.shift ≤ GREATEST_SHIFT_SECONDS }
        // Up to its end the local clock runs on evenly.
        ensures clock { (s : ℕ) → second ≤ s → s < result.end
            → local self.now (pos (s * 1000)) ≡ (s + result.shift) * 1000 }
        // The zone's stretches have no fault.
        ensures valid { bad_zone self.now ≡ None }
    {
        let (offset, next_start) = self.offset_until(moment_of(second));
        Span {
            shift: shift_of(offset),
            end: end_of(next_start),
        }
    }
}
