//! The first timestamp of a local time.
ghost use Rattle.std.specs.Prelude.{◌≡◌, ◌↔◌, ◌+◌, ◌*◌, ◌<◌, ◌^◌, ℤ, pos, neg_ℤ, ◌≤ℤ◌, ◌<ℤ◌, ◌+ℤ◌, ◌-ℤ◌, ◌*ℤ◌, IsTrue, IfSome, Some, None};
ghost use Rattle.std.specs.Option.{ForSome};
ghost use Rattle.qz_civil.specs.Earliest.{HasEarliest};
ghost use Rattle.qz_civil.specs.Instants.{IsShownAt};
ghost use Rattle.qz_civil.specs.Timings.{is_timestamp};

use crate::limits::{DAY_MS, GREATEST_SHIFT_MS, LAST, LAST_DAY, LEAST_SHIFT_MS};
use crate::zones::{Zone, unshifted};

impl Zone {
    /// The first timestamp at which the local clock, in ms since 1969-12-31T00:00:00, shows that: the earlier one in a
    /// fold, and None in a gap.
    pub fn earliest_at(&self, local: u64) -> Option<i64>
        requires { local < DAY_MS * (LAST_DAY + 1) }
        ensures { HasEarliest (IsShownAt self.now local) result }
    {
        let mut from = local.saturating_sub(GREATEST_SHIFT_MS);
        // stretch by stretch, mostly the first one alone
        loop {
            let (offset, next_start) = self.offset_until(from as i64);
            let ms = unshifted(local, offset);
            if is_within(ms, from, next_start) {
                return known(ms);
            }
            from = next_from(next_start, local)?;
        }
    }
}

fn is_within(ms: i64, from: u64, until: Option<i64>) -> bool
    ensures { IsTrue result ↔ ((pos from ≤ℤ ms) × IfSome until (λ end. ms <ℤ end)) }
{
    let begun = 0 <= ms && from <= ms as u64;
    match until {
        Some(end) => begun && ms < end,
        None => begun,
    }
}

// The start of the next stretch, where it isn't too late to show the local clock.
fn next_from(next_start: Option<i64>, local: u64) -> Option<u64>
    requires low { ForSome next_start (λ start. pos 0 ≤ℤ start) }
    requires high { ForSome next_start (λ start. start ≤ℤ LAST) }
    ensures some { IfSome result (λ from. next_start ≡ Some (pos from)) }
    ensures bound { IfSome result (λ from. from < 2 ^ 62) }
    ensures none { result ≡ None → IfSome next_start (λ start. pos local <ℤ (start +ℤ pos LEAST_SHIFT_MS)) }
{
    near_start(next_start?, local)
}

fn near_start(start: i64, local: u64) -> Option<u64>
    requires low { pos 0 ≤ℤ start }
    requires high { start ≤ℤ LAST }
    ensures some { IfSome result (λ from. pos from ≡ start) }
    ensures bound { IfSome result (λ from. from < 2 ^ 62) }
    ensures none { result ≡ None → pos local <ℤ (start +ℤ pos LEAST_SHIFT_MS) }
{
    let from = start as u64;
    if from + LEAST_SHIFT_MS <= local {
        Some(from)
    } else {
        None
    }
}

// The moment, where it is a timestamp.
fn known(ms: i64) -> Option<i64>
    ensures some { IfSome result (λ t. (t ≡ ms) × IsTrue (is_timestamp ms)) }
    ensures none { result ≡ None → IsTrue (is_timestamp ms) → ⊥ }
{
    if 0 <= ms && ms <= LAST {
        Some(ms)
    } else {
        None
    }
}
