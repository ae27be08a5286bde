//! What the schedules of triggers share: even steps, and the end.
ghost use Rattle.std.specs.Prelude.{◌≡◌, ℕ, ◌+◌, ◌*◌, ◌<◌, ◌≤◌, ◌^◌, ◌⊎◌, ℤ, pos, ◌≤ℤ◌, IfSome, IfNone};
ghost use Rattle.qz_civil.specs.Occurrences.{IsBefore, IsOccurrence, IsPast};

use crate::limits::LAST;

/// An occurrence of an even stepping, and where it is.
#[derive(Clone, Copy, Debug)]
pub struct Occurrence {
    /// How many steps after the start.
    pub place: u64,
    pub moment: u64,
}

/// The first of `start`, `start + step`, `start + 2 * step` and so on that isn't below `from`. None where there is
/// none, which only a step of 0 leaves possible.
#[tactic(auto, using(crate::proofs::OccurrenceLemmas::occurrences))]
pub fn first_occurrence(start: u64, step: u64, from: u64) -> Option<Occurrence>
    requires start { start ≤ 2 ^ 62 }
    requires step { step ≤ 2 ^ 62 }
    requires from { from ≤ 2 ^ 62 }
    ensures first { IfSome result (λ o. IsOccurrence start step from o.place) }
    ensures moment { IfSome result (λ o. o.moment ≡ start + o.place * step) }
    ensures bound { IfSome result (λ o. (o.moment ≡ start) ⊎ (o.moment < from + step)) }
    ensures none { IfNone result ((j : ℕ) → from ≤ start + j * step → ⊥) }
{
    if from <= start {
        return Some(Occurrence {
            place: 0,
            moment: start,
        });
    }
    if step == 0 {
        return None;
    }
    let place = (from - start - 1) / step + 1;
    Some(Occurrence {
        place,
        moment: start + place * step,
    })
}

/// The moment as a timestamp, where it is one and is before the end. Both are in ms since 1970-01-01T00:00:00Z.
pub fn before_end(moment: u64, end: Option<i64>) -> Option<i64>
    ensures kept { IfSome result (λ t. (t ≡ pos moment) × (t ≤ℤ LAST) × IsBefore end t) }
    ensures gone { IfNone result (IsPast end moment) }
{
    if moment > LAST as u64 {
        return None;
    }
    match end {
        Some(end) if moment as i64 >= end => None,
        _ => Some(moment as i64),
    }
}

/// The same number, where it isn't negative.
pub fn to_unsigned(value: i64) -> u64
    requires { pos 0 ≤ℤ value }
    ensures value { pos result ≡ value }
    ensures bound { result < 2 ^ 63 }
{
    value as u64
}
