//! The clocks by which turns are told.
ghost use Rattle.std.specs.Prelude.{◌≡◌, ℕ, ℤ, ◌*◌, ◌<◌, ◌+◌, pos, neg_ℤ, ◌≤ℤ◌, ◌<ℤ◌, ◌+ℤ◌, ◌-ℤ◌, ◌*ℤ◌, unsigned_abs, ◌-◌, ◌↔◌, IsTrue, IfSome, None};
ghost use Rattle.qz_civil.specs.Instants.{IsShownAt};
ghost use Rattle.qz_civil.specs.Zones.{bad_zone, fixed_offset, local, next_start};
ghost use Rattle.qz_interval.specs.Clocks.{MomentBy, stretches};
ghost use Rattle.qz_interval.specs.Interval.{IsGapEnd, IsMoment};

use qz_civil::{END_DAY, GREATEST_SHIFT_SECONDS, LAST, LAST_DAY, OFFSET_LIMIT, Zone};

// In ms.
const DAY: i64 = 86_400_000;

/// By which clock turns are told, and when a turn fires by it.
#[derive(Clone, Copy)]
pub enum Clock<'a> {
    /// The zone's. A turn fires at the earliest timestamp that shows it, and one in a gap not at all.
    Skipping(&'a Zone),
    /// The zone's. A turn fires at the earliest timestamp that shows it, and one in a gap when the gap ends.
    Waiting(&'a Zone),
    /// That of an offset which never changes, in seconds.
    Fixed(i32),
}

// The local clock at an offset.
#[tactic(auto, using(std::proofs::lemmas::Int::ints))]
fn shifted(ms: i64, offset: i32) -> u64
    requires low { pos 0 ≤ℤ ms }
    requires high { ms ≤ℤ LAST }
    requires offset_low { neg_ℤ OFFSET_LIMIT ≤ℤ offset }
    requires offset_high { offset ≤ℤ OFFSET_LIMIT }
    ensures value { result ≡ unsigned_abs (ms +ℤ pos 86400000 +ℤ offset *ℤ pos 1000) }
    ensures bound { result < END_DAY * 86400000 }
{
    (ms + DAY + i64::from(offset) * 1000) as u64
}

// The timestamp at which the clock at an offset shows that.
#[tactic(auto, using(std::proofs::lemmas::Int::ints))]
fn unshifted(clock: u64, offset: i32) -> i64
    requires clock { clock < 86400000 * (LAST_DAY + 1) }
    requires offset_low { neg_ℤ OFFSET_LIMIT ≤ℤ offset }
    requires offset_high { offset ≤ℤ OFFSET_LIMIT }
    ensures { result ≡ pos clock -ℤ pos 86400000 -ℤ offset *ℤ pos 1000 }
{
    clock as i64 - DAY - i64::from(offset) * 1000
}

// The zone's local clock at the timestamp, as `Zone::local` gives it.
fn clock_of(zone: &Zone, ms: i64) -> u64
    requires low { pos 0 ≤ℤ ms }
    requires high { ms ≤ℤ LAST }
    ensures value { result ≡ local zone.now ms }
    ensures bound { result < END_DAY * 86400000 }
{
    shifted(ms, zone.offset_until(ms).0)
}

// When the first stretch begins after the earliest timestamp at which a local clock could show that.
fn next_stretch(zone: &Zone, clock: u64) -> Option<i64>
    requires { clock < 86400000 * (LAST_DAY + 1) }
    ensures next { result ≡ next_start zone.now (pos (clock - 151200000)) }
    ensures low { IfSome result (λ t. pos 0 <ℤ t) }
    ensures high { IfSome result (λ t. t ≤ℤ LAST) }
    ensures valid { bad_zone zone.now ≡ None }
{
    let from = clock.saturating_sub(GREATEST_SHIFT_SECONDS * 1000);
    zone.offset_until(from as i64).1
}

// Whether the local time lies in a gap that ends then.
fn ends_gap(zone: &Zone, end: i64, clock: u64) -> bool
    requires low { pos 0 <ℤ end }
    requires high { end ≤ℤ LAST }
    ensures { IsTrue result ↔ IsGapEnd zone.now clock end }
{
    clock_of(zone, end - 1) < clock && clock < clock_of(zone, end)
}

// The end of the gap in which the local time lies. It is the start of the first stretch that could show the local time or
// more, since stretches are longer than clocks differ.
fn gap_end(zone: &Zone, clock: u64) -> Option<i64>
    requires clock { clock < 86400000 * (LAST_DAY + 1) }
    ensures some { IfSome result (λ t. IsGapEnd zone.now clock t) }
    ensures none { result ≡ None → (t : ℤ) → IsGapEnd zone.now clock t → t ≤ℤ pos 0 }
{
    match next_stretch(zone, clock) {
        Some(end) if ends_gap(zone, end, clock) => Some(end),
        _ => None,
    }
}

// The timestamp at which the clock of the offset shows that.
fn shown_at(offset: i32, clock: u64) -> Option<i64>
    requires clock { clock < 86400000 * (LAST_DAY + 1) }
    requires offset_low { neg_ℤ OFFSET_LIMIT ≤ℤ offset }
    requires offset_high { offset ≤ℤ OFFSET_LIMIT }
    ensures some { IfSome result (λ t. IsShownAt (fixed_offset offset) clock t) }
    ensures none { result ≡ None → (t : ℤ) → IsShownAt (fixed_offset offset) clock t → ⊥ }
{
    let ms = unshifted(clock, offset);
    if 0 <= ms && ms <= LAST {
        Some(ms)
    } else {
        None
    }
}

impl<'a> Clock<'a> {
    /// The clock that the flags choose, of turns from the start on.
    pub fn new(zone: &'a Zone, start: i64, preserve: bool, skip: bool) -> Clock<'a>
        ensures moments { (m : ℕ) (t : ℤ) → MomentBy result m t ↔ IsMoment preserve skip zone.now start m t }
        ensures start { local (stretches result) start ≡ local zone.now start }
        ensures valid { bad_zone (stretches result) ≡ None }
    {
        // Its stretches have no fault.
        let _ = zone.as_slice();
        if !preserve {
            Clock::Fixed(zone.offset_until(start).0)
        } else if skip {
            Clock::Skipping(zone)
        } else {
            Clock::Waiting(zone)
        }
    }

    /// What it shows at a timestamp, in ms since 1969-12-31T00:00:00.
    pub fn at(self, ms: i64) -> u64
        requires low { pos 0 ≤ℤ ms }
        requires high { ms ≤ℤ LAST }
        requires valid { bad_zone (stretches self) ≡ None }
        ensures value { result ≡ local (stretches self.entry) ms }
        ensures bound { result < END_DAY * 86400000 }
    {
        match self {
            Clock::Skipping(zone) => clock_of(zone, ms),
            Clock::Waiting(zone) => clock_of(zone, ms),
            Clock::Fixed(offset) => shifted(ms, offset),
        }
    }

    // The timestamp at which a turn with that local time fires. One of 0 doesn't matter: it isn't after another.
    fn moment(self, clock: u64) -> Option<i64>
        requires clock { clock < 86400000 * (LAST_DAY + 1) }
        requires valid { bad_zone (stretches self) ≡ None }
        ensures some { IfSome result (λ t. MomentBy self.entry clock t) }
        ensures none { result ≡ None → (t : ℤ) → MomentBy self.entry clock t → t ≤ℤ pos 0 }
    {
        match self {
            Clock::Skipping(zone) => zone.earliest_at(clock),
            Clock::Waiting(zone) => match zone.earliest_at(clock) {
                Some(ms) => Some(ms),
                None => gap_end(zone, clock),
            },
            Clock::Fixed(offset) => shown_at(offset, clock),
        }
    }

    /// The timestamp at which a turn with that local time fires, where it comes later than `after`, when the clock shows
    /// `now`.
    pub fn moment_after(self, clock: u64, now: u64, after: i64) -> Option<i64>
        requires clock { clock < 86400000 * (LAST_DAY + 1) }
        requires now { now ≡ local (stretches self) after }
        requires low { pos 0 ≤ℤ after }
        requires high { after ≤ℤ LAST }
        requires valid { bad_zone (stretches self) ≡ None }
        ensures some { IfSome result (λ t. MomentBy self.entry clock t × (after <ℤ t)) }
        ensures none { result ≡ None → (t : ℤ) → MomentBy self.entry clock t → t ≤ℤ after }
    {
        if clock <= now {
            return None;
        }
        match self.moment(clock) {
            Some(ms) if after < ms => Some(ms),
            _ => None,
        }
    }
}
