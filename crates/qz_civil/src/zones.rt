//! Zones, and the local time that they give.
ghost use Rattle.std.specs.Prelude.{◌≡◌, ◌&&◌, ◌==◌, ℤ, ◌+◌, ◌*◌, ◌<◌, pos, negsuc, neg_ℤ, ◌≤ℤ◌, ◌<ℤ◌, ◌+ℤ◌, ◌-ℤ◌, ◌*ℤ◌, unsigned_abs, IfOk, IfErr, IfSome, None, Some, slice_get, option_map};
ghost use Rattle.qz_civil.specs.Instants.{AreMembers, IsInstant, IsOnly, IsShownAt, IsShownIn};
ghost use Rattle.qz_civil.specs.Timings.{is_timestamp};
ghost use Rattle.qz_civil.specs.Zones as spec;

use crate::dates::{Civil, civil_of, local_of};
use crate::limits::{DAY_MS, GREATEST_SHIFT_MS, LAST, LAST_DAY, OFFSET_LIMIT, STRETCH_LIMIT};
use crate::lists::List;
use crate::stretches::{BadZone, Stretch, count_begun, fault_of, offset_of, start_of};
use std::alloc::AllocError;
use std::fmt;
use std::marker::Model;

/// A fixed offset from UTC, or a table of stretches. Contracts see it as the list of its stretches.
#[derive(Drop)]
pub struct Zone {
    offsets: Offsets,
}

// Local time less UTC: always so many seconds, or by a table.
#[derive(Drop)]
enum Offsets {
    Fixed([Stretch; 1]),
    Table(List<Stretch>),
}

impl Model for Zone {
    ghost use Rattle.std.specs.Prelude.{◌≡◌, None, List as Items};
    ghost use Rattle.qz_civil.specs.declared.stretches.Stretch.{Stretch};
    ghost use Rattle.qz_civil.specs.Zones.{bad_zone, stretches_of};

    ghost Value = { Items Stretch };

    ghost view = { λ a. stretches_of a.offsets };

    // Functions that rest on it look at a field first, `let _ = &self.offsets;`, which shows the check that it holds.
    ghost invariant = { λ a. bad_zone (stretches_of a.offsets) ≡ None };
}

impl Zone {
    /// The zone of Coordinated Universal Time.
    pub fn utc() -> Zone
        ensures { result ≡ spec.fixed_offset (pos 0) }
    {
        Zone::fixed(0)
    }

    /// The zone whose local time is always that many minutes ahead of UTC, up to 18 hours either way.
    #[tactic(auto, unfolding(crate::specs::Zones::bad_zone))]
    pub fn fixed(minutes: i32) -> Zone
        requires low { negsuc 1079 ≤ℤ minutes }
        requires high { minutes ≤ℤ pos 1080 }
        ensures { result ≡ spec.fixed_offset (minutes *ℤ pos 60) }
    {
        Zone {
            offsets: Offsets::Fixed([Stretch {
                from: 0,
                offset: minutes * 60,
            }]),
        }
    }

    /// The zone of a table of stretches. It has 1 to `STRETCH_LIMIT` of them, each begins at a timestamp from 0 to `LAST`
    /// and at least `STRETCH_LENGTH` after the one before, and no offset is more than `OFFSET_LIMIT`. `BadZone` gives the
    /// order in which faults are answered.
    pub fn table(stretches: List<Stretch>) -> Result<Zone, BadZone>
        ensures ok { IfOk result (λ zone. (zone ≡ stretches) × (spec.bad_zone stretches ≡ None)) }
        ensures err { IfErr result (λ fault. spec.bad_zone stretches ≡ Some fault) }
    {
        match fault_of(stretches.as_slice()) {
            None => Ok(Zone {
                offsets: Offsets::Table(stretches),
            }),
            Some(fault) => Err(fault),
        }
    }

    /// Its stretches, ascending. The one of a fixed offset begins at 1970-01-01T00:00:00Z.
    pub fn as_slice(&self) -> &[Stretch]
        ensures value { result.now ≡ self.now }
        ensures valid { spec.bad_zone self.now ≡ None }
    {
        match &self.offsets {
            Offsets::Fixed(only) => only,
            Offsets::Table(stretches) => stretches.as_slice(),
        }
    }

    /// The same zone again.
    pub fn copy(&self) -> Result<Zone, AllocError>
        ensures { IfOk result (λ copy. copy ≡ self.now) }
    {
        self.clone()
    }

    // How many stretches have begun at the timestamp.
    fn begun(&self, ms: i64) -> usize
        ensures { result ≡ spec.begun self.now ms }
    {
        count_begun(self.as_slice(), ms)
    }

    /// The place, from 0, of the stretch in which the timestamp lies. One before all stretches counts as in the first.
    #[tactic(auto, using(crate::proofs::ZoneLemmas::zone_facts))]
    pub fn stretch_at(&self, ms: i64) -> u32
        ensures value { result ≡ spec.stretch_at self.now ms }
        ensures last { spec.IsLastBegun self.now ms result }
        ensures bound { result < STRETCH_LIMIT }
    {
        let _ = &self.offsets;
        self.begun(ms).saturating_sub(1) as u32
    }

    // Local time less UTC at the timestamp, in seconds.
    fn offset_at(&self, ms: i64) -> i32
        ensures value { result ≡ spec.offset_at self.now ms }
        ensures low { neg_ℤ OFFSET_LIMIT ≤ℤ result }
        ensures high { result ≤ℤ OFFSET_LIMIT }
    {
        self.offset_in(self.stretch_at(ms) as usize)
    }

    /// Local time less UTC at the timestamp, in seconds, and when the next stretch begins.
    pub fn offset_until(&self, ms: i64) -> (i32, Option<i64>)
        ensures offset { result.0 ≡ spec.offset_at self.now ms }
        ensures next { result.1 ≡ spec.next_start self.now ms }
        ensures offset_low { neg_ℤ OFFSET_LIMIT ≤ℤ result.0 }
        ensures offset_high { result.0 ≤ℤ OFFSET_LIMIT }
        ensures later { IfSome result.1 (λ start. ms <ℤ start) }
        ensures high { IfSome result.1 (λ start. start ≤ℤ LAST) }
        // Until then the offset stays.
        ensures stays { (t : ℤ) → ms ≤ℤ t → IfSome result.1 (λ start. t <ℤ start) → spec.offset_at self.now t ≡ spec.offset_at self.now ms }
        // The zone's stretches have no fault.
        ensures valid { spec.bad_zone self.now ≡ None }
    {
        let _ = &self.offsets;
        let place = self.begun(ms);
        (
            self.offset_in(place.saturating_sub(1)),
            self.start_of(place),
        )
    }

    /// The local clock at the timestamp, in ms since 1969-12-31T00:00:00.
    pub fn local(&self, ms: i64) -> u64
        requires low { pos 0 ≤ℤ ms }
        requires high { ms ≤ℤ LAST }
        ensures value { result ≡ spec.local self.now ms }
        ensures bound { result < LAST_DAY * DAY_MS }
    {
        shifted(ms, self.offset_at(ms))
    }

    /// The local date and time of day at a timestamp, in ms since 1970-01-01T00:00:00Z and 0 to `LAST`.
    pub fn civil(&self, ms: i64) -> Civil
        requires low { pos 0 ≤ℤ ms }
        requires high { ms ≤ℤ LAST }
        ensures { result ≡ spec.civil self.now ms }
    {
        civil_of(self.local(ms))
    }

    /// The at most two timestamps with that local time, ascending: none in a gap, and two in a fold. A time that isn't
    /// one of the calendar, its weekday included, has none.
    pub fn instants_of(&self, civil: Civil) -> (Option<i64>, Option<i64>)
        ensures { AreMembers (IsInstant self.now civil) result.0 result.1 }
    {
        let _ = &self.offsets;
        match local_of(civil) {
            Some(local) => self.timestamps_at(local),
            None => (None, None),
        }
    }

    // The at most two timestamps at which the local clock, in ms since 1969-12-31T00:00:00, shows that, ascending.
    fn timestamps_at(&self, local: u64) -> (Option<i64>, Option<i64>)
        requires { local < DAY_MS * (LAST_DAY + 1) }
        ensures { AreMembers (IsShownAt self.now local) result.0 result.1 }
    {
        let _ = &self.offsets;
        // The earliest timestamp is a day and 18 hours before, and two stretches don't begin within twice 18 hours.
        let place = self.stretch_at(local.saturating_sub(GREATEST_SHIFT_MS) as i64);
        let first = self.timestamp_in(place, local);
        let second = self.timestamp_in(place + 1, local);
        match first {
            Some(_) => (first, second),
            None => (second, None),
        }
    }

    // The timestamp in the stretch at that place, at which the local clock shows that.
    fn timestamp_in(&self, place: u32, local: u64) -> Option<i64>
        requires { local < DAY_MS * (LAST_DAY + 1) }
        ensures { IsOnly (IsShownIn self.now local place) result }
    {
        let _ = &self.offsets;
        let ms = unshifted(local, self.offset_in(place as usize));
        if self.is_in_stretch(place, ms) {
            Some(ms)
        } else {
            None
        }
    }

    fn is_in_stretch(&self, place: u32, ms: i64) -> bool
        ensures { result ≡ (is_timestamp ms && (spec.stretch_at self.now ms == place)) }
    {
        0 <= ms && ms <= LAST && self.stretch_at(ms) == place
    }

    // The offset of the stretch at the place, and 0 where there is none.
    fn offset_in(&self, place: usize) -> i32
        ensures value { result ≡ spec.offset_of (slice_get self.now place) }
        ensures low { neg_ℤ OFFSET_LIMIT ≤ℤ result }
        ensures high { result ≤ℤ OFFSET_LIMIT }
    {
        let _ = &self.offsets;
        self.offset_of(place)
    }

    fn offset_of(&self, place: usize) -> i32
        ensures { result ≡ spec.offset_of (slice_get self.now place) }
    {
        offset_of(self.as_slice(), place)
    }

    fn start_of(&self, place: usize) -> Option<i64>
        ensures { result ≡ option_map (λ s. s.from) (slice_get self.now place) }
    {
        start_of(self.as_slice(), place)
    }
}

impl Clone for Zone {
    ghost is_clone = { λ a b. b ≡ a };

    fn clone(&self) -> Result<Self, AllocError> {
        Ok(match &self.offsets {
            Offsets::Fixed(only) => Zone {
                offsets: Offsets::Fixed(*only),
            },
            Offsets::Table(stretches) => Zone {
                offsets: Offsets::Table(copy_stretches(stretches)?),
            },
        })
    }
}

/// Prints the list of its stretches.
impl fmt::Debug for Zone {
    fn fmt<W: fmt::Write>(&self, f: &mut fmt::Formatter<W>) -> fmt::Result {
        self.as_slice().fmt(f)
    }
}

// The same stretches again.
#[tactic(auto, using(crate::proofs::CloneLaws::same_items))]
fn copy_stretches(stretches: &List<Stretch>) -> Result<List<Stretch>, AllocError>
    ensures { IfOk result (λ copy. copy ≡ stretches.now) }
{
    stretches.clone()
}

// The local clock at an offset.
#[tactic(auto, using(jiff_core::proofs::SignedLemmas::signed_arith))]
fn shifted(ms: i64, offset: i32) -> u64
    requires low { pos 0 ≤ℤ ms }
    requires high { ms ≤ℤ LAST }
    requires offset_low { neg_ℤ OFFSET_LIMIT ≤ℤ offset }
    requires offset_high { offset ≤ℤ OFFSET_LIMIT }
    ensures value { result ≡ unsigned_abs (ms +ℤ pos DAY_MS +ℤ offset *ℤ pos 1000) }
    ensures bound { result < LAST_DAY * DAY_MS }
{
    (ms + DAY_MS as i64 + i64::from(offset) * 1000) as u64
}

// The timestamp at which the local clock at an offset shows that.
#[tactic(auto, using(jiff_core::proofs::SignedLemmas::signed_arith))]
pub(crate) fn unshifted(local: u64, offset: i32) -> i64
    requires local { local < DAY_MS * (LAST_DAY + 1) }
    requires offset_low { neg_ℤ OFFSET_LIMIT ≤ℤ offset }
    requires offset_high { offset ≤ℤ OFFSET_LIMIT }
    ensures { result ≡ pos local -ℤ pos DAY_MS -ℤ offset *ℤ pos 1000 }
{
    local as i64 - DAY_MS as i64 - i64::from(offset) * 1000
}
