//! The stretches of a zone's table.
ghost use Rattle.std.specs.Prelude.{◌≡◌, ◌&&◌, pos, ◌≤ℤ◌, Some, None, option_map, slice_get};
ghost use Rattle.qz_civil.specs.Timings.{is_timestamp};
ghost use Rattle.qz_civil.specs.Zones as spec;

use crate::limits::{LAST, OFFSET_LIMIT, STRETCH_LENGTH, STRETCH_LIMIT};
use thiserror::Error;

/// A time in which a zone keeps one offset. It ends where the next one begins.
#[derive(Clone, Copy, PartialEq, Eq, Debug)]
pub struct Stretch {
    /// In ms since 1970-01-01T00:00:00Z.
    pub from: i64,
    /// Local time less UTC, in seconds.
    pub offset: i32,
}

/// Why a list of stretches is no zone. Places count from 0. Of several faults the answer is `Empty`, or else
/// `TooManyStretches`, or else that of the least place with one: `FromOutOfRange`, then `OffsetOutOfRange`, then
/// `NotAscending`.
#[derive(Clone, Copy, PartialEq, Eq, Debug, Error)]
pub enum BadZone {
    #[error("a zone has at least one stretch")]
    Empty,
    #[error("stretch {place} doesn't begin at least 48 hours after the one before")]
    NotAscending { place: u64 },
    #[error("the offset of stretch {place} is more than 18 hours")]
    OffsetOutOfRange { place: u64 },
    #[error("stretch {place} begins at no known timestamp")]
    FromOutOfRange { place: u64 },
    #[error("{count} stretches are too many")]
    TooManyStretches { count: u64 },
}

// Why the stretches are no table of a zone.
#[tactic(auto, unfolding(crate::specs::Zones::bad_zone))]
pub(crate) fn fault_of(stretches: &[Stretch]) -> Option<BadZone>
    ensures { result ≡ spec.bad_zone stretches.now }
{
    if stretches.is_empty() {
        return Some(BadZone::Empty);
    }
    let count = stretches.len() as u64;
    if count > STRETCH_LIMIT {
        return Some(BadZone::TooManyStretches { count });
    }
    fault_of_places(stretches)
}

fn fault_of_places(stretches: &[Stretch]) -> Option<BadZone>
    ensures { result ≡ spec.bad_place 0 None stretches.now }
{
    let mut before = None;
    for (place, stretch) in stretches.iter().enumerate() {
        let place = place as u64;
        if !begins_at_timestamp(stretch) {
            return Some(BadZone::FromOutOfRange { place });
        }
        if !is_offset(stretch.offset) {
            return Some(BadZone::OffsetOutOfRange { place });
        }
        if !is_apart(before, stretch.from) {
            return Some(BadZone::NotAscending { place });
        }
        before = Some(stretch.from);
    }
    None
}

fn begins_at_timestamp(stretch: &Stretch) -> bool
    ensures { result ≡ is_timestamp stretch.now.from }
{
    0 <= stretch.from && stretch.from <= LAST
}

/// Whether a stretch may begin at `from` where the one before it begins at `before`. Both are in ms since
/// 1970-01-01T00:00:00Z.
pub fn may_begin(before: Option<i64>, from: i64) -> bool
    ensures { result ≡ (is_timestamp from && spec.is_apart before from) }
{
    0 <= from && from <= LAST && is_apart(before, from)
}

/// Whether local time may be that many seconds from UTC.
pub fn is_offset(offset: i32) -> bool
    ensures { result ≡ spec.is_offset offset }
{
    -OFFSET_LIMIT <= offset && offset <= OFFSET_LIMIT
}

fn is_apart(before: Option<i64>, from: i64) -> bool
    requires { pos 0 ≤ℤ from }
    ensures { result ≡ spec.is_apart before from }
{
    match before {
        None => true,
        Some(before) => before <= from - STRETCH_LENGTH,
    }
}

// How many stretches have begun, found by halves.
pub(crate) fn count_begun(stretches: &[Stretch], ms: i64) -> usize
    requires { spec.bad_zone stretches.now ≡ None }
    ensures { result ≡ spec.begun stretches.now ms }
{
    stretches.partition_point(|stretch| stretch.from <= ms)
}

// The offset of the stretch at the place.
pub(crate) fn offset_of(stretches: &[Stretch], place: usize) -> i32
    ensures { result ≡ spec.offset_of (slice_get stretches.now place) }
{
    match stretches.get(place) {
        Some(stretch) => stretch.offset,
        None => 0,
    }
}

// When the stretch at the place begins.
pub(crate) fn start_of(stretches: &[Stretch], place: usize) -> Option<i64>
    ensures { result ≡ option_map (λ s. s.from) (slice_get stretches.now place) }
{
    stretches.get(place).map(|stretch| stretch.from)
}
