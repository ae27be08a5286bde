//! Whether the stretches of a rule are a zone's.
ghost use Rattle.std.specs.Prelude.{◌≡◌, ◌∷◌, [], ◌≤ℤ◌, pos};
ghost use Rattle.jiff_tz.specs.declared.timezone.TimeZone.TheVariants.{Posix};
ghost use Rattle.qz_civil.specs.Zones as zones;
ghost use Rattle.qz_zone_rule.specs.Tables as spec;

use crate::changes::Changes;
use crate::quarters::stretch_at;
use jiff_tz::posix::TimeZone;
use qz_civil::{BadZone, LAST, STRETCH_LIMIT, Stretch, is_offset, may_begin};

/// Why the stretches of a rule are no table of a zone. It takes no memory, so that no want of it hides a fault.
pub(crate) fn fault_of(rule: &TimeZone) -> Option<BadZone>
    ensures { result ≡ zones.bad_zone (spec.table (spec.offset (Posix rule.now))) }
{
    let mut before = stretch_at(rule, 0);
    let mut fault = fault_at(0, None, before);
    let mut count = 1;
    let mut changes = Changes::of(rule);
    while let Some(stretch) = changes.next() {
        fault = fault.or(fault_at(count, Some(before.from), stretch));
        before = stretch;
        count += 1;
    }
    if count > STRETCH_LIMIT {
        Some(BadZone::TooManyStretches { count })
    } else {
        fault
    }
}

/// The fault of a stretch at a place, from 0, where the one before it begins at `before`.
fn fault_at(place: u64, before: Option<i64>, stretch: Stretch) -> Option<BadZone>
    ensures { result ≡ zones.bad_place place before (stretch ∷ []) }
{
    if stretch.from < 0 || LAST < stretch.from {
        Some(BadZone::FromOutOfRange { place })
    } else if !is_offset(stretch.offset) {
        Some(BadZone::OffsetOutOfRange { place })
    } else if !may_begin(before, stretch.from) {
        Some(BadZone::NotAscending { place })
    } else {
        None
    }
}
