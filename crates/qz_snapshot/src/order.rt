//! Whether rows are in the order of their ids.
ghost use Rattle.std.specs.Prelude.{◌≡◌, ◌↔◌, IsTrue};
ghost use Rattle.std.specs.Ordering.{is_lt};
ghost use Rattle.qz_types.specs.Sorted.{IsAscending};
ghost use Rattle.qz_model.specs.Invariant.{AreOrdered};

use crate::parts::Parts;
use qz_types::Keyed;
use std::cmp::Ordering;

// Whether the row's id comes before that of the other.
fn is_before<R: Keyed>(row: &R, other: &R) -> bool
    ensures { result ≡ is_lt (R.Id.cmp (R.id row.now) (R.id other.now)) }
{
    row.id().cmp(other.id()) == Ordering::Less
}

// Whether each row's id comes before the next one's.
fn is_ascending<R: Keyed>(rows: &[R]) -> bool
    ensures { IsTrue result ↔ IsAscending R.Id.cmp R.id rows.now }
{
    for next in 1..rows.len() {
        if !is_before(&rows[next - 1], &rows[next]) {
            return false;
        }
    }
    true
}

/// Whether the rows of each kind are in the order of their ids.
pub(crate) fn are_ordered(parts: &Parts) -> bool
    ensures { IsTrue result ↔ AreOrdered parts.now }
{
    if !is_ascending(&parts.jobs) {
        return false;
    }
    if !is_ascending(&parts.triggers) {
        return false;
    }
    if !is_ascending(&parts.calendars) {
        return false;
    }
    if !is_ascending(&parts.zones) {
        return false;
    }
    if !is_ascending(&parts.paused_groups) {
        return false;
    }
    if !is_ascending(&parts.paused_job_groups) {
        return false;
    }
    if !is_ascending(&parts.members) {
        return false;
    }
    is_ascending(&parts.fired)
}
