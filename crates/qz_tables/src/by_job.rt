//! Slots that stand side by side by the jobs of their rows: the slots of a job are found by binary search.
ghost use Rattle.std.specs.Prelude.{◌≡◌, ◌≤◌, ◌<◌, ℕ, None, Some, IfSome, IsSome, length, slice_get, slice_index_or};
ghost use Rattle.qz_types.specs.Words.{key_cmp};
ghost use Rattle.qz_types.specs.declared.keys.Key.{Key};
ghost use Rattle.qz_tables.specs.ByJob.{is_below, AreByJob, IsBoundOf, IsRangeOf, AreSlotsOf};
ghost use Rattle.qz_tables.specs.Once.{AreOnce};
ghost use Rattle.qz_tables.specs.Slots.{rows_at};

use crate::guesses::Marked;
use crate::indexed::Indexed;
use qz_types::{Key, Keyed, TriggerRow};
use std::cmp::Ordering;

/// A row that is of a job.
pub trait OfAJob: Keyed {
    ghost job: { Self → Key };

    fn job(&self) -> &Key
        ensures { result.now ≡ job self.now };
}

impl OfAJob for TriggerRow {
    ghost job = { λ r. r.spec.job };

    fn job(&self) -> &Key {
        &self.spec.job
    }
}

/// The two bounds of a job: before the lower one stands what is of earlier jobs, and before the upper one also what is of
/// the job itself.
#[derive(Clone, Copy)]
pub enum Bound {
    Lower,
    Upper,
}

// Whether the row in this slot stands before the bound of the job.
fn is_below<R: Marked + OfAJob>(rows: &Indexed<R>, slot: usize, bound: Bound, job: &Key) -> bool
    requires { IsSome (slice_index_or rows.now.slots slot None) }
    ensures { IfSome (slice_index_or rows.now.slots slot None) (λ r. result ≡ is_below bound (key_cmp (R.job r) job.now)) }
{
    let Some(row) = rows.at(slot) else {
        unreachable!()
    };
    let order = row.job().cmp(job);
    match bound {
        Bound::Lower => order == Ordering::Less,
        Bound::Upper => order != Ordering::Greater,
    }
}

/// How many slots stand before the bound of the job.
pub fn bound_of<R: Marked + OfAJob>(
    rows: &Indexed<R>,
    order: &[usize],
    bound: Bound,
    job: &Key,
) -> usize
    requires once { AreOnce rows.now.slots order.now }
    requires sorted { AreByJob R.job (rows_at rows.now.slots order.now) }
    ensures { IsBoundOf R.job bound job.now (rows_at rows.now.slots order.now) result }
{
    let mut low = 0;
    let mut high = order.len();
    while low < high {
        let middle = low + (high - low) / 2;
        if is_below(rows, order[middle], bound, job) {
            low = middle + 1;
        } else {
            high = middle;
        }
    }
    low
}

// The places of the slots of a job: the first one, and the one after the last.
fn range_of<R: Marked + OfAJob>(rows: &Indexed<R>, order: &[usize], job: &Key) -> (usize, usize)
    requires once { AreOnce rows.now.slots order.now }
    requires sorted { AreByJob R.job (rows_at rows.now.slots order.now) }
    ensures range { IsRangeOf R.job job.now (rows_at rows.now.slots order.now) result.0 result.1 }
    ensures within { result.1 ≤ length order.now }
{
    let low = bound_of(rows, order, Bound::Lower, job);
    let high = bound_of(rows, order, Bound::Upper, job);
    (low, high)
}

/// The slots of a job, in their order.
pub fn slots_of<'a, R: Marked + OfAJob>(
    rows: &Indexed<R>,
    order: &'a [usize],
    job: &Key,
) -> &'a [usize]
    requires once { AreOnce rows.now.slots order.now }
    requires sorted { AreByJob R.job (rows_at rows.now.slots order.now) }
    ensures { AreSlotsOf R.job job.now rows.now.slots order.now result.now }
{
    let (low, high) = range_of(rows, order, job);
    &order[low..high]
}

/// The place of this slot.
pub fn place_in<R: Marked + OfAJob>(rows: &Indexed<R>, order: &[usize], slot: usize) -> usize
    requires there { IsSome (slice_index_or rows.now.slots slot None) }
    requires once { AreOnce rows.now.slots order.now }
    requires sorted { AreByJob R.job (rows_at rows.now.slots order.now) }
    ensures { slice_get order.now result ≡ Some slot }
{
    let Some(row) = rows.at(slot) else {
        unreachable!()
    };
    let (low, high) = range_of(rows, order, row.job());
    let mut place = low;
    while place < high {
        if order[place] == slot {
            return place;
        }
        place += 1;
    }
    unreachable!()
}
