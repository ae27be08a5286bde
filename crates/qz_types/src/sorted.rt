//! Lists of rows in the order of their ids: look-ups and edits, once for every kind of row.
ghost use Rattle.std.specs.Prelude.{◌≡◌, ◌<◌, IsOk, IfErr, OnOk, OnErr, option_copied, vec_len, vec_capacity};
ghost use Rattle.qz_types.specs.Sorted.{place_of, row_of, put};

use crate::{CalendarRow, FiredRow, JobRow, Key, MemberRow, StateRow, TriggerRow, ZoneRow};
use qz_civil::Text;
use std::alloc::AllocFailed;
use std::cmp::Ordering;

/// A row with an id of its own, by which its list is ordered: a key, a node's name or an entry number.
pub trait Keyed {
    type Id: Ord;

    ghost id: { Self → Self.Id };

    fn id(&self) -> &Self::Id
        ensures { result.now ≡ id self.now };

    /// How another id compares with the row's.
    fn compare(&self, other: &Self::Id) -> Ordering
        ensures { result ≡ Self.Id.cmp other.now (id self.now) }
    {
        other.cmp(self.id())
    }
}

impl Keyed for JobRow {
    type Id = Key;

    ghost id = { λ r. r.key };

    fn id(&self) -> &Key {
        &self.key
    }
}

impl Keyed for CalendarRow {
    type Id = Text;

    ghost id = { λ r. r.name };

    fn id(&self) -> &Text {
        &self.name
    }
}

impl Keyed for ZoneRow {
    type Id = Text;

    ghost id = { λ r. r.name };

    fn id(&self) -> &Text {
        &self.name
    }
}

/// A paused group is its own id.
impl Keyed for Text {
    type Id = Text;

    ghost id = { λ r. r };

    fn id(&self) -> &Text {
        self
    }
}

impl Keyed for MemberRow {
    type Id = Text;

    ghost id = { λ r. r.node };

    fn id(&self) -> &Text {
        &self.node
    }
}

impl Keyed for TriggerRow {
    type Id = Key;

    ghost id = { λ r. r.spec.key };

    fn id(&self) -> &Key {
        &self.spec.key
    }
}

impl Keyed for StateRow {
    type Id = Text;

    ghost id = { λ r. r.node };

    fn id(&self) -> &Text {
        &self.node
    }
}

impl Keyed for FiredRow {
    type Id = u64;

    ghost id = { λ r. r.entry };

    fn id(&self) -> &u64 {
        &self.entry
    }
}

/// Where a row of this id stands, or would be put.
pub fn place<R: Keyed>(rows: &[R], id: &R::Id) -> usize
    ensures { result ≡ place_of R.Id.cmp R.id id.now rows.now }
{
    let mut at = 0;
    for row in rows {
        if id.cmp(row.id()) != Ordering::Greater {
            return at;
        }
        at += 1;
    }
    at
}

/// The row of this id.
pub fn find<'a, R: Keyed>(rows: &'a [R], id: &R::Id) -> Option<&'a R>
    ensures { option_copied result ≡ row_of R.Id.cmp R.id id.now rows.now }
{
    for row in rows {
        if id.cmp(row.id()) == Ordering::Equal {
            return Some(row);
        }
    }
    None
}

/// Puts in a row at its place.
///
/// The row comes back where memory runs out, which it can't where there is room.
pub fn insert<R: Keyed>(rows: &mut Vec<R>, row: R) -> Result<(), AllocFailed<R>>
    ensures ok { OnOk result (rows.new.items ≡ put R.Id.cmp R.id row rows.old.items) }
    ensures err { OnErr result (rows.new.items ≡ rows.old.items) }
    ensures value_returned { IfErr result (λ e. e.value ≡ row) }
    ensures succeeds { vec_len rows.old < vec_capacity rows.old → IsOk result }
{
    let at = place(rows, row.id());
    rows.insert(at, row)
}
