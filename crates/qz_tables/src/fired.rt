//! The fired rows of the tables.
ghost use Rattle.std.specs.Prelude.{◌≡◌, ◌≤◌, ◌<◌, ◌+◌, None, Some, IsSome, IfSome, IfNone, OnSome, IfOk, option_copied, length, map, slice_get, filter};
ghost use Rattle.std.specs.Ordering.{nat_cmp};
ghost use Rattle.qz_types.specs.Sorted.{IsAscending};
ghost use Rattle.qz_types.specs.Words.{fired_of, put_fired, without_fired, with_fired};
ghost use Rattle.qz_tables.specs.Contents.{KeepsSpare, one_fired};
ghost use Rattle.qz_types.specs.States.{is_acquired_for};
ghost use Rattle.qz_tables.specs.Acquired.{acquired_row_of};
ghost use Rattle.qz_types.specs.Changes.{begun};

use crate::edits::Begin;
use crate::indexed::Indexed;
use crate::tables::Tables;
use qz_types::{FiredRow, FiredState, Key, NoMemory};
use std::alloc::Global;
use std::cmp::Ordering;

impl Tables {
    /// The fired row of this entry number.
    #[tactic(auto, unfolding(qz_types::specs::Words::fired_of))]
    pub fn get_fired(&self, entry: u64) -> Option<&FiredRow>
        ensures row { option_copied result ≡ fired_of entry self.now.tables.fired }
        ensures sorted { IsAscending nat_cmp (λ r. r.entry) self.now.tables.fired }
    {
        self.fired.get(&entry)
    }

    /// The fired row at this place in the order of the entry numbers, counted from 0.
    pub fn nth_fired(&self, place: usize) -> Option<&FiredRow>
        ensures { option_copied result ≡ slice_get self.now.tables.fired place }
    {
        self.fired.nth(place)
    }

    /// How many fired rows there are.
    pub fn len_fired(&self) -> usize
        ensures { result ≡ length self.now.tables.fired }
    {
        self.fired.len()
    }

    /// The fired rows in the order of the entry numbers.
    pub fn sorted_fired(&self, alloc: Global) -> Result<Vec<&FiredRow>, NoMemory>
        ensures { IfOk result (λ rows. map (λ r. r.now) rows.items ≡ self.now.tables.fired) }
    {
        Ok(self.fired.sorted(alloc)?)
    }

    /// Puts in a fired row of a new entry number, in the room that is left.
    #[tactic(auto, unfolding(qz_types::specs::Words::fired_of, qz_types::specs::Words::put_fired))]
    pub fn insert_fired(&mut self, row: FiredRow)
        requires absent { fired_of row.entry self.old.tables.fired ≡ None }
        requires room { 0 < self.old.spare.fired }
        ensures tables { self.new.tables ≡ record self.old.tables { fired = put_fired row self.old.tables.fired } }
        ensures links { self.new.links ≡ self.old.links }
        ensures spare { KeepsSpare self.old.spare (one_fired self.new.spare) }
    {
        self.fired.insert(row);
    }

    /// Takes out the fired row of this entry number.
    #[tactic(auto, unfolding(qz_types::specs::Words::fired_of, qz_types::specs::Words::without_fired))]
    pub fn remove_fired(&mut self, entry: u64) -> Option<FiredRow>
        ensures row { result ≡ fired_of entry self.old.tables.fired }
        ensures tables { self.new.tables ≡ record self.old.tables { fired = without_fired entry self.old.tables.fired } }
        ensures links { self.new.links ≡ self.old.links }
        ensures spare { KeepsSpare self.old.spare self.new.spare }
        ensures freed { OnSome result (KeepsSpare (one_fired self.old.spare) self.new.spare) }
    {
        self.fired.remove(&entry)
    }

    /// Puts a fired row in place of that of its entry number, and gives the old one.
    #[tactic(auto, unfolding(qz_types::specs::Words::fired_of, qz_types::specs::Words::with_fired))]
    pub fn change_fired(&mut self, row: FiredRow) -> FiredRow
        requires { IsSome (fired_of row.entry self.old.tables.fired) }
        ensures row { Some result ≡ fired_of row.entry self.old.tables.fired }
        ensures tables { self.new.tables ≡ record self.old.tables { fired = with_fired row.entry (λ _. row) self.old.tables.fired } }
        ensures links { self.new.links ≡ self.old.links }
        ensures spare { KeepsSpare self.old.spare self.new.spare }
    {
        let (_, old) = self.fired.change(row);
        old
    }

    /// The execution of the row of this entry number begins, if it is stored, at this moment, in ms since
    /// 1970-01-01T00:00:00Z, with these flags of its job.
    #[tactic(auto, unfolding(qz_types::specs::Words::with_fired))]
    pub fn begin_execution(&mut self, entry: u64, begin: Begin)
        ensures tables { self.new.tables ≡ record self.old.tables { fired = with_fired entry (begun begin.moment begin.no_concurrent begin.requests_recovery) self.old.tables.fired } }
        ensures links { self.new.links ≡ self.old.links }
        ensures spare { KeepsSpare self.old.spare self.new.spare }
    {
        self.fired.edit(&entry, &begin);
    }

    /// The row of an acquired trigger of this key: of several that of the least entry number.
    ///
    /// It looks at every fired row.
    #[tactic(auto, unfolding(crate::specs::Acquired::acquired_row_of))]
    pub fn acquired_row(&self, trigger: &Key) -> Option<&FiredRow>
        ensures { option_copied result ≡ acquired_row_of trigger.now self.now.tables.fired }
    {
        first_acquired(&self.fired, trigger)
    }
}

fn first_acquired<'a>(rows: &'a Indexed<FiredRow>, trigger: &Key) -> Option<&'a FiredRow>
    ensures { option_copied result ≡ slice_get (filter (is_acquired_for trigger.now) rows.now.rows) 0 }
{
    let mut place = 0;
    let count = rows.len();
    while place < count {
        let Some(row) = rows.nth(place) else {
            unreachable!()
        };
        if is_acquired_for(row, trigger) {
            return Some(row);
        }
        place += 1;
    }
    None
}

#[tactic(auto, unfolding(qz_types::specs::States::is_acquired_for, qz_types::specs::Words::same_key))]
fn is_acquired_for(row: &FiredRow, trigger: &Key) -> bool
    ensures { result ≡ is_acquired_for trigger.now row.now }
{
    matches!(row.state, FiredState::Acquired) && trigger.cmp(&row.trigger) == Ordering::Equal
}
