//! The triggers, and those of each job in the order in which they became its triggers.
ghost use Rattle.std.specs.List.{remove};
ghost use Rattle.std.specs.Prelude.{true, not, filter, [], ◌≡◌, ◌≢◌, ◌≤◌, ◌<◌, ◌+◌, ℕ, None, Some, IsSome, IfSome, IfNone, IfOk, OnOk, OnErr, IsOk, OnSome, IsPermutation, option_copied, length, map, slice_get, slice_index_or};
ghost use Rattle.std.specs.Ordering.{nat_cmp, is_eq};
ghost use Rattle.qz_types.specs.Sorted.{row_of, put, IsAscending};
ghost use Rattle.qz_types.specs.Words.{key_cmp, same_key};
ghost use Rattle.qz_types.specs.Changes.{with_states};
ghost use Rattle.qz_types.specs.Rows.{TriggerData};
ghost use Rattle.qz_types.specs.declared.keys.Key.{Key};
ghost use Rattle.qz_tables.specs.Changes.{changed, trigger_edited, IsFit, changed_nth};
ghost use Rattle.qz_tables.specs.Ids.{changed_at, without};
ghost use Rattle.qz_tables.specs.Due.{due_first, due_next};
ghost use Rattle.qz_tables.specs.Jobs.{triggers_of};
ghost use Rattle.qz_tables.specs.Once.{AreApart};
ghost use Rattle.qz_tables.specs.Slots.{AreFilled, edited_in};
ghost use Rattle.qz_tables.specs.Links.{linked, KeepsLinks, KeepsOtherLinks, IsLinked, IsUnlinked, IsMoved};
ghost use Rattle.qz_tables.specs.declared.edits.TriggerEdit.TheVariants.{State};

use crate::by_job::{Bound, bound_of, place_in, slots_of};
use crate::edits::{StateChange, TriggerEdit};
use crate::indexed::Test;
use crate::job_triggers::JobTriggers;
use crate::timed::Timed;
use qz_types::{Key, TriggerRow};
use std::alloc::{AllocError, Global};
use std::cmp::Ordering;
use std::marker::Model;

/// The triggers in the order of their keys, and their slots side by side by their jobs. Those of one job stand in the order
/// of linking, so they are found by binary search and read one after another.
#[derive(Drop)]
pub struct Linked {
    rows: Timed,
    linked: Vec<usize>,
}

impl Model for Linked {
    ghost use Rattle.std.specs.Prelude.{◌-◌, min, vec_len};
    ghost use Rattle.std.specs.Vec.{vec_capacity};
    ghost use Rattle.qz_tables.specs.Slots.{rows_at};
    ghost use Rattle.qz_tables.specs.Linking.{LinkedData, links_of};
    ghost use Rattle.qz_tables.specs.ByJob.{AreByJob};
    ghost use Rattle.qz_tables.specs.Once.{AreOnce};

    ghost Value = { LinkedData };

    ghost view = { λ a. record {
      rows = a.rows.rows;
      links = links_of (rows_at a.rows.slots a.linked.items);
      spare = min a.rows.spare (vec_capacity a.linked - vec_len a.linked);
    } };

    ghost invariant = { λ a. AreOnce a.rows.slots a.linked.items × AreByJob (λ t. t.spec.job) (rows_at a.rows.slots a.linked.items) };
}

// Changes the states of the triggers in these slots.
fn change_slots(rows: &mut Timed, slots: &[usize], change: StateChange)
    requires filled { AreFilled rows.old.slots slots.now }
    requires apart { AreApart slots.now }
    ensures each { (s : ℕ) → slice_index_or rows.new.slots s None ≡ edited_in (trigger_edited (State change)) slots.now s (slice_index_or rows.old.slots s None) }
    ensures order { rows.new.order ≡ rows.old.order }
    ensures spare { rows.new.spare ≡ rows.old.spare }
{
    let edit = TriggerEdit::State(change);
    for place in 0..slots.len() {
        rows.edit_slot(slots[place], &edit);
    }
}

impl Linked {
    /// No triggers.
    pub fn new(alloc: Global) -> Self
        ensures rows { result.rows ≡ [] }
        ensures links { result.links ≡ [] }
    {
        Linked {
            rows: Timed::new(alloc),
            linked: Vec::new(alloc),
        }
    }

    /// What gives it memory.
    pub fn allocator(&self) -> Global {
        *self.linked.allocator()
    }

    /// The trigger of this key.
    pub fn get(&self, key: &Key) -> Option<&TriggerRow>
        ensures row { option_copied result ≡ row_of key_cmp (λ r. r.spec.key) key.now self.now.rows }
        ensures sorted { IsAscending key_cmp (λ r. r.spec.key) self.now.rows }
    {
        self.rows.get(key)
    }

    /// The trigger at this place in the order of the keys, counted from 0.
    pub fn nth(&self, place: usize) -> Option<&TriggerRow>
        ensures { option_copied result ≡ slice_get self.now.rows place }
    {
        self.rows.nth(place)
    }

    /// How many triggers there are.
    pub fn len(&self) -> usize
        ensures { result ≡ length self.now.rows }
    {
        self.rows.len()
    }

    /// The first trigger that waits, in due order.
    pub fn due_first(&self) -> Option<&TriggerRow>
        ensures { option_copied result ≡ due_first self.now.rows }
    {
        self.rows.due_first()
    }

    /// The next trigger that waits and passes, in due order, after the one of this key, if one is given. There is none
    /// where that isn't stored.
    pub fn due_next<T: Test<TriggerRow>>(
        &self,
        after: Option<&Key>,
        test: &T,
    ) -> Option<&TriggerRow>
        ensures { option_copied result ≡ due_next (option_copied after.entry) (T.test test.now) self.now.rows }
    {
        self.rows.due_next(after, test)
    }

    /// The triggers in the order of their keys.
    pub fn sorted(&self, alloc: Global) -> Result<Vec<&TriggerRow>, AllocError>
        ensures { IfOk result (λ v. map (λ r. r.now) v.items ≡ self.now.rows) }
    {
        self.rows.sorted(alloc)
    }

    /// Makes room for so many triggers more.
    pub fn reserve(&mut self, more: usize) -> Result<(), AllocError>
        ensures rows { self.new.rows ≡ self.old.rows }
        ensures links { self.new.links ≡ self.old.links }
        ensures room { OnOk result (more ≤ self.new.spare) }
        ensures succeeds { more ≤ self.old.spare → IsOk result }
        ensures spare { self.old.spare ≤ self.new.spare }
    {
        self.rows.reserve(more)?;
        self.linked.reserve(more)
    }

    /// Puts in a trigger of a new key, in the room that is left.
    pub fn insert(&mut self, row: TriggerRow)
        requires absent { row_of key_cmp (λ r. r.spec.key) row.spec.key self.old.rows ≡ None }
        requires room { 0 < self.old.spare }
        ensures rows { self.new.rows ≡ put key_cmp (λ r. r.spec.key) row self.old.rows }
        ensures links { IsLinked row.spec.job row.spec.key self.old.links self.new.links }
        ensures spare { self.old.spare ≤ self.new.spare + 1 }
    {
        let place = bound_of(
            self.rows.in_slots(),
            &self.linked,
            Bound::Upper,
            &row.spec.job,
        );
        let slot = self.rows.insert(row);
        let Ok(()) = self.linked.insert(place, slot) else {
            unreachable!()
        };
    }

    /// Takes out the trigger of this key.
    pub fn remove(&mut self, key: &Key) -> Option<TriggerRow>
        ensures row { result ≡ row_of key_cmp (λ r. r.spec.key) key.now self.old.rows }
        ensures none { IfNone result (self.new ≡ self.old) }
        ensures rows { self.new.rows ≡ without key_cmp (λ r. r.spec.key) key.now self.old.rows }
        ensures links { IfSome result (λ r. IsUnlinked r.spec.job r.spec.key self.old.links self.new.links) }
        ensures sorted { IsAscending key_cmp (λ r. r.spec.key) self.old.rows }
        ensures freed { OnSome result (self.old.spare + 1 ≤ self.new.spare) }
        ensures spare { self.old.spare ≤ self.new.spare }
    {
        let rows = self.rows.in_slots();
        rows.laws();
        let Some(slot) = rows.slot(key) else {
            return None;
        };
        let place = place_in(rows, &self.linked, slot);
        let Some((_, row)) = self.rows.take(key) else {
            unreachable!()
        };
        self.linked.remove(place);
        Some(row)
    }

    /// Changes the trigger of this key in place, if it is stored.
    pub fn edit(&mut self, key: &Key, edit: &TriggerEdit)
        requires { (row : TriggerData) → row_of key_cmp (λ r. r.spec.key) key.now self.old.rows ≡ Some row → IsFit edit.now row }
        ensures rows { self.new.rows ≡ changed_at key_cmp (λ r. r.spec.key) key.now (trigger_edited edit.now) self.old.rows }
        ensures links { KeepsLinks self.old.links self.new.links }
        ensures spare { self.old.spare ≤ self.new.spare }
    {
        self.rows.edit(key, edit);
    }

    /// Changes the states of the triggers that pass.
    ///
    /// It looks at every trigger.
    pub fn change_states<T: Test<TriggerRow>>(&mut self, test: &T, change: StateChange)
        ensures rows { self.new.rows ≡ with_states (changed change) (T.test test.now) self.old.rows }
        ensures links { KeepsLinks self.old.links self.new.links }
        ensures spare { self.old.spare ≤ self.new.spare }
    {
        let edit = TriggerEdit::State(change);
        let count = self.len();
        let mut place = 0;
        while place < count {
            if self.rows.passes_nth(place, test) {
                self.edit_nth(place, &edit);
            }
            place += 1;
        }
    }

    /// Changes each trigger in place.
    pub fn edit_all(&mut self, edit: &TriggerEdit)
        requires { (row : TriggerData) → IsFit edit.now row }
        ensures rows { self.new.rows ≡ map (trigger_edited edit.now) self.old.rows }
        ensures links { KeepsLinks self.old.links self.new.links }
        ensures spare { self.old.spare ≤ self.new.spare }
    {
        let count = self.len();
        let mut place = 0;
        while place < count {
            self.edit_nth(place, edit);
            place += 1;
        }
    }

    fn edit_nth(&mut self, place: usize, edit: &TriggerEdit)
        requires present { place < length self.old.rows }
        requires fit { (row : TriggerData) → slice_get self.old.rows place ≡ Some row → IsFit edit.now row }
        ensures rows { self.new.rows ≡ changed_nth (trigger_edited edit.now) place self.old.rows }
        ensures links { KeepsLinks self.old.links self.new.links }
        ensures spare { self.old.spare ≤ self.new.spare }
    {
        self.rows.edit_nth(place, edit);
    }

    fn remove_nth(&mut self, place: usize) -> TriggerRow
        requires { place < length self.old.rows }
        ensures row { Some result ≡ slice_get self.old.rows place }
        ensures rows { self.new.rows ≡ remove self.old.rows place }
        ensures links { IsUnlinked result.spec.job result.spec.key self.old.links self.new.links }
        ensures spare { self.old.spare ≤ self.new.spare }
    {
        let rows = self.rows.in_slots();
        rows.laws();
        let at = place_in(rows, &self.linked, rows.slot_nth(place));
        let (_, row) = self.rows.take_nth(place);
        self.linked.remove(at);
        row
    }

    /// The triggers of a job, in the order of linking.
    pub fn of_job<'a>(&'a self, job: &Key) -> JobTriggers<'a>
        ensures links { map (λ t. t.spec.key) result ≡ linked job.now self.now.links }
        ensures rows { IsPermutation (triggers_of job.now self.now.rows) result }
    {
        let rows = self.rows.in_slots();
        rows.laws();
        JobTriggers::new(rows, slots_of(rows, &self.linked, job))
    }

    /// Changes the states of a job's triggers.
    pub fn change_job(&mut self, job: &Key, change: StateChange)
        ensures rows { self.new.rows ≡ with_states (changed change) (λ t. same_key job.now t.spec.job) self.old.rows }
        ensures links { KeepsLinks self.old.links self.new.links }
        ensures spare { self.old.spare ≤ self.new.spare }
    {
        self.rows.in_slots().laws();
        let slots = slots_of(self.rows.in_slots(), &self.linked, job);
        change_slots(&mut self.rows, slots, change);
        self.rows.in_slots().laws();
    }

    /// Takes out a job's triggers.
    pub fn remove_job(&mut self, job: &Key)
        ensures rows { self.new.rows ≡ filter (λ t. not (same_key job.now t.spec.job)) self.old.rows }
        ensures links { KeepsOtherLinks job.now self.old.links self.new.links }
        ensures spare { self.old.spare ≤ self.new.spare }
    {
        while let Some(row) = self.remove_first(job) {
            drop(row);
        }
    }

    // Takes out the first of a job's triggers.
    fn remove_first(&mut self, job: &Key) -> Option<TriggerRow>
        ensures rows { filter (λ t. not (same_key job.now t.spec.job)) self.new.rows ≡ filter (λ t. not (same_key job.now t.spec.job)) self.old.rows }
        ensures fewer { OnSome result (length self.new.rows + 1 ≡ length self.old.rows) }
        ensures none { IfNone result (filter (λ t. not (same_key job.now t.spec.job)) self.new.rows ≡ self.new.rows) }
        ensures links { KeepsOtherLinks job.now self.old.links self.new.links }
        ensures spare { self.old.spare ≤ self.new.spare }
    {
        let rows = self.rows.in_slots();
        rows.laws();
        let Some(slot) = slots_of(rows, &self.linked, job).first() else {
            return None;
        };
        let place = rows.place_at(*slot);
        Some(self.remove_nth(place))
    }

    /// Puts a trigger in place of that of its key, and gives the old one. A trigger of another job than before is linked
    /// last to it.
    pub fn change(&mut self, row: TriggerRow) -> TriggerRow
        requires { IsSome (row_of key_cmp (λ r. r.spec.key) row.spec.key self.old.rows) }
        ensures row { Some result ≡ row_of key_cmp (λ r. r.spec.key) row.spec.key self.old.rows }
        ensures rows { self.new.rows ≡ changed_at key_cmp (λ r. r.spec.key) row.spec.key (λ _. row) self.old.rows }
        ensures stays { result.spec.job ≡ row.spec.job → KeepsLinks self.old.links self.new.links }
        ensures moves { result.spec.job ≢ row.spec.job → IsMoved result.spec.job row.spec.job row.spec.key self.old.links self.new.links }
        ensures spare { self.old.spare ≤ self.new.spare }
    {
        if self.has_job(&row.spec.key, &row.spec.job) {
            self.replace(row)
        } else {
            self.relink(row)
        }
    }

    // Whether the trigger of this key has this job.
    fn has_job(&self, key: &Key, job: &Key) -> bool
        ensures { IfSome (row_of key_cmp (λ r. r.spec.key) key.now self.now.rows) (λ r. result ≡ is_eq (key_cmp r.spec.job job.now)) }
    {
        match self.get(key) {
            Some(row) => row.spec.job.cmp(job) == Ordering::Equal,
            None => false,
        }
    }

    // Puts a trigger in place of that of its key, which has the same job.
    fn replace(&mut self, row: TriggerRow) -> TriggerRow
        requires present { IsSome (row_of key_cmp (λ r. r.spec.key) row.spec.key self.old.rows) }
        requires job { IfSome (row_of key_cmp (λ r. r.spec.key) row.spec.key self.old.rows) (λ r. r.spec.job ≡ row.spec.job) }
        ensures row { Some result ≡ row_of key_cmp (λ r. r.spec.key) row.spec.key self.old.rows }
        ensures rows { self.new.rows ≡ changed_at key_cmp (λ r. r.spec.key) row.spec.key (λ _. row) self.old.rows }
        ensures links { KeepsLinks self.old.links self.new.links }
        ensures spare { self.old.spare ≤ self.new.spare }
    {
        self.rows.change(row)
    }

    // Puts a trigger in place of that of its key, which has another job.
    fn relink(&mut self, row: TriggerRow) -> TriggerRow
        requires present { IsSome (row_of key_cmp (λ r. r.spec.key) row.spec.key self.old.rows) }
        requires job { IfSome (row_of key_cmp (λ r. r.spec.key) row.spec.key self.old.rows) (λ r. r.spec.job ≢ row.spec.job) }
        ensures row { Some result ≡ row_of key_cmp (λ r. r.spec.key) row.spec.key self.old.rows }
        ensures rows { self.new.rows ≡ changed_at key_cmp (λ r. r.spec.key) row.spec.key (λ _. row) self.old.rows }
        ensures links { IsMoved result.spec.job row.spec.job row.spec.key self.old.links self.new.links }
        ensures spare { self.old.spare ≤ self.new.spare }
    {
        let Some(old) = self.remove(&row.spec.key) else {
            unreachable!()
        };
        self.insert(row);
        old
    }
}
