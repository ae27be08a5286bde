//! The triggers with a queue of them in due order.
ghost use Rattle.std.specs.List.{remove};
ghost use Rattle.std.specs.Prelude.{◌≡◌, ◌+◌, ◌≤◌, ◌<◌, [], true, Some, None, IfSome, IfNone, IfOk, OnOk, OnSome, IsOk, IsSome, option_copied, option_map, filter, length, map, slice_get, slice_index_or};
ghost use Rattle.qz_types.specs.Rows.{TriggerData};
ghost use Rattle.qz_types.specs.Sorted.{row_of, put, IsAscending};
ghost use Rattle.qz_types.specs.Words.{key_cmp};
ghost use Rattle.qz_tables.specs.Changes.{trigger_edited, changed_nth, IsFit};
ghost use Rattle.qz_tables.specs.Due.{due_first, due_next, waiting, waiting_only};
ghost use Rattle.qz_tables.specs.DueKeys.{row_in, after_key};
ghost use Rattle.qz_tables.specs.Ids.{changed_at, without};
ghost use Rattle.qz_tables.specs.Slots.{AreEdited, IsWritten};

use crate::due::{Any, first_waiting};
use crate::due_keys::{ByRows, DueKey, Passing, is_waiting};
use crate::edits::TriggerEdit;
use crate::in_step::{enter, follow, leave};
use crate::indexed::{Indexed, Test};
use qz_queue::DueQueue;
use qz_types::{Key, TriggerRow};
use std::alloc::{AllocError, Global};
use std::marker::Model;

/// The triggers in the order of their keys, each in a slot, and a queue of the slots in due order.
///
/// Contracts see it as the rows alone. The queue has each trigger, unless there was no memory for it at some time: then
/// it isn't in step any more, and what is due is looked for among all triggers.
#[derive(Drop)]
pub struct Timed {
    rows: Indexed<TriggerRow>,
    queue: DueQueue<DueKey>,
    is_in_step: bool,
}

impl Model for Timed {
    ghost use Rattle.std.specs.Prelude.{◌≡◌, true};
    ghost use Rattle.qz_types.specs.Rows.{TriggerData};
    ghost use Rattle.qz_tables.specs.DueKeys.{IsInStep};
    ghost use Rattle.qz_tables.specs.Slots.{Kept};

    ghost Value = { Kept TriggerData };

    ghost view = { λ a. a.rows };

    ghost invariant = { λ a. a.is_in_step ≡ true → IsInStep a.rows.slots a.queue.pairs };
}

impl Timed {
    /// No triggers.
    pub fn new(alloc: Global) -> Self
        ensures rows { result.rows ≡ [] }
        ensures slots { result.slots ≡ [] }
    {
        Timed {
            rows: Indexed::new(alloc),
            queue: DueQueue::new(alloc),
            is_in_step: true,
        }
    }

    /// The triggers in their slots.
    pub fn in_slots(&self) -> &Indexed<TriggerRow>
        ensures { result.now ≡ self.now }
    {
        &self.rows
    }

    /// The trigger of this key.
    pub fn get(&self, key: &Key) -> Option<&TriggerRow>
        ensures row { option_copied result ≡ row_of key_cmp (λ r. r.spec.key) key.now self.now.rows }
        ensures sorted { IsAscending key_cmp (λ r. r.spec.key) self.now.rows }
    {
        self.rows.get(key)
    }

    /// The trigger at this place in the order of the keys, counted from 0.
    pub fn nth(&self, place: usize) -> Option<&TriggerRow>
        ensures { option_copied result ≡ slice_get self.now.rows place }
    {
        self.rows.nth(place)
    }

    /// How many triggers there are.
    pub fn len(&self) -> usize
        ensures { result ≡ length self.now.rows }
    {
        self.rows.len()
    }

    /// The triggers in the order of their keys.
    pub fn sorted(&self, alloc: Global) -> Result<Vec<&TriggerRow>, AllocError>
        ensures { IfOk result (λ v. map (λ r. r.now) v.items ≡ self.now.rows) }
    {
        self.rows.sorted(alloc)
    }

    /// Whether the trigger at this place passes.
    pub fn passes_nth<T: Test<TriggerRow>>(&self, place: usize, test: &T) -> bool
        ensures { IfSome (slice_get self.now.rows place) (λ row. result ≡ T.test test.now row) }
    {
        self.rows.passes_nth(place, test)
    }

    /// Makes room for so many triggers more, in the queue too.
    ///
    /// Where there is room for the triggers already, want of memory for the queue is no error.
    pub fn reserve(&mut self, more: usize) -> Result<(), AllocError>
        ensures rows { self.new.rows ≡ self.old.rows }
        ensures slots { self.new.slots ≡ self.old.slots }
        ensures room { OnOk result (more ≤ self.new.spare) }
        ensures succeeds { more ≤ self.old.spare → IsOk result }
        ensures spare { self.old.spare ≤ self.new.spare }
    {
        let has_room = more <= self.rows.spare();
        self.rows.reserve(more)?;
        match self.queue.reserve(more, self.rows.places()) {
            Err(error) if !has_room => Err(error),
            _ => Ok(()),
        }
    }

    /// Puts in a trigger of a new key, in the room that is left, and gives its slot.
    pub fn insert(&mut self, row: TriggerRow) -> usize
        requires absent { row_of key_cmp (λ r. r.spec.key) row.spec.key self.old.rows ≡ None }
        requires room { 0 < self.old.spare }
        ensures rows { self.new.rows ≡ put key_cmp (λ r. r.spec.key) row self.old.rows }
        ensures spare { self.old.spare ≤ self.new.spare + 1 }
        ensures vacant { slice_index_or self.old.slots result None ≡ None }
        ensures slot { IsWritten self.old.slots self.new.slots result (Some row) }
    {
        let slot = self.rows.insert(row);
        self.is_in_step = enter(&self.rows, &mut self.queue, self.is_in_step, slot);
        slot
    }

    /// Takes out the trigger of this key, with the slot that it had.
    pub fn take(&mut self, key: &Key) -> Option<(usize, TriggerRow)>
        ensures row { option_map (λ p. p.1) result ≡ row_of key_cmp (λ r. r.spec.key) key.now self.old.rows }
        ensures slot { IfSome result (λ p. IsWritten self.old.slots self.new.slots p.0 None) }
        ensures was { IfSome result (λ p. slice_index_or self.old.slots p.0 None ≡ Some p.1) }
        ensures none { IfNone result (self.new ≡ self.old) }
        ensures rows { self.new.rows ≡ without key_cmp (λ r. r.spec.key) key.now self.old.rows }
        ensures sorted { IsAscending key_cmp (λ r. r.spec.key) self.old.rows }
        ensures freed { OnSome result (self.old.spare + 1 ≤ self.new.spare) }
        ensures spare { self.old.spare ≤ self.new.spare }
    {
        self.rows.laws();
        let Some(slot) = self.rows.slot(key) else {
            return None;
        };
        leave(&self.rows, &mut self.queue, self.is_in_step, slot);
        self.rows.take(key)
    }

    /// Takes out the trigger at this place, counted from 0, with the slot that it had.
    pub fn take_nth(&mut self, place: usize) -> (usize, TriggerRow)
        requires { place < length self.old.rows }
        ensures row { Some result.1 ≡ slice_get self.old.rows place }
        ensures rows { self.new.rows ≡ remove self.old.rows place }
        ensures slot { IsWritten self.old.slots self.new.slots result.0 None }
        ensures was { slice_index_or self.old.slots result.0 None ≡ Some result.1 }
        ensures spare { self.old.spare ≤ self.new.spare }
    {
        self.rows.laws();
        let slot = self.rows.slot_nth(place);
        leave(&self.rows, &mut self.queue, self.is_in_step, slot);
        self.rows.take_nth(place)
    }

    /// Puts a trigger in place of that of its key, and gives the old one.
    pub fn change(&mut self, row: TriggerRow) -> TriggerRow
        requires { IsSome (row_of key_cmp (λ r. r.spec.key) row.spec.key self.old.rows) }
        ensures row { Some result ≡ row_of key_cmp (λ r. r.spec.key) row.spec.key self.old.rows }
        ensures rows { self.new.rows ≡ changed_at key_cmp (λ r. r.spec.key) row.spec.key (λ _. row) self.old.rows }
        ensures slots { AreEdited (λ old new. (old ≡ Some result) × (new ≡ Some row)) self.old.slots self.new.slots }
        ensures spare { self.new.spare ≡ self.old.spare }
    {
        let (slot, old) = self.rows.change(row);
        follow(&self.rows, &mut self.queue, self.is_in_step, slot);
        old
    }

    /// Changes the trigger of this key in place, if it is stored.
    pub fn edit(&mut self, key: &Key, edit: &TriggerEdit)
        requires { (row : TriggerData) → row_of key_cmp (λ r. r.spec.key) key.now self.old.rows ≡ Some row → IsFit edit.now row }
        ensures rows { self.new.rows ≡ changed_at key_cmp (λ r. r.spec.key) key.now (trigger_edited edit.now) self.old.rows }
        ensures slots { AreEdited (λ old new. new ≡ option_map (trigger_edited edit.now) old) self.old.slots self.new.slots }
        ensures spare { self.new.spare ≡ self.old.spare }
    {
        if let Some(slot) = self.rows.edit(key, edit) {
            follow(&self.rows, &mut self.queue, self.is_in_step, slot);
        }
    }

    /// Changes the trigger at this place, counted from 0.
    pub fn edit_nth(&mut self, place: usize, edit: &TriggerEdit)
        requires present { place < length self.old.rows }
        requires fit { (row : TriggerData) → slice_get self.old.rows place ≡ Some row → IsFit edit.now row }
        ensures rows { self.new.rows ≡ changed_nth (trigger_edited edit.now) place self.old.rows }
        ensures slots { AreEdited (λ old new. new ≡ option_map (trigger_edited edit.now) old) self.old.slots self.new.slots }
        ensures spare { self.new.spare ≡ self.old.spare }
    {
        let slot = self.rows.edit_nth(place, edit);
        follow(&self.rows, &mut self.queue, self.is_in_step, slot);
    }

    /// Changes the trigger in this slot.
    pub fn edit_slot(&mut self, slot: usize, edit: &TriggerEdit)
        requires present { IsSome (slice_index_or self.old.slots slot None) }
        requires fit { IfSome (slice_index_or self.old.slots slot None) (IsFit edit.now) }
        ensures slot { IsWritten self.old.slots self.new.slots slot (option_map (trigger_edited edit.now) (slice_index_or self.old.slots slot None)) }
        ensures order { self.new.order ≡ self.old.order }
        ensures spare { self.new.spare ≡ self.old.spare }
    {
        self.rows.edit_slot(slot, edit);
        follow(&self.rows, &mut self.queue, self.is_in_step, slot);
    }

    /// The first trigger that waits, in due order.
    #[tactic(auto, using(crate::proofs::DueFound::any_first))]
    pub fn due_first(&self) -> Option<&TriggerRow>
        ensures { option_copied result ≡ due_first self.now.rows }
    {
        self.due_next(None, &Any)
    }

    /// The next trigger that waits and passes, in due order, after the one of this key, if one is given. There is none
    /// where that isn't stored.
    pub fn due_next<T: Test<TriggerRow>>(
        &self,
        after: Option<&Key>,
        test: &T,
    ) -> Option<&TriggerRow>
        ensures { option_copied result ≡ due_next (option_copied after.entry) (T.test test.now) self.now.rows }
    {
        let Some(key) = after else {
            return self.next_of(None, test);
        };
        match self.rows.slot(key) {
            Some(slot) => self.next_of(Some(slot), test),
            None => None,
        }
    }

    // The next trigger that waits and passes after the one in this slot, if one is given.
    fn next_of<T: Test<TriggerRow>>(&self, after: Option<usize>, test: &T) -> Option<&TriggerRow>
        requires { IfSome after (λ slot. IsSome (slice_index_or self.now.slots slot None)) }
        ensures { option_copied result ≡ slice_get (filter (T.test test.now) (waiting (row_in self.now.slots after) self.now.rows)) 0 }
    {
        self.rows.laws();
        if !self.is_in_step {
            return first_waiting(&self.rows, row_in(&self.rows, after), test);
        }
        self.queue.laws();
        let due = after_key(&self.rows, after);
        let choice = Passing {
            rows: &self.rows,
            test,
        };
        let rows = &self.rows;
        match self
            .queue
            .first_of(due.as_ref(), &choice, &mut ByRows { rows })
        {
            Some((_, next)) => waiting_at(&self.rows, next),
            None => None,
        }
    }
}

// The trigger in this slot, if a slot is given.
fn row_in(rows: &Indexed<TriggerRow>, slot: Option<usize>) -> Option<&TriggerRow>
    ensures { option_copied result ≡ row_in rows.now.slots slot }
{
    match slot {
        Some(slot) => rows.at(slot),
        None => None,
    }
}

// What the queue would have of the trigger in this slot if it waited, if a slot is given.
fn after_key(rows: &Indexed<TriggerRow>, slot: Option<usize>) -> Option<DueKey>
    requires { IfSome slot (λ s. IsSome (slice_index_or rows.now.slots s None)) }
    ensures { result ≡ after_key rows.now.slots slot }
{
    let slot = slot?;
    let Some(row) = rows.at(slot) else {
        unreachable!()
    };
    Some(DueKey::as_waiting(row, slot))
}

// The trigger in this slot, if it waits.
fn waiting_at(rows: &Indexed<TriggerRow>, slot: usize) -> Option<&TriggerRow>
    ensures { option_copied result ≡ waiting_only (slice_index_or rows.now.slots slot None) }
{
    match rows.at(slot) {
        Some(row) if is_waiting(row.state) => Some(row),
        _ => None,
    }
}
