//! The triggers of the tables.
ghost use Rattle.std.specs.Prelude.{◌≡◌, ◌≤◌, ◌<◌, ◌+◌, None, Some, IsSome, IfSome, IfNone, OnSome, IfOk, option_copied, length, map, slice_get, ◌≢◌};
ghost use Rattle.qz_types.specs.Sorted.{IsAscending};
ghost use Rattle.qz_types.specs.Words.{key_cmp, trigger_of, put_trigger, without_trigger, with_trigger};
ghost use Rattle.qz_tables.specs.Contents.{KeepsSpare, one_trigger};
ghost use Rattle.qz_types.specs.Changes.{in_state, after_fire};
ghost use Rattle.qz_tables.specs.Links.{KeepsLinks, IsLinked, IsUnlinked, IsMoved};

use crate::edits::{StateChange, TriggerEdit};
use crate::tables::Tables;
use qz_types::{Key, NoMemory, TriggerRow, TriggerState};
use std::alloc::Global;

impl Tables {
    /// The trigger of this key.
    #[tactic(auto, unfolding(qz_types::specs::Words::trigger_of))]
    pub fn get_trigger(&self, key: &Key) -> Option<&TriggerRow>
        ensures row { option_copied result ≡ trigger_of key.now self.now.tables.triggers }
        ensures sorted { IsAscending key_cmp (λ r. r.spec.key) self.now.tables.triggers }
    {
        self.triggers.get(key)
    }

    /// The trigger at this place in the order of the keys, counted from 0.
    pub fn nth_trigger(&self, place: usize) -> Option<&TriggerRow>
        ensures { option_copied result ≡ slice_get self.now.tables.triggers place }
    {
        self.triggers.nth(place)
    }

    /// How many triggers there are.
    pub fn len_triggers(&self) -> usize
        ensures { result ≡ length self.now.tables.triggers }
    {
        self.triggers.len()
    }

    /// The triggers in the order of the keys.
    pub fn sorted_triggers(&self, alloc: Global) -> Result<Vec<&TriggerRow>, NoMemory>
        ensures { IfOk result (λ rows. map (λ r. r.now) rows.items ≡ self.now.tables.triggers) }
    {
        Ok(self.triggers.sorted(alloc)?)
    }

    /// Puts in a trigger of a new key, in the room that is left. It is linked last to its job.
    #[tactic(auto, unfolding(qz_types::specs::Words::trigger_of, qz_types::specs::Words::put_trigger))]
    pub fn insert_trigger(&mut self, row: TriggerRow)
        requires absent { trigger_of row.spec.key self.old.tables.triggers ≡ None }
        requires room { 0 < self.old.spare.triggers }
        ensures tables { self.new.tables ≡ record self.old.tables { triggers = put_trigger row self.old.tables.triggers } }
        ensures links { IsLinked row.spec.job row.spec.key self.old.links self.new.links }
        ensures spare { KeepsSpare self.old.spare (one_trigger self.new.spare) }
    {
        self.triggers.insert(row);
    }

    /// Takes out the trigger of this key.
    #[tactic(auto, unfolding(qz_types::specs::Words::trigger_of, qz_types::specs::Words::without_trigger, qz_types::specs::Words::same_key))]
    pub fn remove_trigger(&mut self, key: &Key) -> Option<TriggerRow>
        ensures row { result ≡ trigger_of key.now self.old.tables.triggers }
        ensures tables { self.new.tables ≡ record self.old.tables { triggers = without_trigger key.now self.old.tables.triggers } }
        ensures links { IfSome result (λ r. IsUnlinked r.spec.job r.spec.key self.old.links self.new.links) }
        ensures none { IfNone result (self.new ≡ self.old) }
        ensures spare { KeepsSpare self.old.spare self.new.spare }
        ensures freed { OnSome result (KeepsSpare (one_trigger self.old.spare) self.new.spare) }
    {
        self.triggers.remove(key)
    }

    /// Puts a trigger in place of that of its key, and gives the old one. If it is of another job than before,
    /// it is linked last to it.
    #[tactic(auto, unfolding(qz_types::specs::Words::trigger_of, qz_types::specs::Words::with_trigger, qz_types::specs::Words::same_key))]
    pub fn change_trigger(&mut self, row: TriggerRow) -> TriggerRow
        requires { IsSome (trigger_of row.spec.key self.old.tables.triggers) }
        ensures row { Some result ≡ trigger_of row.spec.key self.old.tables.triggers }
        ensures tables { self.new.tables ≡ record self.old.tables { triggers = with_trigger row.spec.key (λ _. row) self.old.tables.triggers } }
        ensures stays { result.spec.job ≡ row.spec.job → KeepsLinks self.old.links self.new.links }
        ensures moves { result.spec.job ≢ row.spec.job → IsMoved result.spec.job row.spec.job row.spec.key self.old.links self.new.links }
        ensures spare { KeepsSpare self.old.spare self.new.spare }
    {
        self.triggers.change(row)
    }

    /// Sets the state of the trigger of this key, if it is stored.
    #[tactic(auto, unfolding(qz_types::specs::Words::with_trigger, qz_types::specs::Words::same_key))]
    pub fn set_trigger_state(&mut self, key: &Key, state: TriggerState)
        ensures tables { self.new.tables ≡ record self.old.tables { triggers = with_trigger key.now (in_state state) self.old.tables.triggers } }
        ensures links { KeepsLinks self.old.links self.new.links }
        ensures spare { KeepsSpare self.old.spare self.new.spare }
    {
        self.triggers
            .edit(key, &TriggerEdit::State(StateChange::Set(state)));
    }

    /// The trigger of this key fired, if it is stored: its next time becomes its last one, and it gets this next time, in
    /// ms since 1970-01-01T00:00:00Z, and this state.
    #[tactic(auto, unfolding(qz_types::specs::Words::with_trigger, qz_types::specs::Words::same_key))]
    pub fn fire_trigger(&mut self, key: &Key, next: Option<i64>, state: TriggerState)
        ensures tables { self.new.tables ≡ record self.old.tables { triggers = with_trigger key.now (after_fire next state) self.old.tables.triggers } }
        ensures links { KeepsLinks self.old.links self.new.links }
        ensures spare { KeepsSpare self.old.spare self.new.spare }
    {
        self.triggers.edit(key, &TriggerEdit::Fire { next, state });
    }
}
