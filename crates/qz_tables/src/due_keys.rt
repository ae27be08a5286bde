//! What stands in the due queue, and what compares it.
ghost use Rattle.std.specs.Prelude.{◌≡◌, ◌^◌, ◌-◌, ℕ, Some, None, IsSome, IfSome, IsSomeAnd, slice_index_or, false};
ghost use Rattle.qz_types.specs.Due.{is_waiting};
ghost use Rattle.qz_tables.specs.DueKeys.{due_of, time_cmp, queue_cmp, rests_or_passes, IsKeyOfRow};

use crate::indexed::{Indexed, Test};
use qz_queue::{Choice, Compare, Ranked};
use qz_types::{Key, TriggerRow, TriggerState};
use std::cmp::Ordering;
use std::marker::Model;
use std::snapshot::Snapshot;

/// By what the queue compares a trigger. Its key is read from its row when two triggers are due at one time and have one
/// priority, so that the queue needs no copy.
#[derive(Drop)]
pub struct DueKey {
    rests: bool,
    next: Option<i64>,
    priority: i32,
    key: Snapshot<Key>,
    slot: usize,
}

impl Model for DueKey {
    ghost use Rattle.qz_tables.specs.DueKeys.{DueData};

    ghost Value = { DueData };

    ghost view = { λ a. record { rests = a.rests; next = a.next; priority = a.priority; key = a.key.value; slot = a.slot } };
}

impl Ranked for DueKey {
    ghost use Rattle.qz_tables.specs.DueKeys.{is_sooner};
    ghost use Rattle.qz_tables.specs.QueueOrder.{queue_order};

    ghost stands_before = { is_sooner };

    ghost order = { queue_order };
}

impl DueKey {
    /// Of the trigger in this slot.
    pub fn of(trigger: &TriggerRow, slot: usize) -> DueKey
        ensures { result ≡ due_of slot trigger.now }
    {
        DueKey {
            rests: !is_waiting(trigger.state),
            next: trigger.next,
            priority: trigger.spec.priority,
            key: Snapshot::of(&trigger.spec.key),
            slot,
        }
    }

    /// The same, but of a trigger that waits.
    pub fn as_waiting(trigger: &TriggerRow, slot: usize) -> DueKey
        ensures { result ≡ record (due_of slot trigger.now) { rests = false } }
    {
        DueKey {
            rests: false,
            next: trigger.next,
            priority: trigger.spec.priority,
            key: Snapshot::of(&trigger.spec.key),
            slot,
        }
    }
}

/// Compares due keys, and reads the triggers' keys from these rows. It doesn't count.
#[derive(Drop)]
pub struct ByRows<'a> {
    pub rows: &'a Indexed<TriggerRow>,
}

impl<'a> Compare<DueKey> for ByRows<'a> {
    ghost count = { λ c. 2 ^ 64 - 1 };

    ghost Knows = { λ c d. IsKeyOfRow c.rows.now.slots d };

    #[tactic(auto, unfolding(crate::specs::DueKeys::is_sooner))]
    fn before(&mut self, a: &DueKey, b: &DueKey) -> bool {
        compare(self.rows, a, b) == Ordering::Less
    }
}

/// Wants the slots whose trigger passes, or doesn't wait.
#[derive(Drop)]
pub struct Passing<'a, T: Test<TriggerRow>> {
    pub rows: &'a Indexed<TriggerRow>,
    pub test: &'a T,
}

impl<'a, T: Test<TriggerRow>> Choice for Passing<'a, T> {
    ghost wants = { λ c slot. rests_or_passes (T.test c.test.now) (slice_index_or c.rows.now.slots slot None) };

    fn is_wanted(&self, slot: usize) -> bool {
        match self.rows.at(slot) {
            Some(row) => !is_waiting(row.state) || self.test.passes(row),
            None => false,
        }
    }
}

fn compare(rows: &Indexed<TriggerRow>, a: &DueKey, b: &DueKey) -> Ordering
    requires first { IsKeyOfRow rows.now.slots a.now }
    requires second { IsKeyOfRow rows.now.slots b.now }
    ensures { result ≡ queue_cmp a.now b.now }
{
    let timed = compare_times(a, b);
    if timed != Ordering::Equal {
        return timed;
    }
    key_at(rows, a.slot)
        .cmp(key_at(rows, b.slot))
        .then(a.slot.cmp(&b.slot))
}

fn compare_times(a: &DueKey, b: &DueKey) -> Ordering
    ensures { result ≡ time_cmp a.now b.now }
{
    a.rests
        .cmp(&b.rests)
        .then(a.next.cmp(&b.next).then(b.priority.cmp(&a.priority)))
}

// The key of the trigger in this slot.
fn key_at(rows: &Indexed<TriggerRow>, slot: usize) -> &Key
    requires { IsSome (slice_index_or rows.now.slots slot None) }
    ensures { IfSome (slice_index_or rows.now.slots slot None) (λ r. result.now ≡ r.spec.key) }
{
    let Some(row) = rows.at(slot) else {
        unreachable!()
    };
    &row.spec.key
}

/// Whether a trigger in this state waits for its next time.
pub fn is_waiting(state: TriggerState) -> bool
    ensures { result ≡ is_waiting state }
{
    matches!(state, TriggerState::Waiting)
}
