//! The due queue follows the rows: what is done to it for one slot. Where it isn't in step, nothing is done.
ghost use Rattle.std.specs.Prelude.{◌≡◌, true, Some, None, IsSome, option_map, slice_index_or};
ghost use Rattle.qz_queue.specs.Order.{key_of};
ghost use Rattle.qz_tables.specs.DueKeys.{DueData, due_of, IsOwn, IsInStep, IsInStepBut};

use crate::due_keys::{ByRows, DueKey};
use crate::indexed::Indexed;
use qz_queue::DueQueue;
use qz_types::TriggerRow;

// What the queue is to have of the trigger in this slot.
fn due_key(rows: &Indexed<TriggerRow>, slot: usize) -> DueKey
    requires { IsSome (slice_index_or rows.now.slots slot None) }
    ensures { option_map (due_of slot) (slice_index_or rows.now.slots slot None) ≡ Some result }
{
    let Some(row) = rows.at(slot) else {
        unreachable!()
    };
    DueKey::of(row, slot)
}

/// Puts the trigger of this slot into the queue, if there is a place and room. Answers whether the queue is in step.
pub fn enter(
    rows: &Indexed<TriggerRow>,
    queue: &mut DueQueue<DueKey>,
    is_in_step: bool,
    slot: usize,
) -> bool
    requires filled { IsSome (slice_index_or rows.now.slots slot None) }
    requires others { is_in_step ≡ true → IsInStepBut rows.now.slots queue.old.pairs slot }
    requires absent { is_in_step ≡ true → key_of slot queue.old.pairs ≡ None }
    ensures { result ≡ true → IsInStep rows.now.slots queue.new.pairs }
{
    if !is_in_step || !queue.can_take(slot) {
        return false;
    }
    queue.laws();
    let due = due_key(rows, slot);
    queue.insert(slot, due, &mut ByRows { rows });
    true
}

/// Changes what the queue has of the trigger of this slot, which has changed but for its key.
pub fn follow(
    rows: &Indexed<TriggerRow>,
    queue: &mut DueQueue<DueKey>,
    is_in_step: bool,
    slot: usize,
)
    requires filled { IsSome (slice_index_or rows.now.slots slot None) }
    requires others { is_in_step ≡ true → IsInStepBut rows.now.slots queue.old.pairs slot }
    requires present { is_in_step ≡ true → IsSome (key_of slot queue.old.pairs) }
    requires own { is_in_step ≡ true → (d : DueData) → key_of slot queue.old.pairs ≡ Some d → IsOwn rows.now.slots slot d }
    ensures { is_in_step ≡ true → IsInStep rows.now.slots queue.new.pairs }
{
    if !is_in_step {
        return;
    }
    queue.laws();
    let due = due_key(rows, slot);
    drop(queue.change(slot, due, &mut ByRows { rows }));
}

/// Takes the trigger of this slot, which is still stored, out of the queue.
pub fn leave(
    rows: &Indexed<TriggerRow>,
    queue: &mut DueQueue<DueKey>,
    is_in_step: bool,
    slot: usize,
)
    requires { is_in_step ≡ true → IsInStep rows.now.slots queue.old.pairs }
    ensures others { is_in_step ≡ true → IsInStepBut rows.now.slots queue.new.pairs slot }
    ensures gone { is_in_step ≡ true → key_of slot queue.new.pairs ≡ None }
{
    if !is_in_step {
        return;
    }
    queue.laws();
    drop(queue.remove(slot, &mut ByRows { rows }));
}
