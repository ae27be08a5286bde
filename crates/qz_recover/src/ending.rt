//! What a failed member had ends.
ghost use Rattle.std.specs.Prelude.{◌≡◌, ◌≤◌, map, fold, length};
ghost use Rattle.std.specs.Ordering.{nat_cmp};
ghost use Rattle.qz_types.specs.Sorted.{IsAscending};
ghost use Rattle.qz_types.specs.Words.{fired_of, key_cmp, put_trigger};
ghost use Rattle.qz_tables.specs.Contents.{KeepsSpare};
ghost use Rattle.qz_model.specs.Invariant.{TablesValid};
ghost use Rattle.qz_model.specs.Recovery.{freed_by, lost_of, recovered, recoveries, rows_of_others, unblocked_by};
ghost use Rattle.qz_recover.specs.Rows.{AreNew, freed_from, has_ended, with_row_ended, without_triggers};

use qz_apply::{is_acquired, is_of, remove_finished, unblock};
use qz_tables::{StateChange, Tables};
use qz_types::{FiredRow, Key, MemberRow, TriggerRow, TriggerState};

/// What a failed member had ends, and the member goes. Its rows go first: the triggers that it acquired wait again, and those
/// whose jobs its executions excluded are unblocked. Then the recovery triggers come in. Last, the triggers of its executions
/// go that are finished now, and with them their jobs where these are orphans then.
///
/// The caller collects the recovery triggers, and the keys of the triggers of its executions, before. This takes no memory.
pub fn recover_rows(
    tables: &mut Tables,
    member: &MemberRow,
    added: Vec<TriggerRow>,
    ended: Vec<Key>,
)
    requires valid { ∥ TablesValid tables.old.tables ∥₁ }
    requires added { added.items ≡ recoveries tables.old.tables member.now }
    requires ended { ended.items ≡ map (λ f. f.trigger) (lost_of member.now tables.old.tables.fired) }
    requires spare { length (recoveries tables.old.tables member.now) ≤ tables.old.spare.triggers }
    ensures tables { tables.new.tables ≡ recovered tables.old.tables member.now }
    ensures spare { tables.old.spare.members ≤ tables.new.spare.members }
{
    end_rows(tables, member);
    insert_triggers(tables, added);
    remove_ended(tables, &ended);
    let removed = tables.remove_member(&member.node);
    drop((removed, ended));
}

/// The rows of the member go: the triggers that it acquired wait again, and those whose jobs its executions excluded are
/// unblocked. It takes no memory.
pub fn end_rows(tables: &mut Tables, member: &MemberRow)
    requires sorted { IsAscending nat_cmp (λ r. r.entry) tables.old.tables.fired }
    ensures tables { tables.new.tables ≡ record tables.old.tables { triggers = unblocked_by (lost_of member.now tables.old.tables.fired) (freed_by member.now tables.old.tables.fired tables.old.tables.triggers); fired = rows_of_others member.now tables.old.tables.fired } }
    ensures spare { KeepsSpare tables.old.spare tables.new.spare }
{
    let mut place = 0;
    while place < tables.len_fired() {
        let Some(row) = tables.nth_fired(place) else {
            unreachable!()
        };
        if is_of(member, row) {
            let entry = row.entry;
            end_row(tables, entry);
        } else {
            place += 1;
        }
    }
}

// The row of this entry number goes, and the triggers that it held are free.
fn end_row(tables: &mut Tables, entry: u64)
    ensures tables { tables.new.tables ≡ with_row_ended tables.old.tables entry (fired_of entry tables.old.tables.fired) }
    ensures spare { KeepsSpare tables.old.spare tables.new.spare }
{
    let Some(row) = tables.remove_fired(entry) else {
        return;
    };
    free_triggers(tables, &row);
    drop(row);
}

// Its own trigger waits again, if the row is acquired, and else those that its execution excluded are unblocked.
fn free_triggers(tables: &mut Tables, row: &FiredRow)
    ensures tables { tables.new.tables ≡ record tables.old.tables { triggers = freed_from row.now tables.old.tables.triggers } }
    ensures spare { KeepsSpare tables.old.spare tables.new.spare }
{
    if is_acquired(row.state) {
        tables.change_state(&row.trigger, StateChange::Set(TriggerState::Waiting));
    } else {
        unblock(tables, row);
    }
}

// Stores these triggers, which takes no memory.
fn insert_triggers(tables: &mut Tables, added: Vec<TriggerRow>)
    requires new { AreNew tables.old.tables.triggers added.items }
    requires room { length added.items ≤ tables.old.spare.triggers }
    ensures tables { tables.new.tables ≡ record tables.old.tables { triggers = fold (λ ts t. put_trigger t ts) tables.old.tables.triggers added.items } }
    ensures spare { tables.old.spare.members ≤ tables.new.spare.members }
{
    for row in added {
        tables.insert_trigger(row);
    }
}

// The triggers of these keys go that are finished, and with them their jobs where these are orphans then.
fn remove_ended(tables: &mut Tables, keys: &[Key])
    requires triggers { IsAscending key_cmp (λ r. r.spec.key) tables.old.tables.triggers }
    requires jobs { IsAscending key_cmp (λ r. r.key) tables.old.tables.jobs }
    ensures tables { tables.new.tables ≡ without_triggers (has_ended keys.now tables.old.tables.fired) tables.old.tables }
    ensures spare { KeepsSpare tables.old.spare tables.new.spare }
{
    for key in keys {
        remove_finished(tables, key);
    }
}
