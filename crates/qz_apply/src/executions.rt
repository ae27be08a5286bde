//! Executions that exclude all others of their job.
ghost use Rattle.std.specs.Prelude.{◌≡◌, option_copied};
ghost use Rattle.qz_types.specs.States.{is_acquired};
ghost use Rattle.qz_model.specs.Completing.{with_unblocked};
ghost use Rattle.qz_model.specs.Executions.{is_exclusive_of, is_busy};
ghost use Rattle.qz_tables.specs.Contents.{KeepsSpare};

use crate::same_key;
use qz_tables::{StateChange, Tables};
use qz_types::{FiredRow, FiredState, Key};

/// Whether the execution of a row hasn't begun.
pub fn is_acquired(state: FiredState) -> bool
    ensures { result ≡ is_acquired state }
{
    state == FiredState::Acquired
}

/// Whether an execution that excludes all others of the job of this key goes on. It looks at each fired row.
#[tactic(auto, using(crate::proofs::Searches::found_at), unfolding(qz_model::specs::Executions::is_busy))]
pub fn is_busy(tables: &Tables, key: &Key) -> bool
    ensures { result ≡ is_busy key.now tables.now.tables.fired }
{
    for place in 0..tables.len_fired() {
        let Some(row) = tables.nth_fired(place) else {
            unreachable!()
        };
        if is_exclusive_of(key, row) {
            return true;
        }
    }
    false
}

#[tactic(auto, unfolding(qz_model::specs::Executions::is_exclusive_of))]
fn is_exclusive_of(key: &Key, row: &FiredRow) -> bool
    ensures { result ≡ is_exclusive_of key.now row.now }
{
    !is_acquired(row.state) && row.no_concurrent && same_key(key, &row.job)
}

/// The triggers of the row's job are unblocked, if its execution excluded others.
pub fn unblock(tables: &mut Tables, row: &FiredRow)
    ensures tables { tables.new.tables ≡ record tables.old.tables { triggers = with_unblocked row.now.no_concurrent row.now.job tables.old.tables.triggers } }
    ensures spare { KeepsSpare tables.old.spare tables.new.spare }
{
    if row.no_concurrent {
        tables.change_job_states(&row.job, StateChange::Unblock);
    }
}
