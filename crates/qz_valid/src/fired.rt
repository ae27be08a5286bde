//! Fired rows.
ghost use Rattle.std.specs.Prelude.{◌≡◌, option_copied};
ghost use Rattle.std.specs.List.{list_all};
ghost use Rattle.qz_valid.specs.Fired.{has_epoch, is_acquired_state, is_time, is_for, has_flag, is_since, owner_fits, acquired_fits, executing_fits, fired_fits};

use crate::keys::KeySet;
use crate::limits::is_moment;
use qz_apply::same_key;
use qz_tables::Tables;
use qz_types::{FiredRow, FiredState, JobRow, MemberRow, TriggerRow, TriggerState};

fn has_epoch(epoch: u64, member: Option<&MemberRow>) -> bool
    ensures { result ≡ has_epoch epoch (option_copied member.entry) }
{
    match member {
        Some(member) => member.epoch == epoch,
        None => false,
    }
}

#[tactic(auto, unfolding(crate::specs::Fired::owner_fits))]
fn owner_fits(tables: &Tables, row: &FiredRow) -> bool
    ensures { result ≡ owner_fits tables.now.tables row.now }
{
    row.entry < tables.next_entry() && has_epoch(row.epoch, tables.get_member(&row.node))
}

/// Whether the trigger is acquired.
pub fn is_acquired_state(state: TriggerState) -> bool
    ensures { result ≡ is_acquired_state state }
{
    matches!(state, TriggerState::Acquired)
}

fn is_time(time: i64, next: Option<i64>) -> bool
    ensures { result ≡ is_time time next }
{
    match next {
        Some(next) => next == time,
        None => false,
    }
}

fn is_for(row: &FiredRow, trigger: Option<&TriggerRow>) -> bool
    ensures { result ≡ is_for row.now (option_copied trigger.entry) }
{
    match trigger {
        Some(trigger) => {
            is_acquired_state(trigger.state)
                && same_key(&trigger.spec.job, &row.job)
                && is_time(row.scheduled, trigger.next)
        }
        None => false,
    }
}

#[tactic(auto, unfolding(crate::specs::Fired::acquired_fits))]
fn acquired_fits(tables: &Tables, row: &FiredRow) -> bool
    ensures { result ≡ acquired_fits tables.now.tables row.now }
{
    row.fired.is_none() && is_for(row, tables.get_trigger(&row.trigger))
}

fn has_flag(flag: bool, job: Option<&JobRow>) -> bool
    ensures { result ≡ has_flag flag (option_copied job.entry) }
{
    match job {
        Some(job) => { if job.no_concurrent { flag } else { !flag } }
        None => true,
    }
}

fn is_since(scheduled: i64, began: Option<i64>) -> bool
    ensures { result ≡ is_since scheduled began }
{
    match began {
        Some(began) => scheduled <= began,
        None => false,
    }
}

#[tactic(auto, unfolding(crate::specs::Fired::executing_fits))]
fn executing_fits<'a>(tables: &'a Tables, exclusive: &KeySet<'a>, row: &'a FiredRow) -> bool
    ensures { result ≡ executing_fits tables.now.tables exclusive.now row.now }
{
    is_moment(tables, row.scheduled)
        && is_since(row.scheduled, row.fired)
        && has_flag(row.no_concurrent, tables.get_job(&row.job))
        && (row.no_concurrent || !exclusive.has(&row.job))
}

#[tactic(auto, unfolding(crate::specs::Fired::fired_fits))]
fn fired_fits<'a>(tables: &'a Tables, exclusive: &KeySet<'a>, row: &'a FiredRow) -> bool
    ensures { result ≡ fired_fits tables.now.tables exclusive.now row.now }
{
    owner_fits(tables, row)
        && match row.state {
            FiredState::Acquired => acquired_fits(tables, row),
            FiredState::Executing => executing_fits(tables, exclusive, row),
        }
}

/// Whether each fired row fits the tables, with the keys of the jobs that have an exclusive execution.
#[tactic(auto, using(crate::proofs::Walks::fails_at, crate::proofs::Walks::all_pass))]
pub fn all_fired_fit<'a>(tables: &'a Tables, exclusive: &KeySet<'a>) -> bool
    ensures { result ≡ list_all (fired_fits tables.now.tables exclusive.now) tables.now.tables.fired }
{
    for place in 0..tables.len_fired() {
        let Some(row) = tables.nth_fired(place) else {
            unreachable!()
        };
        if !fired_fits(tables, exclusive, row) {
            return false;
        }
    }
    true
}
