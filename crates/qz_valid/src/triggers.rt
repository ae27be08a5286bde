//! Triggers.
ghost use Rattle.std.specs.Prelude.{◌≡◌, option_copied};
ghost use Rattle.std.specs.List.{list_all};
ghost use Rattle.qz_model.specs.Invariant.{is_blocked, is_blocked_or_done, is_live_state};
ghost use Rattle.qz_valid.specs.Triggers.{next_fits, is_named, state_fits, trigger_fits};

use crate::fired::is_acquired_state;
use crate::keys::KeySet;
use crate::limits::is_moment;
use crate::names::name_fits;
use crate::rows::{has_known_zone, is_known_calendar};
use qz_tables::Tables;
use qz_types::{TriggerRow, TriggerState};

fn is_blocked(state: TriggerState) -> bool
    ensures { result ≡ is_blocked state }
{
    matches!(state, TriggerState::Blocked | TriggerState::PausedBlocked)
}

fn is_live_state(state: TriggerState) -> bool
    ensures { result ≡ is_live_state state }
{
    !matches!(state, TriggerState::Complete | TriggerState::Error)
}

fn is_blocked_or_done(state: TriggerState) -> bool
    ensures { result ≡ is_blocked_or_done state }
{
    matches!(
        state,
        TriggerState::Complete
            | TriggerState::Blocked
            | TriggerState::PausedBlocked
            | TriggerState::Error
    )
}

fn next_fits(tables: &Tables, live: bool, next: Option<i64>) -> bool
    ensures { result ≡ next_fits tables.now.tables.horizon live next }
{
    match next {
        Some(next) => is_moment(tables, next),
        None => !live,
    }
}

#[tactic(auto, unfolding(crate::specs::Triggers::is_named))]
fn is_named(tables: &Tables, row: &TriggerRow) -> bool
    ensures { result ≡ is_named tables.now.tables row.now }
{
    tables.get_job(&row.spec.job).is_some()
        && is_known_calendar(tables, &row.spec.calendar)
        && has_known_zone(tables, &row.spec.timing.kind)
}

#[tactic(auto, unfolding(crate::specs::Triggers::state_fits))]
fn state_fits<'a>(
    tables: &Tables,
    acquired: &KeySet<'a>,
    exclusive: &KeySet<'a>,
    row: &'a TriggerRow,
) -> bool
    ensures { result ≡ state_fits tables.now.tables acquired.now exclusive.now row.now }
{
    (!is_acquired_state(row.state) || acquired.has(&row.spec.key))
        && (if exclusive.has(&row.spec.job) {
            is_blocked_or_done(row.state)
        } else {
            !is_blocked(row.state)
        })
        && next_fits(tables, is_live_state(row.state), row.next)
}

#[tactic(auto, unfolding(crate::specs::Triggers::trigger_fits))]
fn trigger_fits<'a>(
    tables: &Tables,
    acquired: &KeySet<'a>,
    exclusive: &KeySet<'a>,
    row: &'a TriggerRow,
) -> bool
    ensures { result ≡ trigger_fits tables.now.tables acquired.now exclusive.now row.now }
{
    is_named(tables, row) && state_fits(tables, acquired, exclusive, row) && name_fits(tables, row)
}

/// Whether each trigger fits the tables, with the keys of the acquired triggers and of the jobs that have an exclusive
/// execution.
#[tactic(auto, using(crate::proofs::Walks::fails_at, crate::proofs::Walks::all_pass))]
pub fn triggers_fit<'a>(tables: &'a Tables, acquired: &KeySet<'a>, exclusive: &KeySet<'a>) -> bool
    ensures { result ≡ list_all (trigger_fits tables.now.tables acquired.now exclusive.now) tables.now.tables.triggers }
{
    for place in 0..tables.len_triggers() {
        let Some(row) = tables.nth_trigger(place) else {
            unreachable!()
        };
        if !trigger_fits(tables, acquired, exclusive, row) {
            return false;
        }
    }
    true
}
