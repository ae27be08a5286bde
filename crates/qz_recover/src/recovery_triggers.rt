//! The triggers by which a member's executions are recovered.
ghost use Rattle.std.specs.Prelude.{◌≡◌, ◌<◌, ◌++◌, ◌∷◌, ℕ, List, Some, None, false, IsTrue, IfOk, codes, decimal, map, length, option_copied};
ghost use Rattle.qz_civil.specs.Timings.{is_span};
ghost use Rattle.qz_types.specs.declared.limits.TheConstants.{NUMBER_LIMIT};
ghost use Rattle.qz_types.specs.Rows.{is_trigger_spec};
ghost use Rattle.qz_types.specs.States.{first_state};
ghost use Rattle.qz_model.specs.Invariant.{TablesValid};
ghost use Rattle.qz_model.specs.Recovery.{asks, lost_of, recoveries, recovery_trigger};
ghost use Rattle.qz_model.specs.Triggers.{is_in_paused};
ghost use Rattle.qz_recover.specs.Recovering.{is_recovered_by};

use crate::leaving::is_execution_of;
use qz_apply::is_in_paused;
use qz_tables::Tables;
use qz_types::{
    FiredRow, Key, Kind, MemberRow, Text, Timing, TriggerRow, TriggerSpec, TriggerState,
};
use std::alloc::{AllocError, Global};

/// How many triggers recover the member's executions. It looks at each fired row.
pub fn count_recoveries(tables: &Tables, member: &MemberRow) -> usize
    ensures { result ≡ length (recoveries tables.now.tables member.now) }
{
    let mut count = 0;
    for place in 0..tables.len_fired() {
        let Some(row) = tables.nth_fired(place) else {
            unreachable!()
        };
        if is_recovered_by(tables, member, row) {
            count += 1;
        }
    }
    count
}

/// The triggers that recover the member's executions, in the order of their entry numbers.
pub fn recoveries(tables: &Tables, member: &MemberRow) -> Result<Vec<TriggerRow>, AllocError>
    requires valid { ∥ TablesValid tables.now.tables ∥₁ }
    ensures { IfOk result (λ triggers. triggers.items ≡ recoveries tables.now.tables member.now) }
{
    let mut triggers = Vec::new(tables.allocator());
    for place in 0..tables.len_fired() {
        let Some(row) = tables.nth_fired(place) else {
            unreachable!()
        };
        if is_recovered_by(tables, member, row) {
            let trigger = recovery_trigger(tables, row)?;
            triggers.push(trigger)?;
        }
    }
    Ok(triggers)
}

/// The keys of the triggers of the member's executions, in the order of their entry numbers.
pub fn triggers_of_executions(tables: &Tables, member: &MemberRow) -> Result<Vec<Key>, AllocError>
    ensures { IfOk result (λ keys. keys.items ≡ map (λ f. f.trigger) (lost_of member.now tables.now.tables.fired)) }
{
    let mut keys = Vec::new(tables.allocator());
    for place in 0..tables.len_fired() {
        let Some(row) = tables.nth_fired(place) else {
            unreachable!()
        };
        if is_execution_of(member, row) {
            let key = row.trigger.copy()?;
            keys.push(key)?;
        }
    }
    Ok(keys)
}

// Whether a trigger is added for the row.
fn is_recovered_by(tables: &Tables, member: &MemberRow, row: &FiredRow) -> bool
    ensures { result ≡ is_recovered_by tables.now.tables.jobs member.now row.now }
{
    is_execution_of(member, row) && asks(tables, row)
}

// Whether the execution asks for recovery, and its job is stored.
#[tactic(auto, unfolding(qz_model::specs::Recovery::asks))]
fn asks(tables: &Tables, row: &FiredRow) -> bool
    ensures { result ≡ asks tables.now.tables.jobs row.now }
{
    row.requests_recovery && tables.get_job(&row.job).is_some()
}

// The trigger by which the execution is recovered: it fires once, for the same time.
#[tactic(auto, using(crate::proofs::RecoverySpecs::recovery_row_is))]
fn recovery_trigger(tables: &Tables, row: &FiredRow) -> Result<TriggerRow, AllocError>
    requires scheduled { IsTrue (is_span row.now.scheduled) }
    requires number { row.now.entry < NUMBER_LIMIT }
    ensures { IfOk result (λ trigger. trigger ≡ recovery_trigger tables.now.tables.paused_groups tables.now.tables.paused_job_groups row.now) }
{
    let spec = recovery_spec(tables.allocator(), row)?;
    Ok(recovery_row(tables, spec, row.scheduled))
}

// A trigger of no running job that hasn't fired yet, with this next time.
fn recovery_row(tables: &Tables, spec: TriggerSpec, next: i64) -> TriggerRow
    requires { IsTrue (is_trigger_spec spec) }
    ensures { result ≡ record {
      spec = spec;
      next = Some next;
      prev = None;
      times = 0;
      state = first_state (is_in_paused tables.now.tables spec) false;
    } }
{
    let state = first_state(is_in_paused(tables, &spec));
    TriggerRow {
        spec,
        next: Some(next),
        prev: None,
        times: 0,
        state,
    }
}

// Its state, by whether it is paused with a group.
fn first_state(paused: bool) -> TriggerState
    ensures { result ≡ first_state paused false }
{
    if paused {
        TriggerState::Paused
    } else {
        TriggerState::Waiting
    }
}

// What the trigger is stored with.
#[tactic(auto, unfolding(qz_model::specs::Recovery::recovery_trigger))]
fn recovery_spec(alloc: Global, row: &FiredRow) -> Result<TriggerSpec, AllocError>
    ensures { (groups job_groups : List (List ℕ)) → IfOk result (λ spec. spec ≡ (recovery_trigger groups job_groups row.now).spec) }
{
    let name = recovery_name(alloc, &row.node, row.entry)?;
    let key = Key::new(alloc, "RECOVERING_JOBS", name.as_str())?;
    let job = row.job.copy()?;
    Ok(TriggerSpec {
        key,
        job,
        priority: row.priority,
        calendar: None,
        timing: Timing {
            kind: Kind::Simple {
                interval: 0,
                count: 0,
            },
            misfire: -1,
            start: row.scheduled,
            end: None,
        },
    })
}

fn recovery_name(alloc: Global, node: &Text, entry: u64) -> Result<Text, AllocError>
    ensures { IfOk result (λ name. name ≡ codes "recover_" ++ node.now ++ 95 ∷ decimal entry) }
{
    let node = node.as_str();
    let name = format!(in alloc; "recover_{node}_{entry}")?;
    Ok(Text::from_string(name))
}
