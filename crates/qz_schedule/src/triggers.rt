//! Adding and deleting triggers.
ghost use Rattle.std.specs.Prelude.{◌≡◌, ◌≤◌, ℤ, Bool, Some, None, IsSome, IsTrue, IfOk, IfErr, OnOk, codes, option_copied};
ghost use Rattle.qz_types.specs.Rows.{is_trigger_spec};
ghost use Rattle.qz_types.specs.States.{first_state};
ghost use Rattle.qz_types.specs.Outcomes.{accepted, IsErrorOf};
ghost use Rattle.qz_types.specs.Words.{trigger_of};
ghost use Rattle.qz_model.specs.Plan.{first_time};
ghost use Rattle.qz_model.specs.Triggers.{is_reserved, naming_refusal, add_trigger_refusal, new_state, new_trigger, with_new_trigger, add_trigger, unknown_trigger, delete_trigger};
ghost use Rattle.qz_tables.specs.Contents.{HasSpare};

use crate::changes::Change;
use crate::known::{has_known_zone, is_known_calendar};
use qz_apply::{
    is_busy, is_in_paused, next_after, remove_orphan, remove_trigger_and_orphan, same_text,
};
use qz_tables::Tables;
use qz_types::{
    Key, Refusal, Reply, StepRefused, TRIGGER_LIMIT, Text, TriggerRow, TriggerSpec, TriggerState,
};

/// The row that an AddTrigger stores, with room for it. The search for its first fire time is made once.
pub fn prepare_trigger(
    tables: &mut Tables,
    spec: &TriggerSpec,
    replace: bool,
) -> Result<Change, StepRefused>
    requires { IsTrue (is_trigger_spec spec.now) }
    ensures ok { IfOk result (λ change. change ≡ Change.Trigger (new_trigger tables.old.tables spec.now (first_time tables.old.tables spec.now))) }
    ensures accepts { OnOk result (add_trigger_refusal tables.old.tables spec.now replace ≡ None) }
    ensures room { OnOk result (HasSpare 1 tables.new.spare) }
    ensures cause { IfErr result (λ error. (moment : ℤ) → IsErrorOf (add_trigger tables.old.tables moment spec.now replace) error) }
    ensures same { tables.new.tables ≡ tables.old.tables }
    ensures links { tables.new.links ≡ tables.old.links }
{
    let next = match first_fire_time(tables, spec, replace) {
        Ok(next) => next,
        Err(refusal) => return Err(StepRefused::Refused(refusal)),
    };
    tables.reserve(1)?;
    let spec = spec.copy()?;
    let row = new_trigger(tables, spec, Some(next));
    Ok(Change::Trigger(row))
}

/// Stores a new trigger, which nothing refuses, in place of one of its key. The moment is in ms since
/// 1970-01-01T00:00:00Z.
pub fn add_trigger(tables: &mut Tables, moment: i64, row: TriggerRow) -> Reply
    requires row { row ≡ new_trigger tables.old.tables row.spec (first_time tables.old.tables row.spec) }
    requires time { IsSome row.next }
    requires spare { 1 ≤ tables.old.spare.triggers }
    ensures { (replace : Bool) → add_trigger_refusal tables.old.tables row.spec replace ≡ None → add_trigger tables.old.tables moment row.spec replace ≡ accepted tables.new.tables result }
{
    let Some(next) = row.next else { unreachable!() };
    set_trigger(tables, row);
    tables.set_last_moment(moment);
    Reply::Added { next }
}

/// Why the trigger isn't added, if it isn't.
pub fn add_trigger_refusal(tables: &Tables, spec: &TriggerSpec, replace: bool) -> Option<Refusal>
    requires { IsTrue (is_trigger_spec spec.now) }
    ensures { result ≡ add_trigger_refusal tables.now.tables spec.now replace }
{
    first_fire_time(tables, spec, replace).err()
}

// The first fire time of the trigger, in ms since 1970-01-01T00:00:00Z, or why the trigger isn't added.
#[tactic(auto, unfolding(qz_model::specs::Triggers::add_trigger_refusal))]
fn first_fire_time(tables: &Tables, spec: &TriggerSpec, replace: bool) -> Result<i64, Refusal>
    requires { IsTrue (is_trigger_spec spec.now) }
    ensures ok { IfOk result (λ next. add_trigger_refusal tables.now.tables spec.now replace ≡ None) }
    ensures time { IfOk result (λ next. first_time tables.now.tables spec.now ≡ Some next) }
    ensures err { IfErr result (λ refusal. add_trigger_refusal tables.now.tables spec.now replace ≡ Some refusal) }
{
    if let Some(refusal) = naming_refusal(tables, spec) {
        return Err(refusal);
    }
    let stored = tables.get_trigger(&spec.key).is_some();
    if stored && !replace {
        return Err(Refusal::TriggerExists);
    }
    let Some(next) = next_after(tables, spec, -1) else {
        return Err(Refusal::NeverFires);
    };
    if !stored && tables.len_triggers() as u64 >= TRIGGER_LIMIT {
        return Err(Refusal::TooMany {
            count: TRIGGER_LIMIT,
        });
    }
    Ok(next)
}

// Why the trigger can't name what it names, if it can't.
#[tactic(auto, unfolding(qz_model::specs::Triggers::naming_refusal))]
fn naming_refusal(tables: &Tables, spec: &TriggerSpec) -> Option<Refusal>
    ensures { result ≡ naming_refusal tables.now.tables spec.now }
{
    if is_reserved(&spec.key.group) {
        return Some(Refusal::ReservedGroup);
    }
    if tables.get_job(&spec.job).is_none() {
        return Some(Refusal::UnknownJob);
    }
    if !is_known_calendar(tables, &spec.calendar) {
        return Some(Refusal::UnknownCalendar);
    }
    if !has_known_zone(tables, &spec.timing.kind) {
        return Some(Refusal::UnknownZone);
    }
    None
}

// Stores the trigger, in place of one of its key. That one goes with its acquired row, and with its job if that is an
// orphan then.
#[tactic(auto, using(crate::proofs::Absent::no_trigger))]
fn set_trigger(tables: &mut Tables, trigger: TriggerRow)
    requires { 1 ≤ tables.old.spare.triggers }
    ensures { tables.new.tables ≡ with_new_trigger tables.old.tables trigger }
{
    let old = tables.remove_trigger(&trigger.spec.key);
    tables.remove_acquired(&trigger.spec.key);
    tables.insert_trigger(trigger);
    if let Some(old) = old {
        remove_orphan(tables, &old.spec.job);
        drop(old);
    }
}

/// Deletes the trigger, which is stored. The moment is in ms since 1970-01-01T00:00:00Z.
pub fn delete_trigger(tables: &mut Tables, moment: i64, key: &Key) -> Reply
    requires { unknown_trigger (trigger_of key.now tables.old.tables.triggers) ≡ None }
    ensures { delete_trigger tables.old.tables moment key.now ≡ accepted tables.new.tables result }
{
    remove_trigger_and_orphan(tables, key);
    tables.set_last_moment(moment);
    Reply::Done
}

/// Why a command on the trigger of this key is refused, if it is.
pub fn unknown_trigger(tables: &Tables, key: &Key) -> Option<Refusal>
    ensures { result ≡ unknown_trigger (trigger_of key.now tables.now.tables.triggers) }
{
    match tables.get_trigger(key) {
        None => Some(Refusal::UnknownTrigger),
        Some(_) => None,
    }
}

#[tactic(auto, unfolding(qz_model::specs::Triggers::is_reserved))]
fn is_reserved(group: &Text) -> bool
    ensures { result ≡ is_reserved group.now }
{
    same_text(group.as_str(), "RECOVERING_JOBS") || same_text(group.as_str(), "MANUAL_TRIGGERS")
}

/// A trigger that hasn't fired yet, with this next time, in ms since 1970-01-01T00:00:00Z.
#[tactic(auto, unfolding(qz_model::specs::Triggers::new_trigger))]
pub fn new_trigger(tables: &Tables, spec: TriggerSpec, next: Option<i64>) -> TriggerRow
    requires { IsTrue (is_trigger_spec spec) }
    ensures { result ≡ new_trigger tables.now.tables spec next }
{
    let state = new_state(tables, &spec);
    TriggerRow {
        spec,
        next,
        prev: None,
        times: 0,
        state,
    }
}

/// The state of a trigger that is stored now.
#[tactic(auto, unfolding(qz_model::specs::Triggers::new_state))]
pub fn new_state(tables: &Tables, spec: &TriggerSpec) -> TriggerState
    ensures { result ≡ new_state tables.now.tables spec.now }
{
    first_state(is_in_paused(tables, spec), is_busy(tables, &spec.job))
}

// The same by whether it is paused with a group, and whether an execution excludes others of its job.
fn first_state(paused: bool, busy: bool) -> TriggerState
    ensures { result ≡ first_state paused busy }
{
    match (paused, busy) {
        (false, false) => TriggerState::Waiting,
        (true, false) => TriggerState::Paused,
        (false, true) => TriggerState::Blocked,
        (true, true) => TriggerState::PausedBlocked,
    }
}
