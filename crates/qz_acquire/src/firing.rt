//! A node begins the execution of a trigger that it acquired.
ghost use Rattle.std.specs.Prelude.{◌≡◌, true, MatchOption, Some, IfOk, IfErr, option_copied};
ghost use Rattle.qz_types.specs.Changes.{after_fire, begun};
ghost use Rattle.qz_types.specs.Outcomes.{refused, IsAccepted, IsErrorOf};
ghost use Rattle.qz_types.specs.States.{is_acquired};
ghost use Rattle.qz_types.specs.Words.{fired_of, with_trigger, with_fired};
ghost use Rattle.qz_model.specs.Acquiring.{acquired_refusal, next_time};
ghost use Rattle.qz_model.specs.Firing.{early, next_of, following, fired_state, fire_refusal, with_blocked, without_siblings, fire_row, fire};
ghost use Rattle.qz_model.specs.Invariant.{TablesValid};
ghost use Rattle.qz_model.specs.Tests.{stored_job};
ghost use Rattle.qz_acquire.specs.Prepared.{committed, CanCommit};

use crate::changes::{Beginning, Change};
use qz_apply::{is_acquired, next_after, node_refusal, owner_refusal};
use qz_civil::beside;
use qz_tables::{Begin, StateChange, Tables};
use qz_types::{FiredRow, JobRow, Key, MemberRow, Refusal, StepRefused, TriggerRow, TriggerState};

/// Why a Fire of the member is refused, if it is.
pub fn fire_refused(tables: &Tables, moment: i64, me: &MemberRow, entry: u64) -> Option<Refusal>
    ensures { MatchOption result (IsAccepted (fire tables.now.tables moment me.now entry)) (λ x. fire tables.now.tables moment me.now entry ≡ refused x) }
{
    if let Some(refusal) = node_refusal(tables, me) {
        return Some(refusal);
    }
    match tables.get_fired(entry) {
        None => Some(Refusal::UnknownEntry),
        Some(row) => fire_row_refused(tables, moment, me, row),
    }
}

#[tactic(auto, using(qz_apply::proofs::Refused::of_one))]
fn fire_row_refused(tables: &Tables, moment: i64, me: &MemberRow, row: &FiredRow) -> Option<Refusal>
    ensures { MatchOption result (IsAccepted (fire_row tables.now.tables moment me.now (Some row.now))) (λ x. fire_row tables.now.tables moment me.now (Some row.now) ≡ refused x) }
{
    fire_refusal(tables, moment, me, row)
}

#[tactic(auto, unfolding(qz_model::specs::Firing::fire_refusal))]
fn fire_refusal(tables: &Tables, moment: i64, me: &MemberRow, row: &FiredRow) -> Option<Refusal>
    ensures { result ≡ fire_refusal tables.now.tables moment me.now row.now }
{
    match acquired_refusal(me, row) {
        Some(refusal) => Some(refusal),
        None => early(moment, next_of(tables, &row.trigger)),
    }
}

/// Why the row is refused to this member as one that it acquired, if it is: it has to be its own, and its execution mustn't
/// have begun.
#[tactic(auto, unfolding(qz_model::specs::Acquiring::acquired_refusal))]
pub fn acquired_refusal(me: &MemberRow, row: &FiredRow) -> Option<Refusal>
    ensures { result ≡ acquired_refusal me.now row.now }
{
    match owner_refusal(me, row) {
        Some(refusal) => Some(refusal),
        None if is_acquired(row.state) => None,
        None => Some(Refusal::NotAcquired),
    }
}

fn early(moment: i64, next: Option<i64>) -> Option<Refusal>
    ensures { result ≡ early moment next }
{
    match next {
        Some(next) if moment < next => Some(Refusal::Early { next }),
        _ => None,
    }
}

// The next time of the trigger of this key, if it has one.
#[tactic(auto, unfolding(qz_model::specs::Firing::next_of))]
fn next_of(tables: &Tables, key: &Key) -> Option<i64>
    ensures { result ≡ next_of key.now tables.now.tables.triggers }
{
    match tables.get_trigger(key) {
        Some(trigger) => trigger.next,
        None => None,
    }
}

/// Decides a Fire of the member, which begins the execution of what it acquired under this entry number. It copies the
/// key of the trigger and the job. The moment is in ms since 1970-01-01T00:00:00Z.
pub fn prepare_fire(
    tables: &Tables,
    moment: i64,
    me: &MemberRow,
    entry: u64,
) -> Result<Change, StepRefused>
    requires valid { ∥ TablesValid tables.now.tables ∥₁ }
    ensures ok { IfOk result (λ change. fire tables.now.tables moment me.now entry ≡ committed tables.now.tables moment change) }
    ensures possible { IfOk result (CanCommit tables.now) }
    ensures cause { IfErr result (IsErrorOf (fire tables.now.tables moment me.now entry)) }
{
    if let Some(refusal) = fire_refused(tables, moment, me, entry) {
        return Err(StepRefused::Refused(refusal));
    }
    let Some(row) = tables.get_fired(entry) else {
        unreachable!()
    };
    let scheduled = row.scheduled;
    let next = following(tables, entry, row);
    let job = job_of_row(tables, entry, row);
    let (trigger, job) = beside(row.trigger.copy()?, job.copy())?;
    Ok(Change::Fire(Beginning {
        entry,
        scheduled,
        next,
        trigger,
        job,
    }))
}

// The job of an acquired row: tables that are valid have it.
#[tactic(auto, unfolding(qz_model::specs::Tests::stored_job))]
fn job_of_row<'a>(tables: &'a Tables, entry: u64, row: &FiredRow) -> &'a JobRow
    requires valid { ∥ TablesValid tables.now.tables ∥₁ }
    requires stored { fired_of entry tables.now.tables.fired ≡ Some row.now }
    requires taken { is_acquired row.now.state ≡ true }
    ensures { result.now ≡ stored_job row.now.job tables.now.tables.jobs }
{
    match tables.get_job(&row.job) {
        Some(job) => job,
        None => unreachable!(),
    }
}

// The next time of the trigger of an acquired row, once this one has fired.
#[tactic(auto, unfolding(qz_model::specs::Firing::following))]
fn following(tables: &Tables, entry: u64, row: &FiredRow) -> Option<i64>
    requires valid { ∥ TablesValid tables.now.tables ∥₁ }
    requires stored { fired_of entry tables.now.tables.fired ≡ Some row.now }
    requires taken { is_acquired row.now.state ≡ true }
    ensures { result ≡ following tables.now.tables row.now }
{
    match tables.get_trigger(&row.trigger) {
        Some(trigger) => next_after(tables, &trigger.spec, next_time(trigger)),
        None => None,
    }
}

#[tactic(auto, unfolding(qz_model::specs::Acquiring::next_time))]
fn next_time(trigger: &TriggerRow) -> i64
    ensures { result ≡ next_time trigger.now }
{
    trigger.next.unwrap_or(0)
}

/// The execution begins, and its trigger has fired. If executions of the job exclude each other, its other triggers are
/// blocked, and none of them stays acquired. The moment is in ms since 1970-01-01T00:00:00Z. It takes no memory.
pub fn begin(tables: &mut Tables, moment: i64, one: &Beginning)
    ensures { tables.new.tables ≡ record tables.old.tables {
      triggers = with_trigger one.now.trigger (after_fire one.now.next (fired_state one.now.next one.now.job.no_concurrent)) (with_blocked one.now.job.no_concurrent one.now.job.key tables.old.tables.triggers);
      fired = without_siblings one.now.job.no_concurrent one.now.job.key (with_fired one.now.entry (begun moment one.now.job.no_concurrent one.now.job.requests_recovery) tables.old.tables.fired);
      last_moment = moment;
    } }
{
    block_siblings(tables, &one.job);
    let state = fired_state(one.next, one.job.no_concurrent);
    tables.fire_trigger(&one.trigger, one.next, state);
    tables.begin_execution(
        one.entry,
        Begin {
            moment,
            no_concurrent: one.job.no_concurrent,
            requests_recovery: one.job.requests_recovery,
        },
    );
    free_siblings(tables, &one.job);
    tables.set_last_moment(moment);
}

fn block_siblings(tables: &mut Tables, job: &JobRow)
    ensures { tables.new.tables ≡ record tables.old.tables { triggers = with_blocked job.now.no_concurrent job.now.key tables.old.tables.triggers } }
{
    if job.no_concurrent {
        tables.change_job_states(&job.key, StateChange::Block);
    }
}

fn free_siblings(tables: &mut Tables, job: &JobRow)
    ensures { tables.new.tables ≡ record tables.old.tables { fired = without_siblings job.now.no_concurrent job.now.key tables.old.tables.fired } }
{
    if job.no_concurrent {
        tables.remove_acquired_of_job(&job.key);
    }
}

// The state of a trigger that fired, by its next time and by whether executions of its job exclude each other.
fn fired_state(next: Option<i64>, exclusive: bool) -> TriggerState
    ensures { result ≡ fired_state next exclusive }
{
    match next {
        None => TriggerState::Complete,
        Some(_) if exclusive => TriggerState::Blocked,
        Some(_) => TriggerState::Waiting,
    }
}
