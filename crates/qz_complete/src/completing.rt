//! A node ends an execution.
ghost use Rattle.std.specs.Prelude.{◌≡◌, ℤ, Err, MatchOption, Some, IfOk, IfErr};
ghost use Rattle.qz_types.specs.declared.commands.Code.{Code};
ghost use Rattle.qz_types.specs.Outcomes.{accepted, refused, IsAccepted, IsErrorOf};
ghost use Rattle.qz_types.specs.Tables.{SchedulerTables};
ghost use Rattle.qz_types.specs.Words.{trigger_of, fired_of};
ghost use Rattle.qz_model.specs.Completing.{finished, with_trigger_ended, with_job_ended, with_code, without_finished, complete_refusal, complete_row, complete};
ghost use Rattle.qz_complete.specs.Ended.{is_again, is_noop, ended, without_row};
ghost use Rattle.qz_complete.specs.Prepared.{change_for, ended_row, committed};
ghost use Rattle.qz_model.specs.Triggers.{without_trigger_and_orphan};

use crate::changes::Change;
use qz_apply::{
    is_acquired, node_refusal, owner_refusal, remove_finished, remove_trigger_and_orphan, unblock,
};
use qz_tables::{StateChange, Tables};
use qz_types::{Code, FiredRow, Key, MemberRow, Refusal, Reply, StepRefused, TriggerState};

/// Why a Complete of the member is refused, if it is.
pub fn complete_refused(tables: &Tables, me: &MemberRow, entry: u64) -> Option<Refusal>
    ensures { (m : ℤ) (code : Code) → MatchOption result (IsAccepted (complete tables.now.tables m me.now entry code)) (λ x. complete tables.now.tables m me.now entry code ≡ refused x) }
{
    if let Some(refusal) = node_refusal(tables, me) {
        return Some(refusal);
    }
    match tables.get_fired(entry) {
        None => Some(Refusal::UnknownEntry),
        Some(row) => row_refused(me, row),
    }
}

#[tactic(auto, using(crate::proofs::Completions::of_row))]
fn row_refused(me: &MemberRow, row: &FiredRow) -> Option<Refusal>
    ensures { (T : SchedulerTables) (m : ℤ) (code : Code) → MatchOption result (IsAccepted (complete_row T m me.now (Some row.now) code)) (λ x. complete_row T m me.now (Some row.now) code ≡ refused x) }
{
    complete_refusal(me, row)
}

#[tactic(auto, unfolding(qz_model::specs::Completing::complete_refusal))]
fn complete_refusal(me: &MemberRow, row: &FiredRow) -> Option<Refusal>
    ensures { result ≡ complete_refusal me.now row.now }
{
    match owner_refusal(me, row) {
        Some(refusal) => Some(refusal),
        None if is_acquired(row.state) => Some(Refusal::NotExecuting),
        None => None,
    }
}

/// Decides a Complete of the member. It copies nothing, so memory is never wanted.
#[tactic(auto, using(crate::proofs::Completions::complete_as))]
pub fn prepare_complete(
    tables: &Tables,
    me: &MemberRow,
    entry: u64,
    code: Code,
) -> Result<Change, StepRefused>
    ensures ok { (m : ℤ) → IfOk result (λ change. complete tables.now.tables m me.now entry code ≡ committed tables.now.tables m change) }
    ensures cause { (m : ℤ) → IfErr result (IsErrorOf (complete tables.now.tables m me.now entry code)) }
    ensures memory { result ≡ Err StepRefused.NoMemory → ⊥ }
{
    match complete_refused(tables, me, entry) {
        Some(refusal) => Err(StepRefused::Refused(refusal)),
        None => Ok(change_for(entry, code)),
    }
}

fn change_for(entry: u64, code: Code) -> Change
    ensures { result ≡ change_for entry code }
{
    if is_again(code) {
        Change::GoOn { entry }
    } else {
        Change::End { entry, code }
    }
}

/// Does what was prepared. The moment is in ms since 1970-01-01T00:00:00Z. It takes no memory.
pub fn carry_out(tables: &mut Tables, moment: i64, change: &Change) -> Reply
    ensures { committed tables.old.tables moment change.now ≡ accepted tables.new.tables result }
{
    match change {
        Change::GoOn { entry } => {
            tables.set_last_moment(moment);
            Reply::Again { entry: *entry }
        }
        Change::End { entry, code } => {
            end_row(tables, *entry, *code);
            tables.set_last_moment(moment);
            Reply::Completed { entry: *entry }
        }
    }
}

// The row of this entry number goes, if there is one, and its execution ends with this code.
fn end_row(tables: &mut Tables, entry: u64, code: Code)
    ensures { tables.new.tables ≡ ended_row code (without_row entry tables.old.tables) (fired_of entry tables.old.tables.fired) }
{
    let Some(row) = tables.remove_fired(entry) else {
        return;
    };
    end_execution(tables, &row, code);
}

fn is_again(code: Code) -> bool
    ensures { result ≡ is_again code }
{
    matches!(code, Code::ReExecuteJob)
}

// The execution of a row that was taken out ends with this code.
fn end_execution(tables: &mut Tables, row: &FiredRow, code: Code)
    ensures { tables.new.tables ≡ ended code tables.old.tables row.now }
{
    apply_code(tables, row, code);
    unblock(tables, row);
    if is_noop(code) {
        remove_finished(tables, &row.trigger);
    }
}

fn apply_code(tables: &mut Tables, row: &FiredRow, code: Code)
    ensures { tables.new.tables ≡ with_code code tables.old.tables row.now }
{
    match code {
        Code::Noop => {}
        Code::ReExecuteJob => {}
        Code::SetTriggerComplete => end_trigger(tables, &row.trigger, TriggerState::Complete),
        Code::DeleteTrigger => remove_trigger_and_orphan(tables, &row.trigger),
        Code::SetAllJobTriggersComplete => end_job(tables, &row.job, TriggerState::Complete),
        Code::SetTriggerError => end_trigger(tables, &row.trigger, TriggerState::Error),
        Code::SetAllJobTriggersError => end_job(tables, &row.job, TriggerState::Error),
    }
}

// The trigger of this key gets this state, and its acquired row goes.
#[tactic(auto, unfolding(qz_model::specs::Completing::with_trigger_ended))]
fn end_trigger(tables: &mut Tables, key: &Key, state: TriggerState)
    ensures { tables.new.tables ≡ with_trigger_ended tables.old.tables key.now state }
{
    tables.change_state(key, StateChange::Set(state));
    tables.remove_acquired(key);
}

// The same of all triggers of this job.
#[tactic(auto, unfolding(qz_model::specs::Completing::with_job_ended))]
fn end_job(tables: &mut Tables, job: &Key, state: TriggerState)
    ensures { tables.new.tables ≡ with_job_ended tables.old.tables job.now state }
{
    tables.change_job_states(job, StateChange::Set(state));
    tables.remove_acquired_of_job(job);
}

fn is_noop(code: Code) -> bool
    ensures { result ≡ is_noop code }
{
    matches!(code, Code::Noop)
}
