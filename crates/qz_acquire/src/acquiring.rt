//! A node acquires triggers that are due. Times are in ms since 1970-01-01T00:00:00Z.
ghost use Rattle.std.specs.Prelude.{◌≡◌, ◌≤◌, ◌+◌, ◌+ℤ◌, ℤ, None, MatchOption, IfOk, IfErr, IsTrue, option_copied, map, fold, length};
ghost use Rattle.qz_civil.specs.Timings.{is_span};
ghost use Rattle.qz_types.specs.Tables.{IsMoment};
ghost use Rattle.qz_types.specs.Outcomes.{refused, IsAccepted, IsErrorOf};
ghost use Rattle.qz_types.specs.Words.{fired_of};
ghost use Rattle.qz_types.specs.declared.limits.TheConstants.{NUMBER_LIMIT};
ghost use Rattle.qz_model.specs.Acquiring.{acquire_refusal, acquired_row, chosen, next_time, acquire};
ghost use Rattle.qz_model.specs.Invariant.{TablesValid};
ghost use Rattle.qz_model.specs.Tests.{stored_job};
ghost use Rattle.qz_acquire.specs.Choosing.{rows_from, with_row, AreNew, taken_row};
ghost use Rattle.qz_acquire.specs.Prepared.{committed, CanCommit};

use crate::changes::Change;
use crate::choosing::chosen;
use crate::jobs::{is_exclusive, is_recovered};
use qz_apply::node_refusal;
use qz_civil::beside;
use qz_tables::Tables;
use qz_types::{
    FIRED_LIMIT, FiredRow, FiredState, List, MemberRow, NUMBER_LIMIT, Refusal, StepRefused, Taken,
    TriggerRow, TriggerState,
};
use std::alloc::{AllocError, Global};

/// Why an Acquire of the member is refused, if it is.
#[tactic(auto, using(crate::proofs::Refused::of_acquire))]
pub fn acquire_refused(tables: &Tables, me: &MemberRow, max: u32) -> Option<Refusal>
    ensures { (m no_later window : ℤ) → MatchOption result (IsAccepted (acquire tables.now.tables m me.now no_later window max)) (λ x. acquire tables.now.tables m me.now no_later window max ≡ refused x) }
{
    match node_refusal(tables, me) {
        Some(refusal) => Some(refusal),
        None => acquire_refusal(tables, max),
    }
}

#[tactic(auto, unfolding(qz_model::specs::Acquiring::acquire_refusal))]
fn acquire_refusal(tables: &Tables, max: u32) -> Option<Refusal>
    ensures { result ≡ acquire_refusal tables.now.tables max }
{
    let more = u64::from(max);
    if (tables.len_fired() as u64).saturating_add(more) > FIRED_LIMIT {
        Some(Refusal::TooMany { count: FIRED_LIMIT })
    } else if tables.next_entry().saturating_add(more) > NUMBER_LIMIT {
        Some(Refusal::TooMany {
            count: NUMBER_LIMIT,
        })
    } else {
        None
    }
}

/// Decides an Acquire of the member, which takes triggers that are due up to `no_later + window`, up to `max`. It copies
/// what their rows and the reply need, and makes room for the rows.
pub fn prepare_acquire(
    tables: &mut Tables,
    moment: i64,
    me: &MemberRow,
    no_later: i64,
    window: i64,
    max: u32,
) -> Result<Change, StepRefused>
    requires valid { ∥ TablesValid tables.old.tables ∥₁ }
    requires moment { IsMoment tables.old.tables.horizon moment }
    requires no_later { IsTrue (is_span no_later) }
    requires window { IsTrue (is_span window) }
    ensures ok { IfOk result (λ change. acquire tables.old.tables moment me.now no_later window max ≡ committed tables.old.tables moment change) }
    ensures possible { IfOk result (CanCommit tables.new) }
    ensures cause { IfErr result (IsErrorOf (acquire tables.old.tables moment me.now no_later window max)) }
    ensures same { tables.new.tables ≡ tables.old.tables }
{
    if let Some(refusal) = acquire_refused(tables, me, max) {
        return Err(StepRefused::Refused(refusal));
    }
    let rows = rows(tables, moment, me, no_later + window, max)?;
    let taken = taken_of(tables.allocator(), &rows)?;
    tables.reserve(rows.len())?;
    Ok(Change::Acquire {
        rows: List::from_vec(rows),
        taken,
    })
}

// The rows of the triggers that are taken.
fn rows(
    tables: &Tables,
    moment: i64,
    me: &MemberRow,
    limit: i64,
    max: u32,
) -> Result<Vec<FiredRow>, AllocError>
    requires valid { ∥ TablesValid tables.now.tables ∥₁ }
    requires moment { IsMoment tables.now.tables.horizon moment }
    requires numbers { acquire_refusal tables.now.tables max ≡ None }
    ensures { IfOk result (λ rows. rows.items ≡ rows_from tables.now.tables me.now tables.now.tables.next_entry (chosen tables.now.tables moment limit max)) }
{
    let triggers = chosen(tables, moment, limit, max)?;
    rows_of(tables, me, &triggers)
}

// The row of each of these.
fn rows_of(
    tables: &Tables,
    me: &MemberRow,
    triggers: &[&TriggerRow],
) -> Result<Vec<FiredRow>, AllocError>
    requires { tables.now.tables.next_entry + length triggers.now ≤ NUMBER_LIMIT }
    ensures { IfOk result (λ rows. rows.items ≡ rows_from tables.now.tables me.now tables.now.tables.next_entry (map (λ r. r.now) triggers.now)) }
{
    let mut entry = tables.next_entry();
    let mut rows = Vec::new(tables.allocator());
    for trigger in triggers {
        let row = acquired_row(tables, entry, me, trigger)?;
        rows.push(row)?;
        entry += 1;
    }
    Ok(rows)
}

// The row of a trigger that is acquired by the member under this entry number.
#[tactic(auto, unfolding(qz_model::specs::Acquiring::acquired_row))]
fn acquired_row(
    tables: &Tables,
    entry: u64,
    me: &MemberRow,
    trigger: &TriggerRow,
) -> Result<FiredRow, AllocError>
    ensures { IfOk result (λ row. row ≡ acquired_row entry me.now trigger.now (stored_job trigger.now.spec.job tables.now.tables.jobs)) }
{
    let no_concurrent = is_exclusive(tables, &trigger.spec.job);
    let requests_recovery = is_recovered(tables, &trigger.spec.job);
    let scheduled = next_time(trigger);
    let node = me.node.clone()?;
    let (node, key) = beside(node, trigger.spec.key.copy())?;
    let ((node, key), job_key) = beside((node, key), trigger.spec.job.copy())?;
    Ok(FiredRow {
        entry,
        node,
        epoch: me.epoch,
        trigger: key,
        job: job_key,
        priority: trigger.spec.priority,
        state: FiredState::Acquired,
        scheduled,
        fired: None,
        no_concurrent,
        requests_recovery,
    })
}

// Its next time, which tables that are valid have for each trigger that waits.
#[tactic(auto, unfolding(qz_model::specs::Acquiring::next_time))]
fn next_time(trigger: &TriggerRow) -> i64
    ensures { result ≡ next_time trigger.now }
{
    trigger.next.unwrap_or(0)
}

// What the reply lists.
fn taken_of(alloc: Global, rows: &[FiredRow]) -> Result<List<Taken>, AllocError>
    ensures { IfOk result (λ taken. taken ≡ map taken_row rows.now) }
{
    let mut taken = List::new(alloc);
    for row in rows {
        let trigger = row.trigger.copy()?;
        taken.push(Taken {
            entry: row.entry,
            trigger,
            next: row.scheduled,
        })?;
    }
    Ok(taken)
}

/// Puts in these rows, and their triggers are acquired. It takes no memory.
pub fn acquire_each(tables: &mut Tables, rows: Vec<FiredRow>)
    requires new { AreNew tables.old.tables rows.items }
    requires numbers { tables.old.tables.next_entry + length rows.items ≤ NUMBER_LIMIT }
    requires room { length rows.items ≤ tables.old.spare.fired }
    ensures { tables.new.tables ≡ fold with_row tables.old.tables rows.items }
{
    for row in rows {
        tables.set_trigger_state(&row.trigger, TriggerState::Acquired);
        tables.insert_fired(row);
        tables.set_next_entry(tables.next_entry() + 1);
    }
}
