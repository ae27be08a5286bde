//! A member recovers another, that failed.
ghost use Rattle.std.specs.Prelude.{◌≡◌, ◌≤◌, ℤ, length, IfOk, IfSome, IsSome, MatchOption, option_copied};
ghost use Rattle.qz_types.specs.Outcomes.{refused, IsAccepted};
ghost use Rattle.qz_types.specs.Words.{member_of};
ghost use Rattle.qz_model.specs.Invariant.{TablesValid};
ghost use Rattle.qz_model.specs.Recovery.{lost_of, recover, recoveries, recovered, recovery_refusal};
ghost use Rattle.qz_recover.specs.Prepared.{IsCollected, HasRoomFor, IsChangeOf, added_by, member_in};
ghost use Rattle.qz_recover.specs.Recovering.{executions_of, taken_over, triggers_for};

use crate::changes::{Change, Recovery, RecoveryCounts};
use crate::ending::recover_rows;
use crate::recovery_triggers::{count_recoveries, recoveries, triggers_of_executions};
use qz_apply::node_refusal;
use qz_civil::List;
use qz_tables::Tables;
use qz_types::{Command, MemberRow, NoMemory, Refusal, Reply, TRIGGER_LIMIT, Text};
use std::alloc::AllocError;

/// Why a Recover of the member is refused, if it is.
#[tactic(auto, using(crate::proofs::Recovers::of_recover))]
pub fn recover_refused(tables: &Tables, me: &MemberRow, node: &Text) -> Option<Refusal>
    ensures { (m : ℤ) → MatchOption result (IsAccepted (recover tables.now.tables m me.now node.now)) (λ x. recover tables.now.tables m me.now node.now ≡ refused x) }
{
    if let Some(refusal) = node_refusal(tables, me) {
        return Some(refusal);
    }
    match tables.get_member(node) {
        None => Some(Refusal::NotMember),
        Some(member) => recovery_refusal(tables, member),
    }
}

/// Collects what a Recover of this node needs, where nothing refuses it, and makes room for it.
pub fn prepare_recover(tables: &mut Tables, node: &Text) -> Result<Change, NoMemory>
    requires valid { ∥ TablesValid tables.old.tables ∥₁ }
    requires member { IsSome (member_of node.now tables.old.tables.members) }
    ensures change { IfOk result (IsChangeOf tables.old.tables (Command.Recover node.now)) }
    ensures room { IfOk result (HasRoomFor tables.new.spare) }
    ensures tables { tables.new.tables ≡ tables.old.tables }
    ensures links { tables.new.links ≡ tables.old.links }
{
    let Some(member) = tables.get_member(node) else {
        unreachable!()
    };
    let recovery = collect(tables, member)?;
    tables.reserve(recovery.added.len())?;
    Ok(Change::Recover(recovery))
}

/// What is collected for the recovery of the member of this name, if there is one.
pub fn collect_former(tables: &Tables, node: &Text) -> Result<Option<Recovery>, AllocError>
    requires { ∥ TablesValid tables.now.tables ∥₁ }
    ensures member { IfOk result (λ former. member_of node.now tables.now.tables.members ≡ member_in former) }
    ensures collected { IfOk result (λ former. IfSome former (IsCollected tables.now.tables)) }
{
    match tables.get_member(node) {
        Some(member) => Ok(Some(collect(tables, member)?)),
        None => Ok(None),
    }
}

// What is collected for the recovery of a member.
fn collect(tables: &Tables, member: &MemberRow) -> Result<Recovery, AllocError>
    requires { ∥ TablesValid tables.now.tables ∥₁ }
    ensures member { IfOk result (λ r. r.member ≡ member.now) }
    ensures collected { IfOk result (IsCollected tables.now.tables) }
{
    let added = recoveries(tables, member)?;
    let ended = triggers_of_executions(tables, member)?;
    let member = member.copy()?;
    Ok(Recovery {
        member,
        added: List::from_vec(added),
        ended: List::from_vec(ended),
    })
}

/// The member recovers what was collected of another, and that one goes. The moment is in ms since 1970-01-01T00:00:00Z.
pub fn recover(tables: &mut Tables, moment: i64, recovery: Recovery) -> Reply
    requires valid { ∥ TablesValid tables.old.tables ∥₁ }
    requires collected { IsCollected tables.old.tables recovery }
    requires room { length recovery.added ≤ tables.old.spare.triggers }
    ensures tables { tables.new.tables ≡ record (recovered tables.old.tables recovery.member) { last_moment = moment } }
    ensures reply { result ≡ Reply.Recovered (length (lost_of recovery.member tables.old.tables.fired)) (length (recoveries tables.old.tables recovery.member)) }
{
    let counts = recover_member(tables, recovery);
    tables.set_last_moment(moment);
    Reply::Recovered {
        executions: counts.executions,
        triggers: counts.triggers,
    }
}

/// Why what the member had can't be recovered, if it can't: the triggers that are added for it would be too many.
#[tactic(auto, unfolding(qz_model::specs::Recovery::recovery_refusal))]
pub fn recovery_refusal(tables: &Tables, member: &MemberRow) -> Option<Refusal>
    ensures { result ≡ recovery_refusal tables.now.tables member.now }
{
    let more = count_recoveries(tables, member) as u64;
    if (tables.len_triggers() as u64).saturating_add(more) > TRIGGER_LIMIT {
        Some(Refusal::TooMany {
            count: TRIGGER_LIMIT,
        })
    } else {
        None
    }
}

/// Recovers what was collected of a member, and that one goes, if there is one.
pub fn take_over(tables: &mut Tables, former: Option<Recovery>) -> RecoveryCounts
    requires valid { ∥ TablesValid tables.old.tables ∥₁ }
    requires collected { IfSome former (IsCollected tables.old.tables) }
    requires room { added_by former ≤ tables.old.spare.triggers }
    ensures tables { tables.new.tables ≡ taken_over tables.old.tables (member_in former) }
    ensures executions { result.executions ≡ executions_of tables.old.tables (member_in former) }
    ensures triggers { result.triggers ≡ triggers_for tables.old.tables (member_in former) }
    ensures members { tables.old.spare.members ≤ tables.new.spare.members }
{
    match former {
        Some(recovery) => recover_member(tables, recovery),
        None => RecoveryCounts {
            executions: 0,
            triggers: 0,
        },
    }
}

// Recovers what was collected of a member, and that one goes.
fn recover_member(tables: &mut Tables, recovery: Recovery) -> RecoveryCounts
    requires valid { ∥ TablesValid tables.old.tables ∥₁ }
    requires collected { IsCollected tables.old.tables recovery }
    requires room { length recovery.added ≤ tables.old.spare.triggers }
    ensures tables { tables.new.tables ≡ recovered tables.old.tables recovery.member }
    ensures executions { result.executions ≡ length (lost_of recovery.member tables.old.tables.fired) }
    ensures triggers { result.triggers ≡ length (recoveries tables.old.tables recovery.member) }
    ensures members { tables.old.spare.members ≤ tables.new.spare.members }
{
    let Recovery {
        member,
        added,
        ended,
    } = recovery;
    let counts = RecoveryCounts {
        executions: ended.len() as u64,
        triggers: added.len() as u64,
    };
    recover_rows(tables, &member, added.into_vec(), ended.into_vec());
    drop(member);
    counts
}
