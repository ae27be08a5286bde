//! A node joins.
ghost use Rattle.std.specs.Prelude.{◌≡◌, ◌<◌, ◌≤◌, IfNone, IfOk, IfSome, IsTrue, MatchOption, ℤ, option_copied};
ghost use Rattle.qz_types.specs.Rows.{is_node};
ghost use Rattle.qz_types.specs.Outcomes.{accepted, refused, IsAccepted};
ghost use Rattle.qz_types.specs.Words.{member_of};
ghost use Rattle.qz_model.specs.Invariant.{TablesValid};
ghost use Rattle.qz_model.specs.Recovery.{epoch_refusal, join_refusal, join};
ghost use Rattle.qz_recover.specs.Prepared.{IsCollected, HasRoomFor, IsChangeOf, added_by, member_in};

use crate::changes::{Change, Recovery};
use crate::recovering::{collect_former, recovery_refusal, take_over};
use qz_tables::Tables;
use qz_types::{Command, MEMBER_LIMIT, MemberRow, NUMBER_LIMIT, NoMemory, Refusal, Reply, Text};

/// Why a Join of the node is refused, if it is.
#[tactic(auto, using(crate::proofs::Joins::of_join))]
pub fn join_refused(tables: &Tables, node: &Text) -> Option<Refusal>
    ensures { (m : ℤ) → MatchOption result (IsAccepted (join tables.now.tables m node.now)) (λ x. join tables.now.tables m node.now ≡ refused x) }
{
    join_refusal(tables, node)
}

/// Copies what a Join of this node needs, and makes room for it.
pub fn prepare_join(tables: &mut Tables, node: &Text) -> Result<Change, NoMemory>
    requires { ∥ TablesValid tables.old.tables ∥₁ }
    ensures change { IfOk result (IsChangeOf tables.old.tables (Command.Join node.now)) }
    ensures room { IfOk result (HasRoomFor tables.new.spare) }
    ensures tables { tables.new.tables ≡ tables.old.tables }
    ensures links { tables.new.links ≡ tables.old.links }
{
    let name = node.clone()?;
    let former = collect_former(tables, node)?;
    tables.reserve(rows_of(&former))?;
    Ok(Change::Join { name, former })
}

// For how many rows of a kind there has to be room at most: for the member, and for the triggers of the recovery.
fn rows_of(former: &Option<Recovery>) -> usize
    ensures member { 1 ≤ result }
    ensures triggers { added_by former.now ≤ result }
{
    match former {
        Some(recovery) => recovery.added.len().max(1),
        None => 1,
    }
}

/// The node becomes a member under the next epoch, where nothing refuses it. Where a member has its name, it takes that
/// one's place, and what was collected of that one is recovered. The moment is in ms since 1970-01-01T00:00:00Z.
pub fn join(tables: &mut Tables, moment: i64, name: Text, former: Option<Recovery>) -> Reply
    requires valid { ∥ TablesValid tables.old.tables ∥₁ }
    requires accepted { IsAccepted (join tables.old.tables moment name) }
    requires node { IsTrue (is_node name) }
    requires member { member_of name tables.old.tables.members ≡ member_in former }
    requires collected { IfSome former (IsCollected tables.old.tables) }
    requires spare { 1 ≤ tables.old.spare.members }
    requires room { added_by former ≤ tables.old.spare.triggers }
    ensures { join tables.old.tables moment name ≡ accepted tables.new.tables result }
{
    let epoch = tables.next_epoch();
    let counts = take_over(tables, former);
    tables.insert_member(MemberRow { node: name, epoch });
    tables.set_next_epoch(epoch + 1);
    tables.set_last_moment(moment);
    Reply::Joined {
        epoch,
        executions: counts.executions,
        triggers: counts.triggers,
    }
}

// Why the node doesn't join, if it doesn't.
#[tactic(auto, unfolding(qz_model::specs::Recovery::join_refusal))]
fn join_refusal(tables: &Tables, node: &Text) -> Option<Refusal>
    ensures value { result ≡ join_refusal tables.now.tables (member_of node.now tables.now.tables.members) }
    ensures epoch { IfNone result (tables.now.tables.next_epoch < NUMBER_LIMIT) }
{
    match tables.get_member(node) {
        Some(member) => match recovery_refusal(tables, member) {
            Some(refusal) => Some(refusal),
            None => epoch_refusal(tables),
        },
        None if tables.len_members() as u64 >= MEMBER_LIMIT => Some(Refusal::TooMany {
            count: MEMBER_LIMIT,
        }),
        None => epoch_refusal(tables),
    }
}

// No epoch is left to give.
#[tactic(auto, unfolding(qz_model::specs::Recovery::epoch_refusal))]
fn epoch_refusal(tables: &Tables) -> Option<Refusal>
    ensures value { result ≡ epoch_refusal tables.now.tables }
    ensures epoch { IfNone result (tables.now.tables.next_epoch < NUMBER_LIMIT) }
{
    if tables.next_epoch() >= NUMBER_LIMIT {
        Some(Refusal::TooMany {
            count: NUMBER_LIMIT,
        })
    } else {
        None
    }
}
