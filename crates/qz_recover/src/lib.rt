//! The commands on members, applied to the tables of the trigger store: Join, Leave and Recover.
//!
//! A command is applied by two calls: `prepare` finds what refuses it, and takes the memory that it needs, and `commit`
//! makes the change, and can't fail. A caller may do in between what can fail, as to write a record on a disk.
#![tactic(auto)]

ghost use Rattle.std.specs.Prelude.{◌≡◌, IsTrue, Err, IfOk, IfErr, OnErr, MatchOption};
ghost use Rattle.qz_types.specs.Entries.{is_entry};
ghost use Rattle.qz_types.specs.Outcomes.{accepted, refused, IsAccepted, IsErrorOf};
ghost use Rattle.qz_model.specs.Invariant.{TablesValid};
ghost use Rattle.qz_model.specs.Transaction.{transaction};
ghost use Rattle.qz_apply.specs.Memory.{takes_memory};
ghost use Rattle.qz_types.specs.Groups.{IsOfMembership};
ghost use Rattle.qz_recover.specs.Prepared.{HasRoomFor, IsChangeOf, Prepares};

mod changes;
mod ending;
mod joining;
mod leaving;
mod recovering;
mod recovery_triggers;

pub use changes::{Change, Recovery};
use joining::{join, join_refused, prepare_join};
use leaving::{leave, leave_refused};
use qz_apply::recorded_moment;
use qz_tables::Tables;
use qz_types::{Actor, Command, Entry, NoMemory, Refusal, Reply, StepRefused};
use recovering::{prepare_recover, recover, recover_refused};

/// Why the command is refused, if it is.
pub fn refusal(tables: &Tables, entry: &Entry) -> Option<Refusal>
    requires { IsOfMembership entry.now.command }
    ensures { MatchOption result (IsAccepted (transaction tables.now.tables entry.now)) (λ x. transaction tables.now.tables entry.now ≡ refused x) }
{
    match &entry.command {
        Command::Join { node } => join_refused(tables, node),
        Command::Leave => match &entry.actor {
            Actor::Client => Some(Refusal::Fenced { live: None }),
            Actor::Node(me) => leave_refused(tables, me),
        },
        Command::Recover { node } => match &entry.actor {
            Actor::Client => Some(Refusal::Fenced { live: None }),
            Actor::Node(me) => recover_refused(tables, me, node),
        },
        _ => unreachable!(),
    }
}

/// Decides the command's transaction, and takes all the memory that it needs. The rows, the numbers and the order of
/// linking stay as they are. Memory is wanted only where the command isn't refused, and never for a Leave.
pub fn prepare(tables: &mut Tables, entry: &Entry) -> Result<Change, StepRefused>
    requires command { IsOfMembership entry.now.command }
    requires valid { ∥ TablesValid tables.old.tables ∥₁ }
    ensures ok { IfOk result (Prepares tables.new entry.now) }
    ensures cause { IfErr result (IsErrorOf (transaction tables.old.tables entry.now)) }
    ensures memory { result ≡ Err StepRefused.NoMemory → IsTrue (takes_memory entry.now.command) }
    ensures tables { tables.new.tables ≡ tables.old.tables }
    ensures links { tables.new.links ≡ tables.old.links }
{
    if let Some(refusal) = refusal(tables, entry) {
        return Err(StepRefused::Refused(refusal));
    }
    Ok(change_of(tables, entry)?)
}

// The change of a command that isn't refused.
fn change_of(tables: &mut Tables, entry: &Entry) -> Result<Change, NoMemory>
    requires command { IsOfMembership entry.now.command }
    requires valid { ∥ TablesValid tables.old.tables ∥₁ }
    requires accepted { IsAccepted (transaction tables.old.tables entry.now) }
    ensures change { IfOk result (IsChangeOf tables.old.tables entry.now.command) }
    ensures room { IfOk result (HasRoomFor tables.new.spare) }
    ensures memory { OnErr result (IsTrue (takes_memory entry.now.command)) }
    ensures tables { tables.new.tables ≡ tables.old.tables }
    ensures links { tables.new.links ≡ tables.old.links }
{
    match &entry.command {
        Command::Join { node } => prepare_join(tables, node),
        Command::Leave => Ok(Change::Leave),
        Command::Recover { node } => prepare_recover(tables, node),
        _ => unreachable!(),
    }
}

/// Does what was prepared for the entry at these tables. It takes no memory, and can't fail.
pub fn commit(tables: &mut Tables, entry: &Entry, change: Change) -> Reply
    requires valid { ∥ TablesValid tables.old.tables ∥₁ }
    requires entry { IsTrue (is_entry entry.now) }
    requires prepared { Prepares tables.old entry.now change }
    ensures ok { transaction tables.old.tables entry.now ≡ accepted tables.new.tables result }
    ensures valid { ∥ TablesValid tables.new.tables ∥₁ }
{
    let moment = recorded_moment(tables, entry.at);
    match change {
        Change::Join { name, former } => join(tables, moment, name, former),
        Change::Leave => match &entry.actor {
            Actor::Client => unreachable!(),
            Actor::Node(me) => leave(tables, moment, me),
        },
        Change::Recover(recovery) => recover(tables, moment, recovery),
    }
}
