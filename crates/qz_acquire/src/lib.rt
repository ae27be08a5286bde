//! The commands of a node that takes triggers, applied to the tables of the trigger store: Misfires, Acquire, Release and
//! Fire.
//!
//! Each is done in two steps. `prepare` decides without memory what refuses it, and then takes all memory that it needs, for
//! copies and rows. `commit` makes the change, and can't fail.
#![tactic(auto)]

ghost use Rattle.std.specs.Prelude.{◌≡◌, Err, IsTrue, IfOk, IfErr, MatchOption};
ghost use Rattle.qz_types.specs.Entries.{is_entry};
ghost use Rattle.qz_types.specs.Outcomes.{accepted, refused, IsAccepted, IsErrorOf};
ghost use Rattle.qz_model.specs.Invariant.{TablesValid};
ghost use Rattle.qz_model.specs.Transaction.{transaction};
ghost use Rattle.qz_apply.specs.Memory.{takes_memory};
ghost use Rattle.qz_types.specs.Groups.{IsOfClaim};
ghost use Rattle.qz_acquire.specs.Prepared.{committed, CanCommit, Prepares};

mod acquiring;
mod changes;
mod choosing;
mod due;
mod firing;
mod jobs;
mod misfires;
mod releasing;

use acquiring::{acquire_each, acquire_refused, prepare_acquire};
pub use changes::{Beginning, Change, Move};
use firing::{begin, fire_refused, prepare_fire};
use misfires::{misfires_refused, move_each, prepare_misfires};
use qz_apply::recorded_moment;
use qz_tables::Tables;
use qz_types::{Actor, Command, Entry, Refusal, Reply, StepRefused};
use releasing::{give_back, prepare_release, release_refused};

/// Why the command is refused, if it is.
pub fn refusal(tables: &Tables, entry: &Entry) -> Option<Refusal>
    requires { IsOfClaim entry.now.command }
    ensures { MatchOption result (IsAccepted (transaction tables.now.tables entry.now)) (λ x. transaction tables.now.tables entry.now ≡ refused x) }
{
    let moment = recorded_moment(tables, entry.at);
    match &entry.command {
        Command::Acquire {
            no_later: _,
            window: _,
            max,
        } => match &entry.actor {
            Actor::Client => Some(Refusal::Fenced { live: None }),
            Actor::Node(me) => acquire_refused(tables, me, *max),
        },
        Command::Misfires => match &entry.actor {
            Actor::Client => Some(Refusal::Fenced { live: None }),
            Actor::Node(me) => misfires_refused(tables, me),
        },
        Command::Release { entry: number } => match &entry.actor {
            Actor::Client => Some(Refusal::Fenced { live: None }),
            Actor::Node(me) => release_refused(tables, me, *number),
        },
        Command::Fire { entry: number } => match &entry.actor {
            Actor::Client => Some(Refusal::Fenced { live: None }),
            Actor::Node(me) => fire_refused(tables, moment, me, *number),
        },
        _ => unreachable!(),
    }
}

/// Decides the command's transaction, and takes all memory that it needs. The tables stay as they are. Memory is wanted
/// only where the transaction would be accepted, and never for a Release.
#[tactic(auto, using(crate::proofs::Facts::moment_of, crate::proofs::Preparing::prepared), unfolding(qz_types::specs::Entries::is_entry))]
pub fn prepare(tables: &mut Tables, entry: &Entry) -> Result<Change, StepRefused>
    requires command { IsOfClaim entry.now.command }
    requires valid { ∥ TablesValid tables.old.tables ∥₁ }
    requires entry { IsTrue (is_entry entry.now) }
    ensures ok { IfOk result (Prepares tables.new entry.now) }
    ensures cause { IfErr result (IsErrorOf (transaction tables.old.tables entry.now)) }
    ensures same { tables.new.tables ≡ tables.old.tables }
    ensures memory { result ≡ Err StepRefused.NoMemory → IsTrue (takes_memory entry.now.command) }
{
    let moment = recorded_moment(tables, entry.at);
    match &entry.command {
        Command::Acquire {
            no_later,
            window,
            max,
        } => match &entry.actor {
            Actor::Client => Err(StepRefused::Refused(Refusal::Fenced { live: None })),
            Actor::Node(me) => prepare_acquire(tables, moment, me, *no_later, *window, *max),
        },
        Command::Misfires => match &entry.actor {
            Actor::Client => Err(StepRefused::Refused(Refusal::Fenced { live: None })),
            Actor::Node(me) => prepare_misfires(tables, moment, me),
        },
        Command::Release { entry: number } => match &entry.actor {
            Actor::Client => Err(StepRefused::Refused(Refusal::Fenced { live: None })),
            Actor::Node(me) => prepare_release(tables, me, *number),
        },
        Command::Fire { entry: number } => match &entry.actor {
            Actor::Client => Err(StepRefused::Refused(Refusal::Fenced { live: None })),
            Actor::Node(me) => prepare_fire(tables, moment, me, *number),
        },
        _ => unreachable!(),
    }
}

/// Does the transaction that was prepared of this entry for these tables. It takes no memory, and can't fail.
pub fn commit(tables: &mut Tables, entry: &Entry, change: Change) -> Reply
    requires prepared { Prepares tables.old entry.now change }
    requires valid { ∥ TablesValid tables.old.tables ∥₁ }
    requires entry { IsTrue (is_entry entry.now) }
    ensures ok { transaction tables.old.tables entry.now ≡ accepted tables.new.tables result }
    ensures valid { ∥ TablesValid tables.new.tables ∥₁ }
{
    let moment = recorded_moment(tables, entry.at);
    carry_out(tables, moment, change)
}

fn carry_out(tables: &mut Tables, moment: i64, change: Change) -> Reply
    requires { CanCommit tables.old change }
    ensures { committed tables.old.tables moment change ≡ accepted tables.new.tables result }
{
    match change {
        Change::Acquire { rows, taken } => {
            acquire_each(tables, rows.into_vec());
            tables.set_last_moment(moment);
            Reply::Acquired(taken)
        }
        Change::Misfires { moves, rows } => {
            move_each(tables, moves.into_vec());
            tables.set_last_moment(moment);
            Reply::Misfired(rows)
        }
        Change::Release { entry } => {
            give_back(tables, entry);
            tables.set_last_moment(moment);
            Reply::Done
        }
        Change::Fire(one) => {
            begin(tables, moment, &one);
            fired(moment, one)
        }
    }
}

fn fired(moment: i64, one: Beginning) -> Reply
    ensures { result ≡ Reply.Fired one.entry one.scheduled moment one.next one.trigger one.job }
{
    Reply::Fired {
        entry: one.entry,
        scheduled: one.scheduled,
        fired: moment,
        next: one.next,
        trigger: one.trigger,
        job: one.job,
    }
}
