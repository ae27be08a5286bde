//! The command of a node that ends an execution, applied to the tables of the trigger store: Complete.
//!
//! It is decided first, and then done, which can't fail. Neither takes memory.
#![tactic(auto)]

ghost use Rattle.std.specs.Prelude.{◌≡◌, Err, IsTrue, IfOk, IfErr, MatchOption};
ghost use Rattle.qz_types.specs.Entries.{is_entry};
ghost use Rattle.qz_types.specs.Outcomes.{accepted, refused, IsAccepted, IsErrorOf};
ghost use Rattle.qz_model.specs.Invariant.{TablesValid};
ghost use Rattle.qz_model.specs.Transaction.{transaction};
ghost use Rattle.qz_types.specs.Groups.{IsOfEnd};
ghost use Rattle.qz_complete.specs.Prepared.{Prepares};

mod changes;
mod completing;

pub use changes::Change;
use completing::{carry_out, complete_refused, prepare_complete};
use qz_apply::recorded_moment;
use qz_tables::Tables;
use qz_types::{Actor, Command, Entry, Refusal, Reply, StepRefused};

/// Why the command is refused, if it is.
#[tactic(auto, using(crate::proofs::Completions::at_complete))]
pub fn refusal(tables: &Tables, entry: &Entry) -> Option<Refusal>
    requires { IsOfEnd entry.now.command }
    ensures { MatchOption result (IsAccepted (transaction tables.now.tables entry.now)) (λ x. transaction tables.now.tables entry.now ≡ refused x) }
{
    match &entry.command {
        Command::Complete {
            entry: number,
            code: _,
        } => match &entry.actor {
            Actor::Client => Some(Refusal::Fenced { live: None }),
            Actor::Node(me) => complete_refused(tables, me, *number),
        },
        _ => unreachable!(),
    }
}

/// Decides the command's transaction. It copies nothing, so memory is never wanted.
pub fn prepare(tables: &Tables, entry: &Entry) -> Result<Change, StepRefused>
    requires { IsOfEnd entry.now.command }
    ensures ok { IfOk result (Prepares tables.now.tables entry.now) }
    ensures cause { IfErr result (IsErrorOf (transaction tables.now.tables entry.now)) }
    ensures memory { result ≡ Err StepRefused.NoMemory → ⊥ }
{
    match &entry.command {
        Command::Complete {
            entry: number,
            code,
        } => match &entry.actor {
            Actor::Client => Err(StepRefused::Refused(Refusal::Fenced { live: None })),
            Actor::Node(me) => prepare_complete(tables, me, *number, *code),
        },
        _ => unreachable!(),
    }
}

/// Does the transaction that was prepared of this entry for these tables. It takes no memory, and can't fail.
pub fn commit(tables: &mut Tables, entry: &Entry, change: Change) -> Reply
    requires prepared { Prepares tables.old.tables entry.now change }
    requires valid { ∥ TablesValid tables.old.tables ∥₁ }
    requires entry { IsTrue (is_entry entry.now) }
    ensures ok { transaction tables.old.tables entry.now ≡ accepted tables.new.tables result }
    ensures valid { ∥ TablesValid tables.new.tables ∥₁ }
{
    let moment = recorded_moment(tables, entry.at);
    carry_out(tables, moment, &change)
}
