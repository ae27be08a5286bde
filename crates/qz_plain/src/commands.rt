//! Which crate applies which command.
ghost use Rattle.std.specs.Prelude.{◌≡◌, IsTrue, Err, IfOk, IfErr, MatchOption};
ghost use Rattle.qz_types.specs.Entries.{is_entry};
ghost use Rattle.qz_types.specs.Outcomes.{accepted, refused, IsAccepted, IsErrorOf};
ghost use Rattle.qz_model.specs.Invariant.{TablesValid};
ghost use Rattle.qz_model.specs.Transaction.{transaction};
ghost use Rattle.qz_apply.specs.Memory.{takes_memory};
ghost use Rattle.qz_plain.specs.Prepared.{Prepares};

use crate::prepared::Prepared;
use qz_tables::Tables;
use qz_types::{Entry, Group, Refusal, Reply, StepRefused};

/// Why the transaction is refused, if it is.
pub fn refusal(tables: &Tables, entry: &Entry) -> Option<Refusal>
    requires valid { ∥ TablesValid tables.now.tables ∥₁ }
    ensures { MatchOption result (IsAccepted (transaction tables.now.tables entry.now)) (λ x. transaction tables.now.tables entry.now ≡ refused x) }
{
    match entry.command.group() {
        Group::Schedule => qz_schedule::refusal(tables, entry),
        Group::Membership => qz_recover::refusal(tables, entry),
        Group::Claim => qz_acquire::refusal(tables, entry),
        Group::End => qz_complete::refusal(tables, entry),
    }
}

/// Decides the transaction, and takes all the memory that it needs. The rows and numbers stay as they are.
pub fn prepare(tables: &mut Tables, entry: &Entry) -> Result<Prepared, StepRefused>
    requires valid { ∥ TablesValid tables.old.tables ∥₁ }
    requires entry { IsTrue (is_entry entry.now) }
    ensures ok { IfOk result (Prepares tables.new entry.now) }
    ensures cause { IfErr result (IsErrorOf (transaction tables.old.tables entry.now)) }
    ensures memory { result ≡ Err StepRefused.NoMemory → IsTrue (takes_memory entry.now.command) }
    ensures tables { tables.new.tables ≡ tables.old.tables }
{
    match entry.command.group() {
        Group::Schedule => Ok(Prepared::Schedule(qz_schedule::prepare(tables, entry)?)),
        Group::Membership => Ok(Prepared::Recover(qz_recover::prepare(tables, entry)?)),
        Group::Claim => Ok(Prepared::Acquire(qz_acquire::prepare(tables, entry)?)),
        Group::End => Ok(Prepared::Complete(qz_complete::prepare(tables, entry)?)),
    }
}

/// Does what was prepared for the entry at these tables. It takes no memory, and can't fail.
pub fn commit(tables: &mut Tables, entry: &Entry, prepared: Prepared) -> Reply
    requires valid { ∥ TablesValid tables.old.tables ∥₁ }
    requires entry { IsTrue (is_entry entry.now) }
    requires prepared { Prepares tables.old entry.now prepared }
    ensures ok { transaction tables.old.tables entry.now ≡ accepted tables.new.tables result }
    ensures valid { ∥ TablesValid tables.new.tables ∥₁ }
{
    match prepared {
        Prepared::Schedule(change) => qz_schedule::commit(tables, entry, change),
        Prepared::Recover(change) => qz_recover::commit(tables, entry, change),
        Prepared::Acquire(change) => qz_acquire::commit(tables, entry, change),
        Prepared::Complete(change) => qz_complete::commit(tables, entry, change),
    }
}
