//! What nodes acquire, release and fire.
ghost use Rattle.std.specs.Prelude.{◌≡◌, IsTrue, Err, IfOk, IfErr};
ghost use Rattle.qz_apply.specs.Memory.{takes_memory};
ghost use Rattle.qz_model.specs.Invariant.{TablesValid};
ghost use Rattle.qz_model.specs.Transaction.{transaction};
ghost use Rattle.qz_types.specs.Groups.{IsOfClaim};
ghost use Rattle.qz_acquire.specs.Prepared.{Prepares};
ghost use Rattle.qz_types.specs.Entries.{is_entry};
ghost use Rattle.qz_types.specs.Outcomes.{accepted, IsErrorOf};

use qz_acquire::Change;
use qz_tables::Tables;
use qz_types::{Entry, Reply, StepRefused};

/// Prepares a transaction, as `qz_acquire::prepare` does.
pub fn prepare_acquiring(tables: &mut Tables, entry: &Entry) -> Result<Change, StepRefused>
    requires command { IsOfClaim entry.now.command }
    requires valid { ∥ TablesValid tables.old.tables ∥₁ }
    requires entry { IsTrue (is_entry entry.now) }
    ensures ok { IfOk result (Prepares tables.new entry.now) }
    ensures cause { IfErr result (IsErrorOf (transaction tables.old.tables entry.now)) }
    ensures memory { result ≡ Err StepRefused.NoMemory → IsTrue (takes_memory entry.now.command) }
    ensures same { tables.new.tables ≡ tables.old.tables }
{
    qz_acquire::prepare(tables, entry)
}

/// Does what was prepared, as `qz_acquire::commit` does.
pub fn commit_acquiring(tables: &mut Tables, entry: &Entry, change: Change) -> Reply
    requires valid { ∥ TablesValid tables.old.tables ∥₁ }
    requires entry { IsTrue (is_entry entry.now) }
    requires prepared { Prepares tables.old entry.now change }
    ensures ok { transaction tables.old.tables entry.now ≡ accepted tables.new.tables result }
    ensures valid { ∥ TablesValid tables.new.tables ∥₁ }
{
    qz_acquire::commit(tables, entry, change)
}
