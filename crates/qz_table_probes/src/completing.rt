//! Completions.
ghost use Rattle.std.specs.Prelude.{◌≡◌, IsTrue, Err, IfOk, IfErr};
ghost use Rattle.qz_model.specs.Invariant.{TablesValid};
ghost use Rattle.qz_model.specs.Transaction.{transaction};
ghost use Rattle.qz_types.specs.Groups.{IsOfEnd};
ghost use Rattle.qz_complete.specs.Prepared.{Prepares};
ghost use Rattle.qz_types.specs.Entries.{is_entry};
ghost use Rattle.qz_types.specs.Outcomes.{accepted, IsErrorOf};

use qz_complete::Change;
use qz_tables::Tables;
use qz_types::{Entry, Reply, StepRefused};

/// Prepares a transaction, as `qz_complete::prepare` does.
pub fn prepare_completing(tables: &Tables, entry: &Entry) -> Result<Change, StepRefused>
    requires { IsOfEnd entry.now.command }
    ensures ok { IfOk result (Prepares tables.now.tables entry.now) }
    ensures cause { IfErr result (IsErrorOf (transaction tables.now.tables entry.now)) }
    ensures memory { result ≡ Err StepRefused.NoMemory → ⊥ }
{
    qz_complete::prepare(tables, entry)
}

/// Does what was prepared, as `qz_complete::commit` does.
pub fn commit_completing(tables: &mut Tables, entry: &Entry, change: Change) -> Reply
    requires valid { ∥ TablesValid tables.old.tables ∥₁ }
    requires entry { IsTrue (is_entry entry.now) }
    requires prepared { Prepares tables.old.tables entry.now change }
    ensures ok { transaction tables.old.tables entry.now ≡ accepted tables.new.tables result }
    ensures valid { ∥ TablesValid tables.new.tables ∥₁ }
{
    qz_complete::commit(tables, entry, change)
}
