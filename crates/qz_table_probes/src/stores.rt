//! The plain store.
ghost use Rattle.std.specs.Prelude.{◌≡◌, IsTrue, Err, IfOk, IfErr, OnOk, OnErr, MatchOption};
ghost use Rattle.qz_apply.specs.Memory.{takes_memory};
ghost use Rattle.qz_model.specs.Invariant.{TablesValid};
ghost use Rattle.qz_model.specs.Transaction.{transaction};
ghost use Rattle.qz_plain.specs.Prepared.{Prepares};
ghost use Rattle.qz_types.specs.Entries.{is_entry};
ghost use Rattle.qz_types.specs.Outcomes.{accepted, refused, IsAccepted, IsErrorOf};

use qz_plain::{PlainStore, Prepared};
use qz_types::{Entry, Refusal, Reply, StepRefused};

/// Why a transaction is refused, as `PlainStore::refusal` says.
pub fn refusal(store: &PlainStore, entry: &Entry) -> Option<Refusal>
    ensures { MatchOption result (IsAccepted (transaction store.now.tables entry.now)) (λ x. transaction store.now.tables entry.now ≡ refused x) }
{
    store.refusal(entry)
}

/// Does a transaction, as `PlainStore::step` does.
pub fn step(store: &mut PlainStore, entry: Entry) -> Result<Reply, StepRefused>
    ensures ok { IfOk result (λ reply. transaction store.old.tables entry ≡ accepted store.new.tables reply) }
    ensures cause { IfErr result (IsErrorOf (transaction store.old.tables entry)) }
    ensures memory { result ≡ Err StepRefused.NoMemory → IsTrue (takes_memory entry.command) }
    ensures err { OnErr result (store.new.tables ≡ store.old.tables) }
{
    store.step(entry)
}

/// Prepares a transaction, as `PlainStore::prepare` does.
pub fn prepare(store: &mut PlainStore, entry: &Entry) -> Result<Prepared, StepRefused>
    requires { IsTrue (is_entry entry.now) }
    ensures ok { IfOk result (Prepares store.new entry.now) }
    ensures accepted { OnOk result (IsAccepted (transaction store.old.tables entry.now)) }
    ensures cause { IfErr result (IsErrorOf (transaction store.old.tables entry.now)) }
    ensures memory { result ≡ Err StepRefused.NoMemory → IsTrue (takes_memory entry.now.command) }
    ensures tables { store.new.tables ≡ store.old.tables }
    ensures valid { ∥ TablesValid store.new.tables ∥₁ }
{
    store.prepare(entry)
}

/// Does what was prepared, as `PlainStore::commit` does.
pub fn commit(store: &mut PlainStore, entry: &Entry, prepared: Prepared) -> Reply
    requires entry { IsTrue (is_entry entry.now) }
    requires prepared { Prepares store.old entry.now prepared }
    ensures ok { transaction store.old.tables entry.now ≡ accepted store.new.tables result }
    ensures valid { ∥ TablesValid store.new.tables ∥₁ }
{
    store.commit(entry, prepared)
}
