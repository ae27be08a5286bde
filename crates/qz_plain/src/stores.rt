//! The plain store.
ghost use Rattle.std.specs.Prelude.{◌≡◌, ◌≤ℤ◌, pos, IsTrue, Err, IfOk, IfErr, OnOk, OnErr, MatchOption};
ghost use Rattle.qz_types.specs.Entries.{is_entry};
ghost use Rattle.qz_types.specs.Outcomes.{accepted, refused, IsAccepted, IsErrorOf};
ghost use Rattle.qz_types.specs.Tables.{empty};
ghost use Rattle.qz_model.specs.Invariant.{TablesValid};
ghost use Rattle.qz_model.specs.Transaction.{transaction};
ghost use Rattle.qz_apply.specs.Memory.{takes_memory};
ghost use Rattle.qz_plain.specs.Prepared.{Prepares};
ghost use Rattle.qz_plain.specs.Replies.{CopiesReply};

use crate::commands::{commit, prepare, refusal};
use crate::prepared::Prepared;
use crate::replies::copy_reply;
use qz_tables::Tables;
use qz_types::{Entry, NoMemory, Refusal, Reply, StepRefused};
use std::alloc::Global;
use std::marker::Model;

/// The trigger store as its tables alone, each in the order of its ids. The tables are always valid.
#[derive(Drop)]
pub struct PlainStore {
    tables: Tables,
}

impl Model for PlainStore {
    ghost use Rattle.qz_tables.specs.Contents.{TablesData};
    ghost use Rattle.qz_model.specs.Invariant.{TablesValid};

    ghost Value = { TablesData };

    ghost view = { λ a. a.tables };

    ghost invariant = { λ a. ∥ TablesValid a.tables.tables ∥₁ };
}

impl PlainStore {
    /// A new store of this format version, 1 or 2, without rows.
    pub fn new(alloc: Global, version: u8) -> Self
        ensures { result.tables ≡ empty version }
    {
        PlainStore {
            tables: Tables::new(alloc, version),
        }
    }

    /// A store of these tables, which are valid.
    pub fn from_tables(tables: Tables) -> Self
        requires { ∥ TablesValid tables.tables ∥₁ }
        ensures { result ≡ tables }
    {
        PlainStore { tables }
    }

    /// The tables of a plain store are valid. It does nothing: its contract says so.
    pub fn is_valid(&self)
        ensures { ∥ TablesValid self.now.tables ∥₁ }
    {
        let _ = &self.tables;
    }

    /// The tables, which give the rows of each kind, and the numbers.
    pub fn tables(&self) -> &Tables
        ensures { result.now ≡ self.now }
    {
        &self.tables
    }

    /// The recorded moment of the last transaction, in ms since 1970-01-01T00:00:00Z; 0 before the first.
    pub fn last_moment(&self) -> i64
        ensures value { result ≡ self.now.tables.last_moment }
        ensures bound { pos 0 ≤ℤ result }
    {
        self.tables.last_moment()
    }

    /// Why a transaction is refused, or None where it is accepted.
    pub fn refusal(&self, entry: &Entry) -> Option<Refusal>
        ensures { MatchOption result (IsAccepted (transaction self.now.tables entry.now)) (λ x. transaction self.now.tables entry.now ≡ refused x) }
    {
        refusal(&self.tables, entry)
    }

    /// Does one transaction. It is refused where the transaction itself is, and memory runs out only where it isn't. An
    /// error leaves the rows and numbers as they are.
    pub fn step(&mut self, entry: Entry) -> Result<Reply, StepRefused>
        ensures ok { IfOk result (λ reply. transaction self.old.tables entry ≡ accepted self.new.tables reply) }
        ensures cause { IfErr result (IsErrorOf (transaction self.old.tables entry)) }
        ensures memory { result ≡ Err StepRefused.NoMemory → IsTrue (takes_memory entry.command) }
        ensures err { OnErr result (self.new.tables ≡ self.old.tables) }
    {
        let answer = self.apply(&entry);
        drop(entry);
        answer
    }

    /// The same for an entry that the caller keeps.
    pub fn apply(&mut self, entry: &Entry) -> Result<Reply, StepRefused>
        requires { IsTrue (is_entry entry.now) }
        ensures ok { IfOk result (λ reply. transaction self.old.tables entry.now ≡ accepted self.new.tables reply) }
        ensures cause { IfErr result (IsErrorOf (transaction self.old.tables entry.now)) }
        ensures memory { result ≡ Err StepRefused.NoMemory → IsTrue (takes_memory entry.now.command) }
        ensures err { OnErr result (self.new.tables ≡ self.old.tables) }
        ensures valid { ∥ TablesValid self.new.tables ∥₁ }
    {
        let prepared = self.prepare(entry)?;
        Ok(self.commit(entry, prepared))
    }

    /// Decides one transaction, and takes all the memory that it needs: what is left of it is `commit`. The rows and numbers
    /// stay as they are. It is refused where the transaction itself is, and memory runs out only where it isn't.
    #[tactic(auto, using(crate::proofs::Preparing::accepted_before))]
    pub fn prepare(&mut self, entry: &Entry) -> Result<Prepared, StepRefused>
        requires { IsTrue (is_entry entry.now) }
        ensures ok { IfOk result (Prepares self.new entry.now) }
        ensures accepted { OnOk result (IsAccepted (transaction self.old.tables entry.now)) }
        ensures cause { IfErr result (IsErrorOf (transaction self.old.tables entry.now)) }
        ensures memory { result ≡ Err StepRefused.NoMemory → IsTrue (takes_memory entry.now.command) }
        ensures tables { self.new.tables ≡ self.old.tables }
        ensures valid { ∥ TablesValid self.new.tables ∥₁ }
    {
        prepare(&mut self.tables, entry)
    }

    /// The reply that what was prepared will give, or `None` where it has numbers alone. With `same_reply` whoever keeps a
    /// reply and hands it on has it twice.
    pub fn copy_reply(&self, entry: &Entry, prepared: &Prepared) -> Result<Option<Reply>, NoMemory>
        requires { Prepares self.now entry.now prepared.now }
        ensures { IfOk result (λ copy. CopiesReply copy (transaction self.now.tables entry.now)) }
    {
        copy_reply(&self.tables, entry, prepared)
    }

    /// Does what was prepared for this entry at this store. It takes no memory, and can't fail.
    pub fn commit(&mut self, entry: &Entry, prepared: Prepared) -> Reply
        requires entry { IsTrue (is_entry entry.now) }
        requires prepared { Prepares self.old entry.now prepared }
        ensures ok { transaction self.old.tables entry.now ≡ accepted self.new.tables result }
        ensures valid { ∥ TablesValid self.new.tables ∥₁ }
    {
        commit(&mut self.tables, entry, prepared)
    }
}
