//! The trigger store as a kind of store.
ghost use Rattle.std.specs.Prelude.{◌≡◌};
ghost use Rattle.qz_model.specs.Upgrading.{is_upgrade};

use crate::triggers::Triggers;
use qz_civil::List;
use qz_codec::{ReadError, get_command, put_command};
use qz_disk::Disk;
use qz_journal::{Journal, JournalFull, TRIGGERS};
use qz_plain::{PlainStore, Prepared};
use qz_stores::{CheckpointError, Kind, TakeError};
use qz_types::{Command, Entry, NoMemory, Refusal, Reply, StepRefused, SubmitError};
use std::alloc::Global;

/// A history that was read from a disk, and the tables that it leaves.
pub type Reread = qz_stores::Reread<Triggers>;

#[tactic(auto, unfolding(qz_model::specs::Upgrading::version_refusal), using(crate::proofs::Outcomes::new_valid, crate::proofs::Outcomes::error_as, crate::proofs::Outcomes::refusal_as, crate::proofs::Outcomes::passes, crate::proofs::Outcomes::passes_as, crate::proofs::Outcomes::answered, crate::proofs::Outcomes::left_as))]
impl Kind for Triggers {
    type Entry = Entry;

    type Reply = Reply;

    type Change = Prepared;

    ghost use Rattle.qz_types.specs.Tables.{SchedulerTables};
    ghost use Rattle.qz_model.specs.History.{History};
    ghost use Rattle.qz_plain.specs.Prepared.{Prepares};
    ghost use Rattle.qz_trigger_store.specs.Kinds.{trigger_kind};
    ghost use Rattle.qz_trigger_store.specs.Laws.{trigger_lawful};

    ghost History = { History };

    ghost State = { SchedulerTables };

    ghost kind = { trigger_kind };

    ghost state = { λ s. s.tables.tables };

    ghost Prepares = { λ s e prepared. Prepares s.tables e prepared };

    fn number() -> u8 {
        TRIGGERS
    }

    fn new(alloc: Global, version: u8) -> Triggers {
        Triggers {
            tables: PlainStore::new(alloc, version),
        }
    }

    fn is_part(payload: &[u8]) -> bool {
        qz_snapshot::is_part(payload)
    }

    fn read_base(
        alloc: Global,
        payloads: &List<List<u8>>,
    ) -> Result<Option<(Triggers, u32)>, NoMemory> {
        match qz_snapshot::read_base(alloc, payloads)? {
            Some((tables, entries)) => {
                let tables = PlainStore::from_tables(tables);
                Ok(Some((Triggers { tables }, entries)))
            }
            None => Ok(None),
        }
    }

    fn are_cut_short(payloads: &List<List<u8>>) -> bool {
        qz_snapshot::are_cut_short(payloads.as_slice())
    }

    fn take(&mut self, alloc: Global, payload: &[u8]) -> Result<Entry, TakeError> {
        let entry = match get_command(alloc, payload) {
            Ok(entry) => entry,
            Err(ReadError::BadRecord { at: _ }) => return Err(TakeError::Unfit),
            Err(ReadError::NoMemory) => return Err(TakeError::NoMemory),
        };
        match self.tables.apply(&entry) {
            Ok(reply) => {
                drop(reply);
                Ok(entry)
            }
            Err(StepRefused::Refused(refusal)) => {
                drop(refusal);
                drop(entry);
                Err(TakeError::Unfit)
            }
            Err(StepRefused::NoMemory) => {
                drop(entry);
                Err(TakeError::NoMemory)
            }
        }
    }

    fn version_refusal(&self, entry: &Entry) -> Option<Refusal> {
        if self.is_old() && !is_upgrade(&entry.command) {
            return Some(Refusal::OldStore);
        }
        None
    }

    fn refusal(&self, entry: &Entry) -> Option<Refusal> {
        self.tables.refusal(entry)
    }

    fn prepare(&mut self, entry: &Entry) -> Result<Prepared, StepRefused> {
        self.tables.prepare(entry)
    }

    fn record(&self, alloc: Global, entry: &Entry) -> Result<List<u8>, NoMemory> {
        put_command(alloc, entry)
    }

    fn commit(&mut self, entry: &Entry, prepared: Prepared) -> Reply {
        self.tables.commit(entry, prepared)
    }

    fn checkpoint<D: Disk>(
        &self,
        alloc: Global,
        journal: &mut Journal<D>,
        entries: u64,
    ) -> Result<bool, CheckpointError> {
        self.tables.is_valid();
        match qz_snapshot::checkpoint(alloc, journal, self.tables.tables(), entries) {
            Ok(made) => Ok(made),
            Err(SubmitError::NoMemory) => Err(CheckpointError::NoMemory),
            Err(SubmitError::Fault) => Err(CheckpointError::Fault),
            Err(SubmitError::Closed { at: _ }) => unreachable!(),
            Err(SubmitError::Refused(refusal)) => {
                drop(refusal);
                unreachable!()
            }
            Err(SubmitError::JournalFull { need: _, room: _ }) => unreachable!(),
        }
    }

    fn first_snapshot(
        &self,
        alloc: Global,
    ) -> Result<Result<List<List<u8>>, JournalFull>, NoMemory> {
        self.tables.is_valid();
        qz_snapshot::first_snapshot(alloc, self.tables.tables())
    }

    ghost lawful = { trigger_lawful };

    ghost valid = { λ s. s.valid };
}

// What a store of version one does take.
fn is_upgrade(command: &Command) -> bool
    ensures { result ≡ is_upgrade command.now }
{
    matches!(command, Command::Upgrade)
}
