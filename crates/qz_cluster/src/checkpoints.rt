//! Snapshots of the trigger store's tables.
ghost use Rattle.std.specs.Prelude.{◌≡◌, ◌≢◌, ◌⊎◌, ◌+◌, ◌++◌, length, true, Some, Ok, Err, IfOk, IfErr};
ghost use Rattle.qz_journal.specs.Commits.{LackRoom, HaveRoom};
ghost use Rattle.qz_journal.specs.Slots.{with_offset, free_slot};
ghost use Rattle.qz_snapshot.specs.Checkpoints.{snapshot_written};
ghost use Rattle.qz_trigger_store.specs.View.{tables_of, base_count_of, found_of, added_of, behind_of, slots_of, keeps_of};
ghost use Rattle.qz_stores.specs.Checkpoints.{Declines};
ghost use Rattle.qz_cluster.specs.Checkpoints.{IsChecked};
ghost use Rattle.qz_cluster.specs.View.{view, triggers_of, states_of, KeepsTriggers, EachLeavesEither};

use crate::{Cluster, StepEnd};
use qz_disk::Disk;
use qz_types::SubmitError;

/// What came of a checkpoint.
#[derive(Clone, Copy, PartialEq, Eq, Debug)]
pub enum Checked {
    /// A snapshot was made.
    Done,
    /// The snapshot has no room in the journal, and nothing was done.
    NoRoom,
    /// The disk of the trigger store failed. The store is closed.
    Fault,
    /// The trigger store is closed.
    Closed,
}

impl<D: Disk> Cluster<D> {
    /// How many entries of the trigger store came after the snapshot in use, or in all where no slot is open.
    pub fn behind(&self) -> u64
        ensures { result ≡ behind_of (triggers_of self.now) }
    {
        self.triggers.behind()
    }

    /// Makes a snapshot of the trigger store's tables, from which a later opening begins. Histories and held epochs stay as
    /// they are, and the state store isn't touched. `NoMemory` is the only error; it is answered before any device call, and
    /// nothing was done then.
    pub fn checkpoint(&mut self) -> Result<Checked, StepEnd>
        ensures one { IfOk result (λ checked. IsChecked checked (view self.old).triggers (view self.new).triggers) }
        ensures no_memory { IfErr result (λ e. (e ≡ StepEnd.NoMemory) × ((view self.old).triggers.is_open ≡ true)) }
        ensures unchanged { result ≢ Ok Checked.Done → result ≢ Ok Checked.Fault → KeepsTriggers self.old self.new }
        ensures no_room { result ≡ Ok Checked.NoRoom
            → LackRoom (snapshot_written (tables_of (triggers_of self.old)) (view self.old).triggers.payloads (base_count_of (triggers_of self.old) + length (found_of (triggers_of self.old) ++ added_of (triggers_of self.old)))) (view self.old).triggers.gate (view self.old).triggers.payloads }
        ensures room { (result ≡ Ok Checked.Done) ⊎ (result ≡ Ok Checked.Fault)
            → HaveRoom (snapshot_written (tables_of (triggers_of self.old)) (view self.old).triggers.payloads (base_count_of (triggers_of self.old) + length (found_of (triggers_of self.old) ++ added_of (triggers_of self.old)))) (view self.old).triggers.gate (view self.old).triggers.payloads }
        ensures behind { result ≡ Ok Checked.Done → behind_of (triggers_of self.new) ≡ 0 }
        ensures keeps { keeps_of (triggers_of self.new) ≡ keeps_of (triggers_of self.old) }
        ensures others { (states_of self.new ≡ states_of self.old) × (self.new.held ≡ self.old.held) × (self.new.standing ≡ self.old.standing) }
        // Where a snapshot was made, the slot that was free leads to it.
        ensures slots { result ≡ Ok Checked.Done → slots_of (triggers_of self.new) ≡ with_offset (free_slot (slots_of (triggers_of self.old))) (Some (view self.old).triggers.gate) (slots_of (triggers_of self.old)) }
        ensures starved { IfErr result (λ e. Declines (view self.old).triggers (view self.new).triggers) }
        ensures any_moment { D.honest → EachLeavesEither self.old self.new }
    {
        match self.triggers.checkpoint() {
            Ok(true) => Ok(Checked::Done),
            Ok(false) => Ok(Checked::NoRoom),
            Err(SubmitError::Fault) => Ok(Checked::Fault),
            Err(SubmitError::Closed { at: _ }) => Ok(Checked::Closed),
            Err(SubmitError::NoMemory) => Err(StepEnd::NoMemory),
            Err(SubmitError::Refused(_)) => unreachable!(),
            Err(SubmitError::JournalFull { need: _, room: _ }) => unreachable!(),
        }
    }
}
