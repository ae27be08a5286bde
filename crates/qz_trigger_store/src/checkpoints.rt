//! Snapshots of a store's tables.
ghost use Rattle.std.specs.Prelude.{◌≡◌, ◌≢◌, ◌⊎◌, ◌+◌, length, true, false, Ok, Err, Some};
ghost use Rattle.qz_journal.specs.Commits.{LackRoom, HaveRoom};
ghost use Rattle.qz_journal.specs.Slots.{with_offset, free_slot};
ghost use Rattle.qz_snapshot.specs.Checkpoints.{snapshot_written};
ghost use Rattle.qz_stores.specs.Checkpoints.{Checks};
ghost use Rattle.qz_trigger_store.specs.View.{view, added_of, behind_of, slots_of, tables_of, IsOpenedAsBefore, IsAsBefore, LeavesEither};

use crate::TriggerStore;
use qz_disk::Disk;
use qz_types::SubmitError;

impl<D: Disk> TriggerStore<D> {
    /// Makes a snapshot of the tables that the history leaves, from which a later opening begins. The history stays as it is,
    /// and so does what is kept of the entries that were accepted. The answer is false exactly where the snapshot has no room,
    /// and nothing was done then; else it is true. `Closed` is returned exactly while the store is closed, `NoMemory` before any
    /// device call, and `Fault` only where the disk's count of faults rose: then the store is closed.
    pub fn checkpoint(&mut self) -> Result<bool, SubmitError>
        ensures one { Checks result (view self.old) (view self.new) }
        ensures unchanged { result ≢ Ok true → result ≢ Err SubmitError.Fault → IsAsBefore self.old self.new }
        ensures no_room { result ≡ Ok false → LackRoom (snapshot_written (tables_of self.old) (view self.old).payloads ((view self.old).history.base_count + length (view self.old).history.entries)) (view self.old).gate (view self.old).payloads }
        ensures room { (result ≡ Ok true) ⊎ (result ≡ Err SubmitError.Fault)
            → HaveRoom (snapshot_written (tables_of self.old) (view self.old).payloads ((view self.old).history.base_count + length (view self.old).history.entries)) (view self.old).gate (view self.old).payloads }
        ensures opened { IsOpenedAsBefore self.old self.new }
        ensures kept { (added_of self.new ≡ added_of self.old) × (tables_of self.new ≡ tables_of self.old) × (self.new.accepted ≡ self.old.accepted) }
        ensures behind { result ≡ Ok true → behind_of self.new ≡ 0 }
        // At true the slot that was free leads to the snapshot.
        ensures slots { result ≡ Ok true → slots_of self.new ≡ with_offset (free_slot (slots_of self.old)) (Some (view self.old).gate) (slots_of self.old) }
        ensures any_moment { D.honest → LeavesEither self.old self.new }
    {
        self.store.checkpoint()
    }
}
