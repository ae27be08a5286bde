//! Snapshots of a store's state.
ghost use Rattle.std.specs.Prelude.{◌≡◌, ◌≢◌, ◌⊎◌, ◌+◌, ◌++◌, length, true, false, Ok, Err, Some};
ghost use Rattle.qz_journal.specs.Commits.{LackRoom, HaveRoom};
ghost use Rattle.qz_journal.specs.Slots.{with_offset, free_slot};
ghost use Rattle.qz_stores.specs.Checkpoints.{Checks};
ghost use Rattle.qz_stores.specs.View.{view, base_count_of, found_of, added_of, behind_of, slots_of, state_of, IsOpenedAsBefore, IsAsBefore, LeavesHistories};

use crate::{CheckpointError, Kind, Store};
use qz_disk::Disk;
use qz_types::SubmitError;

impl<D: Disk, K: Kind> Store<D, K> {
    /// Makes a snapshot of the state that the history leaves, from which a later opening begins. The history stays as it is.
    /// The answer is false exactly where the snapshot has no room, or the kind has none, and nothing was done then; else it is
    /// true. `Closed` is returned exactly while the store is closed, `NoMemory` before any device call, and `Fault` only where
    /// the disk's count of faults rose: then the store is closed.
    pub fn checkpoint(&mut self) -> Result<bool, SubmitError>
        ensures one { Checks result (view self.old) (view self.new) }
        ensures unchanged { result ≢ Ok true → result ≢ Err SubmitError.Fault → IsAsBefore self.old self.new }
        ensures no_room { result ≡ Ok false → K.kind.has_snapshots ≡ true
            → LackRoom (K.kind.snapshot_of (state_of self.old) (view self.old).payloads (base_count_of self.old + length (found_of self.old ++ added_of self.old))) (view self.old).gate (view self.old).payloads }
        ensures room { (result ≡ Ok true) ⊎ (result ≡ Err SubmitError.Fault)
            → HaveRoom (K.kind.snapshot_of (state_of self.old) (view self.old).payloads (base_count_of self.old + length (found_of self.old ++ added_of self.old))) (view self.old).gate (view self.old).payloads }
        ensures opened { IsOpenedAsBefore self.old self.new }
        ensures kept { (added_of self.new ≡ added_of self.old) × (state_of self.new ≡ state_of self.old) }
        ensures behind { result ≡ Ok true → behind_of self.new ≡ 0 }
        // At true the slot that was free leads to the snapshot.
        ensures slots { result ≡ Ok true → slots_of self.new ≡ with_offset (free_slot (slots_of self.old)) (Some (view self.old).gate) (slots_of self.old) }
        // A crash at any moment leaves the history as it was.
        ensures leaves { D.honest → LeavesHistories self.old self.new }
    {
        if !self.is_open {
            let at = self.journal.gate();
            return Err(SubmitError::Closed { at });
        }
        match self
            .state
            .checkpoint(self.alloc, &mut self.journal, self.count)
        {
            Ok(true) => {
                self.snapshot = self.count;
                Ok(true)
            }
            Ok(false) => Ok(false),
            Err(CheckpointError::NoMemory) => Err(SubmitError::NoMemory),
            Err(CheckpointError::Fault) => {
                self.is_open = false;
                Err(SubmitError::Fault)
            }
        }
    }
}
