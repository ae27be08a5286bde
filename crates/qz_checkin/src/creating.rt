//! A new store that is open.
ghost use Rattle.std.specs.Prelude.{◌≡◌, ◌≤◌, [], None, Some, IfOk, IfErr, MatchResult};
ghost use Rattle.qz_civil.specs.Causes.{Rose};
ghost use Rattle.qz_journal.specs.Layout.{end_of};
ghost use Rattle.qz_journal.specs.Making.{Makes};
ghost use Rattle.qz_journal.specs.declared.layout.TheConstants.{STATES};
ghost use Rattle.qz_checkin.specs.Bytes.{list_of, IsWhole};
ghost use Rattle.qz_checkin.specs.History.{new_state_history};
ghost use Rattle.qz_checkin.specs.Opening.{IsOpened};
ghost use Rattle.qz_checkin.specs.View.{view, version_of, entries_of, disk_state, GoesOnFrom};

use crate::StateStore;
use qz_disk::Disk;
use qz_journal::NewStoreError;
use qz_stores::Store;
use std::alloc::Global;

// The version of the format that is written today.
const VERSION: u8 = 2;

impl<D: Disk> StateStore<D> {
    /// Makes a state store of no entries, of version 2, on a disk that begins as no store does, and opens it without reading it
    /// back. All memory is taken before anything is written. An `Err` hands the disk back.
    pub fn create(alloc: Global, disk: D) -> Result<StateStore<D>, (NewStoreError, D)>
        ensures opened { IfOk result (λ store. IsOpened (view store)) }
        ensures history { IfOk result (λ store. (view store).history ≡ new_state_history) }
        ensures place { IfOk result (λ store. ((view store).gate ≡ end_of []) × ((view store).payloads ≡ 0)) }
        ensures nothing { IfOk result (λ store. (version_of store ≡ 2) × (entries_of store ≡ [])) }
        ensures made { D.honest → MatchResult result (λ store. Makes 2 STATES None (D.state disk) (disk_state store))
            (λ e. Makes 2 STATES (Some e.0) (D.state disk) (D.state e.1)) }
        // The disk holds the whole list of no entries, and the store goes on from it.
        ensures whole { D.honest → IfOk result (λ store. IsWhole (list_of 2 []) (disk_state store).content × GoesOnFrom store (list_of 2 [])) }
        ensures later { MatchResult result (λ store. D.faults disk ≤ (view store).faults) (λ e. D.faults disk ≤ D.faults e.1) }
        ensures fault { IfErr result (λ e. e.0 ≡ NewStoreError.Fault → Rose (D.faults disk) (D.faults e.1)) }
    {
        match Store::create(alloc, disk, VERSION) {
            Ok(store) => Ok(StateStore { store }),
            Err(refused) => Err(refused),
        }
    }
}
