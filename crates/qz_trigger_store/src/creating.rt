//! A new store that is open.
ghost use Rattle.std.specs.Prelude.{◌≡◌, ◌≤◌, [], None, Some, IsTrue, IfOk, IfErr, MatchResult};
ghost use Rattle.qz_civil.specs.Causes.{Rose};
ghost use Rattle.qz_journal.specs.Layout.{is_version, end_of};
ghost use Rattle.qz_journal.specs.Making.{Makes};
ghost use Rattle.qz_journal.specs.declared.layout.TheConstants.{TRIGGERS};
ghost use Rattle.qz_model.specs.History.{history_of_version};
ghost use Rattle.qz_trigger_store.specs.Bytes.{list_of, IsWhole};
ghost use Rattle.qz_trigger_store.specs.Opening.{IsOpened};
ghost use Rattle.qz_trigger_store.specs.View.{view, version_of, found_of, added_of, behind_of, slots_of, opened_of, keeps_of, keeps_entries, disk_state, GoesOnFrom};

use crate::mounting::nothing_accepted;
use crate::{Keep, TriggerStore};
use qz_disk::Disk;
use qz_journal::NewStoreError;
use qz_stores::Store;
use std::alloc::Global;

impl<D: Disk> TriggerStore<D> {
    /// Makes a trigger store of no entries, in this version of the format, 1 or 2, on a disk that begins as no store does, and
    /// opens it without reading it back. All memory is taken before anything is written. An `Err` hands the disk back. What the
    /// store keeps in memory is said by `keep`.
    pub fn create(
        alloc: Global,
        disk: D,
        version: u8,
        keep: Keep,
    ) -> Result<TriggerStore<D>, (NewStoreError, D)>
        requires { IsTrue (is_version version) }
        ensures opened { IfOk result (λ store. IsOpened (view store)) }
        ensures history { IfOk result (λ store. (view store).history ≡ history_of_version version) }
        ensures place { IfOk result (λ store. ((view store).gate ≡ end_of []) × ((view store).payloads ≡ 0) × (slots_of store ≡ record { a = None; b = None })) }
        ensures nothing { IfOk result (λ store. (version_of store ≡ version) × (found_of store ≡ []) × (added_of store ≡ []) × (behind_of store ≡ 0)) }
        ensures keeps { IfOk result (λ store. keeps_of store ≡ keeps_entries keep) }
        ensures made { D.honest → MatchResult result (λ store. Makes version TRIGGERS None (D.state disk) (disk_state store))
            (λ e. Makes version TRIGGERS (Some e.0) (D.state disk) (D.state e.1)) }
        // The disk holds the whole list of no entries, and the store goes on from it.
        ensures whole { D.honest → IfOk result (λ store. IsWhole (list_of version []) (disk_state store).content
            × (opened_of store ≡ (disk_state store).content) × GoesOnFrom store (list_of version [])) }
        ensures later { MatchResult result (λ store. D.faults disk ≤ (view store).faults) (λ e. D.faults disk ≤ D.faults e.1) }
        ensures fault { IfErr result (λ e. e.0 ≡ NewStoreError.Fault → Rose (D.faults disk) (D.faults e.1)) }
    {
        match Store::create(alloc, disk, version) {
            Ok(store) => Ok(TriggerStore {
                alloc,
                store,
                accepted: nothing_accepted(alloc, keep),
            }),
            Err(refused) => Err(refused),
        }
    }
}
