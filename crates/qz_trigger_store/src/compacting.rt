//! A trigger store that begins with a snapshot in place of the entries that led to it.
ghost use Rattle.std.specs.Prelude.{◌≡◌, ◌≤◌, ℕ, [], length, true, IsTrue, IfOk, IfErr, OnOk, MatchResult, None, Some};
ghost use Rattle.qz_civil.specs.Causes.{Rose};
ghost use Rattle.qz_journal.specs.Commits.{HaveRoom, IsFullFor};
ghost use Rattle.qz_journal.specs.Layout.{is_version, end_of};
ghost use Rattle.qz_snapshot.specs.Checkpoints.{snapshot_written};
ghost use Rattle.qz_trigger_store.specs.Compacting.{compacted_list, Compacts};
ghost use Rattle.qz_trigger_store.specs.Opening.{IsOpened};
ghost use Rattle.qz_trigger_store.specs.View.{view, version_of, opened_of, found_of, added_of, behind_of, slots_of, keeps_of, keeps_entries, disk_state, GoesOnFrom};

use crate::mounting::nothing_accepted;
use crate::triggers::Triggers;
use crate::{Keep, TriggerStore};
use qz_disk::Disk;
use qz_plain::PlainStore;
use qz_stores::{CompactError, Store};
use std::alloc::Global;

impl<D: Disk> TriggerStore<D> {
    /// Begins a trigger store of this version, 1 or 2, with a snapshot of these tables: on a disk that begins with no store it makes the
    /// header, the payloads of the snapshot, and the slot that leads to them, and writes the kind into the header last, so that a cut
    /// leaves no store or the whole one. The store has these tables and no entries, as if it had been opened there. Nothing is read
    /// back. An `Err` hands the disk back.
    pub fn compacted(
        alloc: Global,
        disk: D,
        version: u8,
        tables: PlainStore,
        keep: Keep,
    ) -> Result<TriggerStore<D>, (CompactError, D)>
        requires { IsTrue (is_version version) }
        ensures opened { IfOk result (λ store. IsOpened (view store)) }
        ensures history { IfOk result (λ store. (view store).history ≡ record { base_count = 0; base = tables.tables; entries = [] }) }
        ensures version { IfOk result (λ store. version_of store ≡ version) }
        ensures none { IfOk result (λ store. (found_of store ≡ []) × (added_of store ≡ []) × (behind_of store ≡ 0)) }
        ensures keeps { IfOk result (λ store. keeps_of store ≡ keeps_entries keep) }
        ensures slots { IfOk result (λ store. slots_of store ≡ record { a = Some 16; b = None }) }
        ensures made { D.honest → MatchResult result
            (λ store. Compacts version tables.tables None (D.state disk) (disk_state store) × (opened_of store ≡ (disk_state store).content))
            (λ e. Compacts version tables.tables (Some e.0) (D.state disk) (D.state e.1)) }
        // The store goes on from the list that starts with these tables, and its gate comes after the snapshot.
        ensures goes_on { D.honest → IfOk result (λ store. GoesOnFrom store (compacted_list version tables.tables)) }
        ensures place { D.honest → IfOk result (λ store. ((view store).gate ≡ end_of (snapshot_written tables.tables 0 0))
            × ((view store).payloads ≡ length (snapshot_written tables.tables 0 0))) }
        // The snapshot has no room exactly where it is so said, and the numbers are true: where a store is begun it has.
        ensures no_room { (need room : ℕ) → IfErr result (λ e. e.0 ≡ CompactError.NoRoom need room → IsFullFor (snapshot_written tables.tables 0 0) (end_of []) 0 need room) }
        ensures room { OnOk result (HaveRoom (snapshot_written tables.tables 0 0) (end_of []) 0) }
        ensures later { MatchResult result (λ store. D.faults disk ≤ (view store).faults) (λ e. D.faults disk ≤ D.faults e.1) }
        ensures fault { IfErr result (λ e. e.0 ≡ CompactError.Fault → Rose (D.faults disk) (D.faults e.1)) }
    {
        tables.is_valid();
        match Store::compacted(alloc, disk, version, Triggers { tables }) {
            Ok(store) => Ok(TriggerStore {
                alloc,
                store,
                accepted: nothing_accepted(alloc, keep),
            }),
            Err(refused) => Err(refused),
        }
    }
}
