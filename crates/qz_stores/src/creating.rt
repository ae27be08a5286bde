//! A new store that is open.
ghost use Rattle.std.specs.Prelude.{◌≡◌, ◌≤◌, [], true, None, Some, IsTrue, IfOk, IfErr, MatchResult};
ghost use Rattle.qz_civil.specs.Causes.{Rose};
ghost use Rattle.qz_journal.specs.Layout.{is_version, end_of};
ghost use Rattle.qz_journal.specs.Making.{Makes};
ghost use Rattle.qz_stores.specs.Bases.{list_of, IsWhole};
ghost use Rattle.qz_stores.specs.Kinds.{history_of};
ghost use Rattle.qz_stores.specs.Opening.{IsOpened};
ghost use Rattle.qz_stores.specs.View.{view, version_of, opened_of, found_of, added_of, behind_of, slots_of, disk_state, GoesOnFrom};

use crate::mounting::begin;
use crate::{Kind, Reread, Store};
use qz_disk::Disk;
use qz_journal::{Journal, NewStoreError};
use qz_logs::Log;
use std::alloc::Global;
use std::snapshot::Snapshot;

impl<D: Disk, K: Kind> Store<D, K> {
    /// Makes a store of no entries, in this version of the format, 1 or 2, on a disk that begins as no store does, and opens it
    /// without reading it back. All memory is taken before anything is written. An `Err` hands the disk back.
    pub fn create(alloc: Global, disk: D, version: u8) -> Result<Store<D, K>, (NewStoreError, D)>
        requires { IsTrue (is_version version) }
        ensures opened { IfOk result (λ store. IsOpened K.kind (view store)) }
        ensures history { IfOk result (λ store. (view store).history ≡ history_of K.kind version []) }
        ensures place { IfOk result (λ store. ((view store).gate ≡ end_of []) × ((view store).payloads ≡ 0) × (slots_of store ≡ record { a = None; b = None })) }
        ensures nothing { IfOk result (λ store. (version_of store ≡ version) × (found_of store ≡ []) × (added_of store ≡ []) × (behind_of store ≡ 0)) }
        ensures made { D.honest → MatchResult result (λ store. Makes version K.kind.number None (D.state disk) (disk_state store))
            (λ e. Makes version K.kind.number (Some e.0) (D.state disk) (D.state e.1)) }
        // The disk holds the whole list of no entries, and the store goes on from it.
        ensures whole { D.honest → IfOk result (λ store. IsWhole K.kind (list_of K.kind version []) (disk_state store).content
            × (opened_of store ≡ (disk_state store).content) × GoesOnFrom store (list_of K.kind version [])) }
        ensures later { MatchResult result (λ store. D.faults disk ≤ (view store).faults) (λ e. D.faults disk ≤ D.faults e.1) }
        ensures fault { IfErr result (λ e. e.0 ≡ NewStoreError.Fault → Rose (D.faults disk) (D.faults e.1)) }
    {
        match Journal::create(alloc, disk, version, K::number()) {
            Ok(journal) => Ok(begin(alloc, journal, nothing_read(alloc, version))),
            Err(refused) => Err(refused),
        }
    }
}

// What an opening reads of a new store of this version.
fn nothing_read<K: Kind>(alloc: Global, version: u8) -> Reread<K>
    ensures version { result.version ≡ version }
    ensures base { (result.base_count ≡ 0) × ((K.state result.base.value) ≡ K.kind.empty version) }
    ensures none { (result.entries.items ≡ []) × (result.count ≡ 0) }
{
    let state = K::new(alloc, version);
    Reread {
        version,
        base_count: 0,
        base: Snapshot::of(&state),
        entries: Log::new(),
        count: 0,
        state,
    }
}
