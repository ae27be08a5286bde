//! The new store that a follower becomes, before its first entry.
ghost use Rattle.std.specs.Prelude.{◌≡◌, ◌≢◌, ◌≤◌, ℕ, List as Items, [], true, false, Some, IfOk, IfErr, MatchResult};
ghost use Rattle.qz_civil.specs.Causes.{Rose};
ghost use Rattle.qz_journal.specs.Commits.{IsFullFor};
ghost use Rattle.qz_journal.specs.Layout.{is_version, end_of};
ghost use Rattle.qz_snapshot.specs.Checkpoints.{snapshot_written};
ghost use Rattle.qz_types.specs.Entries.{EntryData};
ghost use Rattle.qz_types.specs.Tables.{empty};
ghost use Rattle.qz_trigger_store.specs.Bytes.{IsWhole};
ghost use Rattle.qz_trigger_store.specs.View.{view as store_view, keeps_of as keeps_entries_of, opened_of, disk_state, GoesOnFrom};
ghost use Rattle.qz_follow.specs.Kept.{IsBaseOf};
ghost use Rattle.qz_follow.specs.Promoting.{Promotes, Begins, IsBehindStart, IsOpenWith, list_from};

use crate::PromoteFault;
use qz_disk::Disk;
use qz_journal::NewStoreError;
use qz_plain::PlainStore;
use qz_stores::CompactError;
use qz_trigger_store::{Keep, TriggerStore};
use std::alloc::Global;
use std::snapshot::Snapshot;

impl From<NewStoreError> for PromoteFault {
    ghost use Rattle.qz_follow.specs.Promoting.{fault_of};

    ghost from_gives = { λ x e. e ≡ fault_of x };

    fn from(error: NewStoreError) -> PromoteFault {
        match error {
            NewStoreError::Exists => PromoteFault::Exists,
            NewStoreError::OtherKind => PromoteFault::OtherKind,
            NewStoreError::NoMemory => PromoteFault::NoMemory,
            NewStoreError::Fault => PromoteFault::Fault,
        }
    }
}

impl From<CompactError> for PromoteFault {
    ghost use Rattle.qz_follow.specs.Promoting.{unbegun};

    ghost from_gives = { λ x e. e ≡ unbegun x };

    fn from(error: CompactError) -> PromoteFault {
        match error {
            CompactError::Exists => PromoteFault::Exists,
            CompactError::OtherKind => PromoteFault::OtherKind,
            CompactError::NoMemory => PromoteFault::NoMemory,
            CompactError::NoRoom { need, room } => PromoteFault::NoRoom { need, room },
            CompactError::Fault => PromoteFault::Fault,
        }
    }
}

/// A new store of this version. Where there are tables of a base it begins with a snapshot of them.
pub(crate) fn begin<D: Disk>(
    alloc: Global,
    disk: D,
    version: u8,
    start: &Snapshot<PlainStore>,
    base: Option<PlainStore>,
) -> Result<TriggerStore<D>, (PromoteFault, D)>
    requires known { is_version version ≡ true }
    requires based { ∥ IsBaseOf version start.now.value.tables base ∥₁ }
    ensures store { IfOk result (IsOpenWith version start.now.value.tables []) }
    ensures keeps { IfOk result (λ store. keeps_entries_of store ≡ false) }
    ensures begins { D.honest → MatchResult result (λ store. Begins version start.now.value.tables (D.state disk) (disk_state store))
        (λ e. (entries : Items EntryData) → Promotes version start.now.value.tables entries (Some e.0) (D.state disk) (D.state e.1)) }
    ensures goes_on { D.honest → IfOk result (λ store. GoesOnFrom store (list_from version start.now.value.tables [])) }
    ensures whole { D.honest → IfOk result (λ store. IsWhole (list_from version start.now.value.tables []) (opened_of store)) }
    ensures plain { start.now.value.tables ≡ empty version → IfOk result (λ store. ((store_view store).gate ≡ end_of []) × ((store_view store).payloads ≡ 0)) }
    ensures place { D.honest → start.now.value.tables ≢ empty version → IfOk result (λ store. IsBehindStart start.now.value.tables (store_view store).gate (store_view store).payloads) }
    ensures no_room { (need room : ℕ) → IfErr result (λ e. e.0 ≡ PromoteFault.NoRoom need room → (start.now.value.tables ≢ empty version) × IsFullFor (snapshot_written start.now.value.tables 0 0) (end_of []) 0 need room) }
    ensures long { (at : ℕ) → IfErr result (λ e. e.0 ≢ PromoteFault.Short at) }
    ensures fault { IfErr result (λ e. e.0 ≡ PromoteFault.Fault → Rose (D.faults disk) (D.faults e.1)) }
    ensures later { MatchResult result (λ store. D.faults disk ≤ (store_view store).faults) (λ e. D.faults disk ≤ D.faults e.1) }
{
    match base {
        None => match TriggerStore::create(alloc, disk, version, Keep::Tables) {
            Ok(store) => Ok(store),
            Err((error, disk)) => Err((PromoteFault::from(error), disk)),
        },
        Some(tables) => match TriggerStore::compacted(alloc, disk, version, tables, Keep::Tables) {
            Ok(store) => Ok(store),
            Err((error, disk)) => Err((PromoteFault::from(error), disk)),
        },
    }
}
