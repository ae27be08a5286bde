//! A store that begins with a snapshot in place of the entries that led to it.
ghost use Rattle.std.specs.Prelude.{◌≡◌, ◌≤◌, [], ℕ, All, length, true, IsTrue, IfOk, IfErr, OnOk, MatchResult, None, Some, Err};
ghost use Rattle.qz_civil.specs.Causes.{Rose};
ghost use Rattle.qz_disk.specs.Disk.{Stays, LeavesOnly};
ghost use Rattle.qz_journal.specs.Commits.{HaveRoom, IsFullFor};
ghost use Rattle.qz_journal.specs.Layout.{is_version, IsPayload, HasStore, end_of};
ghost use Rattle.qz_stores.specs.Bases.{records};
ghost use Rattle.qz_stores.specs.Compacting.{compacted_list, IsFoundFree, Compacts};
ghost use Rattle.qz_stores.specs.Opening.{IsOpened};
ghost use Rattle.qz_stores.specs.View.{view, version_of, opened_of, found_of, added_of, behind_of, slots_of, disk_state, GoesOnFrom};

use crate::mounting::begin;
use crate::{Kind, Reread, Store};
use qz_civil::{Failed, List};
use qz_disk::Disk;
use qz_journal::{Front, Journal, JournalFull, NewStoreError, look};
use qz_logs::Log;
use qz_types::NoMemory;
use std::alloc::Global;
use std::snapshot::Snapshot;

/// Why no store was begun with a snapshot, in the order in which the causes are looked for. `Fault` is returned only if the
/// disk's count of faults rose in the call. After any other cause the disk holds what it held.
#[derive(Clone, Copy, PartialEq, Eq, Debug)]
pub enum CompactError {
    /// The disk begins as a store of this kind does, in any version.
    Exists,
    /// The disk begins as a store of the other kind does, in any version.
    OtherKind,
    NoMemory,
    /// The snapshot needs so many bytes, and a new store has room for so many, or may not have so many payloads: then that is 0.
    NoRoom { need: u64, room: u64 },
    /// There is no store, or the whole one; a crash may leave any bytes in the first 17.
    Fault,
}

impl<D: Disk, K: Kind> Store<D, K> {
    /// Begins a store of this version, 1 or 2, with a snapshot of this state: on a disk that begins with no store it makes the header, the
    /// payloads of the snapshot, and the slot that leads to them, and writes the kind into the header last. The store has this state and
    /// no entries, as if it had been opened there. Nothing is read back. An `Err` hands the disk back.
    pub fn compacted(
        alloc: Global,
        mut disk: D,
        version: u8,
        state: K,
    ) -> Result<Store<D, K>, (CompactError, D)>
        requires version { IsTrue (is_version version) }
        requires snapshots { K.kind.has_snapshots ≡ true }
        ensures opened { IfOk result (λ store. IsOpened K.kind (view store)) }
        ensures history { IfOk result (λ store. (view store).history ≡ K.kind.history 0 (K.state state) []) }
        ensures version { IfOk result (λ store. version_of store ≡ version) }
        ensures none { IfOk result (λ store. (found_of store ≡ []) × (added_of store ≡ []) × (behind_of store ≡ 0)) }
        ensures slots { IfOk result (λ store. slots_of store ≡ record { a = Some 16; b = None }) }
        ensures made { D.honest → MatchResult result
            (λ store. Compacts K.kind version (K.state state) None (D.state disk) (disk_state store) × (opened_of store ≡ (disk_state store).content))
            (λ e. Compacts K.kind version (K.state state) (Some e.0) (D.state disk) (D.state e.1)) }
        // The store goes on from the list that starts with this state, and its gate comes after the snapshot.
        ensures goes_on { D.honest → IfOk result (λ store. GoesOnFrom store (compacted_list version (K.state state))) }
        ensures place { D.honest → IfOk result (λ store. ((view store).gate ≡ end_of (K.kind.snapshot_of (K.state state) 0 0))
            × ((view store).payloads ≡ length (K.kind.snapshot_of (K.state state) 0 0))) }
        // The snapshot has no room exactly where it is so said, and the numbers are true: where a store is begun it has.
        ensures no_room { (need room : ℕ) → IfErr result (λ e. e.0 ≡ CompactError.NoRoom need room → IsFullFor (K.kind.snapshot_of (K.state state) 0 0) (end_of []) 0 need room) }
        ensures room { OnOk result (HaveRoom (K.kind.snapshot_of (K.state state) 0 0) (end_of []) 0) }
        ensures later { MatchResult result (λ store. D.faults disk ≤ (view store).faults) (λ e. D.faults disk ≤ D.faults e.1) }
        ensures fault { IfErr result (λ e. e.0 ≡ CompactError.Fault → Rose (D.faults disk) (D.faults e.1)) }
    {
        match first_payloads(alloc, &mut disk, &state) {
            Ok(payloads) => {
                match Journal::begin(alloc, disk, version, K::number(), payloads.as_slice()) {
                    Ok(journal) => Ok(begin(alloc, journal, started(version, state))),
                    Err((error, disk)) => {
                        drop(state);
                        Err((not_made(error), disk))
                    }
                }
            }
            Err(error) => {
                drop(state);
                Err((error, disk))
            }
        }
    }
}

// What would be read of a store that begins with this state and has no entries.
fn started<K: Kind>(version: u8, state: K) -> Reread<K>
    ensures numbers { (result.version ≡ version) × (result.base_count ≡ 0) × (result.count ≡ 0) × (result.entries.items ≡ []) }
    ensures base { K.state result.base.value ≡ K.state state }
{
    Reread {
        version,
        base_count: 0,
        base: Snapshot::of(&state),
        entries: Log::new(),
        count: 0,
        state,
    }
}

// Looks for a store on a disk, and where there is none takes the payloads of the snapshot with which a new one begins.
fn first_payloads<D: Disk, K: Kind>(
    alloc: Global,
    disk: &mut D,
    state: &K,
) -> Result<List<List<u8>>, CompactError>
    requires snapshots { K.kind.has_snapshots ≡ true }
    ensures payloads { IfOk result (λ ps. (ps ≡ K.kind.snapshot_of (K.state state.now) 0 0) × All IsPayload ps) }
    ensures begins { OnOk result (K.kind.BeginSnapshot (K.kind.snapshot_of (K.state state.now) 0 0) (K.state state.now) 0 0) }
    ensures parts { OnOk result (records K.kind (K.kind.snapshot_of (K.state state.now) 0 0) ≡ []) }
    ensures room { OnOk result (HaveRoom (K.kind.snapshot_of (K.state state.now) 0 0) (end_of []) 0) }
    ensures no_room { (need room : ℕ) → result ≡ Err (CompactError.NoRoom need room) → IsFullFor (K.kind.snapshot_of (K.state state.now) 0 0) (end_of []) 0 need room }
    ensures found { D.honest → MatchResult result (λ _. HasStore K.kind.number (D.state disk.old).content → ⊥) (λ e. IsFoundFree K.kind (D.state disk.old).content (Some e)) }
    ensures unchanged { D.honest → Stays (D.state disk.old) (D.state disk.new) }
    ensures any_moment { D.honest → LeavesOnly (D.state disk.old) (D.state disk.new) (D.state disk.old).IsImage }
    ensures later { D.faults disk.old ≤ D.faults disk.new }
    ensures fault { result ≡ Err CompactError.Fault → Rose (D.faults disk.old) (D.faults disk.new) }
{
    match look(disk, K::number()) {
        Ok(Front::Neither) => {}
        Ok(Front::This) => return Err(CompactError::Exists),
        Ok(Front::Other) => return Err(CompactError::OtherKind),
        Err(Failed) => return Err(CompactError::Fault),
    }
    match state.first_snapshot(alloc) {
        Ok(Ok(payloads)) => Ok(payloads),
        Ok(Err(JournalFull { need, room })) => Err(CompactError::NoRoom { need, room }),
        Err(NoMemory) => Err(CompactError::NoMemory),
    }
}

// Why no store was made.
fn not_made(error: NewStoreError) -> CompactError
    ensures exists { error ≡ NewStoreError.Exists → result ≡ CompactError.Exists }
    ensures other { error ≡ NewStoreError.OtherKind → result ≡ CompactError.OtherKind }
    ensures memory { error ≡ NewStoreError.NoMemory → result ≡ CompactError.NoMemory }
    ensures fault { error ≡ NewStoreError.Fault → result ≡ CompactError.Fault }
{
    match error {
        NewStoreError::Exists => CompactError::Exists,
        NewStoreError::OtherKind => CompactError::OtherKind,
        NewStoreError::NoMemory => CompactError::NoMemory,
        NewStoreError::Fault => CompactError::Fault,
    }
}
