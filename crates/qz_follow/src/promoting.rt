//! A follower that becomes a store.
ghost use Rattle.std.specs.Prelude.{◌≡◌, ◌≢◌, ◌↔◌, ◌+◌, ◌-◌, ◌<◌, ◌≤◌, ℕ, [], length, true, false, None, Some, IfOk, IfErr, OnOk, MatchResult, is_some};
ghost use Rattle.qz_civil.specs.Causes.{Rose};
ghost use Rattle.qz_journal.specs.Layout.{end_of};
ghost use Rattle.qz_journal.specs.Commits.{IsFullFor, room_for};
ghost use Rattle.qz_journal.specs.declared.layout.TheConstants.{MAX_PAYLOADS};
ghost use Rattle.qz_model.specs.History.{replay_from};
ghost use Rattle.qz_types.specs.Tables.{empty};
ghost use Rattle.qz_trigger_store.specs.Bytes.{IsWhole};
ghost use Rattle.qz_trigger_store.specs.View.{view as store_view, keeps_of as keeps_entries_of, opened_of, disk_state, GoesOnFrom};
ghost use Rattle.qz_follow.specs.Following.{short_at};
ghost use Rattle.qz_follow.specs.Promoting.{Promotes, LacksAll, list_from, AreAdoptable, IsOpenWith, IsFailure, Fills};
ghost use Rattle.qz_follow.specs.View.{view, held, keeps_of};

use crate::basing::FIRST_GATE;
use crate::beginning::begin;
use crate::holding::Taken;
use crate::{FollowFault, Follower, Stage};
use qz_civil::List;
use qz_disk::Disk;
use qz_journal::{JournalFull, MAX_BYTES, MAX_PAYLOADS};
use qz_logs::Log;
use qz_plain::PlainStore;
use qz_trigger_store::{ExtendError, TriggerStore};
use qz_types::Entry;
use std::snapshot::Snapshot;
use thiserror::Error;

/// Why a follower wasn't promoted, in the order in which the causes are looked for. `Fault` is returned only if the disk's count of
/// faults rose in the call.
#[derive(Clone, Copy, PartialEq, Eq, Debug, Error)]
pub enum PromoteFault {
    /// Less than the 16 bytes of a header were fed, and this is their number; or the base of the stream isn't whole, and this is
    /// the gate of the slot that leads to it, 6 or 11. The disk wasn't touched.
    #[error("the stream ends before a store can be made of it, at {at}")]
    Short { at: u64 },
    /// The disk begins as a trigger store does, in any version. It was only read.
    #[error("the store exists")]
    Exists,
    /// The disk begins as a state store does, in any version. It was only read.
    #[error("the disk holds the other store")]
    OtherKind,
    /// Memory is wanted before the store is made, and once more before the records are written. So the disk is as it was, or has a
    /// store without entries.
    #[error("no memory")]
    NoMemory,
    /// The snapshot of the base needs so many bytes, and a new store has room for so many: the disk is as it was. Or the records
    /// do, after that snapshot: the disk has a store without entries.
    #[error("no room in a store: {need} bytes are needed and {room} are there")]
    NoRoom { need: u64, room: u64 },
    /// A crash leaves no store, or one of the first entries.
    #[error("the disk failed")]
    Fault,
}

impl Follower {
    /// Makes a trigger store of the entries that are acknowledged, on a disk that begins as no store does, in the version of
    /// the stream, and opens it. It writes the records as they came, in groups of 256 KiB at most, and takes over the tables: no
    /// transaction is done again. A payload that isn't whole is left out. A fault of the
    /// stream doesn't hinder it: what was acknowledged is promoted. The store keeps its tables alone in memory. An `Err` hands
    /// the disk back.
    ///
    /// The follower has to keep payloads, and none of the first six bytes of the stream may be a bad place.
    pub fn promote<D: Disk>(self, disk: D) -> Result<TriggerStore<D>, (PromoteFault, D)>
        requires kept { keeps_of self ≡ true }
        requires begins { (at : ℕ) → (view self).fault ≡ Some (FollowFault.BadStream at) → 6 ≤ at }
        // The store is open and has these entries, all of them added by this call to a new store.
        ensures store { IfOk result (IsOpenWith (view self).version (view self).start (view self).entries) }
        ensures keeps { IfOk result (λ store. keeps_entries_of store ≡ false) }
        ensures promotes { D.honest → MatchResult result (λ store. Promotes (view self).version (view self).start (view self).entries None (D.state disk) (disk_state store))
            (λ e. Promotes (view self).version (view self).start (view self).entries (Some e.0) (D.state disk) (D.state e.1)) }
        ensures goes_on { D.honest → IfOk result (λ store. GoesOnFrom store (list_from (view self).version (view self).start [])) }
        // There is no room only for a snapshot and the records behind it. A stream without a base has room.
        ensures no_room { (need room : ℕ) → IfErr result (λ e. e.0 ≡ PromoteFault.NoRoom need room → (view self).start ≢ empty (view self).version) }
        ensures lacks { D.honest → (need room : ℕ) → IfErr result (λ e. e.0 ≡ PromoteFault.NoRoom need room → LacksAll (view self).start (view self).entries need room) }
        ensures short { (at : ℕ) → IfErr result (λ e. (e.0 ≡ PromoteFault.Short at) ↔ (short_at (view self) ≡ Some at)) }
        ensures long { OnOk result (short_at (view self) ≡ None) }
        ensures untouched { (at : ℕ) → short_at (view self) ≡ Some at → IfErr result (λ e. e.1 ≡ disk) }
        ensures later { MatchResult result (λ store. D.faults disk ≤ (store_view store).faults) (λ e. D.faults disk ≤ D.faults e.1) }
        ensures fault { IfErr result (λ e. e.0 ≡ PromoteFault.Fault → Rose (D.faults disk) (D.faults e.1)) }
    {
        if let Some(at) = self.short() {
            drop(self);
            return Err((PromoteFault::Short { at }, disk));
        }
        let Follower {
            stream: _,
            taken,
            fault: _,
        } = self;
        taken.into_store(disk)
    }
}

impl Taken {
    // A new store that has what was taken.
    fn into_store<D: Disk>(self, disk: D) -> Result<TriggerStore<D>, (PromoteFault, D)>
        requires kept { is_some self.kept ≡ true }
        requires whole { (slot : ℕ) → self.stage ≢ Stage.Awaited slot }
        ensures store { IfOk result (IsOpenWith self.version (held self).start self.entries.items) }
        ensures keeps { IfOk result (λ store. keeps_entries_of store ≡ false) }
        ensures promotes { D.honest → MatchResult result (λ store. Promotes self.version (held self).start self.entries.items None (D.state disk) (disk_state store))
            (λ e. Promotes self.version (held self).start self.entries.items (Some e.0) (D.state disk) (D.state e.1)) }
        ensures goes_on { D.honest → IfOk result (λ store. GoesOnFrom store (list_from self.version (held self).start [])) }
        ensures no_room { (need room : ℕ) → IfErr result (λ e. e.0 ≡ PromoteFault.NoRoom need room → (held self).start ≢ empty self.version) }
        ensures lacks { D.honest → (need room : ℕ) → IfErr result (λ e. e.0 ≡ PromoteFault.NoRoom need room → LacksAll (held self).start self.entries.items need room) }
        ensures long { (at : ℕ) → IfErr result (λ e. e.0 ≢ PromoteFault.Short at) }
        ensures fault { IfErr result (λ e. e.0 ≡ PromoteFault.Fault → Rose (D.faults disk) (D.faults e.1)) }
        ensures later { MatchResult result (λ store. D.faults disk ≤ (store_view store).faults) (λ e. D.faults disk ≤ D.faults e.1) }
    {
        let Taken {
            alloc,
            tables,
            version,
            start,
            stage: _,
            parts: _,
            base,
            entries,
            count: _,
            end,
            kept,
        } = self;
        let Some(records) = kept else {
            unreachable!();
        };
        let all = records.as_slice();
        match begin(alloc, disk, version, &start, base) {
            Ok(store) => fill(store, version, &start, tables, end, all, &entries),
            Err(refused) => {
                drop(tables);
                Err(refused)
            }
        }
    }
}

// Gives a store that was just made, in this version and with these tables as its start, these records, which end at this offset in a
// store that has them alone; their entries leave the other tables.
fn fill<D: Disk>(
    store: TriggerStore<D>,
    version: u8,
    start: &Snapshot<PlainStore>,
    tables: PlainStore,
    end: u64,
    records: &[List<u8>],
    entries: &Log<Entry>,
) -> Result<TriggerStore<D>, (PromoteFault, D)>
    requires new { IsOpenWith version start.now.value.tables [] store }
    requires alone { keeps_entries_of store ≡ false }
    requires adoptable { AreAdoptable start.now.value.tables entries.now.items records.now }
    requires left { tables.tables ≡ replay_from start.now.value.tables entries.now.items }
    requires end { end ≡ end_of records.now }
    ensures store { IfOk result (IsOpenWith version start.now.value.tables entries.now.items) }
    ensures keeps { IfOk result (λ s. keeps_entries_of s ≡ false) }
    ensures fills { D.honest → IsWhole (list_from version start.now.value.tables []) (opened_of store)
        → MatchResult result (λ s. Fills version start.now.value.tables entries.now.items None (disk_state store) (disk_state s))
        (λ e. Fills version start.now.value.tables entries.now.items (Some e.0) (disk_state store) (D.state e.1)) }
    ensures goes_on { GoesOnFrom store (list_from version start.now.value.tables []) → IfOk result (λ s. GoesOnFrom s (list_from version start.now.value.tables [])) }
    ensures no_room { (need room : ℕ) → IfErr result (λ e. e.0 ≡ PromoteFault.NoRoom need room → (store_view store).payloads ≤ MAX_PAYLOADS → IsFullFor records.now (store_view store).gate (store_view store).payloads need room) }
    ensures failed { IfErr result (λ e. IsFailure (store_view store).faults e.0 (D.faults e.1)) }
    ensures later { MatchResult result (λ s. (store_view store).faults ≤ (store_view s).faults) (λ e. (store_view store).faults ≤ D.faults e.1) }
{
    if let Err(JournalFull { need, room }) = fits(
        end,
        records.len() as u64,
        store.gate(),
        store.payloads(),
    ) {
        drop(tables);
        return Err((PromoteFault::NoRoom { need, room }, store.into_disk()));
    }
    match store.extended(tables, records, entries) {
        Ok(store) => Ok(store),
        Err((ExtendError::NoMemory, disk)) => Err((PromoteFault::NoMemory, disk)),
        Err((ExtendError::Fault, disk)) => Err((PromoteFault::Fault, disk)),
    }
}

// Whether so many payloads, which end at this offset in a store that has them alone, have room after this gate, before which so many
// stand; or how many bytes they need, and how many there are.
fn fits(end: u64, count: u64, gate: u64, payloads: u64) -> Result<(), JournalFull>
    ensures full { IfErr result (λ f. payloads ≤ MAX_PAYLOADS → (f.need ≡ end - 16) × (f.room ≡ room_for gate payloads count) × (f.room < f.need)) }
    ensures ok { OnOk result ((payloads ≤ MAX_PAYLOADS) × (end - 16 ≤ room_for gate payloads count)) }
{
    let need = end.saturating_sub(FIRST_GATE);
    let room = if MAX_PAYLOADS.saturating_sub(payloads) < count {
        0
    } else {
        (MAX_BYTES - 1).saturating_sub(gate)
    };
    if payloads > MAX_PAYLOADS || need > room {
        return Err(JournalFull { need, room });
    }
    Ok(())
}
