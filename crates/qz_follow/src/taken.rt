//! How payloads are taken: all that is decided, and all memory, before anything changes.
ghost use Rattle.std.specs.Prelude.{◌≡◌, ◌≢◌, ◌+◌, ◌^◌, ◌<◌, ◌≤◌, [], ◌∷◌, ◌++◌, length, true, is_some, Some, IfOk, IfErr, OnOk, OnErr, List as Items, ℕ};
ghost use Rattle.std.specs.Option.{ForSome};
ghost use Rattle.qz_journal.specs.Commits.{need_of, room_of};
ghost use Rattle.qz_journal.specs.Layout.{is_version, IsPayload};
ghost use Rattle.qz_plain.specs.Prepared.{Prepares};
ghost use Rattle.qz_stores.specs.Kinds.{IsAccepted};
ghost use Rattle.qz_types.specs.Tables.{empty};
ghost use Rattle.qz_trigger_store.specs.Entries.{IsRecordOf};
ghost use Rattle.qz_trigger_store.specs.Kinds.{trigger_kind};
ghost use Rattle.qz_follow.specs.Kept.{KeepsRecords, payloads_in, keeps_payloads, IsUnplaced, IsPlaced, IsKeptToo};
ghost use Rattle.qz_follow.specs.Taking.{IsBegun, IsRenewed, Takes, TakesPayload, IsRefused, IsUntaken, StaysTaken};
ghost use Rattle.qz_follow.specs.View.{held};

use crate::basing::{FIRST_GATE, awaited_slot, start_of};
use crate::deciding::decide;
use crate::holding::Taken;
use crate::{FollowFault, Keeping, Stage};
use qz_civil::{List, ListWithRoom};
use qz_journal::{FRAME_LENGTH, JournalFull, Slots, fits};
use qz_logs::Log;
use qz_plain::{PlainStore, Prepared};
use qz_snapshot::is_part;
use qz_types::Entry;
use std::alloc::Global;
use std::mem;
use std::snapshot::Snapshot;

impl Taken {
    /// Nothing. The version is 2 until the stream says another.
    pub(crate) fn new(alloc: Global, keeping: Keeping) -> Taken
        ensures version { result.version ≡ 2 }
        ensures stage { result.stage ≡ Stage.First }
        ensures none { (result.parts ≡ []) × (result.entries.items ≡ []) }
        ensures start { (held result).start ≡ empty 2 }
        ensures end { result.end ≡ 16 }
        ensures keeps { is_some result.kept ≡ keeps_payloads keeping }
    {
        let tables = PlainStore::new(alloc, 2);
        Taken {
            alloc,
            start: Snapshot::of(&tables),
            tables,
            version: 2,
            stage: Stage::First,
            parts: List::new(alloc),
            base: None,
            entries: Log::new(),
            count: 0,
            end: FIRST_GATE,
            kept: none_kept(alloc, keeping),
        }
    }

    /// Takes over the version that the stream says, before its first record.
    pub(crate) fn begin(&mut self, version: Option<u8>)
        ensures begun { IsBegun version self.old.stage self.old.version self.new.version }
        ensures renewed { IsRenewed trigger_kind (held self.old) (held self.new) }
        ensures same { self.new.kept ≡ self.old.kept }
    {
        match self.stage {
            Stage::First => self.renew(version_said(version)),
            Stage::Awaited { slot: _ } => {}
            Stage::Settled => {}
        }
    }

    // A new store of this version, where nothing was taken yet.
    fn renew(&mut self, version: u8)
        requires first { self.old.stage ≡ Stage.First }
        requires known { is_version version ≡ true }
        ensures version { self.new.version ≡ version }
        ensures start { (held self.new).start ≡ empty version }
        ensures same { (self.new.stage ≡ self.old.stage) × (self.new.parts ≡ self.old.parts) × (self.new.end ≡ self.old.end) }
        ensures kept { (self.new.entries.items ≡ self.old.entries.items) × (self.new.kept ≡ self.old.kept) }
    {
        let old = mem::replace(&mut self.tables, PlainStore::new(self.alloc, version));
        drop(old);
        self.start = Snapshot::of(&self.tables);
        self.version = version;
    }

    /// Takes the payload at this gate. All causes are decided, and all memory is taken, before anything changes.
    pub(crate) fn add(
        &mut self,
        payload: &[u8],
        gate: u64,
        slots: &Slots,
    ) -> Result<(), FollowFault>
        requires { IsPayload payload.now }
        ensures ok { OnOk result (Takes trigger_kind slots.now self.old.tables.tables payload.now gate (held self.old) (held self.new)) }
        ensures err { IfErr result (IsUntaken trigger_kind slots.now self.old.tables.tables payload.now gate (held self.old)) }
        ensures unchanged { OnErr result (StaysTaken (held self.old) (held self.new)) }
        ensures same { (self.new.version ≡ self.old.version) × (is_some self.new.kept ≡ is_some self.old.kept) }
    {
        match awaited_slot(self.stage, slots, payload) {
            Some(slot) => self.await_base(payload, gate, slot, start_of(slots)),
            None => self.take(payload, gate),
        }
    }

    // Takes a payload where no base is awaited.
    fn take(&mut self, payload: &[u8], gate: u64) -> Result<(), FollowFault>
        requires size { IsPayload payload.now }
        requires here { (slot : ℕ) → self.old.stage ≢ Stage.Awaited slot }
        ensures ok { OnOk result (TakesPayload trigger_kind self.old.tables.tables payload.now (held self.old) (held self.new)) }
        ensures err { IfErr result (IsRefused trigger_kind self.old.tables.tables payload.now gate (held self.old)) }
        ensures unchanged { OnErr result (StaysTaken (held self.old) (held self.new)) }
        ensures same { (self.new.version ≡ self.old.version) × (is_some self.new.kept ≡ is_some self.old.kept) }
    {
        if is_part(payload) {
            self.stage = Stage::Settled;
            return Ok(());
        }
        let (entry, prepared) = decide(self.alloc, &mut self.tables, payload, gate)?;
        match make_place(self.alloc, &mut self.kept, self.end, self.count, payload) {
            Ok(copy) => {
                self.put(payload, entry, prepared, copy);
                Ok(())
            }
            Err(fault) => {
                drop(prepared);
                drop(entry);
                Err(fault)
            }
        }
    }

    // Puts an entry that was prepared last, and keeps the copy of its record.
    fn put(&mut self, payload: &[u8], entry: Entry, prepared: Prepared, copy: Option<List<u8>>)
        requires here { (slot : ℕ) → self.old.stage ≢ Stage.Awaited slot }
        requires size { IsPayload payload.now }
        requires record { IsRecordOf payload.now entry }
        requires accepted { IsAccepted trigger_kind self.old.tables.tables entry }
        requires prepared { Prepares self.old.tables entry prepared }
        requires room { need_of (length payload.now) ≤ room_of self.old.end self.old.count }
        requires placed { IsPlaced self.old.kept payload.now copy }
        ensures settled { (self.new.stage ≡ Stage.Settled) × ((held self.new).start ≡ (held self.old).start) }
        ensures entries { self.new.entries.items ≡ self.old.entries.items ++ entry ∷ [] }
        ensures end { self.new.end ≡ self.old.end + need_of (length payload.now) }
        ensures same { (self.new.version ≡ self.old.version) × (is_some self.new.kept ≡ is_some self.old.kept) }
    {
        let reply = self.tables.commit(&entry, prepared);
        drop(reply);
        self.entries = Log::and(&self.entries, &entry);
        drop(entry);
        self.stage = Stage::Settled;
        self.count += 1;
        self.end += (FRAME_LENGTH + payload.len()) as u64;
        keep(&mut self.kept, copy);
    }
}

// What is kept of the payloads before the first.
fn none_kept(alloc: Global, keeping: Keeping) -> Option<ListWithRoom<List<u8>>>
    ensures keeps { is_some result ≡ keeps_payloads keeping }
    ensures records { KeepsRecords 16 [] result }
{
    match keeping {
        Keeping::Tables => None,
        Keeping::Payloads => Some(ListWithRoom::new(alloc)),
    }
}

// The version that a stream says: 2 where it doesn't say 1.
fn version_said(version: Option<u8>) -> u8
    ensures one { version ≡ Some 1 → result ≡ 1 }
    ensures two { version ≢ Some 1 → result ≡ 2 }
    ensures known { is_version result ≡ true }
{
    match version {
        Some(1) => 1,
        _ => 2,
    }
}

// The copy of a record that is to be kept, and the place for it. The room in a store is looked at first.
fn make_place(
    alloc: Global,
    kept: &mut Option<ListWithRoom<List<u8>>>,
    end: u64,
    count: u64,
    payload: &[u8],
) -> Result<Option<List<u8>>, FollowFault>
    requires { length payload.now < 2 ^ 32 }
    ensures room { OnOk result (need_of (length payload.now) ≤ room_of end count) }
    ensures placed { IfOk result (IsPlaced kept.new payload.now) }
    ensures err { IfErr result (IsUnplaced end count (length payload.now)) }
    ensures same { payloads_in kept.new ≡ payloads_in kept.old }
{
    match fits(end, count, payload.len() as u32) {
        Ok(()) => copy(alloc, kept, payload),
        Err(JournalFull { need, room }) => Err(FollowFault::JournalFull { need, room }),
    }
}

// The copy and the place alone.
fn copy(
    alloc: Global,
    kept: &mut Option<ListWithRoom<List<u8>>>,
    payload: &[u8],
) -> Result<Option<List<u8>>, FollowFault>
    ensures placed { IfOk result (IsPlaced kept.new payload.now) }
    ensures err { IfErr result (λ e. e ≡ FollowFault.NoMemory) }
    ensures same { payloads_in kept.new ≡ payloads_in kept.old }
{
    let Some(list) = kept else {
        return Ok(None);
    };
    list.reserve(1)?;
    let copy = Vec::from_slice(alloc, payload)?;
    Ok(Some(List::from_vec(copy)))
}

// Puts a copy last in what is kept.
fn keep(kept: &mut Option<ListWithRoom<List<u8>>>, copy: Option<List<u8>>)
    requires { ForSome kept.old (λ list. 0 < list.room) }
    ensures { (payload : Items ℕ) → IsPlaced kept.old payload copy → IsKeptToo payload kept.old kept.new }
{
    match kept {
        Some(list) => match copy {
            Some(copy) => list.push_reserved(copy),
            None => {}
        },
        None => drop(copy),
    }
}
