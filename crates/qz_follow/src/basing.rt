//! The base of a stream: the snapshot at the slot in use, where the first payload is a part of a snapshot.
ghost use Rattle.std.specs.Prelude.{◌≡◌, ◌≢◌, ◌++◌, ◌∷◌, ℕ, [], is_some, true, IfOk, IfErr, OnOk, OnErr};
ghost use Rattle.qz_journal.specs.Layout.{IsPayload};
ghost use Rattle.qz_journal.specs.Tails.{start_of};
ghost use Rattle.qz_snapshot.specs.Opening.{BeginWell};
ghost use Rattle.qz_trigger_store.specs.Kinds.{trigger_kind};
ghost use Rattle.qz_follow.specs.Kept.{IsBaseOf};
ghost use Rattle.qz_follow.specs.Taking.{awaited_slot, Awaits, Joins, IsUnjoined, IsUnbased, StaysTaken};
ghost use Rattle.qz_follow.specs.View.{held};

use crate::empty::is_new;
use crate::holding::Taken;
use crate::{FollowFault, Stage};
use qz_civil::List;
use qz_journal::{FRAME_LENGTH, Slots};
use qz_plain::PlainStore;
use qz_snapshot::{are_cut_short, is_part, read_base};
use qz_types::NoMemory;
use std::mem;
use std::snapshot::Snapshot;

// Where the first gate of a store is.
pub(crate) const FIRST_GATE: u64 = 16;

// The place of the gate of slot A.
const SLOT_A: u64 = 6;

/// The offset of the slot in use, or of the first gate where none is open.
pub(crate) fn start_of(slots: &Slots) -> u64
    ensures { result ≡ start_of slots.now }
{
    let Some(gate) = slots.in_use() else {
        return FIRST_GATE;
    };
    let offset = if gate == SLOT_A { slots.a } else { slots.b };
    match offset {
        Some(offset) => u64::from(offset),
        None => FIRST_GATE,
    }
}

/// The gate of the slot at which a base is awaited, when this payload comes; None where there is no base, or it was read.
pub(crate) fn awaited_slot(stage: Stage, slots: &Slots, payload: &[u8]) -> Option<u64>
    ensures { result ≡ awaited_slot trigger_kind slots.now stage payload.now }
{
    match stage {
        Stage::First => {
            if is_part(payload) {
                slots.in_use()
            } else {
                None
            }
        }
        Stage::Awaited { slot } => Some(slot),
        Stage::Settled => None,
    }
}

impl Taken {
    /// Takes the payload at this gate, where a base is awaited at this slot: it comes before the base and is passed over, or it is a
    /// part of it. With the last part the tables are those of the base.
    pub(crate) fn await_base(
        &mut self,
        payload: &[u8],
        gate: u64,
        slot: u64,
        start: u64,
    ) -> Result<(), FollowFault>
        requires size { IsPayload payload.now }
        requires unsettled { self.old.stage ≢ Stage.Settled }
        ensures ok { OnOk result (Awaits trigger_kind slot start gate payload.now (held self.old) (held self.new)) }
        ensures err { IfErr result (IsUnbased trigger_kind slot start payload.now gate (held self.old)) }
        ensures unchanged { OnErr result (StaysTaken (held self.old) (held self.new)) }
        ensures same { (self.new.version ≡ self.old.version) × (is_some self.new.kept ≡ is_some self.old.kept) }
    {
        self.stage = Stage::Awaited { slot };
        if !self.parts.is_empty() || gate == start {
            return self.join(payload, slot);
        }
        if (FRAME_LENGTH + payload.len()) as u64 <= start.saturating_sub(gate) {
            return Ok(());
        }
        Err(FollowFault::BadStream { at: slot })
    }

    // Takes one part more, and reads the base where it is the last.
    fn join(&mut self, payload: &[u8], slot: u64) -> Result<(), FollowFault>
        requires awaited { self.old.stage ≡ Stage.Awaited slot }
        ensures ok { OnOk result (Joins trigger_kind slot payload.now (held self.old) (held self.new)) }
        ensures err { IfErr result (IsUnjoined trigger_kind slot payload.now self.old.parts) }
        ensures unchanged { OnErr result (StaysTaken (held self.old) (held self.new)) }
        ensures same { (self.new.version ≡ self.old.version) × (is_some self.new.kept ≡ is_some self.old.kept) }
    {
        self.add_part(payload)?;
        if are_cut_short(self.parts.as_slice()) {
            return Ok(());
        }
        match read_base(self.alloc, &self.parts) {
            Ok(Some((tables, _))) => self.settle(PlainStore::from_tables(tables)),
            Ok(None) => Err(FollowFault::BadStream { at: slot }),
            Err(NoMemory) => Err(FollowFault::NoMemory),
        }
    }

    // Keeps a copy of a part.
    fn add_part(&mut self, payload: &[u8]) -> Result<(), FollowFault>
        requires awaited { (slot : ℕ) × (self.old.stage ≡ Stage.Awaited slot) }
        ensures ok { OnOk result (held self.new ≡ record (held self.old) { parts = self.old.parts ++ payload.now ∷ [] }) }
        ensures err { IfErr result (λ e. e ≡ FollowFault.NoMemory) }
        ensures unchanged { OnErr result (StaysTaken (held self.old) (held self.new)) }
        ensures same { (self.new.version ≡ self.old.version) × (self.new.kept ≡ self.old.kept) }
    {
        let copy = Vec::from_slice(self.alloc, payload)?;
        match self.parts.push(List::from_vec(copy)) {
            Ok(()) => Ok(()),
            Err(failed) => {
                drop(failed);
                Err(FollowFault::NoMemory)
            }
        }
    }

    // Takes over the tables of the base, which these parts are.
    fn settle(&mut self, tables: PlainStore) -> Result<(), FollowFault>
        requires awaited { (slot : ℕ) × (self.old.stage ≡ Stage.Awaited slot) }
        requires base { (count : ℕ) × BeginWell self.old.parts tables.tables count }
        ensures ok { OnOk result ((self.new.stage ≡ Stage.Settled) × ((held self.new).start ≡ tables.tables)) }
        ensures err { IfErr result (λ e. e ≡ FollowFault.NoMemory) }
        ensures unchanged { OnErr result (StaysTaken (held self.old) (held self.new)) }
        ensures same { ((held self.new).entries ≡ (held self.old).entries) × (self.new.end ≡ self.old.end) }
        ensures kept { (self.new.version ≡ self.old.version) × (self.new.kept ≡ self.old.kept) }
    {
        match self.copy_base(&tables) {
            Ok(base) => {
                let old = mem::replace(&mut self.tables, tables);
                drop(old);
                self.start = Snapshot::of(&self.tables);
                self.stage = Stage::Settled;
                let parts = mem::replace(&mut self.parts, List::new(self.alloc));
                drop(parts);
                let none = mem::replace(&mut self.base, base);
                drop(none);
                Ok(())
            }
            Err(fault) => {
                drop(tables);
                Err(fault)
            }
        }
    }

    // These tables once more for a promotion, read anew, where records are kept and they aren't those of a new store.
    fn copy_base(&self, tables: &PlainStore) -> Result<Option<PlainStore>, FollowFault>
        requires { (count : ℕ) × BeginWell self.now.parts tables.now.tables count }
        ensures base { is_some self.now.kept ≡ true → IfOk result (IsBaseOf self.now.version tables.now.tables) }
        ensures err { IfErr result (λ e. e ≡ FollowFault.NoMemory) }
    {
        if self.kept.is_none() {
            return Ok(None);
        }
        if is_new(tables.tables(), self.version) {
            return Ok(None);
        }
        match read_base(self.alloc, &self.parts) {
            Ok(Some((tables, _))) => Ok(Some(PlainStore::from_tables(tables))),
            Ok(None) => unreachable!(),
            Err(NoMemory) => Err(FollowFault::NoMemory),
        }
    }
}
