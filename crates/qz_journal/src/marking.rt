//! Clearing and setting the free slot.
ghost use Rattle.std.specs.Prelude.{◌≡◌, ◌≢◌, ◌↔◌, ◌+◌, ◌^◌, ◌<◌, ◌≤◌, [], ◌∷◌, List, ℕ, OnOk, OnErr, IsOk, Ok, Err, Some, None};
ghost use Rattle.std.specs.Int.{w32, to_be_bytes};
ghost use Rattle.qz_civil.specs.Causes.{Rose, HasCause};
ghost use Rattle.qz_disk.specs.Disk.{Only, LeavesOnly, written};
ghost use Rattle.qz_journal.specs.Layout.{Holds, open_gate};
ghost use Rattle.qz_journal.specs.Slots.{IsSlot, slot, slots_of, free_slot, offset_in, with_offset, IsSlotWrite};

use crate::appending::put_through;
use crate::layout::{CLOSED_GATE, OPEN_GATE};
use crate::{AppendError, Journal};
use qz_civil::Failed;
use qz_disk::Disk;

impl<D: Disk> Journal<D> {
    /// Closes the free slot, and syncs, where that slot is open. Where it is closed no device call is made: a write that a
    /// crash tears could open it, on an offset that isn't one. The free slot is the one that isn't in use, A where none is
    /// open. `Closed` is returned exactly while the journal is closed, else `Fault` only if the disk's count of faults rose.
    /// After `Fault` the journal is closed. `JournalFull` is never returned.
    pub fn clear_slot(&mut self) -> Result<(), AppendError>
        ensures closed { (at : ℕ) → (result ≡ Err (AppendError.Closed at)) ↔ (self.old.closed ≡ Some at) }
        ensures never_full { (need room : ℕ) → result ≡ Err (AppendError.JournalFull need room) → ⊥ }
        ensures fault { result ≡ Err AppendError.Fault
            → Rose (D.faults self.old.disk) (D.faults self.new.disk) × (self.old.closed ≡ None) × (self.new.closed ≡ Some self.old.gate) }
        ensures later { D.faults self.old.disk ≤ D.faults self.new.disk }
        ensures unchanged { result ≢ Err AppendError.Fault → OnErr result (self.new ≡ self.old) }
        ensures nothing_to_clear { offset_in self.old.slots (free_slot self.old.slots) ≡ None → self.new ≡ self.old }
        ensures completes { self.old.closed ≡ None → (Rose (D.faults self.old.disk) (D.faults self.new.disk) → ⊥) → IsOk result }
        ensures ok { OnOk result ((self.old.closed ≡ None) × (self.new.closed ≡ None)
            × (self.new.slots ≡ with_offset (free_slot self.old.slots) None self.old.slots)) }
        // The free slot stays the free one, and is closed.
        ensures free { OnOk result ((free_slot self.new.slots ≡ free_slot self.old.slots) × (offset_in self.new.slots (free_slot self.new.slots) ≡ None)) }
        ensures slots_err { OnErr result (self.new.slots ≡ self.old.slots) }
        ensures same { (self.new.version ≡ self.old.version) × (self.new.kind ≡ self.old.kind) × (self.new.gate ≡ self.old.gate) × (self.new.count ≡ self.old.count) }
        ensures reads_nothing { D.honest → (D.state self.new.disk).bytes_read ≡ (D.state self.old.disk).bytes_read }
        ensures durable { D.honest → OnOk result (Only (D.state self.new.disk).content (D.state self.new.disk)) }

        // A crash at any moment leaves all bytes but those of the free slot, which is closed or as it was.
        ensures any_moment { D.honest → self.old.closed ≡ None
            → LeavesOnly (D.state self.old.disk) (D.state self.new.disk)
            (IsSlotWrite (free_slot self.old.slots) (offset_in self.old.slots (free_slot self.old.slots)) (D.state self.old.disk).content) }
        // So it leaves the same payloads.
        ensures payloads { D.honest → self.old.closed ≡ None
            → (version kind : ℕ) (payloads : List (List ℕ)) → Holds (D.state self.old.disk).content version kind payloads
            → LeavesOnly (D.state self.old.disk) (D.state self.new.disk) (λ b. Holds b version kind payloads) }
    {
        if let Some(at) = self.closed {
            return Err(AppendError::Closed { at });
        }
        let gate = self.slots.free();
        if self.slots.offset(gate).is_none() {
            return Ok(());
        }
        self.closed = Some(self.gate);
        if close(&mut self.disk, gate).is_err() {
            return Err(AppendError::Fault);
        }
        self.slots = self.slots.with(gate, None);
        self.closed = None;
        Ok(())
    }

    /// Writes this offset, in bytes, into the free slot, and syncs; then opens that slot, and syncs. A head of a snapshot is to
    /// stand at the offset. Each error is returned as by `clear_slot`.
    pub fn set_slot(&mut self, offset: u64) -> Result<(), AppendError>
        requires free { offset_in self.old.slots (free_slot self.old.slots) ≡ None }
        requires offset { offset < 2 ^ 32 }
        ensures closed { (at : ℕ) → (result ≡ Err (AppendError.Closed at)) ↔ (self.old.closed ≡ Some at) }
        ensures never_full { (need room : ℕ) → result ≡ Err (AppendError.JournalFull need room) → ⊥ }
        ensures fault { result ≡ Err AppendError.Fault
            → Rose (D.faults self.old.disk) (D.faults self.new.disk) × (self.old.closed ≡ None) × (self.new.closed ≡ Some self.old.gate) }
        ensures later { D.faults self.old.disk ≤ D.faults self.new.disk }
        ensures unchanged { result ≢ Err AppendError.Fault → OnErr result (self.new ≡ self.old) }
        ensures completes { self.old.closed ≡ None → (Rose (D.faults self.old.disk) (D.faults self.new.disk) → ⊥) → IsOk result }
        ensures ok { OnOk result ((self.old.closed ≡ None) × (self.new.closed ≡ None)
            × (self.new.slots ≡ with_offset (free_slot self.old.slots) (Some offset) self.old.slots)) }
        ensures slots_err { OnErr result (self.new.slots ≡ self.old.slots) }
        ensures same { (self.new.version ≡ self.old.version) × (self.new.kind ≡ self.old.kind) × (self.new.gate ≡ self.old.gate) × (self.new.count ≡ self.old.count) }
        ensures reads_nothing { D.honest → (D.state self.new.disk).bytes_read ≡ (D.state self.old.disk).bytes_read }
        ensures durable { D.honest → OnOk result (Only (D.state self.new.disk).content (D.state self.new.disk)) }

        // A crash at any moment leaves all bytes but those of the free slot, which is closed or has this offset.
        ensures any_moment { D.honest → self.old.closed ≡ None
            → LeavesOnly (D.state self.old.disk) (D.state self.new.disk) (IsSlotWrite (free_slot self.old.slots) (Some offset) (D.state self.old.disk).content) }
        // So it leaves the same payloads.
        ensures payloads { D.honest → self.old.closed ≡ None
            → (version kind : ℕ) (payloads : List (List ℕ)) → Holds (D.state self.old.disk).content version kind payloads
            → LeavesOnly (D.state self.old.disk) (D.state self.new.disk) (λ b. Holds b version kind payloads) }
    {
        if let Some(at) = self.closed {
            return Err(AppendError::Closed { at });
        }
        let free = self.slots.free();
        self.closed = Some(self.gate);
        if open_on(&mut self.disk, free, offset as u32).is_err() {
            return Err(AppendError::Fault);
        }
        self.slots = self.slots.with(free, Some(offset as u32));
        self.closed = None;
        Ok(())
    }
}

// Closes the slot whose gate is at this place, and syncs.
fn close<D: Disk>(disk: &mut D, gate: u64) -> Result<(), Failed>
    requires place { IsSlot gate }
    requires long { 16 ≤ D.len disk.old }
    ensures length { OnOk result (D.len disk.new ≡ D.len disk.old) }
    ensures cause { HasCause (D.faults disk.old) (D.faults disk.new) result }
    ensures bytes_read { D.honest → (D.state disk.new).bytes_read ≡ (D.state disk.old).bytes_read }
    ensures durable { D.honest → OnOk result (Only (D.state disk.new).content (D.state disk.new)) }
    ensures closed { D.honest → OnOk result (slot gate (D.state disk.new).content ≡ None) }
    ensures any_moment { D.honest → Only (D.state disk.old).content (D.state disk.old) → (offset : ℕ) → slot gate (D.state disk.old).content ≡ Some offset
        → LeavesOnly (D.state disk.old) (D.state disk.new) (IsSlotWrite gate (Some offset) (D.state disk.old).content) }
{
    put_through(disk, gate, &[CLOSED_GATE])
}

// Writes the offset of the closed slot whose gate is at this place, and syncs; then opens it, and syncs.
fn open_on<D: Disk>(disk: &mut D, gate: u64, offset: u32) -> Result<(), Failed>
    requires place { IsSlot gate }
    requires long { 16 ≤ D.len disk.old }
    ensures length { OnOk result (D.len disk.new ≡ D.len disk.old) }
    ensures cause { HasCause (D.faults disk.old) (D.faults disk.new) result }
    ensures bytes_read { D.honest → (D.state disk.new).bytes_read ≡ (D.state disk.old).bytes_read }
    ensures durable { D.honest → OnOk result (Only (D.state disk.new).content (D.state disk.new)) }
    ensures opened { D.honest → OnOk result (slot gate (D.state disk.new).content ≡ Some offset) }
    ensures any_moment { D.honest → Only (D.state disk.old).content (D.state disk.old) → slot gate (D.state disk.old).content ≡ None
        → LeavesOnly (D.state disk.old) (D.state disk.new) (IsSlotWrite gate (Some offset) (D.state disk.old).content) }
{
    put_through(disk, gate + 1, &offset.to_be_bytes())?;
    put_through(disk, gate, &[OPEN_GATE])
}
