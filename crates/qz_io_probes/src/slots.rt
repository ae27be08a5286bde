//! Openings of a tail, and slots.
ghost use Rattle.std.specs.Prelude.{◌≡◌, ◌≢◌, ◌↔◌, ◌⊎◌, ◌+◌, ◌-◌, ◌^◌, ◌<◌, ◌≤◌, List, ℕ, length, OnOk, OnErr, IfOk, IfErr, IsOk, MatchResult, Ok, Err, Some, None};
ghost use Rattle.qz_civil.specs.Causes.{Rose};
ghost use Rattle.qz_disk.specs.Disk.{Only, LeavesOnly};
ghost use Rattle.qz_journal.specs.Layout.{Holds, end_from};
ghost use Rattle.qz_journal.specs.Slots.{slots_of, slot_in_use, free_slot, offset_in, with_offset, IsSlotWrite, HasTrueSlots};
ghost use Rattle.qz_journal.specs.Tails.{start_of, IsTail, IsCounted, IsRest, IsTailRefused};
ghost use Rattle.qz_journal.specs.Through.{OnlyReads, OnlyReadsUnless};

use qz_civil::List;
use qz_disk::Disk;
use qz_journal::{AppendError, Journal, MountError};
use std::alloc::Global;

/// The place of the gate of the slot in use, as `Journal::slot` says.
pub fn slot<D: Disk>(journal: &Journal<D>) -> Option<u64>
    ensures { result ≡ slot_in_use journal.now.slots }
{
    journal.slot()
}

/// Opens the journal on a disk, as `Journal::mount_tail` does.
pub fn mount_tail<D: Disk>(
    alloc: Global,
    disk: D,
    kind: u8,
) -> Result<(Journal<D>, u64, List<List<u8>>), (MountError, D)>
    ensures stands { D.honest → IfOk result (λ r. IsTail (D.state r.0.disk).content r.0.version kind r.1 r.2) }
    ensures slots { D.honest → IfOk result (λ r. r.0.slots ≡ slots_of (D.state r.0.disk).content) }
    ensures ground { IfOk result (λ r. (r.0.kind ≡ kind) × (r.0.closed ≡ None) × (r.1 ≡ start_of r.0.slots)
        × (r.0.gate ≡ end_from r.1 r.2) × IsCounted (slot_in_use r.0.slots) r.0.count r.2) }
    ensures reads { D.honest → IfOk result (λ r. OnlyReads (D.state disk) (D.state r.0.disk)) }
    // No more is read than the header and what stands from the slot's offset on.
    ensures reads_tail { D.honest → MatchResult result
        (λ r. (D.state r.0.disk).bytes_read ≤ (D.state disk).bytes_read + (16 + (length (D.state disk).content - start_of (slots_of (D.state disk).content))))
        (λ e. (D.state e.1).bytes_read ≤ (D.state disk).bytes_read + (16 + (length (D.state disk).content - start_of (slots_of (D.state disk).content)))) }
    ensures reads_err { D.honest → IfErr result (λ e. OnlyReadsUnless (e.0 ≡ MountError.Fault) (D.state disk) (D.state e.1)) }
    ensures refused { D.honest → IfErr result (λ e. (payloads : List (List ℕ)) × IsTailRefused (D.state disk).content kind payloads e.0) }
    // If the bytes hold a list in some version, and their slots are true of it, then what was read is its rest, and gate and
    // count are those of the list; or memory or the disk fails.
    ensures whole { D.honest → (version : ℕ) (payloads : List (List ℕ)) → Holds (D.state disk).content version kind payloads → HasTrueSlots (D.state disk).content payloads
        → MatchResult result (λ r. (r.0.version ≡ version) × IsRest payloads r.2 r.1 r.0.gate r.0.count) (λ e. (e.0 ≡ MountError.Fault) ⊎ (e.0 ≡ MountError.NoMemory)) }
    ensures later { IfOk result (λ r. D.faults disk ≤ D.faults r.0.disk) }
    ensures fault { IfErr result (λ e. (D.faults disk ≤ D.faults e.1)
        × (e.0 ≡ MountError.Fault → Rose (D.faults disk) (D.faults e.1))) }
{
    Journal::mount_tail(alloc, disk, kind)
}

/// Opens the journal again, as `Journal::remount_tail` does.
pub fn remount_tail<D: Disk>(
    alloc: Global,
    journal: &mut Journal<D>,
) -> Result<(u64, List<List<u8>>), MountError>
    ensures stands { D.honest → IfOk result (λ r. IsTail (D.state journal.new.disk).content journal.new.version journal.old.kind r.0 r.1) }
    ensures slots { D.honest → OnOk result (journal.new.slots ≡ slots_of (D.state journal.new.disk).content) }
    ensures ground { IfOk result (λ r. (journal.new.closed ≡ None) × (r.0 ≡ start_of journal.new.slots)
        × (journal.new.gate ≡ end_from r.0 r.1) × IsCounted (slot_in_use journal.new.slots) journal.new.count r.1) }
    ensures closed { OnErr result ((journal.new.closed ≡ Some journal.old.gate) × (journal.new.version ≡ journal.old.version)
        × (journal.new.gate ≡ journal.old.gate) × (journal.new.count ≡ journal.old.count) × (journal.new.slots ≡ journal.old.slots)) }
    ensures same_kind { journal.new.kind ≡ journal.old.kind }
    ensures reads { D.honest → OnOk result (OnlyReads (D.state journal.old.disk) (D.state journal.new.disk)) }
    ensures reads_tail { D.honest → (D.state journal.new.disk).bytes_read
        ≤ (D.state journal.old.disk).bytes_read + (16 + (length (D.state journal.old.disk).content - start_of (slots_of (D.state journal.old.disk).content))) }
    ensures reads_err { D.honest → IfErr result (λ e. OnlyReadsUnless (e ≡ MountError.Fault) (D.state journal.old.disk) (D.state journal.new.disk)) }
    ensures refused { D.honest → IfErr result (λ e. (payloads : List (List ℕ)) × IsTailRefused (D.state journal.old.disk).content journal.old.kind payloads e) }
    ensures whole { D.honest → (version : ℕ) (payloads : List (List ℕ)) → Holds (D.state journal.old.disk).content version journal.old.kind payloads → HasTrueSlots (D.state journal.old.disk).content payloads
        → MatchResult result (λ r. (journal.new.version ≡ version) × IsRest payloads r.1 r.0 journal.new.gate journal.new.count) (λ e. (e ≡ MountError.Fault) ⊎ (e ≡ MountError.NoMemory)) }
    ensures later { D.faults journal.old.disk ≤ D.faults journal.new.disk }
    ensures fault { result ≡ Err MountError.Fault → Rose (D.faults journal.old.disk) (D.faults journal.new.disk) }
{
    journal.remount_tail(alloc)
}

/// Clears the free slot, as `Journal::clear_slot` does.
pub fn clear_slot<D: Disk>(journal: &mut Journal<D>) -> Result<(), AppendError>
    ensures closed { (at : ℕ) → (result ≡ Err (AppendError.Closed at)) ↔ (journal.old.closed ≡ Some at) }
    ensures never_full { (need room : ℕ) → result ≡ Err (AppendError.JournalFull need room) → ⊥ }
    ensures fault { result ≡ Err AppendError.Fault
        → Rose (D.faults journal.old.disk) (D.faults journal.new.disk) × (journal.old.closed ≡ None) × (journal.new.closed ≡ Some journal.old.gate) }
    ensures later { D.faults journal.old.disk ≤ D.faults journal.new.disk }
    ensures unchanged { result ≢ Err AppendError.Fault → OnErr result (journal.new ≡ journal.old) }
    ensures nothing_to_clear { offset_in journal.old.slots (free_slot journal.old.slots) ≡ None → journal.new ≡ journal.old }
    ensures completes { journal.old.closed ≡ None → (Rose (D.faults journal.old.disk) (D.faults journal.new.disk) → ⊥) → IsOk result }
    ensures ok { OnOk result ((journal.old.closed ≡ None) × (journal.new.closed ≡ None)
        × (journal.new.slots ≡ with_offset (free_slot journal.old.slots) None journal.old.slots)) }
    // The free slot stays the free one, and is closed.
    ensures free { OnOk result ((free_slot journal.new.slots ≡ free_slot journal.old.slots) × (offset_in journal.new.slots (free_slot journal.new.slots) ≡ None)) }
    ensures slots_err { OnErr result (journal.new.slots ≡ journal.old.slots) }
    ensures same { (journal.new.version ≡ journal.old.version) × (journal.new.kind ≡ journal.old.kind) × (journal.new.gate ≡ journal.old.gate) × (journal.new.count ≡ journal.old.count) }
    ensures reads_nothing { D.honest → (D.state journal.new.disk).bytes_read ≡ (D.state journal.old.disk).bytes_read }
    ensures durable { D.honest → OnOk result (Only (D.state journal.new.disk).content (D.state journal.new.disk)) }

    // A crash at any moment leaves all bytes but those of the free slot, which is closed or as it was.
    ensures any_moment { D.honest → journal.old.closed ≡ None
        → LeavesOnly (D.state journal.old.disk) (D.state journal.new.disk)
        (IsSlotWrite (free_slot journal.old.slots) (offset_in journal.old.slots (free_slot journal.old.slots)) (D.state journal.old.disk).content) }
    // So it leaves the same payloads.
    ensures payloads { D.honest → journal.old.closed ≡ None
        → (version kind : ℕ) (payloads : List (List ℕ)) → Holds (D.state journal.old.disk).content version kind payloads
        → LeavesOnly (D.state journal.old.disk) (D.state journal.new.disk) (λ b. Holds b version kind payloads) }
{
    journal.clear_slot()
}

/// Sets the free slot, as `Journal::set_slot` does.
pub fn set_slot<D: Disk>(journal: &mut Journal<D>, offset: u64) -> Result<(), AppendError>
    requires free { offset_in journal.old.slots (free_slot journal.old.slots) ≡ None }
    requires offset { offset < 2 ^ 32 }
    ensures closed { (at : ℕ) → (result ≡ Err (AppendError.Closed at)) ↔ (journal.old.closed ≡ Some at) }
    ensures never_full { (need room : ℕ) → result ≡ Err (AppendError.JournalFull need room) → ⊥ }
    ensures fault { result ≡ Err AppendError.Fault
        → Rose (D.faults journal.old.disk) (D.faults journal.new.disk) × (journal.old.closed ≡ None) × (journal.new.closed ≡ Some journal.old.gate) }
    ensures later { D.faults journal.old.disk ≤ D.faults journal.new.disk }
    ensures unchanged { result ≢ Err AppendError.Fault → OnErr result (journal.new ≡ journal.old) }
    ensures completes { journal.old.closed ≡ None → (Rose (D.faults journal.old.disk) (D.faults journal.new.disk) → ⊥) → IsOk result }
    ensures ok { OnOk result ((journal.old.closed ≡ None) × (journal.new.closed ≡ None)
        × (journal.new.slots ≡ with_offset (free_slot journal.old.slots) (Some offset) journal.old.slots)) }
    ensures slots_err { OnErr result (journal.new.slots ≡ journal.old.slots) }
    ensures same { (journal.new.version ≡ journal.old.version) × (journal.new.kind ≡ journal.old.kind) × (journal.new.gate ≡ journal.old.gate) × (journal.new.count ≡ journal.old.count) }
    ensures reads_nothing { D.honest → (D.state journal.new.disk).bytes_read ≡ (D.state journal.old.disk).bytes_read }
    ensures durable { D.honest → OnOk result (Only (D.state journal.new.disk).content (D.state journal.new.disk)) }

    // A crash at any moment leaves all bytes but those of the free slot, which is closed or has this offset.
    ensures any_moment { D.honest → journal.old.closed ≡ None
        → LeavesOnly (D.state journal.old.disk) (D.state journal.new.disk) (IsSlotWrite (free_slot journal.old.slots) (Some offset) (D.state journal.old.disk).content) }
    // So it leaves the same payloads.
    ensures payloads { D.honest → journal.old.closed ≡ None
        → (version kind : ℕ) (payloads : List (List ℕ)) → Holds (D.state journal.old.disk).content version kind payloads
        → LeavesOnly (D.state journal.old.disk) (D.state journal.new.disk) (λ b. Holds b version kind payloads) }
{
    journal.set_slot(offset)
}
