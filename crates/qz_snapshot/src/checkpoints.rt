//! A snapshot into the journal.
ghost use Rattle.std.specs.Prelude.{◌≡◌, ◌≢◌, ◌↔◌, ◌⊎◌, ◌+◌, ◌^◌, ◌<◌, ◌≤◌, [], ◌++◌, ℕ, List as Items, All, OnOk, OnErr, IfErr, Ok, Err, Some, None, true, false, length};
ghost use Rattle.qz_civil.specs.Causes.{Rose};
ghost use Rattle.qz_disk.specs.Disk.{LeavesOnly};
ghost use Rattle.qz_journal.specs.Commits.{LackRoom, HaveRoom};
ghost use Rattle.qz_journal.specs.Groups.{TakesAny};
ghost use Rattle.qz_journal.specs.Layout.{Holds, IsPayload, blocks, end_of};
ghost use Rattle.qz_journal.specs.Slots.{IsSlotWrite, offset_in, with_offset, free_slot};
ghost use Rattle.qz_journal.specs.View.{disk_of, version_of, kind_of, gate_of, count_of, closed_at, slots_of, payloads_of};
ghost use Rattle.qz_model.specs.Invariant.{TablesValid};
ghost use Rattle.qz_snapshot.specs.Checkpoints.{snapshot_written, IsPartly, IsMidway};
ghost use Rattle.qz_snapshot.specs.Snapshots.{IsSnapshot};

use crate::payloads::payloads_of;
use qz_civil::{Failed, List};
use qz_disk::Disk;
use qz_journal::{AppendError, GROUP_LENGTH, Group, Journal};
use qz_tables::Tables;
use qz_types::SubmitError;
use std::alloc::Global;

/// Appends a snapshot of the tables, which so many entries left, and makes it the one in use. `Closed` is returned exactly
/// while the journal is closed. Then all memory is taken, so that after `NoMemory` nothing was done. The answer is false
/// exactly where the snapshot has no room, and nothing was done then. Else it is true, or `Fault` where the disk failed; the
/// journal is closed then. What it holds of the snapshot counts for its room from then on, after an opening too.
///
/// The payloads are appended first, in groups of 256 KiB at most, each with two syncs; then the free slot is cleared, if it is open,
/// and set.
pub fn checkpoint<D: Disk>(
    alloc: Global,
    journal: &mut Journal<D>,
    tables: &Tables,
    entries: u64,
) -> Result<bool, SubmitError>
    requires counted { entries ≤ count_of journal.old }
    requires valid { ∥ TablesValid tables.now.tables ∥₁ }
    ensures closed { (at : ℕ) → (result ≡ Err (SubmitError.Closed at)) ↔ (closed_at journal.old ≡ Some at) }
    ensures no_room { result ≡ Ok false → LackRoom (snapshot_written tables.now.tables (count_of journal.old) entries) (gate_of journal.old) (count_of journal.old) }
    ensures room { (result ≡ Ok true) ⊎ (result ≡ Err SubmitError.Fault) → HaveRoom (snapshot_written tables.now.tables (count_of journal.old) entries) (gate_of journal.old) (count_of journal.old) }
    ensures unchanged { result ≢ Ok true → result ≢ Err SubmitError.Fault → journal.new ≡ journal.old }
    ensures fault { result ≡ Err SubmitError.Fault → Rose (D.faults (disk_of journal.old)) (D.faults (disk_of journal.new)) × (closed_at journal.new ≡ Some (gate_of journal.new)) }
    ensures causes { IfErr result (λ e. ((at : ℕ) × (e ≡ SubmitError.Closed at)) ⊎ ((e ≡ SubmitError.NoMemory) ⊎ (e ≡ SubmitError.Fault))) }
    ensures later { D.faults (disk_of journal.old) ≤ D.faults (disk_of journal.new) }
    ensures more { count_of journal.old ≤ count_of journal.new }
    ensures same { (version_of journal.new ≡ version_of journal.old) × (kind_of journal.new ≡ kind_of journal.old) }
    // At true the journal is open, after the payloads of the snapshot.
    ensures ok { result ≡ Ok true → (closed_at journal.new ≡ None)
        × ((gate_of journal.new ≡ gate_of journal.old + length (blocks (snapshot_written tables.now.tables (count_of journal.old) entries)))
        × (count_of journal.new ≡ count_of journal.old + length (snapshot_written tables.now.tables (count_of journal.old) entries))) }
    ensures reads_nothing { D.honest → (D.state (disk_of journal.new)).bytes_read ≡ (D.state (disk_of journal.old)).bytes_read }
    // At true the payloads and then the snapshot stand, and the slot that was free leads to it.
    ensures stands { D.honest → (payloads : Items (Items ℕ)) → Holds (D.state (disk_of journal.old)).content (version_of journal.old) (kind_of journal.old) payloads
        → gate_of journal.old ≡ end_of payloads
        → result ≡ Ok true → Holds (D.state (disk_of journal.new)).content (version_of journal.old) (kind_of journal.old) (payloads ++ snapshot_written tables.now.tables (count_of journal.old) entries) }
    ensures slots { result ≡ Ok true → slots_of journal.new ≡ with_offset (free_slot (slots_of journal.old)) (Some (gate_of journal.old)) (slots_of journal.old) }
    // What was written is read as a snapshot of these tables.
    ensures snapshot { (result ≡ Ok true) ⊎ (result ≡ Err SubmitError.Fault) → IsSnapshot (snapshot_written tables.now.tables (count_of journal.old) entries) tables.now.tables (count_of journal.old) entries }
    // A crash at any moment of the call leaves the same entries, and slots that are true.
    ensures any_moment { D.honest → closed_at journal.old ≡ None → (payloads : Items (Items ℕ)) → Holds (D.state (disk_of journal.old)).content (version_of journal.old) (kind_of journal.old) payloads
        → gate_of journal.old ≡ end_of payloads
        → LeavesOnly (D.state (disk_of journal.old)) (D.state (disk_of journal.new))
        (IsMidway (version_of journal.old) (kind_of journal.old) (slots_of journal.old) payloads (snapshot_written tables.now.tables (count_of journal.old) entries)) }
{
    if let Some(at) = journal.closed() {
        return Err(SubmitError::Closed { at });
    }
    let offset = journal.gate();
    let count = journal.payloads();
    let Some(payloads) = payloads_of(alloc, tables, offset, count, entries)? else {
        return Ok(false);
    };
    let mut group = Group::with_capacity(alloc, GROUP_LENGTH)?;
    if put_snapshot(journal, &mut group, payloads.as_slice()).is_err() {
        return Err(SubmitError::Fault);
    }
    Ok(true)
}

// Appends these payloads, of which the first is a head, to an open journal in which they have room, and sets the free slot to
// their offset.
fn put_snapshot<D: Disk>(
    journal: &mut Journal<D>,
    group: &mut Group,
    payloads: &[List<u8>],
) -> Result<(), Failed>
    requires ready { closed_at journal.old ≡ None }
    requires group { (payloads_of group.old ≡ []) × TakesAny group.old }
    requires sizes { All IsPayload payloads.now }
    requires room { HaveRoom payloads.now (gate_of journal.old) (count_of journal.old) }
    requires place { gate_of journal.old < 2 ^ 32 }
    ensures later { D.faults (disk_of journal.old) ≤ D.faults (disk_of journal.new) }
    ensures more { count_of journal.old ≤ count_of journal.new }
    ensures fault { OnErr result (Rose (D.faults (disk_of journal.old)) (D.faults (disk_of journal.new)) × (closed_at journal.new ≡ Some (gate_of journal.new))) }
    ensures same { (version_of journal.new ≡ version_of journal.old) × (kind_of journal.new ≡ kind_of journal.old) }
    ensures ok { OnOk result ((closed_at journal.new ≡ None) × (gate_of journal.new ≡ gate_of journal.old + length (blocks payloads.now))
        × (count_of journal.new ≡ count_of journal.old + length payloads.now)) }
    ensures slots { OnOk result (slots_of journal.new ≡ with_offset (free_slot (slots_of journal.old)) (Some (gate_of journal.old)) (slots_of journal.old)) }
    ensures reads_nothing { D.honest → (D.state (disk_of journal.new)).bytes_read ≡ (D.state (disk_of journal.old)).bytes_read }
    ensures stands { D.honest → (all : Items (Items ℕ)) → Holds (D.state (disk_of journal.old)).content (version_of journal.old) (kind_of journal.old) all
        → gate_of journal.old ≡ end_of all
        → OnOk result (Holds (D.state (disk_of journal.new)).content (version_of journal.old) (kind_of journal.old) (all ++ payloads.now)) }
    ensures any_moment { D.honest → (all : Items (Items ℕ)) → Holds (D.state (disk_of journal.old)).content (version_of journal.old) (kind_of journal.old) all
        → gate_of journal.old ≡ end_of all
        → LeavesOnly (D.state (disk_of journal.old)) (D.state (disk_of journal.new))
        (IsMidway (version_of journal.old) (kind_of journal.old) (slots_of journal.old) all payloads.now) }
{
    let offset = journal.gate();
    append_each(journal, group, payloads)?;
    clear_free(journal)?;
    set_free(journal, offset)
}

// Closes the free slot, where it is open.
fn clear_free<D: Disk>(journal: &mut Journal<D>) -> Result<(), Failed>
    requires ready { closed_at journal.old ≡ None }
    ensures later { D.faults (disk_of journal.old) ≤ D.faults (disk_of journal.new) }
    ensures fault { OnErr result (Rose (D.faults (disk_of journal.old)) (D.faults (disk_of journal.new)) × (closed_at journal.new ≡ Some (gate_of journal.new))) }
    ensures same { (version_of journal.new ≡ version_of journal.old) × (kind_of journal.new ≡ kind_of journal.old) × (gate_of journal.new ≡ gate_of journal.old) × (count_of journal.new ≡ count_of journal.old) }
    ensures ok { OnOk result ((closed_at journal.new ≡ None) × (slots_of journal.new ≡ with_offset (free_slot (slots_of journal.old)) None (slots_of journal.old))) }
    ensures free { OnOk result ((free_slot (slots_of journal.new) ≡ free_slot (slots_of journal.old)) × (offset_in (slots_of journal.new) (free_slot (slots_of journal.new)) ≡ None)) }
    ensures reads_nothing { D.honest → (D.state (disk_of journal.new)).bytes_read ≡ (D.state (disk_of journal.old)).bytes_read }
    ensures any_moment { D.honest → LeavesOnly (D.state (disk_of journal.old)) (D.state (disk_of journal.new))
        (IsSlotWrite (free_slot (slots_of journal.old)) (offset_in (slots_of journal.old) (free_slot (slots_of journal.old))) (D.state (disk_of journal.old)).content) }
{
    match journal.clear_slot() {
        Ok(()) => Ok(()),
        Err(AppendError::Fault) => Err(Failed),
        Err(AppendError::Closed { at: _ }) => unreachable!(),
        Err(AppendError::JournalFull { need: _, room: _ }) => unreachable!(),
    }
}

// Writes this offset into the free slot, which is closed, and opens it.
fn set_free<D: Disk>(journal: &mut Journal<D>, offset: u64) -> Result<(), Failed>
    requires ready { closed_at journal.old ≡ None }
    requires free { offset_in (slots_of journal.old) (free_slot (slots_of journal.old)) ≡ None }
    requires offset { offset < 2 ^ 32 }
    ensures later { D.faults (disk_of journal.old) ≤ D.faults (disk_of journal.new) }
    ensures fault { OnErr result (Rose (D.faults (disk_of journal.old)) (D.faults (disk_of journal.new)) × (closed_at journal.new ≡ Some (gate_of journal.new))) }
    ensures same { (version_of journal.new ≡ version_of journal.old) × (kind_of journal.new ≡ kind_of journal.old) × (gate_of journal.new ≡ gate_of journal.old) × (count_of journal.new ≡ count_of journal.old) }
    ensures ok { OnOk result ((closed_at journal.new ≡ None) × (slots_of journal.new ≡ with_offset (free_slot (slots_of journal.old)) (Some offset) (slots_of journal.old))) }
    ensures reads_nothing { D.honest → (D.state (disk_of journal.new)).bytes_read ≡ (D.state (disk_of journal.old)).bytes_read }
    ensures any_moment { D.honest → LeavesOnly (D.state (disk_of journal.old)) (D.state (disk_of journal.new))
        (IsSlotWrite (free_slot (slots_of journal.old)) (Some offset) (D.state (disk_of journal.old)).content) }
{
    match journal.set_slot(offset) {
        Ok(()) => Ok(()),
        Err(AppendError::Fault) => Err(Failed),
        Err(AppendError::Closed { at: _ }) => unreachable!(),
        Err(AppendError::JournalFull { need: _, room: _ }) => unreachable!(),
    }
}

// Appends these payloads, in groups, to an open journal in which they have room.
fn append_each<D: Disk>(
    journal: &mut Journal<D>,
    group: &mut Group,
    payloads: &[List<u8>],
) -> Result<(), Failed>
    requires ready { closed_at journal.old ≡ None }
    requires group { (payloads_of group.old ≡ []) × TakesAny group.old }
    requires sizes { All IsPayload payloads.now }
    requires room { HaveRoom payloads.now (gate_of journal.old) (count_of journal.old) }
    ensures later { D.faults (disk_of journal.old) ≤ D.faults (disk_of journal.new) }
    ensures more { count_of journal.old ≤ count_of journal.new }
    ensures fault { OnErr result (Rose (D.faults (disk_of journal.old)) (D.faults (disk_of journal.new)) × (closed_at journal.new ≡ Some (gate_of journal.new))) }
    ensures same { (version_of journal.new ≡ version_of journal.old) × (kind_of journal.new ≡ kind_of journal.old) × (slots_of journal.new ≡ slots_of journal.old) }
    ensures ok { OnOk result ((closed_at journal.new ≡ None) × (gate_of journal.new ≡ gate_of journal.old + length (blocks payloads.now))
        × (count_of journal.new ≡ count_of journal.old + length payloads.now)) }
    ensures reads_nothing { D.honest → (D.state (disk_of journal.new)).bytes_read ≡ (D.state (disk_of journal.old)).bytes_read }
    ensures stands { D.honest → (all : Items (Items ℕ)) → Holds (D.state (disk_of journal.old)).content (version_of journal.old) (kind_of journal.old) all
        → gate_of journal.old ≡ end_of all
        → OnOk result (Holds (D.state (disk_of journal.new)).content (version_of journal.old) (kind_of journal.old) (all ++ payloads.now)) }
    ensures any_moment { D.honest → (all : Items (Items ℕ)) → Holds (D.state (disk_of journal.old)).content (version_of journal.old) (kind_of journal.old) all
        → gate_of journal.old ≡ end_of all
        → LeavesOnly (D.state (disk_of journal.old)) (D.state (disk_of journal.new))
        (IsPartly (version_of journal.old) (kind_of journal.old) (D.state (disk_of journal.old)).content all payloads.now) }
{
    journal.append_all(group, payloads)
}
