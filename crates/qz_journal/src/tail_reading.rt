//! The bytes of a store, read from the slot in use on.
ghost use Rattle.std.specs.Prelude.{◌≡◌, ◌⊎◌, ◌+◌, ◌-◌, ◌≤◌, ◌<◌, ◌^◌, ℕ, List as Items, All, length, max, take, IfOk, IfErr, IfSome, IfNone, OnOk, OnErr, Ok, Err, Some, true, false};
ghost use Rattle.qz_civil.specs.Causes.{Rose};
ghost use Rattle.qz_disk.specs.Disk.{Only};
ghost use Rattle.qz_journal.specs.Layout.{is_version, IsHeader, IsPayload, end_from};
ghost use Rattle.qz_journal.specs.Opening.{EndsAt};
ghost use Rattle.qz_journal.specs.Slots.{slots_of, slot_in_use, number_at, IsHead};
ghost use Rattle.qz_journal.specs.Tails.{start_of, IsTail, IsCounted, IsMisled, IsDamagedTail, IsTailRefused, IsLed, HasNoHead};
ghost use Rattle.qz_journal.specs.Through.{OnlyReads, OnlyReadsUnless, ReadsBetween};

use crate::layout::{HEAD, HEAD_LENGTH, HEADER_LENGTH};
use crate::reading::{Found, Header, read_blocks, read_header, synced_length};
use crate::{MountError, Slots};
use qz_disk::Disk;
use std::alloc::Global;

// What was read from the slot in use on: where it begins, what its gates lead to, and how many payloads stand in all.
#[derive(Drop)]
pub(crate) struct Tail {
    pub(crate) start: u64,
    pub(crate) count: u64,
    pub(crate) found: Found,
}

// Syncs, and reads from the slot in use on until a gate is closed or bad.
pub(crate) fn read_tail<D: Disk>(alloc: Global, disk: &mut D, kind: u8) -> Result<Tail, MountError>
    ensures start { IfOk result (λ t. (t.start ≡ start_of t.found.slots) × (16 ≤ t.start)) }
    ensures slots { D.honest → IfOk result (λ t. t.found.slots ≡ slots_of (D.state disk.old).content) }
    ensures version { IfOk result (λ t. is_version t.found.version ≡ true) }
    ensures header { D.honest → IfOk result (λ t. IsHeader t.found.version kind (take 16 (D.state disk.old).content)) }
    ensures gate { IfOk result (λ t. t.found.gate ≡ end_from t.start t.found.payloads) }
    ensures inside { IfOk result (λ t. t.found.is_whole ≡ true → t.found.gate < D.len disk.new) }
    ensures counted { IfOk result (λ t. t.found.is_whole ≡ true → IsCounted (slot_in_use t.found.slots) t.count t.found.payloads) }
    ensures whole { D.honest → IfOk result (λ t. t.found.is_whole ≡ true → IsTail (D.state disk.old).content t.found.version kind t.start t.found.payloads) }
    ensures damaged { D.honest → IfOk result (λ t. t.found.is_whole ≡ false → IsTailRefused (D.state disk.old).content kind t.found.payloads (MountError.Damaged t.found.gate)) }
    ensures durable { D.honest → OnOk result (Only (D.state disk.new).content (D.state disk.new)) }
    ensures reads { D.honest → OnOk result (OnlyReads (D.state disk.old) (D.state disk.new)) }
    ensures reads_tail { D.honest → (D.state disk.new).bytes_read ≤ (D.state disk.old).bytes_read + (16 + (length (D.state disk.old).content - start_of (slots_of (D.state disk.old).content))) }
    ensures reads_err { D.honest → IfErr result (λ e. OnlyReadsUnless (e ≡ MountError.Fault) (D.state disk.old) (D.state disk.new)) }
    ensures refused { D.honest → (payloads : Items (Items ℕ)) → IfErr result (IsTailRefused (D.state disk.old).content kind payloads) }
    ensures later { D.faults disk.old ≤ D.faults disk.new }
    ensures fault { result ≡ Err MountError.Fault → Rose (D.faults disk.old) (D.faults disk.new) }
{
    let Ok(len) = synced_length(disk) else {
        return Err(MountError::Fault);
    };
    let header = read_header(disk, len, kind)?;
    read_from_slot(alloc, disk, len, header)
}

// The tail of a disk of this length that begins with this header.
fn read_from_slot<D: Disk>(
    alloc: Global,
    disk: &mut D,
    len: u64,
    header: Header,
) -> Result<Tail, MountError>
    requires length { len ≡ D.len disk.old }
    requires long { 16 ≤ len }
    ensures length { D.len disk.new ≡ D.len disk.old }
    ensures header { IfOk result (λ t. (t.found.version ≡ header.version) × (t.found.slots ≡ header.slots)) }
    ensures start { IfOk result (λ t. (t.start ≡ start_of header.slots) × (16 ≤ t.start)) }
    ensures gate { IfOk result (λ t. t.found.gate ≡ end_from t.start t.found.payloads) }
    ensures inside { IfOk result (λ t. t.found.is_whole ≡ true → t.found.gate < len) }
    ensures sizes { IfOk result (λ t. All IsPayload t.found.payloads) }
    ensures ends { D.honest → IfOk result (λ t. EndsAt (D.state disk.old).content t.start t.found.payloads t.found.is_whole) }
    ensures counted { IfOk result (λ t. t.found.is_whole ≡ true → IsCounted (slot_in_use header.slots) t.count t.found.payloads) }
    ensures led { D.honest → IfOk result (λ _. (gate : ℕ) → IsMisled (D.state disk.old).content header.slots gate → ⊥) }
    ensures misled { D.honest → (at : ℕ) → result ≡ Err (MountError.Damaged at) → IsMisled (D.state disk.old).content header.slots at }
    ensures reads { D.honest → ReadsBetween 0 (len - max 16 (start_of header.slots)) (D.state disk.old) (D.state disk.new) }
    ensures store { result ≡ Err MountError.NotAStore → ⊥ }
    ensures fault { result ≡ Err MountError.Fault → Rose (D.faults disk.old) (D.faults disk.new) }
    ensures later { D.faults disk.old ≤ D.faults disk.new }
{
    let start = start_inside(&header.slots, len)?;
    let found = read_blocks(alloc, disk, len, start, header)?;
    let count = count_of(&header.slots, &found)?;
    Ok(Tail {
        start,
        count,
        found,
    })
}

// Where a tail begins in a store of this length, unless the slot in use has an offset that is no gate's.
fn start_inside(slots: &Slots, len: u64) -> Result<u64, MountError>
    requires { 16 ≤ len }
    ensures start { IfOk result (λ s. (s ≡ start_of slots.now) × (16 ≤ s) × (s ≤ len)) }
    ensures inside { IfOk result (λ s. (gate : ℕ) → slot_in_use slots.now ≡ Some gate → s < len) }
    ensures astray { IfErr result (λ e. (at : ℕ) × (e ≡ MountError.Damaged at) × (slot_in_use slots.now ≡ Some at) × ((start_of slots.now < 16) ⊎ (len ≤ start_of slots.now))) }
{
    let start = slots.start();
    let Some(at) = slots.in_use() else {
        return Ok(start);
    };
    if start < HEADER_LENGTH as u64 || len <= start {
        return Err(MountError::Damaged { at });
    }
    Ok(start)
}

// How many payloads stand, unless the slot in use leads to no head.
fn count_of(slots: &Slots, found: &Found) -> Result<u64, MountError>
    ensures counted { IfOk result (λ n. found.now.is_whole ≡ true → IsCounted (slot_in_use slots.now) n found.now.payloads) }
    ensures led { IfOk result (λ _. IsLed (slot_in_use slots.now) found.now.payloads found.now.is_whole) }
    ensures misled { IfErr result (λ e. (at : ℕ) × (e ≡ MountError.Damaged at) × (slot_in_use slots.now ≡ Some at) × HasNoHead found.now.payloads found.now.is_whole) }
{
    let payloads = found.payloads.as_slice();
    let count = payloads.len() as u64;
    let Some(at) = slots.in_use() else {
        return Ok(count);
    };
    let Some((head, _)) = payloads.split_first() else {
        if found.is_whole {
            return Err(MountError::Damaged { at });
        }
        return Ok(0);
    };
    match number_before(head.as_slice()) {
        Some(before) => Ok(u64::from(before) + count),
        None => Err(MountError::Damaged { at }),
    }
}

// How many payloads come before this head, as it says; None where it is no head.
fn number_before(head: &[u8]) -> Option<u32>
    ensures some { IfSome result (λ n. IsHead head.now × (n ≡ number_at 1 head.now)) }
    ensures none { IfNone result (IsHead head.now → ⊥) }
{
    if head.len() < HEAD_LENGTH || head[0] != HEAD {
        return None;
    }
    let (_, behind) = head.split_at(1);
    let (number, _) = behind.split_at(4);
    Some(u32::from_be_bytes([number[0], number[1], number[2], number[3]]))
}
