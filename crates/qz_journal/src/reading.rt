//! The bytes of a store, read no further than its gates lead.
ghost use Rattle.std.specs.Prelude.{◌≡◌, ◌⊎◌, ◌+◌, ◌-◌, ◌≤◌, ◌<◌, ◌++◌, ◌^◌, ⊤, ℕ, List as Items, All, length, take, drop, min, IfOk, IfErr, OnOk, OnErr, Ok, Err, true, false};
ghost use Rattle.qz_civil.specs.Causes.{Rose, HasCause};
ghost use Rattle.qz_disk.specs.Disk.{Only, LeavesOnly};
ghost use Rattle.qz_journal.specs.Layout.{is_version, IsHeader, IsPayload, Holds, blocks, end_from, end_of};
ghost use Rattle.qz_journal.specs.Opening.{EndsAt, IsDamagedBehind, IsRefusedBehind};
ghost use Rattle.qz_journal.specs.Slots.{slots_of};
ghost use Rattle.qz_journal.specs.Through.{OnlyReads, OnlyReadsUnless, ReadsBetween};

use crate::MountError;
use crate::layout::{HEADER_LENGTH, MAX_BLOCK, WINDOW, version_of};
use crate::parsing::take_blocks;
use crate::slots::{Slots, slots_in};
use qz_civil::{Failed, List};
use qz_disk::Disk;
use std::alloc::Global;

// What the header of a store says.
#[derive(Clone, Copy)]
pub(crate) struct Header {
    pub(crate) version: u8,
    pub(crate) slots: Slots,
}

// What the header of a store says, and what its gates lead to: payloads, and after them a closed gate or a bad place, at the
// offset `gate`.
#[derive(Drop)]
pub(crate) struct Found {
    pub(crate) version: u8,
    pub(crate) slots: Slots,
    pub(crate) payloads: List<List<u8>>,
    pub(crate) gate: u64,
    pub(crate) is_whole: bool,
}

// Syncs, and reads from the header on until a gate is closed or bad, no more than a window past it.
pub(crate) fn read_payloads<D: Disk>(
    alloc: Global,
    disk: &mut D,
    kind: u8,
) -> Result<Found, MountError>
    ensures whole { D.honest → IfOk result (λ f. f.is_whole ≡ true → Holds (D.state disk.old).content f.version kind f.payloads) }
    ensures version { IfOk result (λ f. is_version f.version ≡ true) }
    ensures header { D.honest → IfOk result (λ f. IsHeader f.version kind (take 16 (D.state disk.old).content)) }
    ensures slots { D.honest → IfOk result (λ f. f.slots ≡ slots_of (D.state disk.old).content) }
    ensures damaged { D.honest → IfOk result (λ f. f.is_whole ≡ false → IsDamagedBehind (D.state disk.old).content kind f.payloads f.gate) }
    ensures gate { IfOk result (λ f. f.gate ≡ end_of f.payloads) }
    ensures inside { IfOk result (λ f. f.is_whole ≡ true → f.gate < D.len disk.new) }
    ensures durable { D.honest → OnOk result (Only (D.state disk.new).content (D.state disk.new)) }
    ensures reads { D.honest → OnOk result (OnlyReads (D.state disk.old) (D.state disk.new)) }
    ensures reads_ahead { D.honest → IfOk result (λ f. (D.state disk.new).bytes_read ≤ (D.state disk.old).bytes_read + (end_of f.payloads + WINDOW)) }
    ensures reads_err { D.honest → IfErr result (λ e. OnlyReadsUnless (e ≡ MountError.Fault) (D.state disk.old) (D.state disk.new)) }
    ensures refused { D.honest → (payloads : Items (Items ℕ)) → IfErr result (IsRefusedBehind (D.state disk.old).content kind payloads) }
    ensures later { D.faults disk.old ≤ D.faults disk.new }
    ensures fault { result ≡ Err MountError.Fault → Rose (D.faults disk.old) (D.faults disk.new) }
{
    let Ok(len) = synced_length(disk) else {
        return Err(MountError::Fault);
    };
    let header = read_header(disk, len, kind)?;
    read_blocks(alloc, disk, len, HEADER_LENGTH as u64, header)
}

// Syncs, and asks for the length.
pub(crate) fn synced_length<D: Disk>(disk: &mut D) -> Result<u64, Failed>
    ensures length { IfOk result (λ n. n ≡ D.len disk.new) }
    ensures durable { D.honest → OnOk result (Only (D.state disk.new).content (D.state disk.new)) }
    ensures content { D.honest → OnOk result ((D.state disk.new).content ≡ (D.state disk.old).content) }
    ensures any_moment { D.honest → LeavesOnly (D.state disk.old) (D.state disk.new) (D.state disk.old).IsImage }
    ensures bytes_read { D.honest → (D.state disk.new).bytes_read ≡ (D.state disk.old).bytes_read }
    ensures cause { HasCause (D.faults disk.old) (D.faults disk.new) result }
{
    disk.sync()?;
    disk.len()
}

// The header, of a store of this kind, with which the disk, of this length, begins.
#[tactic(auto, using(crate::proofs::Headers::too_short))]
pub(crate) fn read_header<D: Disk>(disk: &mut D, len: u64, kind: u8) -> Result<Header, MountError>
    requires { len ≡ D.len disk.old }
    ensures length { D.len disk.new ≡ D.len disk.old }
    ensures long { OnOk result (16 ≤ len) }
    ensures header { D.honest → IfOk result (λ h. IsHeader h.version kind (take 16 (D.state disk.old).content)) }
    ensures slots { D.honest → IfOk result (λ h. h.slots ≡ slots_of (D.state disk.old).content) }
    ensures known { IfOk result (λ h. is_version h.version ≡ true) }
    ensures reads { D.honest → OnOk result (ReadsBetween 0 16 (D.state disk.old) (D.state disk.new)) }
    ensures reads_err { D.honest → OnErr result (ReadsBetween 0 (min 16 len) (D.state disk.old) (D.state disk.new)) }
    ensures refused { D.honest → (payloads : Items (Items ℕ)) → IfErr result (IsRefusedBehind (D.state disk.old).content kind payloads) }
    ensures later { D.faults disk.old ≤ D.faults disk.new }
    ensures fault { result ≡ Err MountError.Fault → Rose (D.faults disk.old) (D.faults disk.new) }
{
    if len < HEADER_LENGTH as u64 {
        return Err(MountError::NotAStore);
    }
    let mut front = [0; HEADER_LENGTH];
    if disk.read(0, &mut front).is_err() {
        return Err(MountError::Fault);
    }
    match version_of(kind, &front) {
        Some(version) => Ok(Header {
            version,
            slots: slots_in(&front),
        }),
        None => Err(MountError::NotAStore),
    }
}

// The payloads from this offset on, of a disk of this length with this header.
pub(crate) fn read_blocks<D: Disk>(
    alloc: Global,
    disk: &mut D,
    len: u64,
    start: u64,
    header: Header,
) -> Result<Found, MountError>
    requires length { len ≡ D.len disk.old }
    requires long { start ≤ len }
    ensures length { D.len disk.new ≡ D.len disk.old }
    ensures version { IfOk result (λ f. f.version ≡ header.version) }
    ensures slots { IfOk result (λ f. f.slots ≡ header.slots) }
    ensures gate { IfOk result (λ f. f.gate ≡ end_from start f.payloads) }
    ensures inside { IfOk result (λ f. f.is_whole ≡ true → f.gate < len) }
    ensures sizes { IfOk result (λ f. All IsPayload f.payloads) }
    ensures ends { D.honest → IfOk result (λ f. EndsAt (D.state disk.old).content start f.payloads f.is_whole) }
    ensures reads { D.honest → IfOk result (λ f. ReadsBetween start (min len (end_from start f.payloads + WINDOW)) (D.state disk.old) (D.state disk.new)) }
    ensures reads_err { D.honest → OnErr result (ReadsBetween start len (D.state disk.old) (D.state disk.new)) }
    ensures err { IfErr result (λ e. (e ≡ MountError.NoMemory) ⊎ ((e ≡ MountError.Fault) × Rose (D.faults disk.old) (D.faults disk.new))) }
    ensures later { D.faults disk.old ≤ D.faults disk.new }
{
    let Header { version, slots } = header;
    let mut payloads = List::new(alloc);
    let mut window = Vec::new(alloc);
    // the offset after the window
    let mut position = start;
    'pieces: loop {
        let (rest, is_whole) = take_blocks(alloc, &mut payloads, &window)?;
        if is_whole || rest.len() >= MAX_BLOCK || position == len {
            return Ok(Found {
                version,
                slots,
                payloads,
                gate: position - rest.len() as u64,
                is_whole,
            });
        }
        let more = (len - position).min((WINDOW - rest.len()) as u64);
        let longer = read_on(alloc, disk, position, rest, more as usize)?;
        window = longer;
        position += more;
    }
}

// These bytes, and after them so many of the disk's from an offset on.
fn read_on<D: Disk>(
    alloc: Global,
    disk: &mut D,
    at: u64,
    rest: &[u8],
    more: usize,
) -> Result<Vec<u8>, MountError>
    requires inside { at + more ≤ D.len disk.old }
    requires fits { length rest.now + more ≤ WINDOW }
    ensures length { D.len disk.new ≡ D.len disk.old }
    ensures size { IfOk result (λ bytes. length bytes.items ≡ length rest.now + more) }
    ensures bytes { D.honest → IfOk result (λ bytes. bytes.items ≡ rest.now ++ take more (drop at (D.state disk.old).content)) }
    ensures reads { D.honest → ReadsBetween at (at + more) (D.state disk.old) (D.state disk.new) }
    ensures err { IfErr result (λ e. (e ≡ MountError.NoMemory) ⊎ ((e ≡ MountError.Fault) × Rose (D.faults disk.old) (D.faults disk.new))) }
    ensures later { D.faults disk.old ≤ D.faults disk.new }
{
    let mut bytes = Vec::from_slice(alloc, rest)?;
    bytes.resize(rest.len() + more, 0)?;
    if disk.read(at, &mut bytes[rest.len()..]).is_err() {
        return Err(MountError::Fault);
    }
    Ok(bytes)
}
