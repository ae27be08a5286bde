//! The payloads of a journal, read as a history.
ghost use Rattle.std.specs.Prelude.{◌≡◌, ◌≢◌, ◌⊎◌, ◌↔◌, ◌+◌, ◌^◌, ◌<◌, ℕ, [], false, IfOk, IfErr, IsTrue, Err, Some};
ghost use Rattle.qz_journal.specs.Layout.{end_from};
ghost use Rattle.qz_journal.specs.Slots.{slot_in_use};
ghost use Rattle.qz_stores.specs.Opening.{IsBase, IsUnfit, IsRead, IsStop, IsFirst, IsCut};
ghost use Rattle.qz_stores.specs.Replaying.{IsPassed, IsTaken, IsUnbegun};
ghost use Rattle.qz_stores.specs.declared.kinds.TakeError.TheVariants as take_error;

use crate::gates::gate_after;
use crate::{Kind, Reread, TakeError};
use qz_civil::List;
use qz_journal::{MountError, SalvagedTail};
use qz_logs::Log;
use std::alloc::Global;
use std::snapshot::Snapshot;

/// The history of a store of this version whose payloads these are, from the offset of the slot in use on, or from the first
/// gate. `Damaged` names that slot's gate where no snapshot that is taken begins there, else the gate of the first payload
/// that is no part of a snapshot and unfit.
pub(crate) fn replay<K: Kind>(
    alloc: Global,
    version: u8,
    slot: Option<u64>,
    start: u64,
    payloads: &List<List<u8>>,
) -> Result<Reread<K>, MountError>
    requires offsets { end_from start payloads.now < 2 ^ 64 }
    requires led { (gate : ℕ) → slot ≡ Some gate → payloads.now ≢ [] }
    ensures read { IfOk result (λ found. IsRead K.kind slot version payloads.now found.base_count (K.state found.base.value) found.entries.items) }
    ensures version { IfOk result (λ found. found.version ≡ version) }
    ensures stopped { IfErr result (IsStop K.kind slot version start payloads.now) }
{
    let mut reread = begin::<K>(alloc, version, slot, payloads)?;
    let mut gate = start;
    for payload in payloads.as_slice() {
        match add(alloc, reread, payload.as_slice()) {
            Ok(more) => reread = more,
            Err(TakeError::Unfit) => return Err(MountError::Damaged { at: gate }),
            Err(TakeError::NoMemory) => return Err(MountError::NoMemory),
        }
        gate = gate_after(gate, payload.as_slice());
    }
    Ok(reread)
}

// What the entries of these payloads begin with.
fn begin<K: Kind>(
    alloc: Global,
    version: u8,
    slot: Option<u64>,
    payloads: &List<List<u8>>,
) -> Result<Reread<K>, MountError>
    requires led { (gate : ℕ) → slot ≡ Some gate → payloads.now ≢ [] }
    ensures base { IfOk result (λ found. IsBase K.kind slot version payloads.now (K.state found.base.value) found.base_count) }
    ensures few { IfOk result (λ found. found.base_count < 2 ^ 32) }
    ensures version { IfOk result (λ found. found.version ≡ version) }
    ensures none { IfOk result (λ found. found.entries.items ≡ []) }
    ensures unread { IfErr result (IsUnbegun K.kind slot payloads.now) }
{
    let (state, entries) = match slot {
        None => (K::new(alloc, version), 0),
        Some(gate) => match K::read_base(alloc, payloads) {
            Ok(Some((state, entries))) => (state, u64::from(entries)),
            Ok(None) => return Err(MountError::Damaged { at: gate }),
            Err(_) => return Err(MountError::NoMemory),
        },
    };
    Ok(Reread {
        version,
        base_count: entries,
        base: Snapshot::of(&state),
        entries: Log::new(),
        count: entries,
        state,
    })
}

// Takes one payload more, if it is no part of a snapshot.
fn add<K: Kind>(alloc: Global, reread: Reread<K>, payload: &[u8]) -> Result<Reread<K>, TakeError>
    requires room { reread.count + 1 < 2 ^ 64 }
    ensures base { IfOk result (λ more. (more.version ≡ reread.version) × (more.base_count ≡ reread.base_count) × ((K.state more.base.value) ≡ (K.state reread.base.value))) }
    ensures ok { IfOk result (λ more. IsPassed K.kind payload.now reread.entries.items more.entries.items ⊎ IsTaken K.kind (K.state reread.state) payload.now reread.entries.items more.entries.items) }
    ensures unfit { result ≡ Err take_error.Unfit → (K.kind.is_part payload.now ≡ false) × IsUnfit K.kind (K.state reread.state) payload.now }
{
    if K::is_part(payload) {
        return Ok(reread);
    }
    let Reread {
        version,
        base_count,
        base,
        entries,
        count,
        mut state,
    } = reread;
    let entry = state.take(alloc, payload)?;
    let entries = Log::and(&entries, &entry);
    drop(entry);
    Ok(Reread {
        version,
        base_count,
        base,
        entries,
        count: count + 1,
        state,
    })
}

/// The first bad place of a journal that is damaged after what was salvaged, at this offset: where that cuts a snapshot off, it is this one.
pub(crate) fn first_bad<K: Kind>(alloc: Global, salvaged: &SalvagedTail, at: u64) -> MountError
    requires offsets { end_from salvaged.now.start salvaged.now.payloads < 2 ^ 64 }
    ensures { IsFirst K.kind (slot_in_use salvaged.now.slots) salvaged.now.version salvaged.now.start salvaged.now.payloads at result }
{
    if is_cut::<K>(salvaged) {
        return MountError::Damaged { at };
    }
    if salvaged.payloads.is_empty() {
        return MountError::Damaged { at };
    }
    match replay::<K>(
        alloc,
        salvaged.version,
        salvaged.slots.in_use(),
        salvaged.start,
        &salvaged.payloads,
    ) {
        Ok(_) => MountError::Damaged { at },
        Err(error) => error,
    }
}

// Whether a slot is in use, and the snapshot there goes on after what was salvaged.
fn is_cut<K: Kind>(salvaged: &SalvagedTail) -> bool
    ensures { IsTrue result ↔ IsCut K.kind (slot_in_use salvaged.now.slots) salvaged.now.payloads }
{
    match salvaged.slots.in_use() {
        None => false,
        Some(_) => K::are_cut_short(&salvaged.payloads),
    }
}
