//! Opening the journal from the slot in use on.
ghost use Rattle.std.specs.Prelude.{◌≡◌, ◌⊎◌, ◌+◌, ◌-◌, ◌^◌, ◌<◌, ◌≤◌, ℕ, List, [], length, true, take, IfOk, IfErr, OnOk, OnErr, MatchResult, Err, Some, None, vec_capacity};
ghost use Rattle.qz_civil.specs.Causes.{Rose};
ghost use Rattle.qz_disk.specs.Disk.{Only};
ghost use Rattle.qz_journal.specs.Layout.{Holds, IsHeader, is_version, end_from};
ghost use Rattle.qz_journal.specs.Slots.{slots_of, slot_in_use, HasTrueSlots};
ghost use Rattle.qz_journal.specs.Tails.{start_of, IsTail, IsCounted, IsRest, IsTailRefused};
ghost use Rattle.qz_journal.specs.Through.{OnlyReads, OnlyReadsUnless};

use crate::layout::{HEADER_LENGTH, MAX_COMMIT, VERSION};
use crate::reading::Found;
use crate::tail_reading::{Tail, read_tail};
use crate::{Journal, MountError, Slots};
use qz_civil::List;
use qz_disk::Disk;
use std::alloc::Global;

/// What comes before the bad place of a journal that was read from the slot in use on.
#[derive(Drop)]
pub struct SalvagedTail {
    /// The version of the format that the header has: 1 or 2.
    pub version: u8,
    /// The slots of the header.
    pub slots: Slots,
    /// The offset, in bytes, of the gate before the first payload.
    pub start: u64,
    pub payloads: List<List<u8>>,
}

impl<D: Disk> Journal<D> {
    /// Opens the journal of this kind, `TRIGGERS` or `STATES`, on a disk as `mount` does, but reads payloads from the offset of
    /// the slot in use on alone, or from the first gate where no slot is open. It gives that offset and the payloads from
    /// there. The first of them, a head, says how many come before.
    ///
    /// `Damaged` names the gate of that slot exactly where its offset is less than 16 or more than the length, or no open gate
    /// stands there, or the payload there is shorter than 5 bytes or doesn't begin with F0. Else it names the least offset
    /// after that one at which a gate is missing, or is open and what follows it is cut.
    pub fn mount_tail(
        alloc: Global,
        disk: D,
        kind: u8,
    ) -> Result<(Journal<D>, u64, List<List<u8>>), (MountError, D)>
        ensures stands { D.honest → IfOk result (λ r. IsTail (D.state r.0.disk).content r.0.version kind r.1 r.2) }
        ensures slots { D.honest → IfOk result (λ r. r.0.slots ≡ slots_of (D.state r.0.disk).content) }
        ensures ground { IfOk result (λ r. (r.0.kind ≡ kind) × (r.0.closed ≡ None) × (r.1 ≡ start_of r.0.slots)
            × (r.0.gate ≡ end_from r.1 r.2) × IsCounted (slot_in_use r.0.slots) r.0.count r.2) }
        ensures reads { D.honest → IfOk result (λ r. OnlyReads (D.state disk) (D.state r.0.disk)) }
        // No more is read than the header and what stands from the slot's offset on.
        ensures reads_tail { D.honest → MatchResult result
            (λ r. (D.state r.0.disk).bytes_read ≤ (D.state disk).bytes_read + (16 + (length (D.state disk).content - start_of (slots_of (D.state disk).content))))
            (λ e. (D.state e.1).bytes_read ≤ (D.state disk).bytes_read + (16 + (length (D.state disk).content - start_of (slots_of (D.state disk).content)))) }
        ensures reads_err { D.honest → IfErr result (λ e. OnlyReadsUnless (e.0 ≡ MountError.Fault) (D.state disk) (D.state e.1)) }
        ensures refused { D.honest → IfErr result (λ e. (payloads : List (List ℕ)) × IsTailRefused (D.state disk).content kind payloads e.0) }
        // If the bytes hold a list in some version, and their slots are true of it, then what was read is its rest, and gate and
        // count are those of the list; or memory or the disk fails.
        ensures whole { D.honest → (version : ℕ) (payloads : List (List ℕ)) → Holds (D.state disk).content version kind payloads → HasTrueSlots (D.state disk).content payloads
            → MatchResult result (λ r. (r.0.version ≡ version) × IsRest payloads r.2 r.1 r.0.gate r.0.count) (λ e. (e.0 ≡ MountError.Fault) ⊎ (e.0 ≡ MountError.NoMemory)) }
        ensures later { IfOk result (λ r. D.faults disk ≤ D.faults r.0.disk) }
        ensures fault { IfErr result (λ e. (D.faults disk ≤ D.faults e.1)
            × (e.0 ≡ MountError.Fault → Rose (D.faults disk) (D.faults e.1))) }
    {
        match Journal::mount_tail_or_salvage(alloc, disk, kind) {
            Ok(mounted) => Ok(mounted),
            Err((error, _salvaged, disk)) => Err((error, disk)),
        }
    }

    /// Opens a journal as `mount_tail` does. Where it is damaged, it also hands out its version, its slots and the payloads before
    /// the bad place, for a caller that has to see whether an earlier one of them is bad in its own way. All else that is
    /// refused comes with no payloads, from the first gate on, with closed slots, and with the version that is written today.
    pub fn mount_tail_or_salvage(
        alloc: Global,
        mut disk: D,
        kind: u8,
    ) -> Result<(Journal<D>, u64, List<List<u8>>), (MountError, SalvagedTail, D)>
        ensures stands { D.honest → IfOk result (λ r. IsTail (D.state r.0.disk).content r.0.version kind r.1 r.2) }
        ensures slots { D.honest → IfOk result (λ r. r.0.slots ≡ slots_of (D.state r.0.disk).content) }
        ensures ground { IfOk result (λ r. (r.0.kind ≡ kind) × (r.0.closed ≡ None) × (r.1 ≡ start_of r.0.slots)
            × (r.0.gate ≡ end_from r.1 r.2) × IsCounted (slot_in_use r.0.slots) r.0.count r.2) }
        ensures reads { D.honest → IfOk result (λ r. OnlyReads (D.state disk) (D.state r.0.disk)) }
        ensures reads_tail { D.honest → MatchResult result
            (λ r. (D.state r.0.disk).bytes_read ≤ (D.state disk).bytes_read + (16 + (length (D.state disk).content - start_of (slots_of (D.state disk).content))))
            (λ e. (D.state e.2).bytes_read ≤ (D.state disk).bytes_read + (16 + (length (D.state disk).content - start_of (slots_of (D.state disk).content)))) }
        ensures reads_err { D.honest → IfErr result (λ e. OnlyReadsUnless (e.0 ≡ MountError.Fault) (D.state disk) (D.state e.2)) }
        ensures refused { D.honest → IfErr result (λ e. IsTailRefused (D.state disk).content kind e.1.payloads e.0) }
        // after the header: version and slots are those of the header, and the payloads begin at the slot's offset
        ensures version { D.honest → IfErr result (λ e. (at : ℕ) → e.0 ≡ MountError.Damaged at → 16 ≤ at
            → IsHeader e.1.version kind (take 16 (D.state disk).content) × (e.1.slots ≡ slots_of (D.state disk).content) × (e.1.start ≡ start_of (slots_of (D.state disk).content))) }
        // the place after the payloads is an offset
        ensures place { IfErr result (λ e. end_from e.1.start e.1.payloads < 2 ^ 64) }
        ensures known { IfErr result (λ e. is_version e.1.version ≡ true) }
        ensures later { IfOk result (λ r. D.faults disk ≤ D.faults r.0.disk) }
        ensures fault { IfErr result (λ e. (D.faults disk ≤ D.faults e.2)
            × (e.0 ≡ MountError.Fault → Rose (D.faults disk) (D.faults e.2))) }
    {
        let tail = match read_tail(alloc, &mut disk, kind) {
            Ok(tail) => tail,
            Err(error) => return Err((error, no_tail(alloc), disk)),
        };
        let Tail {
            start,
            count,
            found,
        } = tail;
        let Found {
            version,
            slots,
            payloads,
            gate,
            is_whole,
        } = found;
        if !is_whole {
            let salvaged = SalvagedTail {
                version,
                slots,
                start,
                payloads,
            };
            return Err((MountError::Damaged { at: gate }, salvaged, disk));
        }
        let Ok(commit) = Vec::with_capacity(alloc, MAX_COMMIT) else {
            return Err((MountError::NoMemory, no_tail(alloc), disk));
        };
        let journal = Journal {
            disk,
            version,
            kind,
            gate,
            count,
            slots,
            closed: None,
            commit,
        };
        Ok((journal, start, payloads))
    }

    /// Opens the journal on the disk from the slot in use on, as `mount_tail` does: the second half of a restart. Its version is
    /// then that of the header. After an `Err` the journal is closed.
    pub fn remount_tail(&mut self, alloc: Global) -> Result<(u64, List<List<u8>>), MountError>
        ensures stands { D.honest → IfOk result (λ r. IsTail (D.state self.new.disk).content self.new.version self.old.kind r.0 r.1) }
        ensures slots { D.honest → OnOk result (self.new.slots ≡ slots_of (D.state self.new.disk).content) }
        ensures ground { IfOk result (λ r. (self.new.closed ≡ None) × (r.0 ≡ start_of self.new.slots)
            × (self.new.gate ≡ end_from r.0 r.1) × IsCounted (slot_in_use self.new.slots) self.new.count r.1) }
        ensures closed { OnErr result ((self.new.closed ≡ Some self.old.gate) × (self.new.version ≡ self.old.version)
            × (self.new.gate ≡ self.old.gate) × (self.new.count ≡ self.old.count) × (self.new.slots ≡ self.old.slots)) }
        ensures same_kind { self.new.kind ≡ self.old.kind }
        ensures reads { D.honest → OnOk result (OnlyReads (D.state self.old.disk) (D.state self.new.disk)) }
        ensures reads_tail { D.honest → (D.state self.new.disk).bytes_read
            ≤ (D.state self.old.disk).bytes_read + (16 + (length (D.state self.old.disk).content - start_of (slots_of (D.state self.old.disk).content))) }
        ensures reads_err { D.honest → IfErr result (λ e. OnlyReadsUnless (e ≡ MountError.Fault) (D.state self.old.disk) (D.state self.new.disk)) }
        ensures refused { D.honest → IfErr result (λ e. (payloads : List (List ℕ)) × IsTailRefused (D.state self.old.disk).content self.old.kind payloads e) }
        ensures whole { D.honest → (version : ℕ) (payloads : List (List ℕ)) → Holds (D.state self.old.disk).content version self.old.kind payloads → HasTrueSlots (D.state self.old.disk).content payloads
            → MatchResult result (λ r. (self.new.version ≡ version) × IsRest payloads r.1 r.0 self.new.gate self.new.count) (λ e. (e ≡ MountError.Fault) ⊎ (e ≡ MountError.NoMemory)) }
        ensures later { D.faults self.old.disk ≤ D.faults self.new.disk }
        ensures fault { result ≡ Err MountError.Fault → Rose (D.faults self.old.disk) (D.faults self.new.disk) }
    {
        self.closed = Some(self.gate);
        let Tail {
            start,
            count,
            found,
        } = read_tail(alloc, &mut self.disk, self.kind)?;
        let Found {
            version,
            slots,
            payloads,
            gate,
            is_whole,
        } = found;
        if !is_whole {
            return Err(MountError::Damaged { at: gate });
        }
        self.version = version;
        self.gate = gate;
        self.count = count;
        self.slots = slots;
        self.closed = None;
        Ok((start, payloads))
    }
}

// Where nothing was salvaged.
fn no_tail(alloc: Global) -> SalvagedTail
    ensures payloads { result.payloads ≡ [] }
    ensures start { result.start ≡ 16 }
    ensures version { result.version ≡ VERSION }
{
    SalvagedTail {
        version: VERSION,
        slots: Slots { a: None, b: None },
        start: HEADER_LENGTH as u64,
        payloads: List::new(alloc),
    }
}
