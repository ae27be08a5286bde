//! Opening the journal on a disk.
ghost use Rattle.std.specs.Prelude.{◌≡◌, true, take, ◌+◌, ◌^◌, ◌<◌, ◌≤◌, ℕ, List, [], length, IfOk, IfErr, MatchResult, OnOk, OnErr, Some, None, Ok, Err, ◌⊎◌, vec_len, vec_capacity};
ghost use Rattle.qz_civil.specs.Causes.{Rose, HasCause};
ghost use Rattle.qz_disk.specs.Disk.{Only, LeavesOnly, Restarts};
ghost use Rattle.qz_journal.specs.Layout.{Holds, IsHeader, is_version, end_of};
ghost use Rattle.qz_journal.specs.Opening.{IsRefused, IsRefusedBehind};
ghost use Rattle.qz_journal.specs.Slots.{slots_of};
ghost use Rattle.qz_journal.specs.Through.{OnlyReads, OnlyReadsUnless};

use crate::layout::{MAX_COMMIT, VERSION, WINDOW};
use crate::reading::{Found, read_payloads};
use crate::{Journal, MountError};
use qz_civil::{Failed, List};
use qz_disk::Disk;
use std::alloc::Global;

/// What comes before the bad place of a damaged journal.
#[derive(Drop)]
pub struct Salvaged {
    /// The version of the format that the header has: 1 or 2.
    pub version: u8,
    pub payloads: List<List<u8>>,
}

impl<D: Disk> Journal<D> {
    /// Opens the journal of this kind, `TRIGGERS` or `STATES`, on a disk, and gives all its payloads, wherever its slots lead.
    /// Its version is then that of the header, 1 or 2. The call syncs first, so that what it reads is what a crash leaves, and writes nothing. An `Err`
    /// hands the disk back.
    pub fn mount(
        alloc: Global,
        disk: D,
        kind: u8,
    ) -> Result<(Journal<D>, List<List<u8>>), (MountError, D)>
        ensures stands { D.honest → IfOk result (λ r. Holds (D.state r.0.disk).content r.0.version kind r.1) }
        ensures slots { D.honest → IfOk result (λ r. r.0.slots ≡ slots_of (D.state r.0.disk).content) }
        ensures ground { IfOk result (λ r. (r.0.kind ≡ kind) × (r.0.closed ≡ None)
            × (r.0.gate ≡ end_of r.1) × (r.0.count ≡ length r.1)) }
        ensures reads { D.honest → IfOk result (λ r. OnlyReads (D.state disk) (D.state r.0.disk)) }
        // No more is read than the gates lead to, and so far past the closed one.
        ensures reads_ahead { D.honest → IfOk result (λ r. (D.state r.0.disk).bytes_read ≤ (D.state disk).bytes_read + (end_of r.1 + WINDOW)) }
        ensures reads_err { D.honest → IfErr result (λ e. OnlyReadsUnless (e.0 ≡ MountError.Fault) (D.state disk) (D.state e.1)) }
        ensures refused { D.honest → IfErr result (λ e. IsRefused (D.state disk).content kind e.0) }
        // If the bytes hold a list in some version, it is that list in that version, or memory or the disk fails.
        ensures whole { D.honest → (version : ℕ) (payloads : List (List ℕ)) → Holds (D.state disk).content version kind payloads
            → MatchResult result (λ r. (r.0.version ≡ version) × (r.1 ≡ payloads)) (λ e. (e.0 ≡ MountError.Fault) ⊎ (e.0 ≡ MountError.NoMemory)) }
        ensures later { IfOk result (λ r. D.faults disk ≤ D.faults r.0.disk) }
        ensures fault { IfErr result (λ e. (D.faults disk ≤ D.faults e.1)
            × (e.0 ≡ MountError.Fault → Rose (D.faults disk) (D.faults e.1))) }
    {
        match Journal::mount_or_salvage(alloc, disk, kind) {
            Ok(mounted) => Ok(mounted),
            Err((error, _salvaged, disk)) => Err((error, disk)),
        }
    }

    /// Opens a journal as `mount` does. Where it is damaged, it also hands out its version and the payloads before the bad
    /// place, for a caller that has to see whether an earlier one of them is bad in its own way. All else that is refused
    /// comes with no payloads, and with the version that is written today.
    pub fn mount_or_salvage(
        alloc: Global,
        mut disk: D,
        kind: u8,
    ) -> Result<(Journal<D>, List<List<u8>>), (MountError, Salvaged, D)>
        ensures stands { D.honest → IfOk result (λ r. Holds (D.state r.0.disk).content r.0.version kind r.1) }
        ensures slots { D.honest → IfOk result (λ r. r.0.slots ≡ slots_of (D.state r.0.disk).content) }
        ensures ground { IfOk result (λ r. (r.0.kind ≡ kind) × (r.0.closed ≡ None)
            × (r.0.gate ≡ end_of r.1) × (r.0.count ≡ length r.1)) }
        ensures reads { D.honest → IfOk result (λ r. OnlyReads (D.state disk) (D.state r.0.disk)) }
        ensures reads_ahead { D.honest → IfOk result (λ r. (D.state r.0.disk).bytes_read ≤ (D.state disk).bytes_read + (end_of r.1 + WINDOW)) }
        ensures reads_err { D.honest → IfErr result (λ e. OnlyReadsUnless (e.0 ≡ MountError.Fault) (D.state disk) (D.state e.2)) }
        ensures refused { D.honest → IfErr result (λ e. IsRefusedBehind (D.state disk).content kind e.1.payloads e.0) }
        // the version is that of the header
        ensures version { D.honest → IfErr result (λ e. (at : ℕ) → e.0 ≡ MountError.Damaged at → IsHeader e.1.version kind (take 16 (D.state disk).content)) }
        ensures known { IfErr result (λ e. is_version e.1.version ≡ true) }
        // the place after the payloads is an offset
        ensures place { IfErr result (λ e. end_of e.1.payloads < 2 ^ 64) }
        ensures later { IfOk result (λ r. D.faults disk ≤ D.faults r.0.disk) }
        ensures fault { IfErr result (λ e. (D.faults disk ≤ D.faults e.2)
            × (e.0 ≡ MountError.Fault → Rose (D.faults disk) (D.faults e.2))) }
    {
        let found = match read_payloads(alloc, &mut disk, kind) {
            Ok(found) => found,
            Err(error) => return Err((error, nothing(alloc), disk)),
        };
        let Found {
            version,
            slots,
            payloads,
            gate,
            is_whole,
        } = found;
        if !is_whole {
            return Err((
                MountError::Damaged { at: gate },
                Salvaged { version, payloads },
                disk,
            ));
        }
        let Ok(commit) = Vec::with_capacity(alloc, MAX_COMMIT) else {
            return Err((MountError::NoMemory, nothing(alloc), disk));
        };
        let count = payloads.len() as u64;
        let journal = Journal {
            disk,
            version,
            kind,
            gate,
            count,
            slots,
            closed: None,
            commit,
        };
        Ok((journal, payloads))
    }

    /// A crash of the disk: the first half of a restart. The journal is closed until `remount`, so that several disks
    /// can crash before anything on them is read.
    pub fn crash(&mut self) -> Result<(), Failed>
        ensures closed { self.new.closed ≡ Some self.old.gate }
        ensures same { (self.new.version ≡ self.old.version) × (self.new.kind ≡ self.old.kind) × (self.new.gate ≡ self.old.gate) × (self.new.count ≡ self.old.count) }
        ensures same_slots { self.new.slots ≡ self.old.slots }
        ensures cause { HasCause (D.faults self.old.disk) (D.faults self.new.disk) result }
        ensures told { D.honest → Restarts result (D.state self.old.disk) (D.state self.new.disk) }
        ensures images { D.honest → (b : List ℕ) → (D.state self.new.disk).IsImage b → (D.state self.old.disk).IsImage b }
        ensures any_moment { D.honest → LeavesOnly (D.state self.old.disk) (D.state self.new.disk) (D.state self.old.disk).IsImage }
    {
        self.closed = Some(self.gate);
        self.disk.restart()
    }

    /// Opens the journal on the disk, as `mount` does: the second half of a restart. Its version is then that of the header.
    /// After an `Err` the journal is closed.
    pub fn remount(&mut self, alloc: Global) -> Result<List<List<u8>>, MountError>
        ensures stands { D.honest → IfOk result (λ payloads. Holds (D.state self.new.disk).content self.new.version self.old.kind payloads) }
        ensures slots { D.honest → OnOk result (self.new.slots ≡ slots_of (D.state self.new.disk).content) }
        ensures slots_err { OnErr result (self.new.slots ≡ self.old.slots) }
        ensures ground { IfOk result (λ payloads. (self.new.closed ≡ None)
            × (self.new.gate ≡ end_of payloads) × (self.new.count ≡ length payloads)) }
        ensures closed { OnErr result ((self.new.closed ≡ Some self.old.gate) × (self.new.version ≡ self.old.version)
            × (self.new.gate ≡ self.old.gate) × (self.new.count ≡ self.old.count)) }
        ensures same_kind { self.new.kind ≡ self.old.kind }
        ensures reads { D.honest → OnOk result (OnlyReads (D.state self.old.disk) (D.state self.new.disk)) }
        ensures reads_ahead { D.honest → IfOk result (λ payloads. (D.state self.new.disk).bytes_read ≤ (D.state self.old.disk).bytes_read + (end_of payloads + WINDOW)) }
        ensures reads_err { D.honest → IfErr result (λ e. OnlyReadsUnless (e ≡ MountError.Fault) (D.state self.old.disk) (D.state self.new.disk)) }
        ensures refused { D.honest → IfErr result (λ e. IsRefused (D.state self.old.disk).content self.old.kind e) }
        ensures whole { D.honest → (version : ℕ) (payloads : List (List ℕ)) → Holds (D.state self.old.disk).content version self.old.kind payloads
            → MatchResult result (λ found. (self.new.version ≡ version) × (found ≡ payloads)) (λ e. (e ≡ MountError.Fault) ⊎ (e ≡ MountError.NoMemory)) }
        ensures later { D.faults self.old.disk ≤ D.faults self.new.disk }
        ensures fault { result ≡ Err MountError.Fault → Rose (D.faults self.old.disk) (D.faults self.new.disk) }
    {
        self.closed = Some(self.gate);
        let Found {
            version,
            slots,
            payloads,
            gate,
            is_whole,
        } = read_payloads(alloc, &mut self.disk, self.kind)?;
        if !is_whole {
            return Err(MountError::Damaged { at: gate });
        }
        self.version = version;
        self.gate = gate;
        self.count = payloads.len() as u64;
        self.slots = slots;
        self.closed = None;
        Ok(payloads)
    }
}

// Where nothing was salvaged.
fn nothing(alloc: Global) -> Salvaged
    ensures payloads { result.payloads ≡ [] }
    ensures version { result.version ≡ VERSION }
{
    Salvaged {
        version: VERSION,
        payloads: List::new(alloc),
    }
}
