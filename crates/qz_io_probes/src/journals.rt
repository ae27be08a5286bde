//! Journals.
ghost use Rattle.std.specs.Prelude.{◌≡◌, ◌≢◌, ◌↔◌, ◌⊎◌, ◌+◌, ◌^◌, ◌<◌, ◌≤◌, [], ◌∷◌, ◌++◌, List, ℕ, length, take, drop, OnOk, OnErr, IfOk, IfErr, IsOk, IsTrue, MatchResult, Ok, Err, Some, None};
ghost use Rattle.qz_civil.specs.Causes.{Rose, HasCause};
ghost use Rattle.qz_disk.specs.Disk.{Only, LeavesOnly, Restarts, Torn, written};
ghost use Rattle.qz_journal.specs.Commits.{IsFull, need_of, room_of};
ghost use Rattle.qz_journal.specs.Layout.{is_version, IsPayload, open_gate, body_of, Holds, HasStore, new_header, IsBeforeOrAfter, end_of};
ghost use Rattle.qz_journal.specs.Opening.{IsFound, IsRefused};
ghost use Rattle.qz_journal.specs.Slots.{slots_of};
ghost use Rattle.qz_journal.specs.Through.{IsKept, OnlyReads, OnlyReadsUnless};

use qz_civil::{Failed, List};
use qz_disk::Disk;
use qz_journal::{AppendError, CreateError, Journal, JournalFull, MountError};
use std::alloc::Global;

/// Whether a payload has room, as `qz_journal::fits` says.
pub fn fits(offset: u64, count: u64, length: u32) -> Result<(), JournalFull>
    ensures full { IfErr result (λ f. IsFull offset count length f.need f.room) }
    ensures ok { OnOk result (need_of length ≤ room_of offset count) }
{
    qz_journal::fits(offset, count, length)
}

/// Makes an empty journal, as `qz_journal::create` does.
pub fn create<D: Disk>(disk: &mut D, kind: u8) -> Result<(), CreateError>
    ensures empty { D.honest → OnOk result (Holds (D.state disk.new).content 2 kind []) }
    ensures header { D.honest → OnOk result (take 16 (D.state disk.new).content ≡ new_header 2 kind) }
    ensures durable { D.honest → OnOk result (Only (D.state disk.new).content (D.state disk.new)) }
    ensures keeps { D.honest → OnOk result (drop 17 (D.state disk.new).content ≡ drop 17 (D.state disk.old).content) }
    ensures any_moment { D.honest → (bytes : List ℕ) → Only bytes (D.state disk.old)
        → LeavesOnly (D.state disk.old) (D.state disk.new) (Torn 0 17 bytes) }
    ensures found { D.honest → IsFound (D.state disk.old).content kind result }
    ensures kept { D.honest → IsKept kind (D.state disk.old) (D.state disk.new) }
    ensures kept_at_any_moment { D.honest → HasStore kind (D.state disk.old).content
        → LeavesOnly (D.state disk.old) (D.state disk.new) (D.state disk.old).IsImage }
    ensures later { D.faults disk.old ≤ D.faults disk.new }
    ensures fault { result ≡ Err CreateError.Fault → Rose (D.faults disk.old) (D.faults disk.new) }
{
    qz_journal::create(disk, kind)
}

/// Makes an empty journal of a version, as `qz_journal::create_version` does.
pub fn create_version<D: Disk>(disk: &mut D, version: u8, kind: u8) -> Result<(), CreateError>
    requires { IsTrue (is_version version) }
    ensures empty { D.honest → OnOk result (Holds (D.state disk.new).content version kind []) }
    ensures header { D.honest → OnOk result (take 16 (D.state disk.new).content ≡ new_header version kind) }
    ensures durable { D.honest → OnOk result (Only (D.state disk.new).content (D.state disk.new)) }
    ensures keeps { D.honest → OnOk result (drop 17 (D.state disk.new).content ≡ drop 17 (D.state disk.old).content) }
    ensures any_moment { D.honest → (bytes : List ℕ) → Only bytes (D.state disk.old)
        → LeavesOnly (D.state disk.old) (D.state disk.new) (Torn 0 17 bytes) }
    ensures found { D.honest → IsFound (D.state disk.old).content kind result }
    ensures kept { D.honest → IsKept kind (D.state disk.old) (D.state disk.new) }
    ensures kept_at_any_moment { D.honest → HasStore kind (D.state disk.old).content
        → LeavesOnly (D.state disk.old) (D.state disk.new) (D.state disk.old).IsImage }
    ensures later { D.faults disk.old ≤ D.faults disk.new }
    ensures fault { result ≡ Err CreateError.Fault → Rose (D.faults disk.old) (D.faults disk.new) }
{
    qz_journal::create_version(disk, version, kind)
}

/// Adds a payload, as `Journal::append` does.
pub fn append<D: Disk>(journal: &mut Journal<D>, payload: &[u8]) -> Result<(), AppendError>
    requires { IsPayload payload.now }
    ensures closed { (at : ℕ) → (result ≡ Err (AppendError.Closed at)) ↔ (journal.old.closed ≡ Some at) }
    ensures full { (need room : ℕ) → (result ≡ Err (AppendError.JournalFull need room))
        ↔ ((journal.old.closed ≡ None) × IsFull journal.old.gate journal.old.count (length payload.now) need room) }
    ensures fault { result ≡ Err AppendError.Fault
        → Rose (D.faults journal.old.disk) (D.faults journal.new.disk) × (journal.old.closed ≡ None) × (journal.new.closed ≡ Some journal.old.gate) }
    ensures later { D.faults journal.old.disk ≤ D.faults journal.new.disk }
    ensures unchanged { result ≢ Err AppendError.Fault → OnErr result (journal.new ≡ journal.old) }
    ensures was_open { OnOk result (journal.old.closed ≡ None) }
    ensures same_kind { (journal.new.version ≡ journal.old.version) × (journal.new.kind ≡ journal.old.kind) }
    ensures same_slots { journal.new.slots ≡ journal.old.slots }
    ensures completes { journal.old.closed ≡ None → need_of (length payload.now) ≤ room_of journal.old.gate journal.old.count
        → (Rose (D.faults journal.old.disk) (D.faults journal.new.disk) → ⊥) → IsOk result }
    ensures ok { OnOk result ((journal.new.closed ≡ None) × (journal.new.gate ≡ journal.old.gate + (5 + length payload.now))
        × (journal.new.count ≡ journal.old.count + 1)) }
    ensures same_place { OnErr result ((journal.new.gate ≡ journal.old.gate) × (journal.new.count ≡ journal.old.count)) }
    ensures reads_nothing { D.honest → (D.state journal.new.disk).bytes_read ≡ (D.state journal.old.disk).bytes_read }
    ensures bytes { D.honest → OnOk result ((D.state journal.new.disk).content
        ≡ written journal.old.gate (open_gate ∷ []) (written (journal.old.gate + 1) (body_of payload.now ++ 0 ∷ []) (D.state journal.old.disk).content)) }
    ensures front { D.honest → journal.old.closed ≡ None
        → LeavesOnly (D.state journal.old.disk) (D.state journal.new.disk) (λ b. take journal.old.gate b ≡ take journal.old.gate (D.state journal.old.disk).content) }
    ensures stands { D.honest → (payloads : List (List ℕ)) → Holds (D.state journal.old.disk).content journal.old.version journal.old.kind payloads
        → journal.old.gate ≡ end_of payloads
        → OnOk result (Holds (D.state journal.new.disk).content journal.old.version journal.old.kind (payloads ++ payload.now ∷ [])) }
    ensures durable { D.honest → OnOk result (Only (D.state journal.new.disk).content (D.state journal.new.disk)) }
    ensures content { D.honest → journal.old.closed ≡ None
        → (payloads : List (List ℕ)) → Holds (D.state journal.old.disk).content journal.old.version journal.old.kind payloads
        → journal.old.gate ≡ end_of payloads
        → IsBeforeOrAfter journal.old.version journal.old.kind payloads payload.now (D.state journal.new.disk).content }
    ensures any_moment { D.honest → journal.old.closed ≡ None
        → (payloads : List (List ℕ)) → Holds (D.state journal.old.disk).content journal.old.version journal.old.kind payloads
        → journal.old.gate ≡ end_of payloads
        → LeavesOnly (D.state journal.old.disk) (D.state journal.new.disk) (IsBeforeOrAfter journal.old.version journal.old.kind payloads payload.now) }
{
    journal.append(payload)
}

/// Opens the journal on a disk, as `Journal::mount` does.
pub fn mount<D: Disk>(
    alloc: Global,
    disk: D,
    kind: u8,
) -> Result<(Journal<D>, List<List<u8>>), (MountError, D)>
    ensures stands { D.honest → IfOk result (λ r. Holds (D.state r.0.disk).content r.0.version kind r.1) }
    ensures slots { D.honest → IfOk result (λ r. r.0.slots ≡ slots_of (D.state r.0.disk).content) }
    ensures ground { IfOk result (λ r. (r.0.kind ≡ kind) × (r.0.closed ≡ None)
        × (r.0.gate ≡ end_of r.1) × (r.0.count ≡ length r.1)) }
    ensures reads { D.honest → IfOk result (λ r. OnlyReads (D.state disk) (D.state r.0.disk)) }
    ensures reads_ahead { D.honest → IfOk result (λ r. (D.state r.0.disk).bytes_read ≤ (D.state disk).bytes_read + (end_of r.1 + 65536)) }
    ensures reads_err { D.honest → IfErr result (λ e. OnlyReadsUnless (e.0 ≡ MountError.Fault) (D.state disk) (D.state e.1)) }
    ensures refused { D.honest → IfErr result (λ e. IsRefused (D.state disk).content kind e.0) }
    ensures whole { D.honest → (version : ℕ) (payloads : List (List ℕ)) → Holds (D.state disk).content version kind payloads
        → MatchResult result (λ r. (r.0.version ≡ version) × (r.1 ≡ payloads)) (λ e. (e.0 ≡ MountError.Fault) ⊎ (e.0 ≡ MountError.NoMemory)) }
    ensures later { IfOk result (λ r. D.faults disk ≤ D.faults r.0.disk) }
    ensures fault { IfErr result (λ e. (D.faults disk ≤ D.faults e.1)
        × (e.0 ≡ MountError.Fault → Rose (D.faults disk) (D.faults e.1))) }
{
    Journal::mount(alloc, disk, kind)
}

/// Lets the disk under a journal crash, as `Journal::crash` does.
pub fn crash<D: Disk>(journal: &mut Journal<D>) -> Result<(), Failed>
    ensures closed { journal.new.closed ≡ Some journal.old.gate }
    ensures same { (journal.new.version ≡ journal.old.version) × (journal.new.kind ≡ journal.old.kind) × (journal.new.gate ≡ journal.old.gate) × (journal.new.count ≡ journal.old.count) }
    ensures same_slots { journal.new.slots ≡ journal.old.slots }
    ensures cause { HasCause (D.faults journal.old.disk) (D.faults journal.new.disk) result }
    ensures told { D.honest → Restarts result (D.state journal.old.disk) (D.state journal.new.disk) }
    ensures images { D.honest → (b : List ℕ) → (D.state journal.new.disk).IsImage b → (D.state journal.old.disk).IsImage b }
    ensures any_moment { D.honest → LeavesOnly (D.state journal.old.disk) (D.state journal.new.disk) (D.state journal.old.disk).IsImage }
{
    journal.crash()
}

/// Opens the journal again, as `Journal::remount` does.
pub fn remount<D: Disk>(
    alloc: Global,
    journal: &mut Journal<D>,
) -> Result<List<List<u8>>, MountError>
    ensures stands { D.honest → IfOk result (λ payloads. Holds (D.state journal.new.disk).content journal.new.version journal.old.kind payloads) }
    ensures slots { D.honest → OnOk result (journal.new.slots ≡ slots_of (D.state journal.new.disk).content) }
    ensures slots_err { OnErr result (journal.new.slots ≡ journal.old.slots) }
    ensures ground { IfOk result (λ payloads. (journal.new.closed ≡ None)
        × (journal.new.gate ≡ end_of payloads) × (journal.new.count ≡ length payloads)) }
    ensures closed { OnErr result ((journal.new.closed ≡ Some journal.old.gate) × (journal.new.version ≡ journal.old.version)
        × (journal.new.gate ≡ journal.old.gate) × (journal.new.count ≡ journal.old.count)) }
    ensures same_kind { journal.new.kind ≡ journal.old.kind }
    ensures reads { D.honest → OnOk result (OnlyReads (D.state journal.old.disk) (D.state journal.new.disk)) }
    ensures reads_ahead { D.honest → IfOk result (λ payloads. (D.state journal.new.disk).bytes_read ≤ (D.state journal.old.disk).bytes_read + (end_of payloads + 65536)) }
    ensures reads_err { D.honest → IfErr result (λ e. OnlyReadsUnless (e ≡ MountError.Fault) (D.state journal.old.disk) (D.state journal.new.disk)) }
    ensures refused { D.honest → IfErr result (λ e. IsRefused (D.state journal.old.disk).content journal.old.kind e) }
    ensures whole { D.honest → (version : ℕ) (payloads : List (List ℕ)) → Holds (D.state journal.old.disk).content version journal.old.kind payloads
        → MatchResult result (λ found. (journal.new.version ≡ version) × (found ≡ payloads)) (λ e. (e ≡ MountError.Fault) ⊎ (e ≡ MountError.NoMemory)) }
    ensures later { D.faults journal.old.disk ≤ D.faults journal.new.disk }
    ensures fault { result ≡ Err MountError.Fault → Rose (D.faults journal.old.disk) (D.faults journal.new.disk) }
{
    journal.remount(alloc)
}
