//! Kinds of stores.
ghost use Rattle.std.specs.Prelude.{◌≡◌, ◌≢◌, ◌⊎◌, ◌↔◌, IsTrue, ◌<◌, ◌≤◌, [], ◌++◌, ℕ, List as Items, All, length, true, false, None, IfOk, IfErr, OnOk, IfSome, IfNone, Ok, Err, Some};
ghost use Rattle.qz_civil.specs.Causes.{Rose};
ghost use Rattle.qz_disk.specs.Disk.{LeavesOnly};
ghost use Rattle.qz_journal.specs.Commits.{LackRoom, HaveRoom, IsFullFor};
ghost use Rattle.qz_journal.specs.Layout.{IsPayload, Holds, end_of};
ghost use Rattle.qz_journal.specs.Slots.{with_offset, free_slot};
ghost use Rattle.qz_journal.specs.View.{disk_of, version_of, kind_of, gate_of, count_of, closed_at, slots_of};
ghost use Rattle.qz_stores.specs.Bases.{records};
ghost use Rattle.qz_stores.specs.Checkpoints.{IsMidway};
ghost use Rattle.qz_stores.specs.Kinds.{StoreKind, IsLawful, IsAccepted, IsRefusalOf, IsErrorOf};
ghost use Rattle.qz_stores.specs.Opening.{BeginWell, IsUnfit};
ghost use Rattle.qz_stores.specs.declared.kinds.TakeError.TheVariants as take_error;

use qz_civil::List;
use qz_disk::Disk;
use qz_journal::{Journal, JournalFull};
use qz_types::{NoMemory, Refusal, StepRefused};
use std::alloc::Global;

/// Why a payload isn't taken into a history.
#[derive(Drop)]
pub enum TakeError {
    /// It is no record, or its entry is refused.
    Unfit,
    NoMemory,
}

/// Why no snapshot was made.
#[derive(Drop)]
pub enum CheckpointError {
    NoMemory,
    /// The disk failed, and its count of faults rose. The journal is closed.
    Fault,
}

/// A kind of store. A value of it is what such a store keeps in memory: the state that its history leaves.
///
/// An entry is accepted in two steps, so that its record can go to the disk between them. `prepare` decides what refuses
/// it, and takes all the memory that it needs; `commit` changes the state, and can't fail. Before both, a store asks
/// `version_refusal`; a history that is read from a disk is replayed without it.
pub trait Kind: Drop {
    type Entry: Drop;

    type Reply: Drop;
    /// What is ready before the state is changed.
    type Change: Drop;

    /// What the histories of such stores are.
    ghost History: { Type 0 };

    /// What their states are.
    ghost State: { Type 0 };

    ghost kind: { StoreKind History State Self.Entry Self.Reply };

    /// The state that is kept.
    ghost state: { Self → State };

    /// The entry is accepted at this state, and all that it needs is ready.
    ghost Prepares: { Self → Self.Entry → Self.Change → Type 0 };

    /// The kind as the header of a file has it.
    fn number() -> u8
        ensures { result ≡ kind.number };

    /// The state of a new store of this version of the format, 1 or 2.
    fn new(alloc: Global, version: u8) -> Self
        ensures { state result ≡ kind.empty version };

    /// Whether a payload is a part of a snapshot.
    fn is_part(payload: &[u8]) -> bool
        ensures { result ≡ kind.is_part payload.now };

    /// The state of the snapshot that these payloads begin with, and how many entries came before it, or None where they begin
    /// with none that an opening takes.
    fn read_base(alloc: Global, payloads: &List<List<u8>>) -> Result<Option<(Self, u32)>, NoMemory>
        ensures found { IfOk result (λ o. IfSome o (λ base. BeginWell kind payloads.now (state base.0) base.1)) }
        ensures none { IfOk result (λ o. IfNone o ((T : State) (entries : ℕ) → BeginWell kind payloads.now T entries → ⊥)) };

    /// Whether these payloads begin a snapshot that says that it has more of them.
    fn are_cut_short(payloads: &List<List<u8>>) -> bool
        ensures { IsTrue result ↔ kind.AreCutShort payloads.now };

    /// Reads the entry of a payload, and does it.
    fn take(&mut self, alloc: Global, payload: &[u8]) -> Result<Self::Entry, TakeError>
        ensures is_record { IfOk result (kind.IsRecordOf payload.now) }
        ensures accepted { IfOk result (λ entry. IsAccepted kind (state self.old) entry) }
        ensures state { IfOk result (λ entry. state self.new ≡ kind.after (state self.old) entry) }
        ensures unfit { result ≡ Err take_error.Unfit → IsUnfit kind (state self.old) payload.now };

    /// Why the version of the store refuses an entry that is submitted, or None where it doesn't. It takes no memory.
    fn version_refusal(&self, entry: &Self::Entry) -> Option<Refusal>
        ensures { result ≡ kind.version_refusal (state self.now) entry.now };

    /// Why the entry's transaction is refused, or None where it is accepted. It takes no memory.
    fn refusal(&self, entry: &Self::Entry) -> Option<Refusal>
        ensures { IsRefusalOf kind (state self.now) entry.now result };

    /// Decides what refuses an entry, which takes no memory, and then takes all the memory that the entry needs.
    fn prepare(&mut self, entry: &Self::Entry) -> Result<Self::Change, StepRefused>
        requires { kind.IsProper entry.now }
        ensures ready { IfOk result (Prepares self.new entry.now) }
        ensures accepted { OnOk result (IsAccepted kind (state self.old) entry.now) }
        ensures cause { IfErr result (IsErrorOf kind (state self.old) entry.now) }
        ensures same { state self.new ≡ state self.old };

    /// The record of an entry that is accepted, in the version that is written.
    fn record(&self, alloc: Global, entry: &Self::Entry) -> Result<List<u8>, NoMemory>
        requires { kind.IsProper entry.now }
        ensures record { IfOk result (λ r. (r ≡ kind.record_of entry.now) × IsPayload r) }
        ensures recorded { OnOk result (kind.IsRecordOf (kind.record_of entry.now) entry.now) };

    /// Does an entry that was prepared.
    fn commit(&mut self, entry: &Self::Entry, change: Self::Change) -> Self::Reply
        requires proper { kind.IsProper entry.now }
        requires ready { Prepares self.old entry.now change }
        ensures accepted { kind.answer (state self.old) entry.now ≡ Ok result }
        ensures state { state self.new ≡ kind.after (state self.old) entry.now };

    /// Appends a snapshot of this state, which so many entries left, to an open journal of this kind, and makes it the one in use.
    /// The answer is false exactly where the snapshot has no room, or the kind has none, and nothing was done then. `NoMemory`
    /// comes before any device call. Else the answer is true, or `Fault` where the disk failed.
    fn checkpoint<D: Disk>(
        &self,
        alloc: Global,
        journal: &mut Journal<D>,
        entries: u64,
    ) -> Result<bool, CheckpointError>
        requires open { closed_at journal.old ≡ None }
        requires number { kind_of journal.old ≡ kind.number }
        requires counted { entries ≤ count_of journal.old }
        ensures no_room { result ≡ Ok false → kind.has_snapshots ≡ true → LackRoom (kind.snapshot_of (state self.now) (count_of journal.old) entries) (gate_of journal.old) (count_of journal.old) }
        ensures room { (result ≡ Ok true) ⊎ (result ≡ Err CheckpointError.Fault) → HaveRoom (kind.snapshot_of (state self.now) (count_of journal.old) entries) (gate_of journal.old) (count_of journal.old) }
        ensures unchanged { result ≢ Ok true → result ≢ Err CheckpointError.Fault → journal.new ≡ journal.old }
        ensures open { result ≡ Ok true → closed_at journal.new ≡ None }
        ensures same { (version_of journal.new ≡ version_of journal.old) × (kind_of journal.new ≡ kind_of journal.old) }
        ensures more { result ≡ Ok true → count_of journal.old < count_of journal.new }
        ensures later { D.faults (disk_of journal.old) ≤ D.faults (disk_of journal.new) }
        ensures fault { result ≡ Err CheckpointError.Fault → Rose (D.faults (disk_of journal.old)) (D.faults (disk_of journal.new)) }
        // At true the slot that was free leads to the end of what stood before.
        ensures slots { result ≡ Ok true → slots_of journal.new ≡ with_offset (free_slot (slots_of journal.old)) (Some (gate_of journal.old)) (slots_of journal.old) }
        // Where the content holds payloads that end at the gate, at true the snapshot stands after them, and the gate after both.
        ensures stands { D.honest → (payloads : Items (Items ℕ)) → Holds (D.state (disk_of journal.old)).content (version_of journal.old) kind.number payloads
            → gate_of journal.old ≡ end_of payloads → count_of journal.old ≡ length payloads → result ≡ Ok true
            → Holds (D.state (disk_of journal.new)).content (version_of journal.old) kind.number (payloads ++ kind.snapshot_of (state self.now) (count_of journal.old) entries)
            × (gate_of journal.new ≡ end_of (payloads ++ kind.snapshot_of (state self.now) (count_of journal.old) entries))
            × (count_of journal.new ≡ length (payloads ++ kind.snapshot_of (state self.now) (count_of journal.old) entries)) }
        // A crash at any moment leaves them and some parts of snapshots, and slots that are true.
        ensures any_moment { D.honest → (payloads : Items (Items ℕ)) → Holds (D.state (disk_of journal.old)).content (version_of journal.old) kind.number payloads
            → gate_of journal.old ≡ end_of payloads → count_of journal.old ≡ length payloads
            → LeavesOnly (D.state (disk_of journal.old)) (D.state (disk_of journal.new)) (IsMidway kind (version_of journal.old) (state self.now) entries (D.state (disk_of journal.old)).content payloads) };

    /// The payloads of a snapshot of this state with which a store begins: no payload and no entry come before it. Where a new
    /// store has no room for them, how many bytes they need and how many there are. A kind without snapshots gives none.
    fn first_snapshot(&self, alloc: Global) -> Result<Result<List<List<u8>>, JournalFull>, NoMemory>
        ensures payloads { IfOk result (λ r. IfOk r (λ ps. (ps ≡ kind.snapshot_of (state self.now) 0 0) × All IsPayload ps)) }
        ensures begins { kind.has_snapshots ≡ true → IfOk result (λ r. OnOk r (kind.BeginSnapshot (kind.snapshot_of (state self.now) 0 0) (state self.now) 0 0)) }
        ensures parts { IfOk result (λ r. OnOk r (records kind (kind.snapshot_of (state self.now) 0 0) ≡ [])) }
        ensures room { IfOk result (λ r. OnOk r (HaveRoom (kind.snapshot_of (state self.now) 0 0) (end_of []) 0)) }
        ensures full { IfOk result (λ r. IfErr r (λ full. IsFullFor (kind.snapshot_of (state self.now) 0 0) (end_of []) 0 full.need full.room)) };

    ghost lawful: { IsLawful kind };

    /// Each state that is kept is valid.
    ghost valid: { (kept : Self) → ∥ kind.IsValid (state kept) ∥₁ };
}
