//! Opening what is on a disk.
ghost use Rattle.std.specs.Prelude.{◌≡◌, ◌⊎◌, ◌+◌, ◌-◌, ◌≤◌, ℕ, List, [], length, None, true, false, IfOk, IfErr, MatchResult};
ghost use Rattle.std.specs.List.{AllByRecursion};
ghost use Rattle.qz_civil.specs.Causes.{Rose};
ghost use Rattle.qz_journal.specs.Layout.{Holds, end_of};
ghost use Rattle.qz_journal.specs.Slots.{slots_of as slots_in, slot_in_use};
ghost use Rattle.qz_journal.specs.Tails.{start_of};
ghost use Rattle.qz_journal.specs.Through.{OnlyReads, OnlyReadsUnless};
ghost use Rattle.qz_journal.specs.View.{disk_of as journal_disk, version_of as journal_version, kind_of, gate_of, count_of, closed_at, slots_of as journal_slots};
ghost use Rattle.qz_stores.specs.Kinds.{HasRecord};
ghost use Rattle.qz_stores.specs.Bases.{HoldAll, ComeBefore, IsEndOf, WholeList, list_of, IsWhole, Stands};
ghost use Rattle.qz_stores.specs.Bytes.{BeginsNew};
ghost use Rattle.qz_stores.specs.Opening.{IsOpened, IsRefused, StandsFrom};
ghost use Rattle.qz_stores.specs.View.{view, version_of, opened_of, found_of, added_of, behind_of, slots_of, disk_state, GoesOnFrom};

use crate::gates::first_gate;
use crate::replaying::{first_bad, replay};
use crate::{Kind, Reread, Store};
use qz_disk::Disk;
use qz_journal::{Journal, MountError};
use qz_logs::Log;
use std::alloc::Global;
use std::snapshot::Snapshot;

impl<D: Disk, K: Kind> Store<D, K> {
    /// Opens the store that is on a disk, in the version of the format that its header has, from the slot in use on: its base is
    /// that of the snapshot there, or of a new store where no slot is open, and it replays the entries since. It syncs first, so
    /// that what it reads is what a crash leaves, and writes nothing. An `Err` hands the disk back. `NotAStore` is returned where
    /// the header isn't that of a store of this kind. `Damaged` names the bad gate that cuts off the snapshot in use; else the gate of
    /// the slot in use also where no snapshot of a valid state stands there, and else also the gate of the first payload that is
    /// no part of a snapshot, and is no record or whose command is refused. `Fault` is returned only where the disk's count of
    /// faults rose.
    pub fn mount(alloc: Global, disk: D) -> Result<Store<D, K>, (MountError, D)>
        ensures opened { IfOk result (λ store. IsOpened K.kind (view store)) }
        ensures nothing_added { IfOk result (λ store. added_of store ≡ []) }
        ensures behind { IfOk result (λ store. behind_of store ≡ length (found_of store)) }
        ensures begins { IfOk result (λ store. slot_in_use (slots_of store) ≡ None → BeginsNew K.kind (version_of store) (view store).history) }
        ensures bytes { D.honest → IfOk result (λ store. (opened_of store ≡ (D.state disk).content) × (slots_of store ≡ slots_in (D.state disk).content)) }
        ensures stands { D.honest → IfOk result (λ store. StandsFrom K.kind (version_of store) (D.state disk).content (view store).history) }
        ensures reads { D.honest → IfOk result (λ store. OnlyReads (D.state disk) (disk_state store)) }
        // No more is read than the header and what stands from the slot's offset on.
        ensures reads_tail { D.honest → MatchResult result
            (λ store. (disk_state store).bytes_read ≤ (D.state disk).bytes_read + (16 + (length (D.state disk).content - start_of (slots_in (D.state disk).content))))
            (λ e. (D.state e.1).bytes_read ≤ (D.state disk).bytes_read + (16 + (length (D.state disk).content - start_of (slots_in (D.state disk).content)))) }
        ensures reads_err { D.honest → IfErr result (λ e. OnlyReadsUnless (e.0 ≡ MountError.Fault) (D.state disk) (D.state e.1)) }
        ensures refused { D.honest → IfErr result (λ e. IsRefused K.kind (D.state disk).content e.0) }
        // Where the bytes hold a whole list, the store goes on from it and has an end of it, or memory or the disk fails.
        ensures whole { D.honest → (w : WholeList K.State K.Entry) → IsWhole K.kind w (D.state disk).content
            → MatchResult result (λ store. GoesOnFrom store w × Stands K.kind w (D.state disk).content (view store).history) (λ e. (e.0 ≡ MountError.Fault) ⊎ (e.0 ≡ MountError.NoMemory)) }
        // Where no slot is open, they hold the one that was read, and it starts as a new store does.
        ensures without_slots { D.honest → IfOk result (λ store. slot_in_use (slots_in (D.state disk).content) ≡ None
            → IsWhole K.kind (list_of K.kind (version_of store) (found_of store)) (D.state disk).content) }
        // No slot is open in a store of a kind without snapshots.
        ensures no_slots { K.kind.has_snapshots ≡ false → IfOk result (λ store. slot_in_use (slots_of store) ≡ None) }
        ensures later { IfOk result (λ store. D.faults disk ≤ (view store).faults) }
        ensures fault { IfErr result (λ e. (D.faults disk ≤ D.faults e.1)
            × (e.0 ≡ MountError.Fault → Rose (D.faults disk) (D.faults e.1))) }
    {
        match Journal::mount_tail_or_salvage(alloc, disk, K::number()) {
            Ok((journal, start, payloads)) => {
                match replay::<K>(alloc, journal.version(), journal.slot(), start, &payloads) {
                    Ok(reread) => Ok(begin(alloc, journal, reread)),
                    Err(error) => Err((error, journal.into_disk())),
                }
            }
            Err((error, salvaged, disk)) => match error {
                MountError::Damaged { at } => {
                    // the gate of a slot comes before the first gate
                    if at < first_gate() {
                        return Err((MountError::Damaged { at }, disk));
                    }
                    Err((first_bad::<K>(alloc, &salvaged, at), disk))
                }
                error => Err((error, disk)),
            },
        }
    }
}

// An open store on a journal in which this was read.
pub(crate) fn begin<D: Disk, K: Kind>(
    alloc: Global,
    journal: Journal<D>,
    reread: Reread<K>,
) -> Store<D, K>
    requires number { kind_of journal ≡ K.kind.number }
    requires version { journal_version journal ≡ reread.version }
    requires open { closed_at journal ≡ None }
    requires counted { reread.count ≤ count_of journal }
    requires new { K.kind.has_snapshots ≡ false → (reread.base_count ≡ 0) × ((K.state reread.base.value) ≡ K.kind.empty reread.version) }
    requires recorded { ∥ AllByRecursion (HasRecord K.kind) reread.entries.items ∥₁ }
    requires legal { ∥ K.kind.IsLegalFrom (K.state reread.base.value) reread.entries.items ∥₁ }
    requires ended { D.honest → (start : K.State) → (whole : List K.Entry) → HoldAll K.kind reread.version start (D.state (journal_disk journal)).content whole → IsEndOf K.kind start (K.kind.history reread.base_count (K.state reread.base.value) reread.entries.items) whole }
    requires gated { D.honest → (start : K.State) → (whole : List K.Entry) → HoldAll K.kind reread.version start (D.state (journal_disk journal)).content whole → (payloads : List (List ℕ)) → Holds (D.state (journal_disk journal)).content reread.version K.kind.number payloads
        → (gate_of journal ≡ end_of payloads) × (count_of journal ≡ length payloads) }
    requires marked { D.honest → (start : K.State) → (whole : List K.Entry) → HoldAll K.kind reread.version start (D.state (journal_disk journal)).content whole → (payloads : List (List ℕ)) → Holds (D.state (journal_disk journal)).content reread.version K.kind.number payloads
        → ComeBefore K.kind (slot_in_use (journal_slots journal)) (start_of (journal_slots journal)) payloads reread.base_count }
    ensures journal { result.journal ≡ journal }
    ensures version { result.version ≡ reread.version }
    ensures base { (result.base_count ≡ reread.base_count) × ((K.state result.base.value) ≡ (K.state reread.base.value)) }
    ensures found { result.found.items ≡ reread.entries.items }
    ensures behind { behind_of result ≡ length reread.entries.items }
    ensures opened { (result.is_open ≡ true) × (result.undecided ≡ None) × (added_of result ≡ []) × (opened_of result ≡ (D.state (journal_disk journal)).content) }
{
    let Reread {
        version,
        base_count,
        base,
        entries,
        count,
        state,
    } = reread;
    let opened = Snapshot::of(&journal);
    Store {
        alloc,
        journal,
        version,
        base_count,
        base,
        count,
        snapshot: base_count,
        state,
        opened,
        found: entries,
        added: Log::new(),
        is_open: true,
        undecided: None,
    }
}
