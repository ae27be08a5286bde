//! An open store.
ghost use Rattle.std.specs.Prelude.{◌≡◌, ◌≤◌, ◌+◌, ◌++◌, List as Entries, ℕ, length, None, true, false};
ghost use Rattle.std.proofs.Props.{props};
ghost use Rattle.std.specs.List.{AllByRecursion};
ghost use Rattle.qz_journal.specs.Layout.{is_version, Holds, end_of};
ghost use Rattle.qz_journal.specs.Slots.{slot_in_use};
ghost use Rattle.qz_journal.specs.Tails.{start_of};
ghost use Rattle.qz_journal.specs.View.{disk_of, version_of, kind_of, gate_of, count_of, closed_at, slots_of};
ghost use Rattle.qz_stores.specs.Kinds.{HasRecord};
ghost use Rattle.qz_stores.specs.Bases.{HoldAll, ComeBefore, MayHoldAll, IsEndOf};
ghost use Rattle.qz_stores.specs.Bytes.{MayFollow};
ghost use Rattle.qz_stores.specs.Facts.{ComeBefore-prop, HoldAll-prop, MayHoldAll-prop, IsEndOf-prop};

use crate::Kind;
use qz_disk::Disk;
use qz_journal::Journal;
use qz_logs::Log;
use std::alloc::Global;
use std::snapshot::Snapshot;

/// A store on a disk. Its history is a base and a list of entries since. The base is how many entries came before, and the
/// state that they left: those of a new store, in the version that the header of the disk has, or those of the snapshot that
/// it was opened from. Each entry was accepted at the state that those before it left. The disk holds their records; the
/// store keeps the state after the last, and how many there are.
#[derive(Drop)]
pub struct Store<D: Disk, K: Kind> {
    pub(crate) alloc: Global,
    pub(crate) journal: Journal<D>,
    // the version of the format, 1 or 2; the journal of a closed store may have been read anew, and have another
    pub(crate) version: u8,
    // the base
    pub(crate) base_count: u64,
    pub(crate) base: Snapshot<K>,
    // how many entries there are in all, those before the base counted
    pub(crate) count: u64,
    // how many of them come before the snapshot in use, or none where no slot is open
    pub(crate) snapshot: u64,
    pub(crate) state: K,
    // the bytes that the disk had when it was opened, the entries that were read then, and those accepted since
    pub(crate) opened: Snapshot<Journal<D>>,
    pub(crate) found: Log<K::Entry>,
    pub(crate) added: Log<K::Entry>,
    pub(crate) is_open: bool,
    // the entry whose record failed, where the store is closed
    pub(crate) undecided: Option<K::Entry>,
    ghost number: { kind_of journal ≡ K.kind.number },
    ghost known: { is_version version ≡ true },
    ghost in_version: { is_open ≡ true → version_of journal ≡ version },
    ghost ready: { is_open ≡ true → closed_at journal ≡ None },
    ghost settled: { is_open ≡ true → undecided ≡ None },
    ghost counted: { count ≡ base_count + length (found.items ++ added.items) },
    ghost placed: { is_open ≡ true → count ≤ count_of journal },
    ghost taken: { snapshot ≤ count },
    ghost new_count: { K.kind.has_snapshots ≡ false → base_count ≡ 0 },
    ghost new_base: { K.kind.has_snapshots ≡ false → (K.state base.value) ≡ K.kind.empty version } by { λ p q i none. K.kind.states_once (K.state base.value) (K.kind.empty version) (p none) (q none) i },
    ghost legal: { ∥ K.kind.IsLegalFrom (K.state base.value) (found.items ++ added.items) ∥₁ },
    ghost replayed: { K.state state ≡ K.kind.replay_from (K.state base.value) (found.items ++ added.items) } by { K.kind.states_once (K.state state) (K.kind.replay_from (K.state base.value) (found.items ++ added.items)) },
    ghost recorded: { ∥ AllByRecursion (HasRecord K.kind) (found.items ++ added.items) ∥₁ },
    ghost passed: { ∥ MayFollow K.kind (K.state state) undecided ∥₁ },
    // On an honest disk, of each whole list that it held when the store was opened, whatever state it starts with: what was found is
    // an end of it, the disk holds it and what was added, the gate comes after all payloads, and the snapshot in use after as many
    // entries as are counted; and a crash leaves that list.
    ghost ended: { D.honest → (start : K.State) → (whole : Entries K.Entry) → HoldAll K.kind version start (D.state (disk_of opened.value)).content whole → IsEndOf K.kind start (K.kind.history base_count (K.state base.value) found.items) whole } by { Prim.hlevel (props, IsEndOf-prop) },
    ghost stands: { D.honest → is_open ≡ true → (start : K.State) → (whole : Entries K.Entry) → HoldAll K.kind version start (D.state (disk_of opened.value)).content whole → HoldAll K.kind version start (D.state (disk_of journal)).content (whole ++ added.items) } by { Prim.hlevel (props, HoldAll-prop) },
    ghost gated: { D.honest → is_open ≡ true → (start : K.State) → (whole : Entries K.Entry) → HoldAll K.kind version start (D.state (disk_of opened.value)).content whole → (payloads : Entries (Entries ℕ)) → Holds (D.state (disk_of journal)).content version K.kind.number payloads → (gate_of journal ≡ end_of payloads) × (count_of journal ≡ length payloads) },
    ghost marked: { D.honest → is_open ≡ true → (start : K.State) → (whole : Entries K.Entry) → HoldAll K.kind version start (D.state (disk_of opened.value)).content whole → (payloads : Entries (Entries ℕ)) → Holds (D.state (disk_of journal)).content version K.kind.number payloads → ComeBefore K.kind (slot_in_use (slots_of journal)) (start_of (slots_of journal)) payloads snapshot } by { Prim.hlevel (props, ComeBefore-prop) },
    ghost images: { D.honest → (start : K.State) → (whole : Entries K.Entry) → HoldAll K.kind version start (D.state (disk_of opened.value)).content whole → (b : Entries ℕ) → (D.state (disk_of journal)).IsImage b → MayHoldAll K.kind version start (whole ++ added.items) undecided b } by { Prim.hlevel (props, MayHoldAll-prop) },
}
