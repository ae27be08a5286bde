//! Laws of the layout. The functions do nothing: each holds a proof.
ghost use Rattle.std.specs.Prelude.{◌≡◌, ◌^◌, ◌∷◌, ◌++◌, [], ℕ, List, Option, Some, take};
ghost use Rattle.qz_journal.specs.Layout.{HasHeader, IsStore, Holds, front_of, other_kind};
ghost use Rattle.qz_journal.specs.Opening.{IsDamaged};
ghost use Rattle.qz_journal.specs.Slots.{IsSlot, slots_of, slot_in_use, free_slot, IsSlotWrite, IsTrueOffset, HasTrueSlots};
ghost use Rattle.qz_journal.specs.Tails.{start_of, IsTail, IsCounted, IsTailRefused};

use crate::layout::{
    CLOSED_GATE, FRAME_LENGTH, HEAD, HEAD_LENGTH, HEADER_LENGTH, MAX_BLOCK, MAX_BYTES, MAX_PAYLOAD,
    MAX_PAYLOADS, OPEN_GATE, STATES, TRIGGERS, VERSION, WINDOW,
};
use crate::slots::{SLOT_A, SLOT_B};
use crate::{MountError, Slots};

/// Bytes hold at most one list of payloads, in one version, or are damaged at one offset, and never both; and they begin
/// as a store of at most one kind. So an opening has one right answer. A store that can be opened is one that `create`
/// leaves alone.
pub fn layout_is_unique()
    ensures one_list { (bytes : List ℕ) (v w kind : ℕ) (ps qs : List (List ℕ)) → Holds bytes v kind ps → Holds bytes w kind qs → ps ≡ qs }
    ensures one_version { (bytes : List ℕ) (v w kind : ℕ) (ps qs : List (List ℕ)) → Holds bytes v kind ps → Holds bytes w kind qs → v ≡ w }
    ensures one_place { (bytes : List ℕ) (kind a b : ℕ) → IsDamaged bytes kind a → IsDamaged bytes kind b → a ≡ b }
    ensures not_both { (bytes : List ℕ) (version kind at : ℕ) (ps : List (List ℕ)) → Holds bytes version kind ps → IsDamaged bytes kind at → ⊥ }
    ensures one_kind { (bytes : List ℕ) (kind : ℕ) → IsStore kind bytes → IsStore (other_kind kind) bytes → ⊥ }
    ensures header { (bytes : List ℕ) (kind : ℕ) → HasHeader kind bytes → IsStore kind bytes }
{}

/// From the slot in use on, bytes hold at most one list of payloads, or an opening of the tail is refused, and never both. So
/// it has one right answer, too.
pub fn tail_is_unique()
    ensures one_list { (bytes : List ℕ) (v w kind start : ℕ) (ps qs : List (List ℕ)) → IsTail bytes v kind start ps → IsTail bytes w kind start qs → ps ≡ qs }
    ensures not_both { (bytes : List ℕ) (version kind count at : ℕ) (ps qs : List (List ℕ)) → IsTail bytes version kind (start_of (slots_of bytes)) ps
        → IsCounted (slot_in_use (slots_of bytes)) count ps → IsTailRefused bytes kind qs (MountError.Damaged at) → ⊥ }
{}

/// What was written to one slot leaves the payloads, and leaves the slots true of them if the offset is. A payload more leaves
/// them true, too. The slot that isn't in use is always A or B.
pub fn slots_keep_payloads()
    ensures payloads { (gate : ℕ) (offset : Option ℕ) (old new : List ℕ) (version kind : ℕ) (ps : List (List ℕ))
        → IsSlotWrite gate offset old new → Holds old version kind ps → Holds new version kind ps }
    ensures stay_true { (gate : ℕ) (offset : Option ℕ) (old new : List ℕ) (ps : List (List ℕ)) → IsSlot gate → IsSlotWrite gate offset old new
        → ((o : ℕ) → offset ≡ Some o → IsTrueOffset ps o) → HasTrueSlots old ps → HasTrueSlots new ps }
    ensures appended { (old new : List ℕ) (ps : List (List ℕ)) (p : List ℕ) → take 16 new ≡ take 16 old → HasTrueSlots old ps → HasTrueSlots new (ps ++ p ∷ []) }
    ensures free { (s : Slots) → IsSlot (free_slot s) }
{}

/// The numbers of the format, and how far an opening looks past a gate, each as a literal.
pub fn format_is()
    ensures kinds { (TRIGGERS ≡ 84) × (STATES ≡ 83) }
    ensures front { (version kind : ℕ) → front_of version kind ≡ 81 ∷ 90 ∷ 50 ∷ 51 ∷ version ∷ kind ∷ [] }
    ensures written { VERSION ≡ 2 }
    ensures gates { (OPEN_GATE ≡ 165) × (CLOSED_GATE ≡ 0) }
    ensures header { HEADER_LENGTH ≡ 16 }
    ensures payload { MAX_PAYLOAD ≡ 32768 }
    ensures frame { FRAME_LENGTH ≡ 5 }
    ensures block { MAX_BLOCK ≡ 32773 }
    ensures slots { (SLOT_A ≡ 6) × (SLOT_B ≡ 11) }
    ensures head { (HEAD ≡ 240) × (HEAD_LENGTH ≡ 5) }
    ensures limits { (MAX_BYTES ≡ 2 ^ 29) × (MAX_PAYLOADS ≡ 2 ^ 23) }
    ensures window { WINDOW ≡ 65536 }
{}
