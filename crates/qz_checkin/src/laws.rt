//! Laws of the store's definitions.
ghost use Rattle.std.specs.Prelude.{◌≡◌, ⊤, ℕ, List, Option, Result as Answer};
ghost use Rattle.qz_types.specs.Entries.{StateEntryData};
ghost use Rattle.qz_types.specs.declared.errors.SubmitError.{SubmitError as Error};
ghost use Rattle.qz_checkin.specs.Entries.{StatesState, of_states};
ghost use Rattle.qz_checkin.specs.History.{StateHistory, replay_states};
ghost use Rattle.qz_checkin.specs.Kinds.{state_kind};
ghost use Rattle.qz_checkin.specs.Bytes.{Whole, BeginsAs, IsWhole, MayBe, AreEnds};
ghost use Rattle.qz_checkin.specs.Opening.{IsSound, IsOpened};
ghost use Rattle.qz_checkin.specs.Rows.{StateTables};
ghost use Rattle.qz_stores.specs.Stores.{Submits, Shuts};
ghost use Rattle.qz_stores.specs.Bases.{Opens};

/// Whatever submitting an entry comes to, it leaves a legal history from a new store on, valid rows, and for an open
/// store a gate after no fewer payloads than entries, where it found them so. It does nothing: its contract says so.
#[tactic(auto, using(crate::proofs::Sound::submitted_sound))]
pub fn submitting_keeps_stores_sound()
    ensures { (e : StateEntryData) (answer : Answer ⊤ Error) (s t : StatesState) → Submits of_states e answer s t → IsSound s → IsSound t }
{}

/// A restart leaves all that too, when it begins and when it ends with a store that was opened. It does nothing: its
/// contract says so.
#[tactic(auto, using(crate::proofs::Sound::shut_sound, crate::proofs::Sound::opened_sound))]
pub fn restarting_keeps_stores_sound()
    ensures shut { (s t : StatesState) → Shuts s t → IsSound s → IsSound t }
    // also on a disk of which nothing is known
    ensures opened { (s t : StatesState) → Opens state_kind ⊥ s t → IsOpened t → IsSound t }
{}

/// Histories that are ends of one whole list leave the same rows. What a crash leaves of a history is a whole list with the same
/// start, so that it can be opened again. It does nothing: its contract says so.
#[tactic(auto, using(crate::proofs::Histories::may_hold))]
pub fn histories_of_one_list()
    ensures rows { (start : StateTables) (h g : StateHistory) → AreEnds start h g → replay_states h ≡ replay_states g }
    ensures whole { (w : Whole) (h : StateHistory) (undecided : Option StateEntryData) (bytes : List ℕ) → MayBe w h undecided bytes → (v : Whole) × BeginsAs w v × IsWhole v bytes }
{}
