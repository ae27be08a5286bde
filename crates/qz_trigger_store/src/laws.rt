//! Laws of the store's definitions.
ghost use Rattle.std.specs.Prelude.{◌≡◌, ◌+◌, ℕ, List, length, Bool, Option, IsTrue, IfSome, Result as Answer};
ghost use Rattle.std.specs.List.{AllByRecursion};
ghost use Rattle.qz_civil.specs.declared.limits.TheConstants.{VERSION_ONE_LAST};
ghost use Rattle.qz_types.specs.Rows.{TriggerData};
ghost use Rattle.qz_types.specs.Tables.{SchedulerTables, IsMoment};
ghost use Rattle.qz_model.specs.History.{History, replay};
ghost use Rattle.qz_types.specs.Entries.{EntryData, is_entry};
ghost use Rattle.qz_types.specs.declared.errors.SubmitError.{SubmitError as Error};
ghost use Rattle.qz_types.specs.declared.replies.Reply.{Reply as Answered};
ghost use Rattle.qz_trigger_store.specs.Bytes.{Whole, BeginsAs, IsWhole, MayBe, AreEnds};
ghost use Rattle.qz_trigger_store.specs.Entries.{TriggerState, trigger_entry};
ghost use Rattle.qz_trigger_store.specs.Kinds.{trigger_kind};
ghost use Rattle.qz_trigger_store.specs.Opening.{IsSound, IsOpened};
ghost use Rattle.qz_stores.specs.Bases.{Opens};
ghost use Rattle.qz_stores.specs.Checkpoints.{Checks};
ghost use Rattle.qz_stores.specs.Stores.{Submits, Shuts};

/// Whatever submitting an entry comes to, it leaves a legal history from valid tables on, valid tables, and a payload for each
/// entry at least, where it found them so. It does nothing: its contract says so.
#[tactic(auto, using(crate::proofs::Sound::submitted_sound))]
pub fn submitting_keeps_stores_sound()
    ensures { (e : EntryData) (answer : Answer Answered Error) (s t : TriggerState) → IsTrue (is_entry e) → Submits trigger_entry e answer s t → IsSound s → IsSound t }
{}

/// A restart leaves all that too, when it begins and when it ends with a store that was opened. It does nothing: its
/// contract says so.
#[tactic(auto, using(crate::proofs::Sound::shut_sound, crate::proofs::Sound::opened_sound))]
pub fn restarting_keeps_stores_sound()
    ensures shut { (s t : TriggerState) → Shuts s t → IsSound s → IsSound t }
    // also on a disk of which nothing is known
    ensures opened { (s t : TriggerState) → Opens trigger_kind ⊥ s t → IsOpened t → IsSound t }
{}

/// Whatever a checkpoint comes to, it leaves all that too. It does nothing: its contract says so.
#[tactic(auto, using(crate::proofs::Sound::checked_sound))]
pub fn checkpoints_keep_stores_sound()
    ensures { (answer : Answer Bool Error) (s t : TriggerState) → Checks answer s t → IsSound s → IsSound t }
{}

/// Histories that are ends of one whole list leave the same tables, after as many entries in all; and whatever bytes a crash
/// leaves hold a whole list with the same start, so that they can be opened. It does nothing: its contract says so.
#[tactic(auto, using(crate::proofs::Ends::opened_again))]
pub fn histories_of_one_list()
    ensures tables { (start : SchedulerTables) (h g : History) → AreEnds start h g → replay h ≡ replay g }
    ensures count { (start : SchedulerTables) (h g : History) → AreEnds start h g → h.base_count + length h.entries ≡ g.base_count + length g.entries }
    ensures opened_again { (w : Whole) (h : History) (undecided : Option EntryData) (bytes : List ℕ) → MayBe w h undecided bytes → (v : Whole) × BeginsAs w v × IsWhole v bytes }
{}

/// No next time of a store of version 1 passes the last millisecond of 2099, until the store is upgraded. It does nothing:
/// its contract says so.
pub fn old_stores_fire_until_2099()
    ensures { (s : TriggerState) → IsSound s → (replay s.history).horizon ≡ VERSION_ONE_LAST → ∥ AllByRecursion (λ (t : TriggerData). IfSome t.next (IsMoment VERSION_ONE_LAST)) (replay s.history).triggers ∥₁ }
{}
