//! Laws of followers. The functions do nothing: each holds a proof.
ghost use Rattle.std.specs.Prelude.{◌≡◌, ◌⊎◌, ◌<◌, ◌≤◌, ◌++◌, ℕ, List, [], length, None, Some};
ghost use Rattle.qz_types.specs.Entries.{EntryData};
ghost use Rattle.qz_types.specs.Tables.{SchedulerTables};
ghost use Rattle.qz_model.specs.History.{replay_from};
ghost use Rattle.qz_stream.specs.Blocks.{IsEnd};
ghost use Rattle.qz_stream.specs.Standing.{header_length_of};
ghost use Rattle.qz_trigger_store.specs.Bytes.{Whole, IsWhole};
ghost use Rattle.qz_follow.specs.Following.{Following, HasTaken, IsFollowable, IsFault, IsFollowed, IsEnded};
ghost use Rattle.qz_follow.specs.Payloads.{IsSeen};
ghost use Rattle.qz_follow.specs.declared.faults.FollowFault.{FollowFault as Fault};
ghost use Rattle.qz_follow.specs.declared.faults.FollowFault.TheVariants as fault;

/// With no fault the entries are all that the bytes have, from their start on, and after a fault the first of them. The bytes have one
/// start and one list of entries, so it doesn't matter how they were cut. Those of a store that can be followed have an end of the
/// entries of that store, and start with what those before it leave: so they leave the same tables.
pub fn entries_are_those_of_the_bytes()
    ensures taken { (fed : List ℕ) (f : Following) → IsFollowed fed f → f.fault ≡ None → HasTaken f.version fed f.start f.entries }
    ensures first { (fed : List ℕ) (f : Following) (start : SchedulerTables) (es : List EntryData) → IsFollowed fed f → HasTaken f.version fed start es
        → ((more : List EntryData) × (es ≡ f.entries ++ more)) × ((f.start ≡ start) ⊎ (f.entries ≡ [])) }
    ensures once { (version : ℕ) (bytes : List ℕ) (T U : SchedulerTables) (es fs : List EntryData) → HasTaken version bytes T es → HasTaken version bytes U fs → (T ≡ U) × (es ≡ fs) }
    ensures store { (w : Whole) (bytes : List ℕ) → IsWhole w bytes → IsFollowable w bytes
        → ∥ ((earlier : List EntryData) × (later : List EntryData) × (w.entries ≡ earlier ++ later) × HasTaken w.version bytes (replay_from w.start earlier) later) ∥₁ }
{}

/// A fault that is answered is the first that the bytes have, and where they have one, one is answered.
pub fn faults_are_told()
    ensures first { (fed : List ℕ) (f : Following) (x : Fault) → IsFollowed fed f → f.fault ≡ Some x → IsFault f.version fed f.start f.entries x }
    ensures told { (fed : List ℕ) (f : Following) (start : SchedulerTables) (es : List EntryData) (x : Fault) → IsFollowed fed f → IsFault f.version fed start es x → IsSeen x → (y : Fault) × (f.fault ≡ Some y) }
{}

/// The end of the stream is told, and that the header isn't whole.
pub fn ends_are_told()
    ensures ended { (fed : List ℕ) (f : Following) → IsFollowed fed f → IsEnded f → (payloads : List (List ℕ)) × (gate : ℕ) × IsEnd fed payloads gate }
    ensures end { (fed : List ℕ) (f : Following) (payloads : List (List ℕ)) (gate : ℕ) → IsFollowed fed f → f.fault ≡ None → IsEnd fed payloads gate → IsEnded f }
    ensures header { (fed : List ℕ) (f : Following) (n : ℕ) → IsFollowed fed f → header_length_of f.standing ≡ Some n → (n ≡ length fed) × (length fed < 16) }
    ensures short { (fed : List ℕ) (f : Following) → IsFollowed fed f → ((at : ℕ) → f.fault ≡ Some (fault.BadStream at) → 16 ≤ at) → length fed < 16 → header_length_of f.standing ≡ Some (length fed) }
{}
