//! The laws, each as the contract of a function that does nothing: so they are proved, and a program that rests on one
//! can call it.
ghost use Rattle.std.specs.Prelude.{◌≡◌, ℕ, List, [], IsTrue};
ghost use Rattle.std.specs.List.{AllByRecursion};
ghost use Rattle.qz_types.specs.Rows.{MemberData};
ghost use Rattle.qz_types.specs.Entries.{EntryData, is_entry};
ghost use Rattle.qz_types.specs.Tables.{SchedulerTables, empty};
ghost use Rattle.qz_model.specs.History.{History, IsLegal, replies, IsLegalFrom, replay_from, replies_from};
ghost use Rattle.qz_model.specs.Invariant.{TablesValid};
ghost use Rattle.qz_laws.specs.Before.{WasLegalFrom, replay_before, replies_before};
ghost use Rattle.qz_laws.specs.Fence.{IsGone, NeverActs};
ghost use Rattle.qz_laws.specs.Losses.{lost_from, IsBegunByOne, AreExact};

/// Each execution that is lost with a failed node is recovered by exactly one trigger if it asked for it, else by none:
/// over each legal history that begins with a new store, of either format version, or goes on from any valid tables. It asked where its job did when
/// it began: a reply handed the job out to its node, with the flag that counts.
pub fn lost_executions_are_recovered_once()
    ensures new_store { (h : History) (version : ℕ) → h.base ≡ empty version → AllByRecursion (λ e. IsTrue (is_entry e)) h.entries → IsLegal h → AreExact h.base h.entries }
    ensures begun { (h : History) (version : ℕ) → h.base ≡ empty version → AllByRecursion (λ e. IsTrue (is_entry e)) h.entries → IsLegal h → AllByRecursion (λ l. IsBegunByOne l.row (replies h)) (lost_from h.base h.entries) }
    ensures any_store { (T : SchedulerTables) (es : List EntryData) → TablesValid T → AllByRecursion (λ e. IsTrue (is_entry e)) es → IsLegalFrom T es → AreExact T es }
{}

/// A node that isn't a member any more never acts again under its epoch: no entry of a legal history that follows is its
/// own. It can join again, and has another epoch then.
pub fn gone_nodes_never_act()
    ensures { (T : SchedulerTables) (es : List EntryData) (me : MemberData) → TablesValid T → AllByRecursion (λ e. IsTrue (is_entry e)) es → IsLegalFrom T es → IsGone T me → NeverActs me es }
{}

/// A history that was legal before groups of jobs could be paused, when tables were smaller, is legal still, with the same
/// replies and the same tables, in which no group of jobs is paused. It may begin with any tables that have no such group, as
/// those of a new store.
pub fn old_histories_stay_legal()
    ensures legal { (T : SchedulerTables) (es : List EntryData) → T.paused_job_groups ≡ [] → WasLegalFrom T es → IsLegalFrom T es }
    ensures replies { (T : SchedulerTables) (es : List EntryData) → T.paused_job_groups ≡ [] → WasLegalFrom T es → replies_from T es ≡ replies_before T es }
    ensures tables { (T : SchedulerTables) (es : List EntryData) → T.paused_job_groups ≡ [] → WasLegalFrom T es → replay_from T es ≡ replay_before T es }
    ensures no_job_groups { (T : SchedulerTables) (es : List EntryData) → T.paused_job_groups ≡ [] → WasLegalFrom T es → (replay_from T es).paused_job_groups ≡ [] }
{}
