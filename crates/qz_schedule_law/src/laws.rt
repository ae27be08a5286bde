//! The law, as the contract of a function that does nothing: so it is proved, and a program that rests on it can call it.
ghost use Rattle.std.specs.Prelude.{◌≡◌, ℤ, List, [], ◌∷◌, ◌++◌, Some, IsTrue};
ghost use Rattle.std.specs.List.{AllByRecursion};
ghost use Rattle.qz_types.specs.Rows.{TriggerData};
ghost use Rattle.qz_types.specs.Entries.{EntryData, is_entry};
ghost use Rattle.qz_types.specs.Outcomes.{accepted};
ghost use Rattle.qz_types.specs.Tables.{SchedulerTables};
ghost use Rattle.qz_types.specs.Words.{trigger_of};
ghost use Rattle.qz_types.specs.declared.keys.Key.{Key as TriggerKey};
ghost use Rattle.qz_types.specs.declared.replies.Reply.{Reply as StoreReply};
ghost use Rattle.qz_plan.specs.FireTimes.{AreFireTimes};
ghost use Rattle.qz_model.specs.History.{IsLegalFrom, replay_from, replies_from};
ghost use Rattle.qz_model.specs.Invariant.{TablesValid};
ghost use Rattle.qz_model.specs.Plan.{zone_named_by, stretches_for, zoned_chain, next_after, first_time};
ghost use Rattle.qz_model.specs.Transaction.{transaction};
ghost use Rattle.qz_schedule_law.specs.Following.{FollowsFrom};
ghost use Rattle.qz_schedule_law.specs.Turns.{onto_times, fired_times, AreInTurn, AreAllFrom, IsPrefix};
ghost use Rattle.qz_schedule_law.specs.Undisturbed.{IsUndisturbed, GoesOn, IsStretch, IsStoredBy};

/// A trigger fires for the times of its schedule up to the horizon, one after the other, none left out and none twice, as long as
/// nothing disturbs it: it isn't removed or replaced, no Misfired reply lists it, no calendar of its chain is replaced, and no
/// Upgrade moves the horizon. So it is from any moment of a legal history on; and from the entry on that stored it, its times are
/// the first ones of its schedule, up to the horizon of the tables that it was stored in.
pub fn triggers_fire_their_schedule()
    ensures step { (T U : SchedulerTables) (e : EntryData) (r : StoreReply) (key : TriggerKey) (t u : TriggerData) → TablesValid T → transaction T e ≡ accepted U r → trigger_of key T.triggers ≡ Some t → trigger_of key U.triggers ≡ Some u → IsUndisturbed key T e.command r U → (u.spec ≡ t.spec) × AreInTurn (next_after T t.spec) t.next (onto_times key r []) u.next }
    ensures history { (T : SchedulerTables) (es : List EntryData) (key : TriggerKey) (t u : TriggerData) → IsStretch T es key t u → (u.spec ≡ t.spec) × AreInTurn (next_after T t.spec) t.next (fired_times key (replies_from T es)) u.next }
    ensures any_moment { (T : SchedulerTables) (before es : List EntryData) (key : TriggerKey) (t u : TriggerData) → TablesValid T → AllByRecursion (λ e. IsTrue (is_entry e)) (before ++ es) → IsLegalFrom T (before ++ es) → trigger_of key (replay_from T before).triggers ≡ Some t → trigger_of key (replay_from T (before ++ es)).triggers ≡ Some u → GoesOn key (replay_from T before) es → IsStretch (replay_from T before) es key t u }
    ensures whole { (T : SchedulerTables) (es : List EntryData) (key : TriggerKey) (t u : TriggerData) (rest : List ℤ) → IsStretch T es key t u → AreAllFrom (next_after T t.spec) u.next rest → AreAllFrom (next_after T t.spec) t.next (fired_times key (replies_from T es) ++ rest) }
    ensures from_the_start { (T : SchedulerTables) (e : EntryData) (es : List EntryData) (key : TriggerKey) (t u : TriggerData) → IsStoredBy T e es key t u → AreInTurn (next_after T t.spec) (first_time T t.spec) (fired_times key (replies_from T (e ∷ es))) u.next }
    ensures prefix { (T : SchedulerTables) (e : EntryData) (es : List EntryData) (key : TriggerKey) (t u : TriggerData) (all : List ℤ) → IsStoredBy T e es key t u → AreFireTimes T.horizon t.spec.timing (stretches_for T.zones (zone_named_by t.spec.timing.kind)) (zoned_chain T t.spec.calendar) all → IsPrefix (fired_times key (replies_from T (e ∷ es))) all }
    // So it is in each legal history.
    ensures everywhere { (T : SchedulerTables) (all : List EntryData) → TablesValid T → AllByRecursion (λ e. IsTrue (is_entry e)) all → IsLegalFrom T all → FollowsFrom T all }
{}
