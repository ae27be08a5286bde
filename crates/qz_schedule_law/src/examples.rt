//! An example of the law, computed: it shows that there are histories of which it says something.
ghost use Rattle.std.specs.Prelude.{◌≡◌, pos, List, [], ◌∷◌, Some, IsTrue, option_and_then};
ghost use Rattle.std.specs.List.{AllByRecursion};
ghost use Rattle.qz_types.specs.Entries.{is_entry};
ghost use Rattle.qz_types.specs.Words.{trigger_of};
ghost use Rattle.qz_model.specs.History.{tables_left, IsLegalFrom, replay_from, replies_from};
ghost use Rattle.qz_model.specs.Invariant.{TablesValid};
ghost use Rattle.qz_model.specs.Transaction.{transaction};
ghost use Rattle.qz_schedule_law.specs.Example.{example_key, example_tables, storing, firings};
ghost use Rattle.qz_schedule_law.specs.Turns.{fired_times};
ghost use Rattle.qz_schedule_law.specs.Undisturbed.{GoesOn};

/// A trigger that fires every 2 ms from 0 on is stored and fired twice: for 0 ms and for 2 ms, and next for 4 ms.
pub fn two_firings()
    ensures tables { TablesValid example_tables }
    ensures valid { AllByRecursion (λ e. IsTrue (is_entry e)) (storing ∷ firings) }
    ensures legal { IsLegalFrom example_tables (storing ∷ firings) }
    ensures undisturbed { GoesOn example_key (tables_left example_tables (transaction example_tables storing)) firings }
    ensures times { fired_times example_key (replies_from example_tables (storing ∷ firings)) ≡ pos 0 ∷ pos 2 ∷ [] }
    ensures next { option_and_then (λ t. t.next) (trigger_of example_key (replay_from example_tables (storing ∷ firings)).triggers) ≡ Some (pos 4) }
{}
