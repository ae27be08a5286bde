//! An example of the laws, computed: it shows that there are histories of which they say something.
ghost use Rattle.std.specs.Prelude.{◌≡◌, List, [], ◌∷◌, ◌++◌, IsTrue, map};
ghost use Rattle.std.specs.List.{AllByRecursion};
ghost use Rattle.qz_types.specs.Entries.{is_entry};
ghost use Rattle.qz_model.specs.History.{IsLegalFrom};
ghost use Rattle.qz_model.specs.Invariant.{TablesValid};
ghost use Rattle.qz_laws.specs.Before.{WasLegalFrom};
ghost use Rattle.qz_laws.specs.Example.{example_tables, example_entries};
ghost use Rattle.qz_laws.specs.Losses.{lost_from, recoveries_from};

/// Node a executes three jobs, entries 3 to 5. The first and the last ask for recovery, but the last job is deleted while it
/// executes. Node b recovers a: all three are lost, and the first alone is recovered, once. All of that was legal already before
/// groups of jobs could be paused.
pub fn three_lost_executions()
    ensures tables { TablesValid example_tables }
    ensures valid { AllByRecursion (λ e. IsTrue (is_entry e)) example_entries }
    ensures legal { IsLegalFrom example_tables example_entries }
    ensures was_legal { WasLegalFrom example_tables example_entries }
    ensures lost { map (λ l. l.row.entry) (lost_from example_tables example_entries) ≡ 3 ∷ 4 ∷ 5 ∷ [] }
    ensures asked { map (recoveries_from example_tables example_entries) (3 ∷ 4 ∷ 5 ∷ []) ≡ 1 ∷ 0 ∷ 0 ∷ [] }
{}
