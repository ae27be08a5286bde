//! Laws of the model, each as the contract of a function that does nothing: so they are proved, and a program that rests on
//! one can call it.
ghost use Rattle.std.specs.Prelude.{◌≡◌, ℕ, ◌≤◌, Bool, List, IsTrue, count_by};
ghost use Rattle.std.specs.List.{AllByRecursion};
ghost use Rattle.qz_types.specs.Entries.{is_entry};
ghost use Rattle.qz_types.specs.Rows.{TriggerData};
ghost use Rattle.qz_types.specs.Tables.{empty};
ghost use Rattle.qz_types.specs.Due.{in_due_order};
ghost use Rattle.qz_types.specs.declared.keys.Key.{Key as JobKey};
ghost use Rattle.qz_model.specs.Due.{IsInDueOrder};
ghost use Rattle.qz_model.specs.Executions.{is_exclusive_of};
ghost use Rattle.qz_model.specs.History.{History, IsLegal, replay};
ghost use Rattle.qz_model.specs.Invariant.{TablesValid};

/// Triggers put in due order are in it, and are the same ones: each test passes as many of them as before.
pub fn due_order_is_sorted()
    ensures sorted { (ts : List TriggerData) → IsInDueOrder (in_due_order ts) }
    ensures same { (p : TriggerData → Bool) (ts : List TriggerData) → count_by p (in_due_order ts) ≡ count_by p ts }
{}

/// Each legal history of valid entries that begins with a new store, of either format version, leaves valid tables.
pub fn legal_histories_leave_valid_tables()
    ensures { (h : History) (version : ℕ) → h.base ≡ empty version → AllByRecursion (λ e. IsTrue (is_entry e)) h.entries → IsLegal h → TablesValid (replay h) }
{}

/// Executions of a job exclude each other where it says so: after each legal history that begins with a new store, of either
/// format version, whatever nodes worked on it and in whatever order, a job key has at most one execution that excludes all others.
pub fn exclusive_executions_are_alone()
    ensures { (h : History) (version : ℕ) → h.base ≡ empty version → AllByRecursion (λ e. IsTrue (is_entry e)) h.entries → IsLegal h → (job : JobKey) → count_by (is_exclusive_of job) (replay h).fired ≤ 1 }
{}
