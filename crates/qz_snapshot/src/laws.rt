//! Laws of snapshots.
ghost use Rattle.std.specs.Prelude.{◌≡◌, List, ℕ};
ghost use Rattle.qz_types.specs.Tables.{SchedulerTables};
ghost use Rattle.qz_snapshot.specs.Snapshots.{BeginSnapshot};

/// Payloads begin with a snapshot of one list of tables at most, with one number of payloads and of entries before it, and
/// it ends at one place. It does nothing: it is the place of that proof.
pub fn snapshots_are_read_in_one_way()
    ensures { (payloads more after : List (List ℕ)) (T U : SchedulerTables) (before other entries others : ℕ) → BeginSnapshot payloads T before entries more → BeginSnapshot payloads U other others after
        → (T ≡ U) × (before ≡ other) × (entries ≡ others) × (more ≡ after) }
{}
