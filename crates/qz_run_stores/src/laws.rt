//! That the log of a run is the store's own account, as the contract of a function that does nothing.
ghost use Rattle.std.specs.Prelude.{◌≡◌, List as Items, [], map, reverse};
ghost use Rattle.qz_types.specs.Entries.{EntryData};
ghost use Rattle.qz_types.specs.Tables.{SchedulerTables};
ghost use Rattle.qz_model.specs.History.{IsLegalFrom, replies_from, moments_from};
ghost use Rattle.qz_run_stores.specs.Accounts.{events_onto};

/// The log of a run has the entries that the store accepted, each once and the latest first, with the replies and the
/// recorded moments that the store keeps.
pub fn logs_are_the_stores_account()
    ensures replies { (T : SchedulerTables) (es : Items EntryData) → IsLegalFrom T es → map (λ e. e.reply) (events_onto [] T es) ≡ reverse (replies_from T es) }
    ensures moments { (T : SchedulerTables) (es : Items EntryData) → map (λ e. e.moment) (events_onto [] T es) ≡ reverse (moments_from T es) }
{}
