//! Both stores in a run.
ghost use Rattle.std.specs.Prelude.{◌≡◌, ◌≤◌, length, take, drop, true, false};
ghost use Rattle.qz_civil.specs.Causes.{Rose};
ghost use Rattle.qz_model.specs.History.{replay};
ghost use Rattle.qz_trigger_store.specs.Entries.{is_old};
ghost use Rattle.qz_trigger_store.specs.View.{view, version_of, base_count_of, base_of, found_of, keeps_of};
ghost use Rattle.qz_checkin.specs.View.{view as states_view};
ghost use Rattle.qz_run_stores.specs.Asked.{AreAsked};
ghost use Rattle.qz_run_stores.specs.Ways.{KeepsTriggers, KeepsStates};

use qz_checkin::StateStore;
use qz_disk::Disk;
use qz_trigger_store::TriggerStore;
use std::alloc::Global;
use std::snapshot::Snapshot;

/// Both stores, which nothing but the run changes.
#[derive(Drop)]
pub struct RunStores<D: Disk> {
    pub(crate) alloc: Global,
    pub(crate) triggers: TriggerStore<D>,
    pub(crate) states: StateStore<D>,
    // how many entries their histories listed when the run began
    pub(crate) entries_before: u64,
    pub(crate) rows_before: u64,
    // the stores as the run found them, which contracts alone see
    pub(crate) triggers_begun: Snapshot<TriggerStore<D>>,
    pub(crate) states_begun: Snapshot<StateStore<D>>,
    ghost current: { is_old (replay (view triggers).history) ≡ false },
    ghost entries_within: { entries_before ≤ length (view triggers).history.entries },
    ghost rows_within: { rows_before ≤ length (states_view states).history.entries },
    ghost entries_counted: { entries_before ≡ length (view triggers_begun.value).history.entries },
    ghost rows_counted: { rows_before ≡ length (states_view states_begun.value).history.entries },
    ghost version_stays: { version_of triggers ≡ version_of triggers_begun.value },
    ghost base_count_stays: { base_count_of triggers ≡ base_count_of triggers_begun.value },
    ghost base_stays: { base_of triggers ≡ base_of triggers_begun.value },
    ghost found_stays: { found_of triggers ≡ found_of triggers_begun.value },
    ghost keeps_stays: { keeps_of triggers ≡ keeps_of triggers_begun.value },
    ghost entries_stay: { take entries_before (view triggers).history.entries ≡ (view triggers_begun.value).history.entries },
    ghost asked: { ∥ AreAsked (replay (view triggers_begun.value).history) (drop entries_before (view triggers).history.entries) ∥₁ },
    ghost rows_stay: { take rows_before (states_view states).history.entries ≡ (states_view states_begun.value).history.entries },
    ghost kept: { ∥ KeepsTriggers triggers_begun.value triggers ∥₁ },
    ghost states_kept: { ∥ KeepsStates states_begun.value states ∥₁ },
    ghost later: { (view triggers_begun.value).faults ≤ (view triggers).faults },
    ghost states_later: { (states_view states_begun.value).faults ≤ (states_view states).faults },
    ghost closes: { (view triggers_begun.value).is_open ≡ true → (view triggers).is_open ≡ false → Rose (view triggers_begun.value).faults (view triggers).faults },
    ghost states_close: { (states_view states_begun.value).is_open ≡ true → (states_view states).is_open ≡ false → Rose (states_view states_begun.value).faults (states_view states).faults },
}
