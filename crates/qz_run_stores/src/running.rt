//! The stores, as a run asks them.
ghost use Rattle.std.specs.Prelude.{◌≡◌, false, [], length};
ghost use Rattle.qz_model.specs.History.{replay};
ghost use Rattle.qz_trigger_store.specs.Entries.{is_old};
ghost use Rattle.qz_trigger_store.specs.View.{view};
ghost use Rattle.qz_checkin.specs.View.{view as states_view};
ghost use Rattle.qz_run_stores.specs.View.{triggers_of, states_of, origin, entries_before, rows_before, run_state};
ghost use Rattle.qz_run_stores.specs.Going.{TriggersWent, StatesWent};

use crate::RunStores;
use crate::asking::declined;
use crate::names::node_name;
use qz_checkin::StateStore;
use qz_disk::Disk;
use qz_model::due_order_is_sorted;
use qz_run::{CHECK_IN_INTERVAL, Declined, NodeCommand, Stores};
use qz_trigger_store::TriggerStore;
use qz_types::Reply;
use std::alloc::Global;
use std::snapshot::Snapshot;

impl<D: Disk> RunStores<D> {
    /// Begins a run on these stores. A trigger store of version 1 has to be upgraded before.
    pub fn new(alloc: Global, triggers: TriggerStore<D>, states: StateStore<D>) -> RunStores<D>
        requires { is_old (replay (view triggers).history) ≡ false }
        ensures stores { (triggers_of result ≡ triggers) × (states_of result ≡ states) }
        ensures begun { origin result ≡ record { triggers = triggers; states = states } }
        ensures begins { (entries_before result ≡ length (view triggers).history.entries) × (rows_before result ≡ length (states_view states).history.entries) }
        ensures fresh { ((run_state result).log ≡ []) × ((run_state result).states.log ≡ []) }
    {
        let entries_before = triggers.listed();
        let rows_before = states.history_len();
        let triggers_begun = Snapshot::of(&triggers);
        let states_begun = Snapshot::of(&states);
        RunStores {
            alloc,
            triggers,
            states,
            entries_before,
            rows_before,
            triggers_begun,
            states_begun,
        }
    }

    /// Gives the stores back, as the run left them.
    pub fn into_stores(self) -> (TriggerStore<D>, StateStore<D>)
        ensures stores { (result.0 ≡ triggers_of self) × (result.1 ≡ states_of self) }
        ensures counted { (entries_before self ≡ length (view (origin self).triggers).history.entries) × (rows_before self ≡ length (states_view (origin self).states).history.entries) }
        // Their histories went on since the run began, and one that is closed had its disk fail.
        ensures triggers { TriggersWent (origin self).triggers result.0 }
        ensures states { StatesWent (origin self).states result.1 }
    {
        let RunStores {
            alloc: _,
            triggers,
            states,
            entries_before: _,
            rows_before: _,
            triggers_begun: _,
            states_begun: _,
        } = self;
        (triggers, states)
    }
}

impl<D: Disk> Stores for RunStores<D> {
    ghost use Rattle.qz_run_stores.specs.View.{run_state, Origin, origin, Declines, DeclinesRowOf};

    ghost state = { λ s. run_state s };

    ghost Origin = { Origin D.Disk };

    ghost origin = { λ s. origin s };

    ghost declines = { λ s n at command why. Declines s n at command why };

    ghost declines_row = { λ s n at command why. DeclinesRowOf s n at command why };

    fn submit(&mut self, at: i64, node: u32, command: NodeCommand) -> Result<Reply, Declined> {
        let Ok(entry) = self.entry(at, node, command) else {
            return Err(Declined::NoMemory);
        };
        match self.triggers.submit(entry) {
            Ok(reply) => Ok(reply),
            Err(error) => Err(declined(error)),
        }
    }

    fn check_in(&mut self, at: i64, node: u32) -> Result<(), Declined> {
        let Ok(name) = node_name(self.alloc, node) else {
            return Err(Declined::NoMemory);
        };
        match self.states.check_in(at, 0, &name, CHECK_IN_INTERVAL) {
            Ok(()) => Ok(()),
            Err(error) => Err(declined(error)),
        }
    }

    fn forget(&mut self, at: i64, node: u32) -> Result<(), Declined> {
        let Ok(name) = node_name(self.alloc, node) else {
            return Err(Declined::NoMemory);
        };
        let last = match self.states.row(&name) {
            Some(row) => row.last,
            None => unreachable!(),
        };
        match self.states.forget(at, 0, &name, last) {
            Ok(()) => Ok(()),
            Err(error) => Err(declined(error)),
        }
    }

    fn next_due(&self) -> Option<i64> {
        due_order_is_sorted();
        match self.triggers.tables().due_first() {
            Some(trigger) => trigger.next,
            None => None,
        }
    }

    fn last_moment(&self) -> i64 {
        self.triggers.tables().last_moment()
    }
}
