//! A state store under a row.
use qz_checkin::StateStore;
use qz_disk::Disk;
use qz_rounds::RoundStore;
use qz_shared::RowStore;
use qz_types::{Evidence, NoMemory, StateCommand, StateEntry, SubmitError, Text};

/// A state store, as it lies under a row.
#[derive(Drop)]
pub struct SharedStates<D: Disk> {
    pub store: StateStore<D>,
}

impl<D: Disk> RowStore for SharedStates<D> {
    type Entry = StateEntry;

    type Reply = ();

    ghost use Rattle.std.specs.Prelude.{⊤};
    ghost use Rattle.std.proofs.Common.{refl};
    ghost use Rattle.qz_checkin.specs.Entries.{of_states};
    ghost use Rattle.qz_checkin.specs.History.{StateHistory};
    ghost use Rattle.qz_checkin.specs.View.{view};
    ghost use Rattle.qz_run_stores.specs.Going.{StatesWent};
    ghost use Rattle.qz_shared_stores.specs.Laws.{state_histories_once, states_begun};

    ghost History = { StateHistory };

    ghost kind = { of_states };

    ghost listed = { λ h. h.entries };

    ghost seat_of = { λ e. e.seat };

    ghost IsProper = { λ e. ⊤ };

    ghost state = { λ s. view s.store };

    ghost Went = { λ first now. StatesWent first.store now.store };

    ghost histories_once = { state_histories_once };

    fn history_len(&self) -> u64 {
        self.store.history_len()
    }

    fn closed(&self) -> bool {
        self.store.closed()
    }

    fn submit(&mut self, entry: StateEntry) -> Result<(), SubmitError> {
        let StateEntry { at, seat, command } = entry;
        match command {
            StateCommand::CheckIn { node, interval } => {
                self.store.check_in(at, seat, &node, interval)
            }
            StateCommand::Forget { node, last } => self.store.forget(at, seat, &node, last),
        }
    }

    ghost lists = { λ e h. refl };

    ghost begun = { λ s. states_begun (λ disk honest. D.lawful honest disk) s.store };
}

impl<D: Disk> RoundStore for SharedStates<D> {
    ghost use Rattle.std.proofs.Common.{refl, ap};
    ghost use Rattle.qz_checkin.specs.History.{replay_states};
    ghost use Rattle.qz_checkin.specs.View.{view};
    ghost use Rattle.qz_shared_stores.specs.Laws.{check_in_refused};

    ghost tables = { λ s. replay_states (view s.store).history };

    fn last_moment(&self) -> i64 {
        self.store.last_moment()
    }

    fn failed(&self, at: i64, own: &Text) -> Result<Option<Evidence>, NoMemory> {
        self.store.failed(at, own)
    }

    ghost tables_by_history = { λ s t same. ap replay_states same };

    ghost check_in_refused = { check_in_refused };

    ghost is_seat = { λ e. refl };

    ghost all_proper = { λ e. tt };
}
