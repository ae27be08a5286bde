//! What a store shows of itself.
ghost use Rattle.std.specs.Prelude.{◌≡◌, length, not, IfOk, option_copied};
ghost use Rattle.qz_types.specs.Rows.{StateData};
ghost use Rattle.qz_types.specs.Sorted.{IsAscending};
ghost use Rattle.qz_types.specs.Words.{text_cmp};
ghost use Rattle.qz_checkin.specs.Rows.{state_of, state_moment};
ghost use Rattle.qz_checkin.specs.History.{replay_states};
ghost use Rattle.qz_checkin.specs.Lateness.{fresh_refusal, late_place, failed_by};
ghost use Rattle.qz_checkin.specs.View.{view, disk_of};

use crate::StateStore;
use qz_disk::Disk;
use qz_types::{Evidence, NoMemory, Refusal, StateRow, Text};

impl<D: Disk> StateStore<D> {
    /// The rows, in the order of the nodes' names.
    #[tactic(auto, using(crate::proofs::Looking::order_of))]
    pub fn rows(&self) -> &[StateRow]
        ensures value { result.now ≡ (replay_states (view self.now).history).rows }
        ensures order { ∥ IsAscending text_cmp (λ (r : StateData). r.node) result.now ∥₁ }
    {
        &self.store.state().rows
    }

    /// The row of a node.
    pub fn row(&self, node: &Text) -> Option<&StateRow>
        ensures { option_copied result ≡ state_of node.now (replay_states (view self.now).history).rows }
    {
        self.store.state().row(node)
    }

    /// The recorded moment of the last transaction, in ms since 1970-01-01T00:00:00Z; 0 before the first.
    pub fn last_moment(&self) -> i64
        ensures { result ≡ (replay_states (view self.now).history).last_moment }
    {
        self.store.state().last_moment
    }

    /// Why `own` doesn't take `failed` for failed at the recorded moment of a reading of the clock, in ms since
    /// 1970-01-01T00:00:00Z, or None where it does.
    pub fn fresh_refusal(&self, at: i64, own: &Text, failed: &Text) -> Option<Refusal>
        ensures { result ≡ fresh_refusal (replay_states (view self.now).history) (state_moment (replay_states (view self.now).history) at) own.now failed.now }
    {
        self.store.state().fresh_refusal(at, own, failed)
    }

    /// The place of the first of the rows whose node `own` takes for failed at the recorded moment of a reading of the
    /// clock. None is answered only where there is none.
    pub fn late_place(&self, at: i64, own: &Text) -> Option<u32>
        ensures { result ≡ late_place (replay_states (view self.now).history) (state_moment (replay_states (view self.now).history) at) own.now }
    {
        self.store.state().late_place(at, own)
    }

    /// The node of that row, its last check-in, and until when it wasn't late.
    pub fn failed(&self, at: i64, own: &Text) -> Result<Option<Evidence>, NoMemory>
        ensures { IfOk result (λ found. found ≡ failed_by (replay_states (view self.now).history) (state_moment (replay_states (view self.now).history) at) own.now) }
    {
        self.store.state().failed(at, own)
    }

    /// How many entries the history has.
    pub fn history_len(&self) -> u64
        ensures { result ≡ length (view self.now).history.entries }
    {
        self.store.listed()
    }

    /// Whether a call of this store was answered `Fault`, or it crashed, and it wasn't opened since.
    pub fn closed(&self) -> bool
        ensures { result ≡ not (view self.now).is_open }
    {
        self.store.closed()
    }

    /// Gives the disk back.
    pub fn into_disk(self) -> D
        ensures { result ≡ disk_of self }
    {
        let StateStore { store } = self;
        store.into_disk()
    }
}
