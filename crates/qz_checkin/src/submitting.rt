//! One entry more.
ghost use Rattle.std.specs.Prelude.{◌≡◌, ◌≢◌, IsTrue, IfOk, OnErr, Err};
ghost use Rattle.qz_types.specs.Rows.{is_node, is_interval};
ghost use Rattle.qz_types.specs.declared.states.StateCommand.TheVariants.{CheckIn as CheckedIn, Forget as Forgotten};
ghost use Rattle.qz_checkin.specs.Rows.{state_of, check_in_refusal, forget_refusal};
ghost use Rattle.qz_checkin.specs.History.{replay_states};
ghost use Rattle.qz_checkin.specs.Entries.{of_states, IsDecision};
ghost use Rattle.qz_stores.specs.Stores.{Submits};
ghost use Rattle.qz_checkin.specs.View.{view, IsAsBefore, LeavesEither};

use crate::StateStore;
use qz_disk::Disk;
use qz_types::{NoMemory, Refusal, StateCommand, StateEntry, SubmitError, Text};

impl<D: Disk> StateStore<D> {
    /// Records that a node lives. `at` is a reading of the clock, in ms since 1970-01-01T00:00:00Z; `seat` says which of
    /// the callers that share the store asked, 0 for a lone caller; `interval` is how often the node means to check in,
    /// in ms. `RowsFull` is the refusal where the node has no row and there are as many as there may be. The errors are
    /// decided in their order, `Closed` and `Refused` without memory; `NoMemory` is returned only when the transaction would
    /// be accepted, and then it may be returned before `JournalFull`. All memory is taken before the first device call.
    /// After an error other than `Fault` all is as it was, and no device call was made.
    pub fn check_in(
        &mut self,
        at: i64,
        seat: u32,
        node: &Text,
        interval: i64,
    ) -> Result<(), SubmitError>
        requires node { IsTrue (is_node node.now) }
        requires interval { IsTrue (is_interval interval) }
        ensures one { Submits of_states (record { at = at; seat = seat; command = CheckedIn node.now interval }) result (view self.old) (view self.new) }
        ensures unchanged { result ≢ Err SubmitError.Fault → OnErr result (IsAsBefore self.old self.new) }
        ensures any_moment { D.honest → LeavesEither self.old self.new }
    {
        if let Err(error) = self.may_check_in(node) {
            return Err(error);
        }
        let Ok(node) = copy(node) else {
            return Err(SubmitError::NoMemory);
        };
        let command = StateCommand::CheckIn { node, interval };
        self.store.submit(StateEntry { at, seat, command })
    }

    /// Removes the row of a node that is gone, if it still has this last check-in, in ms since 1970-01-01T00:00:00Z. The
    /// refusals are `UnknownNode`, where the node has no row, and `Renewed`, where it has checked in since. All else is as
    /// at `check_in`.
    pub fn forget(&mut self, at: i64, seat: u32, node: &Text, last: i64) -> Result<(), SubmitError>
        requires { IsTrue (is_node node.now) }
        ensures one { Submits of_states (record { at = at; seat = seat; command = Forgotten node.now last }) result (view self.old) (view self.new) }
        ensures unchanged { result ≢ Err SubmitError.Fault → OnErr result (IsAsBefore self.old self.new) }
        ensures any_moment { D.honest → LeavesEither self.old self.new }
    {
        if let Err(error) = self.may_forget(node, last) {
            return Err(error);
        }
        let Ok(node) = copy(node) else {
            return Err(SubmitError::NoMemory);
        };
        let command = StateCommand::Forget { node, last };
        self.store.submit(StateEntry { at, seat, command })
    }

    /// Whether a check-in of this node would be accepted, apart from the room on the disk: else `Closed` or `Refused`. It
    /// takes no memory.
    pub fn may_check_in(&self, node: &Text) -> Result<(), SubmitError>
        ensures { IsDecision (view self.now) (check_in_refusal (replay_states (view self.now).history) (state_of node.now (replay_states (view self.now).history).rows)) result }
    {
        self.may(self.store.state().check_in_refusal(node))
    }

    /// Whether the row of this node with this last check-in would be removed, apart from the room on the disk: else
    /// `Closed` or `Refused`. It takes no memory.
    pub fn may_forget(&self, node: &Text, last: i64) -> Result<(), SubmitError>
        ensures { IsDecision (view self.now) (forget_refusal (state_of node.now (replay_states (view self.now).history).rows) last) result }
    {
        self.may(self.store.state().forget_refusal(node, last))
    }

    // Whether the store is open, and this is no refusal.
    fn may(&self, refusal: Option<Refusal>) -> Result<(), SubmitError>
        ensures { IsDecision (view self.now) refusal result }
    {
        if self.store.closed() {
            drop(refusal);
            let at = self.store.gate();
            return Err(SubmitError::Closed { at });
        }
        match refusal {
            None => Ok(()),
            Some(refusal) => Err(SubmitError::Refused(refusal)),
        }
    }
}

fn copy(node: &Text) -> Result<Text, NoMemory>
    ensures { IfOk result (λ copy. copy ≡ node.now) }
{
    Ok(node.clone()?)
}
