//! One transaction of a step.
ghost use Rattle.std.specs.Prelude.{◌≡◌, ℤ, IsTrue, IfOk, IfErr, OnErr};
ghost use Rattle.qz_types.specs.Rows.{is_node, is_interval};
ghost use Rattle.qz_trigger_store.specs.Entries.{trigger_entry};
ghost use Rattle.qz_checkin.specs.Entries.{of_states};
ghost use Rattle.qz_checkin.specs.History.{replay_states};
ghost use Rattle.qz_checkin.specs.Lateness.{last_of};
ghost use Rattle.qz_checkin.specs.Rows.{state_of};
ghost use Rattle.qz_cluster.specs.Script.{check_in_entry, forget_entry};
ghost use Rattle.qz_cluster.specs.Submitting.{Declined, Submitted, StatesSubmitted, Unsubmitted, unaccepted, answered};
ghost use Rattle.qz_cluster.specs.View.{view, KeepsStores, KeepsUnlessDone, EachLeavesEither};

use crate::{Cluster, StepEnd};
use qz_disk::Disk;
use qz_steps::StepReply;
use qz_types::{Entry, Reply, SubmitError, Text};

impl<D: Disk> Cluster<D> {
    /// One transaction of the trigger store.
    #[tactic(auto, using(crate::proofs::Unaccepted::replies, crate::proofs::Unaccepted::ends, crate::proofs::Unaccepted::keeps, crate::proofs::Unaccepted::stays))]
    pub(crate) fn submit(&mut self, entry: Entry) -> Result<StepReply, StepEnd>
        ensures ok { IfOk result (λ r. Submitted entry r (view self.old).triggers (view self.new).triggers) }
        ensures err { IfErr result (λ e. Unsubmitted trigger_entry entry e (view self.old).triggers (view self.new).triggers) }
        ensures held { self.new.held ≡ self.old.held }
        ensures states { self.new.states ≡ self.old.states }
        ensures keeps { IfOk result (λ r. KeepsUnlessDone r self.old self.new) }
        ensures unchanged { OnErr result (KeepsStores self.old self.new) }
        ensures standing { self.new.standing ≡ self.old.standing }
        ensures any_moment { D.honest → EachLeavesEither self.old self.new }
    {
        match self.triggers.submit(entry) {
            Ok(reply) => Ok(StepReply::Ok(reply)),
            Err(error) => unaccepted(error),
        }
    }

    /// What a transaction of the trigger store comes to for which there is no memory.
    #[tactic(auto, using(crate::proofs::Unaccepted::replies, crate::proofs::Unaccepted::ends, crate::proofs::Unaccepted::keeps, crate::proofs::Unaccepted::starves_here, crate::proofs::Unaccepted::nothing_changes))]
    pub(crate) fn decide(&self, entry: Entry) -> Result<StepReply, StepEnd>
        ensures ok { IfOk result (λ r. Submitted entry r (view self.now).triggers (view self.now).triggers) }
        ensures err { IfErr result (λ e. Unsubmitted trigger_entry entry e (view self.now).triggers (view self.now).triggers) }
        ensures keeps { IfOk result (λ r. KeepsUnlessDone r self.now self.now) }
        ensures any_moment { D.honest → EachLeavesEither self.now self.now }
    {
        let decided = self.triggers.check(&entry);
        drop(entry);
        match decided {
            Ok(()) => Err(StepEnd::NoMemory),
            Err(error) => unaccepted(error),
        }
    }

    /// A node's check-in, behind which the step has no other transaction.
    #[tactic(auto, using(crate::proofs::Unaccepted::states_reply, crate::proofs::Unaccepted::states_end, crate::proofs::Unaccepted::states_keep, crate::proofs::Unaccepted::states_stay))]
    pub(crate) fn submit_check_in(
        &mut self,
        node: &Text,
        interval: i64,
        at: i64,
    ) -> Result<StepReply, StepEnd>
        requires node { IsTrue (is_node node.now) }
        requires interval { IsTrue (is_interval interval) }
        ensures ok { IfOk result (λ r. StatesSubmitted (check_in_entry node.now interval at) r (view self.old).states (view self.new).states) }
        ensures err { IfErr result (λ e. Unsubmitted of_states (check_in_entry node.now interval at) e (view self.old).states (view self.new).states) }
        ensures held { self.new.held ≡ self.old.held }
        ensures triggers { self.new.triggers ≡ self.old.triggers }
        ensures keeps { IfOk result (λ r. KeepsUnlessDone r self.old self.new) }
        ensures unchanged { OnErr result (KeepsStores self.old self.new) }
        ensures standing { self.new.standing ≡ self.old.standing }
        ensures any_moment { D.honest → EachLeavesEither self.old self.new }
    {
        let answer = self.states.check_in(at, 0, node, interval);
        answered(answer)
    }

    /// What a check-in comes to for which there is no memory.
    #[tactic(auto, using(crate::proofs::Unaccepted::states_reply, crate::proofs::Unaccepted::states_end, crate::proofs::Unaccepted::keeps, crate::proofs::Unaccepted::starves_here, crate::proofs::Unaccepted::nothing_changes))]
    pub(crate) fn decide_check_in(&self, node: &Text) -> Result<StepReply, StepEnd>
        ensures ok { (at : ℤ) (interval : ℤ) → IfOk result (λ r. Declined of_states (check_in_entry node.now interval at) r (view self.now).states (view self.now).states) }
        ensures err { (at : ℤ) (interval : ℤ) → IfErr result (λ e. Unsubmitted of_states (check_in_entry node.now interval at) e (view self.now).states (view self.now).states) }
        ensures keeps { IfOk result (λ r. KeepsUnlessDone r self.now self.now) }
        ensures any_moment { D.honest → EachLeavesEither self.now self.now }
    {
        match self.states.may_check_in(node) {
            Ok(()) => Err(StepEnd::NoMemory),
            Err(error) => unaccepted(error),
        }
    }

    /// Forgets a node with the last check-in that it has now.
    #[tactic(auto, using(crate::proofs::Unaccepted::states_reply, crate::proofs::Unaccepted::states_end, crate::proofs::Unaccepted::states_keep, crate::proofs::Unaccepted::states_stay))]
    pub(crate) fn submit_forget(&mut self, failed: &Text, at: i64) -> Result<StepReply, StepEnd>
        requires { IsTrue (is_node failed.now) }
        ensures ok { IfOk result (λ r. StatesSubmitted (forget_entry (replay_states (view self.old).states.history) failed.now at) r (view self.old).states (view self.new).states) }
        ensures err { IfErr result (λ e. Unsubmitted of_states (forget_entry (replay_states (view self.old).states.history) failed.now at) e (view self.old).states (view self.new).states) }
        ensures held { self.new.held ≡ self.old.held }
        ensures triggers { self.new.triggers ≡ self.old.triggers }
        ensures keeps { IfOk result (λ r. KeepsUnlessDone r self.old self.new) }
        ensures unchanged { OnErr result (KeepsStores self.old self.new) }
        ensures standing { self.new.standing ≡ self.old.standing }
        ensures any_moment { D.honest → EachLeavesEither self.old self.new }
    {
        let last = self.last_check_in(failed);
        let answer = self.states.forget(at, 0, failed, last);
        answered(answer)
    }

    // The last check-in of a node; 0 for one that has no row. Without a row it isn't forgotten, whatever is named.
    #[tactic(auto, unfolding(qz_checkin::specs::Lateness::last_of))]
    fn last_check_in(&self, node: &Text) -> i64
        ensures { result ≡ last_of (state_of node.now (replay_states (view self.now).states.history).rows) }
    {
        match self.states.row(node) {
            Some(row) => row.last,
            None => 0,
        }
    }
}

// What comes of a step that ends at the state store.
fn answered(answer: Result<(), SubmitError>) -> Result<StepReply, StepEnd>
    ensures { result ≡ answered answer }
{
    match answer {
        Ok(()) => Ok(StepReply::Ok(Reply::Done)),
        Err(error) => unaccepted(error),
    }
}

/// What comes of a step whose entry wasn't accepted.
pub(crate) fn unaccepted(error: SubmitError) -> Result<StepReply, StepEnd>
    ensures { result ≡ unaccepted error }
{
    match error {
        SubmitError::Closed { at: _ } => Ok(StepReply::Closed),
        SubmitError::Refused(refusal) => Ok(StepReply::Refused(refusal)),
        SubmitError::JournalFull { need, room } => Err(StepEnd::JournalFull { need, room }),
        SubmitError::NoMemory => Err(StepEnd::NoMemory),
        SubmitError::Fault => Ok(StepReply::Fault),
    }
}
