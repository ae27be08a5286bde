//! Nodes that go on under an epoch that they kept.
ghost use Rattle.std.specs.Prelude.{◌≡◌, ℤ, None, false, true, IsTrue, IfOk, IfErr};
ghost use Rattle.qz_types.specs.Rows.{is_node};
ghost use Rattle.qz_model.specs.History.{replay};
ghost use Rattle.qz_model.specs.Membership.{live_epoch, is_live};
ghost use Rattle.qz_steps.specs.declared.steps.Step.TheVariants as step_is;
ghost use Rattle.qz_cluster.specs.Asking.{may_resume, resume_refusal};
ghost use Rattle.qz_cluster.specs.Steps.{StepCase, EndCase};
ghost use Rattle.qz_cluster.specs.View.{view, KeepsStores, KeepsUnlessDone, EachLeavesEither, IsTold};

use crate::held::{epoch_of, put_reserved};
use crate::{Cluster, StepEnd};
use qz_disk::Disk;
use qz_steps::StepReply;
use qz_types::{MemberRow, Refusal, Reply, Text};

impl<D: Disk> Cluster<D> {
    /// A node that kept its epoch goes on, with what it acquired and executes. It is refused where it isn't a member under
    /// that epoch, or holds one.
    pub(crate) fn resume(&mut self, node: Text, epoch: u64) -> Result<StepReply, StepEnd>
        requires { IsTrue (is_node node) }
        ensures ok { (at : ℤ) → IfOk result (λ r. StepCase (IsTold self.old) (record { step = step_is.Resume node epoch; at = at }) r (view self.old) (view self.new)) }
        ensures err { (at : ℤ) → IfErr result (λ e. EndCase (IsTold self.old) (record { step = step_is.Resume node epoch; at = at }) e (view self.old) (view self.new)) }
        ensures keeps { IfOk result (λ r. KeepsUnlessDone r self.old self.new) }
        ensures quiet { KeepsStores self.old self.new }
        ensures standing { self.new.standing ≡ self.old.standing }
        ensures any_moment { D.honest → EachLeavesEither self.old self.new }
    {
        if self.triggers.closed() {
            return Ok(StepReply::Closed);
        }
        match self.resume_refusal(&node, epoch) {
            Some(refusal) => Ok(StepReply::Refused(refusal)),
            None => self.hold_again(node, epoch),
        }
    }

    // Why the node doesn't go on, if it doesn't.
    #[tactic(auto, unfolding(crate::specs::Asking::resume_refusal))]
    fn resume_refusal(&self, node: &Text, epoch: u64) -> Option<Refusal>
        ensures { result ≡ resume_refusal (replay (view self.now).triggers.history) (view self.now).held node.now epoch }
    {
        if self.may_resume(node, epoch) {
            None
        } else {
            Some(Refusal::Fenced {
                live: self.live_epoch(node),
            })
        }
    }

    // Whether the node holds no epoch and is a member under this one.
    fn may_resume(&self, node: &Text, epoch: u64) -> bool
        ensures { result ≡ may_resume (replay (view self.now).triggers.history) (view self.now).held node.now epoch }
    {
        epoch_of(&self.held, node).is_none() && is_live(epoch, self.live_epoch(node))
    }

    // The epoch of the member of this name, if there is one.
    #[tactic(auto, unfolding(qz_model::specs::Membership::live_epoch))]
    fn live_epoch(&self, node: &Text) -> Option<u64>
        ensures { result ≡ live_epoch (replay (view self.now).triggers.history) node.now }
    {
        match self.triggers.tables().get_member(node) {
            Some(member) => Some(member.epoch),
            None => None,
        }
    }

    // A node that goes on holds its epoch from now on.
    fn hold_again(&mut self, node: Text, epoch: u64) -> Result<StepReply, StepEnd>
        requires node { IsTrue (is_node node) }
        requires open { (view self.old).triggers.is_open ≡ true }
        requires unrefused { resume_refusal (replay (view self.old).triggers.history) (view self.old).held node epoch ≡ None }
        ensures ok { (at : ℤ) → IfOk result (λ r. StepCase (IsTold self.old) (record { step = step_is.Resume node epoch; at = at }) r (view self.old) (view self.new)) }
        ensures err { (at : ℤ) → IfErr result (λ e. EndCase (IsTold self.old) (record { step = step_is.Resume node epoch; at = at }) e (view self.old) (view self.new)) }
        ensures keeps { IfOk result (λ r. KeepsUnlessDone r self.old self.new) }
        ensures quiet { KeepsStores self.old self.new }
        ensures standing { self.new.standing ≡ self.old.standing }
        ensures any_moment { D.honest → EachLeavesEither self.old self.new }
    {
        self.held.reserve(1)?;
        put_reserved(&mut self.held, MemberRow { node, epoch });
        Ok(StepReply::Ok(Reply::Done))
    }
}

fn is_live(epoch: u64, live: Option<u64>) -> bool
    ensures { result ≡ is_live epoch live }
{
    match live {
        Some(live) => epoch == live,
        None => false,
    }
}
