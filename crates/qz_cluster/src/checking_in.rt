//! Nodes that join, check in, and forget others.
ghost use Rattle.std.specs.Prelude.{◌≡◌, ◌<◌, false, IsTrue, IfOk, IfErr, OnErr, vec_len, vec_capacity};
ghost use Rattle.qz_types.specs.Rows.{is_node, is_interval};
ghost use Rattle.qz_types.specs.Words.{without_member};
ghost use Rattle.qz_types.specs.declared.commands.Actor.TheVariants as actor;
ghost use Rattle.qz_types.specs.declared.commands.Command.TheVariants as command_is;
ghost use Rattle.qz_steps.specs.declared.steps.Step.TheVariants as step_is;
ghost use Rattle.qz_trigger_store.specs.Entries.{trigger_entry};
ghost use Rattle.qz_cluster.specs.Script.{entry_of, held_after_join};
ghost use Rattle.qz_cluster.specs.Steps.{StepCase, EndCase, is_closed};
ghost use Rattle.qz_cluster.specs.Submitting.{Submitted, Unsubmitted, held_by};
ghost use Rattle.qz_cluster.specs.View.{view, KeepsTriggers, KeepsStores, KeepsUnlessDone, KeepsUnlessJoined, EachLeavesEither, IsTold};

use crate::entries::client_entry;
use crate::held::{epoch_of, put_reserved, room_for_one};
use crate::submitting::unaccepted;
use crate::{Cluster, StepEnd};
use qz_disk::Disk;
use qz_steps::StepReply;
use qz_types::{Command, MemberRow, NoMemory, Refusal, Reply, Text};

impl<D: Disk> Cluster<D> {
    /// A node checks in and becomes a member. The memory for its epoch is taken first.
    pub(crate) fn join(&mut self, node: Text, interval: i64, at: i64) -> Result<StepReply, StepEnd>
        requires node { IsTrue (is_node node) }
        requires interval { IsTrue (is_interval interval) }
        ensures ok { IfOk result (λ r. StepCase (IsTold self.old) (record { step = step_is.Join node interval; at = at }) r (view self.old) (view self.new)) }
        ensures err { IfErr result (λ e. EndCase (IsTold self.old) (record { step = step_is.Join node interval; at = at }) e (view self.old) (view self.new)) }
        ensures keeps { IfOk result (λ r. KeepsUnlessJoined r self.old self.new) }
        ensures unchanged { OnErr result (KeepsTriggers self.old self.new) }
        ensures standing { self.new.standing ≡ self.old.standing }
        ensures any_moment { D.honest → EachLeavesEither self.old self.new }
    {
        if self.closed() {
            return Ok(StepReply::Closed);
        }
        match room_for_one(self.alloc, &self.held, &node) {
            Ok((rows, name)) => self.join_in_room(node, interval, at, rows, name),
            Err(NoMemory) => self.decide_check_in(&node),
        }
    }

    // The same, with the rows of the other nodes, which have room for one more, and the node's name once more.
    fn join_in_room(
        &mut self,
        node: Text,
        interval: i64,
        at: i64,
        rows: Vec<MemberRow>,
        name: Text,
    ) -> Result<StepReply, StepEnd>
        requires ready { is_closed (view self.old) ≡ false }
        requires node { IsTrue (is_node node) }
        requires interval { IsTrue (is_interval interval) }
        requires rows { rows.items ≡ without_member node (view self.old).held }
        requires room { vec_len rows < vec_capacity rows }
        requires name { name ≡ node }
        ensures ok { IfOk result (λ r. StepCase (IsTold self.old) (record { step = step_is.Join node interval; at = at }) r (view self.old) (view self.new)) }
        ensures err { IfErr result (λ e. EndCase (IsTold self.old) (record { step = step_is.Join node interval; at = at }) e (view self.old) (view self.new)) }
        ensures keeps { IfOk result (λ r. KeepsUnlessJoined r self.old self.new) }
        ensures unchanged { OnErr result (KeepsTriggers self.old self.new) }
        ensures standing { self.new.standing ≡ self.old.standing }
        ensures any_moment { D.honest → EachLeavesEither self.old self.new }
    {
        match self.states.check_in(at, 0, &name, interval) {
            Ok(()) => self.join_with(node, at, rows, name),
            Err(error) => unaccepted(error),
        }
    }

    // A node that checked in becomes a member, with the rows of the other nodes, which have room for one more, and the
    // node's name once more.
    fn join_with(
        &mut self,
        node: Text,
        at: i64,
        rows: Vec<MemberRow>,
        name: Text,
    ) -> Result<StepReply, StepEnd>
        requires node { IsTrue (is_node node) }
        requires rows { rows.items ≡ without_member node (view self.old).held }
        requires room { vec_len rows < vec_capacity rows }
        requires name { name ≡ node }
        ensures ok { IfOk result (λ r. Submitted (entry_of actor.Client (command_is.Join node) at) r (view self.old).triggers (view self.new).triggers) }
        ensures held { IfOk result (λ r. (view self.new).held ≡ held_by r (λ x. held_after_join node (view self.old).held x) (without_member node (view self.old).held) (view self.old).held) }
        ensures err { IfErr result (λ e. Unsubmitted trigger_entry (entry_of actor.Client (command_is.Join node) at) e (view self.old).triggers (view self.new).triggers) }
        ensures held_stays { OnErr result ((view self.new).held ≡ (view self.old).held) }
        ensures states { self.new.states ≡ self.old.states }
        ensures keeps { IfOk result (λ r. KeepsUnlessDone r self.old self.new) }
        ensures unchanged { OnErr result (KeepsStores self.old self.new) }
        ensures standing { self.new.standing ≡ self.old.standing }
        ensures any_moment { D.honest → EachLeavesEither self.old self.new }
    {
        let reply = self.submit(client_entry(Command::Join { node }, at))?;
        self.hold(name, rows, &reply);
        Ok(reply)
    }

    // The epochs after a join that was answered so, where these are the rows of the other nodes.
    #[tactic(auto, unfolding(crate::specs::Script::hold))]
    fn hold(&mut self, node: Text, mut rows: Vec<MemberRow>, reply: &StepReply)
        requires node { IsTrue (is_node node) }
        requires rows { rows.items ≡ without_member node (view self.old).held }
        requires room { vec_len rows < vec_capacity rows }
        ensures held { (view self.new).held ≡ held_by reply.now (λ x. held_after_join node (view self.old).held x) (without_member node (view self.old).held) (view self.old).held }
        ensures stores { (self.new.triggers ≡ self.old.triggers) × (self.new.states ≡ self.old.states) }
        ensures standing { self.new.standing ≡ self.old.standing }
    {
        match reply {
            StepReply::Ok(
                Reply::Joined {
                    epoch,
                    executions: _,
                    triggers: _,
                },
            ) => {
                put_reserved(
                    &mut rows,
                    MemberRow {
                        node,
                        epoch: *epoch,
                    },
                );
                self.held = rows;
            }
            StepReply::Fault => self.held = rows,
            StepReply::Ok(_)
            | StepReply::Refused(_)
            | StepReply::Closed
            | StepReply::Stopped
            | StepReply::Restarted
            | StepReply::Shown(_)
            | StepReply::Marked(_)
            | StepReply::Room(_) => {}
        }
    }

    /// A member checks in.
    pub(crate) fn check_in(
        &mut self,
        node: &Text,
        interval: i64,
        at: i64,
    ) -> Result<StepReply, StepEnd>
        requires node { IsTrue (is_node node.now) }
        requires interval { IsTrue (is_interval interval) }
        ensures ok { IfOk result (λ r. StepCase (IsTold self.old) (record { step = step_is.CheckIn node.now interval; at = at }) r (view self.old) (view self.new)) }
        ensures err { IfErr result (λ e. EndCase (IsTold self.old) (record { step = step_is.CheckIn node.now interval; at = at }) e (view self.old) (view self.new)) }
        ensures keeps { IfOk result (λ r. KeepsUnlessDone r self.old self.new) }
        ensures unchanged { OnErr result (KeepsStores self.old self.new) }
        ensures standing { self.new.standing ≡ self.old.standing }
        ensures any_moment { D.honest → EachLeavesEither self.old self.new }
    {
        if self.states.closed() {
            return Ok(StepReply::Closed);
        }
        if epoch_of(&self.held, node).is_none() {
            return Ok(StepReply::Stopped);
        }
        self.submit_check_in(node, interval, at)
    }

    /// A member removes the check-in of a node that is no member any more.
    #[tactic(auto, unfolding(crate::specs::Script::member_refusal))]
    pub(crate) fn forget(
        &mut self,
        node: &Text,
        failed: &Text,
        at: i64,
    ) -> Result<StepReply, StepEnd>
        requires { IsTrue (is_node failed.now) }
        ensures ok { IfOk result (λ r. StepCase (IsTold self.old) (record { step = step_is.Forget node.now failed.now; at = at }) r (view self.old) (view self.new)) }
        ensures err { IfErr result (λ e. EndCase (IsTold self.old) (record { step = step_is.Forget node.now failed.now; at = at }) e (view self.old) (view self.new)) }
        ensures keeps { IfOk result (λ r. KeepsUnlessDone r self.old self.new) }
        ensures unchanged { OnErr result (KeepsStores self.old self.new) }
        ensures standing { self.new.standing ≡ self.old.standing }
        ensures any_moment { D.honest → EachLeavesEither self.old self.new }
    {
        if self.closed() {
            return Ok(StepReply::Closed);
        }
        if epoch_of(&self.held, node).is_none() {
            return Ok(StepReply::Stopped);
        }
        if self.triggers.is_member(failed) {
            return Ok(StepReply::Refused(Refusal::StillMember));
        }
        self.submit_forget(failed, at)
    }
}
