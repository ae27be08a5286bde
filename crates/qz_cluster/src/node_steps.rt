//! What nodes do under the epochs that they hold.
ghost use Rattle.std.specs.Prelude.{◌≡◌, ◌&&◌, ◌||◌, not, IsTrue, IfOk, IfErr, OnErr};
ghost use Rattle.qz_types.specs.Entries.{is_command, is_of_node};
ghost use Rattle.qz_types.specs.Rows.{is_node};
ghost use Rattle.qz_types.specs.Words.{without_member};
ghost use Rattle.qz_types.specs.declared.commands.Actor.TheVariants as actor;
ghost use Rattle.qz_types.specs.declared.commands.Command.TheVariants as command_is;
ghost use Rattle.qz_steps.specs.declared.steps.Step.TheVariants as step_is;
ghost use Rattle.qz_trigger_store.specs.Entries.{trigger_entry};
ghost use Rattle.qz_cluster.specs.Script.{entry_of, held_after_command};
ghost use Rattle.qz_cluster.specs.Steps.{StepCase, EndCase, is_recover, command_refusal};
ghost use Rattle.qz_cluster.specs.Submitting.{Submitted, Unsubmitted, held_by, is_leave};
ghost use Rattle.qz_cluster.specs.View.{view, KeepsStores, KeepsUnlessDone, EachLeavesEither, IsTold};

use crate::entries::node_entry;
use crate::held::{epoch_of, others};
use crate::{Cluster, StepEnd};
use qz_disk::Disk;
use qz_steps::StepReply;
use qz_types::{Command, MemberRow, NoMemory, Refusal, Text};

impl<D: Disk> Cluster<D> {
    /// What a node does under the epoch that it holds.
    pub(crate) fn node(
        &mut self,
        node: Text,
        command: Command,
        at: i64,
    ) -> Result<StepReply, StepEnd>
        requires valid { IsTrue (is_command command) }
        requires node { IsTrue (is_of_node command) }
        requires name { IsTrue (is_node node) }
        ensures ok { IfOk result (λ r. StepCase (IsTold self.old) (record { step = step_is.Node node command; at = at }) r (view self.old) (view self.new)) }
        ensures err { IfErr result (λ e. EndCase (IsTold self.old) (record { step = step_is.Node node command; at = at }) e (view self.old) (view self.new)) }
        ensures keeps { IfOk result (λ r. KeepsUnlessDone r self.old self.new) }
        ensures unchanged { OnErr result (KeepsStores self.old self.new) }
        ensures standing { self.new.standing ≡ self.old.standing }
        ensures any_moment { D.honest → EachLeavesEither self.old self.new }
    {
        if self.is_closed_for(&command) {
            drop(command);
            return Ok(StepReply::Closed);
        }
        let Some(epoch) = epoch_of(&self.held, &node) else {
            drop(command);
            return Ok(StepReply::Stopped);
        };
        match self.not_late(&node, &command, at) {
            Some(refusal) => {
                drop(command);
                Ok(StepReply::Refused(refusal))
            }
            None => self.obey(MemberRow { node, epoch }, command, at),
        }
    }

    // Whether a store is closed that a node's command needs.
    fn is_closed_for(&self, command: &Command) -> bool
        ensures { result ≡ (not (view self.now).triggers.is_open || (is_recover command.now && not (view self.now).states.is_open)) }
    {
        self.triggers.closed() || (is_recover(command) && self.states.closed())
    }

    // Why the node that a command is to recover isn't taken for failed.
    fn not_late(&self, node: &Text, command: &Command, at: i64) -> Option<Refusal>
        ensures { result ≡ command_refusal (view self.now) node.now command.now at }
    {
        match command {
            Command::Recover { node: failed } => self.states.fresh_refusal(at, node, failed),
            _ => None,
        }
    }

    // A command of a member. A member that left holds no epoch.
    fn obey(&mut self, me: MemberRow, command: Command, at: i64) -> Result<StepReply, StepEnd>
        requires valid { IsTrue (is_command command) }
        requires node { IsTrue (is_of_node command) }
        ensures ok { IfOk result (λ r. Submitted (entry_of (actor.Node me) command at) r (view self.old).triggers (view self.new).triggers) }
        ensures held { IfOk result (λ r. (view self.new).held ≡ held_by r (λ x. held_after_command me.node command (view self.old).held) (view self.old).held (view self.old).held) }
        ensures err { IfErr result (λ e. Unsubmitted trigger_entry (entry_of (actor.Node me) command at) e (view self.old).triggers (view self.new).triggers) }
        ensures held_stays { OnErr result (self.new.held ≡ self.old.held) }
        ensures states { self.new.states ≡ self.old.states }
        ensures keeps { IfOk result (λ r. KeepsUnlessDone r self.old self.new) }
        ensures unchanged { OnErr result (KeepsStores self.old self.new) }
        ensures standing { self.new.standing ≡ self.old.standing }
        ensures any_moment { D.honest → EachLeavesEither self.old self.new }
    {
        if !is_leave(&command) {
            return self.submit(node_entry(me, command, at));
        }
        drop(command);
        match others(self.alloc, &self.held, &me.node) {
            Ok(rows) => self.leave(me, at, rows),
            Err(NoMemory) => self.decide(node_entry(me, Command::Leave, at)),
        }
    }

    // A member leaves, where these are the epochs of the others.
    fn leave(&mut self, me: MemberRow, at: i64, rows: Vec<MemberRow>) -> Result<StepReply, StepEnd>
        requires rows { rows.items ≡ without_member me.node (view self.old).held }
        ensures ok { IfOk result (λ r. Submitted (entry_of (actor.Node me) command_is.Leave at) r (view self.old).triggers (view self.new).triggers) }
        ensures held { IfOk result (λ r. (view self.new).held ≡ held_by r (λ x. without_member me.node (view self.old).held) (view self.old).held (view self.old).held) }
        ensures err { IfErr result (λ e. Unsubmitted trigger_entry (entry_of (actor.Node me) command_is.Leave at) e (view self.old).triggers (view self.new).triggers) }
        ensures held_stays { OnErr result (self.new.held ≡ self.old.held) }
        ensures states { self.new.states ≡ self.old.states }
        ensures keeps { IfOk result (λ r. KeepsUnlessDone r self.old self.new) }
        ensures unchanged { OnErr result (KeepsStores self.old self.new) }
        ensures standing { self.new.standing ≡ self.old.standing }
        ensures any_moment { D.honest → EachLeavesEither self.old self.new }
    {
        let reply = self.submit(node_entry(me, Command::Leave, at))?;
        self.hold_none(rows, &reply);
        Ok(reply)
    }

    // The epochs after a leave that was answered so, where these are those of the others.
    fn hold_none(&mut self, rows: Vec<MemberRow>, reply: &StepReply)
        ensures held { (view self.new).held ≡ held_by reply.now (λ x. rows.items) (view self.old).held (view self.old).held }
        ensures stores { (self.new.triggers ≡ self.old.triggers) × (self.new.states ≡ self.old.states) }
        ensures standing { self.new.standing ≡ self.old.standing }
    {
        if let StepReply::Ok(_) = reply {
            self.held = rows;
        }
    }
}

fn is_recover(command: &Command) -> bool
    ensures { result ≡ is_recover command.now }
{
    matches!(command, Command::Recover { .. })
}

fn is_leave(command: &Command) -> bool
    ensures { result ≡ is_leave command.now }
{
    matches!(command, Command::Leave)
}
