//! One step.
ghost use Rattle.std.specs.Prelude.{◌≡◌, ℤ, true, IsTrue, IfOk, IfErr, OnErr};
ghost use Rattle.qz_steps.specs.Steps.{is_step};
ghost use Rattle.qz_steps.specs.declared.steps.Step.TheVariants as step_is;
ghost use Rattle.qz_cluster.specs.Steps.{StepCase, IsStep, IsCutShort, is_quiet};
ghost use Rattle.qz_cluster.specs.View.{view, Keeps, KeepsUnanswered, KeepsStores, KeepsUnlessDone, EachLeavesEither, IsTold};

use crate::entries::client_entry;
use crate::held::{epoch_of, remove};
use crate::{Cluster, StepEnd};
use qz_disk::Disk;
use qz_steps::{Step, StepReply};
use qz_types::{Reply, Text};

impl<D: Disk> Cluster<D> {
    /// Does one step at this reading of the clock, in ms since 1970-01-01T00:00:00Z. The stores and their disks stay as
    /// they were, except for accepted transactions, for a fault, and at a restart. `JournalFull` is answered only where the
    /// step's transaction would be accepted, and `NoMemory` only there, at a restart, for a row that is shown and for a node
    /// that goes on; `NotAStore` and `Damaged` only at a restart, and only where a disk lost what was acknowledged.
    pub fn step(&mut self, step: Step, at: i64) -> Result<StepReply, StepEnd>
        requires { IsTrue (is_step step) }
        ensures ok { IfOk result (λ r. IsStep (IsTold self.old) (record { step = step; at = at }) r (view self.old) (view self.new)) }
        ensures err { IfErr result (λ e. IsCutShort (IsTold self.old) (record { step = step; at = at }) e (view self.old) (view self.new)) }
        // Unless the step was done or a disk failed, both stores and their disks are as they were; only a join may have checked in.
        ensures keeps { IfOk result (λ r. Keeps step r self.old self.new) }
        ensures unchanged { OnErr result (KeepsUnanswered step self.old self.new) }
        ensures quiet { is_quiet step ≡ true → KeepsStores self.old self.new }
        ensures any_moment { D.honest → EachLeavesEither self.old self.new }
    {
        match step {
            Step::Client(command) => self.submit(client_entry(command, at)),
            Step::Join { node, interval } => self.join(node, interval, at),
            Step::CheckIn { node, interval } => self.check_in(&node, interval, at),
            Step::Node { node, command } => self.node(node, command, at),
            Step::Forget { node, failed } => self.forget(&node, &failed, at),
            Step::Stop { node } => Ok(self.stop(&node)),
            Step::Restart => self.restart(),
            Step::Resume { node, epoch } => self.resume(node, epoch),
            Step::Show(question) => self.show(&question),
            Step::Checkpoint => self.make_checkpoint(),
            Step::ShowRoom => Ok(self.show_room()),
        }
    }

    // A node stops: it holds its epoch no longer.
    fn stop(&mut self, node: &Text) -> StepReply
        ensures ok { (at : ℤ) → StepCase (IsTold self.old) (record { step = step_is.Stop node.now; at = at }) result (view self.old) (view self.new) }
        ensures keeps { KeepsUnlessDone result self.old self.new }
        ensures quiet { KeepsStores self.old self.new }
        ensures standing { self.new.standing ≡ self.old.standing }
        ensures any_moment { D.honest → EachLeavesEither self.old self.new }
    {
        if epoch_of(&self.held, node).is_none() {
            return StepReply::Stopped;
        }
        remove(&mut self.held, node);
        StepReply::Ok(Reply::Done)
    }
}
