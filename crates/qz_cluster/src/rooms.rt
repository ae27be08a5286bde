//! Steps about the disks: a checkpoint between two lines, and how full the stores are.
ghost use Rattle.std.specs.Prelude.{◌≡◌, ℤ, IfOk, IfErr, OnErr};
ghost use Rattle.qz_steps.specs.declared.steps.Step.TheVariants as step_is;
ghost use Rattle.qz_cluster.specs.Rooms.{room_of};
ghost use Rattle.qz_cluster.specs.Steps.{StepCase, EndCase};
ghost use Rattle.qz_cluster.specs.View.{view, KeepsStores, KeepsUnlessDone, EachLeavesEither, IsTold};

use crate::{Checked, Cluster, StepEnd};
use qz_disk::Disk;
use qz_steps::{Fill, Marked, Room, StepReply};

impl<D: Disk> Cluster<D> {
    /// Makes a snapshot of the trigger store's tables, whatever number of entries came after the last one.
    pub(crate) fn make_checkpoint(&mut self) -> Result<StepReply, StepEnd>
        ensures ok { (at : ℤ) → IfOk result (λ r. StepCase (IsTold self.old) (record { step = step_is.Checkpoint; at = at }) r (view self.old) (view self.new)) }
        ensures err { (at : ℤ) → IfErr result (λ e. EndCase (IsTold self.old) (record { step = step_is.Checkpoint; at = at }) e (view self.old) (view self.new)) }
        ensures keeps { IfOk result (λ r. KeepsUnlessDone r self.old self.new) }
        ensures unchanged { OnErr result (KeepsStores self.old self.new) }
        ensures standing { self.new.standing ≡ self.old.standing }
        ensures any_moment { D.honest → EachLeavesEither self.old self.new }
    {
        match self.checkpoint() {
            Ok(Checked::Done) => Ok(StepReply::Marked(Marked::Made)),
            Ok(Checked::NoRoom) => Ok(StepReply::Marked(Marked::NoRoom)),
            Ok(Checked::Fault) => Ok(StepReply::Fault),
            Ok(Checked::Closed) => Ok(StepReply::Closed),
            Err(end) => Err(end),
        }
    }

    /// Tells how full both stores are, also where one is closed. After a restart that failed there are none.
    pub(crate) fn show_room(&self) -> StepReply
        ensures ok { (at : ℤ) → StepCase (IsTold self.now) (record { step = step_is.ShowRoom; at = at }) result (view self.now) (view self.now) }
        ensures keeps { KeepsUnlessDone result self.now self.now }
        ensures any_moment { D.honest → EachLeavesEither self.now self.now }
    {
        if self.standing {
            StepReply::Room(self.room())
        } else {
            StepReply::Closed
        }
    }

    // How full both stores are.
    fn room(&self) -> Room
        ensures { result ≡ room_of (view self.now).triggers (view self.now).behind (view self.now).states }
    {
        Room {
            triggers: Fill {
                bytes: self.triggers.gate(),
                payloads: self.triggers.payloads(),
            },
            behind: self.triggers.behind(),
            states: Fill {
                bytes: self.states.gate(),
                payloads: self.states.payloads(),
            },
        }
    }
}
