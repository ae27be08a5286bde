//! A restart of both disks.
ghost use Rattle.std.specs.Prelude.{◌≡◌, ℤ, [], Bool, false, IfOk, IfErr};
ghost use Rattle.qz_steps.specs.declared.steps.Step.TheVariants as step_is;
ghost use Rattle.qz_cluster.specs.Restarting.{unread};
ghost use Rattle.qz_cluster.specs.Steps.{StepCase, EndCase, standing_after};
ghost use Rattle.qz_cluster.specs.View.{view, KeepsUnlessDone, EachLeavesEither, IsTold};

use crate::{Cluster, StepEnd};
use qz_disk::Disk;
use qz_journal::MountError;
use qz_steps::StepReply;
use qz_types::Store;

impl<D: Disk> Cluster<D> {
    /// Both disks restart before anything on them is read, and both stores are read before one is opened. No node holds
    /// an epoch then.
    pub(crate) fn restart(&mut self) -> Result<StepReply, StepEnd>
        ensures ok { (at : ℤ) → IfOk result (λ r. StepCase (IsTold self.old) (record { step = step_is.Restart; at = at }) r (view self.old) (view self.new)) }
        ensures err { (at : ℤ) → IfErr result (λ e. EndCase (IsTold self.old) (record { step = step_is.Restart; at = at }) e (view self.old) (view self.new)) }
        ensures keeps { IfOk result (λ r. KeepsUnlessDone r self.old self.new) }
        ensures standing { IfOk result (λ r. self.new.standing ≡ standing_after step_is.Restart r self.old.standing) }
        ensures any_moment { D.honest → EachLeavesEither self.old self.new }
    {
        self.held = Vec::new(self.alloc);
        self.standing = false;
        let triggers_crashed = self.triggers.crash();
        let states_crashed = self.states.crash();
        if triggers_crashed.is_err() || states_crashed.is_err() {
            return Ok(StepReply::Fault);
        }
        self.reopen()
    }

    // What is on both disks is read, and then both stores are opened.
    #[tactic(auto, using(crate::proofs::Restarts::triggers_leave, crate::proofs::Restarts::states_leave))]
    fn reopen(&mut self) -> Result<StepReply, StepEnd>
        requires triggers { (view self.old).triggers.is_open ≡ false }
        requires states { (view self.old).states.is_open ≡ false }
        requires held { (view self.old).held ≡ [] }
        requires standing { self.old.standing ≡ false }
        ensures ok { (at : ℤ) → IfOk result (λ r. StepCase (IsTold self.old) (record { step = step_is.Restart; at = at }) r (view self.old) (view self.new)) }
        ensures err { (at : ℤ) → IfErr result (λ e. EndCase (IsTold self.old) (record { step = step_is.Restart; at = at }) e (view self.old) (view self.new)) }
        ensures standing { (was : Bool) → IfOk result (λ r. self.new.standing ≡ standing_after step_is.Restart r was) }
        ensures any_moment { D.honest → EachLeavesEither self.old self.new }
    {
        match self.triggers.reread() {
            Ok(triggers) => match self.states.reread() {
                Ok(states) => {
                    self.triggers.open(triggers);
                    self.states.open(states);
                    self.standing = true;
                    Ok(StepReply::Restarted)
                }
                Err(error) => {
                    drop(triggers);
                    unread(Store::States, error)
                }
            },
            Err(error) => unread(Store::Triggers, error),
        }
    }
}

// What comes of a restart that couldn't read a store.
fn unread(store: Store, error: MountError) -> Result<StepReply, StepEnd>
    ensures { result ≡ unread store error }
{
    match error {
        MountError::Fault => Ok(StepReply::Fault),
        MountError::NotAStore => Err(StepEnd::NotAStore { store }),
        MountError::Damaged { at } => Err(StepEnd::Damaged { store, at }),
        MountError::NoMemory => Err(StepEnd::NoMemory),
    }
}
