//! Misfires come before an Acquire.
ghost use Rattle.std.specs.Prelude.{◌≡◌, OnOk, OnErr, IfErr};
ghost use Rattle.qz_run.specs.Laws.{IsOurs};
ghost use Rattle.qz_run.specs.StateLaws.{Stopped};
ghost use Rattle.qz_run.specs.Working.{Ready, CallsNone, IsLawfulRun};
ghost use Rattle.qz_run.specs.Steps.{AtWork, HasSettled};

use crate::asking::ask_misfires;
use crate::{Declined, Plan, Stores, Worker};

/// Moves what is misfired, until there is nothing.
pub fn settle<S: Stores>(stores: &mut S, plan: &Plan, worker: &Worker) -> Result<(), Declined>
    requires ready { Ready plan.now worker.now.at (S.state stores.old) }
    requires ours { IsOurs plan.now worker.now.node }
    requires work { AtWork worker.now.node worker.now.at (S.state stores.old) }
    ensures ok { OnOk result (HasSettled plan.now worker.now.node worker.now.at (S.state stores.old) (S.state stores.new)) }
    ensures lawful { OnErr result (IsLawfulRun plan.now (S.state stores.new)) }
    ensures calls { OnErr result (CallsNone (S.state stores.old) (S.state stores.new)) }
    ensures stopped { IfErr result (λ why. Stopped plan.now (S.declines stores.new) (S.declines_row stores.new) why (S.state stores.new)) }
    ensures origin { S.origin stores.new ≡ S.origin stores.old }
{
    loop {
        let none = ask_misfires(stores, plan, worker)?;
        if none {
            return Ok(());
        }
    }
}
