//! The nodes of a run leave and are forgotten.
ghost use Rattle.std.specs.Prelude.{◌≡◌, ◌+◌, Bool, true, false, OnOk, OnErr, IfErr};
ghost use Rattle.qz_run.specs.Stores.{IsTime, RowCommand, Forgets};
ghost use Rattle.qz_run.specs.Laws.{IsOurs};
ghost use Rattle.qz_run.specs.StateLaws.{Stopped};
ghost use Rattle.qz_run.specs.Working.{CallsNone, IsLawfulRun, IsPlan};
ghost use Rattle.qz_run.specs.RunRules.{Leaving, IsDone};

use crate::asking::submit_as;
use crate::clocks::first_clock;
use crate::{Clock, Declined, NodeCommand, Plan, Stores, Worker};

// The node leaves.
#[tactic(auto, using(crate::proofs::Leaves::leaves_by_done, crate::proofs::Leaves::leaves_call_none))]
fn ask_leave<S: Stores>(stores: &mut S, plan: &Plan, worker: &Worker) -> Result<(), Declined>
    requires leaving { Leaving plan.now worker.now.at worker.now.node worker.now.node (S.state stores.old) }
    requires ours { IsOurs plan.now worker.now.node }
    ensures ok { OnOk result (Leaving plan.now worker.now.at (worker.now.node + 1) worker.now.node (S.state stores.new)) }
    ensures done { OnOk result ((spent : Bool) → IsDone plan.now spent (S.state stores.old) → IsDone plan.now spent (S.state stores.new)) }
    ensures calls { OnOk result (CallsNone (S.state stores.old) (S.state stores.new)) }
    ensures err { OnErr result (S.state stores.new ≡ S.state stores.old) }
    ensures stopped { IfErr result (λ why. Stopped plan.now (S.declines stores.new) (S.declines_row stores.new) why (S.state stores.new)) }
    ensures origin { S.origin stores.new ≡ S.origin stores.old }
{
    let _ = plan;
    submit_as(stores, worker, NodeCommand::Leave)?;
    Ok(())
}

fn forget_as<S: Stores>(stores: &mut S, worker: &Worker) -> Result<(), Declined>
    requires time { IsTime worker.now.at }
    requires gone { (S.state stores.old).view.member worker.now.node ≡ false }
    requires known { (S.state stores.old).states.has worker.now.node ≡ true }
    ensures accepted { OnOk result (Forgets worker.now.at worker.now.node (S.state stores.old) (S.state stores.new)) }
    ensures declined { IfErr result (λ why. S.declines_row stores.new worker.now.node worker.now.at RowCommand.forgets why) }
    ensures same { OnErr result (S.state stores.new ≡ S.state stores.old) }
    ensures origin { S.origin stores.new ≡ S.origin stores.old }
{
    stores.forget(worker.at, worker.node)
}

// The node is forgotten.
#[tactic(auto, using(crate::proofs::Leaves::forgets_one, crate::proofs::Leaves::forgets_done, crate::proofs::Leaves::forgets_call_none))]
fn ask_forget<S: Stores>(stores: &mut S, plan: &Plan, worker: &Worker) -> Result<(), Declined>
    requires plan { IsPlan plan.now }
    requires leaving { Leaving plan.now worker.now.at (worker.now.node + 1) worker.now.node (S.state stores.old) }
    requires ours { IsOurs plan.now worker.now.node }
    ensures ok { OnOk result (Leaving plan.now worker.now.at (worker.now.node + 1) (worker.now.node + 1) (S.state stores.new)) }
    ensures done { OnOk result ((spent : Bool) → IsDone plan.now spent (S.state stores.old) → IsDone plan.now spent (S.state stores.new)) }
    ensures calls { OnOk result (CallsNone (S.state stores.old) (S.state stores.new)) }
    ensures err { OnErr result (S.state stores.new ≡ S.state stores.old) }
    ensures stopped { IfErr result (λ why. Stopped plan.now (S.declines stores.new) (S.declines_row stores.new) why (S.state stores.new)) }
    ensures origin { S.origin stores.new ≡ S.origin stores.old }
{
    let clock = first_clock(stores, plan);
    let reader = Worker {
        node: worker.node,
        at: clock.at,
    };
    forget_as(stores, &reader)
}

/// All nodes leave and are forgotten, in the order of their numbers.
pub fn leave_all<S: Stores>(stores: &mut S, plan: &Plan, clock: &Clock) -> Result<(), Declined>
    requires plan { IsPlan plan.now }
    requires leaving { Leaving plan.now clock.now.at 0 0 (S.state stores.old) }
    ensures ok { OnOk result (Leaving plan.now clock.now.at plan.now.nodes plan.now.nodes (S.state stores.new)) }
    ensures done { OnOk result ((spent : Bool) → IsDone plan.now spent (S.state stores.old) → IsDone plan.now spent (S.state stores.new)) }
    ensures calls { CallsNone (S.state stores.old) (S.state stores.new) }
    ensures lawful { OnErr result (IsLawfulRun plan.now (S.state stores.new)) }
    ensures stopped { IfErr result (λ why. Stopped plan.now (S.declines stores.new) (S.declines_row stores.new) why (S.state stores.new)) }
    ensures origin { S.origin stores.new ≡ S.origin stores.old }
{
    for node in 0..plan.nodes {
        let worker = Worker { node, at: clock.at };
        ask_leave(stores, plan, &worker)?;
        ask_forget(stores, plan, &worker)?;
    }
    Ok(())
}
