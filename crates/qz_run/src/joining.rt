//! The nodes of a run check in and join.
ghost use Rattle.std.specs.Prelude.{◌≡◌, ◌+◌, OnOk, OnErr, IfErr};
ghost use Rattle.qz_run.specs.declared.stores.TheConstants.{CHECK_IN_INTERVAL};
ghost use Rattle.qz_run.specs.Stores.{IsTime, RowCommand, ChecksIn};
ghost use Rattle.qz_run.specs.Laws.{IsOurs};
ghost use Rattle.qz_run.specs.StateLaws.{Stopped};
ghost use Rattle.qz_run.specs.Working.{CallsNone, IsLawfulRun};
ghost use Rattle.qz_run.specs.RunRules.{Joining};

use crate::asking::submit_as;
use crate::{Clock, Declined, NodeCommand, Plan, Stores, Worker};

fn check_in_as<S: Stores>(stores: &mut S, worker: &Worker) -> Result<(), Declined>
    requires time { IsTime worker.now.at }
    ensures accepted { OnOk result (ChecksIn worker.now.at worker.now.node (S.state stores.old) (S.state stores.new)) }
    ensures declined { IfErr result (λ why. S.declines_row stores.new worker.now.node worker.now.at (RowCommand.checks_in CHECK_IN_INTERVAL) why) }
    ensures same { OnErr result (S.state stores.new ≡ S.state stores.old) }
    ensures origin { S.origin stores.new ≡ S.origin stores.old }
{
    stores.check_in(worker.at, worker.node)
}

// The node checks in.
#[tactic(auto, using(crate::proofs::Joins::checks, crate::proofs::Joins::checks_call_none))]
fn ask_check_in<S: Stores>(stores: &mut S, plan: &Plan, worker: &Worker) -> Result<(), Declined>
    requires joining { Joining plan.now worker.now.at worker.now.node worker.now.node (S.state stores.old) }
    requires ours { IsOurs plan.now worker.now.node }
    ensures ok { OnOk result (Joining plan.now worker.now.at worker.now.node (worker.now.node + 1) (S.state stores.new)) }
    ensures calls { OnOk result (CallsNone (S.state stores.old) (S.state stores.new)) }
    ensures err { OnErr result (S.state stores.new ≡ S.state stores.old) }
    ensures stopped { IfErr result (λ why. Stopped plan.now (S.declines stores.new) (S.declines_row stores.new) why (S.state stores.new)) }
    ensures origin { S.origin stores.new ≡ S.origin stores.old }
{
    let _ = plan;
    check_in_as(stores, worker)
}

// The node joins.
#[tactic(auto, using(crate::proofs::Joins::joins_call_none))]
fn ask_join<S: Stores>(stores: &mut S, plan: &Plan, worker: &Worker) -> Result<(), Declined>
    requires joining { Joining plan.now worker.now.at worker.now.node (worker.now.node + 1) (S.state stores.old) }
    requires ours { IsOurs plan.now worker.now.node }
    ensures ok { OnOk result (Joining plan.now worker.now.at (worker.now.node + 1) (worker.now.node + 1) (S.state stores.new)) }
    ensures calls { OnOk result (CallsNone (S.state stores.old) (S.state stores.new)) }
    ensures err { OnErr result (S.state stores.new ≡ S.state stores.old) }
    ensures stopped { IfErr result (λ why. Stopped plan.now (S.declines stores.new) (S.declines_row stores.new) why (S.state stores.new)) }
    ensures origin { S.origin stores.new ≡ S.origin stores.old }
{
    let _ = plan;
    submit_as(stores, worker, NodeCommand::Join)?;
    Ok(())
}

/// All nodes check in and join, in the order of their numbers.
pub fn join_all<S: Stores>(stores: &mut S, plan: &Plan, clock: &Clock) -> Result<(), Declined>
    requires joining { Joining plan.now clock.now.at 0 0 (S.state stores.old) }
    ensures ok { OnOk result (Joining plan.now clock.now.at plan.now.nodes plan.now.nodes (S.state stores.new)) }
    ensures calls { CallsNone (S.state stores.old) (S.state stores.new) }
    ensures lawful { OnErr result (IsLawfulRun plan.now (S.state stores.new)) }
    ensures stopped { IfErr result (λ why. Stopped plan.now (S.declines stores.new) (S.declines_row stores.new) why (S.state stores.new)) }
    ensures origin { S.origin stores.new ≡ S.origin stores.old }
{
    for node in 0..plan.nodes {
        let worker = Worker { node, at: clock.at };
        ask_check_in(stores, plan, &worker)?;
        ask_join(stores, plan, &worker)?;
    }
    Ok(())
}
