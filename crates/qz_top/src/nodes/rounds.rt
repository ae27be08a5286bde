//! A node's round: it moves what is misfired, until there is nothing, and then works at one entry from its Acquire to its end.
ghost use Rattle.std.specs.Prelude.{◌≡◌, ◌<◌, map, OnOk, OnErr, IfOk, IfErr};
ghost use Rattle.qz_run.specs.Laws.{IsOurs, fires};
ghost use Rattle.qz_run.specs.StateLaws.{Stopped};
ghost use Rattle.qz_run.specs.Working.{Ready, IsPlan};
ghost use Rattle.qz_run.specs.Steps.{AtWork};
ghost use Rattle.qz_run.specs.RoundRules.{GoesOn, BreaksOff, IsExecuting, Finishes, HasExecuted, HasRounded};

use crate::nodes::executing::execute;
use qz_node::{Job, JobContext, Jobs};
use qz_run::{Declined, Plan, Stores, Worker, ask_acquire, ask_complete, ask_fire, settle};

// Executes what the node holds, and answers whether it has ended.
#[tactic(auto, using(qz_run::proofs::Going::finishes, qz_run::proofs::Going::goes_on, qz_run::proofs::Going::breaks))]
fn execute_and_complete<S: Stores>(
    stores: &mut S,
    jobs: &mut Jobs,
    plan: &Plan,
    worker: &Worker,
    context: &JobContext,
) -> Result<bool, Declined>
    requires ours { IsOurs plan.now worker.now.node }
    requires executes { IsExecuting plan.now worker.now.node worker.now.at context.now (S.state stores.old) }
    ensures ok { IfOk result (λ ended. HasExecuted plan.now worker.now.node worker.now.at context.now ended (S.state stores.old) (S.state stores.new)) }
    ensures calls { OnOk result (GoesOn (S.state stores.old) (S.state stores.new) (map means jobs.old.items) (map means jobs.new.items)) }
    ensures err { OnErr result (BreaksOff plan.now (S.state stores.old) (S.state stores.new) (map means jobs.old.items) (map means jobs.new.items)) }
    ensures stopped { IfErr result (λ why. Stopped plan.now (S.declines stores.new) (S.declines_row stores.new) why (S.state stores.new)) }
    ensures origin { S.origin stores.new ≡ S.origin stores.old }
{
    let code = execute(jobs, context);
    match ask_complete(stores, plan, worker, context, code) {
        Ok(true) => Ok(true),
        Ok(false) => Ok(false),
        Err(why) => Err(why),
    }
}

// Executes what the node holds until it has ended.
#[tactic(auto, using(qz_run::proofs::Going::then_goes))]
fn finish<S: Stores>(
    stores: &mut S,
    jobs: &mut Jobs,
    plan: &Plan,
    worker: &Worker,
    context: JobContext,
) -> Result<(), Declined>
    requires ours { IsOurs plan.now worker.now.node }
    requires executes { IsExecuting plan.now worker.now.node worker.now.at context (S.state stores.old) }
    ensures ok { OnOk result (Finishes plan.now worker.now.node worker.now.at (S.state stores.old) (S.state stores.new)) }
    ensures calls { OnOk result (GoesOn (S.state stores.old) (S.state stores.new) (map means jobs.old.items) (map means jobs.new.items)) }
    ensures err { OnErr result (BreaksOff plan.now (S.state stores.old) (S.state stores.new) (map means jobs.old.items) (map means jobs.new.items)) }
    ensures stopped { IfErr result (λ why. Stopped plan.now (S.declines stores.new) (S.declines_row stores.new) why (S.state stores.new)) }
    ensures origin { S.origin stores.new ≡ S.origin stores.old }
{
    let mut context = context;
    loop {
        match execute_and_complete(stores, jobs, plan, worker, &context) {
            Ok(true) => return Ok(()),
            Ok(false) => context.refires += 1,
            Err(why) => return Err(why),
        }
    }
}

/// One round of a node, and whether it held an entry.
pub(super) fn round<S: Stores>(
    stores: &mut S,
    jobs: &mut Jobs,
    plan: &Plan,
    worker: &Worker,
) -> Result<bool, Declined>
    requires plan { IsPlan plan.now }
    requires ready { Ready plan.now worker.now.at (S.state stores.old) }
    requires ours { IsOurs plan.now worker.now.node }
    requires work { AtWork worker.now.node worker.now.at (S.state stores.old) }
    requires within { fires (S.state stores.old).log < plan.now.budget }
    ensures ok { IfOk result (λ held. HasRounded plan.now worker.now.node worker.now.at held (S.state stores.old) (S.state stores.new)) }
    ensures calls { OnOk result (GoesOn (S.state stores.old) (S.state stores.new) (map means jobs.old.items) (map means jobs.new.items)) }
    ensures err { OnErr result (BreaksOff plan.now (S.state stores.old) (S.state stores.new) (map means jobs.old.items) (map means jobs.new.items)) }
    ensures stopped { IfErr result (λ why. Stopped plan.now (S.declines stores.new) (S.declines_row stores.new) why (S.state stores.new)) }
    ensures origin { S.origin stores.new ≡ S.origin stores.old }
{
    settle(stores, plan, worker)?;
    match ask_acquire(stores, plan, worker)? {
        None => Ok(false),
        Some(grip) => {
            let context = ask_fire(stores, plan, worker, &grip)?;
            finish(stores, jobs, plan, worker, context)?;
            Ok(true)
        }
    }
}
