//! One call of the trigger store each, as a node of a run that is at work.
ghost use Rattle.std.specs.Prelude.{◌≡◌, ◌<◌, ◌≤ℤ◌, [], ◌∷◌, OnErr, IfOk, IfErr, Some, true, false};
ghost use Rattle.std.specs.Int.{int_min};
ghost use Rattle.qz_node.specs.declared.executing.TheConstants.{REFIRE_LIMIT};
ghost use Rattle.qz_run.specs.Stores.{IsTime, CanAsk, Accepts, acquired, executing};
ghost use Rattle.qz_run.specs.Laws.{IsOurs, fresh, fires, context_in};
ghost use Rattle.qz_run.specs.StateLaws.{Stopped};
ghost use Rattle.qz_run.specs.Working.{Ready, IsPlan};
ghost use Rattle.qz_run.specs.Steps.{AtWork, HasAsked, HasTaken, HasFired, HasEnded};

use crate::{Declined, Grip, NodeCommand, Plan, Stores, Worker};
use qz_node::JobContext;
use qz_types::{Code, List, Reply, Taken};

// Submits a command as this node.
pub(crate) fn submit_as<S: Stores>(
    stores: &mut S,
    worker: &Worker,
    command: NodeCommand,
) -> Result<Reply, Declined>
    requires time { IsTime worker.now.at }
    requires clock { (S.state stores.old).view.last ≤ℤ worker.now.at }
    requires can { CanAsk worker.now.node worker.now.at command (S.state stores.old).view }
    ensures accepted { IfOk result (λ reply. Accepts worker.now.at worker.now.node command reply (S.state stores.old) (S.state stores.new)) }
    ensures declined { IfErr result (λ why. S.declines stores.new worker.now.node worker.now.at command why) }
    ensures same { OnErr result (S.state stores.new ≡ S.state stores.old) }
    ensures origin { S.origin stores.new ≡ S.origin stores.old }
{
    stores.submit(worker.at, worker.node, command)
}

/// Moves what is misfired, and answers whether there was nothing.
pub(crate) fn ask_misfires<S: Stores>(
    stores: &mut S,
    plan: &Plan,
    worker: &Worker,
) -> Result<bool, Declined>
    requires ready { Ready plan.now worker.now.at (S.state stores.old) }
    requires ours { IsOurs plan.now worker.now.node }
    requires work { AtWork worker.now.node worker.now.at (S.state stores.old) }
    ensures ok { IfOk result (λ none. HasAsked plan.now worker.now.node worker.now.at none (S.state stores.old) (S.state stores.new)) }
    ensures err { OnErr result (S.state stores.new ≡ S.state stores.old) }
    ensures stopped { IfErr result (λ why. Stopped plan.now (S.declines stores.new) (S.declines_row stores.new) why (S.state stores.new)) }
    ensures origin { S.origin stores.new ≡ S.origin stores.old }
{
    match submit_as(stores, worker, NodeCommand::Misfires) {
        Ok(Reply::Misfired(moved)) => match moved.as_slice() {
            [] => Ok(true),
            [_, ..] => Ok(false),
        },
        Ok(_) => unreachable!(),
        Err(why) => Err(why),
    }
}

// Submits an Acquire, and answers what was taken.
fn submit_acquire<S: Stores>(
    stores: &mut S,
    plan: &Plan,
    worker: &Worker,
) -> Result<List<Taken>, Declined>
    requires time { IsTime worker.now.at }
    requires plan { IsPlan plan.now }
    requires clock { (S.state stores.old).view.last ≤ℤ worker.now.at }
    requires member { (S.state stores.old).view.member worker.now.node ≡ true }
    requires free { (S.state stores.old).view.rows worker.now.node ≡ [] }
    requires settled { (S.state stores.old).view.misfired worker.now.at ≡ false }
    ensures ok { IfOk result (λ taken. Accepts worker.now.at worker.now.node (NodeCommand.Acquire (int_min plan.now.until worker.now.at)) (Reply.Acquired taken) (S.state stores.old) (S.state stores.new)) }
    ensures err { OnErr result (S.state stores.new ≡ S.state stores.old) }
    ensures declined { IfErr result (λ why. S.declines stores.new worker.now.node worker.now.at (NodeCommand.Acquire (int_min plan.now.until worker.now.at)) why) }
    ensures origin { S.origin stores.new ≡ S.origin stores.old }
{
    let no_later = plan.until.min(worker.at);
    match submit_as(stores, worker, NodeCommand::Acquire { no_later }) {
        Ok(Reply::Acquired(taken)) => Ok(taken),
        Ok(_) => unreachable!(),
        Err(why) => Err(why),
    }
}

fn grip_of(taken: &Taken) -> Grip
    ensures { result ≡ record { entry = taken.now.entry; next = taken.now.next } }
{
    Grip {
        entry: taken.entry,
        next: taken.next,
    }
}

/// Acquires what is due, and answers its entry.
pub fn ask_acquire<S: Stores>(
    stores: &mut S,
    plan: &Plan,
    worker: &Worker,
) -> Result<Option<Grip>, Declined>
    requires plan { IsPlan plan.now }
    requires ready { Ready plan.now worker.now.at (S.state stores.old) }
    requires ours { IsOurs plan.now worker.now.node }
    requires member { (S.state stores.old).view.member worker.now.node ≡ true }
    requires free { (S.state stores.old).view.rows worker.now.node ≡ [] }
    requires settled { (S.state stores.old).view.misfired worker.now.at ≡ false }
    requires may_acquire { fresh worker.now.node worker.now.at false (S.state stores.old).log ≡ true }
    ensures ok { IfOk result (λ taken. HasTaken plan.now worker.now.node worker.now.at taken (S.state stores.old) (S.state stores.new)) }
    ensures err { OnErr result (S.state stores.new ≡ S.state stores.old) }
    ensures stopped { IfErr result (λ why. Stopped plan.now (S.declines stores.new) (S.declines_row stores.new) why (S.state stores.new)) }
    ensures origin { S.origin stores.new ≡ S.origin stores.old }
{
    match submit_acquire(stores, plan, worker) {
        Ok(taken) => match taken.as_slice() {
            [] => Ok(None),
            [first] => Ok(Some(grip_of(first))),
            [_, _, ..] => unreachable!(),
        },
        Err(why) => Err(why),
    }
}

/// Fires what the node holds, and answers what its job is told.
pub fn ask_fire<S: Stores>(
    stores: &mut S,
    plan: &Plan,
    worker: &Worker,
    grip: &Grip,
) -> Result<JobContext, Declined>
    requires ready { Ready plan.now worker.now.at (S.state stores.old) }
    requires ours { IsOurs plan.now worker.now.node }
    requires member { (S.state stores.old).view.member worker.now.node ≡ true }
    requires row { (S.state stores.old).view.rows worker.now.node ≡ acquired grip.now.entry grip.now.next ∷ [] }
    requires due { grip.now.next ≤ℤ worker.now.at }
    requires within { fires (S.state stores.old).log < plan.now.budget }
    ensures ok { IfOk result (λ context. HasFired plan.now worker.now.node worker.now.at grip.now.entry context (S.state stores.old) (S.state stores.new)) }
    ensures err { OnErr result (S.state stores.new ≡ S.state stores.old) }
    ensures stopped { IfErr result (λ why. Stopped plan.now (S.declines stores.new) (S.declines_row stores.new) why (S.state stores.new)) }
    ensures origin { S.origin stores.new ≡ S.origin stores.old }
{
    match submit_as(stores, worker, NodeCommand::Fire { entry: grip.entry }) {
        Ok(reply) => match JobContext::of_reply(reply) {
            Some(context) => Ok(context),
            None => unreachable!(),
        },
        Err(why) => Err(why),
    }
}

/// Completes an execution, and answers whether the firing has ended.
pub fn ask_complete<S: Stores>(
    stores: &mut S,
    plan: &Plan,
    worker: &Worker,
    context: &JobContext,
    code: Code,
) -> Result<bool, Declined>
    requires ready { Ready plan.now worker.now.at (S.state stores.old) }
    requires ours { IsOurs plan.now worker.now.node }
    requires member { (S.state stores.old).view.member worker.now.node ≡ true }
    requires row { (S.state stores.old).view.rows worker.now.node ≡ executing context.now.entry context.now.scheduled ∷ [] }
    requires told { context_in context.now.entry (S.state stores.old).log ≡ Some context.now }
    requires within { code ≡ Code.ReExecuteJob → context.now.refires < REFIRE_LIMIT }
    ensures ok { IfOk result (λ ended. HasEnded plan.now worker.now.node worker.now.at context.now code ended (S.state stores.old) (S.state stores.new)) }
    ensures err { OnErr result (S.state stores.new ≡ S.state stores.old) }
    ensures stopped { IfErr result (λ why. Stopped plan.now (S.declines stores.new) (S.declines_row stores.new) why (S.state stores.new)) }
    ensures origin { S.origin stores.new ≡ S.origin stores.old }
{
    match submit_as(
        stores,
        worker,
        NodeCommand::Complete {
            entry: context.entry,
            code,
        },
    ) {
        Ok(Reply::Completed { entry: _ }) => Ok(true),
        Ok(Reply::Again { entry: _ }) => Ok(false),
        Ok(_) => unreachable!(),
        Err(why) => Err(why),
    }
}
