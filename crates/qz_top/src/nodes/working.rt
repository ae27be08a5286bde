//! A run: the nodes join, work from moment to moment, and leave.
ghost use Rattle.std.specs.Prelude.{◌≡◌, ◌<◌, ℕ, map, length, OnOk, OnErr, IfOk, IfErr};
ghost use Rattle.qz_run.specs.Laws.{IsOurs, Lawful, Ran, RanOrMore, fires};
ghost use Rattle.qz_run.specs.StateLaws.{LawfulStates, Stopped};
ghost use Rattle.qz_run.specs.Working.{IsPlan, IsFresh, MayAsk, IsLawfulRun};
ghost use Rattle.qz_run.specs.RoundRules.{GoesOn, BreaksOff};
ghost use Rattle.qz_run.specs.Moments.{Working};
ghost use Rattle.qz_run.specs.RunRules.{Joining, IsDone, Ends};

use crate::nodes::moments::work_off;
use qz_node::{Job, Jobs};
use qz_run::{
    Clock, Declined, Plan, Stores, first_clock, is_by, join_all, leave_all, next_of, turn_clock,
};

// Works from moment to moment, until nothing is due up to the plan's end or the budget is spent; answers which.
fn work<S: Stores>(
    stores: &mut S,
    jobs: &mut Jobs,
    plan: &Plan,
    clock: &mut Clock,
) -> Result<bool, Declined>
    requires plan { IsPlan plan.now }
    requires working { Working plan.now clock.old.at (S.state stores.old) }
    requires may_ask { (n : ℕ) → IsOurs plan.now n → MayAsk n clock.old.at (S.state stores.old) }
    requires none_fired { fires (S.state stores.old).log ≡ 0 }
    requires begun { 0 < length (S.state stores.old).log }
    ensures working { OnOk result (Working plan.now clock.new.at (S.state stores.new)) }
    ensures done { IfOk result (λ spent. IsDone plan.now spent (S.state stores.new)) }
    ensures calls { OnOk result (GoesOn (S.state stores.old) (S.state stores.new) (map means jobs.old.items) (map means jobs.new.items)) }
    ensures err { OnErr result (BreaksOff plan.now (S.state stores.old) (S.state stores.new) (map means jobs.old.items) (map means jobs.new.items)) }
    ensures stopped { IfErr result (λ why. Stopped plan.now (S.declines stores.new) (S.declines_row stores.new) why (S.state stores.new)) }
    ensures origin { S.origin stores.new ≡ S.origin stores.old }
{
    let mut fired = 0;
    loop {
        let next = match next_of(stores) {
            Some(next) => next,
            None => return Ok(false),
        };
        if !is_by(&next, plan) {
            return Ok(false);
        }
        if fired >= plan.budget {
            return Ok(true);
        }
        turn_clock(stores, plan, clock, &next);
        match work_off(stores, jobs, plan, clock, fired) {
            Ok(so_far) => fired = so_far,
            Err(why) => return Err(why),
        }
    }
}

// What is done once all nodes have joined.
#[tactic(auto, using(qz_run::proofs::Joins::at_work, qz_run::proofs::Leaves::may_leave, qz_run::proofs::Leaves::ends))]
fn work_and_leave<S: Stores>(
    stores: &mut S,
    jobs: &mut Jobs,
    plan: &Plan,
    clock: &Clock,
) -> Result<bool, Declined>
    requires plan { IsPlan plan.now }
    requires joined { Joining plan.now clock.now.at plan.now.nodes plan.now.nodes (S.state stores.old) }
    ensures lawful { OnOk result (IsLawfulRun plan.now (S.state stores.new)) }
    ensures ends { IfOk result (λ spent. Ends plan.now spent (S.state stores.new)) }
    ensures calls { OnOk result (GoesOn (S.state stores.old) (S.state stores.new) (map means jobs.old.items) (map means jobs.new.items)) }
    ensures err { OnErr result (BreaksOff plan.now (S.state stores.old) (S.state stores.new) (map means jobs.old.items) (map means jobs.new.items)) }
    ensures stopped { IfErr result (λ why. Stopped plan.now (S.declines stores.new) (S.declines_row stores.new) why (S.state stores.new)) }
    ensures origin { S.origin stores.new ≡ S.origin stores.old }
{
    let mut clock = *clock;
    let spent = work(stores, jobs, plan, &mut clock)?;
    leave_all(stores, plan, &clock)?;
    Ok(spent)
}

/// The nodes of the plan check in and join, work on a virtual clock with these jobs until nothing is due up to the plan's end or
/// its budget is spent, and then leave and are forgotten. Answers whether something is due up to the plan's end then. At an error
/// the run stops where it stands: it is that of the store that declined what came next. A call of a job takes no memory here.
#[tactic(auto, using(qz_run::proofs::Joins::begins))]
pub fn run_nodes<S: Stores>(stores: &mut S, jobs: &mut Jobs, plan: &Plan) -> Result<bool, Declined>
    requires plan { IsPlan plan.now }
    requires fresh { IsFresh (S.state stores.old) }
    // What is added to the trigger store's history is lawful, and so is what is added to the state store's.
    ensures lawful { Lawful plan.now (S.state stores.new).log }
    ensures states { LawfulStates plan.now (S.state stores.new) }
    // How it ends.
    ensures ends { IfOk result (λ spent. Ends plan.now spent (S.state stores.new)) }
    // The jobs are called once for each Complete; at an error maybe once more.
    ensures jobs { OnOk result (Ran (S.state stores.new).log (map means jobs.old.items) (map means jobs.new.items)) }
    ensures jobs_at_error { OnErr result (RanOrMore (S.state stores.new).log (map means jobs.old.items) (map means jobs.new.items)) }
    // A store, as it is left, declines what the run may ask next.
    ensures stopped { IfErr result (λ why. Stopped plan.now (S.declines stores.new) (S.declines_row stores.new) why (S.state stores.new)) }
    ensures origin { S.origin stores.new ≡ S.origin stores.old }
{
    let clock = first_clock(stores, plan);
    join_all(stores, plan, &clock)?;
    work_and_leave(stores, jobs, plan, &clock)
}
