//! The nodes' work at one moment: they go round until each has acquired nothing.
ghost use Rattle.std.specs.Prelude.{◌≡◌, ◌<◌, ◌≤◌, ℕ, List, Bool, ◌+◌, ◌^◌, map, OnOk, OnErr, IfOk, IfErr, true, false};
ghost use Rattle.qz_run.specs.Stores.{RunState};
ghost use Rattle.qz_run.specs.Laws.{IsOurs, fires};
ghost use Rattle.qz_run.specs.StateLaws.{Stopped};
ghost use Rattle.qz_run.specs.Working.{MayAsk, IsPlan};
ghost use Rattle.qz_run.specs.RoundRules.{GoesOn, BreaksOff};
ghost use Rattle.qz_run.specs.Moments.{Working, Passes, TurnTaken, PassSoFar, HasPassed, HasWorked, rests};

use crate::nodes::rounds::round;
use qz_node::{Job, Jobs};
use qz_run::{Clock, Declined, Passed, Plan, Stores, Worker};

// A node that doesn't rest has a round, and rests if it acquired nothing.
fn take_turn<S: Stores>(
    stores: &mut S,
    jobs: &mut Jobs,
    plan: &Plan,
    worker: &Worker,
    resting: &mut [bool; 16],
    fired: &mut u64,
) -> Result<(), Declined>
    requires plan { IsPlan plan.now }
    requires passes { Passes plan.now worker.now.at resting.old (S.state stores.old) }
    requires ours { IsOurs plan.now worker.now.node }
    requires awake { rests resting.old worker.now.node ≡ false }
    requires fired_is { fired.old ≡ fires (S.state stores.old).log }
    requires within { fired.old < plan.now.budget }
    requires fits { fired.old + 1 < 2 ^ 64 }
    ensures ok { OnOk result (TurnTaken plan.now worker.now.at fired.new resting.new (S.state stores.old) (S.state stores.new)) }
    ensures calls { OnOk result (GoesOn (S.state stores.old) (S.state stores.new) (map means jobs.old.items) (map means jobs.new.items)) }
    ensures err { OnErr result (BreaksOff plan.now (S.state stores.old) (S.state stores.new) (map means jobs.old.items) (map means jobs.new.items)) }
    ensures stopped { IfErr result (λ why. Stopped plan.now (S.declines stores.new) (S.declines_row stores.new) why (S.state stores.new)) }
    ensures origin { S.origin stores.new ≡ S.origin stores.old }
{
    match round(stores, jobs, plan, worker) {
        Ok(true) => {
            *fired += 1;
            Ok(())
        }
        Ok(false) => {
            resting[worker.node as usize] = true;
            Ok(())
        }
        Err(why) => Err(why),
    }
}

// The same, if the node doesn't rest; answers whether some node had a round so far.
fn turn_if_awake<S: Stores>(
    stores: &mut S,
    jobs: &mut Jobs,
    plan: &Plan,
    worker: &Worker,
    resting: &mut [bool; 16],
    fired: &mut u64,
    active: bool,
) -> Result<bool, Declined>
    requires plan { IsPlan plan.now }
    requires passes { Passes plan.now worker.now.at resting.old (S.state stores.old) }
    requires ours { IsOurs plan.now worker.now.node }
    requires fired_is { fired.old ≡ fires (S.state stores.old).log }
    requires within { fired.old < plan.now.budget }
    requires fits { fired.old + 1 < 2 ^ 64 }
    ensures passes { OnOk result (Passes plan.now worker.now.at resting.new (S.state stores.new)) }
    ensures fired_is { OnOk result (fired.new ≡ fires (S.state stores.new).log) }
    ensures within { OnOk result (fired.new ≤ plan.now.budget) }
    ensures so_far { IfOk result (λ some. (former : ℕ) (were : List Bool) (start : RunState) → PassSoFar active worker.now.node former fired.old were resting.old start (S.state stores.old)
        → PassSoFar some (worker.now.node + 1) former fired.new were resting.new start (S.state stores.new)) }
    ensures calls { OnOk result (GoesOn (S.state stores.old) (S.state stores.new) (map means jobs.old.items) (map means jobs.new.items)) }
    ensures err { OnErr result (BreaksOff plan.now (S.state stores.old) (S.state stores.new) (map means jobs.old.items) (map means jobs.new.items)) }
    ensures stopped { IfErr result (λ why. Stopped plan.now (S.declines stores.new) (S.declines_row stores.new) why (S.state stores.new)) }
    ensures origin { S.origin stores.new ≡ S.origin stores.old }
{
    if resting[worker.node as usize] {
        return Ok(active);
    }
    match take_turn(stores, jobs, plan, worker, resting, fired) {
        Ok(()) => Ok(true),
        Err(why) => Err(why),
    }
}

// Each node that doesn't rest has a round.
fn pass<S: Stores>(
    stores: &mut S,
    jobs: &mut Jobs,
    plan: &Plan,
    clock: &Clock,
    resting: &mut [bool; 16],
    fired: &mut u64,
) -> Result<Passed, Declined>
    requires plan { IsPlan plan.now }
    requires passes { Passes plan.now clock.now.at resting.old (S.state stores.old) }
    requires fired_is { fired.old ≡ fires (S.state stores.old).log }
    requires within { fired.old < plan.now.budget }
    ensures ok { IfOk result (λ p. HasPassed plan.now clock.now.at p fired.old fired.new resting.old resting.new (S.state stores.old) (S.state stores.new)) }
    ensures calls { OnOk result (GoesOn (S.state stores.old) (S.state stores.new) (map means jobs.old.items) (map means jobs.new.items)) }
    ensures err { OnErr result (BreaksOff plan.now (S.state stores.old) (S.state stores.new) (map means jobs.old.items) (map means jobs.new.items)) }
    ensures stopped { IfErr result (λ why. Stopped plan.now (S.declines stores.new) (S.declines_row stores.new) why (S.state stores.new)) }
    ensures origin { S.origin stores.new ≡ S.origin stores.old }
{
    let mut active = false;
    for node in 0..plan.nodes {
        let worker = Worker { node, at: clock.at };
        match turn_if_awake(stores, jobs, plan, &worker, resting, fired, active) {
            Ok(some) => active = some,
            Err(why) => return Err(why),
        }
        if *fired >= plan.budget {
            return Ok(Passed::Spent);
        }
    }
    if active {
        Ok(Passed::Active)
    } else {
        Ok(Passed::Quiet)
    }
}

/// All work at this moment, up to the budget; answers how often was fired so far.
pub(super) fn work_off<S: Stores>(
    stores: &mut S,
    jobs: &mut Jobs,
    plan: &Plan,
    clock: &Clock,
    fired: u64,
) -> Result<u64, Declined>
    requires plan { IsPlan plan.now }
    requires working { Working plan.now clock.now.at (S.state stores.old) }
    requires may_ask { (n : ℕ) → IsOurs plan.now n → MayAsk n clock.now.at (S.state stores.old) }
    requires fired_is { fired ≡ fires (S.state stores.old).log }
    requires within { fired < plan.now.budget }
    ensures ok { IfOk result (λ fires. HasWorked plan.now clock.now.at fires (S.state stores.old) (S.state stores.new)) }
    ensures calls { OnOk result (GoesOn (S.state stores.old) (S.state stores.new) (map means jobs.old.items) (map means jobs.new.items)) }
    ensures err { OnErr result (BreaksOff plan.now (S.state stores.old) (S.state stores.new) (map means jobs.old.items) (map means jobs.new.items)) }
    ensures stopped { IfErr result (λ why. Stopped plan.now (S.declines stores.new) (S.declines_row stores.new) why (S.state stores.new)) }
    ensures origin { S.origin stores.new ≡ S.origin stores.old }
{
    let mut resting = [false; 16];
    let mut fired = fired;
    loop {
        match pass(stores, jobs, plan, clock, &mut resting, &mut fired) {
            Ok(Passed::Spent) => return Ok(fired),
            Ok(Passed::Active) => {}
            Ok(Passed::Quiet) => return Ok(fired),
            Err(why) => return Err(why),
        }
    }
}
