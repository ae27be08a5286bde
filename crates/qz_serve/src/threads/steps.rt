//! What a scheduler thread asks for, and what it executes.
ghost use Rattle.std.specs.Prelude.{◌≡◌, ◌≤ℤ◌, List, Some, None, map, IfErr, IfSome, OnOk};
ghost use Rattle.qz_row_lock.specs.Seats.{first_value};
ghost use Rattle.qz_shared.specs.Calls.{known};
ghost use Rattle.qz_node.specs.Turns.{wanted};
ghost use Rattle.qz_node.specs.Jobs.{JobMeaning};
ghost use Rattle.qz_node.specs.Hubs.{command_of};
ghost use Rattle.qz_serve.specs.Entries.{IsPlain, IsScheduled};
ghost use Rattle.qz_rounds.specs.Declining.{IsStopped};
ghost use Rattle.qz_serve.specs.Ran.{Ran, TellsOn, MayFollow, context_after};
ghost use Rattle.qz_serve.specs.Asking.{KeepsSeat, IsAtWork, IsReady, deeds};
ghost use Rattle.qz_serve.specs.Finished.{Knows, HasEnded};

use crate::threads::Gate;
use crate::threads::asking::ask;
use crate::threads::performing::NodeJobs;
use qz_node::{Heard, JobContext, Turn, Want};
use qz_rounds::{NodeStore, SharedClock, declined};
use qz_run::Declined;
use qz_shared::{StoreRow, StoreSeat};
use qz_types::{Command, LONGEST, MemberRow, Reply};
use std::sync::Wait;

// What a job is told next, after this reply.
fn note(context: &mut Option<JobContext>, reply: Reply)
    requires within { MayFollow context.old reply }
    ensures { context.new ≡ context_after context.old reply }
{
    match reply {
        Reply::Fired { .. } => *context = JobContext::of_reply(reply),
        Reply::Again { entry: _ } => {
            if let Some(context) = context {
                context.refire();
            }
        }
        Reply::Completed { entry: _ } => *context = None,
        other => drop(other),
    }
}

/// Asks for what is wanted while no execution has ended. Why the thread ends, where it does.
pub(super) fn ask_plain<S: NodeStore, R: Wait, C: SharedClock>(
    rt: &R,
    row: &StoreRow<S>,
    clock: &C,
    me: &MemberRow,
    seat: &mut StoreSeat<S>,
    turn: &mut Turn,
    context: &mut Option<JobContext>,
    at: i64,
    command: Command,
) -> Result<(), Option<Declined>>
    requires work { IsAtWork (C.shows clock.now) turn.old.until me.now row.now seat.old turn.old context.old }
    requires ready { IsReady turn.old context.old }
    requires knows { Knows (C.shows clock.now) turn.old.until me.now row.now seat.old turn.old }
    requires wanted { command_of (wanted turn.old at) ≡ Some command }
    requires plain { IsPlain command }
    requires shown { C.shows clock.now at }
    requires until { turn.old.until ≤ℤ LONGEST }
    ensures work { IsAtWork (C.shows clock.now) turn.old.until me.now row.now seat.new turn.new context.new }
    ensures ready { OnOk result (IsReady turn.new context.new) }
    ensures knows { OnOk result (Knows (C.shows clock.now) turn.old.until me.now row.now seat.new turn.new) }
    ensures ended { IfErr result (λ cause. cause ≡ None → HasEnded (C.shows clock.now) turn.old.until me.now seat.old.number row.now seat.new) }
    ensures same { KeepsSeat seat.old seat.new }
    ensures ran { (before now : List JobMeaning) → Ran (deeds row.now seat.old) before now → Ran (deeds row.now seat.new) before now }
    ensures stopped { IfErr result (λ cause. IfSome cause (IsStopped S.kind S.listed (S.state (first_value row.now).opened.value) (IsScheduled (C.shows clock.now) turn.old.until me.now seat.old.number) (known seat.new))) }
{
    match ask(rt, row, me, seat, turn, at, command) {
        Ok(reply) => {
            note(context, reply);
            Ok(())
        }
        Err(error) => match declined(error) {
            Some(cause) => Err(Some(cause)),
            None => Ok(()),
        },
    }
}

/// Executes the firing in hand once, and completes it. Where its Complete isn't accepted the thread ends.
pub(super) fn execute_and_complete<S: NodeStore, R: Wait, C: SharedClock, G: Gate, J: NodeJobs>(
    rt: &R,
    row: &StoreRow<S>,
    clock: &C,
    gate: &G,
    node: u32,
    me: &MemberRow,
    seat: &mut StoreSeat<S>,
    turn: &mut Turn,
    context: &mut Option<JobContext>,
    jobs: &mut J,
    at: i64,
    entry: u64,
) -> Result<(), Option<Declined>>
    requires work { IsAtWork (C.shows clock.now) turn.old.until me.now row.now seat.old turn.old context.old }
    requires ready { IsReady turn.old context.old }
    requires knows { Knows (C.shows clock.now) turn.old.until me.now row.now seat.old turn.old }
    requires wanted { wanted turn.old at ≡ Want.Execute entry }
    requires lawful { J.lawful jobs.old }
    requires shown { C.shows clock.now at }
    requires until { turn.old.until ≤ℤ LONGEST }
    ensures work { IsAtWork (C.shows clock.now) turn.old.until me.now row.now seat.new turn.new context.new }
    ensures ready { OnOk result (IsReady turn.new context.new) }
    ensures knows { OnOk result (Knows (C.shows clock.now) turn.old.until me.now row.now seat.new turn.new) }
    ensures ended { IfErr result (λ cause. cause ≡ None → HasEnded (C.shows clock.now) turn.old.until me.now seat.old.number row.now seat.new) }
    ensures same { KeepsSeat seat.old seat.new }
    ensures lawful { J.lawful jobs.new }
    ensures ran { TellsOn result (deeds row.now seat.old) (deeds row.now seat.new) (J.meanings jobs.old) (J.meanings jobs.new) }
    ensures stopped { IfErr result (λ cause. IfSome cause (IsStopped S.kind S.listed (S.state (first_value row.now).opened.value) (IsScheduled (C.shows clock.now) turn.old.until me.now seat.old.number) (known seat.new))) }
{
    let Some(told) = context else {
        unreachable!();
    };
    gate.before(rt, node, entry);
    let code = jobs.execute(told);
    gate.after(rt, node, entry);
    turn.learn(Heard::Executed { entry, code });
    match ask(
        rt,
        row,
        me,
        seat,
        turn,
        at,
        Command::Complete { entry, code },
    ) {
        Ok(reply) => {
            note(context, reply);
            Ok(())
        }
        Err(error) => Err(declined(error)),
    }
}
