//! A node's scheduler thread.
ghost use Rattle.std.specs.Prelude.{◌≡◌, ◌≤ℤ◌, [], map, false, None, IfErr, IfSome, OnOk};
ghost use Rattle.std.specs.List.{AllByRecursion};
ghost use Rattle.qz_row_lock.specs.Seats.{IsOf, mine, is_out, first_value};
ghost use Rattle.qz_shared.specs.Calls.{known};
ghost use Rattle.qz_rounds.specs.Declining.{IsStopped};
ghost use Rattle.qz_serve.specs.Entries.{IsScheduled};
ghost use Rattle.qz_serve.specs.Ran.{TellsOn, RanOrMore};
ghost use Rattle.qz_serve.specs.Asking.{KeepsSeat, IsAtWork, IsReady, deeds};
ghost use Rattle.qz_serve.specs.Finished.{Knows, HasEnded};

use crate::threads::Gate;
use crate::threads::looking::rest;
use crate::threads::performing::NodeJobs;
use crate::threads::steps::{ask_plain, execute_and_complete};
use qz_node::{Heard, JobContext, Turn, Want};
use qz_rounds::{NodeStore, SharedClock};
use qz_run::Declined;
use qz_shared::{StoreRow, StoreSeat};
use qz_types::{Command, LONGEST, MemberRow};
use std::sync::Wait;

// One step of a thread: what its turn wants at a reading of the clock. An Err ends it, with the cause where that is early.
fn step<S: NodeStore, R: Wait, C: SharedClock, G: Gate, J: NodeJobs>(
    rt: &R,
    row: &StoreRow<S>,
    clock: &C,
    gate: &G,
    node: u32,
    until: i64,
    me: &MemberRow,
    seat: &mut StoreSeat<S>,
    turn: &mut Turn,
    context: &mut Option<JobContext>,
    jobs: &mut J,
) -> Result<(), Option<Declined>>
    requires work { IsAtWork (C.shows clock.now) until me.now row.now seat.old turn.old context.old }
    requires ready { IsReady turn.old context.old }
    requires knows { Knows (C.shows clock.now) until me.now row.now seat.old turn.old }
    requires until { until ≤ℤ LONGEST }
    requires lawful { J.lawful jobs.old }
    ensures work { IsAtWork (C.shows clock.now) until me.now row.now seat.new turn.new context.new }
    ensures ready { OnOk result (IsReady turn.new context.new) }
    ensures knows { OnOk result (Knows (C.shows clock.now) until me.now row.now seat.new turn.new) }
    ensures ended { IfErr result (λ cause. cause ≡ None → HasEnded (C.shows clock.now) until me.now seat.old.number row.now seat.new) }
    ensures same { KeepsSeat seat.old seat.new }
    ensures lawful { J.lawful jobs.new }
    ensures ran { TellsOn result (deeds row.now seat.old) (deeds row.now seat.new) (J.meanings jobs.old) (J.meanings jobs.new) }
    ensures stopped { IfErr result (λ cause. IfSome cause (IsStopped S.kind S.listed (S.state (first_value row.now).opened.value) (IsScheduled (C.shows clock.now) until me.now seat.old.number) (known seat.new))) }
{
    let at = clock.now();
    match turn.next_step(at) {
        Want::End => Err(None),
        Want::Rest { until: _ } => {
            rest(rt, row, clock, until, seat);
            turn.learn(Heard::Rested);
            Ok(())
        }
        Want::Execute { entry } => execute_and_complete(
            rt, row, clock, gate, node, me, seat, turn, context, jobs, at, entry,
        ),
        Want::Misfires => ask_plain(
            rt,
            row,
            clock,
            me,
            seat,
            turn,
            context,
            at,
            Command::Misfires,
        ),
        Want::Acquire { no_later } => {
            let command = Command::Acquire {
                no_later,
                window: 0,
                max: 1,
            };
            ask_plain(rt, row, clock, me, seat, turn, context, at, command)
        }
        Want::Fire { entry } => ask_plain(
            rt,
            row,
            clock,
            me,
            seat,
            turn,
            context,
            at,
            Command::Fire { entry },
        ),
        Want::Complete { entry: _, code: _ } => unreachable!(),
    }
}

/// What a scheduler thread does: it works up to a moment, by its clock. Its jobs are told what it asked and was answered. The cause
/// is given where it ends early.
pub(super) fn work<S: NodeStore, R: Wait, C: SharedClock, G: Gate, J: NodeJobs>(
    rt: &R,
    row: &StoreRow<S>,
    clock: &C,
    gate: &G,
    node: u32,
    until: i64,
    me: &MemberRow,
    seat: &mut StoreSeat<S>,
    jobs: &mut J,
) -> Option<Declined>
    requires of { IsOf row.now seat.old }
    requires home { is_out seat.old ≡ false }
    requires until { until ≤ℤ LONGEST }
    requires lawful { J.lawful jobs.old }
    requires new { mine seat.old ≡ [] }
    ensures of { IsOf row.now seat.new }
    ensures home { is_out seat.new ≡ false }
    ensures same { KeepsSeat seat.old seat.new }
    ensures entries { AllByRecursion (IsScheduled (C.shows clock.now) until me.now seat.new.number) (mine seat.new) }
    ensures ran { RanOrMore (deeds row.now seat.new) (J.meanings jobs.old) (J.meanings jobs.new) }
    ensures ended { result ≡ None → HasEnded (C.shows clock.now) until me.now seat.new.number row.now seat.new }
    ensures stopped { IfSome result (IsStopped S.kind S.listed (S.state (first_value row.now).opened.value) (IsScheduled (C.shows clock.now) until me.now seat.new.number) (known seat.new)) }
{
    let mut turn = Turn::new(until);
    let mut context = None;
    'works: for _ in rt.forever() {
        match step(
            rt,
            row,
            clock,
            gate,
            node,
            until,
            me,
            seat,
            &mut turn,
            &mut context,
            jobs,
        ) {
            Ok(()) => {}
            Err(cause) => return cause,
        }
    }
    unreachable!()
}
