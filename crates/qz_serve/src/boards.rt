//! The board of a call: it is opened with the stores, and shows the trigger store while nodes work in threads.
ghost use Rattle.std.specs.Prelude.{◌≡◌, ◌⊎◌, ◌≤ℤ◌, ◌≤◌, ◌<◌, ◌^◌, false, length, map, Some, None, IfOk, IfSome};
ghost use Rattle.std.specs.List.{AllByRecursion};
ghost use Rattle.qz_types.specs.Rows.{MemberData};
ghost use Rattle.qz_rounds.specs.Looking.{LeavesRows};
ghost use Rattle.qz_shared.specs.Since.{IsSince};
ghost use Rattle.qz_shared_stores.specs.Going.{TriggersWentOn};
ghost use Rattle.qz_trigger_store.specs.Entries.{trigger_entry};
ghost use Rattle.qz_trigger_store.specs.View.{view as triggers_view};
ghost use Rattle.qz_serve.specs.Boards.{ShowsSoFar, plan, plan_of};
ghost use Rattle.qz_serve.specs.Courses.{done_since};
ghost use Rattle.qz_serve.specs.Declining.{AtLimit, DeclinedOnTheWay};
ghost use Rattle.qz_serve.specs.Finished.{NodeCameToEnd};
ghost use Rattle.qz_serve.specs.Served.{NodesServed};
ghost use Rattle.qz_serve.specs.Stopping.{IsOfThreads, IsRowOfThreads};

use crate::threads::{Gate, serve_nodes};
use qz_board_stores::{StatusBoard, TriggerHistories};
use qz_disk::Disk;
use qz_node::{Job, Jobs};
use qz_rounds::{RoundStore, SharedClock};
use qz_run::Declined;
use qz_shared_stores::SharedTriggers;
use qz_trigger_store::TriggerStore;
use qz_types::{LONGEST, MemberRow, NoMemory};
use std::alloc::Global;
use std::sync::Wait;
use std::thread::Threads;

/// The board of a call with so many looks over this store. There is none where no looks are asked for.
pub(crate) fn open_board<H: Wait + Drop, D: Disk>(
    rt: H,
    alloc: Global,
    looks: Option<u32>,
    triggers: &TriggerStore<D>,
) -> Result<Option<StatusBoard<H>>, NoMemory>
    ensures shows { IfOk result (λ board. ShowsSoFar board (triggers_view triggers.now).history) }
    ensures plan { IfOk result (λ board. plan_of board ≡ plan looks (triggers_view triggers.now).history.entries) }
{
    match looks {
        Some(looks) => {
            let board = StatusBoard::open(rt, alloc, triggers, looks)?;
            Ok(Some(board))
        }
        None => Ok(None),
    }
}

/// Members work on two stores, as [`serve_nodes`] says. The board, if there is one, shows the trigger store meanwhile, and looks
/// are made at it. Without memory the stores are given up, and the board is closed.
pub(crate) fn serve_on_board<
    T: RoundStore + Send,
    D: Disk + Send,
    R: Threads + Wait + Sync,
    C: SharedClock + Sync,
    G: Gate + Sync,
    H: Wait + Drop + Send,
>(
    rt: &R,
    alloc: Global,
    triggers: SharedTriggers<D>,
    states: T,
    clock: &C,
    gate: &G,
    until: i64,
    members: &[MemberRow],
    jobs: &mut Vec<Jobs>,
    board: &mut Option<StatusBoard<H>>,
) -> Result<(SharedTriggers<D>, T, Option<Declined>), NoMemory>
    requires few { (length (triggers_view triggers.store).history.entries < 2 ^ 62) × (length (T.listed (T.state states).history) < 2 ^ 62) }
    requires until { until ≤ℤ LONGEST }
    requires members { length members.now ≤ 16 }
    requires shows { ShowsSoFar board.old (triggers_view triggers.store).history }
    ensures served { IfOk result (λ r. NodesServed (C.shows clock.now) until (done_since (triggers_view triggers.store)) (LeavesRows T.kind T.listed T.state T.tables (T.state states)) members.now
        (triggers_view triggers.store).history.entries (triggers_view r.0.store).history.entries (T.listed (T.state states).history) (T.listed (T.state r.1).history)
        (map (λ list. map means list.items) jobs.old.items) (map (λ list. map means list.items) jobs.new.items)) }
    ensures declined { IfOk result (λ r. IfSome r.2 (AtLimit (λ why.
        DeclinedOnTheWay trigger_entry (λ h. h.entries) (IsOfThreads (C.shows clock.now) until (LeavesRows T.kind T.listed T.state T.tables (T.state states)) (T.listed (T.state states).history) (map (λ (m : MemberData). m.node) members.now) (T.listed (T.state r.1).history)) (triggers_view triggers.store) (triggers_view r.0.store) why
        ⊎ DeclinedOnTheWay T.kind T.listed (IsRowOfThreads (C.shows clock.now) until (LeavesRows T.kind T.listed T.state T.tables (T.state states)) (T.listed (T.state states).history) (map (λ (m : MemberData). m.node) members.now) (T.listed (T.state r.1).history)) (T.state states) (T.state r.1) why))) }
    ensures ended { IfOk result (λ r. r.2 ≡ None → AllByRecursion (NodeCameToEnd trigger_entry (λ h. h.entries) (triggers_view triggers.store) (C.shows clock.now) until (T.listed (T.state states).history) (triggers_view r.0.store).history.entries (T.listed (T.state r.1).history)) members.now) }
    ensures fault { IfOk result (λ r. r.2 ≡ Some Declined.Fault → ((triggers_view r.0.store).is_open ≡ false) ⊎ ((T.state r.1).is_open ≡ false)) }
    ensures since { IfOk result (λ r. IsSince trigger_entry (λ h. h.entries) (triggers_view triggers.store) (triggers_view r.0.store) × IsSince T.kind T.listed (T.state states) (T.state r.1)) }
    ensures went { IfOk result (λ r. ∥ TriggersWentOn triggers.store r.0.store ∥₁ × ∥ T.Went states r.1 ∥₁) }
    ensures shows { IfOk result (λ r. ShowsSoFar board.new (triggers_view r.0.store).history) }
    ensures plan { IfOk result (λ r. plan_of board.new ≡ plan_of board.old) }
{
    let Some(shown) = board.take() else {
        let (triggers, states, told, _) = serve_nodes::<_, _, _, _, _, TriggerHistories>(
            rt, alloc, triggers, states, clock, gate, until, members, jobs, None,
        )?;
        return Ok((triggers, states, told));
    };
    let (boarded, watch) = shown.lay_under(triggers);
    let (boarded, states, told, watch) = serve_nodes::<_, _, _, _, _, TriggerHistories>(
        rt,
        alloc,
        boarded,
        states,
        clock,
        gate,
        until,
        members,
        jobs,
        Some(watch),
    )?;
    let Some(watch) = watch else {
        unreachable!();
    };
    let (triggers, shown) = StatusBoard::lift(boarded, watch);
    *board = Some(shown);
    Ok((triggers, states, told))
}
