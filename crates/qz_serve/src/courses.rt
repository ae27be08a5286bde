//! The course of a call: its nodes join, work in threads, and leave; and the node `main` does what is left.
ghost use Rattle.std.specs.Prelude.{◌≡◌, ◌⊎◌, ◌≤ℤ◌, ℤ, ◌≤◌, [], ◌∷◌, ◌++◌, List, length, map, IfOk, IfSome, IsTrue, Some, None};
ghost use Rattle.std.specs.List.{All};
ghost use Rattle.qz_types.specs.Rows.{MemberData};
ghost use Rattle.qz_words.specs.Serves.{IsServing};
ghost use Rattle.qz_trigger_store.specs.View.{view as triggers_view};
ghost use Rattle.qz_serve.specs.Boards.{ShowsSoFar, plan_of};
ghost use Rattle.qz_serve.specs.Courses.{AreBothOpen, DidNothing, EndsBy, MainEnded, NodesEnded, TookCourse, TookTurn, TookTurns, Turn, WorkedAsMain, WorkedAsNodes};
ghost use Rattle.qz_serve.specs.Declining.{AtLimit};
ghost use Rattle.qz_serve.specs.Going.{state_of_both, triggers_of};
ghost use Rattle.qz_serve.specs.Keeping.{Proceeds};
ghost use Rattle.qz_serve.specs.Limits.{WasDeclined};
ghost use Rattle.qz_serve.specs.Names.{ours_of};
ghost use Rattle.qz_serve.specs.Ours.{CameAndWent, node_names, main_name, our_names};

use crate::boards::serve_on_board;
use crate::both_stores::BothStores;
use crate::names::Ours;
use crate::threads::{Gate, serve_main};
use qz_board_stores::StatusBoard;
use qz_disk::Disk;
use qz_node::{Job, Jobs};
use qz_rounds::SharedClock;
use qz_run::Declined;
use qz_shared::is_short;
use qz_types::{LONGEST, MemberRow, NoMemory};
use qz_words::Serving;
use std::sync::Wait;
use std::thread::Threads;

/// The nodes of a call join and work in threads up to its end. Then the node `main` joins and works, and all leave, as often as
/// it takes. Where that ended early the cause is given, with the stores as they are then. Without memory for a lock row the stores
/// are given up. The board, if there is one, shows the trigger store while the nodes work in threads.
pub(crate) fn take_course<
    R: Threads + Wait + Sync,
    D: Disk + Send,
    C: SharedClock + Sync,
    G: Gate + Sync,
    H: Wait + Drop + Send,
>(
    rt: &R,
    stores: BothStores<D>,
    clock: &C,
    gate: &G,
    serving: Serving,
    jobs: &mut Vec<Jobs>,
    board: &mut Option<StatusBoard<H>>,
) -> Result<(BothStores<D>, Option<Declined>), NoMemory>
    requires serving { IsServing serving }
    requires both_open { AreBothOpen (state_of_both stores) }
    requires shows { ShowsSoFar board.old (triggers_view (triggers_of stores)).history }
    ensures took { IfOk result (λ r. TookCourse (C.shows clock.now) serving.until (node_names serving.nodes) main_name r.1 (state_of_both stores) (state_of_both r.0)
        (map (λ list. map means list.items) jobs.old.items) (map (λ list. map means list.items) jobs.new.items)) }
    ensures ends { IfOk result (λ r. EndsBy (C.shows clock.now) serving.until (our_names serving.nodes) r.1 (state_of_both r.0)) }
    ensures declined { IfOk result (λ r. IfSome r.1 (AtLimit (WasDeclined (C.shows clock.now) serving.until (our_names serving.nodes) (state_of_both stores) (state_of_both r.0)))) }
    ensures proceeds { IfOk result (λ r. Proceeds r.1 stores r.0) }
    ensures shows { IfOk result (λ r. ShowsSoFar board.new (triggers_view (triggers_of r.0)).history) }
    ensures plan { IfOk result (λ r. plan_of board.new ≡ plan_of board.old) }
{
    stores.keep_all();
    match Ours::new(stores.alloc, serving.nodes) {
        Ok(ours) => take_course_of(rt, stores, clock, gate, serving.until, &ours, jobs, board),
        Err(NoMemory) => Ok((stores, Some(Declined::NoMemory))),
    }
}

// The course of these nodes.
fn take_course_of<
    R: Threads + Wait + Sync,
    D: Disk + Send,
    C: SharedClock + Sync,
    G: Gate + Sync,
    H: Wait + Drop + Send,
>(
    rt: &R,
    stores: BothStores<D>,
    clock: &C,
    gate: &G,
    until: i64,
    ours: &Ours,
    jobs: &mut Vec<Jobs>,
    board: &mut Option<StatusBoard<H>>,
) -> Result<(BothStores<D>, Option<Declined>), NoMemory>
    requires until { until ≤ℤ LONGEST }
    requires few { length ours.now.nodes.items ≤ 16 }
    requires both_open { AreBothOpen (state_of_both stores) }
    requires shows { ShowsSoFar board.old (triggers_view (triggers_of stores)).history }
    ensures took { IfOk result (λ r. TookCourse (C.shows clock.now) until ours.now.nodes.items ours.now.main r.1 (state_of_both stores) (state_of_both r.0)
        (map (λ list. map means list.items) jobs.old.items) (map (λ list. map means list.items) jobs.new.items)) }
    ensures ends { IfOk result (λ r. EndsBy (C.shows clock.now) until (ours_of ours.now) r.1 (state_of_both r.0)) }
    ensures declined { IfOk result (λ r. IfSome r.1 (AtLimit (WasDeclined (C.shows clock.now) until (ours_of ours.now) (state_of_both stores) (state_of_both r.0)))) }
    ensures proceeds { IfOk result (λ r. Proceeds r.1 stores r.0) }
    ensures shows { IfOk result (λ r. ShowsSoFar board.new (triggers_view (triggers_of r.0)).history) }
    ensures plan { IfOk result (λ r. plan_of board.new ≡ plan_of board.old) }
{
    stores.keep_all();
    let mut stores = stores;
    let members = match stores.gather(clock, &ours.nodes) {
        Ok(members) => members,
        Err(why) => return Ok((stores, Some(why))),
    };
    let (stores, cause) = work_as_nodes(rt, stores, clock, gate, until, &members, jobs, board)?;
    match cause {
        Some(why) => Ok((stores, Some(why))),
        None => take_turns(rt, stores, clock, gate, until, ours, jobs),
    }
}

// These members work in threads.
fn work_as_nodes<
    R: Threads + Wait + Sync,
    D: Disk + Send,
    C: SharedClock + Sync,
    G: Gate + Sync,
    H: Wait + Drop + Send,
>(
    rt: &R,
    stores: BothStores<D>,
    clock: &C,
    gate: &G,
    until: i64,
    members: &[MemberRow],
    jobs: &mut Vec<Jobs>,
    board: &mut Option<StatusBoard<H>>,
) -> Result<(BothStores<D>, Option<Declined>), NoMemory>
    requires until { until ≤ℤ LONGEST }
    requires few { length members.now ≤ 16 }
    requires both_open { AreBothOpen (state_of_both stores) }
    requires shows { ShowsSoFar board.old (triggers_view (triggers_of stores)).history }
    ensures worked { IfOk result (λ r. WorkedAsNodes (C.shows clock.now) until members.now (state_of_both stores) (state_of_both r.0)
        (map (λ list. map means list.items) jobs.old.items) (map (λ list. map means list.items) jobs.new.items)
        ⊎ DidNothing (state_of_both stores) (state_of_both r.0) (map (λ list. map means list.items) jobs.old.items) (map (λ list. map means list.items) jobs.new.items)) }
    ensures ended { IfOk result (λ r. r.1 ≡ None → NodesEnded (C.shows clock.now) until members.now (state_of_both stores) (state_of_both r.0)) }
    ensures declined { IfOk result (λ r. IfSome r.1 (AtLimit (WasDeclined (C.shows clock.now) until (map (λ (m : MemberData). m.node) members.now) (state_of_both stores) (state_of_both r.0)))) }
    ensures proceeds { IfOk result (λ r. Proceeds r.1 stores r.0) }
    ensures shows { IfOk result (λ r. ShowsSoFar board.new (triggers_view (triggers_of r.0)).history) }
    ensures plan { IfOk result (λ r. plan_of board.new ≡ plan_of board.old) }
{
    stores.keep_all();
    if !is_short(&stores.triggers) || !is_short(&stores.states) {
        return Ok((stores, Some(Declined::NoMemory)));
    }
    let BothStores {
        alloc,
        triggers,
        states,
    } = stores;
    let (triggers, states, told) = serve_on_board(
        rt, alloc, triggers, states, clock, gate, until, members, jobs, board,
    )?;
    let stores = BothStores {
        alloc,
        triggers,
        states,
    };
    let cause = stores.cause_now(told);
    Ok((stores, cause))
}

// The node `main` works.
fn work_as_main<R: Wait, D: Disk, C: SharedClock, G: Gate>(
    rt: &R,
    stores: BothStores<D>,
    clock: &C,
    gate: &G,
    until: i64,
    me: &MemberRow,
    jobs: &mut Vec<Jobs>,
) -> Result<(BothStores<D>, Option<Declined>), NoMemory>
    requires until { until ≤ℤ LONGEST }
    requires both_open { AreBothOpen (state_of_both stores) }
    ensures worked { IfOk result (λ r. WorkedAsMain (C.shows clock.now) until me.now (state_of_both stores) (state_of_both r.0)
        (map (λ list. map means list.items) jobs.old.items) (map (λ list. map means list.items) jobs.new.items)
        ⊎ DidNothing (state_of_both stores) (state_of_both r.0) (map (λ list. map means list.items) jobs.old.items) (map (λ list. map means list.items) jobs.new.items)) }
    ensures ended { IfOk result (λ r. r.1 ≡ None → MainEnded (C.shows clock.now) until me.now (state_of_both stores) (state_of_both r.0)) }
    ensures declined { IfOk result (λ r. IfSome r.1 (AtLimit (WasDeclined (C.shows clock.now) until (me.now.node ∷ []) (state_of_both stores) (state_of_both r.0)))) }
    ensures proceeds { IfOk result (λ r. Proceeds r.1 stores r.0) }
{
    stores.keep_all();
    if !is_short(&stores.triggers) {
        return Ok((stores, Some(Declined::NoMemory)));
    }
    let BothStores {
        alloc,
        triggers,
        states,
    } = stores;
    let (triggers, told) = serve_main(rt, alloc, triggers, clock, gate, until, me, jobs)?;
    let stores = BothStores {
        alloc,
        triggers,
        states,
    };
    let cause = stores.cause_now(told);
    Ok((stores, cause))
}

// One turn: `main` joins and works, and then all nodes of the call leave.
fn take_turn<R: Wait, D: Disk, C: SharedClock, G: Gate>(
    rt: &R,
    stores: BothStores<D>,
    clock: &C,
    gate: &G,
    until: i64,
    ours: &Ours,
    jobs: &mut Vec<Jobs>,
) -> Result<(BothStores<D>, Option<Declined>), NoMemory>
    requires until { until ≤ℤ LONGEST }
    requires both_open { AreBothOpen (state_of_both stores) }
    ensures took { IfOk result (λ r. (t : Turn) × (t.begun ≡ state_of_both stores) × (t.jobs ≡ map (λ list. map means list.items) jobs.old.items)
        × TookTurn (C.shows clock.now) until ours.now.nodes.items ours.now.main r.1 t (state_of_both r.0) (map (λ list. map means list.items) jobs.new.items)) }
    ensures declined { IfOk result (λ r. IfSome r.1 (AtLimit (WasDeclined (C.shows clock.now) until (ours_of ours.now) (state_of_both stores) (state_of_both r.0)))) }
    ensures proceeds { IfOk result (λ r. Proceeds r.1 stores r.0) }
{
    stores.keep_all();
    let mut stores = stores;
    let me = match stores.enter(clock, &ours.main) {
        Ok(me) => me,
        Err(why) => return Ok((stores, Some(why))),
    };
    let (stores, cause) = work_as_main(rt, stores, clock, gate, until, &me, jobs)?;
    match cause {
        Some(why) => Ok((stores, Some(why))),
        None => Ok(end_turn(stores, clock, ours)),
    }
}

// The end of a turn: all nodes of the call leave.
fn end_turn<D: Disk, C: SharedClock>(
    stores: BothStores<D>,
    clock: &C,
    ours: &Ours,
) -> (BothStores<D>, Option<Declined>)
    requires { AreBothOpen (state_of_both stores) }
    ensures came { CameAndWent (C.shows clock.now) (ours_of ours.now) (state_of_both stores) (state_of_both result.0) }
    ensures declined { (until : ℤ) → IfSome result.1 (AtLimit (WasDeclined (C.shows clock.now) until (ours_of ours.now) (state_of_both stores) (state_of_both result.0))) }
    ensures proceeds { Proceeds result.1 stores result.0 }
{
    stores.keep_all();
    let mut stores = stores;
    match stores.part_all(clock, ours) {
        Ok(()) => (stores, None),
        Err(why) => (stores, Some(why)),
    }
}

// Turns are taken until the work is over.
fn take_turns<R: Wait, D: Disk, C: SharedClock, G: Gate>(
    rt: &R,
    stores: BothStores<D>,
    clock: &C,
    gate: &G,
    until: i64,
    ours: &Ours,
    jobs: &mut Vec<Jobs>,
) -> Result<(BothStores<D>, Option<Declined>), NoMemory>
    requires until { until ≤ℤ LONGEST }
    requires both_open { AreBothOpen (state_of_both stores) }
    ensures took { IfOk result (λ r. (turns : List Turn) × TookTurns (C.shows clock.now) until ours.now.nodes.items ours.now.main r.1 turns (state_of_both stores) (state_of_both r.0)
        (map (λ list. map means list.items) jobs.old.items) (map (λ list. map means list.items) jobs.new.items)) }
    ensures ends { IfOk result (λ r. EndsBy (C.shows clock.now) until (ours_of ours.now) r.1 (state_of_both r.0)) }
    ensures declined { IfOk result (λ r. IfSome r.1 (AtLimit (WasDeclined (C.shows clock.now) until (ours_of ours.now) (state_of_both stores) (state_of_both r.0)))) }
    ensures proceeds { IfOk result (λ r. Proceeds r.1 stores r.0) }
{
    stores.keep_all();
    let mut stores = stores;
    'turns: for _ in rt.forever() {
        let (left, cause) = take_turn(rt, stores, clock, gate, until, ours, jobs)?;
        match cause {
            Some(why) => return Ok((left, Some(why))),
            None => {}
        }
        if left.is_over(clock, until, ours) {
            return Ok((left, None));
        }
        stores = left;
    }
    unreachable!()
}
