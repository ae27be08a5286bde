//! Nodes that work on stores, from the stores' being put under their rows to their being taken back.
ghost use Rattle.std.specs.Prelude.{◌≡◌, ◌⊎◌, ◌≤ℤ◌, ◌≤◌, ◌<◌, ◌^◌, [], ◌∷◌, ◌++◌, false, length, map, Some, None, IfOk, IfSome, OnErr};
ghost use Rattle.std.specs.List.{AllByRecursion};
ghost use Rattle.qz_types.specs.Rows.{MemberData};
ghost use Rattle.qz_row_lock.specs.Seats.{IsOf, ids, mine, is_out, first_value};
ghost use Rattle.qz_shared.specs.Calls.{known};
ghost use Rattle.qz_shared.specs.Since.{IsSince};
ghost use Rattle.qz_rounds.specs.Declining.{IsStopped};
ghost use Rattle.qz_rounds.specs.Looking.{LeavesRows};
ghost use Rattle.qz_serve.specs.Asking.{KeepsSeat};
ghost use Rattle.qz_serve.specs.Declining.{AtLimit, DeclinedOnTheWay};
ghost use Rattle.qz_serve.specs.Entries.{IsScheduled};
ghost use Rattle.qz_serve.specs.Finished.{CameToEnd, HasEnded, NodeCameToEnd};
ghost use Rattle.qz_serve.specs.Heard.{heard_since};
ghost use Rattle.qz_serve.specs.Knowing.{EachTold, ShowsRan};
ghost use Rattle.qz_serve.specs.Performing.{AlwaysPerforms, Performs};
ghost use Rattle.qz_serve.specs.Served.{NodesServed, MainServed};
ghost use Rattle.qz_serve.specs.Stopping.{IsOfThreads, IsRowOfThreads};
ghost use Rattle.qz_serve.specs.Watching.{Watched};

use crate::threads::Gate;
use crate::threads::executing::execute;
use crate::threads::lists::{put_list, take_list};
use crate::threads::nodes::run_listed;
use crate::threads::performing::{JobList, Meaning};
use crate::threads::watched::run_watched;
use qz_board::Subject;
use qz_board_looks::Watch;
use qz_node::{Job, JobContext, Jobs};
use qz_rounds::{NodeStore, RoundStore, SharedClock};
use qz_run::Declined;
use qz_shared::{RowStore, StoreRow, StoreSeat, close_row, open_row};
use qz_types::{Code, LONGEST, MemberRow, NoMemory};
use std::alloc::Global;
use std::marker::Brand;
use std::mem;
use std::sync::Wait;
use std::thread::Threads;

// A law, and no work: a store lists an entry that was accepted as its last one.
fn lists_last<S: RowStore>()
    ensures { (e : S.Entry) (h : S.History) → S.listed (S.kind.with_entry e h) ≡ S.listed h ++ e ∷ [] }
{}

/// Members work on two stores up to a moment, in ms since 1970-01-01T00:00:00Z. Each has a scheduler thread and a check-in thread.
/// The first member is the node 1 and has the first list of jobs, and so on; an absent list is empty. Where threads ended early,
/// the cause of least exit number is given. Without memory the stores are given up, and nobody works. Where looks at a board are
/// planned, they are made meanwhile.
pub(crate) fn serve_nodes<
    S: NodeStore + Send,
    T: RoundStore + Send,
    R: Threads + Wait + Sync,
    C: SharedClock + Sync,
    G: Gate + Sync,
    K: Subject,
>(
    rt: &R,
    alloc: Global,
    triggers: S,
    states: T,
    clock: &C,
    gate: &G,
    until: i64,
    members: &[MemberRow],
    jobs: &mut Vec<Jobs>,
    looks: Option<Watch<K>>,
) -> Result<(S, T, Option<Declined>, Option<Watch<K>>), NoMemory>
    requires few { (length (S.listed (S.state triggers).history) < 2 ^ 62) × (length (T.listed (T.state states).history) < 2 ^ 62) }
    requires until { until ≤ℤ LONGEST }
    requires members { length members.now ≤ 16 }
    ensures served { IfOk result (λ r. NodesServed (C.shows clock.now) until (heard_since S.kind S.listed S.seat_of (S.state triggers)) (LeavesRows T.kind T.listed T.state T.tables (T.state states)) members.now
        (S.listed (S.state triggers).history) (S.listed (S.state r.0).history) (T.listed (T.state states).history) (T.listed (T.state r.1).history)
        (map (λ list. map means list.items) jobs.old.items) (map (λ list. map means list.items) jobs.new.items)) }
    ensures declined { IfOk result (λ r. IfSome r.2 (AtLimit (λ why.
        DeclinedOnTheWay S.kind S.listed (IsOfThreads (C.shows clock.now) until (LeavesRows T.kind T.listed T.state T.tables (T.state states)) (T.listed (T.state states).history) (map (λ (m : MemberData). m.node) members.now) (T.listed (T.state r.1).history)) (S.state triggers) (S.state r.0) why
        ⊎ DeclinedOnTheWay T.kind T.listed (IsRowOfThreads (C.shows clock.now) until (LeavesRows T.kind T.listed T.state T.tables (T.state states)) (T.listed (T.state states).history) (map (λ (m : MemberData). m.node) members.now) (T.listed (T.state r.1).history)) (T.state states) (T.state r.1) why))) }
    ensures ended { IfOk result (λ r. r.2 ≡ None → AllByRecursion (NodeCameToEnd S.kind S.listed (S.state triggers) (C.shows clock.now) until (T.listed (T.state states).history) (S.listed (S.state r.0).history) (T.listed (T.state r.1).history)) members.now) }
    ensures fault { IfOk result (λ r. r.2 ≡ Some Declined.Fault → ((S.state r.0).is_open ≡ false) ⊎ ((T.state r.1).is_open ≡ false)) }
    ensures since { IfOk result (λ r. IsSince S.kind S.listed (S.state triggers) (S.state r.0) × IsSince T.kind T.listed (T.state states) (T.state r.1)) }
    ensures went { IfOk result (λ r. ∥ S.Went triggers r.0 ∥₁ × ∥ T.Went states r.1 ∥₁) }
    ensures looks { IfOk result (λ r. Watched looks r.3) }
    ensures untouched { OnErr result (jobs.new.items ≡ jobs.old.items) }
{
    lists_last::<S>();
    lists_last::<T>();
    let (row, seat) = open_row(alloc, triggers)?;
    let (rounds, state) = open_row(alloc, states)?;
    let lists = mem::replace(jobs, Vec::new(alloc));
    let run = |jobs: &mut Jobs, context: &JobContext| -> Code
        ensures { Performs context.now result (map means jobs.old.items) (map means jobs.new.items) }
    { execute(jobs, context) };
    let ((seat, state, lists, cause), looks) = run_watched::<S, T, R, C, G, Jobs, _, Brand, K>(
        rt, alloc, &row, &rounds, clock, gate, &run, until, members, seat, state, lists, looks,
    );
    *jobs = lists;
    Ok((close_row(row, seat), close_row(rounds, state), cause, looks))
}

// The node `main`, with a row for itself and the first list of jobs.
fn run_main<
    S: NodeStore,
    R: Wait,
    C: SharedClock,
    G: Gate,
    L: JobList,
    E: Fn(&mut L, &JobContext) -> Code,
    M: Meaning<L>,
>(
    rt: &R,
    alloc: Global,
    row: &StoreRow<S>,
    clock: &C,
    gate: &G,
    run: &E,
    until: i64,
    me: &MemberRow,
    seat: StoreSeat<S>,
    lists: &mut Vec<L>,
) -> (StoreSeat<S>, Option<Declined>)
    requires of { IsOf row.now seat }
    requires home { is_out seat ≡ false }
    requires until { until ≤ℤ LONGEST }
    requires performs { E.IsAlwaysCallable run.now × AlwaysPerforms E.Fn run.now M.meanings }
    requires none { (list : _) → L.has_none list → M.meanings list ≡ [] }
    requires new { mine seat ≡ [] }
    requires own { ids seat ≡ seat.number ∷ [] }
    ensures of { IsOf row.now result.0 }
    ensures home { is_out result.0 ≡ false }
    ensures same { KeepsSeat seat result.0 }
    ensures entries { AllByRecursion (IsScheduled (C.shows clock.now) until me.now seat.number) (mine result.0) }
    ensures told { EachTold (λ n. ShowsRan row.now result.0 (n ∷ [])) (seat.number ∷ []) (map M.meanings lists.old.items) (map M.meanings lists.new.items) }
    ensures ended { result.1 ≡ None → HasEnded (C.shows clock.now) until me.now seat.number row.now result.0 }
    ensures stopped { IfSome result.1 (IsStopped S.kind S.listed (S.state (first_value row.now).opened.value) (IsScheduled (C.shows clock.now) until me.now seat.number) (known result.0)) }
{
    let list = take_list::<L, M>(alloc, lists, 0);
    let (seat, list, cause) = run_listed::<S, R, C, G, L, E, M>(
        rt, row, clock, gate, run, 0, until, me, seat, list,
    );
    put_list::<L, M>(lists, 0, list);
    (seat, cause)
}

/// The node `main` works alone on a trigger store up to a moment, in ms since 1970-01-01T00:00:00Z, in the calling thread. It has
/// the first list of jobs; an absent list is empty. The cause is given where it ended early. Without memory the store is given
/// up, and nothing is done.
pub(crate) fn serve_main<S: NodeStore, R: Wait, C: SharedClock, G: Gate>(
    rt: &R,
    alloc: Global,
    triggers: S,
    clock: &C,
    gate: &G,
    until: i64,
    me: &MemberRow,
    jobs: &mut Vec<Jobs>,
) -> Result<(S, Option<Declined>), NoMemory>
    requires few { length (S.listed (S.state triggers).history) < 2 ^ 62 }
    requires until { until ≤ℤ LONGEST }
    ensures served { IfOk result (λ r. MainServed (C.shows clock.now) until (heard_since S.kind S.listed S.seat_of (S.state triggers)) me.now
        (S.listed (S.state triggers).history) (S.listed (S.state r.0).history)
        (map (λ list. map means list.items) jobs.old.items) (map (λ list. map means list.items) jobs.new.items)) }
    ensures declined { IfOk result (λ r. IfSome r.1 (AtLimit (DeclinedOnTheWay S.kind S.listed (IsScheduled (C.shows clock.now) until me.now 0) (S.state triggers) (S.state r.0)))) }
    ensures ended { IfOk result (λ r. r.1 ≡ None → CameToEnd S.kind S.listed (S.state triggers) (C.shows clock.now) until me.now 0 (S.listed (S.state r.0).history)) }
    ensures fault { IfOk result (λ r. r.1 ≡ Some Declined.Fault → (S.state r.0).is_open ≡ false) }
    ensures since { IfOk result (λ r. IsSince S.kind S.listed (S.state triggers) (S.state r.0)) }
    ensures went { IfOk result (λ r. ∥ S.Went triggers r.0 ∥₁) }
    ensures untouched { OnErr result (jobs.new.items ≡ jobs.old.items) }
{
    let (row, seat) = open_row(alloc, triggers)?;
    let run = |jobs: &mut Jobs, context: &JobContext| -> Code
        ensures { Performs context.now result (map means jobs.old.items) (map means jobs.new.items) }
    { execute(jobs, context) };
    let (seat, cause) = run_main::<S, R, C, G, Jobs, _, Brand>(
        rt, alloc, &row, clock, gate, &run, until, me, seat, jobs,
    );
    Ok((close_row(row, seat), cause))
}
