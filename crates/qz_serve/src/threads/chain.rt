//! All nodes at once.
ghost use Rattle.std.specs.Prelude.{◌≡◌, ◌≤ℤ◌, ℕ, ◌≤◌, ◌+◌, ◌^◌, [], ◌∷◌, length, take, drop, map, false, None, IfSome};
ghost use Rattle.std.specs.Thread.{IsSend, IsSync};
ghost use Rattle.qz_types.specs.Rows.{MemberData};
ghost use Rattle.qz_row_lock.specs.Seats.{IsOf, ids, seen, mine, is_out, first_value};
ghost use Rattle.qz_row_lock.specs.Views.{times};
ghost use Rattle.qz_rounds.specs.Looking.{LeavesRows};
ghost use Rattle.qz_serve.specs.Finished.{HaveEnded, ShowsFault};
ghost use Rattle.qz_serve.specs.Performing.{AlwaysPerforms};
ghost use Rattle.qz_serve.specs.Knowing.{ShowsRan, HaveWorked, MembersWorked};
ghost use Rattle.qz_serve.specs.Stopping.{ShowsStopped};

use crate::threads::Gate;
use crate::threads::causes::least_cause;
use crate::threads::lists::{put_list, take_list};
use crate::threads::pairs::run_pair;
use crate::threads::performing::{JobList, Meaning};
use qz_node::JobContext;
use qz_rounds::{NodeStore, RoundStore, SharedClock};
use qz_run::Declined;
use qz_shared::{RowStore, StoreRow, StoreSeat};
use qz_types::{Code, LONGEST, MemberRow};
use std::alloc::Global;
use std::sync::Wait;
use std::thread::{Threads, join};

// Splits a seat in two: one for the nodes after a node, and one for that node.
fn split_for<S: RowStore>(
    row: &StoreRow<S>,
    seat: StoreSeat<S>,
    others: &[MemberRow],
) -> (StoreSeat<S>, StoreSeat<S>)
    requires of { IsOf row.now seat }
    requires home { is_out seat ≡ false }
    requires new { mine seat ≡ [] }
    requires own { ids seat ≡ seat.number ∷ [] }
    requires more { 2 ^ (length others.now + 2) ≤ seat.more + 1 }
    ensures of { IsOf row.now result.0 × IsOf row.now result.1 }
    ensures home { (is_out result.0 ≡ false) × (is_out result.1 ≡ false) }
    ensures new { (mine result.0 ≡ []) × (mine result.1 ≡ []) }
    ensures own { (ids result.0 ≡ result.0.number ∷ []) × (ids result.1 ≡ result.1.number ∷ []) }
    ensures parts { result.0.parts + result.1.parts ≡ seat.parts }
    ensures more { (2 ^ (length others.now + 1) ≤ result.0.more + 1) × (1 ≤ result.1.more) }
{
    row.split(seat)
}

/// The two threads of each of these members, until all have ended. Before them so many nodes were counted, each of which has a
/// list of jobs before theirs.
pub(super) fn run_nodes<
    S: NodeStore + Send,
    T: RoundStore + Send,
    R: Threads + Wait + Sync,
    C: SharedClock + Sync,
    G: Gate + Sync,
    L: JobList + Send,
    E: Fn(&mut L, &JobContext) -> Code + Sync,
    M: Meaning<L> + Send + Sync,
>(
    rt: &R,
    alloc: Global,
    row: &StoreRow<S>,
    states: &StoreRow<T>,
    clock: &C,
    gate: &G,
    run: &E,
    until: i64,
    counted: u32,
    members: &[MemberRow],
    seat: StoreSeat<S>,
    state: StoreSeat<T>,
    lists: Vec<L>,
) -> (StoreSeat<S>, StoreSeat<T>, Vec<L>, Option<Declined>)
    requires of { IsOf row.now seat × IsOf states.now state }
    requires home { (is_out seat ≡ false) × (is_out state ≡ false) }
    requires until { until ≤ℤ LONGEST }
    requires performs { E.IsAlwaysCallable run.now × AlwaysPerforms E.Fn run.now M.meanings }
    requires none { (list : _) → L.has_none list → M.meanings list ≡ [] }
    requires new { (mine seat ≡ []) × (mine state ≡ []) }
    requires own { (ids seat ≡ seat.number ∷ []) × (ids state ≡ state.number ∷ []) }
    requires few { counted + length members.now ≤ 16 }
    requires more { (2 ^ (length members.now + 1) ≤ seat.more + 1) × (2 ^ (length members.now + 1) ≤ state.more + 1) }
    ensures of { IsOf row.now result.0 × IsOf states.now result.1 }
    ensures home { (is_out result.0 ≡ false) × (is_out result.1 ≡ false) }
    ensures parts { (result.0.parts ≡ seat.parts) × (result.1.parts ≡ state.parts) }
    ensures worked { MembersWorked (C.shows clock.now) until (LeavesRows T.kind T.listed T.state T.tables (T.state (first_value states.now).opened.value)) (T.listed (T.state (first_value states.now).opened.value).history) members.now
        (ShowsRan row.now result.0) (ids result.0) (mine result.0) (seen result.1) (mine result.1) (drop counted (map M.meanings lists.items)) (drop counted (map M.meanings result.2.items)) }
    ensures ended { result.3 ≡ None → HaveEnded (C.shows clock.now) until (T.listed (T.state (first_value states.now).opened.value).history) members.now row.now result.0 result.1 }
    ensures fault { ShowsFault result.3 result.0 result.1 }
    ensures stopped { IfSome result.3 (ShowsStopped (C.shows clock.now) until (LeavesRows T.kind T.listed T.state T.tables (T.state (first_value states.now).opened.value)) (T.listed (T.state (first_value states.now).opened.value).history) (map (λ (m : MemberData). m.node) members.now) row.now states.now result.0 result.1) }
    ensures once { (x : ℕ) → times x (ids result.0) ≤ 1 }
    ensures before { take counted (map M.meanings result.2.items) ≡ take counted (map M.meanings lists.items) }
{
    match members {
        [] => (seat, state, lists, None),
        [me, others @ ..] => {
            let node = counted + 1;
            let mut lists = lists;
            let own = take_list::<L, M>(alloc, &mut lists, counted as usize);
            let (seat, first) = split_for(row, seat, others);
            let (state, first_state) = split_for(states, state, others);
            let ((first, first_state, own, cause), (seat, state, lists, other_cause)) = join(
                rt,
                move || -> (StoreSeat<S>, StoreSeat<T>, L, Option<Declined>)
                    requires { IsOf row.now first × IsOf states.now first_state × (is_out first ≡ false) × (is_out first_state ≡ false) × (until ≤ℤ LONGEST) × (mine first ≡ []) × (mine first_state ≡ []) × (ids first ≡ first.number ∷ []) × (1 ≤ first.more) × E.IsAlwaysCallable run.now × AlwaysPerforms E.Fn run.now M.meanings }
                    ensures { IsOf row.entry.now result.0 × IsOf states.entry.now result.1 × (is_out result.0 ≡ false) × (is_out result.1 ≡ false) × (result.0.parts ≡ first.parts) × (result.1.parts ≡ first_state.parts)
                        × HaveWorked (C.shows clock.entry.now) until (LeavesRows T.kind T.listed T.state T.tables (T.state (first_value states.entry.now).opened.value)) (T.listed (T.state (first_value states.entry.now).opened.value).history) (record { me = me.entry.now; number = first.number } ∷ [])
                        (ShowsRan row.entry.now result.0) (ids result.0) (mine result.0) (seen result.1) (mine result.1) (M.meanings own ∷ []) (M.meanings result.2 ∷ [])
                        × IfSome result.3 (ShowsStopped (C.shows clock.entry.now) until (LeavesRows T.kind T.listed T.state T.tables (T.state (first_value states.entry.now).opened.value)) (T.listed (T.state (first_value states.entry.now).opened.value).history) (me.entry.now.node ∷ []) row.entry.now states.entry.now result.0 result.1)
                        × (result.3 ≡ None → HaveEnded (C.shows clock.entry.now) until (T.listed (T.state (first_value states.entry.now).opened.value).history) (me.entry.now ∷ []) row.entry.now result.0 result.1) × ShowsFault result.3 result.0 result.1 }
                {
                    run_pair::<S, T, R, C, G, L, E, M>(
                        rt,
                        row,
                        states,
                        clock,
                        gate,
                        run,
                        node,
                        until,
                        me,
                        first,
                        first_state,
                        own,
                    )
                },
                move || -> (StoreSeat<S>, StoreSeat<T>, Vec<L>, Option<Declined>)
                    requires { IsSync R.row × IsSync C.row × IsSync G.row × IsSend S.row × IsSend T.row × IsSend L.row × IsSync E.row × IsSend M.row × IsSync M.row × IsOf row.now seat × IsOf states.now state × (is_out seat ≡ false) × (is_out state ≡ false) × (until ≤ℤ LONGEST) × (mine seat ≡ []) × (mine state ≡ []) × (ids seat ≡ seat.number ∷ []) × (ids state ≡ state.number ∷ []) × (node + length others.now ≤ 16) × (2 ^ (length others.now + 1) ≤ seat.more + 1) × (2 ^ (length others.now + 1) ≤ state.more + 1) × E.IsAlwaysCallable run.now × AlwaysPerforms E.Fn run.now M.meanings × ((list : _) → L.has_none list → M.meanings list ≡ []) }
                    ensures { IsOf row.entry.now result.0 × IsOf states.entry.now result.1 × (is_out result.0 ≡ false) × (is_out result.1 ≡ false) × (result.0.parts ≡ seat.parts) × (result.1.parts ≡ state.parts)
                        × MembersWorked (C.shows clock.entry.now) until (LeavesRows T.kind T.listed T.state T.tables (T.state (first_value states.entry.now).opened.value)) (T.listed (T.state (first_value states.entry.now).opened.value).history) others.entry.now
                        (ShowsRan row.entry.now result.0) (ids result.0) (mine result.0) (seen result.1) (mine result.1) (drop node (map M.meanings lists.items)) (drop node (map M.meanings result.2.items))
                        × (take node (map M.meanings result.2.items) ≡ take node (map M.meanings lists.items))
                        × IfSome result.3 (ShowsStopped (C.shows clock.entry.now) until (LeavesRows T.kind T.listed T.state T.tables (T.state (first_value states.entry.now).opened.value)) (T.listed (T.state (first_value states.entry.now).opened.value).history) (map (λ (m : MemberData). m.node) others.entry.now) row.entry.now states.entry.now result.0 result.1)
                        × (result.3 ≡ None → HaveEnded (C.shows clock.entry.now) until (T.listed (T.state (first_value states.entry.now).opened.value).history) others.entry.now row.entry.now result.0 result.1) × ShowsFault result.3 result.0 result.1 }
                {
                    run_nodes::<S, T, R, C, G, L, E, M>(
                        rt, alloc, row, states, clock, gate, run, until, node, others, seat, state,
                        lists,
                    )
                },
            );
            let mut lists = lists;
            put_list::<L, M>(&mut lists, counted as usize, own);
            (
                row.join(seat, first),
                states.join(state, first_state),
                lists,
                least_cause(cause, other_cause),
            )
        }
    }
}
