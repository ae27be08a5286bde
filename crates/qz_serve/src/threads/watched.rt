//! All nodes at once, and the looks at a board beside them.
ghost use Rattle.std.specs.Prelude.{◌≡◌, ◌≤ℤ◌, ℕ, ◌≤◌, ◌+◌, ◌^◌, [], ◌∷◌, length, map, false, None, IfSome};
ghost use Rattle.qz_types.specs.Rows.{MemberData};
ghost use Rattle.qz_row_lock.specs.Seats.{IsOf, ids, seen, mine, is_out, first_value};
ghost use Rattle.qz_row_lock.specs.Views.{times};
ghost use Rattle.qz_rounds.specs.Looking.{LeavesRows};
ghost use Rattle.qz_board_looks.specs.Watches.{GoesOn};
ghost use Rattle.qz_serve.specs.Finished.{HaveEnded, ShowsFault};
ghost use Rattle.qz_serve.specs.Performing.{AlwaysPerforms};
ghost use Rattle.qz_serve.specs.Knowing.{ShowsRan, MembersWorked};
ghost use Rattle.qz_serve.specs.Stopping.{ShowsStopped};
ghost use Rattle.qz_serve.specs.Watching.{Watched};

use crate::threads::Gate;
use crate::threads::chain::run_nodes;
use crate::threads::performing::{JobList, Meaning};
use crate::threads::watching::watch;
use qz_board::Subject;
use qz_board_looks::Watch;
use qz_node::JobContext;
use qz_rounds::{NodeStore, RoundStore, SharedClock};
use qz_run::Declined;
use qz_shared::{StoreRow, StoreSeat};
use qz_types::{Code, LONGEST, MemberRow};
use std::alloc::Global;
use std::sync::Wait;
use std::sync::atomic::{AtomicBool, Ordering};
use std::thread::{Threads, join};

/// The two threads of each of these members, until all have ended. Where looks are planned, a thread makes them meanwhile.
pub(super) fn run_watched<
    S: NodeStore + Send,
    T: RoundStore + Send,
    R: Threads + Wait + Sync,
    C: SharedClock + Sync,
    G: Gate + Sync,
    L: JobList + Send,
    E: Fn(&mut L, &JobContext) -> Code + Sync,
    M: Meaning<L> + Send + Sync,
    K: Subject,
>(
    rt: &R,
    alloc: Global,
    row: &StoreRow<S>,
    states: &StoreRow<T>,
    clock: &C,
    gate: &G,
    run: &E,
    until: i64,
    members: &[MemberRow],
    seat: StoreSeat<S>,
    state: StoreSeat<T>,
    lists: Vec<L>,
    looks: Option<Watch<K>>,
) -> (
    (StoreSeat<S>, StoreSeat<T>, Vec<L>, Option<Declined>),
    Option<Watch<K>>,
)
    requires of { IsOf row.now seat × IsOf states.now state }
    requires home { (is_out seat ≡ false) × (is_out state ≡ false) }
    requires until { until ≤ℤ LONGEST }
    requires performs { E.IsAlwaysCallable run.now × AlwaysPerforms E.Fn run.now M.meanings }
    requires none { (list : _) → L.has_none list → M.meanings list ≡ [] }
    requires new { (mine seat ≡ []) × (mine state ≡ []) }
    requires own { (ids seat ≡ seat.number ∷ []) × (ids state ≡ state.number ∷ []) }
    requires few { length members.now ≤ 16 }
    requires more { (2 ^ (length members.now + 1) ≤ seat.more + 1) × (2 ^ (length members.now + 1) ≤ state.more + 1) }
    ensures of { IsOf row.now result.0.0 × IsOf states.now result.0.1 }
    ensures home { (is_out result.0.0 ≡ false) × (is_out result.0.1 ≡ false) }
    ensures parts { (result.0.0.parts ≡ seat.parts) × (result.0.1.parts ≡ state.parts) }
    ensures worked { MembersWorked (C.shows clock.now) until (LeavesRows T.kind T.listed T.state T.tables (T.state (first_value states.now).opened.value)) (T.listed (T.state (first_value states.now).opened.value).history) members.now
        (ShowsRan row.now result.0.0) (ids result.0.0) (mine result.0.0) (seen result.0.1) (mine result.0.1) (map M.meanings lists.items) (map M.meanings result.0.2.items) }
    ensures stopped { IfSome result.0.3 (ShowsStopped (C.shows clock.now) until (LeavesRows T.kind T.listed T.state T.tables (T.state (first_value states.now).opened.value)) (T.listed (T.state (first_value states.now).opened.value).history) (map (λ (m : MemberData). m.node) members.now) row.now states.now result.0.0 result.0.1) }
    ensures once { (x : ℕ) → times x (ids result.0.0) ≤ 1 }
    ensures ended { result.0.3 ≡ None → HaveEnded (C.shows clock.now) until (T.listed (T.state (first_value states.now).opened.value).history) members.now row.now result.0.0 result.0.1 }
    ensures fault { ShowsFault result.0.3 result.0.0 result.0.1 }
    ensures looks { Watched looks result.1 }
{
    let Some(looks) = looks else {
        let ran = run_nodes::<S, T, R, C, G, L, E, M>(
            rt, alloc, row, states, clock, gate, run, until, 0, members, seat, state, lists,
        );
        return (ran, None);
    };
    let ended = AtomicBool::new(false);
    let end = &ended;
    let (ran, looks) = join(
        rt,
        move || -> (StoreSeat<S>, StoreSeat<T>, Vec<L>, Option<Declined>)
            requires { IsOf row.now seat × IsOf states.now state × (is_out seat ≡ false) × (is_out state ≡ false) × (until ≤ℤ LONGEST) × E.IsAlwaysCallable run.now × AlwaysPerforms E.Fn run.now M.meanings × ((list : _) → L.has_none list → M.meanings list ≡ []) × (mine seat ≡ []) × (mine state ≡ []) × (ids seat ≡ seat.number ∷ []) × (ids state ≡ state.number ∷ []) × (length members.now ≤ 16) × (2 ^ (length members.now + 1) ≤ seat.more + 1) × (2 ^ (length members.now + 1) ≤ state.more + 1) }
            ensures { IsOf row.entry.now result.0 × IsOf states.entry.now result.1 × (is_out result.0 ≡ false) × (is_out result.1 ≡ false) × (result.0.parts ≡ seat.parts) × (result.1.parts ≡ state.parts)
                × MembersWorked (C.shows clock.entry.now) until (LeavesRows T.kind T.listed T.state T.tables (T.state (first_value states.entry.now).opened.value)) (T.listed (T.state (first_value states.entry.now).opened.value).history) members.entry.now
                (ShowsRan row.entry.now result.0) (ids result.0) (mine result.0) (seen result.1) (mine result.1) (map M.meanings lists.items) (map M.meanings result.2.items)
                × IfSome result.3 (ShowsStopped (C.shows clock.entry.now) until (LeavesRows T.kind T.listed T.state T.tables (T.state (first_value states.entry.now).opened.value)) (T.listed (T.state (first_value states.entry.now).opened.value).history) (map (λ (m : MemberData). m.node) members.entry.now) row.entry.now states.entry.now result.0 result.1)
                × ((x : ℕ) → times x (ids result.0) ≤ 1)
                × (result.3 ≡ None → HaveEnded (C.shows clock.entry.now) until (T.listed (T.state (first_value states.entry.now).opened.value).history) members.entry.now row.entry.now result.0 result.1) × ShowsFault result.3 result.0 result.1 }
        {
            let ran = run_nodes::<S, T, R, C, G, L, E, M>(
                rt, alloc, row, states, clock, gate, run, until, 0, members, seat, state, lists,
            );
            end.store(true, Ordering::SeqCst);
            ran
        },
        move || -> Watch<K>
            ensures { GoesOn looks result }
        { watch::<K, R, C>(rt, clock, until, end, looks) },
    );
    (ran, Some(looks))
}
