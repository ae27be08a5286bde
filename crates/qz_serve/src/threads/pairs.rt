//! A node's two threads at once.
ghost use Rattle.std.specs.Prelude.{◌≡◌, ◌⊎◌, ◌≤ℤ◌, ◌≤◌, ℤ, [], ◌∷◌, map, false, None, IfSome};
ghost use Rattle.qz_row_lock.specs.Seats.{IsOf, ids, seen, mine, is_out, first_value};
ghost use Rattle.qz_shared.specs.Calls.{known};
ghost use Rattle.qz_rounds.specs.Looking.{HasCheckedIn, LeavesRows};
ghost use Rattle.qz_rounds.specs.Adding.{AddsRounds, IsRecovery, IsRoundEntry};
ghost use Rattle.qz_rounds.specs.Declining.{IsStopped, stopped_by};
ghost use Rattle.qz_serve.specs.Entries.{IsScheduled};
ghost use Rattle.qz_serve.specs.Asking.{KeepsSeat};
ghost use Rattle.qz_serve.specs.Finished.{HasEnded, HaveEnded, ShowsFault};
ghost use Rattle.qz_serve.specs.Performing.{AlwaysPerforms};
ghost use Rattle.qz_serve.specs.Knowing.{ShowsRan, HaveWorked};
ghost use Rattle.qz_serve.specs.Stopping.{ShowsStopped};
ghost use Rattle.std.specs.List.{AllByRecursion};

use crate::threads::Gate;
use crate::threads::causes::least_cause;
use crate::threads::nodes::run_listed;
use crate::threads::performing::{JobList, Meaning};
use qz_node::JobContext;
use qz_rounds::{NodeStore, RoundStore, SharedClock, check_rounds};
use qz_run::Declined;
use qz_shared::{StoreRow, StoreSeat};
use qz_types::{Code, LONGEST, MemberRow};
use std::sync::Wait;
use std::thread::{Threads, join};

// Why a thread ended early, if it did.
fn cause_of(ended: Result<(), Declined>) -> Option<Declined>
    ensures { ended ≡ stopped_by result }
{
    match ended {
        Ok(()) => None,
        Err(why) => Some(why),
    }
}

// The check-in thread, which gives its seats back.
#[tactic(auto, using(qz_rounds::proofs::Lasting::adds_none))]
fn run_rounds<S: NodeStore, T: RoundStore, R: Wait, C: SharedClock>(
    rt: &R,
    row: &StoreRow<S>,
    states: &StoreRow<T>,
    clock: &C,
    until: i64,
    me: &MemberRow,
    seat: StoreSeat<S>,
    state: StoreSeat<T>,
) -> (StoreSeat<S>, StoreSeat<T>, Option<Declined>)
    requires of { IsOf row.now seat × IsOf states.now state }
    requires home { (is_out seat ≡ false) × (is_out state ≡ false) }
    requires new { (mine seat ≡ []) × (mine state ≡ []) }
    ensures of { IsOf row.now result.0 × IsOf states.now result.1 }
    ensures home { (is_out result.0 ≡ false) × (is_out result.1 ≡ false) }
    ensures same { KeepsSeat seat result.0 × KeepsSeat state result.1 }
    ensures adds { AddsRounds (C.shows clock.now) (LeavesRows T.kind T.listed T.state T.tables (T.state (first_value states.now).opened.value)) (T.listed (T.state (first_value states.now).opened.value).history) me.now (known result.0) (known result.1) }
    ensures ended { result.2 ≡ None → (at : ℤ) × C.shows clock.now at × (until ≤ℤ at) × HasCheckedIn (T.listed (T.state (first_value states.now).opened.value).history) me.now.node at (seen result.1) }
    ensures stopped { IfSome result.2 (λ why. IsStopped S.kind S.listed (S.state (first_value row.now).opened.value) (IsRecovery (C.shows clock.now) (LeavesRows T.kind T.listed T.state T.tables (T.state (first_value states.now).opened.value)) (T.listed (T.state (first_value states.now).opened.value).history) me.now (seen result.1)) (known result.0) why ⊎ IsStopped T.kind T.listed (T.state (first_value states.now).opened.value) (IsRoundEntry (C.shows clock.now) (LeavesRows T.kind T.listed T.state T.tables (T.state (first_value states.now).opened.value)) (T.listed (T.state (first_value states.now).opened.value).history) me.now.node (seen result.1)) (known result.1) why) }
{
    let mut seat = seat;
    let mut state = state;
    let ended = check_rounds(rt, row, states, clock, until, me, &mut seat, &mut state);
    (seat, state, cause_of(ended))
}

// Both threads, each with a seat of the triggers. The check-in thread has the seat of the states.
fn run_both<
    S: NodeStore + Send,
    T: RoundStore + Send,
    R: Threads + Wait + Sync,
    C: SharedClock + Sync,
    G: Gate + Sync,
    L: JobList + Send,
    E: Fn(&mut L, &JobContext) -> Code + Sync,
    M: Meaning<L> + Send + Sync,
>(
    rt: &R,
    row: &StoreRow<S>,
    states: &StoreRow<T>,
    clock: &C,
    gate: &G,
    run: &E,
    node: u32,
    until: i64,
    me: &MemberRow,
    seat: StoreSeat<S>,
    other: StoreSeat<S>,
    state: StoreSeat<T>,
    jobs: L,
) -> (
    (StoreSeat<S>, L, Option<Declined>),
    (StoreSeat<S>, StoreSeat<T>, Option<Declined>),
)
    requires of { IsOf row.now seat × IsOf row.now other × IsOf states.now state }
    requires home { (is_out seat ≡ false) × (is_out other ≡ false) × (is_out state ≡ false) }
    requires until { until ≤ℤ LONGEST }
    requires performs { E.IsAlwaysCallable run.now × AlwaysPerforms E.Fn run.now M.meanings }
    requires new { (mine seat ≡ []) × (mine other ≡ []) × (mine state ≡ []) }
    requires own { ids seat ≡ seat.number ∷ [] }
    ensures of { IsOf row.now result.0.0 × IsOf row.now result.1.0 × IsOf states.now result.1.1 }
    ensures home { (is_out result.0.0 ≡ false) × (is_out result.1.0 ≡ false) × (is_out result.1.1 ≡ false) }
    ensures same { KeepsSeat seat result.0.0 × KeepsSeat other result.1.0 × KeepsSeat state result.1.1 }
    ensures entries { AllByRecursion (IsScheduled (C.shows clock.now) until me.now seat.number) (mine result.0.0) }
    ensures ran { ShowsRan row.now result.0.0 (seat.number ∷ []) (M.meanings jobs) (M.meanings result.0.1) }
    ensures adds { AddsRounds (C.shows clock.now) (LeavesRows T.kind T.listed T.state T.tables (T.state (first_value states.now).opened.value)) (T.listed (T.state (first_value states.now).opened.value).history) me.now (known result.1.0) (known result.1.1) }
    ensures ended { result.0.2 ≡ None → HasEnded (C.shows clock.now) until me.now seat.number row.now result.0.0 }
    ensures ended_rounds { result.1.2 ≡ None → (at : ℤ) × C.shows clock.now at × (until ≤ℤ at) × HasCheckedIn (T.listed (T.state (first_value states.now).opened.value).history) me.now.node at (seen result.1.1) }
    ensures stopped { IfSome result.0.2 (IsStopped S.kind S.listed (S.state (first_value row.now).opened.value) (IsScheduled (C.shows clock.now) until me.now seat.number) (known result.0.0)) }
    ensures stopped_rounds { IfSome result.1.2 (λ why. IsStopped S.kind S.listed (S.state (first_value row.now).opened.value) (IsRecovery (C.shows clock.now) (LeavesRows T.kind T.listed T.state T.tables (T.state (first_value states.now).opened.value)) (T.listed (T.state (first_value states.now).opened.value).history) me.now (seen result.1.1)) (known result.1.0) why ⊎ IsStopped T.kind T.listed (T.state (first_value states.now).opened.value) (IsRoundEntry (C.shows clock.now) (LeavesRows T.kind T.listed T.state T.tables (T.state (first_value states.now).opened.value)) (T.listed (T.state (first_value states.now).opened.value).history) me.now.node (seen result.1.1)) (known result.1.1) why) }
{
    join(
        rt,
        move || -> (StoreSeat<S>, L, Option<Declined>)
            requires { IsOf row.now seat × (is_out seat ≡ false) × (until ≤ℤ LONGEST) × (mine seat ≡ []) × (ids seat ≡ seat.number ∷ []) × E.IsAlwaysCallable run.now × AlwaysPerforms E.Fn run.now M.meanings }
            ensures { IsOf row.entry.now result.0 × (is_out result.0 ≡ false) × KeepsSeat seat result.0 × AllByRecursion (IsScheduled (C.shows clock.entry.now) until me.entry.now seat.number) (mine result.0) × ShowsRan row.entry.now result.0 (seat.number ∷ []) (M.meanings jobs) (M.meanings result.1) × IfSome result.2 (IsStopped S.kind S.listed (S.state (first_value row.entry.now).opened.value) (IsScheduled (C.shows clock.entry.now) until me.entry.now seat.number) (known result.0)) × (result.2 ≡ None → HasEnded (C.shows clock.entry.now) until me.entry.now seat.number row.entry.now result.0) }
        {
            run_listed::<S, R, C, G, L, E, M>(
                rt, row, clock, gate, run, node, until, me, seat, jobs,
            )
        },
        move || -> (StoreSeat<S>, StoreSeat<T>, Option<Declined>)
            requires { IsOf row.now other × IsOf states.now state × (is_out other ≡ false) × (is_out state ≡ false) × (mine other ≡ []) × (mine state ≡ []) }
            ensures { IsOf row.entry.now result.0 × IsOf states.entry.now result.1 × (is_out result.0 ≡ false) × (is_out result.1 ≡ false) × KeepsSeat other result.0 × KeepsSeat state result.1 × AddsRounds (C.shows clock.entry.now) (LeavesRows T.kind T.listed T.state T.tables (T.state (first_value states.entry.now).opened.value)) (T.listed (T.state (first_value states.entry.now).opened.value).history) me.entry.now (known result.0) (known result.1) × IfSome result.2 (λ why. IsStopped S.kind S.listed (S.state (first_value row.entry.now).opened.value) (IsRecovery (C.shows clock.entry.now) (LeavesRows T.kind T.listed T.state T.tables (T.state (first_value states.entry.now).opened.value)) (T.listed (T.state (first_value states.entry.now).opened.value).history) me.entry.now (seen result.1)) (known result.0) why ⊎ IsStopped T.kind T.listed (T.state (first_value states.entry.now).opened.value) (IsRoundEntry (C.shows clock.entry.now) (LeavesRows T.kind T.listed T.state T.tables (T.state (first_value states.entry.now).opened.value)) (T.listed (T.state (first_value states.entry.now).opened.value).history) me.entry.now.node (seen result.1)) (known result.1) why) × (result.2 ≡ None → (at : ℤ) × C.shows clock.entry.now at × (until ≤ℤ at) × HasCheckedIn (T.listed (T.state (first_value states.entry.now).opened.value).history) me.entry.now.node at (seen result.1)) }
        { run_rounds(rt, row, states, clock, until, me, other, state) },
    )
}

/// A node's scheduler thread and its check-in thread, until both have ended. The scheduler thread has the seat's number.
pub(super) fn run_pair<
    S: NodeStore + Send,
    T: RoundStore + Send,
    R: Threads + Wait + Sync,
    C: SharedClock + Sync,
    G: Gate + Sync,
    L: JobList + Send,
    E: Fn(&mut L, &JobContext) -> Code + Sync,
    M: Meaning<L> + Send + Sync,
>(
    rt: &R,
    row: &StoreRow<S>,
    states: &StoreRow<T>,
    clock: &C,
    gate: &G,
    run: &E,
    node: u32,
    until: i64,
    me: &MemberRow,
    seat: StoreSeat<S>,
    state: StoreSeat<T>,
    jobs: L,
) -> (StoreSeat<S>, StoreSeat<T>, L, Option<Declined>)
    requires of { IsOf row.now seat × IsOf states.now state }
    requires home { (is_out seat ≡ false) × (is_out state ≡ false) }
    requires until { until ≤ℤ LONGEST }
    requires performs { E.IsAlwaysCallable run.now × AlwaysPerforms E.Fn run.now M.meanings }
    requires new { (mine seat ≡ []) × (mine state ≡ []) }
    requires own { ids seat ≡ seat.number ∷ [] }
    requires more { 1 ≤ seat.more }
    ensures of { IsOf row.now result.0 × IsOf states.now result.1 }
    ensures home { (is_out result.0 ≡ false) × (is_out result.1 ≡ false) }
    ensures parts { (result.0.parts ≡ seat.parts) × (result.1.parts ≡ state.parts) }
    ensures worked { HaveWorked (C.shows clock.now) until (LeavesRows T.kind T.listed T.state T.tables (T.state (first_value states.now).opened.value)) (T.listed (T.state (first_value states.now).opened.value).history) (record { me = me.now; number = seat.number } ∷ [])
        (ShowsRan row.now result.0) (ids result.0) (mine result.0) (seen result.1) (mine result.1) (M.meanings jobs ∷ []) (M.meanings result.2 ∷ []) }
    ensures ended { result.3 ≡ None → HaveEnded (C.shows clock.now) until (T.listed (T.state (first_value states.now).opened.value).history) (me.now ∷ []) row.now result.0 result.1 }
    ensures fault { ShowsFault result.3 result.0 result.1 }
    ensures stopped { IfSome result.3 (ShowsStopped (C.shows clock.now) until (LeavesRows T.kind T.listed T.state T.tables (T.state (first_value states.now).opened.value)) (T.listed (T.state (first_value states.now).opened.value).history) (me.now.node ∷ []) row.now states.now result.0 result.1) }
{
    let (seat, other) = row.split(seat);
    let ((seat, jobs, cause), (other, state, other_cause)) = run_both::<S, T, R, C, G, L, E, M>(
        rt, row, states, clock, gate, run, node, until, me, seat, other, state, jobs,
    );
    (
        row.join(seat, other),
        state,
        jobs,
        least_cause(cause, other_cause),
    )
}
