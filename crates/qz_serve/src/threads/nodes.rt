//! A node's scheduler thread, which owns its seat and its jobs.
ghost use Rattle.std.specs.Prelude.{◌≡◌, ◌≤ℤ◌, [], ◌∷◌, map, false, None, IfSome};
ghost use Rattle.std.specs.List.{AllByRecursion};
ghost use Rattle.qz_row_lock.specs.Seats.{IsOf, ids, mine, is_out, first_value};
ghost use Rattle.qz_shared.specs.Calls.{known};
ghost use Rattle.qz_rounds.specs.Declining.{IsStopped};
ghost use Rattle.qz_serve.specs.Entries.{IsScheduled};
ghost use Rattle.qz_serve.specs.Finished.{HasEnded};
ghost use Rattle.qz_serve.specs.Asking.{KeepsSeat};
ghost use Rattle.qz_serve.specs.Knowing.{ShowsRan};
ghost use Rattle.qz_serve.specs.Performing.{AlwaysPerforms};

use crate::threads::Gate;
use crate::threads::performing::{JobList, Meaning, NodeJobs, Performer};
use crate::threads::working::work;
use qz_node::JobContext;
use qz_rounds::{NodeStore, SharedClock};
use qz_run::Declined;
use qz_shared::{StoreRow, StoreSeat};
use qz_types::{Code, LONGEST, MemberRow};
use std::marker::PhantomData;
use std::sync::Wait;

/// Works up to a moment, and gives the seat and the jobs back.
pub(super) fn run_node<S: NodeStore, R: Wait, C: SharedClock, G: Gate, J: NodeJobs>(
    rt: &R,
    row: &StoreRow<S>,
    clock: &C,
    gate: &G,
    node: u32,
    until: i64,
    me: &MemberRow,
    seat: StoreSeat<S>,
    jobs: J,
) -> (StoreSeat<S>, J, Option<Declined>)
    requires of { IsOf row.now seat }
    requires home { is_out seat ≡ false }
    requires until { until ≤ℤ LONGEST }
    requires lawful { J.lawful jobs }
    requires new { mine seat ≡ [] }
    requires own { ids seat ≡ seat.number ∷ [] }
    ensures of { IsOf row.now result.0 }
    ensures home { is_out result.0 ≡ false }
    ensures same { KeepsSeat seat result.0 }
    ensures entries { AllByRecursion (IsScheduled (C.shows clock.now) until me.now seat.number) (mine result.0) }
    ensures ran { ShowsRan row.now result.0 (seat.number ∷ []) (J.meanings jobs) (J.meanings result.1) }
    ensures ended { result.2 ≡ None → HasEnded (C.shows clock.now) until me.now seat.number row.now result.0 }
    ensures stopped { IfSome result.2 (IsStopped S.kind S.listed (S.state (first_value row.now).opened.value) (IsScheduled (C.shows clock.now) until me.now seat.number) (known result.0)) }
{
    let mut seat = seat;
    let mut jobs = jobs;
    let cause = work(rt, row, clock, gate, node, until, me, &mut seat, &mut jobs);
    (seat, jobs, cause)
}

/// The same with a list of jobs, and what executes a firing by it.
pub(super) fn run_listed<
    S: NodeStore,
    R: Wait,
    C: SharedClock,
    G: Gate,
    L: JobList,
    E: Fn(&mut L, &JobContext) -> Code,
    M: Meaning<L>,
>(
    rt: &R,
    row: &StoreRow<S>,
    clock: &C,
    gate: &G,
    run: &E,
    node: u32,
    until: i64,
    me: &MemberRow,
    seat: StoreSeat<S>,
    list: L,
) -> (StoreSeat<S>, L, Option<Declined>)
    requires of { IsOf row.now seat }
    requires home { is_out seat ≡ false }
    requires until { until ≤ℤ LONGEST }
    requires performs { E.IsAlwaysCallable run.now × AlwaysPerforms E.Fn run.now M.meanings }
    requires new { mine seat ≡ [] }
    requires own { ids seat ≡ seat.number ∷ [] }
    ensures of { IsOf row.now result.0 }
    ensures home { is_out result.0 ≡ false }
    ensures same { KeepsSeat seat result.0 }
    ensures entries { AllByRecursion (IsScheduled (C.shows clock.now) until me.now seat.number) (mine result.0) }
    ensures ran { ShowsRan row.now result.0 (seat.number ∷ []) (M.meanings list) (M.meanings result.1) }
    ensures ended { result.2 ≡ None → HasEnded (C.shows clock.now) until me.now seat.number row.now result.0 }
    ensures stopped { IfSome result.2 (IsStopped S.kind S.listed (S.state (first_value row.now).opened.value) (IsScheduled (C.shows clock.now) until me.now seat.number) (known result.0)) }
{
    let performer: Performer<'_, L, E, M> = Performer {
        jobs: list,
        run,
        meaning: PhantomData,
    };
    let (seat, performer, cause) = run_node(rt, row, clock, gate, node, until, me, seat, performer);
    let Performer {
        jobs,
        run: _,
        meaning: _,
    } = performer;
    (seat, jobs, cause)
}
