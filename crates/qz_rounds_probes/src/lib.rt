//! Calls of a check-in thread, once more: edits of them show which wrong answers the contracts of these calls refuse.
#![tactic(auto)]

ghost use Rattle.std.specs.Prelude.{◌≡◌, ◌⊎◌, ◌≤ℤ◌, ℤ, false, None, OnOk, IfErr};
ghost use Rattle.qz_row_lock.specs.Seats.{IsOf, seen, ids, is_out, first_value};
ghost use Rattle.qz_shared.specs.Calls.{known};
ghost use Rattle.qz_rounds.specs.Looking.{LeavesRows, HasCheckedIn};
ghost use Rattle.qz_rounds.specs.Adding.{IsRecovery, IsRoundEntry, AddsRounds};
ghost use Rattle.qz_rounds.specs.Declining.{IsStopped};
ghost use Rattle.qz_rounds.specs.Recovering.{LooksAndRecovers};
ghost use Rattle.qz_rounds.specs.Rounds.{MadeLastRound};

use qz_rounds::{NodeStore, RoundStore, SharedClock};
use qz_run::Declined;
use qz_shared::{StoreRow, StoreSeat};
use qz_types::{MemberRow, Reply, SubmitError};
use std::sync::Wait;

/// [`qz_rounds::recover_one`].
pub fn recover_one<S: NodeStore, T: RoundStore, R: Wait>(
    rt: &R,
    row: &StoreRow<S>,
    states: &StoreRow<T>,
    seat: &mut StoreSeat<S>,
    state: &mut StoreSeat<T>,
    at: i64,
    me: &MemberRow,
) -> Result<Option<Reply>, SubmitError>
    requires of { IsOf row.now seat.old × IsOf states.now state.old }
    requires home { (is_out seat.old ≡ false) × (is_out state.old ≡ false) }
    ensures of { IsOf row.now seat.new × IsOf states.now state.new }
    ensures home { (is_out seat.new ≡ false) × (is_out state.new ≡ false) }
    ensures same { (seat.new.number ≡ seat.old.number) × (seat.new.more ≡ seat.old.more) × (seat.new.parts ≡ seat.old.parts) × (ids seat.new ≡ ids seat.old) }
    ensures same_state { (state.new.number ≡ state.old.number) × (state.new.more ≡ state.old.more) × (state.new.parts ≡ state.old.parts) × (ids state.new ≡ ids state.old) }
    ensures recovers { LooksAndRecovers T.kind T.listed (T.state (first_value states.now).opened.value) S.kind S.listed (S.state (first_value row.now).opened.value) (LeavesRows T.kind T.listed T.state T.tables (T.state (first_value states.now).opened.value)) None at me.now seat.old.number state.old.number result (known seat.old) (known seat.new) (known state.old) (known state.new) }
{
    match qz_rounds::recover_one(rt, row, states, seat, state, at, me) {
        Ok(reply) => Ok(reply),
        Err(error) => Err(error),
    }
}

/// [`qz_rounds::check_rounds`].
pub fn check_rounds<S: NodeStore, T: RoundStore, R: Wait, C: SharedClock>(
    rt: &R,
    row: &StoreRow<S>,
    states: &StoreRow<T>,
    clock: &C,
    until: i64,
    me: &MemberRow,
    seat: &mut StoreSeat<S>,
    state: &mut StoreSeat<T>,
) -> Result<(), Declined>
    requires of { IsOf row.now seat.old × IsOf states.now state.old }
    requires home { (is_out seat.old ≡ false) × (is_out state.old ≡ false) }
    requires adds { AddsRounds (C.shows clock.now) (LeavesRows T.kind T.listed T.state T.tables (T.state (first_value states.now).opened.value)) (T.listed (T.state (first_value states.now).opened.value).history) me.now (known seat.old) (known state.old) }
    ensures of { IsOf row.now seat.new × IsOf states.now state.new }
    ensures home { (is_out seat.new ≡ false) × (is_out state.new ≡ false) }
    ensures same { (seat.new.number ≡ seat.old.number) × (seat.new.more ≡ seat.old.more) × (seat.new.parts ≡ seat.old.parts) × (ids seat.new ≡ ids seat.old) }
    ensures same_state { (state.new.number ≡ state.old.number) × (state.new.more ≡ state.old.more) × (state.new.parts ≡ state.old.parts) × (ids state.new ≡ ids state.old) }
    ensures adds { AddsRounds (C.shows clock.now) (LeavesRows T.kind T.listed T.state T.tables (T.state (first_value states.now).opened.value)) (T.listed (T.state (first_value states.now).opened.value).history) me.now (known seat.new) (known state.new) }
    ensures last { OnOk result (MadeLastRound T.kind T.listed (T.state (first_value states.now).opened.value) S.kind S.listed (S.state (first_value row.now).opened.value) (C.shows clock.now) until (LeavesRows T.kind T.listed T.state T.tables (T.state (first_value states.now).opened.value)) me.now seat.old.number state.old.number (known seat.new) (known state.new)) }
    ensures ended { OnOk result ((at : ℤ) × C.shows clock.now at × (until ≤ℤ at) × HasCheckedIn (T.listed (T.state (first_value states.now).opened.value).history) me.now.node at (seen state.new)) }
    ensures stopped { IfErr result (λ why.
        IsStopped S.kind S.listed (S.state (first_value row.now).opened.value) (IsRecovery (C.shows clock.now) (LeavesRows T.kind T.listed T.state T.tables (T.state (first_value states.now).opened.value)) (T.listed (T.state (first_value states.now).opened.value).history) me.now (seen state.new)) (known seat.new) why
        ⊎ IsStopped T.kind T.listed (T.state (first_value states.now).opened.value) (IsRoundEntry (C.shows clock.now) (LeavesRows T.kind T.listed T.state T.tables (T.state (first_value states.now).opened.value)) (T.listed (T.state (first_value states.now).opened.value).history) me.now.node (seen state.new)) (known state.new) why) }
{
    match qz_rounds::check_rounds(rt, row, states, clock, until, me, seat, state) {
        Ok(()) => Ok(()),
        Err(why) => Err(why),
    }
}
