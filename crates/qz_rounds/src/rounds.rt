//! A node's check-in thread.
ghost use Rattle.std.specs.Prelude.{◌≡◌, ◌⊎◌, ◌≤ℤ◌, ◌<ℤ◌, ℤ, true, false, int_le, IsTrue, IfSome, IfOk, OnOk, IfErr};
ghost use Rattle.qz_types.specs.Rows.{is_node};
ghost use Rattle.qz_row_lock.specs.Seats.{IsOf, seen, ids, is_out, first_value};
ghost use Rattle.qz_shared.specs.Calls.{known};
ghost use Rattle.qz_rounds.specs.Looking.{LeavesRows, HasCheckedIn, check_in_by};
ghost use Rattle.qz_rounds.specs.Adding.{IsRecovery, IsRoundEntry, AddsRounds};
ghost use Rattle.qz_rounds.specs.Declining.{IsStopped, goes_on_after};
ghost use Rattle.qz_rounds.specs.Rounds.{is_round_due, ChecksIn, LooksOnce, MadeLastRound, MakesRound, ReadOnce};

use crate::recovering::recover_since;
use crate::{NodeStore, RoundStore, SharedClock, declined};
use qz_run::{CHECK_IN_INTERVAL, Declined};
use qz_shared::{StoreRow, StoreSeat, submit};
use qz_types::{MemberRow, StateCommand, StateEntry, SubmitError, Text};
use std::sync::Wait;

// How long a thread waits between two rounds, in ms.
const ROUND: i64 = 7500;

// How long it rests between two readings, in ms.
const REST: u32 = 1000;

// Whether a round is due at this reading.
fn is_due(last: Option<i64>, at: i64, until: i64) -> bool
    ensures { result ≡ is_round_due last at until }
{
    match last {
        None => true,
        Some(last) => at >= until || at.saturating_sub(last) >= ROUND,
    }
}

// Whether a thread's time is over at this reading.
fn is_over(at: i64, until: i64) -> bool
    ensures over { result ≡ true → until ≤ℤ at }
    ensures not_over { result ≡ false → at <ℤ until }
    ensures value { result ≡ int_le until at }
{
    at >= until
}

fn check_in_entry(at: i64, seat: u32, node: Text) -> StateEntry
    requires { IsTrue (is_node node) }
    ensures { result ≡ check_in_by at seat node }
{
    StateEntry {
        at,
        seat,
        command: StateCommand::CheckIn {
            node,
            interval: CHECK_IN_INTERVAL,
        },
    }
}

fn check_in<T: RoundStore, R: Wait>(
    rt: &R,
    states: &StoreRow<T>,
    state: &mut StoreSeat<T>,
    at: i64,
    me: &MemberRow,
) -> Result<(), SubmitError>
    requires of { IsOf states.now state.old }
    requires home { is_out state.old ≡ false }
    ensures of { IsOf states.now state.new }
    ensures home { is_out state.new ≡ false }
    ensures same { (state.new.number ≡ state.old.number) × (state.new.more ≡ state.old.more) × (state.new.parts ≡ state.old.parts) × (ids state.new ≡ ids state.old) }
    ensures checks_in { ChecksIn T.kind T.listed (T.state (first_value states.now).opened.value) (check_in_by at state.old.number me.now.node) result (known state.old) (known state.new) }
{
    let Ok(node) = me.node.clone() else {
        return Err(SubmitError::NoMemory);
    };
    let entry = check_in_entry(at, state.number, node);
    submit(rt, states, state, entry)
}

// A look for a late node, after a check-in at the same reading. `before` is the reading of the round before.
fn look_once<S: NodeStore, T: RoundStore, R: Wait>(
    rt: &R,
    row: &StoreRow<S>,
    states: &StoreRow<T>,
    seat: &mut StoreSeat<S>,
    state: &mut StoreSeat<T>,
    before: i64,
    at: i64,
    me: &MemberRow,
) -> Result<(), SubmitError>
    requires of { IsOf row.now seat.old × IsOf states.now state.old }
    requires home { (is_out seat.old ≡ false) × (is_out state.old ≡ false) }
    ensures of { IsOf row.now seat.new × IsOf states.now state.new }
    ensures home { (is_out seat.new ≡ false) × (is_out state.new ≡ false) }
    ensures same { (seat.new.number ≡ seat.old.number) × (seat.new.more ≡ seat.old.more) × (seat.new.parts ≡ seat.old.parts) × (ids seat.new ≡ ids seat.old) }
    ensures same_state { (state.new.number ≡ state.old.number) × (state.new.more ≡ state.old.more) × (state.new.parts ≡ state.old.parts) × (ids state.new ≡ ids state.old) }
    ensures looks { LooksOnce T.kind T.listed (T.state (first_value states.now).opened.value) S.kind S.listed (S.state (first_value row.now).opened.value) (LeavesRows T.kind T.listed T.state T.tables (T.state (first_value states.now).opened.value)) before at me.now seat.old.number state.old.number result (known seat.old) (known seat.new) (known state.old) (known state.new) }
{
    match recover_since(rt, row, states, seat, state, Some(before), at, me) {
        Ok(reply) => {
            drop(reply);
            Ok(())
        }
        Err(error) => Err(error),
    }
}

// One round: a check-in, and then a look for a late node, unless it is the first one. `before` is the reading of the round before.
fn round<S: NodeStore, T: RoundStore, R: Wait>(
    rt: &R,
    row: &StoreRow<S>,
    states: &StoreRow<T>,
    seat: &mut StoreSeat<S>,
    state: &mut StoreSeat<T>,
    before: Option<i64>,
    at: i64,
    me: &MemberRow,
) -> Result<(), SubmitError>
    requires of { IsOf row.now seat.old × IsOf states.now state.old }
    requires home { (is_out seat.old ≡ false) × (is_out state.old ≡ false) }
    ensures of { IsOf row.now seat.new × IsOf states.now state.new }
    ensures home { (is_out seat.new ≡ false) × (is_out state.new ≡ false) }
    ensures same { (seat.new.number ≡ seat.old.number) × (seat.new.more ≡ seat.old.more) × (seat.new.parts ≡ seat.old.parts) × (ids seat.new ≡ ids seat.old) }
    ensures same_state { (state.new.number ≡ state.old.number) × (state.new.more ≡ state.old.more) × (state.new.parts ≡ state.old.parts) × (ids state.new ≡ ids state.old) }
    ensures makes { MakesRound T.kind T.listed (T.state (first_value states.now).opened.value) S.kind S.listed (S.state (first_value row.now).opened.value) (LeavesRows T.kind T.listed T.state T.tables (T.state (first_value states.now).opened.value)) before at me.now seat.old.number state.old.number result (known seat.old) (known seat.new) (known state.old) (known state.new) }
{
    check_in(rt, states, state, at, me)?;
    match before {
        None => Ok(()),
        Some(before) => look_once(rt, row, states, seat, state, before, at, me),
    }
}

// Whether a thread goes on after this answer, or why it stops.
fn go_on(answer: Result<(), SubmitError>) -> Result<(), Declined>
    ensures { result ≡ goes_on_after answer }
{
    match answer {
        Ok(()) => Ok(()),
        Err(error) => match declined(error) {
            None => Ok(()),
            Some(why) => Err(why),
        },
    }
}

// Reads the clock, and makes the round that is due at this reading. True where it was the last one. `last` is the reading of the last
// round.
fn read_once<S: NodeStore, T: RoundStore, R: Wait, C: SharedClock>(
    rt: &R,
    row: &StoreRow<S>,
    states: &StoreRow<T>,
    clock: &C,
    until: i64,
    me: &MemberRow,
    seat: &mut StoreSeat<S>,
    state: &mut StoreSeat<T>,
    last: &mut Option<i64>,
) -> Result<bool, Declined>
    requires of { IsOf row.now seat.old × IsOf states.now state.old }
    requires home { (is_out seat.old ≡ false) × (is_out state.old ≡ false) }
    requires checked { IfSome last.old (λ before. HasCheckedIn (T.listed (T.state (first_value states.now).opened.value).history) me.now.node before (seen state.old)) }
    requires adds { AddsRounds (C.shows clock.now) (LeavesRows T.kind T.listed T.state T.tables (T.state (first_value states.now).opened.value)) (T.listed (T.state (first_value states.now).opened.value).history) me.now (known seat.old) (known state.old) }
    ensures of { IsOf row.now seat.new × IsOf states.now state.new }
    ensures home { (is_out seat.new ≡ false) × (is_out state.new ≡ false) }
    ensures same { (seat.new.number ≡ seat.old.number) × (seat.new.more ≡ seat.old.more) × (seat.new.parts ≡ seat.old.parts) × (ids seat.new ≡ ids seat.old) }
    ensures same_state { (state.new.number ≡ state.old.number) × (state.new.more ≡ state.old.more) × (state.new.parts ≡ state.old.parts) × (ids state.new ≡ ids state.old) }
    ensures adds { AddsRounds (C.shows clock.now) (LeavesRows T.kind T.listed T.state T.tables (T.state (first_value states.now).opened.value)) (T.listed (T.state (first_value states.now).opened.value).history) me.now (known seat.new) (known state.new) }
    ensures checked { OnOk result (IfSome last.new (λ before. HasCheckedIn (T.listed (T.state (first_value states.now).opened.value).history) me.now.node before (seen state.new))) }
    ensures read { IfOk result (λ ended. ReadOnce T.kind T.listed (T.state (first_value states.now).opened.value) S.kind S.listed (S.state (first_value row.now).opened.value) (C.shows clock.now) until (LeavesRows T.kind T.listed T.state T.tables (T.state (first_value states.now).opened.value)) me.now seat.old.number state.old.number last.old last.new ended (known seat.old) (known seat.new) (known state.old) (known state.new)) }
    ensures last { IfOk result (λ ended. ended ≡ true → MadeLastRound T.kind T.listed (T.state (first_value states.now).opened.value) S.kind S.listed (S.state (first_value row.now).opened.value) (C.shows clock.now) until (LeavesRows T.kind T.listed T.state T.tables (T.state (first_value states.now).opened.value)) me.now seat.old.number state.old.number (known seat.new) (known state.new)) }
    ensures ended { IfOk result (λ ended. ended ≡ true → (at : ℤ) × C.shows clock.now at × (until ≤ℤ at) × HasCheckedIn (T.listed (T.state (first_value states.now).opened.value).history) me.now.node at (seen state.new)) }
    ensures stopped { IfErr result (λ why.
        IsStopped S.kind S.listed (S.state (first_value row.now).opened.value) (IsRecovery (C.shows clock.now) (LeavesRows T.kind T.listed T.state T.tables (T.state (first_value states.now).opened.value)) (T.listed (T.state (first_value states.now).opened.value).history) me.now (seen state.new)) (known seat.new) why
        ⊎ IsStopped T.kind T.listed (T.state (first_value states.now).opened.value) (IsRoundEntry (C.shows clock.now) (LeavesRows T.kind T.listed T.state T.tables (T.state (first_value states.now).opened.value)) (T.listed (T.state (first_value states.now).opened.value).history) me.now.node (seen state.new)) (known state.new) why) }
{
    let at = clock.now();
    if !is_due(*last, at, until) {
        return Ok(false);
    }
    let before = *last;
    *last = Some(at);
    let answer = round(rt, row, states, seat, state, before, at, me);
    match go_on(answer) {
        Ok(()) => Ok(is_over(at, until)),
        Err(why) => Err(why),
    }
}

/// What a check-in thread does for a member up to a moment, in ms since 1970-01-01T00:00:00Z. A round is a check-in and a
/// look for one late node, which is recovered. The thread makes a round at its start, and whenever a reading is 7500 ms
/// past that of its last round. It rests 1000 ms between readings, and ends after the first round at a reading that isn't
/// before that moment.
///
/// A node that slept takes nobody for failed: after a suspended process, or a jump of the clock, the others had no time to check
/// in either. So there is no look in the first round, and none where the reading, or the state store's last moment, lies more than
/// 15000 ms past the reading of the round before.
///
/// It stops early where a store has too many rows or a full journal, where memory is wanting, where a store is closed, and where
/// the member is fenced as it recovers another one. Every other refusal ends nothing.
pub fn check_rounds<S: NodeStore, T: RoundStore, R: Wait, C: SharedClock>(
    rt: &R,
    row: &StoreRow<S>,
    states: &StoreRow<T>,
    clock: &C,
    until: i64,
    me: &MemberRow,
    seat: &mut StoreSeat<S>,
    state: &mut StoreSeat<T>,
) -> Result<(), Declined>
    requires of { IsOf row.now seat.old × IsOf states.now state.old }
    requires home { (is_out seat.old ≡ false) × (is_out state.old ≡ false) }
    requires adds { AddsRounds (C.shows clock.now) (LeavesRows T.kind T.listed T.state T.tables (T.state (first_value states.now).opened.value)) (T.listed (T.state (first_value states.now).opened.value).history) me.now (known seat.old) (known state.old) }
    ensures of { IsOf row.now seat.new × IsOf states.now state.new }
    ensures home { (is_out seat.new ≡ false) × (is_out state.new ≡ false) }
    ensures same { (seat.new.number ≡ seat.old.number) × (seat.new.more ≡ seat.old.more) × (seat.new.parts ≡ seat.old.parts) × (ids seat.new ≡ ids seat.old) }
    ensures same_state { (state.new.number ≡ state.old.number) × (state.new.more ≡ state.old.more) × (state.new.parts ≡ state.old.parts) × (ids state.new ≡ ids state.old) }
    ensures adds { AddsRounds (C.shows clock.now) (LeavesRows T.kind T.listed T.state T.tables (T.state (first_value states.now).opened.value)) (T.listed (T.state (first_value states.now).opened.value).history) me.now (known seat.new) (known state.new) }
    ensures last { OnOk result (MadeLastRound T.kind T.listed (T.state (first_value states.now).opened.value) S.kind S.listed (S.state (first_value row.now).opened.value) (C.shows clock.now) until (LeavesRows T.kind T.listed T.state T.tables (T.state (first_value states.now).opened.value)) me.now seat.old.number state.old.number (known seat.new) (known state.new)) }
    ensures ended { OnOk result ((at : ℤ) × C.shows clock.now at × (until ≤ℤ at) × HasCheckedIn (T.listed (T.state (first_value states.now).opened.value).history) me.now.node at (seen state.new)) }
    ensures stopped { IfErr result (λ why.
        IsStopped S.kind S.listed (S.state (first_value row.now).opened.value) (IsRecovery (C.shows clock.now) (LeavesRows T.kind T.listed T.state T.tables (T.state (first_value states.now).opened.value)) (T.listed (T.state (first_value states.now).opened.value).history) me.now (seen state.new)) (known seat.new) why
        ⊎ IsStopped T.kind T.listed (T.state (first_value states.now).opened.value) (IsRoundEntry (C.shows clock.now) (LeavesRows T.kind T.listed T.state T.tables (T.state (first_value states.now).opened.value)) (T.listed (T.state (first_value states.now).opened.value).history) me.now.node (seen state.new)) (known state.new) why) }
{
    let mut last = None;
    'rounds: for _ in rt.forever() {
        if read_once(rt, row, states, clock, until, me, seat, state, &mut last)? {
            return Ok(());
        }
        clock.rest(rt, REST);
    }
    unreachable!()
}
