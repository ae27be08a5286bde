//! A look for a node that is late, and its recovery.
ghost use Rattle.std.specs.Prelude.{◌≡◌, ◌⊎◌, false, IsTrue, IfOk, Err, None};
ghost use Rattle.qz_row_lock.specs.Seats.{IsOf, seen, ids, is_out, first_value};
ghost use Rattle.qz_types.specs.Rows.{is_node};
ghost use Rattle.qz_checkin.specs.Rows.{StateTables};
ghost use Rattle.qz_shared.specs.Calls.{known};
ghost use Rattle.qz_rounds.specs.Looking.{LeavesRows, found_in, is_near};
ghost use Rattle.qz_rounds.specs.Recovering.{recover_by, forget_by, Looks, Forgets, Recovers, SubmitsNone, LooksAndRecovers};

use crate::{NodeStore, RoundStore};
use qz_run::CHECK_IN_INTERVAL;
use qz_shared::{StoreRow, StoreSeat, submit};
use qz_types::{
    Actor, Command, Entry, Evidence, MemberRow, NoMemory, Refusal, Reply, StateCommand, StateEntry,
    SubmitError, Text,
};
use std::sync::Wait;

fn is_near(before: i64, at: i64) -> bool
    ensures { result ≡ is_near before at }
{
    at.saturating_sub(before) <= CHECK_IN_INTERVAL
}

// The first node that is late at this reading. None where the look belongs to a round, and the round before is too long ago.
fn find_late<T: RoundStore>(
    store: &T,
    before: Option<i64>,
    at: i64,
    own: &Text,
) -> Result<Option<Evidence>, NoMemory>
    ensures { IfOk result (λ found. found ≡ found_in before (T.tables store.now) at own.now) }
{
    match before {
        Some(before) if !is_near(before, at) || !is_near(before, store.last_moment()) => Ok(None),
        _ => store.failed(at, own),
    }
}

// Looks for the first node that is late, at all that the state seat has then seen.
fn look<T: RoundStore, R: Wait>(
    rt: &R,
    states: &StoreRow<T>,
    state: &mut StoreSeat<T>,
    before: Option<i64>,
    at: i64,
    own: &Text,
) -> Result<Option<Evidence>, NoMemory>
    requires of { IsOf states.now state.old }
    requires home { is_out state.old ≡ false }
    ensures of { IsOf states.now state.new }
    ensures home { is_out state.new ≡ false }
    ensures same { (state.new.number ≡ state.old.number) × (state.new.more ≡ state.old.more) × (state.new.parts ≡ state.old.parts) × (ids state.new ≡ ids state.old) }
    ensures looks { Looks (known state.old) (known state.new) }
    ensures found { IfOk result (λ found. (tables : StateTables) × LeavesRows T.kind T.listed T.state T.tables (T.state (first_value states.now).opened.value) (seen state.new) tables × (found ≡ found_in before tables at own.now)) }
{
    let held = states.take(rt, state);
    let found = find_late(held.store(), before, at, own);
    states.give(state, held);
    found
}

#[tactic(auto, unfolding(qz_types::specs::Entries::is_entry))]
fn recover_entry(at: i64, seat: u32, me: MemberRow, node: Text) -> Entry
    requires { IsTrue (is_node node) }
    ensures { result ≡ recover_by at seat me node }
{
    Entry {
        at,
        actor: Actor::Node(me),
        seat,
        command: Command::Recover { node },
    }
}

fn forget_entry(at: i64, seat: u32, node: Text, last: i64) -> StateEntry
    requires { IsTrue (is_node node) }
    ensures { result ≡ forget_by at seat node last }
{
    StateEntry {
        at,
        seat,
        command: StateCommand::Forget { node, last },
    }
}

// Forgets a row, and gives this answer; where that breaks off, it tells why in its place.
fn forget<T: RoundStore, R: Wait>(
    rt: &R,
    states: &StoreRow<T>,
    state: &mut StoreSeat<T>,
    entry: StateEntry,
    answer: Result<Option<Reply>, SubmitError>,
) -> Result<Option<Reply>, SubmitError>
    requires of { IsOf states.now state.old }
    requires home { is_out state.old ≡ false }
    requires number { entry.seat ≡ state.old.number }
    ensures of { IsOf states.now state.new }
    ensures home { is_out state.new ≡ false }
    ensures same { (state.new.number ≡ state.old.number) × (state.new.more ≡ state.old.more) × (state.new.parts ≡ state.old.parts) × (ids state.new ≡ ids state.old) }
    ensures forgets { Forgets T.kind T.listed (T.state (first_value states.now).opened.value) entry answer result (known state.old) (known state.new) }
{
    match submit(rt, states, state, entry) {
        Ok(()) | Err(SubmitError::Refused(_)) => answer,
        Err(error) => Err(error),
    }
}

// Recovers a node that was found late, and forgets its row where it is no member any more. What takes memory comes first.
fn recover<S: NodeStore, T: RoundStore, R: Wait>(
    rt: &R,
    row: &StoreRow<S>,
    states: &StoreRow<T>,
    seat: &mut StoreSeat<S>,
    state: &mut StoreSeat<T>,
    at: i64,
    me: &MemberRow,
    found: Evidence,
) -> Result<Option<Reply>, SubmitError>
    requires of { IsOf row.now seat.old × IsOf states.now state.old }
    requires home { (is_out seat.old ≡ false) × (is_out state.old ≡ false) }
    ensures of { IsOf row.now seat.new × IsOf states.now state.new }
    ensures home { (is_out seat.new ≡ false) × (is_out state.new ≡ false) }
    ensures same { (seat.new.number ≡ seat.old.number) × (seat.new.more ≡ seat.old.more) × (seat.new.parts ≡ seat.old.parts) × (ids seat.new ≡ ids seat.old) }
    ensures same_state { (state.new.number ≡ state.old.number) × (state.new.more ≡ state.old.more) × (state.new.parts ≡ state.old.parts) × (ids state.new ≡ ids state.old) }
    ensures recovers { SubmitsNone (Err SubmitError.NoMemory) result (known seat.old) (known seat.new) (known state.old) (known state.new)
        ⊎ Recovers T.kind T.listed (T.state (first_value states.now).opened.value) S.kind S.listed (S.state (first_value row.now).opened.value)
        (recover_by at seat.old.number me.now found.node) (forget_by at state.old.number found.node found.last) result (known seat.old) (known seat.new) (known state.old) (known state.new) }
{
    let Evidence {
        node,
        last,
        until: _,
    } = found;
    let Ok(me) = me.copy() else {
        return Err(SubmitError::NoMemory);
    };
    let Ok(failed) = node.clone() else {
        return Err(SubmitError::NoMemory);
    };
    let recovery = recover_entry(at, seat.number, me, failed);
    let forgetting = forget_entry(at, state.number, node, last);
    match submit(rt, row, seat, recovery) {
        Ok(reply) => forget(rt, states, state, forgetting, Ok(Some(reply))),
        Err(SubmitError::Refused(Refusal::NotMember)) => {
            let refused = Err(SubmitError::Refused(Refusal::NotMember));
            forget(rt, states, state, forgetting, refused)
        }
        Err(error) => Err(error),
    }
}

// Looks once for a node that is late, and recovers the first one. Where that belongs to a round, `before` is the reading of the
// round before.
pub(crate) fn recover_since<S: NodeStore, T: RoundStore, R: Wait>(
    rt: &R,
    row: &StoreRow<S>,
    states: &StoreRow<T>,
    seat: &mut StoreSeat<S>,
    state: &mut StoreSeat<T>,
    before: Option<i64>,
    at: i64,
    me: &MemberRow,
) -> Result<Option<Reply>, SubmitError>
    requires of { IsOf row.now seat.old × IsOf states.now state.old }
    requires home { (is_out seat.old ≡ false) × (is_out state.old ≡ false) }
    ensures of { IsOf row.now seat.new × IsOf states.now state.new }
    ensures home { (is_out seat.new ≡ false) × (is_out state.new ≡ false) }
    ensures same { (seat.new.number ≡ seat.old.number) × (seat.new.more ≡ seat.old.more) × (seat.new.parts ≡ seat.old.parts) × (ids seat.new ≡ ids seat.old) }
    ensures same_state { (state.new.number ≡ state.old.number) × (state.new.more ≡ state.old.more) × (state.new.parts ≡ state.old.parts) × (ids state.new ≡ ids state.old) }
    ensures recovers { LooksAndRecovers T.kind T.listed (T.state (first_value states.now).opened.value) S.kind S.listed (S.state (first_value row.now).opened.value) (LeavesRows T.kind T.listed T.state T.tables (T.state (first_value states.now).opened.value)) before at me.now seat.old.number state.old.number result (known seat.old) (known seat.new) (known state.old) (known state.new) }
{
    match look(rt, states, state, before, at, &me.node)? {
        None => Ok(None),
        Some(found) => recover(rt, row, states, seat, state, at, me, found),
    }
}

/// Looks once for a node that is late, and recovers the first one in the order of names. `at` is the reading of the
/// clock, in ms since 1970-01-01T00:00:00Z, for the look and for the entries. It waits for one row at a time: for that
/// of the states to look, for that of the triggers only where a node is late, and then for that of the states again, to
/// forget that node's row.
///
/// The reply is that of Recover, and None where no node is late. A refusal is that of Recover; after `NotMember` the
/// row is forgotten too. A refusal to forget it is passed over; every other error of that is answered, and then the
/// Recover stands.
pub fn recover_one<S: NodeStore, T: RoundStore, R: Wait>(
    rt: &R,
    row: &StoreRow<S>,
    states: &StoreRow<T>,
    seat: &mut StoreSeat<S>,
    state: &mut StoreSeat<T>,
    at: i64,
    me: &MemberRow,
) -> Result<Option<Reply>, SubmitError>
    requires of { IsOf row.now seat.old × IsOf states.now state.old }
    requires home { (is_out seat.old ≡ false) × (is_out state.old ≡ false) }
    ensures of { IsOf row.now seat.new × IsOf states.now state.new }
    ensures home { (is_out seat.new ≡ false) × (is_out state.new ≡ false) }
    ensures same { (seat.new.number ≡ seat.old.number) × (seat.new.more ≡ seat.old.more) × (seat.new.parts ≡ seat.old.parts) × (ids seat.new ≡ ids seat.old) }
    ensures same_state { (state.new.number ≡ state.old.number) × (state.new.more ≡ state.old.more) × (state.new.parts ≡ state.old.parts) × (ids state.new ≡ ids state.old) }
    ensures recovers { LooksAndRecovers T.kind T.listed (T.state (first_value states.now).opened.value) S.kind S.listed (S.state (first_value row.now).opened.value) (LeavesRows T.kind T.listed T.state T.tables (T.state (first_value states.now).opened.value)) None at me.now seat.old.number state.old.number result (known seat.old) (known seat.new) (known state.old) (known state.new) }
{
    recover_since(rt, row, states, seat, state, None, at, me)
}
