//! What a node does while nothing is due: it rests and looks, and asks nothing of the store.
ghost use Rattle.std.specs.Prelude.{◌≡◌, false};
ghost use Rattle.qz_row_lock.specs.Seats.{IsOf, mine, is_out};
ghost use Rattle.qz_serve.specs.Asking.{KeepsSeat, deeds};

use qz_rounds::{NodeStore, SharedClock};
use qz_shared::{StoreRow, StoreSeat};
use std::sync::Wait;

/// How long a node rests at least before it looks again, in ms.
const SHORTEST_REST: i64 = 1;

/// How long it rests at most, in ms: what other nodes make due earlier, it sees after so long.
const LONGEST_REST: i64 = 1000;

// The least next time of a WAITING trigger, in ms since 1970-01-01T00:00:00Z. It waits for the store and leaves it as it is.
fn look<S: NodeStore, R: Wait>(rt: &R, row: &StoreRow<S>, seat: &mut StoreSeat<S>) -> Option<i64>
    requires of { IsOf row.now seat.old }
    requires home { is_out seat.old ≡ false }
    ensures of { IsOf row.now seat.new }
    ensures home { is_out seat.new ≡ false }
    ensures same { KeepsSeat seat.old seat.new }
    ensures mine { mine seat.new ≡ mine seat.old }
    ensures deeds { deeds row.now seat.new ≡ deeds row.now seat.old }
{
    let held = row.take(rt, seat);
    let due = held.store().next_due();
    row.give(seat, held);
    due
}

// Whether something is due by this moment.
fn is_due(due: Option<i64>, at: i64) -> bool {
    match due {
        Some(next) => next <= at,
        None => false,
    }
}

// How long a node rests, in ms, that works up to `until` and looks at `at`: until something is due, but neither too short nor too
// long.
fn rest_of(due: Option<i64>, at: i64, until: i64) -> u32 {
    let end = match due {
        Some(next) => next.min(until),
        None => until,
    };
    let millis = end.saturating_sub(at).clamp(SHORTEST_REST, LONGEST_REST);
    u32::try_from(millis).unwrap_or(1000)
}

/// Rests until something is due, or the moment has come up to which the node works. The store is looked at before and after each
/// rest.
pub(super) fn rest<S: NodeStore, R: Wait, C: SharedClock>(
    rt: &R,
    row: &StoreRow<S>,
    clock: &C,
    until: i64,
    seat: &mut StoreSeat<S>,
)
    requires of { IsOf row.now seat.old }
    requires home { is_out seat.old ≡ false }
    ensures of { IsOf row.now seat.new }
    ensures home { is_out seat.new ≡ false }
    ensures same { KeepsSeat seat.old seat.new }
    ensures mine { mine seat.new ≡ mine seat.old }
    ensures deeds { deeds row.now seat.new ≡ deeds row.now seat.old }
{
    let mut due = look(rt, row, seat);
    'rests: for _ in rt.forever() {
        clock.rest(rt, rest_of(due, clock.now(), until));
        due = look(rt, row, seat);
        let at = clock.now();
        if at >= until || is_due(due, at) {
            return;
        }
    }
    unreachable!()
}
